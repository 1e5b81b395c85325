ghost use Rattle.ac_parse_exprs.specs.FormValues.{FirstIsLeast, NoFirstIsNone, FormsHaveValues, IndicesHaveValues, ComparisonsHold, ConditionsHold};

/// Of several faults the first is the one at the lowest place, and among those at that place the one of the lowest rank.
/// There is no first only where there is no fault.
pub fn first_fault_is_the_least()
    ensures least { FirstIsLeast }
    ensures none { NoFirstIsNone }
{}

/// Where the rules collect a form of an expression, the form has at every point the value of the expression as it is
/// written, and so has the index expression of the program where no rule is broken.
pub fn forms_have_values()
    ensures forms { FormsHaveValues }
    ensures indices { IndicesHaveValues }
{}

/// Where the rules collect a form of a comparison, the form compares with 0 at every point as the two sides compare, and
/// a condition that breaks no rule holds in the program where it is true as it is written.
pub fn conditions_hold_as_written()
    ensures comparisons { ComparisonsHold }
    ensures conditions { ConditionsHold }
{}
