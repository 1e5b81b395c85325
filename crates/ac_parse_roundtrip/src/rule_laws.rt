ghost use Rattle.ac_parse_roundtrip.specs.RuleRoundTrip.{FormsAreReadBack, ConditionsAreReadBack, ValuesAreReadBack, StatementsAreReadBack, ProgramsAreReadBack};

/// The rules read a form back from the tree of its canonical text: the same numbers, and no rule is broken.
pub fn forms_are_read_back()
    ensures { FormsAreReadBack }
{}

/// The rules read a condition back from the trees of its canonical text: the same comparisons in order, and no rule is broken.
pub fn conditions_are_read_back()
    ensures { ConditionsAreReadBack }
{}

/// The rules read a value back from the tree of its canonical text: the same calls, cells and numbers, and no rule is broken.
pub fn values_are_read_back()
    ensures { ValuesAreReadBack }
{}

/// The rules read a statement back from the tree of its canonical text: the same loops, branches and assignments in order, and
/// no rule is broken.
pub fn statements_are_read_back()
    ensures { StatementsAreReadBack }
{}

/// The rules read a program back from the tree of its canonical text: no rule is broken, and the program is the same but for the
/// places of its parts. The program is to be readable: each name of its text stands, where it is written, for what the program
/// has there, its quotients are distinct and may be divided where they are, and numbers, loops, nodes, assignments and their
/// quotients are within the limits.
pub fn programs_are_read_back()
    ensures { ProgramsAreReadBack }
{}
