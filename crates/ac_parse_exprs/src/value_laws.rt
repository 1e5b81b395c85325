ghost use Rattle.ac_parse_exprs.specs.ValueTerms.{ValuesHaveTerms};

/// A right side that breaks no rule has in the program the value that it has as it is written: a term over the cells that it
/// reads, and so a value whatever the symbols mean.
pub fn right_sides_have_their_terms()
    ensures terms { ValuesHaveTerms }
{}
