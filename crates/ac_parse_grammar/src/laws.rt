ghost use Rattle.ac_parse_grammar.specs.FileLaws.{HasOneTree, HasOneFault, HasNotBoth};

/// What the tokens of a file determine: their tree, or else their first fault, of one kind and at one place.
pub fn trees_are_determined()
    ensures tree { HasOneTree }
    ensures fault { HasOneFault }
    ensures either { HasNotBoth }
{}
