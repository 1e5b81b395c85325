ghost use Rattle.ac_parse_roundtrip.specs.TreeRoundTrip.{HaveTrees, HaveNoOtherTrees};

/// The tokens of the canonical text of a program are a file of the grammar: they have a tree, and it is one of the program.
///
/// This is so if names are words that the grammar takes as names, numbers are at most 2147483648 in absolute value, divisors are
/// at least 1, and each loop and each branch compares something.
pub fn tokens_have_trees()
    ensures { HaveTrees }
{}

/// Whatever tree the grammar gives for the tokens of the canonical text, however deep constructs may nest, is one of the program.
pub fn trees_are_determined()
    ensures { HaveNoOtherTrees }
{}
