ghost use Rattle.ac_parse_roundtrip.specs.ProgramNames.{TokensAreSpelled, ProgramsHaveNames};

/// Each token of a text is spelled as its kind says: a word is 1 to 64 letters, digits and underscores of which the first is
/// no digit, a decimal is a decimal constant of at most 64 bytes, a number is a whole number, and a mark is one of the marks.
pub fn tokens_are_spelled()
    ensures { TokensAreSpelled }
{}

/// The program of a text that is in the grammar and breaks no rule has words for names: its own name and those of its
/// parameters, arrays and iterators are words that the grammar takes as names. Each symbol is a function, a decimal without
/// arguments, an operator of two arguments, or a minus of one, and each commutative one a function or an operator. Each
/// condition of a loop or a branch has a comparison at least. No number is more than 2^31 away from 0, divisors are at least 1,
/// and each array or parameter that is spoken of by its number is there.
pub fn programs_have_names()
    ensures { ProgramsHaveNames }
{}
