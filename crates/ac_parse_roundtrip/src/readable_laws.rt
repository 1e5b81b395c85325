ghost use Rattle.ac_parse_roundtrip.specs.RoundTrip.{CanonicalTextsAreReadBack};
ghost use Rattle.ac_parse_roundtrip.specs.Readability.{ConditionsAreReadable, FormsAreReadable, ProgramsAreReadable};

/// Where no rule is broken in an index expression, each coefficient other than 0 of its form belongs to a name that stands for
/// that column where the expression is. The same holds of what each quotient of the form divides. The quotients are distinct,
/// each counts and may be divided there, and all numbers are small: at most 2^31 away from 0.
pub fn forms_are_readable()
    ensures { FormsAreReadable }
{}

/// Where no rule is broken in a condition, the same holds of the form of each of its comparisons. A form of which a divisor is
/// tested has no quotient, and it may be divided there.
pub fn conditions_are_readable()
    ensures { ConditionsAreReadable }
{}

/// The program of a text that is in the grammar and breaks no rule is readable. Its canonical text declares each name once; each
/// name in it stands for the parameter, the iterator or the array that the program has there, and the name of a function for
/// nothing. Numbers, parameters, arrays, dimensions, loops, values, assignments and their quotients are within the limits. Each
/// loop has a step other than 0 and a comparison that ends it.
pub fn programs_are_readable()
    ensures { ProgramsAreReadable }
{}

/// The canonical text of the program of a text, as `print_program` of ac_syntax prints it, is a text of the same program but for
/// places, if it keeps the limits on bytes and nesting: no more than 65,536 bytes, and constructs that nest at most 128 deep.
pub fn canonical_texts_are_read_back()
    ensures { CanonicalTextsAreReadBack }
{}
