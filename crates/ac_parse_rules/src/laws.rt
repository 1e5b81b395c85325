ghost use Rattle.ac_parse_rules.specs.LawsOfPrograms.{ProgramsDoAsWritten};
ghost use Rattle.ac_parse_rules.specs.LawsOfNames.{FilesAreNumbered, NamesAreDeclaredOnce, NoneIsUndeclared, NamesMeanTheirOwn};

/// The names of a file, and of the declarations in front of an extent, are numbered as `ac_parse_exprs::form_laws` want them.
pub fn names_are_numbered()
    ensures files { FilesAreNumbered }
{}

/// The program of a file that breaks no rule does what the file says: its loops, branches and assignments are those of the text,
/// in order, each with the start, the condition, the step, the cell and the value that are written there, and its context is
/// that of the context lines.
pub fn programs_do_as_written()
    ensures statements { ProgramsDoAsWritten }
{}

/// A file that breaks no rule declares no name twice, and each name that it uses is declared in it or is that of a loop that
/// runs there; what is called needs no declaration. A declared name means the integer parameter or the array of the program
/// that has this name, an array with as many extents as the name has dimensions.
pub fn names_are_declared_once()
    ensures once { NamesAreDeclaredOnce }
    ensures used { NoneIsUndeclared }
    ensures own { NamesMeanTheirOwn }
{}
