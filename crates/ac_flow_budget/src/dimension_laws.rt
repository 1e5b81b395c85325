//! The dimensions of cells, in words.
ghost use Rattle.std.specs.Prelude.{◌≡◌, ℕ, List, None};
ghost use Rattle.ac_syntax.specs.Dimensions.{HasDimensions};
ghost use Rattle.ac_syntax.specs.declared.tree.Program.{Program};
ghost use Rattle.ac_parse_grammar.specs.declared.tree.File.{File};
ghost use Rattle.ac_parse_rules.specs.Files.{file_broken, program_of};
ghost use Rattle.ac_parse.specs.Program.{IsProgramOf};

/// In the program of a file that breaks no rule each cell that is read or assigned has a subscript for each dimension of its
/// array.
pub fn cells_have_dimensions()
    ensures { (file : File) → file_broken file ≡ None → HasDimensions (program_of file) }
{}

/// So it is in the program of a text, which `parse` answers.
pub fn texts_have_dimensions()
    ensures { (bytes : List ℕ) (program : Program) → IsProgramOf bytes program → HasDimensions program }
{}
