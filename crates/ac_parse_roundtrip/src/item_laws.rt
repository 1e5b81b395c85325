ghost use Rattle.std.specs.Prelude.{◌≡◌};
ghost use Rattle.ac_syntax.specs.declared.tree.Program.{Program};
ghost use Rattle.ac_syntax.specs.Text.{program_text};
ghost use Rattle.ac_lex.specs.Tokens.{AreTokens};
ghost use Rattle.ac_parse_roundtrip.specs.Items.{spelled, program, lexemes};
ghost use Rattle.ac_parse_roundtrip.specs.ProgramWords.{HasWords};

/// The items of a program spell its canonical text.
pub fn texts_are_spelled()
    ensures { (p : Program) → spelled (program p) ≡ program_text p }
{}

/// The tokens among the items of a program, each at its place, are those of its canonical text, if the names of the program are
/// words, its numbers have 64 bits, and the arrays and parameters that it names by number are there.
pub fn items_are_tokens()
    ensures { (p : Program) → HasWords p → AreTokens (program_text p) (lexemes 0 (program p)) }
{}
