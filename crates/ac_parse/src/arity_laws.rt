//! The arguments of calls, in words.
ghost use Rattle.std.specs.Prelude.{◌≡◌, ℕ, List, None};
ghost use Rattle.ac_syntax.specs.declared.tree.Program.{Program};
ghost use Rattle.ac_syntax.specs.declared.tree.Stmt.{Stmt};
ghost use Rattle.ac_parse_grammar.specs.declared.tree.File.{File};
ghost use Rattle.ac_parse_rules.specs.Files.{file_broken, program_of};
ghost use Rattle.ac_parse.specs.Program.{IsProgramOf};
ghost use Rattle.ac_syntax.specs.ExecutedCalls.{HaveArities};
ghost use Rattle.ac_parse.specs.Arities.{AllHaveArities};

/// In the program of a file that breaks no rule each call has as many arguments as its symbol says.
pub fn files_have_arities()
    ensures { (file : File) → file_broken file ≡ None → AllHaveArities (program_of file).body }
{}

/// So it is in the program of a text, which `parse` answers.
pub fn texts_have_arities()
    ensures { (bytes : List ℕ) (program : Program) → IsProgramOf bytes program → AllHaveArities program.body }
{}

/// Then each call of an assignment that is executed has as many.
pub fn executions_have_arities()
    ensures { (body : List Stmt) → AllHaveArities body → HaveArities body }
{}
