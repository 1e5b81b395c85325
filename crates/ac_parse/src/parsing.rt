// From the bytes of a text to a program.
ghost use Rattle.std.specs.Prelude.{◌≡◌, ◌<◌, length, map, None, IfOk, IfErr, IsErrOf};
ghost use Rattle.ac_syntax.specs.ReadyPrograms.{ReadyProgram};
ghost use Rattle.ac_syntax.specs.Small.{IsSmallProgram};
ghost use Rattle.ac_syntax.specs.declared.tree.Program.{Program};
ghost use Rattle.ac_lex.specs.Lexemes.{lexeme_of};
ghost use Rattle.ac_parse_grammar.specs.declared.tree.File.{File};
ghost use Rattle.ac_parse_grammar.specs.FileGrammar.{IsFile};
ghost use Rattle.ac_parse_rules.specs.Files.{file_broken, program_of};
ghost use Rattle.ac_parse_rules.specs.DeclaredNumbers.{HasDeclaredNumbers, HasInputs, ListsItsParameters};
ghost use Rattle.ac_parse.specs.Program.{IsShort, IsProgramOf};
ghost use Rattle.ac_parse.specs.ParseAnswers.{HasSourceFault, IsOnlyProgram};
ghost use Rattle.ac_parse.specs.TextFaults.{IsTokensAnswer};

use crate::faults::SourceFault;
use ac_lex::{Token, lex};
use ac_parse_grammar::read;
use ac_parse_rules::apply;
use ac_parse_rules::fault::Which;
use ac_syntax::tree::{Place, Program};
use std::alloc::Global;

const MAX_BYTES: usize = 65536;

const START: Place = Place { at: 0 };

/// The program of the tokens of a text that ends at `end`.
fn parse_tokens(alloc: Global, tokens: &[Token<'_>], end: u32) -> Result<Program, SourceFault>
    ensures answer { IsTokensAnswer end (map lexeme_of tokens.now) result }
    ensures only { (file : File) → IsFile 128 (map lexeme_of tokens.now) file → file_broken file ≡ None → IsOnlyProgram (program_of file) result }
    ensures ready { IfOk result ReadyProgram }
    ensures declared { IfOk result HasDeclaredNumbers }
    ensures parameters { IfOk result ListsItsParameters }
    ensures inputs { IfOk result HasInputs }
    ensures small { IfOk result IsSmallProgram }
{
    let file = read(alloc, tokens, end)?;
    let program = apply(alloc, &file)?;
    Ok(program)
}

/// The program of a text that is not too long.
fn parse_short(alloc: Global, bytes: &[u8]) -> Result<Program, SourceFault>
    requires { IsShort bytes.now }
    ensures program { IfOk result (IsProgramOf bytes.now) }
    ensures only { (program : Program) → IsProgramOf bytes.now program → IsOnlyProgram program result }
    ensures fault { IfErr result (HasSourceFault bytes.now) }
    ensures ready { IfOk result ReadyProgram }
    ensures declared { IfOk result HasDeclaredNumbers }
    ensures parameters { IfOk result ListsItsParameters }
    ensures inputs { IfOk result HasInputs }
    ensures small { IfOk result IsSmallProgram }
{
    let tokens = lex(alloc, bytes)?;
    parse_tokens(alloc, &tokens, bytes.len() as u32)
}

/// The program of a source text.
///
/// The language is a subset of C (ISO/IEC 9899): one function over integer parameters and arrays. Its loops, conditions and
/// subscripts are affine, or have quotients of affine expressions by numbers. A refusal says what is wrong and where, by the number
/// of the byte: first a text of more than 65,536 bytes, then the first byte with which no token goes on, then the first token with
/// which no file goes on or nests too deep, and then the first rule that the file breaks.
pub fn parse(alloc: Global, bytes: &[u8]) -> Result<Program, SourceFault>
    // What is answered is the program that the whole text has, and it is answered of each text that has one.
    ensures program { IfOk result (IsProgramOf bytes.now) }
    ensures only { (program : Program) → IsProgramOf bytes.now program → IsOnlyProgram program result }

    // Index expressions have a coefficient for each parameter and iterator, divisors are at least 1, loops end, and branches have conditions.
    ensures ready { IfOk result ReadyProgram }
    // Each number of an array or a parameter is one that the program has, and its parameter list has them in order.
    ensures declared { IfOk result HasDeclaredNumbers }
    ensures parameters { IfOk result ListsItsParameters }
    ensures inputs { IfOk result HasInputs }
    // Numbers are at most 2^31 in absolute value, with at most 4 parameters and 6 loops around a statement.
    ensures small { IfOk result IsSmallProgram }

    // A text that is too long is always answered so.
    ensures long { 65536 < length bytes.now → IsErrOf result (SourceFault.Limit Which.File (record { at = 0 })) }
    ensures fault { IfErr result (HasSourceFault bytes.now) }
{
    if bytes.len() > MAX_BYTES {
        return Err(SourceFault::Limit(Which::File, START));
    }
    parse_short(alloc, bytes)
}
