//! Files: one function, and the pragma lines before and behind it.

ghost use Rattle.std.specs.Prelude.{◌≡◌, IfOk, map};
ghost use Rattle.ac_lex.specs.Lexemes.{lexeme_of};
ghost use Rattle.ac_parse_grammar.specs.declared.tree.File.{File};
ghost use Rattle.ac_parse_grammar.specs.FileGrammar.{IsFile};
ghost use Rattle.ac_parse_grammar.specs.FileAnswers as answer;
ghost use Rattle.ac_parse_grammar.specs.FileAnswers.{IsFileAnswer, IsOnlyFile};
ghost use Rattle.ac_parse_grammar.specs.ReaderCombinators.{Reads};
ghost use Rattle.ac_parse_grammar.specs.FileReading as spec;

use crate::constructs::{joined, open};
use crate::cursor::{Cursor, Stop};
use crate::declarations::{declarations, parameters};
use crate::pragmas::pragmas;
use crate::statements::statements;
use crate::terminal::Terminal;
use crate::tree::{Declared, File, Pragma, Statement, Word};
use crate::words::name;
use ac_base::Items;
use ac_lex::tokens::Token;
use ac_syntax::tree::Place;
use std::alloc::{AllocError, Global};

/// What stands in the braces of a function.
#[derive(Drop)]
pub struct Body {
    pub locals: Items<Declared>,
    pub statements: Items<Statement>,
}

#[derive(Drop)]
pub struct Function {
    pub name: Word,
    pub params: Items<Declared>,
    pub body: Body,
}

#[tactic(auto, unfolding(crate::specs::FileReading::body))]
fn function_body(alloc: Global, tokens: &mut Cursor<'_>, room: usize) -> Result<Body, Stop>
    ensures { Reads (λ body. body) (spec.body room tokens.old) result tokens.new }
{
    let inner = open(tokens, Terminal::OpenBrace, room)?;
    let locals = declarations(alloc, tokens, inner)?;
    let statements = statements(alloc, tokens, inner)?;
    tokens.expect(Terminal::CloseBrace)?;
    Ok(Body { locals, statements })
}

#[tactic(auto, unfolding(crate::specs::FileReading::function))]
fn read_function(alloc: Global, tokens: &mut Cursor<'_>, room: usize) -> Result<Function, Stop>
    ensures { Reads (λ function. function) (spec.function room tokens.old) result tokens.new }
{
    tokens.expect(Terminal::Void)?;
    let name = name(alloc, tokens)?;
    let inner = open(tokens, Terminal::Open, room)?;
    let params = parameters(alloc, tokens, inner)?;
    tokens.expect(Terminal::Close)?;
    let body = function_body(alloc, tokens, room)?;
    Ok(Function { name, params, body })
}

fn file_of(
    before: Items<Pragma>,
    function: Function,
    behind: Items<Pragma>,
) -> Result<File, AllocError>
    ensures { IfOk result (λ file. file ≡ spec.file_of before function behind) }
{
    let Function { name, params, body } = function;
    let Body { locals, statements } = body;
    Ok(File {
        name,
        params,
        locals,
        body: statements,
        pragmas: joined(before, behind)?,
    })
}

/// Why tokens are no file, with the place of the first token with which no file goes on.
#[derive(Clone, Copy, PartialEq, Eq, Drop)]
pub enum GrammarFault {
    /// No file at all goes on with this token.
    Syntax(Place),
    /// Files go on with this token, which opens one construct more than may nest.
    Nesting(Place),
    Memory(AllocError),
}

/// How many constructs may nest.
const MAX_NESTING: usize = 128;

/// A whole file, in which `room` constructs may nest.
#[tactic(auto, unfolding(crate::specs::FileReading::file))]
fn read_file(alloc: Global, tokens: &mut Cursor<'_>, room: usize) -> Result<File, Stop>
    ensures { Reads (λ file. file) (spec.file room tokens.old) result tokens.new }
{
    let before = pragmas(alloc, tokens, room)?;
    let function = read_function(alloc, tokens, room)?;
    let behind = pragmas(alloc, tokens, room)?;
    tokens.expect(Terminal::End)?;
    Ok(file_of(before, function, behind)?)
}

/// The place of the next token, or where the file ends if none is left.
fn place_at(tokens: &Cursor<'_>, end: u32) -> Place
    ensures { result ≡ answer.place_at end tokens.now }
{
    if tokens.count() == 0 {
        Place { at: end }
    } else {
        tokens.place()
    }
}

fn told(found: Result<File, Stop>, place: Place) -> Result<File, GrammarFault>
    ensures { result ≡ answer.told found place }
{
    match found {
        Ok(file) => Ok(file),
        Err(Stop::Syntax) => Err(GrammarFault::Syntax(place)),
        Err(Stop::Nesting) => Err(GrammarFault::Nesting(place)),
        Err(Stop::Memory(error)) => Err(GrammarFault::Memory(error)),
    }
}

/// The source tree of a file's tokens, in which at most 128 constructs nest; `end` is the place where the file ends.
///
/// What counts for nesting is each parenthesis, bracket and brace that is open, each unary minus, and each body of a loop or of a
/// branch, which opens at its first token. A refusal has the place of the first token with which no such file goes on.
pub fn read(alloc: Global, tokens: &[Token<'_>], end: u32) -> Result<File, GrammarFault>
    ensures exact { IsFileAnswer 128 end (map lexeme_of tokens.now) result }
    // What is a file is read, unless memory fails.
    ensures only { (file : File) → IsFile 128 (map lexeme_of tokens.now) file → IsOnlyFile file result }
{
    let mut left = Cursor::new(tokens);
    let found = read_file(alloc, &mut left, MAX_NESTING);
    told(found, place_at(&left, end))
}
