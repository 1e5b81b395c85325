//! The lines that begin with `#pragma affine`.

ghost use Rattle.std.specs.Prelude.{◌≡◌};
ghost use Rattle.ac_parse_grammar.specs.ReaderCombinators.{Reads};
ghost use Rattle.ac_parse_grammar.specs.PragmasReading as spec;

use crate::conditions::cond;
use crate::cursor::{Cursor, Stop};
use crate::terminal::Terminal;
use crate::tree::{Pragma, Word};
use crate::words::{is_name, name, word};
use ac_base::Items;
use std::alloc::Global;

fn is_symbol(terminal: Terminal) -> bool
    ensures { result ≡ spec.is_symbol terminal }
{
    match terminal {
        Terminal::Plus | Terminal::Minus | Terminal::Star | Terminal::Slash | Terminal::Percent =>
            true,
        _ => is_name(terminal),
    }
}

/// A name, or an operator of two operands.
#[tactic(auto, unfolding(crate::specs::PragmasReading::symbol), using(crate::proofs::StatementTurns::symbol_fits))]
fn symbol(alloc: Global, tokens: &mut Cursor<'_>) -> Result<Word, Stop>
    ensures { Reads (λ word. word) (spec.symbol tokens.old) result tokens.new }
{
    if !is_symbol(tokens.peek()) {
        return Err(Stop::Syntax);
    }
    let token = tokens.take();
    Ok(word(alloc, &token)?)
}

#[tactic(auto, unfolding(crate::specs::PragmasReading::symbols, crate::specs::ReaderCombinators::many, crate::specs::ReaderCombinators::many_from), using(crate::proofs::StatementTurns::turns))]
fn symbols(alloc: Global, tokens: &mut Cursor<'_>) -> Result<Items<Word>, Stop>
    ensures { Reads (λ all. all) (spec.symbols tokens.old) result tokens.new }
{
    let mut all = Items::new(alloc);
    for _turn in 0..tokens.count() {
        if !is_symbol(tokens.peek()) {
            return Ok(all);
        }
        let symbol = symbol(alloc, tokens)?;
        all.push(symbol)?;
    }
    Ok(all)
}

#[tactic(auto, unfolding(crate::specs::PragmasReading::names, crate::specs::ReaderCombinators::many, crate::specs::ReaderCombinators::many_from), using(crate::proofs::StatementTurns::turns))]
fn names(alloc: Global, tokens: &mut Cursor<'_>) -> Result<Items<Word>, Stop>
    ensures { Reads (λ all. all) (spec.names tokens.old) result tokens.new }
{
    let mut all = Items::new(alloc);
    for _turn in 0..tokens.count() {
        if !is_name(tokens.peek()) {
            return Ok(all);
        }
        let name = name(alloc, tokens)?;
        all.push(name)?;
    }
    Ok(all)
}

/// What stands between the start and the end of a line.
#[tactic(auto, unfolding(crate::specs::PragmasReading::pragma_inside))]
fn pragma_inside(alloc: Global, tokens: &mut Cursor<'_>, room: usize) -> Result<Pragma, Stop>
    ensures { Reads (λ line. line) (spec.pragma_inside room tokens.old) result tokens.new }
{
    match tokens.peek() {
        Terminal::Context => {
            tokens.take();
            Ok(Pragma::Context(cond(alloc, tokens, room)?))
        }
        Terminal::Commutative => {
            tokens.take();
            Ok(Pragma::Commutative(symbols(alloc, tokens)?))
        }
        Terminal::Output => {
            tokens.take();
            Ok(Pragma::Output(names(alloc, tokens)?))
        }
        _ => Err(Stop::Syntax),
    }
}

/// A line, whose start comes next.
#[tactic(auto, unfolding(crate::specs::PragmasReading::pragma))]
fn line(alloc: Global, tokens: &mut Cursor<'_>, room: usize) -> Result<Pragma, Stop>
    ensures { Reads (λ line. line) (spec.pragma room tokens.old) result tokens.new }
{
    tokens.take();
    let line = pragma_inside(alloc, tokens, room)?;
    tokens.expect(Terminal::PragmaEnd)?;
    Ok(line)
}

/// All lines up to the first token that begins none.
#[tactic(auto, unfolding(crate::specs::PragmasReading::pragmas, crate::specs::ReaderCombinators::many, crate::specs::ReaderCombinators::many_from), using(crate::proofs::StatementTurns::turns))]
pub fn pragmas(alloc: Global, tokens: &mut Cursor<'_>, room: usize) -> Result<Items<Pragma>, Stop>
    ensures { Reads (λ all. all) (spec.pragmas room tokens.old) result tokens.new }
{
    let mut all = Items::new(alloc);
    for _turn in 0..tokens.count() {
        if !tokens.sees(Terminal::PragmaStart) {
            return Ok(all);
        }
        let line = line(alloc, tokens, room)?;
        all.push(line)?;
    }
    Ok(all)
}
