ghost use Rattle.std.specs.Prelude.{◌≡◌, codes, map, option_map, MatchOption, IfOk};
ghost use Rattle.std.specs.List.{AllByRecursion};
ghost use Rattle.std.specs.Str.{IsUtf8};
ghost use Rattle.clap.specs.Words.{first_of, found_of, kind_of, rows_of};
ghost use Rattle.ac_cli_args.specs.Commands.{Asked, Asks, spelled, asked_by, IsSpelled};

use crate::line::command_line;
use crate::numbers::{limit_or, seed, size};
use crate::symbols::is_symbol_list;
use clap::error::ErrorKind;
use clap::{ArgMatches, Error};
use std::alloc::{AllocError, Global};

/// What the words ask for.
#[derive(Clone, Copy, PartialEq, Eq)]
pub enum Command<'a> {
    /// `prove A B [--budget n] [--proof P]`: compare the files A and B at each valuation of their context, with at most n steps for
    /// each question, and write what proves them equal to the file P.
    Prove {
        left: &'a [u8],
        right: &'a [u8],
        budget: u64,
        proof: Option<&'a [u8]>,
    },
    /// `check A B P`: test the proof file P against the files A and B.
    Check {
        left: &'a [u8],
        right: &'a [u8],
        proof: &'a [u8],
    },
    /// `instance A B [--at W] [--limit n]`: run both at the parameters that the word W gives, with at most n events.
    Instance {
        left: &'a [u8],
        right: &'a [u8],
        at: Option<&'a [u8]>,
        limit: u64,
    },
    /// `flow A`: tell where each read of the file A has its value from.
    Flow {
        file: &'a [u8],
    },
    /// `gen SEED SIZE`: make a pair of programs of that many stages from the seed, prove it, and run it.
    Gen {
        seed: u64,
        size: u32,
    },
    /// `legal A S`: tell whether the order that the file S gives the assignments of the file A keeps what they depend on.
    Legal {
        file: &'a [u8],
        order: &'a [u8],
    },
    /// `aprove A B SYMBOLS`: compare the files A and B, with each symbol that the word SYMBOLS lists taken as associative and commutative
    /// inside one assignment.
    Aprove {
        left: &'a [u8],
        right: &'a [u8],
        symbols: &'a [u8],
    },
}

/// The budget where none is given.
const DEFAULT_BUDGET: u64 = 50_000;

/// The limit of events where none is given, and the greatest one.
const MAX_LIMIT: u64 = 1_000_000;

/// An argument's value.
fn text<'a>(found: &ArgMatches<'a>, id: &str) -> Option<&'a str>
    ensures { option_map (λ s. s.now) result ≡ first_of id.now (rows_of (found_of found.now)) }
{
    found.get_str(id)
}

/// The bytes of an argument's value.
fn bytes<'a>(found: &ArgMatches<'a>, id: &str) -> Option<&'a [u8]>
    ensures { option_map (λ s. s.now) result ≡ first_of id.now (rows_of (found_of found.now)) }
{
    match text(found, id) {
        Some(text) => Some(text.as_bytes()),
        None => None,
    }
}

/// What `prove` asks for with the values that were found.
fn prove_of<'a>(found: &ArgMatches<'a>) -> Option<Command<'a>>
    ensures { MatchOption result ((asked : Asked) → ¬ (Asks (codes "prove") (rows_of (found_of found.now)) asked)) (λ c. Asks (codes "prove") (rows_of (found_of found.now)) (asked_by c)) }
{
    let left = bytes(found, "A")?;
    let right = bytes(found, "B")?;
    let budget = limit_or(text(found, "budget"), DEFAULT_BUDGET)?;
    Some(Command::Prove {
        left,
        right,
        budget,
        proof: bytes(found, "proof"),
    })
}

/// What `check` asks for with the values that were found.
fn check_of<'a>(found: &ArgMatches<'a>) -> Option<Command<'a>>
    ensures { MatchOption result ((asked : Asked) → ¬ (Asks (codes "check") (rows_of (found_of found.now)) asked)) (λ c. Asks (codes "check") (rows_of (found_of found.now)) (asked_by c)) }
{
    let left = bytes(found, "A")?;
    let right = bytes(found, "B")?;
    let proof = bytes(found, "P")?;
    Some(Command::Check { left, right, proof })
}

/// What `instance` asks for with the values that were found.
fn instance_of<'a>(found: &ArgMatches<'a>) -> Option<Command<'a>>
    ensures { MatchOption result ((asked : Asked) → ¬ (Asks (codes "instance") (rows_of (found_of found.now)) asked)) (λ c. Asks (codes "instance") (rows_of (found_of found.now)) (asked_by c)) }
{
    let left = bytes(found, "A")?;
    let right = bytes(found, "B")?;
    let limit = limit_or(text(found, "limit"), MAX_LIMIT)?;
    Some(Command::Instance {
        left,
        right,
        at: bytes(found, "at"),
        limit,
    })
}

/// What `flow` asks for with the value that was found.
fn flow_of<'a>(found: &ArgMatches<'a>) -> Option<Command<'a>>
    ensures { MatchOption result ((asked : Asked) → ¬ (Asks (codes "flow") (rows_of (found_of found.now)) asked)) (λ c. Asks (codes "flow") (rows_of (found_of found.now)) (asked_by c)) }
{
    let file = bytes(found, "A")?;
    Some(Command::Flow { file })
}

/// What `gen` asks for with the values that were found.
fn gen_of<'a>(found: &ArgMatches<'a>) -> Option<Command<'a>>
    ensures { MatchOption result ((asked : Asked) → ¬ (Asks (codes "gen") (rows_of (found_of found.now)) asked)) (λ c. Asks (codes "gen") (rows_of (found_of found.now)) (asked_by c)) }
{
    let seed = seed(text(found, "SEED")?)?;
    let size = size(text(found, "SIZE")?)?;
    Some(Command::Gen { seed, size })
}

/// What `legal` asks for with the values that were found.
fn legal_of<'a>(found: &ArgMatches<'a>) -> Option<Command<'a>>
    ensures { MatchOption result ((asked : Asked) → ¬ (Asks (codes "legal") (rows_of (found_of found.now)) asked)) (λ c. Asks (codes "legal") (rows_of (found_of found.now)) (asked_by c)) }
{
    let file = bytes(found, "A")?;
    let order = bytes(found, "S")?;
    Some(Command::Legal { file, order })
}

/// What `aprove` asks for with the values that were found.
fn aprove_of<'a>(alloc: Global, found: &ArgMatches<'a>) -> Result<Option<Command<'a>>, AllocError>
    ensures { IfOk result (λ command. MatchOption command ((asked : Asked) → ¬ (Asks (codes "aprove") (rows_of (found_of found.now)) asked)) (λ c. Asks (codes "aprove") (rows_of (found_of found.now)) (asked_by c))) }
{
    let Some(left) = bytes(found, "A") else {
        return Ok(None);
    };
    let Some(right) = bytes(found, "B") else {
        return Ok(None);
    };
    let Some(symbols) = bytes(found, "SYMBOLS") else {
        return Ok(None);
    };
    if is_symbol_list(alloc, symbols)? {
        Ok(Some(Command::Aprove {
            left,
            right,
            symbols,
        }))
    } else {
        Ok(None)
    }
}

/// What a subcommand other than `aprove` asks for with the values that were found.
fn asked_of<'a>(name: &str, found: &ArgMatches<'a>) -> Option<Command<'a>>
    requires { ¬ (name.now ≡ codes "aprove") }
    ensures { MatchOption result ((asked : Asked) → ¬ (Asks name.now (rows_of (found_of found.now)) asked)) (λ c. Asks name.now (rows_of (found_of found.now)) (asked_by c)) }
{
    if name == "prove" {
        return prove_of(found);
    }
    if name == "check" {
        return check_of(found);
    }
    if name == "instance" {
        return instance_of(found);
    }
    if name == "flow" {
        return flow_of(found);
    }
    if name == "gen" {
        return gen_of(found);
    }
    if name == "legal" {
        return legal_of(found);
    }
    None
}

/// What a subcommand asks for with the values that were found.
fn asked_in<'a>(
    alloc: Global,
    name: &str,
    found: &ArgMatches<'a>,
) -> Result<Option<Command<'a>>, AllocError>
    ensures { IfOk result (λ command. MatchOption command ((asked : Asked) → ¬ (Asks name.now (rows_of (found_of found.now)) asked)) (λ c. Asks name.now (rows_of (found_of found.now)) (asked_by c))) }
{
    if name == "aprove" {
        return aprove_of(alloc, found);
    }
    Ok(asked_of(name, found))
}

/// Fails where memory was wanting in a parse; any other error refuses the words.
fn check_memory(error: &Error) -> Result<(), AllocError>
    ensures { IfOk result (λ u. ¬ (kind_of error.now ≡ ErrorKind.OutOfMemory)) }
{
    if error.kind() == ErrorKind::OutOfMemory {
        return Err(AllocError);
    }
    Ok(())
}

/// What texts ask for; none exactly where clap refuses them for the subcommands, help is asked for, a number is out of its range, or a word
/// is no list of symbols.
///
/// A budget and a limit are each a number from 1 to 1,000,000, a seed is one of 64 bits and a size one from 1 to 12, in digits
/// without leading zeros. A list of symbols has from 1 to 8 different ones, joined by commas. The options of a subcommand stand in any order
/// that clap allows.
pub fn command_of<'a>(
    alloc: Global,
    texts: &'a [&'a str],
) -> Result<Option<Command<'a>>, AllocError>
    ensures { IfOk result (λ found. MatchOption found ((asked : Asked) → ¬ (IsSpelled (map (λ s. s.now) texts.now) asked)) (λ c. IsSpelled (map (λ s. s.now) texts.now) (asked_by c))) }
{
    let line = command_line(alloc)?;
    let found = match line.try_get_matches_from(texts) {
        Ok(found) => found,
        Err(error) => {
            check_memory(&error)?;
            return Ok(None);
        }
    };
    match found.subcommand() {
        Some((name, inner)) => asked_in(alloc, name, inner),
        None => Ok(None),
    }
}

/// The text of a word; none exactly where it is not UTF-8.
fn text_of(word: &Vec<u8>) -> Option<&str>
    ensures { MatchOption result (¬ (IsUtf8 word.now.items)) (λ text. (text.now ≡ word.now.items) × IsUtf8 word.now.items) }
{
    match str::from_utf8(word.as_slice()) {
        Ok(text) => Some(text),
        Err(_) => None,
    }
}

/// The texts of words; none exactly where one of them is not UTF-8.
pub fn texts_of(alloc: Global, words: &[Vec<u8>]) -> Result<Option<Vec<&str>>, AllocError>
    ensures { IfOk result (λ found. MatchOption found (¬ (AllByRecursion IsUtf8 (spelled words.now))) (λ texts. (map (λ s. s.now) texts.items ≡ spelled words.now) × AllByRecursion IsUtf8 (spelled words.now))) }
{
    let mut texts = Vec::new(alloc);
    for word in words {
        let Some(text) = text_of(word) else {
            return Ok(None);
        };
        texts.push(text)?;
    }
    Ok(Some(texts))
}
