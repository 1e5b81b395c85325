ghost use Rattle.std.specs.Prelude.{◌≡◌, Ok, IfOk};
ghost use Rattle.ac_top.specs.RunStages.{said_by, told};
ghost use Rattle.ac_top.specs.ConsoleLines as text;

use crate::places::push_place;
use ac_lex::LexFault;
use ac_parse::{SourceFault, Which};
use ac_syntax::tree::Place;
use std::alloc::{AllocError, Global};

/// What is wrong with a text, and where.
#[derive(Clone, Copy)]
pub struct Complaint {
    pub words: &'static [u8],
    pub place: Place,
}

/// The limit that a text exceeds.
fn limit_words(which: Which) -> &'static [u8]
    ensures { result.now ≡ text.limit_words which }
{
    match which {
        Which::File => b"limit file",
        Which::Nesting => b"limit nesting",
        Which::Parameters => b"limit parameters",
        Which::Arrays => b"limit arrays",
        Which::Dimensions => b"limit dimensions",
        Which::Depth => b"limit depth",
        Which::Assignments => b"limit assignments",
        Which::Nodes => b"limit nodes",
        Which::Literal => b"limit literal",
        Which::Coefficient => b"limit coefficient",
        Which::Pieces => b"limit pieces",
        Which::Quotients => b"limit quotients",
    }
}

/// What is said of a place.
pub fn about(place: Place, words: &'static [u8]) -> Complaint
    ensures { said_by result ≡ record { words = words.now; at = place.at } }
{
    Complaint { words, place }
}

/// What the tokens of a text have wrong.
fn wrong_bytes(fault: LexFault) -> Result<Complaint, AllocError>
    ensures { told result ≡ text.complaint (SourceFault.Lex fault) }
{
    match fault {
        LexFault::BadByte(place) => Ok(about(place, b"bad byte")),
        LexFault::BadNumber(place) => Ok(about(place, b"bad number")),
        LexFault::LongName(place) => Ok(about(place, b"long name")),
        LexFault::OpenComment(place) => Ok(about(place, b"open comment")),
        LexFault::Memory(error) => Err(error),
    }
}

/// What a fault says of its text. Want of memory says nothing of it.
pub fn complaint_of(fault: SourceFault) -> Result<Complaint, AllocError>
    ensures { told result ≡ text.complaint fault }
{
    match fault {
        SourceFault::Lex(fault) => wrong_bytes(fault),
        SourceFault::Syntax(place) => Ok(about(place, b"syntax")),
        SourceFault::NotAffine(place) => Ok(about(place, b"not affine")),
        SourceFault::Undeclared(place) => Ok(about(place, b"undeclared")),
        SourceFault::Misused(place) => Ok(about(place, b"misused")),
        SourceFault::Duplicate(place) => Ok(about(place, b"duplicate")),
        SourceFault::Endless(place) => Ok(about(place, b"endless loop")),
        SourceFault::Limit(which, place) => Ok(about(place, limit_words(which))),
        SourceFault::Memory(error) => Err(error),
    }
}

/// The line that says what is wrong with the text of a named file, and where.
pub fn refusal_line(
    alloc: Global,
    name: &[u8],
    bytes: &[u8],
    complaint: Complaint,
) -> Result<Vec<u8>, AllocError>
    ensures { IfOk result (λ line. line.items ≡ text.refusal_line name.now bytes.now (said_by complaint)) }
{
    let mut line = Vec::new(alloc);
    push_place(&mut line, name, bytes, complaint.place.at)?;
    line.extend_from_slice(b": ")?;
    line.extend_from_slice(complaint.words)?;
    line.push(b'\n')?;
    Ok(line)
}
