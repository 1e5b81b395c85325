//! The lines of a text, one after the other.
ghost use Rattle.std.specs.Prelude.{◌≡◌, ◌++◌, ◌∷◌, [], ℕ, List, Bool, IfOk, OnOk, OnErr, MatchOption};
ghost use Rattle.ac_prooftext.specs.LineOrder.{opens};
ghost use Rattle.ac_prooftext.specs.ProofTexts.{format_line};

use crate::outline::Outline;
use ac_claims::item::Item;
use ac_prooftext_lines::read_item;
use std::alloc::{AllocError, Global};

/// What is known of a text after some of its lines.
#[derive(Clone, Copy, PartialEq, Eq, Drop)]
pub enum Reading {
    /// There was no line.
    Unopened,
    /// All lines may stand where they do.
    Within,
    /// A line is malformed or may not stand where it does.
    Faulty,
}

/// The lines of a text so far: how many there were before the first that is malformed or may not stand where it does,
/// and how many branches these have open on one path at most.
#[derive(Drop)]
pub struct LineReader {
    pub reading: Reading,
    pub outline: Outline,
    pub lines: u64,
    pub deepest: u64,
}

/// How many branches a line opens.
fn opened_by(item: &Item) -> u64
    ensures { result ≡ opens item.now }
{
    match item {
        Item::Split(_) | Item::Residue(..) | Item::Go { .. } => 1,
        _ => 0,
    }
}

/// Whether the format that a line names has the shapes of the programs; none where it names none.
fn format_of(line: &[u8]) -> Option<bool>
    ensures { MatchOption result ((shapes : Bool) → ¬ (line.now ≡ format_line shapes)) (λ shapes. line.now ≡ format_line shapes) }
{
    if line == b"affine-proof 1".as_slice() {
        return Some(false);
    }
    if line == b"affine-proof 2".as_slice() {
        return Some(true);
    }
    None
}

impl LineReader {
    ghost use Rattle.ac_prooftext.specs.LinePrefixes.{Took, Gave};

    /// Before the first line.
    pub fn new(alloc: Global) -> LineReader
        ensures { Took [] result }
    {
        LineReader {
            reading: Reading::Unopened,
            outline: Outline::new(alloc, false),
            lines: 0,
            deepest: 0,
        }
    }

    /// Takes the line of the format.
    fn take_format(&mut self, alloc: Global, line: &[u8])
        requires { self.old.reading ≡ Reading.Unopened }
        ensures { (ls : List (List ℕ)) → Took ls self.old → Took (ls ++ line.now ∷ []) self.new }
    {
        let Some(shapes) = format_of(line) else {
            self.reading = Reading::Faulty;
            return;
        };
        self.reading = Reading::Within;
        self.outline = Outline::new(alloc, shapes);
        self.lines = 1;
    }

    /// Takes the line of an item, and gives the item where it may stand there.
    fn take_item(&mut self, alloc: Global, line: &[u8]) -> Result<Option<Item>, AllocError>
        requires { self.old.reading ≡ Reading.Within }
        ensures ok { OnOk result ((ls : List (List ℕ)) → Took ls self.old → Took (ls ++ line.now ∷ []) self.new) }
        ensures item { IfOk result (Gave self.old line.now self.new) }
        ensures err { OnErr result (self.new ≡ self.old) }
    {
        let Some(item) = read_item(alloc, line)? else {
            self.reading = Reading::Faulty;
            return Ok(None);
        };
        let depth = (self.outline.depth() as u64).saturating_add(opened_by(&item));
        let may_stand = self.outline.take(&item)?;
        if !may_stand {
            self.reading = Reading::Faulty;
            return Ok(None);
        }
        self.lines = self.lines.saturating_add(1);
        self.deepest = self.deepest.max(depth);
        Ok(Some(item))
    }

    /// Takes the next line, without its LF, and gives the item that it spells. None for the line of the format, and from the
    /// first line on that is malformed or may not stand where it does. After want of memory the reader is as before.
    pub fn take_line(&mut self, alloc: Global, line: &[u8]) -> Result<Option<Item>, AllocError>
        ensures ok { OnOk result ((ls : List (List ℕ)) → Took ls self.old → Took (ls ++ line.now ∷ []) self.new) }
        ensures item { IfOk result (Gave self.old line.now self.new) }
        ensures err { OnErr result (self.new ≡ self.old) }
    {
        match self.reading {
            Reading::Unopened => {
                self.take_format(alloc, line);
                Ok(None)
            }
            Reading::Within => self.take_item(alloc, line),
            Reading::Faulty => Ok(None),
        }
    }
}
