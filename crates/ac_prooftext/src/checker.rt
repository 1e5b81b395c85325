//! The check of a stream of bytes as a proof.
ghost use Rattle.std.specs.Prelude.{◌≡◌, ◌++◌, ◌∷◌, [], ℕ, List, true, OnOk, OnErr, IsErr, IsTrue, ◌↔◌, ◌<◌, ◌⊎◌};
ghost use Rattle.ac_claims_paths.specs.ModelCalls.{pairing};
ghost use Rattle.ac_claims_paths.specs.PathSteps.{Pairing};
ghost use Rattle.ac_claims.specs.CheckState.{state_of, IsSteady, SamePair};
ghost use Rattle.ac_claims.specs.Soundness.{ArePaired, AreModels, pairing_of};
ghost use Rattle.ac_prooftext.specs.StreamChecks.{IsAnswer, max_bytes, max_depth};
ghost use Rattle.ac_prooftext.specs.CheckProgress.{IsCourse, GoesOn, HasVerdict};

use crate::depths::is_complete;
use crate::lines::LineReader;
use crate::types::CheckFault;
use ac_cert::types::Rule;
use ac_claims::stepper::Stepper;
use ac_claims::types::ProofFault;
use ac_poly::types::Model;
use ac_prooftext_lines::cut;
use ac_syntax::tree::Pair;
use std::alloc::{AllocError, Global};

/// The greatest length of a file in bytes.
const MAX_BYTES: u64 = 67_108_864;

/// The greatest number of branches that are open on one path.
const MAX_DEPTH: u64 = 10_000;

/// The check of a stream of bytes as a proof. It holds the head of the proof, the line under way, the rows of the path under way and,
/// for each open branch that is still to come, the rows that it adds to the front of that path.
#[derive(Drop)]
pub struct Checker<'a> {
    alloc: Global,
    stepper: Stepper<'a>,
    reader: LineReader,
    line: Vec<u8>,
    bytes: u64,
    want: bool,
}

/// Takes a line, without its LF.
fn take_line(
    alloc: Global,
    reader: &mut LineReader,
    stepper: &mut Stepper<'_>,
    line: &[u8],
) -> Result<(), AllocError>
    requires { IsSteady stepper.old }
    ensures course { OnOk result ((ls : List (List ℕ)) → IsCourse (pairing stepper.old.programs) stepper.old.outputs.now ls reader.old stepper.old → IsCourse (pairing stepper.old.programs) stepper.old.outputs.now (ls ++ line.now ∷ []) reader.new stepper.new) }
    ensures steady { IsSteady stepper.new }
    ensures same { SamePair stepper.old stepper.new }
{
    let Some(item) = reader.take_line(alloc, line)? else {
        return Ok(());
    };
    stepper.take(item)
}

/// Takes the line under way with what stands before its LF.
fn end_line(
    alloc: Global,
    reader: &mut LineReader,
    stepper: &mut Stepper<'_>,
    line: &mut Vec<u8>,
    head: &[u8],
) -> Result<(), AllocError>
    requires { IsSteady stepper.old }
    ensures course { OnOk result ((ls : List (List ℕ)) → IsCourse (pairing stepper.old.programs) stepper.old.outputs.now ls reader.old stepper.old → IsCourse (pairing stepper.old.programs) stepper.old.outputs.now (ls ++ (line.old.items ++ head.now) ∷ []) reader.new stepper.new) }
    ensures empty { OnOk result (line.new.items ≡ []) }
    ensures steady { IsSteady stepper.new }
    ensures same { SamePair stepper.old stepper.new }
{
    line.extend_from_slice(head)?;
    take_line(alloc, reader, stepper, line.as_slice())?;
    line.clear();
    Ok(())
}

/// Adds bytes to the line under way.
fn grow_line(line: &mut Vec<u8>, rest: &[u8]) -> Result<(), AllocError>
    ensures { OnOk result (line.new.items ≡ line.old.items ++ rest.now) }
{
    line.extend_from_slice(rest)
}

/// Takes the lines of a piece as far as they go, and what stands behind them; from the line on that is too deep, nothing.
fn take_piece(
    alloc: Global,
    reader: &mut LineReader,
    stepper: &mut Stepper<'_>,
    line: &mut Vec<u8>,
    piece: &[u8],
) -> Result<(), AllocError>
    requires { IsSteady stepper.old }
    ensures course { OnOk result (GoesOn (pairing stepper.old.programs) stepper.old.outputs.now line.old.items reader.old stepper.old piece.now line.new.items reader.new stepper.new) }
    ensures steady { IsSteady stepper.new }
    ensures same { SamePair stepper.old stepper.new }
{
    let mut rest = piece;
    while let Some((head, behind)) = cut(rest, b'\n') {
        end_line(alloc, reader, stepper, line, head)?;
        if reader.deepest > MAX_DEPTH {
            return Ok(());
        }
        rest = behind;
    }
    grow_line(line, rest)
}

/// The answer of the check of the items.
fn judged(stepper: Stepper<'_>) -> Result<Vec<usize>, CheckFault>
    ensures { HasVerdict (state_of stepper.entry) result }
{
    match stepper.finish() {
        Ok(outputs) => Ok(outputs),
        Err(ProofFault::Refused { line, rule }) => Err(CheckFault::Refused { line, rule }),
        Err(ProofFault::Memory(want)) => Err(CheckFault::Memory(want)),
    }
}

impl<'a> Checker<'a> {
    ghost use Rattle.ac_prooftext.specs.CheckProgress.{IsFed, IsReady, IsWanting, TellsWant};

    /// The check of a proof for a pair, before the first byte. The models are those of the pair's programs under its context.
    pub fn new(alloc: Global, pair: &'a Pair, left: &'a Model, right: &'a Model) -> Checker<'a>
        requires pair { ArePaired pair.now }
        requires models { AreModels pair.now left.now right.now }
        ensures fed { IsFed (pairing_of pair.now left.now right.now) pair.now.outputs [] result }
        ensures ready { IsReady result }
        ensures going { ¬ (IsWanting result) }
    {
        Checker {
            alloc,
            stepper: Stepper::new(alloc, pair, left, right),
            reader: LineReader::new(alloc),
            line: Vec::new(alloc),
            bytes: 0,
            want: false,
        }
    }

    /// Whether the stream is too long or too deep already.
    fn is_over(&self) -> bool
        ensures { IsTrue result ↔ ((max_bytes < self.now.bytes) ⊎ (max_depth < self.now.reader.deepest)) }
    {
        self.bytes > MAX_BYTES || self.reader.deepest > MAX_DEPTH
    }

    /// The stream goes on with a piece. After want of memory every later call answers want of memory.
    pub fn feed(&mut self, piece: &[u8]) -> Result<(), AllocError>
        requires { IsReady self.old }
        ensures fed { OnOk result ((g : Pairing) (outputs text : List ℕ) → IsFed g outputs text self.old → IsFed g outputs (text ++ piece.now) self.new) }
        ensures again { OnOk result (¬ (IsWanting self.old)) }
        ensures going { OnOk result (¬ (IsWanting self.new)) }
        ensures want { OnErr result (IsWanting self.new) }
        ensures ready { IsReady self.new }
    {
        if self.want {
            return Err(AllocError);
        }
        self.bytes = self.bytes.saturating_add(piece.len() as u64);
        if self.is_over() {
            return Ok(());
        }
        match take_piece(
            self.alloc,
            &mut self.reader,
            &mut self.stepper,
            &mut self.line,
            piece,
        ) {
            Ok(()) => Ok(()),
            Err(want) => {
                self.want = true;
                Err(want)
            }
        }
    }

    /// The answer on the stream, however it was cut. In this order: `TooLong` exactly where it has more than 67,108,864 bytes;
    /// `TooDeep` exactly where more than 10,000 branches are open on one path before its first fault as a text; `Refused` with the
    /// rule `text` exactly where it is no spelling of a proof; else the outputs, or the first line that is refused, as the check
    /// of the proof spelled has them. `Memory` where there was no memory, now or before.
    pub fn finish(self) -> Result<Vec<usize>, CheckFault>
        ensures want { IsWanting self.entry → TellsWant result }
        ensures answer { (g : Pairing) (outputs text : List ℕ) → IsFed g outputs text self.entry → IsAnswer g outputs text result }
    {
        if self.want {
            return Err(CheckFault::Memory(AllocError));
        }
        if self.bytes > MAX_BYTES {
            return Err(CheckFault::TooLong);
        }
        if self.reader.deepest > MAX_DEPTH {
            return Err(CheckFault::TooDeep);
        }
        if !is_complete(&self.reader, self.line.as_slice()) {
            return Err(CheckFault::Refused {
                line: self.reader.lines.saturating_add(1),
                rule: Rule::Text,
            });
        }
        let Checker { stepper, .. } = self;
        judged(stepper)
    }
}
