//! The check of a proof, line by line.
ghost use Rattle.std.specs.Prelude.{◌≡◌, true, Some, None, OnOk, OnErr, IfOk, IfErr, IsSome, MatchResult, option_map};
ghost use Rattle.ac_cert.specs.CertificateFaults.{later};
ghost use Rattle.ac_claims_paths.specs.ModelCalls.{pairing};
ghost use Rattle.ac_claims.specs.CheckKnowledge.{known_of, Comes, IsFrontMade, IsLine};
ghost use Rattle.ac_claims.specs.Dues.{AreDueFormed};
ghost use Rattle.ac_claims.specs.ProofFaults.{proof_fault};
ghost use Rattle.ac_claims.specs.ProofMachine.{come, AreSpelledTrees};
ghost use Rattle.ac_claims.specs.ReadyModels.{AreReady};
ghost use Rattle.ac_claims.specs.Soundness.{ArePaired, AreModels, pairing_of};
ghost use Rattle.ac_claims.specs.Steppers.{come_by, after, beginning};
ghost use Rattle.ac_claims.specs.CheckFeed.{HasAnswer, HasRefusal, IsBehind, IsVerdict, IsFirstFault};
ghost use Rattle.ac_claims.specs.declared.types.Proof.{Proof};
ghost use Rattle.ac_claims.specs.CheckState.{came_of, state_of, IsSteady, SamePair};

use crate::entry::Refusal;
use crate::front::Front;
use crate::item::Item;
use crate::lines::{
    take_claim, take_end, take_output, take_point, take_row, take_shapes, take_tree,
};
use crate::stack::Stack;
use crate::types::ProofFault;
use crate::upcoming::Upcoming;
use ac_claims_paths::path::Programs;
use ac_poly::types::Model;
use ac_syntax::tree::Pair;
use std::alloc::{AllocError, Global};

/// What a line comes to.
#[tactic(auto, using(crate::proofs::StepperSteps::come_steps))]
fn come(
    alloc: Global,
    programs: &Programs,
    outputs: &[usize],
    front: &mut Front,
    due: &mut Stack,
    item: &Item,
    line: u64,
) -> Result<Option<Refusal>, AllocError>
    requires ready { AreReady programs.now }
    requires made { IsFrontMade (pairing programs.now) front.old }
    requires formed { AreDueFormed programs.now.left.now.params due.old }
    requires item { IsLine item.now }
    ensures exact { Comes (come (pairing programs.now) outputs.now item.now line (known_of (pairing programs.now) front.old due.old)) result (known_of (pairing programs.now) front.new due.new) }
    ensures made { IsFrontMade (pairing programs.now) front.new }
    ensures formed { AreDueFormed programs.now.left.now.params due.new }
{
    match item {
        Item::Point(point) => Ok(take_point(programs.left, point.as_slice(), line)),
        Item::Left(shapes) => Ok(take_shapes(programs.left, shapes.as_slice(), line)),
        Item::Right(shapes) => Ok(take_shapes(programs.right, shapes.as_slice(), line)),
        Item::Claims(_) => Ok(None),
        Item::Claim { left, right, .. } => {
            take_claim(alloc, programs, front, *left, *right, line)
        }
        Item::Row(row) => take_row(alloc, front, row, line),
        Item::Output { array, claim } => {
            take_output(alloc, programs, outputs, front, *array, *claim, line)
        }
        Item::Tree {
            claim,
            left_piece,
            right_piece,
        } => {
            let at = Upcoming {
                claim: *claim,
                left_piece: *left_piece,
                right_piece: *right_piece,
            };
            take_tree(alloc, programs, front, due, at, line)
        }
        Item::End => take_end(alloc, programs, front, line),
        Item::Step(_)
        | Item::Split(_)
        | Item::Residue(_, _)
        | Item::Go { .. }
        | Item::Absurd(_)
        | Item::Hit(_)
        | Item::Number
        | Item::Initial
        | Item::Killed { .. }
        | Item::Choice(_) => due.take(alloc, programs, front.claims.as_slice(), item, line),
    }
}

/// The check of a proof, line by line: what is known so far, the line of the next item, and the first refusal.
#[derive(Drop)]
pub struct Stepper<'a> {
    alloc: Global,
    programs: Programs<'a>,
    outputs: &'a [usize],
    front: Front,
    due: Stack,
    line: u64,
    fault: Option<Refusal>,
    want: bool,
}

impl<'a> Stepper<'a> {
    /// The check of a proof for a pair, before its line 2. The models are those of the pair's programs under its context.
    pub fn new(alloc: Global, pair: &'a Pair, left: &'a Model, right: &'a Model) -> Stepper<'a>
        requires pair { ArePaired pair.now }
        requires models { AreModels pair.now left.now right.now }
        ensures state { state_of result ≡ Some beginning }
        ensures steady { IsSteady result }
        ensures pairing { pairing result.programs ≡ pairing_of pair.now left.now right.now }
        ensures outputs { result.outputs.now ≡ pair.now.outputs }
    {
        let programs = Programs {
            left,
            right,
            commutative: pair.commutative.as_slice(),
        };
        Stepper {
            alloc,
            programs,
            outputs: pair.outputs.as_slice(),
            front: Front::new(alloc),
            due: Stack::new(alloc),
            line: 2,
            fault: None,
            want: false,
        }
    }

    /// Takes the next item. The first refusal is kept, and later items are only counted; the count stands still at the last
    /// number of its type. After want of memory every later call answers want of memory.
    pub fn take(&mut self, item: Item) -> Result<(), AllocError>
        requires steady { IsSteady self.old }
        requires item { IsLine item }
        ensures after { OnOk result (state_of self.new ≡ option_map (after (pairing self.old.programs) self.old.outputs.now item) (state_of self.old)) }
        ensures again { OnOk result (IsSome (state_of self.old)) }
        ensures want { OnErr result (state_of self.new ≡ None) }
        ensures steady { IsSteady self.new }
        ensures same { SamePair self.old self.new }
    {
        self.take_item(&item)
    }

    /// The same.
    pub(crate) fn take_item(&mut self, item: &Item) -> Result<(), AllocError>
        requires steady { IsSteady self.old }
        requires item { IsLine item.now }
        ensures after { OnOk result (state_of self.new ≡ option_map (after (pairing self.old.programs) self.old.outputs.now item.now) (state_of self.old)) }
        ensures again { OnOk result (IsSome (state_of self.old)) }
        ensures want { OnErr result (state_of self.new ≡ None) }
        ensures steady { IsSteady self.new }
        ensures same { SamePair self.old self.new }
    {
        if self.want {
            return Err(AllocError);
        }
        self.note(item)?;
        self.line = self.line.saturating_add(1);
        Ok(())
    }

    /// The same, but for the count.
    #[tactic(auto, using(crate::proofs::StepperSteps::note_steps))]
    fn note(&mut self, item: &Item) -> Result<(), AllocError>
        requires steady { IsSteady self.old }
        requires item { IsLine item.now }
        ensures after { OnOk result (came_of self.new ≡ come_by (came_of self.old) (come (pairing self.old.programs) self.old.outputs.now item.now self.old.line)) }
        ensures want { OnErr result (self.new.want ≡ true) }
        ensures going { OnOk result (self.new.want ≡ self.old.want) }
        ensures line { self.new.line ≡ self.old.line }
        ensures steady { IsSteady self.new }
        ensures same { SamePair self.old self.new }
    {
        if self.fault.is_some() {
            return Ok(());
        }
        match come(
            self.alloc,
            &self.programs,
            self.outputs,
            &mut self.front,
            &mut self.due,
            item,
            self.line,
        ) {
            Ok(refusal) => {
                self.fault = refusal;
                Ok(())
            }
            Err(want) => {
                self.want = true;
                Err(want)
            }
        }
    }

    /// The answer: the outputs that were named, unless an item was refused; else the line of the first refusal and its rule.
    /// `Memory` exactly after want of memory. Where the items taken are the lines of a proof that is spelled, it is the
    /// answer of `check_proof` on it.
    pub fn finish(self) -> Result<Vec<usize>, ProofFault>
        ensures answer { IfOk result (λ outputs. HasAnswer (state_of self.entry) outputs.items) }
        ensures refusal { IfErr result (HasRefusal (state_of self.entry)) }
        ensures proof { (proof : Proof) → AreSpelledTrees proof.trees.items → IsBehind (pairing self.entry.programs) self.entry.outputs.now proof (state_of self.entry) → MatchResult result (λ outputs. IsVerdict (pairing self.entry.programs) self.entry.outputs.now proof outputs.items) (IsFirstFault (proof_fault (pairing self.entry.programs) self.entry.outputs.now proof)) }
    {
        match self.answer() {
            Ok(outputs) => Ok(outputs),
            Err(fault) => Err(fault),
        }
    }

    /// The same, by the state alone.
    fn answer(self) -> Result<Vec<usize>, ProofFault>
        ensures answer { IfOk result (λ outputs. HasAnswer (state_of self.entry) outputs.items) }
        ensures refusal { IfErr result (HasRefusal (state_of self.entry)) }
    {
        if self.want {
            return Err(ProofFault::Memory(AllocError));
        }
        if let Some(refusal) = self.fault {
            return Err(ProofFault::Refused {
                line: refusal.line,
                rule: refusal.rule,
            });
        }
        let Front { named, .. } = self.front;
        Ok(named.into_vec())
    }
}
