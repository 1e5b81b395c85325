//! The pair of a seed.
ghost use Rattle.std.specs.Prelude.{◌≡◌, ◌≤◌, length, IfOk};
ghost use Rattle.ac_syntax.specs.ReadyPrograms.{ReadyProgram, FitParts};
ghost use Rattle.ac_syntax.specs.Small.{IsSmallPair};
ghost use Rattle.ac_poly.specs.Model.{model_of};
ghost use Rattle.ac_claims.specs.Soundness.{ArePaired};
ghost use Rattle.ac_gen.specs.GeneratedPair.{IsGeneratedPair, IsEverywhere, RunsEverywhere, IsNeverOutside, IsLowered, models_of};

use crate::pipeline::generate;
use ac_base::Items;
use ac_poly::lower;
use ac_poly::types::{LowerFault, Model};
use ac_syntax::tree::{Cond, Pair, Program};
use std::alloc::{AllocError, Global};

/// The array C of both programs.
const OUTPUT: usize = 1;

/// A pair of programs, with the models of the first and of the second.
#[derive(Drop)]
pub struct LoweredPair {
    pub pair: Pair,
    pub models: [Model; 2],
}

/// The pair of a seed and a number of stages, without a context, whose output is C.
fn pair_of(alloc: Global, seed: u64, stages: u32) -> Result<Pair, AllocError>
    requires some { 1 ≤ stages }
    requires few { stages ≤ 12 }
    ensures { IfOk result (IsGeneratedPair seed stages) }
{
    let (left, right) = generate(alloc, seed, stages)?;
    Ok(Pair {
        left,
        right,
        context: Cond {
            parts: Items::new(alloc),
        },
        commutative: Items::new(alloc),
        outputs: Items::from_slice(alloc, &[OUTPUT])?,
    })
}

/// The model of a program that nothing keeps from being lowered.
fn lowered(alloc: Global, program: &Program, context: &Cond) -> Result<Model, AllocError>
    requires program { ReadyProgram program.now }
    requires context { FitParts (length program.now.params) 0 context.now.parts }
    requires lowered { IsLowered program.now }
    ensures { IfOk result (λ model. model ≡ model_of program.now context.now) }
{
    match lower(alloc, program, context) {
        Ok(model) => Ok(model),
        Err(LowerFault::Memory(error)) => Err(error),
        Err(LowerFault::Pieces(_)) => unreachable!(),
        Err(LowerFault::Wide(_)) => unreachable!(),
    }
}

/// The pair of a seed and a number of stages, from 1 to 12: a pipeline of that many loops, and the same with each loop shifted. It has
/// no context, and its output is the array C, which the last loop writes.
///
/// Nothing refuses it: both programs are lowered, and they may be compared, and run at any value of their parameter N, as the laws say.
pub fn generated(alloc: Global, seed: u64, stages: u32) -> Result<LoweredPair, AllocError>
    requires some { 1 ≤ stages }
    requires few { stages ≤ 12 }
    ensures pair { IfOk result (λ made. IsGeneratedPair seed stages made.pair) }
    ensures models { IfOk result (λ made. made.models ≡ models_of made.pair) }
    ensures paired { IfOk result (λ made. ArePaired made.pair) }
    ensures small { IfOk result (λ made. IsSmallPair made.pair) }
    ensures valuations { IfOk result (λ made. IsEverywhere made.pair) }
    ensures ready { IfOk result (λ made. RunsEverywhere made.pair) }
    ensures within { IfOk result (λ made. IsNeverOutside made.pair) }
{
    let pair = pair_of(alloc, seed, stages)?;
    let left = lowered(alloc, &pair.left, &pair.context)?;
    let right = lowered(alloc, &pair.right, &pair.context)?;
    Ok(LoweredPair {
        pair,
        models: [left, right],
    })
}
