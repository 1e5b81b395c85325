//! The programs of a pair.
ghost use Rattle.std.specs.Prelude.{◌≡◌, ◌<◌, ◌≤◌, ◌-◌, [], ◌∷◌, codes, length, map, IfOk};
ghost use Rattle.ac_syntax.specs.declared.tree.Slot.TheVariants as slot;
ghost use Rattle.ac_gen.specs.PipelineLoops.{statement};
ghost use Rattle.ac_gen.specs.Pipelines as spec;
ghost use Rattle.ac_gen.specs.WellMade.{IsWellMade};

use crate::draws::{Stage, draw_stages, without_shifts};
use crate::forms::size;
use crate::loops::{only, stage_loop};
use crate::names::{name, numbered};
use ac_base::Items;
use ac_syntax::tree::{Array, Cond, Kind, Program, Slot, Stmt};
use std::alloc::{AllocError, Global};

/// An input array of N elements.
fn input(alloc: Global, text: &[u8]) -> Result<Array, AllocError>
    requires some { 0 < length text.now }
    requires short { length text.now ≤ 64 }
    ensures { IfOk result (λ array. array ≡ spec.input text.now) }
{
    let extent = size(alloc, 0)?;
    Ok(Array {
        name: name(alloc, text)?,
        extents: only(alloc, extent)?,
        kind: Kind::Input,
    })
}

/// The local array with a number, of N + 24 elements.
fn local(alloc: Global, number: usize) -> Result<Array, AllocError>
    ensures { IfOk result (λ array. array ≡ spec.local number) }
{
    let extent = size(alloc, 24)?;
    Ok(Array {
        name: numbered(alloc, b'T', number)?,
        extents: only(alloc, extent)?,
        kind: Kind::Local,
    })
}

/// The arrays of a pipeline with this many loops.
fn arrays(alloc: Global, count: usize) -> Result<Items<Array>, AllocError>
    ensures { IfOk result (λ arrays. arrays ≡ spec.input (codes "B") ∷ spec.input (codes "C") ∷ spec.locals 0 (count - 1)) }
{
    let mut arrays = Items::new(alloc);
    arrays.push(input(alloc, b"B")?)?;
    arrays.push(input(alloc, b"C")?)?;
    for number in 0..count.saturating_sub(1) {
        arrays.push(local(alloc, number)?)?;
    }
    Ok(arrays)
}

/// How far ahead the stages read in all.
fn margin(stages: &[Stage]) -> u16
    requires { length stages.now ≤ 12 }
    ensures { result ≡ spec.margin stages.now }
{
    let mut sum = 0;
    for stage in stages {
        sum += u16::from(stage.reach);
    }
    sum
}

/// The array that a stage writes: C where no stage follows, else the next local.
fn target(next: usize, behind: &[Stage]) -> usize
    ensures { result ≡ spec.target next behind.now }
{
    if behind.is_empty() { 1 } else { next }
}

/// The loops of a pipeline, each shifted as its stage says.
fn body(alloc: Global, stages: &[Stage]) -> Result<Items<Stmt>, AllocError>
    requires { length stages.now ≤ 12 }
    ensures { IfOk result (λ body. body ≡ map statement (spec.shifted_each stages.now (spec.pipeline stages.now))) }
{
    let mut body = Items::new(alloc);
    let mut source = 0;
    let mut margin = margin(stages);
    for i in 0..stages.len() {
        let stage = stages[i];
        let next = i + 2;
        margin -= u16::from(stage.reach);
        let target = target(next, &stages[i + 1..]);
        body.push(stage_loop(alloc, stage, source, target, margin)?)?;
        source = next;
    }
    Ok(body)
}

/// The parameter list.
fn slots(alloc: Global) -> Result<Items<Slot>, AllocError>
    ensures { IfOk result (λ slots. slots ≡ slot.Param 0 ∷ slot.Array 0 ∷ slot.Array 1 ∷ []) }
{
    Items::from_slice(alloc, &[Slot::Param(0), Slot::Array(0), Slot::Array(1)])
}

/// The program of a pipeline, each of whose loops is shifted as its stage says.
fn program(alloc: Global, stages: &[Stage]) -> Result<Program, AllocError>
    requires { length stages.now ≤ 12 }
    ensures { IfOk result (λ program. program ≡ spec.program (spec.shifted_each stages.now (spec.pipeline stages.now))) }
{
    let arrays = arrays(alloc, stages.len())?;
    let body = body(alloc, stages)?;
    let parameter = name(alloc, b"N")?;
    Ok(Program {
        name: name(alloc, b"f")?,
        params: only(alloc, parameter)?,
        arrays,
        slots: slots(alloc)?,
        body,
        context: Cond {
            parts: Items::new(alloc),
        },
        commutative: Items::new(alloc),
        outputs: None,
    })
}

/// A pair of programs from a seed: a pipeline with that many stages, from 1 to 12, and the same pipeline with each loop shifted.
///
/// Both are `void f(int N, int B[N], int C[N])`. Each stage is a loop that reads what the stage before it wrote, the first one B, a few
/// elements ahead, applies one of four functions, and writes the next of the locals `T0`, `T1`, .. of N + 24 elements, the last one C. In
/// the second program each loop starts at another number of its iterator, and all that depends on the iterator follows. Places are all 0.
pub fn generate(alloc: Global, seed: u64, count: u32) -> Result<(Program, Program), AllocError>
    requires some { 1 ≤ count }
    requires few { count ≤ 12 }
    ensures pair { IfOk result (spec.IsGenerated seed count) }
    ensures made { IfOk result (λ pair. IsWellMade pair.0 × IsWellMade pair.1) }
{
    let stages = draw_stages(alloc, seed, count)?;
    let plain = without_shifts(alloc, &stages)?;
    let original = program(alloc, &plain)?;
    let transformed = program(alloc, &stages)?;
    Ok((original, transformed))
}
