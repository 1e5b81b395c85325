//! The random choices.
ghost use Rattle.std.specs.Prelude.{◌≡◌, ◌≤◌, map, IfOk};
ghost use Rattle.ac_gen.specs.Draws.{state_after, drawn, stage_at, stages};
ghost use Rattle.ac_gen.specs.Plain.{unshifted};

use std::alloc::{AllocError, Global};

/// What is drawn for a stage of the pipeline: which of the four functions its loop applies, how many elements ahead of its own
/// element it reads, and by how much the loop is shifted.
#[derive(Clone, Copy, PartialEq, Eq)]
pub struct Stage {
    pub function: u8,
    pub reach: u8,
    pub shift: u8,
}

/// The next number of the generator.
#[tactic(auto, using(crate::proofs::Random::next_is))]
fn draw(state: &mut u64) -> u64
    ensures state { state.new ≡ state_after state.old }
    ensures drawn { result ≡ drawn (state_after state.old) }
{
    let before = *state;
    let multiple = before.wrapping_mul(6_364_136_223_846_793_005);
    let after = multiple.wrapping_add(1_442_695_040_888_963_407);
    *state = after;
    after >> 33
}

/// The choices of one stage.
fn draw_stage(state: &mut u64) -> Stage
    ensures state { state.new ≡ state_after (state_after (state_after state.old)) }
    ensures stage { result ≡ stage_at state.old }
{
    let function = draw(state) % 4;
    let reach = draw(state) % 3;
    let shift = draw(state) % 8;
    Stage {
        function: function as u8,
        reach: reach as u8,
        shift: shift as u8,
    }
}

/// The choices of all stages, in order.
pub fn draw_stages(alloc: Global, seed: u64, count: u32) -> Result<Vec<Stage>, AllocError>
    ensures { IfOk result (λ drawn. drawn.items ≡ stages seed count) }
{
    let mut state = seed;
    let mut drawn = Vec::new(alloc);
    for _turn in 0..count {
        drawn.push(draw_stage(&mut state))?;
    }
    Ok(drawn)
}

/// The same stages, none of them shifted.
pub fn without_shifts(alloc: Global, stages: &[Stage]) -> Result<Vec<Stage>, AllocError>
    ensures { IfOk result (λ plain. plain.items ≡ map unshifted stages.now) }
{
    let mut plain = Vec::new(alloc);
    for stage in stages {
        plain.push(Stage {
            function: stage.function,
            reach: stage.reach,
            shift: 0,
        })?;
    }
    Ok(plain)
}
