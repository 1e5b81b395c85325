ghost use Rattle.std.specs.Prelude.{◌≤◌};

use crate::halt::Side;
use ac_syntax::tree::Array;
use ac_terms::Terms;

/// What both runs share: the terms, how many events there were, and how many there may be.
#[derive(Drop)]
pub struct Machine {
    pub table: Terms,
    pub events: u64,
    pub limit: u64,
    ghost limited: { events ≤ limit },
    ghost small: { limit ≤ 1000000 },
}

/// Whose run it is: the side, its arrays, and the values of the parameters.
#[derive(Drop)]
pub struct Scope<'a> {
    pub side: Side,
    pub arrays: &'a [Array],
    pub params: &'a [i64],
}
