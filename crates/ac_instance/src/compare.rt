ghost use Rattle.std.specs.Prelude.{◌≡◌, ℕ, [], ◌∷◌, ◌<◌, ◌^◌, List, ℤ, pos, map, IfOk, IsTrue, ◌↔◌, MatchOption};
ghost use Rattle.ac_syntax.specs.Algebra.{Cell};
ghost use Rattle.ac_syntax.specs.Index.{point};
ghost use Rattle.ac_syntax.specs.Outputs.{InExtents};
ghost use Rattle.ac_syntax.specs.Term.{Term};
ghost use Rattle.ac_instance.specs.Events.{event, natural, in_elements, in_output};
ghost use Rattle.ac_instance.specs.KeptIds.{leaf_in, Holds};
ghost use Rattle.ac_instance.specs.Least.{AgreeAt, IsLeast, IsFound, beneath, throughout, has_none_of, first_found};
ghost use Rattle.ac_instance.specs.MachineSteps.{Steps};
ghost use Rattle.ac_instance.specs.declared.halt.Side.TheVariants.{Left, Right};

use crate::cells::{Cells, Target};
use crate::halt::{Halt, Outcome, Side};
use crate::machine::indices;
use crate::run::inner;
use crate::state::{Machine, Scope};
use ac_base::Items;
use ac_syntax::tree::{Array, IndexExpr};
use std::alloc::Global;

/// What both runs left, and the output that is compared.
#[derive(Drop)]
pub struct Runs<'a> {
    pub left: &'a Cells,
    pub right: &'a Cells,
    pub arrays: &'a [Array],
    pub output: usize,
}

/// How many coordinates an extent leaves.
fn natural(extent: i64) -> u64
    ensures value { result ≡ natural extent }
    ensures small { result < 2 ^ 63 }
{
    if extent > 0 { extent as u64 } else { 0 }
}

/// A coordinate as a number of 64 bits with a sign.
fn coordinate(k: u64) -> i64
    requires { k < 2 ^ 63 }
    ensures { result ≡ pos k }
{
    k as i64
}

/// Whether an extent leaves no coordinate.
fn has_none(sizes: &[i64]) -> bool
    ensures { result ≡ has_none_of sizes.now }
{
    for size in sizes {
        if natural(*size) == 0 {
            return true;
        }
    }
    false
}

/// The one that was found first.
fn first_of(best: Option<Items<i64>>, found: Option<Items<i64>>) -> Option<Items<i64>>
    ensures { result ≡ first_found best found }
{
    match best {
        Some(held) => Some(held),
        None => found,
    }
}

impl Machine {
    /// Whether both runs left terms that agree in an element.
    fn agrees(&mut self, alloc: Global, runs: &Runs, at: &[i64]) -> Result<bool, Halt>
        ensures agree { (left right : Cell → Term) → Holds self.old.table runs.now.left.now (leaf_in Left runs.now.arrays.now) left → Holds self.old.table runs.now.right.now (leaf_in Right runs.now.arrays.now) right → IfOk result (λ b. IsTrue b ↔ AgreeAt self.old.table.commutative runs.now.output left right at.now) }
        ensures steps { Steps self.old (event ∷ []) result self.new }
    {
        self.count()?;
        let index = Vec::from_slice(alloc, at)?;
        let target = Target {
            array: runs.output,
            index,
        };
        let a = self.load(Side::Left, runs.arrays, runs.left, &target)?;
        let b = self.load(Side::Right, runs.arrays, runs.right, &target)?;
        Ok(self.table.same(a, b))
    }

    /// An element, where the terms there do not agree.
    fn look(&mut self, alloc: Global, runs: &Runs, at: &[i64]) -> Result<Option<Items<i64>>, Halt>
        ensures found { (left right : Cell → Term) → Holds self.old.table runs.now.left.now (leaf_in Left runs.now.arrays.now) left → Holds self.old.table runs.now.right.now (leaf_in Right runs.now.arrays.now) right → IfOk result (IsFound (AgreeAt self.old.table.commutative runs.now.output left right) at.now) }
        ensures steps { Steps self.old (event ∷ []) result self.new }
    {
        if self.agrees(alloc, runs, at)? {
            return Ok(None);
        }
        Ok(Some(Items::from_slice(alloc, at)?))
    }

    /// The least element beneath the first coordinates where the terms do not agree. All elements are compared.
    #[cycle(elements)]
    fn first_beneath(
        &mut self,
        alloc: Global,
        runs: &Runs,
        prefix: &[i64],
        sizes: &[i64],
    ) -> Result<Option<Items<i64>>, Halt>
        ensures least { (left right : Cell → Term) → Holds self.old.table runs.now.left.now (leaf_in Left runs.now.arrays.now) left → Holds self.old.table runs.now.right.now (leaf_in Right runs.now.arrays.now) right → IfOk result (IsLeast (beneath (AgreeAt self.old.table.commutative runs.now.output left right) prefix.now sizes.now)) }
        ensures steps { Steps self.old (in_elements sizes.now) result self.new }
    {
        match sizes {
            [] => self.look(alloc, runs, prefix),
            [size, rest @ ..] => {
                let mut best = None;
                for k in 0..natural(*size) {
                    let longer = inner(alloc, prefix, coordinate(k))?;
                    let found = self.first_beneath(alloc, runs, &longer, rest)?;
                    best = first_of(best, found);
                }
                Ok(best)
            }
        }
    }

    /// Compares an output element by element, in the order of the elements.
    pub fn compare(
        &mut self,
        alloc: Global,
        scope: &Scope,
        runs: &Runs,
        extents: &[IndexExpr],
    ) -> Result<Option<Items<i64>>, Halt>
        ensures least { (left right : Cell → Term) → Holds self.old.table runs.now.left.now (leaf_in Left runs.now.arrays.now) left → Holds self.old.table runs.now.right.now (leaf_in Right runs.now.arrays.now) right → IfOk result (IsLeast (throughout (AgreeAt self.old.table.commutative runs.now.output left right) (point scope.now.params.now []) extents.now)) }
        ensures steps { Steps self.old (in_output scope.now.side (point scope.now.params.now []) extents.now) result self.new }
    {
        let sizes = indices(alloc, scope, extents, &[])?;
        if has_none(&sizes) {
            return Ok(None);
        }
        self.first_beneath(alloc, runs, &[], &sizes)
    }
}
