//! How many assignments statements have, and how many nodes values have.
ghost use Rattle.std.specs.Prelude.{sum_by};
ghost use Rattle.ac_syntax.specs.BoundedCount.{Gives};
ghost use Rattle.ac_syntax.specs.Trace.{assignments};
ghost use Rattle.ac_syntax.specs.ValueNodes.{size};

use crate::tree::{Stmt, Value};

/// How many assignments stand in a statement; none exactly where the number leaves 64 bits.
#[cycle(assignments)]
#[tactic(auto, using(crate::proofs::Assignments::assignment_counts))]
pub fn assignments(s: &Stmt) -> Option<u64>
    ensures { Gives result (assignments s.now) }
{
    match s {
        Stmt::For { body, .. } => assignments_in(body.as_slice()),
        Stmt::If { taken, other, .. } => {
            assignments_in(taken.as_slice())?.checked_add(assignments_in(other.as_slice())?)
        }
        Stmt::Assign { .. } => Some(1),
    }
}

/// How many assignments stand in all of them; none exactly where the number leaves 64 bits.
#[cycle(assignments)]
pub fn assignments_in(ss: &[Stmt]) -> Option<u64>
    ensures { Gives result (sum_by assignments ss.now) }
{
    let mut sum = 0u64;
    for s in ss {
        sum = sum.checked_add(assignments(s)?)?;
    }
    Some(sum)
}

/// How many nodes a value has; none exactly where the number leaves 64 bits.
#[cycle(nodes)]
#[tactic(auto, using(crate::proofs::Sizes::sizes))]
pub fn nodes(v: &Value) -> Option<u64>
    ensures { Gives result (size v.now) }
{
    match v {
        Value::Number(_) => Some(1),
        Value::Access { .. } => Some(1),
        Value::Call { args, .. } => nodes_in(args.as_slice())?.checked_add(1),
    }
}

/// How many nodes all of the values have; none exactly where the number leaves 64 bits.
#[cycle(nodes)]
pub fn nodes_in(vs: &[Value]) -> Option<u64>
    ensures { Gives result (sum_by size vs.now) }
{
    let mut sum = 0u64;
    for v in vs {
        sum = sum.checked_add(nodes(v)?)?;
    }
    Some(sum)
}
