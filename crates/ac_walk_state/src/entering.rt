//! The entries of a path behind those of a derivation.
ghost use Rattle.std.specs.Prelude.{◌≡◌, ◌++◌, length, IfOk};
ghost use Rattle.ac_widen.specs.declared.derivation.Reason.TheVariants.{Step};
ghost use Rattle.ac_walk_state.specs.PathEntries.{by_reason, entered, steps_from};

use crate::begins::Begin;
use ac_base::Items;
use ac_widen::{Entry, Reason};
use std::alloc::{AllocError, Global};

/// A copy of a reason.
fn copy_reason(alloc: Global, reason: &Reason) -> Result<Reason, AllocError>
    ensures { IfOk result (λ made. made ≡ reason.now) }
{
    match reason {
        Reason::Output => Ok(Reason::Output),
        Reason::Step { from } => Ok(Reason::Step { from: *from }),
        Reason::Hull { m, weights } => Ok(Reason::Hull {
            m: *m,
            weights: Items::from_slice(alloc, weights.as_slice())?,
        }),
    }
}

/// An entry of the same pair, which stands for a reason.
fn by_reason(alloc: Global, entry: &Entry, reason: Reason) -> Result<Entry, AllocError>
    ensures { IfOk result (λ made. made ≡ by_reason entry.now reason) }
{
    Ok(Entry {
        left: entry.left,
        right: entry.right,
        point: Items::from_slice(alloc, entry.point.as_slice())?,
        reason,
    })
}

/// The entries with steps behind them: the first one from the entry with a number, each further one from the one before it.
fn with_steps(
    alloc: Global,
    entries: Items<Entry>,
    from: usize,
    steps: &[Entry],
) -> Result<Items<Entry>, AllocError>
    ensures { IfOk result (λ all. all ≡ entries ++ steps_from from (length entries) steps.now) }
{
    let mut all = entries;
    let mut from = from;
    for step in steps {
        let next = all.len();
        all.push(by_reason(alloc, step, Reason::Step { from })?)?;
        from = next;
    }
    Ok(all)
}

/// The entries with those of a path: its first pair is an entry already, or a further one.
pub(crate) fn enter(
    alloc: Global,
    entries: Items<Entry>,
    begin: &Begin,
    path: &[Entry],
) -> Result<Items<Entry>, AllocError>
    ensures { IfOk result (λ all. all ≡ entered entries begin.now path.now) }
{
    match path {
        [] => Ok(entries),
        [start, steps @ ..] => match begin {
            Begin::At(place) => with_steps(alloc, entries, *place, steps),
            Begin::Further(reason) => {
                let place = entries.len();
                let mut entries = entries;
                let reason = copy_reason(alloc, reason)?;
                entries.push(by_reason(alloc, start, reason)?)?;
                with_steps(alloc, entries, place, steps)
            }
        },
    }
}
