//! Why the search on an output ends early.
ghost use Rattle.std.specs.Prelude.{◌≡◌};
ghost use Rattle.ac_walk.specs.SearchStops.{of_hull, of_unfolding};

use ac_hull::HullStop;
use ac_report::Cause;
use ac_unfold::types::UnfoldStop;
use std::alloc::AllocError;

/// Why the search on an output ends early.
#[derive(Drop)]
pub enum Stop {
    /// With this cause.
    Early(Cause),
    /// There was no memory.
    Memory(AllocError),
}

impl From<AllocError> for Stop {
    ghost use Rattle.std.specs.Prelude.{◌≡◌};
    ghost use Rattle.ac_walk.specs.declared.stops.Stop.TheVariants.{Memory};

    ghost from_gives = { λ want e. e ≡ Memory want };

    fn from(want: AllocError) -> Stop {
        Stop::Memory(want)
    }
}

/// The stop of a hull.
pub(crate) fn of_hull(stop: HullStop) -> Stop
    ensures { result ≡ of_hull stop }
{
    match stop {
        HullStop::Overflow(points) => Stop::Early(Cause::OverflowHull(points)),
        HullStop::Memory(want) => Stop::Memory(want),
    }
}

/// The stop of an unfolding.
pub(crate) fn of_unfolding(stop: UnfoldStop) -> Stop
    ensures { result ≡ of_unfolding stop }
{
    match stop {
        UnfoldStop::Overflow(question) => Stop::Early(Cause::OverflowQuestion(question)),
        UnfoldStop::Spent { question, cost } => {
            Stop::Early(Cause::SpentQuestion { question, cost })
        }
        UnfoldStop::Paths(paths) => Stop::Early(Cause::SpentPaths(paths)),
        UnfoldStop::Memory(want) => Stop::Memory(want),
    }
}
