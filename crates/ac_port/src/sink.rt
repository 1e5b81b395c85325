// Where the program's text goes.
ghost use Rattle.std.specs.Prelude.{◌≡◌, ◌≤◌, ◌++◌, ℕ, List, take, Option, option_map, OnOk, IsErrOf, alloc_error};
ghost use Rattle.ac_port.specs.CallCounts.{Rose};
ghost use Rattle.ac_port.specs.declared.sink.SinkStop.TheVariants as sink_stop;

use std::alloc::AllocError;

/// Why a put did not append all of its bytes.
#[derive(Clone, Copy, PartialEq, Eq)]
pub enum SinkStop {
    /// The bytes could not all be written; the count of faults tells of it.
    Failed,
    /// Memory ran out.
    Memory(AllocError),
}

impl From<AllocError> for SinkStop {
    ghost from_gives = { λ e stop. stop ≡ sink_stop.Memory e };

    fn from(error: AllocError) -> Self {
        SinkStop::Memory(error)
    }
}

/// A sink of bytes.
pub trait Sink {
    /// The bytes so far, where the implementation tells them.
    ghost sent: { Self → Option (List ℕ) };

    /// How often a put has failed. It ends at 2^64 - 1.
    ghost faults: { Self → ℕ };

    /// Appends these bytes. After `Failed` a front part of them was appended, after `Memory` nothing.
    fn put(&mut self, bytes: &[u8]) -> Result<(), SinkStop>
        ensures appended { OnOk result (sent self.new ≡ option_map (λ before. before ++ bytes.now) (sent self.old)) }
        ensures failed { IsErrOf result SinkStop.Failed → Rose (faults self.old) (faults self.new) }
        ensures front { IsErrOf result SinkStop.Failed → ((count : ℕ) × (sent self.new ≡ option_map (λ before. before ++ take count bytes.now) (sent self.old))) }
        ensures memory { IsErrOf result (SinkStop.Memory alloc_error) → sent self.new ≡ sent self.old }
        ensures no_fewer { faults self.old ≤ faults self.new };
}
