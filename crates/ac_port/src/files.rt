// Files by name, as the program sees them.
ghost use Rattle.std.specs.Prelude.{◌≡◌, ◌≤◌, ◌++◌, ◌∷◌, [], ℕ, List, length, take, Option, option_map, IfOk, OnOk, OnErr, IfSome, IsSomeAnd, IsErrOf, alloc_error};
ghost use Rattle.std.specs.FinMap as map;
ghost use Rattle.ac_port.specs.Contents.{Contents, IsTooBig, IsPart, IsSameBut};
ghost use Rattle.ac_port.specs.CallCounts.{Rose};
ghost use Rattle.ac_port.specs.Transcripts.{Read, whole_read, part_read, handed_of};
ghost use Rattle.ac_port.specs.declared.files.ReadStop.TheVariants as read_stop;
ghost use Rattle.ac_port.specs.declared.files.WriteStop.TheVariants as write_stop;

use std::alloc::{AllocError, AllocFailed, Global};

/// Why a read gave no bytes.
#[derive(Clone, Copy, Debug, PartialEq, Eq)]
pub enum ReadStop {
    /// The file could not be read.
    Failed,
    /// The file has more bytes than the limit.
    TooBig,
    /// Memory ran out.
    Memory(AllocError),
}

impl From<AllocError> for ReadStop {
    ghost from_gives = { λ e stop. stop ≡ read_stop.Memory e };

    fn from(error: AllocError) -> Self {
        ReadStop::Memory(error)
    }
}

/// Why a write did not write the file.
#[derive(Clone, Copy, Debug, PartialEq, Eq)]
pub enum WriteStop {
    /// The file could not be written whole; the count of write faults tells of it.
    Failed,
    /// Memory ran out.
    Memory(AllocError),
}

impl From<AllocError> for WriteStop {
    ghost from_gives = { λ e stop. stop ≡ write_stop.Memory e };

    fn from(error: AllocError) -> Self {
        WriteStop::Memory(error)
    }
}

/// Files by name. Names and contents are bytes.
pub trait Files {
    /// What each name holds, where the implementation tells it.
    ghost contents: { Self → Option Contents };

    /// All reads so far, in order, with what they handed out.
    ghost transcript: { Self → List Read };

    /// How often a write has failed. It ends at 2^64 - 1.
    ghost write_faults: { Self → ℕ };

    /// The bytes of the named file, if they are at most `limit`. Where contents are told and there is
    /// neither a fault nor want of memory, `TooBig` comes exactly where there are more.
    /// The transcript grows by this read, with the very bytes that are handed out.
    fn read(&mut self, alloc: Global, name: &[u8], limit: u64) -> Result<Vec<u8>, ReadStop>
        ensures handed { transcript self.new ≡ transcript self.old ++ whole_read name.now limit (handed_of result (λ bytes. bytes.items)) ∷ [] }
        ensures bytes { IfOk result (λ bytes. IfSome (contents self.old) (λ files. map.get files name.now ≡ Option.Some bytes.items)) }
        ensures within { IfOk result (λ bytes. length bytes.items ≤ limit) }
        ensures too_big { IsErrOf result ReadStop.TooBig → IfSome (contents self.old) (λ files. IsTooBig files name.now limit) }
        ensures same { contents self.new ≡ contents self.old }
        ensures same_writes { write_faults self.new ≡ write_faults self.old };

    /// Copies the named file's bytes from the place `from` on to the front of `into`, as many as fit and are left, and answers
    /// their number. So 0 for an `into` that is not empty is the end of the file. After a refusal, which is always `Failed`,
    /// `into` holds anything. The transcript grows by this read, with the very bytes that are handed out.
    fn part(&mut self, name: &[u8], from: u64, into: &mut [u8]) -> Result<usize, ReadStop>
        ensures handed { transcript self.new ≡ transcript self.old ++ part_read name.now from (length into.old) (handed_of result (λ count. take count into.new)) ∷ [] }
        ensures bytes { IfOk result (λ count. IfSome (contents self.old) (λ files. IsSomeAnd (map.get files name.now) (λ bytes. IsPart bytes from into.old into.new count))) }
        ensures within { IfOk result (λ count. count ≤ length into.new) }
        ensures failed { OnErr result (IsErrOf result ReadStop.Failed) }
        ensures same { contents self.new ≡ contents self.old }
        ensures same_writes { write_faults self.new ≡ write_faults self.old };

    /// Makes the named file hold exactly these bytes. After `Failed` that file holds anything.
    fn write(&mut self, name: &[u8], bytes: &[u8]) -> Result<(), WriteStop>
        ensures written { OnOk result (contents self.new ≡ option_map (λ files. map.insert files name.now bytes.now) (contents self.old)) }
        ensures failed { IsErrOf result WriteStop.Failed → Rose (write_faults self.old) (write_faults self.new) }
        ensures others { IsErrOf result WriteStop.Failed → IsSameBut name.now (contents self.old) (contents self.new) }
        ensures memory { IsErrOf result (WriteStop.Memory alloc_error) → contents self.new ≡ contents self.old }
        ensures no_fewer { write_faults self.old ≤ write_faults self.new }
        ensures same_reads { transcript self.new ≡ transcript self.old };
}
