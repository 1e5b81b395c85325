//! Files that are read in small pieces.
ghost use Rattle.std.specs.Prelude.{◌≡◌, ◌≤◌, length, None, IfOk, OnErr, IsErrOf};

use ac_port::{Files, MemFiles, ReadStop, Transcript, WriteStop};
use std::alloc::Global;

/// Files of which a part counts at most `size` bytes. Of what they hold nothing is told.
#[derive(Drop)]
pub struct Parted {
    files: MemFiles,
    size: usize,
    transcript: Transcript,
    write_faults: u64,
}

impl Parted {
    /// The files, with no read and no fault yet.
    pub fn new(files: MemFiles, size: usize) -> Self {
        Parted {
            files,
            size,
            transcript: Transcript::new(),
            write_faults: 0,
        }
    }

    /// What a part counts: at most `size` bytes.
    fn counted(&mut self, name: &[u8], from: u64, into: &mut [u8]) -> Result<usize, ReadStop>
        ensures within { IfOk result (λ count. count ≤ length into.new) }
        ensures failed { OnErr result (IsErrOf result ReadStop.Failed) }
        ensures reads { self.new.transcript ≡ self.old.transcript }
        ensures writes { self.new.write_faults ≡ self.old.write_faults }
    {
        match self.files.part(name, from, into) {
            Ok(count) => Ok(count.min(self.size)),
            Err(_) => Err(ReadStop::Failed),
        }
    }
}

impl Files for Parted {
    ghost contents = { λ _. None };

    ghost transcript = { λ files. files.transcript.reads };

    ghost write_faults = { λ files. files.write_faults };

    fn read(&mut self, alloc: Global, name: &[u8], limit: u64) -> Result<Vec<u8>, ReadStop> {
        let outcome = self.files.read(alloc, name, limit);
        self.transcript = self.transcript.and_whole(name, limit, &outcome);
        outcome
    }

    fn part(&mut self, name: &[u8], from: u64, into: &mut [u8]) -> Result<usize, ReadStop> {
        let outcome = self.counted(name, from, into);
        self.transcript = self.transcript.and_part(name, from, into, &outcome);
        outcome
    }

    fn write(&mut self, name: &[u8], bytes: &[u8]) -> Result<(), WriteStop> {
        let outcome = self.files.write(name, bytes);
        if let Err(WriteStop::Failed) = &outcome {
            self.write_faults = self.write_faults.saturating_add(1);
        }
        outcome
    }
}
