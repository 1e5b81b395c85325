// The real files.
ghost use Rattle.std.specs.Prelude.{◌≡◌, ◌≤◌, [], length, None, IfOk, OnErr, IfSome, IsErrOf};

use crate::streams::{fill, read_up_to, write_whole};
use crate::{Files, ReadStop, Transcript, WriteStop};
use std::alloc::Global;
use std::io::{Seek, SeekFrom};
use std::rt::Files as HostFiles;
use std::{fs, io};

/// The real files, by the paths that their names spell. A name that is not UTF-8 has no file. Of what the
/// files hold nothing is told.
#[derive(Drop)]
pub struct DiskFiles<R: HostFiles> {
    rt: R,
    transcript: Transcript,
    write_faults: u64,
}

impl<R: HostFiles> DiskFiles<R> {
    /// The files that `rt` reaches, with no read and no fault yet.
    pub fn new(rt: R) -> Self
        ensures reads { result.transcript.reads ≡ [] }
        ensures writes { result.write_faults ≡ 0 }
    {
        DiskFiles {
            rt,
            transcript: Transcript::new(),
            write_faults: 0,
        }
    }
}

impl<R: HostFiles> Files for DiskFiles<R> {
    ghost contents = { λ _. None };

    ghost transcript = { λ files. files.transcript.reads };

    ghost write_faults = { λ files. files.write_faults };

    fn read(&mut self, alloc: Global, name: &[u8], limit: u64) -> Result<Vec<u8>, ReadStop> {
        let outcome = read_file(&self.rt, alloc, name, limit);
        self.transcript = self.transcript.and_whole(name, limit, &outcome);
        outcome
    }

    fn part(&mut self, name: &[u8], from: u64, into: &mut [u8]) -> Result<usize, ReadStop> {
        let outcome = read_part(&self.rt, name, from, into);
        self.transcript = self.transcript.and_part(name, from, into, &outcome);
        outcome
    }

    fn write(&mut self, name: &[u8], bytes: &[u8]) -> Result<(), WriteStop> {
        if write_file(&self.rt, name, bytes).is_err() {
            self.write_faults = self.write_faults.saturating_add(1);
            return Err(WriteStop::Failed);
        }
        Ok(())
    }
}

fn read_file<R: HostFiles>(
    rt: &R,
    alloc: Global,
    name: &[u8],
    limit: u64,
) -> Result<Vec<u8>, ReadStop>
    ensures within { IfOk result (λ bytes. length bytes.items ≤ limit) }
{
    let path = str::from_utf8(name).map_err(|_| ReadStop::Failed)?;
    let mut file = fs::open(rt, path).map_err(|_| ReadStop::Failed)?;
    read_up_to(&mut file, alloc, limit)
}

/// The outcome of reading a part, each fault of which is that the read failed.
fn read_part<R: HostFiles>(
    rt: &R,
    name: &[u8],
    from: u64,
    into: &mut [u8],
) -> Result<usize, ReadStop>
    ensures within { IfOk result (λ count. count ≤ length into.new) }
    ensures failed { OnErr result (IsErrOf result ReadStop.Failed) }
{
    match fill_from(rt, name, from, into) {
        Some(count) => Ok(count),
        None => Err(ReadStop::Failed),
    }
}

/// Fills the bytes with those of a file from a place on; none where a call of the system fails.
fn fill_from<R: HostFiles>(rt: &R, name: &[u8], from: u64, into: &mut [u8]) -> Option<usize>
    ensures { IfSome result (λ count. count ≤ length into.new) }
{
    let path = str::from_utf8(name).ok()?;
    let mut file = fs::open(rt, path).ok()?;
    file.seek(SeekFrom::Start(from)).ok()?;
    fill(&mut file, into).ok()
}

fn write_file<R: HostFiles>(rt: &R, name: &[u8], bytes: &[u8]) -> io::Result<()> {
    let Ok(path) = str::from_utf8(name) else {
        return Err(io::ErrorKind::InvalidInput.into());
    };
    let mut file = fs::create(rt, path)?;
    write_whole(&mut file, bytes)
}
