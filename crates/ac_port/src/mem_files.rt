// Files in memory, for tests: a log of what was written, the newest first.
ghost use Rattle.std.specs.Prelude.{◌≡◌, ◌≤◌, ◌++◌, ◌∷◌, ◌↔◌, [], length, take, Option, IfOk, OnOk, OnErr, IsErrOf, IsTrue, IsSomeAnd};
ghost use Rattle.std.specs.Option.{option_copied};
ghost use Rattle.std.specs.FinMap as map;
ghost use Rattle.ac_port.specs.Contents.{IsTooBig, IsPart};
ghost use Rattle.ac_port.specs.CallCounts.{Rose};
ghost use Rattle.ac_port.specs.FakeCalls.{is_listed, after_call};
ghost use Rattle.ac_port.specs.Memory.{read_fails};
ghost use Rattle.ac_port.specs.Transcripts.{whole_read, part_read, handed_of};

use crate::calls::CallLog;
use crate::{Files, ReadStop, Transcript, WriteStop};
use std::alloc::{AllocError, Global};
use std::collections::VecDeque;
use std::marker::Model;

#[derive(Drop)]
struct Entry {
    name: Vec<u8>,
    bytes: Vec<u8>,
}

/// Files in memory, for tests. Reads and writes are numbered from 0, each kind for itself, and those that
/// were listed fail; the number ends at 2^64 - 1. A read of a name that is not there fails too.
#[derive(Drop)]
pub struct MemFiles {
    alloc: Global,
    log: VecDeque<Entry>,
    reads: CallLog,
    writes: CallLog,
    transcript: Transcript,
}

impl Model for MemFiles {
    ghost use Rattle.ac_port.specs.Memory.{FilesInMemory, files_code};
    ghost use Rattle.ac_port.specs.Log.{contents_of};

    ghost Value = { FilesInMemory };

    ghost coded = { files_code };

    ghost view = { λ a. record { contents = contents_of a.log.items; reads = a.reads; writes = a.writes; transcript = a.transcript.reads } };
}

impl MemFiles {
    /// No files.
    pub fn new(alloc: Global) -> MemFiles
        ensures contents { result.contents ≡ map.empty }
        ensures reads { result.reads ≡ record { next = 0; failing = []; faults = 0 } }
        ensures writes { result.writes ≡ record { next = 0; failing = []; faults = 0 } }
        ensures transcript { result.transcript ≡ [] }
    {
        MemFiles {
            alloc,
            log: VecDeque::new(alloc),
            reads: CallLog::new(alloc),
            writes: CallLog::new(alloc),
            transcript: Transcript::new(),
        }
    }

    /// Makes the named file hold these bytes; this is no write that is counted.
    pub fn add(&mut self, name: &[u8], bytes: &[u8]) -> Result<(), AllocError>
        ensures ok { OnOk result (self.new ≡ record self.old { contents = map.insert self.old.contents name.now bytes.now }) }
        ensures err { OnErr result (self.new ≡ self.old) }
    {
        let entry = Entry {
            name: name.to_vec(self.alloc)?,
            bytes: bytes.to_vec(self.alloc)?,
        };
        self.log.push_front(entry)?;
        Ok(())
    }

    /// Tells the read with this number to fail.
    pub fn fail_read(&mut self, call: u64) -> Result<(), AllocError>
        ensures ok { OnOk result (self.new ≡ record self.old { reads = record self.old.reads { failing = self.old.reads.failing ++ call ∷ [] } }) }
        ensures err { OnErr result (self.new ≡ self.old) }
    {
        self.reads.fail(call)
    }

    /// Tells the write with this number to fail.
    pub fn fail_write(&mut self, call: u64) -> Result<(), AllocError>
        ensures ok { OnOk result (self.new ≡ record self.old { writes = record self.old.writes { failing = self.old.writes.failing ++ call ∷ [] } }) }
        ensures err { OnErr result (self.new ≡ self.old) }
    {
        self.writes.fail(call)
    }

    /// What the named file holds, if it is there.
    pub fn get(&self, name: &[u8]) -> Option<&[u8]>
        ensures { option_copied result ≡ map.get self.now.contents name.now }
    {
        for entry in &self.log {
            if name == entry.name.as_slice() {
                return Some(entry.bytes.as_slice());
            }
        }
        None
    }

    /// Whether the next read of this name fails.
    fn next_read_fails(&self, name: &[u8]) -> bool
        ensures { result ≡ read_fails self.now name.now }
    {
        self.reads.is_next_listed() || self.get(name).is_none()
    }

    /// The read, before it is noted.
    fn fetch(&mut self, alloc: Global, name: &[u8], limit: u64) -> Result<Vec<u8>, ReadStop>
        ensures exact { IsErrOf result ReadStop.Failed ↔ IsTrue (read_fails self.old name.now) }
        ensures counted { self.new ≡ record self.old { reads = after_call (read_fails self.old name.now) self.old.reads } }
        ensures bytes { IfOk result (λ bytes. map.get self.old.contents name.now ≡ Option.Some bytes.items) }
        ensures within { IfOk result (λ bytes. length bytes.items ≤ limit) }
        ensures too_big { IsErrOf result ReadStop.TooBig → IsTooBig self.old.contents name.now limit }
    {
        let fails = self.next_read_fails(name);
        self.reads.count(fails);
        if fails {
            return Err(ReadStop::Failed);
        }
        match self.get(name) {
            None => Err(ReadStop::Failed),
            Some(bytes) if bytes.len() as u64 > limit => Err(ReadStop::TooBig),
            Some(bytes) => Ok(bytes.to_vec(alloc)?),
        }
    }

    /// The read of a part, before it is noted.
    fn fetch_part(&mut self, name: &[u8], from: u64, into: &mut [u8]) -> Result<usize, ReadStop>
        ensures exact { IsErrOf result ReadStop.Failed ↔ IsTrue (read_fails self.old name.now) }
        ensures counted { self.new ≡ record self.old { reads = after_call (read_fails self.old name.now) self.old.reads } }
        ensures bytes { IfOk result (λ count. IsSomeAnd (map.get self.old.contents name.now) (λ bytes. IsPart bytes from into.old into.new count)) }
        ensures within { IfOk result (λ count. count ≤ length into.new) }
        ensures failed { OnErr result (IsErrOf result ReadStop.Failed) }
    {
        let fails = self.next_read_fails(name);
        self.reads.count(fails);
        if fails {
            return Err(ReadStop::Failed);
        }
        match self.get(name) {
            None => Err(ReadStop::Failed),
            Some(bytes) => Ok(copy_part(bytes, from, into)),
        }
    }
}

impl Files for MemFiles {
    ghost contents = { λ files. Option.Some files.contents };

    ghost transcript = { λ files. files.transcript };

    ghost write_faults = { λ files. files.writes.faults };

    /// Fails exactly at a listed read and at a name that is not there.
    fn read(&mut self, alloc: Global, name: &[u8], limit: u64) -> Result<Vec<u8>, ReadStop>
        ensures exact { IsErrOf result ReadStop.Failed ↔ IsTrue (read_fails self.old name.now) }
        ensures counted { self.new ≡ record self.old { reads = after_call (read_fails self.old name.now) self.old.reads; transcript = self.old.transcript ++ whole_read name.now limit (handed_of result (λ bytes. bytes.items)) ∷ [] } }
        ensures handed { self.new.transcript ≡ self.old.transcript ++ whole_read name.now limit (handed_of result (λ bytes. bytes.items)) ∷ [] }
        ensures bytes { IfOk result (λ bytes. map.get self.old.contents name.now ≡ Option.Some bytes.items) }
        ensures within { IfOk result (λ bytes. length bytes.items ≤ limit) }
        ensures too_big { IsErrOf result ReadStop.TooBig → IsTooBig self.old.contents name.now limit }
        ensures same { self.new.contents ≡ self.old.contents }
        ensures same_writes { self.new.writes.faults ≡ self.old.writes.faults }
    {
        let outcome = self.fetch(alloc, name, limit);
        self.transcript = self.transcript.and_whole(name, limit, &outcome);
        outcome
    }

    /// Fails exactly at a listed read and at a name that is not there; parts are numbered with the reads.
    fn part(&mut self, name: &[u8], from: u64, into: &mut [u8]) -> Result<usize, ReadStop>
        ensures exact { IsErrOf result ReadStop.Failed ↔ IsTrue (read_fails self.old name.now) }
        ensures counted { self.new ≡ record self.old { reads = after_call (read_fails self.old name.now) self.old.reads; transcript = self.old.transcript ++ part_read name.now from (length into.old) (handed_of result (λ count. take count into.new)) ∷ [] } }
        ensures handed { self.new.transcript ≡ self.old.transcript ++ part_read name.now from (length into.old) (handed_of result (λ count. take count into.new)) ∷ [] }
        ensures bytes { IfOk result (λ count. IsSomeAnd (map.get self.old.contents name.now) (λ bytes. IsPart bytes from into.old into.new count)) }
        ensures within { IfOk result (λ count. count ≤ length into.new) }
        ensures failed { OnErr result (IsErrOf result ReadStop.Failed) }
        ensures same { self.new.contents ≡ self.old.contents }
        ensures same_writes { self.new.writes.faults ≡ self.old.writes.faults }
    {
        let outcome = self.fetch_part(name, from, into);
        self.transcript = self.transcript.and_part(name, from, into, &outcome);
        outcome
    }

    /// Fails exactly at a listed write, and leaves the files as they were.
    fn write(&mut self, name: &[u8], bytes: &[u8]) -> Result<(), WriteStop>
        ensures exact { IsErrOf result WriteStop.Failed ↔ IsTrue (is_listed self.old.writes) }
        ensures counted { self.new.writes ≡ after_call (is_listed self.old.writes) self.old.writes }
        ensures written { OnOk result (self.new.contents ≡ map.insert self.old.contents name.now bytes.now) }
        ensures unwritten { OnErr result (self.new.contents ≡ self.old.contents) }
        ensures failed { IsErrOf result WriteStop.Failed → Rose self.old.writes.faults self.new.writes.faults }
        ensures no_fewer { self.old.writes.faults ≤ self.new.writes.faults }
        ensures same_reads { self.new.transcript ≡ self.old.transcript }
        ensures uncounted { self.new.reads ≡ self.old.reads }
    {
        let fails = self.writes.is_next_listed();
        self.writes.count(fails);
        if fails {
            return Err(WriteStop::Failed);
        }
        Ok(self.add(name, bytes)?)
    }
}

/// Copies bytes from a place on to the front of others, as many as fit and are left, and gives their number.
fn copy_part(bytes: &[u8], from: u64, into: &mut [u8]) -> usize
    ensures part { IsPart bytes.now from into.old into.new result }
    ensures within { result ≤ length into.new }
{
    let start = bytes.len().min(from as usize);
    let rest = &bytes[start..];
    let count = rest.len().min(into.len());
    into[..count].copy_from_slice(&rest[..count]);
    count
}
