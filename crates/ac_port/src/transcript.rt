// All reads so far, with what they handed out.
ghost use Rattle.std.specs.Prelude.{◌≡◌, ◌≤◌, ◌++◌, ◌∷◌, [], List, length, take, IfOk};
ghost use Rattle.std.specs.Borrow.{ftrue};
ghost use Rattle.std.specs.Coded.{coded_list};
ghost use Rattle.ac_port.specs.Transcripts.{Read, read_code, whole_read, part_read, handed_of};

use crate::ReadStop;
use std::marker::Model;

/// A read, and what it handed out.
#[derive(Drop)]
struct FileRead<'a> {
    name: &'a [u8],
    /// The place of a part; none for a whole file.
    from: Option<u64>,
    /// How many bytes were asked for at most.
    limit: u64,
    /// The bytes that were handed out, or why there are none.
    handed: Result<&'a [u8], ReadStop>,
}

/// All reads so far, in order, with what they handed out. It takes no memory, since only clauses see it.
#[derive(Drop)]
pub struct Transcript {
    pub ghost reads: { List Read } by { coded_list read_code },
}

impl Model for Transcript {
    ghost also_owns = { λ _. ftrue };
}

impl Transcript {
    ghost use Rattle.ac_port.specs.NotedReads.{read_of};

    /// No read.
    pub fn new() -> Transcript
        ensures { result.reads ≡ [] }
    {
        Transcript {}
    }

    /// These reads, and then one more.
    fn and(&self, _read: &FileRead<'_>) -> Transcript
        ensures { result.reads ≡ self.now.reads ++ read_of _read.now ∷ [] }
    {
        Transcript {}
    }

    /// These reads, and then one of a whole file, of at most so many bytes, with this outcome.
    pub fn and_whole<'a>(
        &self,
        name: &'a [u8],
        limit: u64,
        outcome: &'a Result<Vec<u8>, ReadStop>,
    ) -> Transcript
        ensures { result.reads ≡ self.now.reads ++ whole_read name.now limit (handed_of outcome.now (λ bytes. bytes.items)) ∷ [] }
    {
        match outcome {
            Ok(bytes) => self.and(&FileRead {
                name,
                from: None,
                limit,
                handed: Ok(bytes.as_slice()),
            }),
            Err(stop) => self.and(&FileRead {
                name,
                from: None,
                limit,
                handed: Err(*stop),
            }),
        }
    }

    /// These reads, and then one of a part from a place on, which filled the front of `into` with this outcome.
    pub fn and_part<'a>(
        &self,
        name: &'a [u8],
        from: u64,
        into: &'a [u8],
        outcome: &Result<usize, ReadStop>,
    ) -> Transcript
        requires { IfOk outcome.now (λ count. count ≤ length into.now) }
        ensures { result.reads ≡ self.now.reads ++ part_read name.now from (length into.now) (handed_of outcome.now (λ count. take count into.now)) ∷ [] }
    {
        let limit = into.len() as u64;
        match outcome {
            Ok(count) => self.and(&FileRead {
                name,
                from: Some(from),
                limit,
                handed: Ok(&into[..*count]),
            }),
            Err(stop) => self.and(&FileRead {
                name,
                from: Some(from),
                limit,
                handed: Err(*stop),
            }),
        }
    }
}
