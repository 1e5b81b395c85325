//! A case: its files and its sink.

use crate::answers::status_words;
use crate::counting::count_lines;
use crate::draft::Draft;
use crate::lines::{push_answer, push_bytes, push_line};
use crate::parted::Parted;
use crate::relay::{RelayStop, relay};
use ac_port::{Files, MemFiles, MemSink, WriteStop};
use ac_top::{Status, run};
use std::alloc::{AllocError, Global};

/// The files of a case, their names, and its sink.
#[derive(Drop)]
pub struct Case {
    alloc: Global,
    files: MemFiles,
    names: Vec<Vec<u8>>,
    sink: MemSink,
    may_fail: bool,
}

/// The pieces, in bytes, in which a proof file is read once more, and the longest file that is read so.
static PIECES: [(usize, usize); 3] = [(1, 4_096), (7, 65_536), (1_000, 1_048_576)];

/// Of a changed file that has more bytes than one of these no more is told than the first that it exceeds.
static LENGTHS: [usize; 2] = [65_536, 4_096];

/// What a command line came to at first.
#[derive(Drop)]
struct First {
    status: Status,
    put: Vec<u8>,
}

/// What a file held before a run.
#[derive(Drop)]
struct Held {
    name: Vec<u8>,
    bytes: Option<Vec<u8>>,
}

impl Case {
    pub fn new(alloc: Global) -> Self {
        Case {
            alloc,
            files: MemFiles::new(alloc),
            names: Vec::new(alloc),
            sink: MemSink::new(alloc),
            may_fail: false,
        }
    }

    /// Adds a file under each of its names.
    pub fn add(&mut self, draft: Draft) -> Result<(), AllocError> {
        for name in draft.names {
            self.files.add(name.as_slice(), draft.bytes.as_slice())?;
            if !self.names.contains(&name) {
                self.names.push(name)?;
            }
        }
        Ok(())
    }

    /// Lets a call of a kind fail; answers whether there is such a kind.
    pub fn fail(&mut self, kind: &[u8], call: u64) -> Result<bool, AllocError> {
        match kind {
            b"read" => self.files.fail_read(call)?,
            b"write" => self.files.fail_write(call)?,
            b"put" => self.sink.fail_put(call)?,
            _ => return Ok(false),
        }
        self.may_fail = true;
        Ok(true)
    }

    /// What a file holds.
    fn held(&self, name: &[u8]) -> Result<Held, AllocError> {
        let bytes = match self.files.get(name) {
            Some(bytes) => Some(bytes.to_vec(self.alloc)?),
            None => None,
        };
        let name = name.to_vec(self.alloc)?;
        Ok(Held { name, bytes })
    }

    /// What the files of the case hold, and those that words name.
    fn all_held(&self, words: &[Vec<u8>]) -> Result<Vec<Held>, AllocError> {
        let mut all = Vec::new(self.alloc);
        for name in &self.names {
            all.push(self.held(name.as_slice())?)?;
        }
        for word in words {
            if !self.names.contains(word) {
                all.push(self.held(word.as_slice())?)?;
            }
        }
        Ok(all)
    }

    /// What a changed file holds; of a long one that it is.
    fn push_content(&self, out: &mut Vec<u8>, bytes: &[u8]) -> Result<(), AllocError> {
        for length in &LENGTHS {
            if bytes.len() > *length {
                let line = format!(in self.alloc; "more than {} bytes", length)?;
                return push_line(out, line.as_bytes());
            }
        }
        push_bytes(out, bytes)
    }

    /// The files that do not hold what they held.
    fn push_changes(&self, out: &mut Vec<u8>, held: &[Held]) -> Result<(), AllocError> {
        for file in held {
            let before = file.bytes.as_ref().map(|bytes| bytes.as_slice());
            let now = self.files.get(file.name.as_slice());
            if now != before {
                out.extend_from_slice(b"changed ")?;
                push_line(out, file.name.as_slice())?;
                self.push_content(out, now.unwrap_or(b""))?;
            }
        }
        Ok(())
    }

    /// Answers a command line.
    pub fn run(&mut self, out: &mut Vec<u8>, words: &[Vec<u8>]) -> Result<(), AllocError> {
        let count = self.sink.bytes().len();
        let held = self.all_held(words)?;
        let status = run(self.alloc, words, &mut self.files, &mut self.sink);
        push_answer(out, status_words(status).as_bytes())?;
        let put = self.sink.bytes().get(count..).unwrap_or(b"");
        let first = First {
            status,
            put: put.to_vec(self.alloc)?,
        };
        push_bytes(out, first.put.as_slice())?;
        self.push_changes(out, held.as_slice())?;
        if self.may_fail {
            return Ok(());
        }
        self.push_pieces(out, words, &first)
    }

    /// The files that words name once more.
    fn copied(&self, words: &[Vec<u8>]) -> Result<MemFiles, AllocError> {
        let mut files = MemFiles::new(self.alloc);
        for word in words {
            if let Some(bytes) = self.files.get(word.as_slice()) {
                files.add(word.as_slice(), bytes)?;
            }
        }
        Ok(files)
    }

    /// Answers a command line once more, where a part of a file has at most so many bytes: whether its status and what it
    /// puts are as at first.
    fn is_same(&self, words: &[Vec<u8>], size: usize, first: &First) -> Result<bool, AllocError> {
        let mut files = Parted::new(self.copied(words)?, size);
        let mut sink = MemSink::new(self.alloc);
        let again = run(self.alloc, words, &mut files, &mut sink);
        Ok(again.code() == first.status.code() && sink.bytes() == first.put.as_slice())
    }

    /// Reads the proof file of a `check` in pieces: a line for each size with which the answer is not the same.
    fn push_pieces(
        &self,
        out: &mut Vec<u8>,
        words: &[Vec<u8>],
        first: &First,
    ) -> Result<(), AllocError> {
        let [command, _, _, proof] = words else {
            return Ok(());
        };
        if command.as_slice() != b"check".as_slice() {
            return Ok(());
        }
        let length = self.files.get(proof.as_slice()).unwrap_or(b"").len();
        for (size, most) in &PIECES {
            if length <= *most && !self.is_same(words, *size, first)? {
                let line = format!(in self.alloc; "in pieces of {}: another answer", size)?;
                push_line(out, line.as_bytes())?;
            }
        }
        Ok(())
    }

    /// Answers what `prove` says of two files, and how many lines its proof has. The files of the case stay as they are.
    pub fn lines(&self, out: &mut Vec<u8>, pair: &[Vec<u8>]) -> Result<(), AllocError> {
        count_lines(self.alloc, out, self.copied(pair)?, pair)
    }

    /// Answers a relay, with all that was put.
    pub fn relay(&mut self, out: &mut Vec<u8>, name: &[u8], limit: u64) -> Result<(), AllocError> {
        let answer: &[u8] = match relay(self.alloc, &mut self.files, &mut self.sink, name, limit) {
            Ok(()) => b"relayed",
            Err(RelayStop::Read) => b"read fault",
            Err(RelayStop::TooBig) => b"too big",
            Err(RelayStop::Put) => b"put fault",
            Err(RelayStop::Memory) => b"memory",
        };
        push_answer(out, answer)?;
        push_bytes(out, self.sink.bytes())
    }

    /// Answers a part of a file, from a place on and of so many bytes at most, and no more than 4,096.
    pub fn part(
        &mut self,
        out: &mut Vec<u8>,
        name: &[u8],
        from: u64,
        room: u64,
    ) -> Result<(), AllocError> {
        let mut part = vec![in self.alloc; 0u8; room.min(4096) as usize]?;
        match self.files.part(name, from, &mut part) {
            Ok(count) => {
                push_answer(out, b"part")?;
                push_bytes(out, &part[..count])
            }
            Err(_) => push_answer(out, b"read fault"),
        }
    }

    /// Answers a write.
    pub fn write(
        &mut self,
        out: &mut Vec<u8>,
        name: &[u8],
        bytes: &[u8],
    ) -> Result<(), AllocError> {
        match self.files.write(name, bytes) {
            Ok(()) => push_answer(out, b"written"),
            Err(WriteStop::Failed) => push_answer(out, b"write fault"),
            Err(WriteStop::Memory(error)) => Err(error),
        }
    }

    /// Answers what a file holds.
    pub fn get(&self, out: &mut Vec<u8>, name: &[u8]) -> Result<(), AllocError> {
        match self.files.get(name) {
            Some(bytes) => {
                push_answer(out, b"held")?;
                push_bytes(out, bytes)
            }
            None => push_answer(out, b"absent"),
        }
    }
}
