//! Answers cases of `run` and of the files and the sink that it is given: text in, text out.
//!
//! The arguments name case files. What the program prints is each case file with its answers: every line but the bytes of
//! files is repeated, and beneath a line that asks something stands its answer, a line `= ..` and what belongs to it.
//!
//! ```text
//! # A comment.
//! case two arguments in the other order
//! file a.c
//! | void f(int B[2], int C[1]) { C[0] = g(B[0], B[1]); }
//! file b.c
//! | void f(int B[2], int C[1]) { C[0] = g(B[1], B[0]); }
//! run prove a.c b.c
//! ```
//!
//! is answered by
//!
//! ```text
//! # A comment.
//! case two arguments in the other order
//! run prove a.c b.c
//! = different
//! | C different, element [0]
//! ```
//!
//! - `case` and a title begin a case: no files, an empty sink, and no calls yet.
//! - `file` and names give those names the bytes of the lines beneath: `|`, a blank and a line of text; a word in quotes; or
//!   `repeat`, a number and a word, for that word so many times. Lines of text that follow one another are joined by a
//!   newline, and the last has none: for one at the end write a bare `|`. A later `file` of the same name replaces the earlier.
//! - `failing read`, `failing write` or `failing put` and a number let that call fail; calls of each kind are numbered from 0
//!   through the case.
//! - `run` and words is a command line. Its answer is the status, the text that was put, and each file of the case or named by
//!   the words that does not hold what it held, with its bytes, or with a line that it has more than 4,096 or more than 65,536. Where
//!   they say `check` and no call of the case is to fail, the proof file is read again in pieces of 1 byte (up to 4,096 bytes), of
//!   7 (up to 65,536) and of 1,000 (up to 1,048,576); a line says where the answer is not the same.
//! - `lines LEFT RIGHT` compares two files as `prove` with `--proof` does, and tells in place of the proof how many lines it has. The files of
//!   the case stay as they are, and no call fails there.
//! - `relay NAME limit N` reads a file of at most N bytes and puts what it read; its answer ends with all that was put in the
//!   case. `part NAME FROM ROOM` reads a part of a file, from a place on and of so many bytes at most. `write NAME WORD` writes a file. `get NAME` looks into a file without a read.
//! - `code` and a status asks for its exit code, and `equal N` for the status of N equal outputs.
//!
//! Words are separated by blanks. A word in quotes may be empty and may hold blanks and the escapes `\n`, `\t`, `\"`, `\\` and
//! `\xHH`. A line of none of these forms is answered by `= not understood`.
#![tactic(auto)]

mod answers;
mod case;
mod counting;
mod draft;
mod lines;
mod parted;
mod quoting;
mod relay;
mod script;

use ac_port::{DiskFiles, Files, Sink, StdSink};
use script::Script;
use std::alloc::Global;
use std::{env, io};

/// The longest case file, in bytes.
const MAX_CASES: u64 = 1 << 24;

/// Answers the cases of a file.
fn answer_file<F: Files, S: Sink>(
    alloc: Global,
    files: &mut F,
    sink: &mut S,
    name: &str,
) -> io::Result<()> {
    let Ok(bytes) = files.read(alloc, name.as_bytes(), MAX_CASES) else {
        return Err(io::ErrorKind::NotFound.into());
    };
    let Ok(text) = str::from_utf8(bytes.as_slice()) else {
        return Err(io::ErrorKind::InvalidData.into());
    };
    let mut script = Script::new(alloc);
    for line in text.lines() {
        script.take(line)?;
    }
    sink.put(script.answers())
        .map_err(|_| io::ErrorKind::WriteZero.into())
}

fn main(rt: HostRuntime) -> io::Result<()> {
    let mut files = DiskFiles::new(&rt);
    let mut sink = StdSink::new(&rt);
    for name in env::args(&rt)?.skip(1) {
        answer_file(rt.alloc(), &mut files, &mut sink, name.as_str())?;
    }
    Ok(())
}
