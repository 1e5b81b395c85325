//! Denmavoli: whether two static affine C functions leave the same in every element of their outputs.
//!
//! `main` takes the words after the program's name, works on the real files and the standard output, and ends with the
//! exit code of the status that `run` answers.
#![tactic(auto)]

ghost use Rattle.std.specs.Prelude.{◌≡◌, map, string_bytes, IfOk};

use ac_port::{DiskFiles, StdSink};
use ac_top::{Status, run};
use std::alloc::{AllocError, Global};
use std::process::ExitCode;
use std::rt::Runtime;
use std::{env, io};

/// Words as bytes, in order.
fn as_bytes(alloc: Global, words: Vec<String>) -> Result<Vec<Vec<u8>>, AllocError>
    ensures { IfOk result (λ all. map (λ word. word.items) all.items ≡ map string_bytes words.items) }
{
    let mut all = Vec::new(alloc);
    for word in words {
        all.push(word.into_bytes())?;
    }
    Ok(all)
}

/// The words after the program's name, as bytes. A command line with a word that is not UTF-8 is read as one without
/// words, so that it is answered by the usage line too.
fn words(rt: &impl Runtime<A = Global>) -> io::Result<Vec<Vec<u8>>> {
    let mut words = Vec::new(rt.alloc());
    for word in env::args(rt)?.skip(1) {
        words.push(word)?;
    }
    Ok(as_bytes(rt.alloc(), words)?)
}

fn main(rt: HostRuntime) -> ExitCode {
    let words = match words(&rt) {
        Ok(words) => words,
        Err(error) if error.kind() == io::ErrorKind::OutOfMemory => {
            return ExitCode::from(Status::Memory.code());
        }
        Err(_) => Vec::new(rt.alloc()),
    };
    let mut files = DiskFiles::new(&rt);
    let mut sink = StdSink::new(&rt);
    let status = run(rt.alloc(), &words, &mut files, &mut sink);
    ExitCode::from(status.code())
}
