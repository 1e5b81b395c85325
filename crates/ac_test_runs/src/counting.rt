//! Proofs that `prove` writes, by their lines.

use crate::answers::status_words;
use crate::lines::{push_answer, push_bytes, push_line};
use ac_port::{MemFiles, MemSink};
use ac_top::run;
use std::alloc::{AllocError, Global};

/// The file that the proof is written to.
static PROOF: &str = "lines of the proof";

/// The words by which `prove` compares two files and writes a proof.
fn proving(alloc: Global, pair: &[Vec<u8>]) -> Result<Vec<Vec<u8>>, AllocError> {
    let mut words = Vec::new(alloc);
    words.push("prove".as_bytes().to_vec(alloc)?)?;
    for name in pair {
        words.push(name.as_slice().to_vec(alloc)?)?;
    }
    words.push("--proof".as_bytes().to_vec(alloc)?)?;
    words.push(PROOF.as_bytes().to_vec(alloc)?)?;
    Ok(words)
}

/// How many lines end in bytes.
fn lines_in(bytes: &[u8]) -> u64 {
    let mut count: u64 = 0;
    for byte in bytes {
        if *byte == b'\n' {
            count = count.saturating_add(1);
        }
    }
    count
}

/// Adds how many lines the proof has, where there is one.
fn push_count(alloc: Global, out: &mut Vec<u8>, proof: Option<&[u8]>) -> Result<(), AllocError> {
    match proof {
        Some(bytes) => {
            let line = format!(in alloc; "proof {} lines", lines_in(bytes))?;
            push_line(out, line.as_bytes())
        }
        None => push_line(out, b"no proof"),
    }
}

/// Answers what `prove` says of two of these files, and how many lines its proof has.
pub fn count_lines(
    alloc: Global,
    out: &mut Vec<u8>,
    files: MemFiles,
    pair: &[Vec<u8>],
) -> Result<(), AllocError> {
    let mut files = files;
    let mut sink = MemSink::new(alloc);
    let words = proving(alloc, pair)?;
    let status = run(alloc, words.as_slice(), &mut files, &mut sink);
    push_answer(out, status_words(status).as_bytes())?;
    push_bytes(out, sink.bytes())?;
    push_count(alloc, out, files.get(PROOF.as_bytes()))
}
