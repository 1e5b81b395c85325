//! A file while its lines are read.

use crate::quoting::{number_of, words_of};
use std::alloc::{AllocError, Global};

/// The names of a file, and its bytes so far.
#[derive(Drop)]
pub struct Draft {
    pub names: Vec<Vec<u8>>,
    pub bytes: Vec<u8>,
    is_behind_text: bool,
}

impl Draft {
    pub fn new(alloc: Global, names: Vec<Vec<u8>>) -> Self {
        Draft {
            names,
            bytes: Vec::new(alloc),
            is_behind_text: false,
        }
    }

    /// Takes a line where it is one of the file's; answers whether it is.
    pub fn take(&mut self, alloc: Global, line: &str) -> Result<bool, AllocError> {
        if line == "|" {
            self.take_text("")?;
            return Ok(true);
        }
        if let Some(text) = line.strip_prefix("| ") {
            self.take_text(text)?;
            return Ok(true);
        }
        let Some(words) = words_of(alloc, line)? else {
            return Ok(false);
        };
        match words.as_slice() {
            [word] if line.starts_with('"') => self.repeat(1, word.as_slice()),
            [name, count, word] if name.as_slice() == b"repeat".as_slice() => {
                match number_of(count.as_slice()) {
                    Some(count) => self.repeat(count, word.as_slice()),
                    None => Ok(false),
                }
            }
            _ => Ok(false),
        }
    }

    /// Adds a line of text.
    fn take_text(&mut self, text: &str) -> Result<(), AllocError> {
        if self.is_behind_text {
            self.bytes.push(b'\n')?;
        }
        self.bytes.extend_from_slice(text.as_bytes())?;
        self.is_behind_text = true;
        Ok(())
    }

    /// Adds bytes so many times.
    fn repeat(&mut self, count: u64, bytes: &[u8]) -> Result<bool, AllocError> {
        for _ in 0..count {
            self.bytes.extend_from_slice(bytes)?;
        }
        self.is_behind_text = false;
        Ok(true)
    }
}
