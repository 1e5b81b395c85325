//! Case files, line by line.

use crate::answers::{status_named, status_words};
use crate::case::Case;
use crate::draft::Draft;
use crate::lines::{push_answer, push_line};
use crate::quoting::{number_of, words_of};
use ac_top::{Verdict, status_of};
use std::alloc::{AllocError, Global};

/// A case file as far as it was read: the case and the file that the next line may add to, and the answers.
#[derive(Drop)]
pub struct Script {
    alloc: Global,
    case: Case,
    draft: Option<Draft>,
    out: Vec<u8>,
}

impl Script {
    pub fn new(alloc: Global) -> Self {
        Script {
            alloc,
            case: Case::new(alloc),
            draft: None,
            out: Vec::new(alloc),
        }
    }

    /// The answers so far.
    pub fn answers(&self) -> &[u8] {
        self.out.as_slice()
    }

    /// Takes the next line.
    pub fn take(&mut self, line: &str) -> Result<(), AllocError> {
        if let Some(draft) = &mut self.draft {
            if draft.take(self.alloc, line)? {
                return Ok(());
            }
        }
        if let Some(draft) = self.draft.take() {
            self.case.add(draft)?;
        }
        if let Some(names) = line.strip_prefix("file ") {
            return self.begin_file(line, names);
        }
        push_line(&mut self.out, line.as_bytes())?;
        if line.is_empty() || line.starts_with('#') || self.begin_case(line) {
            return Ok(());
        }
        if self.answer(line)? {
            Ok(())
        } else {
            push_answer(&mut self.out, b"not understood")
        }
    }

    /// Begins a file under names.
    fn begin_file(&mut self, line: &str, names: &str) -> Result<(), AllocError> {
        match words_of(self.alloc, names)? {
            Some(names) => {
                self.draft = Some(Draft::new(self.alloc, names));
                Ok(())
            }
            None => {
                push_line(&mut self.out, line.as_bytes())?;
                push_answer(&mut self.out, b"not understood")
            }
        }
    }

    /// Begins a case where the line does; answers whether it does.
    fn begin_case(&mut self, line: &str) -> bool {
        let begins = line == "case" || line.starts_with("case ");
        if begins {
            self.case = Case::new(self.alloc);
        }
        begins
    }

    /// Answers a line that asks something; answers whether it is one.
    fn answer(&mut self, line: &str) -> Result<bool, AllocError> {
        let (keyword, rest) = line.split_once(' ').unwrap_or((line, ""));
        if keyword == "code" {
            return self.code(rest);
        }
        let Some(words) = words_of(self.alloc, rest)? else {
            return Ok(false);
        };
        let out = &mut self.out;
        match (keyword, words.as_slice()) {
            ("run", words) => self.case.run(out, words)?,
            ("lines", [_, _]) => self.case.lines(out, words.as_slice())?,
            ("get", [name]) => self.case.get(out, name.as_slice())?,
            ("write", [name, bytes]) => self.case.write(out, name.as_slice(), bytes.as_slice())?,
            ("part", [name, from, room]) => {
                return self.answer_part(name.as_slice(), from.as_slice(), room.as_slice());
            }
            (_, [number]) => return self.answer_number(keyword, number.as_slice()),
            (_, [first, number]) => {
                return self.answer_pair(keyword, first.as_slice(), number.as_slice());
            }
            _ => return Ok(false),
        }
        Ok(true)
    }

    /// Answers a part of a file, from a place on and of so many bytes at most.
    fn answer_part(&mut self, name: &[u8], from: &[u8], room: &[u8]) -> Result<bool, AllocError> {
        match (number_of(from), number_of(room)) {
            (Some(from), Some(room)) => {
                self.case.part(&mut self.out, name, from, room)?;
                Ok(true)
            }
            _ => Ok(false),
        }
    }

    /// Answers a keyword with a number.
    fn answer_number(&mut self, keyword: &str, number: &[u8]) -> Result<bool, AllocError> {
        match (keyword, number_of(number)) {
            ("equal", Some(count)) => self.equal_outputs(count),
            _ => Ok(false),
        }
    }

    /// Answers a keyword with a word and a number.
    fn answer_pair(
        &mut self,
        keyword: &str,
        word: &[u8],
        number: &[u8],
    ) -> Result<bool, AllocError> {
        match (keyword, number_of(number)) {
            ("failing", Some(call)) => self.case.fail(word, call),
            ("relay", Some(limit)) => {
                self.case.relay(&mut self.out, word, limit)?;
                Ok(true)
            }
            _ => Ok(false),
        }
    }

    /// Answers the exit code of a status.
    fn code(&mut self, words: &str) -> Result<bool, AllocError> {
        match status_named(words) {
            Some(status) => {
                let code = format!(in self.alloc; "{}", status.code())?;
                push_answer(&mut self.out, code.as_bytes())?;
                Ok(true)
            }
            None => Ok(false),
        }
    }

    /// Answers the status of equal outputs.
    fn equal_outputs(&mut self, count: u64) -> Result<bool, AllocError> {
        let mut verdicts = Vec::new(self.alloc);
        for _ in 0..count {
            verdicts.push(Verdict::Equal)?;
        }
        let status = status_of(verdicts.as_slice());
        push_answer(&mut self.out, status_words(status).as_bytes())?;
        Ok(true)
    }
}
