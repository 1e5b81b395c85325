//! The words of a line.

use std::alloc::{AllocError, Global};
use std::mem;

/// Where in a line a reader stands.
#[derive(Clone, Copy)]
enum Place {
    Between,
    Plain,
    Quoted,
    Escape,
    HighDigit,
    LowDigit(u8),
    Fault,
}

/// Reads words byte by byte.
#[derive(Drop)]
struct Reader {
    alloc: Global,
    words: Vec<Vec<u8>>,
    word: Vec<u8>,
    place: Place,
}

impl Reader {
    fn new(alloc: Global) -> Self {
        Reader {
            alloc,
            words: Vec::new(alloc),
            word: Vec::new(alloc),
            place: Place::Between,
        }
    }

    /// Ends the word.
    fn end(&mut self) -> Result<(), AllocError> {
        self.words
            .push(mem::replace(&mut self.word, Vec::new(self.alloc)))?;
        self.place = Place::Between;
        Ok(())
    }

    /// Adds a byte to the word, and reads on from a place.
    fn add(&mut self, byte: u8, place: Place) -> Result<(), AllocError> {
        self.word.push(byte)?;
        self.place = place;
        Ok(())
    }

    /// Takes the next byte.
    fn take(&mut self, byte: u8) -> Result<(), AllocError> {
        match self.place {
            Place::Between => self.begin(byte),
            Place::Plain if byte == b' ' => self.end(),
            Place::Plain => self.add(byte, Place::Plain),
            Place::Quoted if byte == b'"' => self.end(),
            Place::Quoted if byte == b'\\' => self.go_to(Place::Escape),
            Place::Quoted => self.add(byte, Place::Quoted),
            Place::Escape => self.escape(byte),
            Place::HighDigit => self.go_to(hex(byte).map_or(Place::Fault, Place::LowDigit)),
            Place::LowDigit(high) => match hex(byte) {
                Some(low) => self.add(high << 4 | low, Place::Quoted),
                None => self.go_to(Place::Fault),
            },
            Place::Fault => Ok(()),
        }
    }

    /// Takes the first byte of a word, or a blank before it.
    fn begin(&mut self, byte: u8) -> Result<(), AllocError> {
        match byte {
            b' ' => Ok(()),
            b'"' => self.go_to(Place::Quoted),
            _ => self.add(byte, Place::Plain),
        }
    }

    /// Takes the byte behind a backslash.
    fn escape(&mut self, byte: u8) -> Result<(), AllocError> {
        match byte {
            b'n' => self.add(b'\n', Place::Quoted),
            b't' => self.add(b'\t', Place::Quoted),
            b'"' | b'\\' => self.add(byte, Place::Quoted),
            b'x' => self.go_to(Place::HighDigit),
            _ => self.go_to(Place::Fault),
        }
    }

    fn go_to(&mut self, place: Place) -> Result<(), AllocError> {
        self.place = place;
        Ok(())
    }
}

/// The value of a hexadecimal digit.
fn hex(byte: u8) -> Option<u8> {
    match byte {
        b'0'..=b'9' => Some(byte - b'0'),
        b'a'..=b'f' => Some(byte - b'a' + 10),
        b'A'..=b'F' => Some(byte - b'A' + 10),
        _ => None,
    }
}

/// The words of a line; none where it ends inside of quotes, or has an escape that is none.
pub fn words_of(alloc: Global, line: &str) -> Result<Option<Vec<Vec<u8>>>, AllocError> {
    let mut reader = Reader::new(alloc);
    for byte in line.bytes() {
        reader.take(byte)?;
    }
    match reader.place {
        Place::Between => Ok(Some(reader.words)),
        Place::Plain => {
            reader.end()?;
            Ok(Some(reader.words))
        }
        _ => Ok(None),
    }
}

/// The number that a word spells.
pub fn number_of(word: &[u8]) -> Option<u64> {
    str::from_utf8(word).ok()?.parse::<u64>().ok()
}
