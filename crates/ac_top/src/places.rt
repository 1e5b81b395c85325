ghost use Rattle.std.specs.Prelude.{◌≡◌, ◌+◌, ◌++◌, take, count_by, not, decimal, codes, OnOk};
ghost use Rattle.std.specs.List.{suffix_len};
ghost use Rattle.ac_top.specs.TextPlaces.{is_newline, place_text};

use itoa::Buffer;
use std::alloc::AllocError;

/// A line and a column, each from 1.
#[derive(Clone, Copy, PartialEq, Eq)]
struct Position {
    line: usize,
    column: usize,
}

/// The bytes before the one with this number.
fn before(bytes: &[u8], at: u32) -> &[u8]
    ensures { result.now ≡ take at bytes.now }
{
    let end = at as usize;
    if end < bytes.len() {
        &bytes[..end]
    } else {
        bytes
    }
}

/// Where the byte behind these stands.
fn position_after(bytes: &[u8]) -> Position
    ensures line { result.line ≡ 1 + count_by is_newline bytes.now }
    ensures column { result.column ≡ 1 + suffix_len (λ byte. not (is_newline byte)) bytes.now }
{
    let mut line: usize = 1;
    let mut column: usize = 1;
    for byte in bytes {
        if *byte == b'\n' {
            line += 1;
            column = 1;
        } else {
            column += 1;
        }
    }
    Position { line, column }
}

/// Adds a colon and a number.
fn push_number(text: &mut Vec<u8>, number: usize) -> Result<(), AllocError>
    ensures { OnOk result (text.new.items ≡ text.old.items ++ codes ":" ++ decimal number) }
{
    let mut buffer = Buffer::new();
    text.push(b':')?;
    text.extend_from_slice(buffer.format(number).as_bytes())
}

/// Adds `NAME:L:C`, the line and the column of a byte of the named text.
pub fn push_place(text: &mut Vec<u8>, name: &[u8], bytes: &[u8], at: u32) -> Result<(), AllocError>
    ensures { OnOk result (text.new.items ≡ text.old.items ++ place_text name.now bytes.now at) }
{
    let position = position_after(before(bytes, at));
    text.extend_from_slice(name)?;
    push_number(text, position.line)?;
    push_number(text, position.column)
}
