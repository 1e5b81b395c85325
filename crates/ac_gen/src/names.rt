//! Names.
ghost use Rattle.std.specs.Prelude.{◌≡◌, ◌≤◌, ◌<◌, ◌++◌, ◌∷◌, [], codes, decimal, length, IfOk};

use ac_syntax::name::Name;
use itoa::Buffer;
use std::alloc::{AllocError, Global};

/// The name of these bytes.
pub fn name(alloc: Global, text: &[u8]) -> Result<Name, AllocError>
    requires some { 0 < length text.now }
    requires short { length text.now ≤ 64 }
    ensures { IfOk result (λ name. name ≡ text.now) }
{
    match Name::new(Vec::from_slice(alloc, text)?) {
        Some(name) => Ok(name),
        None => unreachable!(),
    }
}

/// The name of a letter and a number.
pub fn numbered(alloc: Global, letter: u8, number: usize) -> Result<Name, AllocError>
    ensures { IfOk result (λ name. name ≡ letter ∷ decimal number) }
{
    let mut bytes = Vec::new(alloc);
    bytes.push(letter)?;
    let mut buffer = Buffer::new();
    bytes.extend_from_slice(buffer.format(number).as_bytes())?;
    name(alloc, &bytes)
}
