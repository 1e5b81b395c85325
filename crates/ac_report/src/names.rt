//! The names of columns.
ghost use Rattle.std.specs.Prelude.{◌≡◌, ◌++◌, ◌∷◌, [], decimal, OnOk, IfOk};
ghost use Rattle.ac_report.specs.Layouts.{numbered};

use crate::numbers::push_natural;
use ac_base::Items;
use ac_syntax::name::Name;
use std::alloc::{AllocError, Global};

/// A letter with a number, as bytes.
fn numbered_bytes(alloc: Global, letter: u8, number: usize) -> Result<Vec<u8>, AllocError>
    ensures { IfOk result (λ bytes. bytes.items ≡ letter ∷ decimal number) }
{
    let mut bytes = Vec::new(alloc);
    bytes.push(letter)?;
    push_natural(&mut bytes, number as u128)?;
    Ok(bytes)
}

/// A letter with a number.
#[tactic(auto, using(crate::proofs::Lists::name_steps))]
fn numbered_name(alloc: Global, letter: u8, number: usize) -> Result<Name, AllocError>
    ensures { IfOk result (λ name. name ≡ letter ∷ decimal number) }
{
    match Name::new(numbered_bytes(alloc, letter, number)?) {
        Some(name) => Ok(name),
        None => unreachable!(),
    }
}

/// The list with a letter and a number behind it.
fn with_one(
    alloc: Global,
    made: Items<Name>,
    letter: u8,
    number: usize,
) -> Result<Items<Name>, AllocError>
    ensures { IfOk result (λ new. new ≡ made ++ (letter ∷ decimal number) ∷ []) }
{
    let mut made = made;
    made.push(numbered_name(alloc, letter, number)?)?;
    Ok(made)
}

/// The list with a letter and each number below a count behind it.
#[tactic(auto, using(crate::proofs::Lists::numbered_steps))]
pub fn with_numbered(
    alloc: Global,
    made: Items<Name>,
    letter: u8,
    count: usize,
) -> Result<Items<Name>, AllocError>
    ensures { IfOk result (λ new. new ≡ made ++ numbered letter count) }
{
    let mut made = made;
    for number in 0..count {
        made = with_one(alloc, made, letter, number)?;
    }
    Ok(made)
}

/// The list with further names behind it.
pub fn with_names(
    alloc: Global,
    made: Items<Name>,
    names: &[Name],
) -> Result<Items<Name>, AllocError>
    ensures { IfOk result (λ new. new ≡ made ++ names.now) }
{
    let mut made = made;
    for name in names {
        made.push(name.copy(alloc)?)?;
    }
    Ok(made)
}
