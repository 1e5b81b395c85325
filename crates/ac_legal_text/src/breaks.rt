//! The line of two instances between which an order is broken.
ghost use Rattle.std.specs.Prelude.{◌≡◌, ◌++◌, ◌∷◌, [], codes, decimal, IfOk, OnOk};
ghost use Rattle.std.specs.List.{flat_map, join_by};
ghost use Rattle.std.specs.Fmt.{signed_decimal};
ghost use Rattle.ac_legal_text.specs.BrokenLines as text;

use itoa::Buffer;
use std::alloc::{AllocError, Global};

/// Adds an integer.
fn push_integer(bytes: &mut Vec<u8>, number: i128) -> Result<(), AllocError>
    ensures { OnOk result (bytes.new.items ≡ bytes.old.items ++ signed_decimal number) }
{
    let mut buffer = Buffer::new();
    bytes.extend_from_slice(buffer.format(number).as_bytes())
}

/// Adds a number.
fn push_natural(bytes: &mut Vec<u8>, number: usize) -> Result<(), AllocError>
    ensures { OnOk result (bytes.new.items ≡ bytes.old.items ++ decimal number) }
{
    let mut buffer = Buffer::new();
    bytes.extend_from_slice(buffer.format(number).as_bytes())
}

fn push_further_number(bytes: &mut Vec<u8>, number: i128) -> Result<(), AllocError>
    ensures { OnOk result (bytes.new.items ≡ bytes.old.items ++ (codes "," ++ signed_decimal number)) }
{
    bytes.push(b',')?;
    push_integer(bytes, number)
}

fn push_further_numbers(bytes: &mut Vec<u8>, numbers: &[i128]) -> Result<(), AllocError>
    ensures { OnOk result (bytes.new.items ≡ bytes.old.items ++ flat_map (λ n. codes "," ++ signed_decimal n) numbers.now) }
{
    for number in numbers {
        push_further_number(bytes, *number)?;
    }
    Ok(())
}

/// Adds numbers, joined by commas.
#[tactic(auto, using(crate::proofs::Joining::joins))]
fn push_numbers(bytes: &mut Vec<u8>, numbers: &[i128]) -> Result<(), AllocError>
    ensures { OnOk result (bytes.new.items ≡ bytes.old.items ++ join_by signed_decimal (codes ",") numbers.now) }
{
    let [first, rest @ ..] = numbers else {
        return Ok(());
    };
    push_integer(bytes, *first)?;
    push_further_numbers(bytes, rest)
}

/// Adds numbers in parentheses.
#[tactic(auto, using(crate::proofs::Joining::joins))]
fn push_tuple(bytes: &mut Vec<u8>, numbers: &[i128]) -> Result<(), AllocError>
    ensures { OnOk result (bytes.new.items ≡ bytes.old.items ++ text.tuple_text numbers.now) }
{
    bytes.push(b'(')?;
    push_numbers(bytes, numbers)?;
    bytes.push(b')')?;
    Ok(())
}

/// Adds an instance of an assignment.
#[tactic(auto, using(crate::proofs::Joining::joins))]
fn push_instance(bytes: &mut Vec<u8>, number: usize, counters: &[i128]) -> Result<(), AllocError>
    ensures { OnOk result (bytes.new.items ≡ bytes.old.items ++ text.instance_text number counters.now) }
{
    bytes.push(b'S')?;
    push_natural(bytes, number)?;
    push_tuple(bytes, counters)
}

/// Adds two instances, each by its assignment and its counters.
#[tactic(auto, using(crate::proofs::Joining::joins))]
fn push_pair(
    bytes: &mut Vec<u8>,
    first: usize,
    counters: &[i128],
    second: usize,
    others: &[i128],
) -> Result<(), AllocError>
    ensures { OnOk result (bytes.new.items ≡ bytes.old.items ++ text.pair_text first counters.now second others.now) }
{
    push_instance(bytes, first, counters)?;
    bytes.extend_from_slice(b" before ")?;
    push_instance(bytes, second, others)
}

/// Adds a valuation.
#[tactic(auto, using(crate::proofs::Joining::joins))]
fn push_valuation(bytes: &mut Vec<u8>, at: &[i128]) -> Result<(), AllocError>
    ensures { OnOk result (bytes.new.items ≡ bytes.old.items ++ codes " at " ++ text.tuple_text at.now) }
{
    bytes.extend_from_slice(b" at ")?;
    push_tuple(bytes, at)
}

/// The line of two instances between which an order is broken, each by its assignment and its counters, at a valuation.
#[tactic(auto, using(crate::proofs::Joining::joins))]
pub fn broken_line(
    alloc: Global,
    at: &[i128],
    first: usize,
    counters: &[i128],
    second: usize,
    others: &[i128],
) -> Result<Vec<u8>, AllocError>
    ensures { IfOk result (λ bytes. bytes.items ≡ text.broken_line at.now first counters.now second others.now) }
{
    let mut bytes = Vec::from_slice(alloc, b"broken: ")?;
    push_pair(&mut bytes, first, counters, second, others)?;
    push_valuation(&mut bytes, at)?;
    bytes.push(b'\n')?;
    Ok(bytes)
}
