//! Numbers and positions in the texts.
ghost use Rattle.std.specs.Prelude.{◌≡◌, ◌++◌, ◌∷◌, [], codes, decimal, take, drop, OnOk};
ghost use Rattle.std.specs.List.{flat_map, join_by};
ghost use Rattle.std.specs.Fmt.{signed_decimal};
ghost use Rattle.ac_prooftext_lines.specs.Spelling.{dotted_word, position_word, order_word};
ghost use Rattle.ac_report.specs.ReportTexts as text;

use ac_syntax::tree::{Order, Position};
use itoa::Buffer;
use std::alloc::AllocError;

/// Adds a number.
pub fn push_natural(bytes: &mut Vec<u8>, number: u128) -> Result<(), AllocError>
    ensures { OnOk result (bytes.new.items ≡ bytes.old.items ++ decimal number) }
{
    let mut buffer = Buffer::new();
    bytes.extend_from_slice(buffer.format(number).as_bytes())
}

/// Adds an integer.
pub fn push_integer(bytes: &mut Vec<u8>, number: i128) -> Result<(), AllocError>
    ensures { OnOk result (bytes.new.items ≡ bytes.old.items ++ signed_decimal number) }
{
    let mut buffer = Buffer::new();
    bytes.extend_from_slice(buffer.format(number).as_bytes())
}

/// Adds an integer of 64 bits.
pub fn push_short(bytes: &mut Vec<u8>, number: i64) -> Result<(), AllocError>
    ensures { OnOk result (bytes.new.items ≡ bytes.old.items ++ signed_decimal number) }
{
    let mut buffer = Buffer::new();
    bytes.extend_from_slice(buffer.format(number).as_bytes())
}

fn push_dotted(bytes: &mut Vec<u8>, first: usize, second: usize) -> Result<(), AllocError>
    ensures { OnOk result (bytes.new.items ≡ bytes.old.items ++ dotted_word (first, second)) }
{
    push_natural(bytes, first as u128)?;
    bytes.push(b'.')?;
    push_natural(bytes, second as u128)
}

/// Adds a position.
#[tactic(auto, using(crate::proofs::Layouts::joins))]
pub fn push_position(bytes: &mut Vec<u8>, position: &Position) -> Result<(), AllocError>
    ensures { OnOk result (bytes.new.items ≡ bytes.old.items ++ position_word position.now) }
{
    match position {
        Position::Output(array) => {
            bytes.extend_from_slice(b"O")?;
            push_natural(bytes, *array as u128)
        }
        Position::Node { stmt, node } => {
            bytes.extend_from_slice(b"S")?;
            push_dotted(bytes, *stmt, *node)
        }
        Position::InitialOutput(array) => {
            bytes.extend_from_slice(b"IO")?;
            push_natural(bytes, *array as u128)
        }
        Position::InitialNode { stmt, node } => {
            bytes.extend_from_slice(b"IS")?;
            push_dotted(bytes, *stmt, *node)
        }
    }
}

/// Adds an order of arguments.
pub fn push_order(bytes: &mut Vec<u8>, order: &Order) -> Result<(), AllocError>
    ensures { OnOk result (bytes.new.items ≡ bytes.old.items ++ order_word order.now) }
{
    match order {
        Order::Keep => bytes.extend_from_slice(b"keep"),
        Order::Swap => bytes.extend_from_slice(b"swap"),
    }
}

fn push_further_number(bytes: &mut Vec<u8>, number: i128) -> Result<(), AllocError>
    ensures { OnOk result (bytes.new.items ≡ bytes.old.items ++ (codes "," ++ signed_decimal number)) }
{
    bytes.push(b',')?;
    push_integer(bytes, number)
}

fn push_further_numbers(bytes: &mut Vec<u8>, numbers: &[i128]) -> Result<(), AllocError>
    ensures { OnOk result (bytes.new.items ≡ bytes.old.items ++ flat_map (λ n. codes "," ++ signed_decimal n) numbers.now) }
{
    for number in numbers {
        push_further_number(bytes, *number)?;
    }
    Ok(())
}

/// Adds numbers, joined by commas.
#[tactic(auto, using(crate::proofs::Layouts::joins))]
fn push_numbers(bytes: &mut Vec<u8>, numbers: &[i128]) -> Result<(), AllocError>
    ensures { OnOk result (bytes.new.items ≡ bytes.old.items ++ join_by signed_decimal (codes ",") numbers.now) }
{
    let [first, rest @ ..] = numbers else {
        return Ok(());
    };
    push_integer(bytes, *first)?;
    push_further_numbers(bytes, rest)
}

/// Adds numbers in parentheses.
#[tactic(auto, using(crate::proofs::Layouts::joins))]
pub fn push_tuple(bytes: &mut Vec<u8>, numbers: &[i128]) -> Result<(), AllocError>
    ensures { OnOk result (bytes.new.items ≡ bytes.old.items ++ text.tuple_text numbers.now) }
{
    bytes.push(b'(')?;
    push_numbers(bytes, numbers)?;
    bytes.push(b')')?;
    Ok(())
}

/// Adds a position at coordinates.
#[tactic(auto, using(crate::proofs::Layouts::joins))]
pub fn push_spot(
    bytes: &mut Vec<u8>,
    position: &Position,
    numbers: &[i128],
) -> Result<(), AllocError>
    ensures { OnOk result (bytes.new.items ≡ bytes.old.items ++ text.spot_text position.now numbers.now) }
{
    push_position(bytes, position)?;
    push_tuple(bytes, numbers)
}

/// The first numbers, and what is behind them.
pub fn cut(numbers: &[i128], count: usize) -> (&[i128], &[i128])
    ensures front { result.0.now ≡ take count numbers.now }
    ensures behind { result.1.now ≡ drop count numbers.now }
{
    if count < numbers.len() {
        numbers.split_at(count)
    } else {
        (numbers, &[])
    }
}
