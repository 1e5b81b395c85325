//! Items as lines: words behind each other are added to what is written so far.
ghost use Rattle.std.specs.Prelude.{◌≡◌, ◌++◌, map, codes, decimal, OnOk};
ghost use Rattle.std.specs.Fmt.{signed_decimal};
ghost use Rattle.ac_prooftext_lines.specs.Spelling.{pair_word, dotted_word, term_words, terms_from, form_words, position_word, order_word, level_word};
ghost use Rattle.ac_prooftext_lines.specs.LineWords.{further};

use ac_forms::Form;
use ac_syntax::tree::{Order, Position};
use itoa::Buffer;
use std::alloc::AllocError;

fn push_digits(line: &mut Vec<u8>, number: usize) -> Result<(), AllocError>
    ensures { OnOk result (line.new.items ≡ line.old.items ++ decimal number) }
{
    let mut buffer = Buffer::new();
    line.extend_from_slice(buffer.format(number).as_bytes())
}

fn push_signed(line: &mut Vec<u8>, number: &i128) -> Result<(), AllocError>
    ensures { OnOk result (line.new.items ≡ line.old.items ++ signed_decimal number.now) }
{
    let mut buffer = Buffer::new();
    line.extend_from_slice(buffer.format(*number).as_bytes())
}

/// Adds a number.
pub fn push_natural(line: &mut Vec<u8>, number: usize) -> Result<(), AllocError>
    ensures { OnOk result (line.new.items ≡ line.old.items ++ (codes " " ++ decimal number)) }
{
    line.push(b' ')?;
    push_digits(line, number)
}

/// Adds an integer.
pub fn push_integer(line: &mut Vec<u8>, number: &i128) -> Result<(), AllocError>
    ensures { OnOk result (line.new.items ≡ line.old.items ++ (codes " " ++ signed_decimal number.now)) }
{
    line.push(b' ')?;
    push_signed(line, number)
}

/// Adds a number and an integer, as `r:l`.
fn push_pair(line: &mut Vec<u8>, index: usize, number: &i128) -> Result<(), AllocError>
    ensures { OnOk result (line.new.items ≡ line.old.items ++ (codes " " ++ pair_word (index, number.now))) }
{
    push_natural(line, index)?;
    line.push(b':')?;
    push_signed(line, number)
}

/// Adds two numbers, as `k.q`.
fn push_dotted(line: &mut Vec<u8>, first: usize, second: usize) -> Result<(), AllocError>
    ensures { OnOk result (line.new.items ≡ line.old.items ++ dotted_word (first, second)) }
{
    push_digits(line, first)?;
    line.push(b'.')?;
    push_digits(line, second)
}

fn push_shape(line: &mut Vec<u8>, first: usize, second: usize) -> Result<(), AllocError>
    ensures { OnOk result (line.new.items ≡ line.old.items ++ (codes " " ++ dotted_word (first, second))) }
{
    line.push(b' ')?;
    push_dotted(line, first, second)
}

/// Adds numbers.
pub fn push_naturals(line: &mut Vec<u8>, numbers: &[usize]) -> Result<(), AllocError>
    ensures { OnOk result (line.new.items ≡ line.old.items ++ further (map decimal numbers.now)) }
{
    for number in numbers {
        push_natural(line, *number)?;
    }
    Ok(())
}

/// Adds integers.
pub fn push_integers(line: &mut Vec<u8>, numbers: &[i128]) -> Result<(), AllocError>
    ensures { OnOk result (line.new.items ≡ line.old.items ++ further (map signed_decimal numbers.now)) }
{
    for number in numbers {
        push_integer(line, number)?;
    }
    Ok(())
}

/// Adds multiples of rows.
pub fn push_multiples(line: &mut Vec<u8>, pairs: &[(usize, i128)]) -> Result<(), AllocError>
    ensures { OnOk result (line.new.items ≡ line.old.items ++ further (map pair_word pairs.now)) }
{
    for (index, number) in pairs {
        push_pair(line, *index, number)?;
    }
    Ok(())
}

/// Adds the shapes of assignments.
pub fn push_shapes(line: &mut Vec<u8>, pairs: &[(u64, u64)]) -> Result<(), AllocError>
    ensures { OnOk result (line.new.items ≡ line.old.items ++ further (map dotted_word pairs.now)) }
{
    for (first, second) in pairs {
        push_shape(line, *first as usize, *second as usize)?;
    }
    Ok(())
}

/// Adds the coefficient of a column where it is not 0.
fn push_term(line: &mut Vec<u8>, column: usize, coef: &i128) -> Result<(), AllocError>
    ensures { OnOk result (line.new.items ≡ line.old.items ++ further (term_words column coef.now)) }
{
    if *coef == 0 {
        return Ok(());
    }
    push_pair(line, column, coef)
}

/// Adds the coefficients that are not 0.
fn push_terms(line: &mut Vec<u8>, coefs: &[i128]) -> Result<(), AllocError>
    ensures { OnOk result (line.new.items ≡ line.old.items ++ further (terms_from 0 coefs.now)) }
{
    for column in 0..coefs.len() {
        push_term(line, column, &coefs[column])?;
    }
    Ok(())
}

/// Adds a form.
pub fn push_form(line: &mut Vec<u8>, form: &Form) -> Result<(), AllocError>
    ensures { OnOk result (line.new.items ≡ line.old.items ++ further (form_words form.now)) }
{
    push_integer(line, &form.konst())?;
    push_terms(line, form.coefs())
}

/// Adds a position.
pub fn push_position(line: &mut Vec<u8>, position: &Position) -> Result<(), AllocError>
    ensures { OnOk result (line.new.items ≡ line.old.items ++ (codes " " ++ position_word position.now)) }
{
    match position {
        Position::Output(array) => {
            line.extend_from_slice(b" O")?;
            push_digits(line, *array)
        }
        Position::Node { stmt, node } => {
            line.extend_from_slice(b" S")?;
            push_dotted(line, *stmt, *node)
        }
        Position::InitialOutput(array) => {
            line.extend_from_slice(b" IO")?;
            push_digits(line, *array)
        }
        Position::InitialNode { stmt, node } => {
            line.extend_from_slice(b" IS")?;
            push_dotted(line, *stmt, *node)
        }
    }
}

/// Adds an order of arguments.
pub fn push_order(line: &mut Vec<u8>, order: &Order) -> Result<(), AllocError>
    ensures { OnOk result (line.new.items ≡ line.old.items ++ (codes " " ++ order_word order.now)) }
{
    match order {
        Order::Keep => line.extend_from_slice(b" keep"),
        Order::Swap => line.extend_from_slice(b" swap"),
    }
}

/// Adds a level, `-` for none.
pub fn push_level(line: &mut Vec<u8>, level: &Option<usize>) -> Result<(), AllocError>
    ensures { OnOk result (line.new.items ≡ line.old.items ++ (codes " " ++ level_word level.now)) }
{
    match level {
        None => line.extend_from_slice(b" -"),
        Some(number) => push_natural(line, *number),
    }
}
