//! Rows, steps, choices and items as lines, without the LF at the end of each. After want of memory a part of a line may have
//! been added.
ghost use Rattle.std.specs.Prelude.{◌≡◌, ◌++◌, ◌∷◌, [], map, codes, decimal, OnOk};
ghost use Rattle.std.specs.Fmt.{signed_decimal};
ghost use Rattle.ac_prooftext_lines.specs.Spelling.{dotted_word, form_words, position_word, row_words, step_words, choice_words, item_words, spelled};
ghost use Rattle.ac_prooftext_lines.specs.LineWords.{line_of};
ghost use Rattle.ac_claims.specs.declared.item.Item.TheVariants as item;

use crate::push::{
    push_form, push_integer, push_integers, push_level, push_multiples, push_natural,
    push_naturals, push_order, push_position, push_shapes,
};
use ac_cert::types::Step;
use ac_claims::item::Item;
use ac_forms::{Form, Row};
use ac_omega_steps::Choice;
use ac_syntax::tree::Position;
use std::alloc::{AllocError, Global};

/// Adds a name, and numbers behind it.
fn push_named(line: &mut Vec<u8>, name: &[u8], numbers: &[usize]) -> Result<(), AllocError>
    ensures { OnOk result (line.new.items ≡ line.old.items ++ line_of (name.now ∷ map decimal numbers.now)) }
{
    line.extend_from_slice(name)?;
    push_naturals(line, numbers)
}

/// Adds a name, and a form behind it.
fn push_named_form(line: &mut Vec<u8>, name: &[u8], form: &Form) -> Result<(), AllocError>
    ensures { OnOk result (line.new.items ≡ line.old.items ++ line_of (name.now ∷ form_words form.now)) }
{
    line.extend_from_slice(name)?;
    push_form(line, form)
}

/// Adds a name, and a row and an integer behind it.
fn push_named_multiple(
    line: &mut Vec<u8>,
    name: &[u8],
    row: usize,
    number: &i128,
) -> Result<(), AllocError>
    ensures { OnOk result (line.new.items ≡ line.old.items ++ line_of (name.now ∷ decimal row ∷ signed_decimal number.now ∷ [])) }
{
    line.extend_from_slice(name)?;
    push_natural(line, row)?;
    push_integer(line, number)
}

/// Adds the shapes of a program's assignments behind a name.
fn push_named_shapes(
    line: &mut Vec<u8>,
    name: &[u8],
    shapes: &[(u64, u64)],
) -> Result<(), AllocError>
    ensures { OnOk result (line.new.items ≡ line.old.items ++ line_of (name.now ∷ map dotted_word shapes.now)) }
{
    line.extend_from_slice(name)?;
    push_shapes(line, shapes)
}

/// Adds the line of a row.
pub fn push_row(line: &mut Vec<u8>, row: &Row) -> Result<(), AllocError>
    ensures { OnOk result (line.new.items ≡ line.old.items ++ spelled (item.Row row.now)) }
{
    match row {
        Row::Ge(form) => push_named_form(line, b"ge", form),
        Row::Eq(form) => push_named_form(line, b"eq", form),
        Row::Div(modulus, form) => {
            line.extend_from_slice(b"div")?;
            push_integer(line, modulus)?;
            push_form(line, form)
        }
    }
}

/// Adds the line of a step.
pub fn push_step(line: &mut Vec<u8>, step: &Step) -> Result<(), AllocError>
    ensures { OnOk result (line.new.items ≡ line.old.items ++ spelled (item.Step step.now)) }
{
    match step {
        Step::Add(pairs) => {
            line.extend_from_slice(b"add")?;
            push_multiples(line, pairs.as_slice())
        }
        Step::Cut(row, divisor) => push_named_multiple(line, b"cut", *row, divisor),
        Step::DivScale(row, factor) => push_named_multiple(line, b"divscale", *row, factor),
        Step::DivAdd(first, factor, second, other) => {
            push_named_multiple(line, b"divadd", *first, factor)?;
            push_natural(line, *second)?;
            push_integer(line, other)
        }
        Step::DivMod(row, divisor, modulus, form) => {
            push_named_multiple(line, b"divmod", *row, divisor)?;
            push_integer(line, modulus)?;
            push_form(line, form)
        }
        Step::DivEq(row, modulus) => push_named_multiple(line, b"diveq", *row, modulus),
        Step::Quot(row) => push_named(line, b"quot", &[*row]),
        Step::Floor(divisor, form) => {
            line.extend_from_slice(b"floor")?;
            push_integer(line, divisor)?;
            push_form(line, form)
        }
        Step::EqCut(first, second) => push_named(line, b"eqcut", &[*first, *second]),
    }
}

/// Adds the line of a choice.
pub fn push_choice(line: &mut Vec<u8>, choice: &Choice) -> Result<(), AllocError>
    ensures { OnOk result (line.new.items ≡ line.old.items ++ spelled (item.Choice choice.now)) }
{
    match choice {
        Choice::Drop(column) => push_named(line, b"drop", &[*column]),
        Choice::Equal(column, row) => push_named(line, b"equal", &[*column, *row]),
        Choice::Residue(column, modulus, residue) => {
            push_named_multiple(line, b"residue", *column, modulus)?;
            push_integer(line, residue)
        }
        Choice::Shadow(column) => push_named(line, b"shadow", &[*column]),
        Choice::Splinter(column, row, value) => {
            push_named(line, b"splinter", &[*column, *row])?;
            push_integer(line, value)
        }
    }
}

/// Adds the line of a claim.
fn push_claim(
    line: &mut Vec<u8>,
    left: &Position,
    right: &Position,
    rows: usize,
) -> Result<(), AllocError>
    ensures { OnOk result (line.new.items ≡ line.old.items ++ line_of (codes "claim" ∷ position_word left.now ∷ position_word right.now ∷ decimal rows ∷ [])) }
{
    line.extend_from_slice(b"claim")?;
    push_position(line, left)?;
    push_position(line, right)?;
    push_natural(line, rows)
}

/// Adds the line of a point.
pub fn push_point(line: &mut Vec<u8>, values: &[i128]) -> Result<(), AllocError>
    ensures { OnOk result (line.new.items ≡ line.old.items ++ spelled (item.Point values.now)) }
{
    line.extend_from_slice(b"point")?;
    push_integers(line, values)
}

/// Adds the line of the shapes of the left program.
pub fn push_left(line: &mut Vec<u8>, shapes: &[(u64, u64)]) -> Result<(), AllocError>
    ensures { OnOk result (line.new.items ≡ line.old.items ++ spelled (item.Left shapes.now)) }
{
    push_named_shapes(line, b"left", shapes)
}

/// Adds the line of the shapes of the right program.
pub fn push_right(line: &mut Vec<u8>, shapes: &[(u64, u64)]) -> Result<(), AllocError>
    ensures { OnOk result (line.new.items ≡ line.old.items ++ spelled (item.Right shapes.now)) }
{
    push_named_shapes(line, b"right", shapes)
}

/// Adds the line of a branch by the sign of a form.
pub fn push_split(line: &mut Vec<u8>, form: &Form) -> Result<(), AllocError>
    ensures { OnOk result (line.new.items ≡ line.old.items ++ spelled (item.Split form.now)) }
{
    push_named_form(line, b"split", form)
}

/// Adds the line of a branch by the residue of a form.
pub fn push_residue(line: &mut Vec<u8>, modulus: &i128, form: &Form) -> Result<(), AllocError>
    ensures { OnOk result (line.new.items ≡ line.old.items ++ spelled (item.Residue modulus.now form.now)) }
{
    line.extend_from_slice(b"residue")?;
    push_integer(line, modulus)?;
    push_form(line, form)
}

/// Adds the line of an item, without the LF at its end.
pub fn push_item(line: &mut Vec<u8>, item: &Item) -> Result<(), AllocError>
    ensures { OnOk result (line.new.items ≡ line.old.items ++ spelled item.now) }
{
    match item {
        Item::Point(values) => push_point(line, values.as_slice()),
        Item::Left(shapes) => push_left(line, shapes.as_slice()),
        Item::Right(shapes) => push_right(line, shapes.as_slice()),
        Item::Claims(claims) => push_named(line, b"claims", &[*claims]),
        Item::Claim { left, right, rows } => push_claim(line, left, right, *rows),
        Item::Row(row) => push_row(line, row),
        Item::Output { array, claim } => push_named(line, b"output", &[*array, *claim]),
        Item::Tree {
            claim,
            left_piece,
            right_piece,
        } => push_named(line, b"tree", &[*claim, *left_piece, *right_piece]),
        Item::Step(step) => push_step(line, step),
        Item::Choice(choice) => push_choice(line, choice),
        Item::End => line.extend_from_slice(b"end"),
        Item::Split(form) => push_split(line, form),
        Item::Residue(modulus, form) => push_residue(line, modulus, form),
        Item::Go { order, cases } => {
            line.extend_from_slice(b"go")?;
            push_order(line, order)?;
            push_natural(line, *cases)
        }
        Item::Absurd(row) => push_named(line, b"absurd", &[*row]),
        Item::Hit(claim) => push_named(line, b"hit", &[*claim]),
        Item::Number => line.extend_from_slice(b"number"),
        Item::Initial => line.extend_from_slice(b"initial"),
        Item::Killed {
            stmt,
            piece,
            after,
            before,
            choices,
        } => {
            push_named(line, b"killed", &[*stmt, *piece])?;
            push_level(line, after)?;
            push_natural(line, *before)?;
            push_natural(line, *choices)
        }
    }
}
