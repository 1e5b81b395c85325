//! Columns that bounds hold from one side only. They are dropped with their bounds, since a point of the other bounds is lifted.

use crate::bounds::Bound;
use ac_simplex_lines::Halt;
use ac_simplex_lines::numbers::{floor, opposite};
use std::alloc::{AllocError, Global};

/// A column that was dropped, and its bounds.
#[derive(Drop)]
pub(crate) struct Dropped {
    column: usize,
    bounds: Vec<Bound>,
}

/// From which sides a column is bounded.
#[derive(Clone, Copy)]
struct Sides {
    below: bool,
    above: bool,
}

/// Adds the sides from which a line bounds the columns.
fn see_line(sides: &mut [Sides], coefs: &[i128]) {
    for (side, coef) in sides.iter_mut().zip(coefs.iter()) {
        if *coef > 0 {
            side.below = true;
        } else if *coef < 0 {
            side.above = true;
        }
    }
}

/// The sides from which bounds hold so many columns.
fn sides_of(alloc: Global, columns: usize, bounds: &[Bound]) -> Result<Vec<Sides>, AllocError> {
    let mut sides = Vec::with_capacity(alloc, columns)?;
    sides.resize(
        columns,
        Sides {
            below: false,
            above: false,
        },
    )?;
    for bound in bounds {
        see_line(sides.as_mut_slice(), &bound.line.coefs);
    }
    Ok(sides)
}

/// The bounds without a column, and those with it.
fn split_by(
    alloc: Global,
    bounds: Vec<Bound>,
    column: usize,
) -> Result<(Vec<Bound>, Vec<Bound>), Halt> {
    let mut without = Vec::with_capacity(alloc, bounds.len())?;
    let mut with = Vec::new(alloc);
    for bound in bounds {
        if bound.line.coef(column) == 0 {
            without.push(bound)?;
        } else {
            with.push(bound)?;
        }
    }
    Ok((without, with))
}

/// Drops each column that is bounded from one side only, once; the bounds that are left.
fn drop_once(
    alloc: Global,
    columns: usize,
    bounds: Vec<Bound>,
    dropped: &mut Vec<Dropped>,
) -> Result<Vec<Bound>, Halt> {
    let sides = sides_of(alloc, columns, &bounds)?;
    let mut left = bounds;
    for (column, side) in sides.iter().enumerate() {
        if side.below != side.above {
            let (without, with) = split_by(alloc, left, column)?;
            left = without;
            dropped.push(Dropped {
                column,
                bounds: with,
            })?;
        }
    }
    Ok(left)
}

/// Drops columns as long as one is bounded from one side only; the bounds that are left.
pub(crate) fn drop_all(
    alloc: Global,
    columns: usize,
    bounds: Vec<Bound>,
    dropped: &mut Vec<Dropped>,
) -> Result<Vec<Bound>, Halt> {
    let mut left = bounds;
    for _ in 0..columns {
        let before = dropped.len();
        left = drop_once(alloc, columns, left, dropped)?;
        if dropped.len() == before {
            break;
        }
    }
    Ok(left)
}

/// The number nearest to 0 from which on a bound leaves room: the rest of the line by the size of the coefficient, rounded down.
fn room(bound: &Bound, coef: i128, point: &[i128]) -> Result<i128, Halt> {
    let size = if coef < 0 { opposite(coef)? } else { coef };
    floor(bound.line.value_at(point)?, size)
}

/// The least room of the bounds of a column, and whether they hold it from below.
fn least_room(dropped: &Dropped, point: &[i128]) -> Result<Option<(i128, bool)>, Halt> {
    let mut least = None;
    for bound in &dropped.bounds {
        let coef = bound.line.coef(dropped.column);
        let room = room(bound, coef, point)?;
        least = match least {
            None => Some((room, coef > 0)),
            Some((other, below)) => Some((room.min(other), below)),
        };
    }
    Ok(least)
}

/// Gives a column a value at which its bounds hold, at a point with 0 there.
fn lift(dropped: &Dropped, point: &mut [i128]) -> Result<(), Halt> {
    if let Some((room, below)) = least_room(dropped, point)? {
        let value = if below { opposite(room)? } else { room };
        ac_forms::set_number(point, dropped.column, &value);
    }
    Ok(())
}

/// Gives the columns that were dropped values at which their bounds hold, the last one first.
pub(crate) fn lift_dropped(point: &mut [i128], dropped: &[Dropped]) -> Result<(), Halt> {
    for column in dropped.iter().rev() {
        lift(column, point)?;
    }
    Ok(())
}
