ghost use Rattle.std.specs.Prelude.{◌≡◌, ◌<◌, ◌≤◌, ◌^◌, ◌-◌, ◌++◌, suc, List, [], ◌∷◌, Some, pos, ◌≤ℤ◌, unsigned_abs, length, false, drop, IfOk};
ghost use Rattle.ac_forms.specs.Rows.{HaveModuli};
ghost use Rattle.ac_omega_steps.specs.Bounds.{is_one_sided};
ghost use Rattle.ac_omega.specs.Cursors.{kept_for, alternatives_left, splinters_at, IsSound, IsNext};
ghost use Rattle.ac_omega_certify.specs.Alternatives.{residues_from, splinters_from, splinters, alternatives_for};

use crate::needs::{kept_for, splinter_count};
use crate::scan::{common_modulus, first_equality, has_divisibility, is_one_sided};
use ac_forms::Row;
use ac_omega_certify::Strategy;
use ac_omega_steps::Choice;
use std::alloc::{AllocError, Global};

/// The splinters of a row: its number, how many it has, and which of them comes next.
#[derive(Clone, Copy)]
pub(crate) struct Splinters {
    pub(crate) row: usize,
    pub(crate) next: u128,
    pub(crate) count: u128,
}

/// Where one stands among the choices for a column, which are made one at a time.
#[derive(Drop)]
pub(crate) enum Cursor {
    /// At the equality with a place, the only choice.
    Equal(usize),
    /// `Residue(m, r)`: at the residue r of m.
    Residue(i128, u128),
    /// At the only choice, that the column goes.
    Drop,
    /// At the shadow, before all splinters.
    Shadow,
    /// At the next splinter of a row, where this is kept for all rows.
    Splinter(Option<i128>, Splinters),
    /// `Lower(kept, i)`: before the splinters of the row i.
    Lower(Option<i128>, usize),
    /// At a number that leaves `i128`.
    Wide,
    /// Behind all choices.
    End,
}

/// What comes next among choices.
#[derive(Drop)]
pub(crate) enum Next {
    /// A choice, and where one stands behind it.
    Try(Choice, Cursor),
    /// A number that leaves `i128`.
    Wide,
    /// Nothing.
    End,
}

/// Before the first of the choices of a strategy for a column.
pub(crate) fn first(strategy: Strategy, z: usize, rows: &[Row]) -> Cursor
    requires { HaveModuli rows.now }
    ensures value { alternatives_left strategy z rows.now result ≡ alternatives_for strategy z rows.now }
    ensures sound { IsSound strategy z rows.now result }
{
    if let Some(place) = first_equality(z, rows) {
        return Cursor::Equal(place);
    }
    if has_divisibility(z, rows) {
        return match common_modulus(z, rows) {
            Some(modulus) => Cursor::Residue(modulus, 0),
            None => Cursor::Wide,
        };
    }
    if is_one_sided(z, rows) {
        Cursor::Drop
    } else {
        Cursor::Shadow
    }
}

/// What comes next among the choices of a strategy for a column.
pub(crate) fn advance(
    alloc: Global,
    strategy: Strategy,
    z: usize,
    rows: &[Row],
    cursor: &Cursor,
) -> Result<Next, AllocError>
    requires { IsSound strategy z rows.now cursor.now }
    ensures { IfOk result (λ next. IsNext strategy z rows.now next (alternatives_left strategy z rows.now cursor.now)) }
{
    match cursor {
        Cursor::Equal(place) => Ok(Next::Try(Choice::Equal(z, *place), Cursor::End)),
        Cursor::Residue(modulus, r) => Ok(next_residue(strategy, z, rows, modulus, *r)),
        Cursor::Drop => Ok(Next::Try(Choice::Drop(z), Cursor::End)),
        Cursor::Shadow => Ok(Next::Try(
            Choice::Shadow(z),
            Cursor::Lower(kept_for(strategy, z, rows), 0),
        )),
        Cursor::Splinter(kept, at) => next_splinter(alloc, strategy, z, rows, kept, at),
        Cursor::Lower(kept, i) => next_lower(alloc, strategy, z, rows, kept, *i),
        Cursor::Wide => Ok(Next::Wide),
        Cursor::End => Ok(Next::End),
    }
}

/// What comes next among residues.
#[tactic(auto, using(ac_base::proofs::Bits::again_128))]
fn next_residue(strategy: Strategy, z: usize, rows: &[Row], modulus: &i128, r: u128) -> Next
    requires { pos 0 ≤ℤ modulus.now }
    ensures { IsNext strategy z rows.now result (residues_from (unsigned_abs modulus.now - r) z modulus.now r) }
{
    if r < modulus.unsigned_abs() {
        Next::Try(
            Choice::Residue(z, *modulus, r as i128),
            Cursor::Residue(*modulus, r + 1),
        )
    } else {
        Next::End
    }
}

/// What comes next among the splinters of a row and of the rows behind it.
#[tactic(auto, using(ac_base::proofs::Bits::again_128))]
fn next_splinter(
    alloc: Global,
    strategy: Strategy,
    z: usize,
    rows: &[Row],
    kept: &Option<i128>,
    at: &Splinters,
) -> Result<Next, AllocError>
    requires kept { kept.now ≡ kept_for strategy z rows.now }
    requires sides { is_one_sided z rows.now ≡ false }
    requires place { at.now.row < length rows.now }
    requires small { at.now.count ≤ 2 ^ 127 }
    ensures { IfOk result (λ next. IsNext strategy z rows.now next (splinters_at strategy z rows.now at.now)) }
{
    let row = at.row;
    let next = at.next;
    let count = at.count;
    if next < count {
        let behind = Splinters {
            row,
            next: next + 1,
            count,
        };
        return Ok(Next::Try(
            Choice::Splinter(z, row, next as i128),
            Cursor::Splinter(*kept, behind),
        ));
    }
    let _count = rows.len();
    next_lower(alloc, strategy, z, rows, kept, row + 1)
}

/// What comes next among the splinters of the rows from a place on.
fn next_lower(
    alloc: Global,
    strategy: Strategy,
    z: usize,
    rows: &[Row],
    kept: &Option<i128>,
    start: usize,
) -> Result<Next, AllocError>
    requires kept { kept.now ≡ kept_for strategy z rows.now }
    requires sides { is_one_sided z rows.now ≡ false }
    ensures { IfOk result (λ next. IsNext strategy z rows.now next (splinters strategy z rows.now start (drop start rows.now))) }
{
    for i in start..rows.len() {
        match splinter_count(alloc, strategy, z, rows, kept, &rows[i]) {
            Err(want) => return Err(want),
            Ok(None) => return Ok(Next::Wide),
            Ok(Some(0)) => {}
            Ok(Some(count)) => return Ok(first_splinter(strategy, z, rows, kept, i, count)),
        }
    }
    Ok(Next::End)
}

/// The first splinter of a row.
#[tactic(auto, using(ac_base::proofs::Bits::again_128))]
fn first_splinter(
    strategy: Strategy,
    z: usize,
    rows: &[Row],
    kept: &Option<i128>,
    i: usize,
    count: u128,
) -> Next
    requires kept { kept.now ≡ kept_for strategy z rows.now }
    requires sides { is_one_sided z rows.now ≡ false }
    requires place { i < length rows.now }
    requires some { 0 < count }
    requires small { count ≤ 2 ^ 127 }
    ensures { IsNext strategy z rows.now result (splinters_from count z i 0 ++ splinters strategy z rows.now (suc i) (drop (suc i) rows.now)) }
{
    let behind = Splinters {
        row: i,
        next: 1,
        count,
    };
    Next::Try(Choice::Splinter(z, i, 0), Cursor::Splinter(*kept, behind))
}
