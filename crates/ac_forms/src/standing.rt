ghost use Rattle.std.specs.Prelude.{◌≡◌, ◌≤◌, ℤ, List, IfOk, true, ◌++◌};
ghost use Rattle.ac_forms.specs.Rows.{Holds, Meets, HasModulus, HaveModuli};
ghost use Rattle.ac_forms.specs.Standing.{is_among, normal_of, kept_rows, is_left_among, stands_among, stands, all_stand_among, all_stand};

use crate::normal::NormalRow;
use crate::row::Row;
use crate::stop::FormStop;
use ac_base::Items;
use std::alloc::{AllocError, Global};

/// Whether a row is one of the rows.
#[tactic(auto, using(crate::proofs::Standings::among_steps))]
pub fn is_among(row: &Row, rows: &[Row]) -> bool
    ensures { result ≡ is_among row.now rows.now }
{
    for other in rows {
        if *other == *row {
            return true;
        }
    }
    false
}

/// The normal form of a row, where it is made in `i128`.
#[tactic(auto, using(crate::proofs::Standings::normal_steps))]
fn normal_of(alloc: Global, row: &Row) -> Result<Option<NormalRow>, AllocError>
    requires { HasModulus row.now }
    ensures { IfOk result (λ made. made ≡ normal_of row.now) }
{
    match row.normalise(alloc) {
        Ok(normal) => Ok(Some(normal)),
        Err(FormStop::Wide) => Ok(None),
        Err(FormStop::Memory(want)) => Err(want),
    }
}

/// The normal forms of rows, in their order, without those that say nothing, that are absurd, or that are not made in
/// `i128`. With them at hand, `stands_among` tests row after row.
#[tactic(auto, using(crate::proofs::Standings::kept_steps, crate::proofs::Passes::modulus_at))]
pub fn kept_rows(alloc: Global, rows: &[Row]) -> Result<Items<Row>, AllocError>
    requires { HaveModuli rows.now }
    ensures { IfOk result (λ kept. kept ≡ kept_rows rows.now) }
{
    let mut kept = Items::new(alloc);
    for row in rows {
        if let Some(NormalRow::Kept(normal)) = normal_of(alloc, row)? {
            kept.push(normal)?;
        }
    }
    Ok(kept)
}

/// Whether what is left of a row is one of the rows, or says nothing.
fn is_left_among(left: &Option<NormalRow>, kept: &[Row]) -> bool
    ensures { result ≡ is_left_among left.now kept.now }
{
    match left {
        Some(NormalRow::Kept(row)) => is_among(row, kept),
        Some(NormalRow::Dropped) => true,
        Some(NormalRow::Absurd) | None => false,
    }
}

/// Whether a row stands among rows whose normal forms are `kept`.
pub(crate) fn stands_among(alloc: Global, kept: &[Row], row: &Row) -> Result<bool, AllocError>
    requires { HasModulus row.now }
    ensures { IfOk result (λ standing. standing ≡ stands_among kept.now row.now) }
{
    let left = normal_of(alloc, row)?;
    Ok(is_left_among(&left, kept))
}

/// Whether a row stands among rows: its normal form says nothing, or is that of one of the rows. A row without a normal
/// form in `i128` doesn't stand, and one among the rows is passed over. A row that stands holds wherever the rows do, and
/// stands among more rows too.
pub fn stands(alloc: Global, rows: &[Row], row: &Row) -> Result<bool, AllocError>
    requires rows { HaveModuli rows.now }
    requires row { HasModulus row.now }
    ensures exact { IfOk result (λ standing. standing ≡ stands rows.now row.now) }
    ensures holds { IfOk result (λ standing. standing ≡ true → (p : List ℤ) → Meets rows.now p → Holds row.now p) }
{
    standing(alloc, rows, row)
}

/// Whether a row stands among rows.
fn standing(alloc: Global, rows: &[Row], row: &Row) -> Result<bool, AllocError>
    requires rows { HaveModuli rows.now }
    requires row { HasModulus row.now }
    ensures { IfOk result (λ standing. standing ≡ stands rows.now row.now) }
{
    let kept = kept_rows(alloc, rows)?;
    stands_among(alloc, kept.as_slice(), row)
}

/// Whether each of some rows stands among rows.
pub fn all_stand(alloc: Global, rows: &[Row], wanted: &[Row]) -> Result<bool, AllocError>
    requires rows { HaveModuli rows.now }
    requires wanted { HaveModuli wanted.now }
    ensures exact { IfOk result (λ standing. standing ≡ all_stand rows.now wanted.now) }
    ensures meets { IfOk result (λ standing. standing ≡ true → (p : List ℤ) → Meets rows.now p → Meets wanted.now p) }
{
    all_standing(alloc, rows, wanted)
}

/// Whether each of some rows stands among rows.
fn all_standing(alloc: Global, rows: &[Row], wanted: &[Row]) -> Result<bool, AllocError>
    requires rows { HaveModuli rows.now }
    requires wanted { HaveModuli wanted.now }
    ensures { IfOk result (λ standing. standing ≡ all_stand rows.now wanted.now) }
{
    let kept = kept_rows(alloc, rows)?;
    each_stands(alloc, kept.as_slice(), wanted)
}

/// Whether each of some rows stands among rows whose normal forms are `kept`.
#[tactic(auto, using(crate::proofs::Standings::each_steps, crate::proofs::Passes::modulus_at))]
fn each_stands(alloc: Global, kept: &[Row], wanted: &[Row]) -> Result<bool, AllocError>
    requires { HaveModuli wanted.now }
    ensures { IfOk result (λ standing. standing ≡ all_stand_among kept.now wanted.now) }
{
    for row in wanted {
        if !stands_among(alloc, kept, row)? {
            return Ok(false);
        }
    }
    Ok(true)
}
