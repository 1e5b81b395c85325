//! Rows beside their normal forms.
ghost use Rattle.std.specs.Prelude.{◌≡◌, ◌≤◌, IfOk, OnOk, length, take};
ghost use Rattle.std.specs.List.{AllByRecursion};
ghost use Rattle.ac_forms.specs.Rows.{HasModulus, HaveModuli};
ghost use Rattle.ac_forms.specs.Standing.{is_among, kept_rows, stands, all_stand};
ghost use Rattle.ac_claims_paths.specs.RowNotes.{IsNoted, rows_of};

use ac_forms::{FormStop, NormalRow, Row};
use std::alloc::{AllocError, Global};

/// A row beside its normal form, where it is made in `i128`.
#[derive(Drop)]
pub(crate) struct Noted {
    /// The row.
    pub row: Row,
    /// Its normal form.
    pub normal: Option<NormalRow>,
}

/// A row beside its normal form.
#[tactic(auto, using(ac_forms::proofs::Standings::normal_steps))]
fn note_of(alloc: Global, row: &Row) -> Result<Noted, AllocError>
    requires { HasModulus row.now }
    ensures row { IfOk result (λ made. made.row ≡ row.now) }
    ensures noted { IfOk result (λ made. IsNoted made) }
{
    let normal = match row.normalise(alloc) {
        Ok(normal) => Some(normal),
        Err(FormStop::Wide) => None,
        Err(FormStop::Memory(want)) => return Err(want),
    };
    let row = row.copy(alloc)?;
    Ok(Noted { row, normal })
}

/// How many of the rows are noted, from the first on.
#[tactic(auto, using(crate::proofs::Notes::agree_start))]
fn agreeing(noted: &[Noted], rows: &[Row]) -> usize
    ensures within { result ≤ length noted.now }
    ensures same { rows_of (take result noted.now) ≡ take result rows.now }
{
    let mut count: usize = 0;
    for note in noted {
        match rows.get(count) {
            Some(row) => {
                if note.row != *row {
                    return count;
                }
            }
            None => return count,
        }
        count += 1;
    }
    count
}

/// Notes the rows that are not noted yet, where the first ones are.
#[tactic(auto, using(crate::proofs::Notes::note_steps, ac_forms::proofs::Passes::modulus_at))]
fn note_more(alloc: Global, rows: &[Row], noted: &mut Vec<Noted>) -> Result<(), AllocError>
    requires rows { HaveModuli rows.now }
    requires first { rows_of noted.old.items ≡ take (length noted.old.items) rows.now }
    requires noted { AllByRecursion IsNoted noted.old.items }
    ensures rows { OnOk result (rows_of noted.new.items ≡ rows.now) }
    ensures noted { AllByRecursion IsNoted noted.new.items }
{
    for at in noted.len()..rows.len() {
        noted.push(note_of(alloc, &rows[at])?)?;
    }
    Ok(())
}

/// Notes rows in place of those that were noted. From the first row on, what stays is kept.
fn note(alloc: Global, rows: &[Row], noted: &mut Vec<Noted>) -> Result<(), AllocError>
    requires rows { HaveModuli rows.now }
    requires noted { AllByRecursion IsNoted noted.old.items }
    ensures rows { OnOk result (rows_of noted.new.items ≡ rows.now) }
    ensures noted { AllByRecursion IsNoted noted.new.items }
{
    let count = agreeing(noted.as_slice(), rows);
    noted.truncate(count);
    note_more(alloc, rows, noted)
}

/// Whether a row is the normal form of one that is noted.
#[tactic(auto, using(crate::proofs::Notes::among_true, crate::proofs::Notes::among_false))]
fn is_normal_among(row: &Row, noted: &[Noted]) -> bool
    requires { AllByRecursion IsNoted noted.now }
    ensures { result ≡ is_among row.now (kept_rows (rows_of noted.now)) }
{
    for note in noted {
        if let Some(NormalRow::Kept(normal)) = &note.normal {
            if *normal == *row {
                return true;
            }
        }
    }
    false
}

/// Whether a row stands among those that are noted.
#[tactic(auto, using(crate::proofs::Notes::stands_steps))]
fn stands(alloc: Global, noted: &[Noted], row: &Row) -> Result<bool, AllocError>
    requires row { HasModulus row.now }
    requires noted { AllByRecursion IsNoted noted.now }
    ensures { IfOk result (λ standing. standing ≡ stands (rows_of noted.now) row.now) }
{
    match row.normalise(alloc) {
        Ok(NormalRow::Kept(normal)) => Ok(is_normal_among(&normal, noted)),
        Ok(NormalRow::Dropped) => Ok(true),
        Ok(NormalRow::Absurd) | Err(FormStop::Wide) => Ok(false),
        Err(FormStop::Memory(want)) => Err(want),
    }
}

/// Whether each of some rows stands among those that are noted.
#[tactic(auto, using(ac_forms::proofs::Standings::each_steps, ac_forms::proofs::Passes::modulus_at))]
fn all_stand(alloc: Global, noted: &[Noted], wanted: &[Row]) -> Result<bool, AllocError>
    requires wanted { HaveModuli wanted.now }
    requires noted { AllByRecursion IsNoted noted.now }
    ensures { IfOk result (λ standing. standing ≡ all_stand (rows_of noted.now) wanted.now) }
{
    for row in wanted {
        if !stands(alloc, noted, row)? {
            return Ok(false);
        }
    }
    Ok(true)
}

/// Whether each of some rows stands among rows, which are noted in place of those that were.
pub(crate) fn standing(
    alloc: Global,
    rows: &[Row],
    wanted: &[Row],
    noted: &mut Vec<Noted>,
) -> Result<bool, AllocError>
    requires rows { HaveModuli rows.now }
    requires wanted { HaveModuli wanted.now }
    requires noted { AllByRecursion IsNoted noted.old.items }
    ensures exact { IfOk result (λ standing. standing ≡ all_stand rows.now wanted.now) }
    ensures noted { AllByRecursion IsNoted noted.new.items }
{
    note(alloc, rows, noted)?;
    all_stand(alloc, noted.as_slice(), wanted)
}
