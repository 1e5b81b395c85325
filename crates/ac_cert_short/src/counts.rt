//! How often each row of a path is used.
ghost use Rattle.std.specs.Prelude.{◌≡◌, ◌≤◌, ◌<◌, ◌⊎◌, ◌-◌, ◌+◌, ℕ, true, false, take, length, OnOk, MatchBool};
ghost use Rattle.ac_cert_short.specs.CertificateNodes.{makes_column, once, rows_along, rows_of, step_uses, term_uses};
ghost use Rattle.ac_cert_short.specs.DraftRelations.{AreCounted, AreForgotten, at};

use ac_cert::types::Step;
use std::alloc::AllocError;

/// Counts a use of the row at a place. A place beyond the path is not counted.
pub(crate) fn count(uses: &mut Vec<usize>, row: usize) -> Result<(), AllocError>
    ensures long { length uses.new.items ≡ length uses.old.items }
    ensures counted { OnOk result (AreCounted uses.old.items uses.new.items (λ i. once i row)) }
{
    if row < uses.len() {
        match uses[row].checked_add(1) {
            Some(more) => uses[row] = more,
            None => return Err(AllocError),
        }
    }
    Ok(())
}

/// Counts the uses of the rows of a sum.
#[tactic(auto, using(crate::proofs::Counting::terms_more, crate::proofs::Counting::terms_end))]
fn count_terms(uses: &mut Vec<usize>, terms: &[(usize, i128)]) -> Result<(), AllocError>
    ensures long { length uses.new.items ≡ length uses.old.items }
    ensures counted { OnOk result (AreCounted uses.old.items uses.new.items (λ i. term_uses i terms.now)) }
{
    for term in terms {
        count(uses, term.0)?;
    }
    Ok(())
}

/// Counts the uses of two rows.
fn count_both(uses: &mut Vec<usize>, row: usize, other: usize) -> Result<(), AllocError>
    ensures long { length uses.new.items ≡ length uses.old.items }
    ensures counted { OnOk result (AreCounted uses.old.items uses.new.items (λ i. once i row + once i other)) }
{
    count(uses, row)?;
    count(uses, other)
}

/// Counts the rows that a step uses.
pub(crate) fn count_step(uses: &mut Vec<usize>, step: &Step) -> Result<(), AllocError>
    ensures long { length uses.new.items ≡ length uses.old.items }
    ensures counted { OnOk result (AreCounted uses.old.items uses.new.items (λ i. step_uses i step.now)) }
{
    match step {
        Step::Add(terms) => count_terms(uses, terms.as_slice()),
        Step::Cut(row, _)
        | Step::DivScale(row, _)
        | Step::DivMod(row, _, _, _)
        | Step::DivEq(row, _)
        | Step::Quot(row) => count(uses, *row),
        Step::DivAdd(row, _, other, _) | Step::EqCut(row, other) => count_both(uses, *row, *other),
        Step::Floor(_, _) => Ok(()),
    }
}

/// Takes a use of the row at a place from the counts.
pub(crate) fn forget(uses: &mut Vec<usize>, row: usize)
    ensures long { length uses.new.items ≡ length uses.old.items }
    ensures forgotten { AreForgotten uses.old.items uses.new.items (λ i. once i row) }
{
    if row < uses.len() {
        uses[row] = uses[row].saturating_sub(1);
    }
}

/// Takes the uses of the rows of a sum from the counts.
#[tactic(auto, using(crate::proofs::Counting::terms_more, crate::proofs::Counting::terms_end))]
fn forget_terms(uses: &mut Vec<usize>, terms: &[(usize, i128)])
    ensures long { length uses.new.items ≡ length uses.old.items }
    ensures forgotten { AreForgotten uses.old.items uses.new.items (λ i. term_uses i terms.now) }
{
    for term in terms {
        forget(uses, term.0);
    }
}

/// Takes the uses of two rows from the counts.
fn forget_both(uses: &mut Vec<usize>, row: usize, other: usize)
    ensures long { length uses.new.items ≡ length uses.old.items }
    ensures forgotten { AreForgotten uses.old.items uses.new.items (λ i. once i row + once i other) }
{
    forget(uses, row);
    forget(uses, other);
}

/// Takes the rows that a step uses from the counts.
pub(crate) fn forget_step(uses: &mut Vec<usize>, step: &Step)
    ensures long { length uses.new.items ≡ length uses.old.items }
    ensures forgotten { AreForgotten uses.old.items uses.new.items (λ i. step_uses i step.now) }
{
    match step {
        Step::Add(terms) => forget_terms(uses, terms.as_slice()),
        Step::Cut(row, _)
        | Step::DivScale(row, _)
        | Step::DivMod(row, _, _, _)
        | Step::DivEq(row, _)
        | Step::Quot(row) => forget(uses, *row),
        Step::DivAdd(row, _, other, _) | Step::EqCut(row, other) => {
            forget_both(uses, *row, *other);
        }
        Step::Floor(_, _) => {}
    }
}

/// Adds the rows of a step, which nothing uses yet.
fn add_rows(uses: &mut Vec<usize>, step: &Step) -> Result<(), AllocError>
    ensures long { OnOk result (length uses.new.items ≡ length uses.old.items + rows_of step.now) }
    ensures same { OnOk result ((i : ℕ) → at uses.new.items i ≡ at uses.old.items i) }
{
    if let Step::Floor(_, _) = step {
        uses.push(0).map_err(AllocError::from)?;
    }
    uses.push(0).map_err(AllocError::from)
}

/// Adds the rows of steps.
#[tactic(auto, using(crate::proofs::Counting::rows_more, crate::proofs::Counting::rows_end))]
pub(crate) fn open_steps(uses: &mut Vec<usize>, steps: &[Step]) -> Result<(), AllocError>
    ensures long { OnOk result (length uses.new.items ≡ length uses.old.items + rows_along steps.now) }
    ensures same { OnOk result ((i : ℕ) → at uses.new.items i ≡ at uses.old.items i) }
{
    for step in steps {
        add_rows(uses, step)?;
    }
    Ok(())
}

/// Takes the last row away; whether it is used.
pub(crate) fn close_row(uses: &mut Vec<usize>) -> bool
    requires { 0 < length uses.old.items }
    ensures long { length uses.old.items ≡ length uses.new.items + 1 }
    ensures rest { uses.new.items ≡ take (length uses.new.items) uses.old.items }
    ensures used { result ≡ true → 0 < at uses.old.items (length uses.new.items) }
    ensures idle { result ≡ false → at uses.old.items (length uses.new.items) ≡ 0 }
{
    match uses.pop() {
        Some(count) => count != 0,
        None => false,
    }
}

/// Takes the rows of a step away; whether the step is kept: it makes a column, or its row is used.
pub(crate) fn close_step(uses: &mut Vec<usize>, step: &Step) -> bool
    requires { rows_of step.now ≤ length uses.old.items }
    ensures long { length uses.old.items ≡ length uses.new.items + rows_of step.now }
    ensures rest { uses.new.items ≡ take (length uses.new.items) uses.old.items }
    ensures kept { result ≡ true → (makes_column step.now ≡ true) ⊎ (0 < at uses.old.items (length uses.new.items)) }
    ensures left { result ≡ false → (makes_column step.now ≡ false) × (rows_of step.now ≡ 1) × (at uses.old.items (length uses.new.items) ≡ 0) }
{
    match step {
        Step::Floor(_, _) => {
            let _second = close_row(uses);
            let _first = close_row(uses);
            true
        }
        Step::Quot(_) => {
            let _row = close_row(uses);
            true
        }
        _ => close_row(uses),
    }
}
