//! One question.
ghost use Rattle.std.specs.Prelude.{◌≡◌, length, IfOk, IfErr, IfSome, IfNone, OnOk, ◌++◌};
ghost use Rattle.ac_forms.specs.Rows.{AreRowsOver, IsWellMade};
ghost use Rattle.ac_legal.specs.QuestionChoices.{HasNoPoint, IsPointAt, StopsOn};

use crate::types::LegalStop;
use ac_base::Items;
use ac_forms::{Conj, Row};
use ac_omega::{Decided, Stop, settle_point};
use ac_simplex::{Found, USUAL, attempt};
use std::alloc::{AllocError, Global};

/// Adds copies of rows.
fn push_rows(out: &mut Items<Row>, alloc: Global, rows: &[Row]) -> Result<(), AllocError>
    ensures { OnOk result (out.new ≡ out.old ++ rows.now) }
{
    for row in rows {
        out.push(row.copy(alloc)?)?;
    }
    Ok(())
}

/// The rows and further ones.
pub(crate) fn with_rows(
    alloc: Global,
    front: &[Row],
    more: &[Row],
) -> Result<Items<Row>, AllocError>
    ensures { IfOk result (λ made. made ≡ front.now ++ more.now) }
{
    let mut made = Items::new(alloc);
    push_rows(&mut made, alloc, front)?;
    push_rows(&mut made, alloc, more)?;
    Ok(made)
}

/// The question of rows over so many columns.
pub(crate) fn question(alloc: Global, columns: usize, rows: &[Row]) -> Result<Conj, AllocError>
    ensures { IfOk result (λ made. made ≡ record { columns = columns; rows = rows.now }) }
{
    let mut all = Items::new(alloc);
    push_rows(&mut all, alloc, rows)?;
    Ok(Conj { columns, rows: all })
}

/// A point of the rows, if they have one.
pub(crate) fn ask(
    alloc: Global,
    budget: u64,
    columns: usize,
    rows: &[Row],
) -> Result<Option<Vec<i128>>, LegalStop>
    requires { AreRowsOver columns rows.now }
    ensures none { IfOk result (λ found. IfNone found (HasNoPoint columns rows.now)) }
    ensures point { IfOk result (λ found. IfSome found (λ p. IsPointAt columns rows.now p.items)) }
    ensures stops { IfErr result (StopsOn budget columns rows.now) }
{
    let asked = question(alloc, columns, rows)?;
    decide(alloc, budget, &asked)
}

/// A point of a question. The simplex method is tried first, and what it leaves open is eliminated.
fn decide(alloc: Global, budget: u64, asked: &Conj) -> Result<Option<Vec<i128>>, LegalStop>
    requires { IsWellMade asked.now }
    ensures none { IfOk result (λ found. IfNone found (HasNoPoint asked.now.columns asked.now.rows)) }
    ensures point { IfOk result (λ found. IfSome found (λ p. IsPointAt asked.now.columns asked.now.rows p.items)) }
    ensures stops { IfErr result (StopsOn budget asked.now.columns asked.now.rows) }
{
    match attempt(alloc, asked, USUAL)? {
        Some(Found::Empty(_)) => Ok(None),
        Some(Found::Point(point)) => Ok(Some(point)),
        None => eliminate(alloc, budget, asked),
    }
}

/// A point of a question that the simplex method leaves open.
fn eliminate(alloc: Global, budget: u64, asked: &Conj) -> Result<Option<Vec<i128>>, LegalStop>
    requires { IsWellMade asked.now }
    ensures none { IfOk result (λ found. IfNone found (HasNoPoint asked.now.columns asked.now.rows)) }
    ensures point { IfOk result (λ found. IfSome found (λ p. IsPointAt asked.now.columns asked.now.rows p.items)) }
    ensures stops { IfErr result (StopsOn budget asked.now.columns asked.now.rows) }
{
    match settle_point(alloc, asked, budget) {
        Ok(Decided::Point(point)) => Ok(Some(point)),
        Ok(Decided::Empty(_)) => Ok(None),
        Err(Stop::Overflow(question)) => Err(LegalStop::Overflow(question)),
        Err(Stop::Spent { question, cost }) => Err(LegalStop::Spent { question, cost }),
        Err(Stop::Memory(want)) => Err(LegalStop::Memory(want)),
    }
}
