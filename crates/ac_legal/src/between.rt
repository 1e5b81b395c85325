//! The questions of two assignments.
ghost use Rattle.std.specs.Prelude.{◌≡◌, ◌+◌, ◌<◌, ◌∷◌, [], Some, map, length, IfOk, IfErr, IfSome, IfNone};
ghost use Rattle.ac_forms.specs.FormStops.{IfWide};
ghost use Rattle.ac_forms.specs.Renaming.{renamed, AreDistinct};
ghost use Rattle.ac_poly.specs.Coordinates.{width};
ghost use Rattle.ac_legal_law.specs.OrderQuestions.{clashes, late};
ghost use Rattle.ac_legal_law.specs.Schedules.{forms_of};
ghost use Rattle.ac_legal.specs.QuestionChoices.{IsPart, UnlessMemory};
ghost use Rattle.ac_legal.specs.ScheduleAnswers.{AreOf, AreParts, NoneBetween, NoDecidedPointBetween, IsPointBetween, StopsBetween, first_times, second_times, lates_of};
ghost use Rattle.ac_legal.specs.WideQuestions.{AreWideTimes, HaveWideCells};
ghost use Rattle.ac_flow.specs.Readers.{IsOver};

use crate::cells::clashes;
use crate::lateness::late;
use crate::renaming::{columns, forms_among, pieces_among};
use crate::searching::search;
use crate::types::{LegalStop, Schedule};
use ac_base::Items;
use ac_forms::{Form, FormStop, Row, column_after};
use ac_poly::types::{Model, StmtModel};
use ac_poly::{before, width};
use std::alloc::{AllocError, Global};

/// Two assignments, each by its number and its model.
#[derive(Clone, Copy)]
pub(crate) struct Two<'a> {
    pub i: usize,
    pub first: &'a StmtModel,
    pub j: usize,
    pub second: &'a StmtModel,
}

/// The forms of an assignment; none if the schedule has none for it.
fn forms_at<'a>(order: &'a Schedule, number: usize) -> &'a [Form]
    ensures { result.now ≡ forms_of order.now.times number }
{
    match order.times.get(number) {
        Some(forms) => forms.as_slice(),
        None => &[],
    }
}

/// The equalities of each two cells of which one is a target, as a part.
fn cell_part(
    alloc: Global,
    columns: &[usize],
    first: &StmtModel,
    others: &[usize],
    second: &StmtModel,
) -> Result<Option<Items<Items<Row>>>, AllocError>
    requires distinct { AreDistinct columns.now }
    requires others { AreDistinct others.now }
    ensures { IfOk result (λ part. IsPart (HaveWideCells columns.now others.now first.now second.now) part (clashes columns.now others.now first.now second.now)) }
{
    match clashes(alloc, columns, first, others, second) {
        Ok(choices) => Ok(Some(choices)),
        Err(FormStop::Wide) => Ok(None),
        Err(FormStop::Memory(want)) => Err(want),
    }
}

/// The ways in which the time of the first isn't smaller.
fn lates(
    alloc: Global,
    columns: &[usize],
    times: &[Form],
    others: &[usize],
    other_times: &[Form],
) -> Result<Items<Items<Row>>, FormStop>
    requires distinct { AreDistinct columns.now }
    requires others { AreDistinct others.now }
    ensures value { IfOk result (λ made. made ≡ late (map (renamed columns.now) times.now) (map (renamed others.now) other_times.now) []) }
    ensures wide { IfErr result (λ stop. IfWide stop (AreWideTimes (map (renamed columns.now) times.now) (map (renamed others.now) other_times.now))) }
{
    let mine = forms_among(alloc, columns, times)?;
    let theirs = forms_among(alloc, others, other_times)?;
    late(alloc, mine.as_slice(), theirs.as_slice())
}

/// The same, as a part.
fn time_part(
    alloc: Global,
    columns: &[usize],
    times: &[Form],
    others: &[usize],
    other_times: &[Form],
) -> Result<Option<Items<Items<Row>>>, AllocError>
    requires distinct { AreDistinct columns.now }
    requires others { AreDistinct others.now }
    ensures { IfOk result (λ part. IsPart (AreWideTimes (map (renamed columns.now) times.now) (map (renamed others.now) other_times.now)) part (late (map (renamed columns.now) times.now) (map (renamed others.now) other_times.now) [])) }
{
    match lates(alloc, columns, times, others, other_times) {
        Ok(choices) => Ok(Some(choices)),
        Err(FormStop::Wide) => Ok(None),
        Err(FormStop::Memory(want)) => Err(want),
    }
}

/// That of two assignments. Their times are over the parameters and the counters, which have the quotients behind them.
fn lates_of(
    alloc: Global,
    m: &Model,
    order: &Schedule,
    two: &Two<'_>,
    behind: usize,
) -> Result<Option<Items<Items<Row>>>, AllocError>
    requires { behind ≡ m.now.params + width two.now.first.now }
    ensures { IfOk result (λ part. IsPart (AreWideTimes (first_times m.now order.now.times two.now.i two.now.first.now) (second_times m.now order.now.times two.now.first.now two.now.j two.now.second.now)) part (lates_of m.now order.now.times two.now.i two.now.first.now two.now.j two.now.second.now)) }
{
    let mine = columns(alloc, m.params, m.params, two.first.loops.len())?;
    let theirs = columns(alloc, m.params, behind, two.second.loops.len())?;
    time_part(
        alloc,
        mine.as_slice(),
        forms_at(order, two.i),
        theirs.as_slice(),
        forms_at(order, two.j),
    )
}

/// The five parts, in order.
fn part_list(
    alloc: Global,
    own: Items<Items<Row>>,
    other: Items<Items<Row>>,
    levels: Items<Items<Row>>,
    cells: Option<Items<Items<Row>>>,
    times: Option<Items<Items<Row>>>,
) -> Result<Items<Option<Items<Items<Row>>>>, AllocError>
    ensures { IfOk result (λ parts. parts ≡ Some own ∷ Some other ∷ Some levels ∷ cells ∷ times ∷ []) }
{
    let mut parts = Items::new(alloc);
    parts.push(Some(own))?;
    parts.push(Some(other))?;
    parts.push(Some(levels))?;
    parts.push(cells)?;
    parts.push(times)?;
    Ok(parts)
}

/// The parts of the questions of two assignments.
fn parts_of(
    alloc: Global,
    m: &Model,
    order: &Schedule,
    two: &Two<'_>,
    behind: usize,
) -> Result<Items<Option<Items<Items<Row>>>>, AllocError>
    requires first { two.now.i < length m.now.stmts }
    requires second { two.now.j < length m.now.stmts }
    requires stmts { AreOf m.now two.now.i two.now.first.now two.now.j two.now.second.now }
    requires behind { behind ≡ m.now.params + width two.now.first.now }
    ensures { IfOk result (AreParts m.now order.now.times two.now.i two.now.first.now two.now.j two.now.second.now) }
{
    let mine = columns(alloc, m.params, m.params, width(two.first))?;
    let theirs = columns(alloc, m.params, behind, width(two.second))?;
    let own = pieces_among(alloc, mine.as_slice(), two.first.pieces.as_slice())?;
    let other = pieces_among(alloc, theirs.as_slice(), two.second.pieces.as_slice())?;
    let levels = before(alloc, m, two.i, two.j)?;
    let cells = cell_part(
        alloc,
        mine.as_slice(),
        two.first,
        theirs.as_slice(),
        two.second,
    )?;
    let times = lates_of(alloc, m, order, two, behind)?;
    part_list(alloc, own, other, levels, cells, times)
}

/// A point of one of the questions of two assignments. Beside a stop none of those that are decided has one.
pub(crate) fn between(
    alloc: Global,
    budget: u64,
    m: &Model,
    order: &Schedule,
    two: &Two<'_>,
) -> Result<Option<Vec<i128>>, LegalStop>
    requires first { two.now.i < length m.now.stmts }
    requires second { two.now.j < length m.now.stmts }
    requires stmts { AreOf m.now two.now.i two.now.first.now two.now.j two.now.second.now }
    requires over { IsOver m.now }
    ensures none { IfOk result (λ found. IfNone found (NoneBetween m.now order.now.times two.now.i two.now.j)) }
    ensures point { IfOk result (λ found. IfSome found (λ p. IsPointBetween m.now order.now.times two.now.i two.now.first.now two.now.j two.now.second.now p.items)) }
    ensures stops { IfErr result (λ e. UnlessMemory e (StopsBetween budget m.now order.now.times two.now.i two.now.first.now two.now.j two.now.second.now e)) }
    ensures decided { IfErr result (λ e. UnlessMemory e (NoDecidedPointBetween budget m.now order.now.times two.now.i two.now.j)) }
{
    let behind = column_after(m.params, width(two.first))?;
    let all = column_after(behind, width(two.second))?;
    let parts = parts_of(alloc, m, order, two, behind)?;
    search(
        alloc,
        budget,
        all,
        m.context.as_slice(),
        parts.as_slice(),
        0,
    )
}
