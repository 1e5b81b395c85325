ghost use Rattle.std.specs.Prelude.{◌≡◌, ◌+◌, ◌≤◌, ◌<◌, ◌++◌, ◌∷◌, [], ◌↔◌, ℕ, length, map, cond, true, false, IfOk, IfErr, OnOk, List, ◌⊎◌};
ghost use Rattle.std.specs.List.{Contains};
ghost use Rattle.ac_flow.specs.CutStops.{AreCutCases, StopsOn, RowStops, OutsideStops, OneStops, CutStops, IfFull};
ghost use Rattle.ac_forms.specs.Standing.{is_among};
ghost use Rattle.ac_forms.specs.declared.conj.Conj.{Conj};
ghost use Rattle.ac_forms.specs.declared.row.Row.{Row};
ghost use Rattle.ac_forms.specs.Negation.{negation};
ghost use Rattle.ac_forms.specs.Rows.{IsWellMade, AreRowsOver, IsRowOver};
ghost use Rattle.ac_sets.specs.Unions.{ArePieces};
ghost use Rattle.ac_flow.specs.Cuts.{with_new, with_all_new, extended, row_parts, after_row, parts_outside, HasPoint, AreKept, Cuts, CutsAll, AreCut, AreAllCut, ArePartlyKept, IsPartlyCut, ArePartlyCut, NoneMeet, IsLeft, AllHavePoints};

use ac_base::Items;
use ac_forms::{Conj, FormStop, Row, is_among};
use ac_omega::{Decided, Stop, settle_point};
use ac_simplex::{Found, USUAL, attempt};
use std::alloc::{AllocError, AllocFailed, Global};

/// Why cutting stops.
#[derive(Drop)]
pub enum CutStop {
    /// A number of a question leaves `i128`.
    Overflow(Conj),
    /// The running cost of a question exceeds the budget.
    Spent {
        /// The question.
        question: Conj,
        /// The first running cost above the budget.
        cost: u64,
    },
    /// More pieces are kept than there is room for.
    Full,
    /// There was no memory.
    Memory(AllocError),
}

impl From<AllocError> for CutStop {
    ghost use Rattle.std.specs.Prelude.{◌≡◌};
    ghost use Rattle.ac_flow.specs.declared.cut.CutStop.TheVariants.{Memory};

    ghost from_gives = { λ want e. e ≡ Memory want };

    fn from(want: AllocError) -> CutStop {
        CutStop::Memory(want)
    }
}

/// Adds a row unless it stands among the rows.
fn push_new(rows: &mut Items<Row>, alloc: Global, row: &Row) -> Result<(), AllocError>
    ensures { OnOk result (rows.new ≡ with_new rows.old row.now) }
{
    if is_among(row, rows.as_slice()) {
        return Ok(());
    }
    rows.push(row.copy(alloc)?)
}

/// Adds each of several rows unless it stands there.
#[tactic(auto, using(crate::proofs::CutLoops::new_steps))]
fn push_all_new(rows: &mut Items<Row>, alloc: Global, more: &[Row]) -> Result<(), AllocError>
    ensures { OnOk result (rows.new ≡ with_all_new rows.old more.now) }
{
    for row in more {
        push_new(rows, alloc, row)?;
    }
    Ok(())
}

/// The rows of both, over the given number of columns.
fn extended(alloc: Global, here: &Conj, columns: usize, more: &[Row]) -> Result<Conj, AllocError>
    ensures { IfOk result (λ made. made ≡ record { columns = columns; rows = with_all_new here.now.rows more.now }) }
{
    let Conj { mut rows, .. } = here.copy(alloc)?;
    push_all_new(&mut rows, alloc, more)?;
    Ok(Conj { columns, rows })
}

/// Whether a conjunction has a point. The simplex method attempts it first, and what that leaves open is eliminated: a stop is
/// the elimination's.
pub(crate) fn has_point(alloc: Global, conj: &Conj, budget: u64) -> Result<bool, CutStop>
    requires { IsWellMade conj.now }
    ensures some { IfOk result (λ found. found ≡ true → HasPoint conj.now) }
    ensures none { IfOk result (λ found. found ≡ false → HasPoint conj.now → ⊥) }
    ensures stops { IfErr result (StopsOn budget conj.now) }
    ensures full { IfErr result (λ e. IfFull e ⊥) }
{
    match attempt(alloc, conj, USUAL)? {
        Some(Found::Point(_)) => Ok(true),
        Some(Found::Empty(_)) => Ok(false),
        None => has_point_by_elimination(alloc, conj, budget),
    }
}

/// The same, of a conjunction that the attempt leaves open.
fn has_point_by_elimination(alloc: Global, conj: &Conj, budget: u64) -> Result<bool, CutStop>
    requires { IsWellMade conj.now }
    ensures some { IfOk result (λ found. found ≡ true → HasPoint conj.now) }
    ensures none { IfOk result (λ found. found ≡ false → HasPoint conj.now → ⊥) }
    ensures stops { IfErr result (StopsOn budget conj.now) }
    ensures full { IfErr result (λ e. IfFull e ⊥) }
{
    match settle_point(alloc, conj, budget) {
        Ok(Decided::Point(_)) => Ok(true),
        Ok(Decided::Empty(_)) => Ok(false),
        Err(Stop::Overflow(question)) => Err(CutStop::Overflow(question)),
        Err(Stop::Spent { question, cost }) => Err(CutStop::Spent { question, cost }),
        Err(Stop::Memory(want)) => Err(CutStop::Memory(want)),
    }
}

/// Keeps a part if it has a point.
#[tactic(auto, using(crate::proofs::CutLoops::keep_steps))]
fn keep(
    alloc: Global,
    budget: u64,
    room: usize,
    part: Conj,
    kept: &mut Items<Conj>,
) -> Result<(), CutStop>
    requires { IsWellMade part }
    ensures kept { OnOk result (AreKept (part ∷ []) kept.old kept.new) }
    ensures stops { IfErr result (StopsOn budget part) }
    ensures full { IfErr result (λ e. IfFull e ((room < length kept.new) × AreKept (part ∷ []) kept.old kept.new)) }
    ensures have { AllHavePoints kept.old → AllHavePoints kept.new }
    ensures within { length kept.old ≤ room → OnOk result (length kept.new ≤ room) }
    ensures one_more { length kept.old ≤ room → IfErr result (λ e. IfFull e (length kept.new ≡ room + 1)) }
{
    match has_point(alloc, &part, budget) {
        Ok(true) => push_kept(room, part, kept),
        Ok(false) => Ok(()),
        Err(stop) => Err(stop),
    }
}

/// Keeps a part that has a point.
#[tactic(auto, using(crate::proofs::CutLoops::push_steps))]
pub(crate) fn push_kept(room: usize, part: Conj, kept: &mut Items<Conj>) -> Result<(), CutStop>
    ensures kept { OnOk result (kept.new ≡ kept.old ++ part ∷ []) }
    ensures stops { (budget : ℕ) (q : Conj) → IfErr result (StopsOn budget q) }
    ensures full { IfErr result (λ e. IfFull e ((room < length kept.new) × (kept.new ≡ kept.old ++ part ∷ []))) }
    ensures have { HasPoint part → AllHavePoints kept.old → AllHavePoints kept.new }
    ensures within { OnOk result (length kept.new ≤ room) }
    ensures one_more { length kept.old ≤ room → IfErr result (λ e. IfFull e (length kept.new ≡ room + 1)) }
{
    kept.push(part)?;
    if kept.len() > room {
        return Err(CutStop::Full);
    }
    Ok(())
}

/// Keeps the parts of a conjunction in which a row fails.
#[tactic(auto, using(crate::proofs::CutLoops::failing_steps))]
fn keep_failing(
    alloc: Global,
    budget: u64,
    room: usize,
    here: &Conj,
    row: &Row,
    kept: &mut Items<Conj>,
) -> Result<(), CutStop>
    requires made { IsWellMade here.now }
    requires row { IsRowOver here.now.columns row.now }
    ensures kept { OnOk result (AreKept (map (extended here.now) (negation here.now.columns row.now)) kept.old kept.new) }
    ensures stops { is_among row.now here.now.rows ≡ false → IfErr result (RowStops budget here.now row.now) }
    ensures full { IfErr result (λ e. IfFull e ((room < length kept.new) × ArePartlyKept (map (extended here.now) (negation here.now.columns row.now)) kept.old kept.new)) }
    ensures have { AllHavePoints kept.old → AllHavePoints kept.new }
    ensures within { length kept.old ≤ room → OnOk result (length kept.new ≤ room) }
    ensures one_more { length kept.old ≤ room → IfErr result (λ e. IfFull e (length kept.new ≡ room + 1)) }
{
    let parts = match row.negate(alloc, here.columns) {
        Ok(parts) => parts,
        Err(FormStop::Wide) => return Err(CutStop::Overflow(here.copy(alloc)?)),
        Err(FormStop::Memory(want)) => return Err(CutStop::Memory(want)),
    };
    for part in &parts {
        let part = extended(alloc, here, part.columns, part.rows.as_slice())?;
        match keep(alloc, budget, room, part, kept) {
            Ok(()) => {}
            Err(stop) => return Err(stop),
        }
    }
    Ok(())
}

/// Keeps the parts in which a row fails, and adds the row.
#[tactic(auto, using(crate::proofs::CutLoops::row_steps))]
fn cut_by_row(
    alloc: Global,
    budget: u64,
    room: usize,
    here: &mut Conj,
    row: &Row,
    kept: &mut Items<Conj>,
) -> Result<(), CutStop>
    requires made { IsWellMade here.old }
    requires row { IsRowOver here.old.columns row.now }
    ensures after { OnOk result (here.new ≡ after_row here.old row.now) }
    ensures kept { OnOk result (AreKept (row_parts here.old row.now) kept.old kept.new) }
    ensures stops { IfErr result (RowStops budget here.old row.now) }
    ensures full { IfErr result (λ e. IfFull e ((room < length kept.new) × ArePartlyKept (row_parts here.old row.now) kept.old kept.new)) }
    ensures have { AllHavePoints kept.old → AllHavePoints kept.new }
    ensures within { length kept.old ≤ room → OnOk result (length kept.new ≤ room) }
    ensures one_more { length kept.old ≤ room → IfErr result (λ e. IfFull e (length kept.new ≡ room + 1)) }
{
    if is_among(row, here.rows.as_slice()) {
        return Ok(());
    }
    match keep_failing(alloc, budget, room, here, row, kept) {
        Ok(()) => {}
        Err(stop) => return Err(stop),
    }
    here.rows.push(row.copy(alloc)?)?;
    Ok(())
}

/// Keeps the parts of a conjunction outside the rows.
#[tactic(auto, using(crate::proofs::CutLoops::outside_steps))]
fn keep_outside(
    alloc: Global,
    budget: u64,
    room: usize,
    conj: &Conj,
    kill: &[Row],
    kept: &mut Items<Conj>,
) -> Result<(), CutStop>
    requires made { IsWellMade conj.now }
    requires kill { AreRowsOver conj.now.columns kill.now }
    ensures kept { OnOk result (AreKept (parts_outside conj.now kill.now) kept.old kept.new) }
    ensures stops { IfErr result (OutsideStops budget conj.now kill.now) }
    ensures full { IfErr result (λ e. IfFull e ((room < length kept.new) × ArePartlyKept (parts_outside conj.now kill.now) kept.old kept.new)) }
    ensures have { AllHavePoints kept.old → AllHavePoints kept.new }
    ensures within { length kept.old ≤ room → OnOk result (length kept.new ≤ room) }
    ensures one_more { length kept.old ≤ room → IfErr result (λ e. IfFull e (length kept.new ≡ room + 1)) }
{
    let mut here = conj.copy(alloc)?;
    for row in kill {
        match cut_by_row(alloc, budget, room, &mut here, row, kept) {
            Ok(()) => {}
            Err(stop) => return Err(stop),
        }
    }
    Ok(())
}

/// Keeps what is left of a conjunction outside a kill piece: itself where it does not meet it.
#[tactic(auto, using(crate::proofs::CutLoops::cut_steps))]
fn cut(
    alloc: Global,
    budget: u64,
    room: usize,
    conj: &Conj,
    kill: &[Row],
    kept: &mut Items<Conj>,
) -> Result<(), CutStop>
    requires made { IsWellMade conj.now }
    requires kill { AreRowsOver conj.now.columns kill.now }
    ensures kept { OnOk result (AreCut conj.now kill.now kept.old kept.new) }
    ensures stops { IfErr result (OneStops budget conj.now kill.now) }
    ensures full { IfErr result (λ e. IfFull e ((room < length kept.new) × IsPartlyCut conj.now kill.now kept.old kept.new)) }
    ensures have { HasPoint conj.now → AllHavePoints kept.old → AllHavePoints kept.new }
    ensures within { length kept.old ≤ room → OnOk result (length kept.new ≤ room) }
    ensures one_more { length kept.old ≤ room → IfErr result (λ e. IfFull e (length kept.new ≡ room + 1)) }
{
    let inside = extended(alloc, conj, conj.columns, kill)?;
    match has_point(alloc, &inside, budget) {
        Ok(true) => keep_outside(alloc, budget, room, conj, kill, kept),
        Ok(false) => push_kept(room, conj.copy(alloc)?, kept),
        Err(stop) => Err(stop),
    }
}

/// What is left of several conjunctions outside a kill piece: cut cases where they are. `Full` with the first piece for which
/// there is no room: it and those before are kept.
pub(crate) fn cut_all(
    alloc: Global,
    budget: u64,
    room: usize,
    columns: usize,
    pieces: &[Conj],
    kill: &[Row],
    kept: &mut Items<Conj>,
) -> Result<(), CutStop>
    requires made { ArePieces columns pieces.now }
    requires kill { AreRowsOver columns kill.now }
    requires empty { kept.old ≡ [] }
    ensures made { OnOk result (ArePieces columns kept.new) }
    ensures left { OnOk result (IsLeft columns pieces.now kill.now kept.new) }
    ensures stops { (case : Conj) (kills : List (List Row)) → AreCutCases case kills pieces.now → AllHavePoints pieces.now → Contains kills kill.now → IfErr result (CutStops budget case kills) }
    ensures asked { (case : Conj) (kills : List (List Row)) → AreCutCases case kills pieces.now → Contains kills kill.now → OnOk result (AreCutCases case kills kept.new) }
    ensures apart { NoneMeet columns pieces.now → OnOk result (NoneMeet columns kept.new) }
    ensures within { OnOk result (length kept.new ≤ room) }
    ensures full { NoneMeet columns pieces.now → IfErr result (λ e. IfFull e ((length kept.new ≡ room + 1) × NoneMeet columns kept.new × ArePieces columns kept.new)) }
    ensures filled { (case : Conj) (kills : List (List Row)) → AreCutCases case kills pieces.now → Contains kills kill.now → IfErr result (λ e. IfFull e (AreCutCases case kills kept.new)) }
    ensures have { AllHavePoints pieces.now → AllHavePoints kept.new }
{
    cut_each(alloc, budget, room, columns, pieces, kill, kept)
}

/// The same, exact.
#[tactic(auto, using(crate::proofs::CutLoops::all_steps))]
fn cut_each(
    alloc: Global,
    budget: u64,
    room: usize,
    columns: usize,
    pieces: &[Conj],
    kill: &[Row],
    kept: &mut Items<Conj>,
) -> Result<(), CutStop>
    requires made { ArePieces columns pieces.now }
    requires kill { AreRowsOver columns kill.now }
    ensures cut { OnOk result (AreAllCut pieces.now kill.now kept.old kept.new) }
    ensures stops { (case : Conj) (kills : List (List Row)) → AreCutCases case kills pieces.now → AllHavePoints pieces.now → Contains kills kill.now → IfErr result (CutStops budget case kills) }
    ensures full { IfErr result (λ e. IfFull e ((room < length kept.new) × ArePartlyCut pieces.now kill.now kept.old kept.new)) }
    ensures have { AllHavePoints pieces.now → AllHavePoints kept.old → AllHavePoints kept.new }
    ensures within { length kept.old ≤ room → OnOk result (length kept.new ≤ room) }
    ensures one_more { length kept.old ≤ room → IfErr result (λ e. IfFull e (length kept.new ≡ room + 1)) }
{
    for conj in pieces {
        match cut(alloc, budget, room, conj, kill, kept) {
            Ok(()) => {}
            Err(stop) => return Err(stop),
        }
    }
    Ok(())
}
