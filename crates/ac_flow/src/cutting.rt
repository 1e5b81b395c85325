//! What is left of a case in each piece of its reader.
ghost use Rattle.std.specs.Prelude.{◌≡◌, ◌+◌, ◌≤◌, ◌++◌, [], List, length, map, OnOk, IfOk, IfErr};
ghost use Rattle.ac_forms.specs.Rows.{AreRowsOver};
ghost use Rattle.ac_forms.specs.declared.row.Row.{Row};
ghost use Rattle.ac_sets.specs.Unions.{ArePieces};
ghost use Rattle.ac_flow.specs.CutStops.{AreCutCases, CutStops, IfFull};
ghost use Rattle.ac_flow.specs.Cuts.{AllHavePoints, NoneMeet};
ghost use Rattle.ac_flow.specs.CaseRemainder.{AllKillsOf, AllOver, IsCut};
ghost use Rattle.ac_flow.specs.FlowCases.{AreParts, ArePiecesOver, case_conj, remainder, conj_of_remainder};
ghost use Rattle.ac_flow.specs.CaseOverflow.{AreGroups};
ghost use Rattle.ac_flow.specs.FlowStops.{PieceStops};
ghost use Rattle.ac_flow.specs.CaseStops.{plain, IfFilled, IsStopOf};

use crate::case::cut_case;
use crate::cases::CaseRows;
use crate::cut::CutStop;
use crate::stop::CaseStop;
use crate::types::Remainder;
use ac_base::Items;
use ac_forms::{Conj, Row};
use ac_poly::types::Model;
use std::alloc::{AllocError, Global};

/// Adds copies of rows.
pub(crate) fn push_rows(out: &mut Items<Row>, alloc: Global, rows: &[Row]) -> Result<(), AllocError>
    ensures { OnOk result (out.new ≡ out.old ++ rows.now) }
{
    for row in rows {
        out.push(row.copy(alloc)?)?;
    }
    Ok(())
}

/// The rows of a case in a piece of its reader: the context, the piece, and the rows of the source.
fn case_conj(alloc: Global, m: &Model, own: &Conj, piece: &[Row]) -> Result<Conj, AllocError>
    ensures { IfOk result (λ conj. conj ≡ case_conj m.now own.now.columns own.now.rows piece.now) }
{
    let mut all = Items::new(alloc);
    push_rows(&mut all, alloc, m.context.as_slice())?;
    push_rows(&mut all, alloc, piece)?;
    push_rows(&mut all, alloc, own.rows.as_slice())?;
    Ok(Conj {
        columns: own.columns,
        rows: all,
    })
}

/// Adds what is left in a piece of the reader.
fn push_remainders(
    out: &mut Items<Remainder>,
    reader: usize,
    group: Items<Conj>,
) -> Result<(), AllocError>
    ensures { OnOk result (out.new ≡ out.old ++ map (remainder reader) group) }
{
    for conj in group.into_vec() {
        out.push(Remainder { reader, conj })?;
    }
    Ok(())
}

/// What is left of a case in one piece of its reader.
#[tactic(auto, using(crate::proofs::CutSteps::one_steps))]
fn cut_piece(
    alloc: Global,
    m: &Model,
    budget: u64,
    room: usize,
    case: &CaseRows,
    piece: &[Row],
    kept: &mut Items<Conj>,
) -> Result<(), CutStop>
    requires context { AreRowsOver case.now.own.now.columns m.now.context }
    requires piece { AreRowsOver case.now.own.now.columns piece.now }
    requires rows { AreRowsOver case.now.own.now.columns case.now.own.now.rows }
    requires over { AllOver case.now.own.now.columns case.now.kills.now }
    requires empty { kept.old ≡ [] }
    ensures cut { OnOk result (IsCut (case_conj m.now case.now.own.now.columns case.now.own.now.rows piece.now) case.now.kills.now kept.new) }
    ensures stops { (ks : List (List Row)) → AllKillsOf ks case.now.kills.now → IfErr result (CutStops budget (case_conj m.now case.now.own.now.columns case.now.own.now.rows piece.now) ks) }
    ensures within { OnOk result (length kept.new ≤ room) }
    ensures full { IfErr result (λ e. IfFull e ((length kept.new ≡ room + 1) × NoneMeet case.now.own.now.columns kept.new × ArePieces case.now.own.now.columns kept.new)) }
    ensures filled { (ks : List (List Row)) → AllKillsOf ks case.now.kills.now → IfErr result (λ e. IfFull e (AreCutCases (case_conj m.now case.now.own.now.columns case.now.own.now.rows piece.now) ks kept.new)) }
    ensures have { AllHavePoints kept.new }
{
    let conj = case_conj(alloc, m, case.own, piece)?;
    cut_case(alloc, budget, room, &conj, case.kills, kept)
}

/// Adds the conjunctions of what is left.
pub(crate) fn push_conjs(kept: &mut Items<Conj>, left: Items<Remainder>) -> Result<(), AllocError>
    ensures { OnOk result (kept.new ≡ kept.old ++ map conj_of_remainder left) }
{
    for remainder in left.into_vec() {
        let Remainder { conj, .. } = remainder;
        kept.push(conj)?;
    }
    Ok(())
}

/// Adds conjunctions.
pub(crate) fn push_group(kept: &mut Items<Conj>, group: Items<Conj>) -> Result<(), AllocError>
    ensures { OnOk result (kept.new ≡ kept.old ++ group) }
{
    for conj in group.into_vec() {
        kept.push(conj)?;
    }
    Ok(())
}

/// What is left of the case before, and then the group.
fn joined(
    alloc: Global,
    left: Items<Remainder>,
    group: Items<Conj>,
) -> Result<Items<Conj>, AllocError>
    ensures { IfOk result (λ kept. kept ≡ map conj_of_remainder left ++ group) }
{
    let mut kept = Items::new(alloc);
    push_conjs(&mut kept, left)?;
    push_group(&mut kept, group)?;
    Ok(kept)
}

/// The stop of a cut, with what is left of the case before it.
fn stopped(alloc: Global, stop: CutStop, group: Items<Conj>, left: Items<Remainder>) -> CaseStop
    ensures same { IsStopOf stop result }
    ensures full { IfFilled result (λ kept. kept ≡ map conj_of_remainder left ++ group) }
{
    match stop {
        CutStop::Overflow(question) => CaseStop::Overflow(question),
        CutStop::Spent { question, cost } => CaseStop::Spent { question, cost },
        CutStop::Memory(want) => CaseStop::Memory(want),
        CutStop::Full => match joined(alloc, left, group) {
            Ok(kept) => CaseStop::Full(kept),
            Err(want) => CaseStop::Memory(want),
        },
    }
}

/// What is left of a case in each piece of its reader.
#[tactic(auto, using(crate::proofs::CutSteps::parts_steps))]
pub(crate) fn cut_pieces(
    alloc: Global,
    m: &Model,
    budget: u64,
    room: usize,
    case: &CaseRows,
    pieces: &[Items<Row>],
) -> Result<Items<Remainder>, CaseStop>
    requires context { AreRowsOver case.now.own.now.columns m.now.context }
    requires pieces { ArePiecesOver case.now.own.now.columns pieces.now }
    requires rows { AreRowsOver case.now.own.now.columns case.now.own.now.rows }
    requires over { AllOver case.now.own.now.columns case.now.kills.now }
    ensures parts { IfOk result (AreParts m.now case.now.own.now.columns case.now.own.now.rows case.now.kills.now 0 pieces.now) }
    ensures stops { (ks : List (List Row)) → AllKillsOf ks case.now.kills.now → IfErr result (λ e. PieceStops budget m.now case.now.own.now.columns case.now.own.now.rows pieces.now ks (plain e)) }
    ensures groups { (ks : List (List Row)) → AllKillsOf ks case.now.kills.now → IfOk result (λ left. AreGroups m.now case.now.own.now.columns case.now.own.now.rows ks pieces.now (map conj_of_remainder left)) }
    ensures within { IfOk result (λ left. length left ≤ room) }
    ensures full { IfErr result (λ e. IfFilled e (λ kept. (length kept ≡ room + 1) × AllHavePoints kept)) }
    ensures filled { (ks : List (List Row)) → AllKillsOf ks case.now.kills.now → IfErr result (λ e. IfFilled e (AreGroups m.now case.now.own.now.columns case.now.own.now.rows ks pieces.now)) }
{
    let mut out = Items::new(alloc);
    for d in 0..pieces.len() {
        let left = room.saturating_sub(out.len());
        let mut group = Items::new(alloc);
        match cut_piece(
            alloc,
            m,
            budget,
            left,
            case,
            pieces[d].as_slice(),
            &mut group,
        ) {
            Ok(()) => match push_remainders(&mut out, d, group) {
                Ok(()) => {}
                Err(want) => return Err(CaseStop::Memory(want)),
            },
            Err(stop) => return Err(stopped(alloc, stop, group, out)),
        }
    }
    Ok(out)
}
