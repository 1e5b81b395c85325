ghost use Rattle.std.specs.Prelude.{◌≡◌, ◌+◌, ◌≤◌, [], length, List, IfOk, IfErr, OnOk};
ghost use Rattle.ac_forms.specs.Rows.{IsWellMade};
ghost use Rattle.ac_forms.specs.declared.conj.Conj.{Conj};
ghost use Rattle.ac_forms.specs.declared.row.Row.{Row};
ghost use Rattle.ac_sets.specs.Unions.{ArePieces};
ghost use Rattle.ac_flow.specs.CutStops.{AreCutCases, CutStops, IfFull};
ghost use Rattle.ac_flow.specs.Cuts.{AllHavePoints, NoneMeet};
ghost use Rattle.ac_omega.specs.Replays.{AreOver};
ghost use Rattle.ac_flow.specs.CaseRemainder.{AreKillsOf, AllKillsOf, AllOver, IsLeftBy, IsStart, IsCut};

use crate::cut::{CutStop, cut_all, has_point, push_kept};
use ac_base::Items;
use ac_forms::Conj;
use ac_omega::Piece;
use std::alloc::Global;

/// What is left of pieces outside several kill pieces.
#[tactic(auto, using(crate::proofs::Remains::by_steps))]
fn cut_by_pieces(
    alloc: Global,
    budget: u64,
    room: usize,
    columns: usize,
    kept: &mut Items<Conj>,
    found: &[Piece],
) -> Result<(), CutStop>
    requires made { ArePieces columns kept.old }
    requires over { AreOver columns found.now }
    ensures left { OnOk result (IsLeftBy columns kept.old found.now kept.new) }
    ensures stops { (case : Conj) (kills : List (List Row)) → AreCutCases case kills kept.old → AllHavePoints kept.old → AreKillsOf kills found.now → IfErr result (CutStops budget case kills) }
    ensures asked { (case : Conj) (kills : List (List Row)) → AreCutCases case kills kept.old → AreKillsOf kills found.now → OnOk result (AreCutCases case kills kept.new) }
    ensures apart { NoneMeet columns kept.old → OnOk result (NoneMeet columns kept.new) }
    ensures full { NoneMeet columns kept.old → IfErr result (λ e. IfFull e ((length kept.new ≡ room + 1) × NoneMeet columns kept.new × ArePieces columns kept.new)) }
    ensures filled { (case : Conj) (kills : List (List Row)) → AreCutCases case kills kept.old → AreKillsOf kills found.now → IfErr result (λ e. IfFull e (AreCutCases case kills kept.new)) }
    ensures have { AllHavePoints kept.old → AllHavePoints kept.new }
    ensures within { length kept.old ≤ room → OnOk result (length kept.new ≤ room) }
{
    for piece in found {
        let mut next = Items::new(alloc);
        let done = cut_all(
            alloc,
            budget,
            room,
            columns,
            kept.as_slice(),
            piece.rest.rows.as_slice(),
            &mut next,
        );
        *kept = next;
        match done {
            Ok(()) => {}
            Err(stop) => return Err(stop),
        }
    }
    Ok(())
}

/// The case, if it has a point.
#[tactic(auto, using(crate::proofs::Remains::start_steps))]
fn start(
    alloc: Global,
    budget: u64,
    room: usize,
    case: &Conj,
    pieces: &mut Items<Conj>,
) -> Result<(), CutStop>
    requires made { IsWellMade case.now }
    requires empty { pieces.old ≡ [] }
    ensures start { OnOk result (IsStart case.now pieces.new) }
    ensures stops { (kills : List (List Row)) → IfErr result (CutStops budget case.now kills) }
    ensures full { IfErr result (λ e. IfFull e ((length pieces.new ≡ room + 1) × NoneMeet case.now.columns pieces.new × ArePieces case.now.columns pieces.new)) }
    ensures filled { (kills : List (List Row)) → IfErr result (λ e. IfFull e (AreCutCases case.now kills pieces.new)) }
    ensures have { AllHavePoints pieces.new }
    ensures within { OnOk result (length pieces.new ≤ room) }
{
    match has_point(alloc, case, budget) {
        Ok(true) => push_kept(room, case.copy(alloc)?, pieces),
        Ok(false) => Ok(()),
        Err(stop) => Err(stop),
    }
}

/// What is left of a case outside kill pieces, handed over as lists: the points at which none of them holds. No two of its
/// pieces have a point in common, and each has one.
///
/// The questions are the case, whether what is left meets a kill piece, and the parts of it outside a piece that it meets. A kill
/// piece that doesn't meet what is left is passed over. `Full` with the first piece for which there is no room: it
/// and those before are kept.
#[tactic(auto, using(crate::proofs::Remains::cut_steps))]
pub fn cut_case(
    alloc: Global,
    budget: u64,
    room: usize,
    case: &Conj,
    kills: &[Items<Piece>],
    pieces: &mut Items<Conj>,
) -> Result<(), CutStop>
    requires case { IsWellMade case.now }
    requires over { AllOver case.now.columns kills.now }
    requires empty { pieces.old ≡ [] }
    ensures cut { OnOk result (IsCut case.now kills.now pieces.new) }
    ensures stops { (rows : List (List Row)) → AllKillsOf rows kills.now → IfErr result (CutStops budget case.now rows) }
    ensures full { IfErr result (λ e. IfFull e ((length pieces.new ≡ room + 1) × NoneMeet case.now.columns pieces.new × ArePieces case.now.columns pieces.new)) }
    ensures filled { (rows : List (List Row)) → AllKillsOf rows kills.now → IfErr result (λ e. IfFull e (AreCutCases case.now rows pieces.new)) }
    ensures have { AllHavePoints pieces.new }
    ensures within { OnOk result (length pieces.new ≤ room) }
{
    match start(alloc, budget, room, case, pieces) {
        Ok(()) => {}
        Err(stop) => return Err(stop),
    }
    for found in kills {
        match cut_by_pieces(alloc, budget, room, case.columns, pieces, found.as_slice()) {
            Ok(()) => {}
            Err(stop) => return Err(stop),
        }
    }
    Ok(())
}
