ghost use Rattle.std.specs.Prelude.{◌≡◌, ◌≤◌, ◌-◌, IfOk, IfErr};
ghost use Rattle.std.specs.List.{range_with_len};
ghost use Rattle.ac_forms.specs.Rows.{IsWellMade};
ghost use Rattle.ac_omega.specs.Either.{EliminatesEither};
ghost use Rattle.ac_omega.specs.ColumnElimination.{pieces_of};
ghost use Rattle.ac_flow.specs.CopyProjection.{columns_from, AreProjection};
ghost use Rattle.ac_omega.specs.Replays.{AreReached, AreOver};
ghost use Rattle.ac_omega_certify.specs.declared.strategy.Strategy.TheVariants.{Full, Economical};
ghost use Rattle.ac_flow.specs.CaseRemainder.{AreFound, IsWalkOf, CopyStops};

use crate::cut::CutStop;
use ac_base::Items;
use ac_forms::Conj;
use ac_omega::{Piece, Stop, settle_pieces};
use std::alloc::{AllocError, Global};

/// The columns from the first one on.
#[tactic(auto, using(crate::proofs::Projections::ranged_steps))]
fn columns_from(alloc: Global, first: usize, columns: usize) -> Result<Vec<usize>, AllocError>
    requires { first ≤ columns }
    ensures { IfOk result (λ vars. vars.items ≡ range_with_len first (columns - first)) }
{
    let mut vars = Vec::new(alloc);
    for z in first..columns {
        vars.push(z)?;
    }
    Ok(vars)
}

/// What is left of a copy where its columns, those from the first one on, are eliminated, each piece with the choices that
/// lead to it: they kill a place on whose path the piece's rows stand. The columns go by the economical elimination, and where
/// that stops by the full one, whose stop is handed on.
pub fn kill_pieces(
    alloc: Global,
    copy: &Conj,
    first: usize,
    budget: u64,
) -> Result<Items<Piece>, CutStop>
    requires made { IsWellMade copy.now }
    requires first { first ≤ copy.now.columns }
    ensures found { IfOk result (λ pieces. AreFound first copy.now pieces) }
    ensures walk { IfOk result (λ pieces. IsWalkOf budget first copy.now pieces) }
    ensures stops { IfErr result (CopyStops budget first copy.now) }
{
    match eliminated(alloc, copy, first, budget) {
        Ok(pieces) => Ok(pieces),
        Err(Stop::Overflow(question)) => Err(CutStop::Overflow(question)),
        Err(Stop::Spent { question, cost }) => Err(CutStop::Spent { question, cost }),
        Err(Stop::Memory(want)) => Err(CutStop::Memory(want)),
    }
}

/// The same, with the stops of elimination.
fn eliminated(alloc: Global, copy: &Conj, first: usize, budget: u64) -> Result<Items<Piece>, Stop>
    requires made { IsWellMade copy.now }
    requires first { first ≤ copy.now.columns }
    ensures exact { EliminatesEither result copy.now (pieces_of Economical (columns_from first copy.now) budget copy.now) (pieces_of Full (columns_from first copy.now) budget copy.now) }
    ensures kills { IfOk result (λ pieces. AreReached (columns_from first copy.now) copy.now pieces) }
    ensures over { IfOk result (λ pieces. AreOver first pieces) }
    ensures projection { IfOk result (λ pieces. AreProjection first copy.now pieces) }
{
    let vars = match columns_from(alloc, first, copy.columns) {
        Ok(vars) => vars,
        Err(want) => return Err(Stop::Memory(want)),
    };
    settle_pieces(alloc, copy, &vars, budget)
}
