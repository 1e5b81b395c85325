//! What kills a case of a read or an output: the pieces that are left where the columns of its copies are eliminated.
ghost use Rattle.std.specs.Prelude.{◌≡◌, ◌++◌, length, map, OnOk, IfOk, IfErr};
ghost use Rattle.ac_claims_paths.specs.WellFormedPaths.{HasModuli};
ghost use Rattle.ac_claims_paths.specs.CopyKills.{with_own_columns};
ghost use Rattle.ac_flow.specs.FlowCases.{AllFound, kill_of, kills_of};
ghost use Rattle.ac_flow.specs.FlowStops.{KillsStop};

use crate::copies::found_for;
use crate::cut::CutStop;
use ac_base::Items;
use ac_claims::types::Kill;
use ac_claims_paths::path::{Assumed, CopyNumbers};
use ac_forms::Conj;
use ac_omega::Piece;
use ac_poly::types::Model;
use std::alloc::{AllocError, Global};

/// What is found for the copies of several writings: one list for each.
#[tactic(auto, using(crate::proofs::KillSteps::all_steps))]
pub(crate) fn found_kills(
    alloc: Global,
    m: &Model,
    assumed: &Assumed,
    writings: &[CopyNumbers],
    budget: u64,
) -> Result<Items<Items<Piece>>, CutStop>
    requires moduli { HasModuli m.now }
    requires own { assumed.now ≡ with_own_columns m.now.params assumed.now }
    ensures found { IfOk result (λ kills. AllFound budget m.now assumed.now writings.now kills) }
    ensures stops { IfErr result (KillsStop budget m.now assumed.now writings.now) }
{
    let mut kills = Items::new(alloc);
    for numbers in writings {
        match found_for(alloc, m, assumed, numbers, budget) {
            Ok(found) => match kills.push(found) {
                Ok(()) => {}
                Err(want) => return Err(CutStop::Memory(want)),
            },
            Err(stop) => return Err(stop),
        }
    }
    Ok(kills)
}

/// A kill, over so many columns.
fn kill_of(
    alloc: Global,
    columns: usize,
    numbers: &CopyNumbers,
    piece: &Piece,
) -> Result<(Conj, Kill), AllocError>
    ensures { IfOk result (λ kill. kill ≡ kill_of columns numbers.now piece.now) }
{
    let Conj { rows, .. } = piece.rest.copy(alloc)?;
    let kill = Kill {
        stmt: numbers.stmt,
        piece: numbers.piece,
        after: numbers.after,
        before: numbers.before,
        choices: Items::from_slice(alloc, piece.choices.as_slice())?,
    };
    Ok((Conj { columns, rows }, kill))
}

/// Adds the kills of a copy.
#[tactic(auto, using(crate::proofs::KillSteps::push_steps))]
fn push_kills(
    out: &mut Items<(Conj, Kill)>,
    alloc: Global,
    columns: usize,
    numbers: &CopyNumbers,
    found: &[Piece],
) -> Result<(), AllocError>
    ensures { OnOk result (out.new ≡ out.old ++ map (kill_of columns numbers.now) found.now) }
{
    for piece in found {
        out.push(kill_of(alloc, columns, numbers, piece)?)?;
    }
    Ok(())
}

/// The kills of all copies.
#[tactic(auto, using(crate::proofs::KillSteps::list_steps))]
pub(crate) fn kills_of(
    alloc: Global,
    columns: usize,
    writings: &[CopyNumbers],
    found: &[Items<Piece>],
) -> Result<Items<(Conj, Kill)>, AllocError>
    requires { length writings.now ≡ length found.now }
    ensures { IfOk result (λ kills. kills ≡ kills_of columns writings.now found.now) }
{
    let mut kills = Items::new(alloc);
    for i in 0..writings.len() {
        push_kills(
            &mut kills,
            alloc,
            columns,
            &writings[i],
            found[i].as_slice(),
        )?;
    }
    Ok(kills)
}
