//! The ends of the tree of a difference.
ghost use Rattle.std.specs.Prelude.{◌≡◌, IfOk};
ghost use Rattle.std.specs.Option.{option_copied};
ghost use Rattle.std.specs.List.{list_all};
ghost use Rattle.ac_forms.specs.Renaming.{renamed_row, AreDistinct};
ghost use Rattle.ac_forms.specs.Standing.{is_among};
ghost use Rattle.ac_sets.specs.DifferenceEnds.{conj_of, stands, part_refusal, IsInPart};

use crate::moves::{moved_row, quotients_from};
use ac_base::Items;
use ac_cert::{End, EndStop, Rule};
use ac_forms::{Conj, Row, is_among};
use std::alloc::{AllocError, Global};

/// An end of the tree of a difference.
#[derive(Clone, Copy, PartialEq, Eq, Drop)]
pub enum Part {
    /// The piece with this number, from 0.
    Piece(usize),
    /// The conjunction that is taken away.
    Inside,
}

/// What the ends of the tree of a difference speak of.
#[derive(Drop)]
pub struct Parts {
    /// The pieces, which may have further columns behind those of the conjunction that is taken away.
    pub pieces: Items<Conj>,
    /// The conjunction that is taken away.
    pub inside: Conj,
}

/// The conjunction of a part.
fn conj_of<'a>(parts: &'a Parts, part: &Part) -> Option<&'a Conj>
    ensures { option_copied result ≡ conj_of parts.now part.now }
{
    match part {
        Part::Piece(at) => parts.pieces.get(*at),
        Part::Inside => Some(&parts.inside),
    }
}

/// Whether each of the rows is among others, where its columns go to these, of which none stands twice.
fn are_among(
    alloc: Global,
    rows: &[Row],
    columns: &[usize],
    others: &[Row],
) -> Result<bool, AllocError>
    requires { AreDistinct columns.now }
    ensures { IfOk result (λ all. all ≡ list_all (λ r. is_among (renamed_row columns.now r) others.now) rows.now) }
{
    for row in rows {
        let moved = moved_row(alloc, row, columns)?;
        if !is_among(&moved, others) {
            return Ok(false);
        }
    }
    Ok(true)
}

/// Whether each row of the conjunction is among those of the path, whose last columns are its further ones.
#[tactic(auto, using(crate::proofs::Moving::stand_is))]
fn stands(alloc: Global, visible: usize, path: &Conj, conj: &Conj) -> Result<bool, AllocError>
    ensures { IfOk result (λ standing. standing ≡ stands visible path.now conj.now) }
{
    if conj.columns < visible || path.columns < conj.columns {
        return Ok(false);
    }
    let at = path.columns - (conj.columns - visible);
    let columns = quotients_from(alloc, visible, at, path.columns)?;
    are_among(
        alloc,
        conj.rows.as_slice(),
        columns.as_slice(),
        path.rows.as_slice(),
    )
}

impl End for Part {
    type Env = Parts;

    ghost use Rattle.std.specs.Prelude.{◌≡◌, ◌≤◌, List, Option};
    ghost use Rattle.ac_sets.specs.declared.parts.Part.{Part};
    ghost use Rattle.ac_sets.specs.declared.parts.Parts.{Parts};
    ghost use Rattle.ac_sets.specs.DifferenceEnds.{part_refusal, IsInPart};
    ghost use Rattle.ac_sets.specs.EndLaw.{part_sound};

    ghost means = { λ e env p. IsInPart env e p };

    ghost refusal = { λ e env c. part_refusal env e c };

    ghost sound = { λ e env c p r w at. part_sound env e c p r at };

    fn check(&self, alloc: Global, env: &Parts, rows: &Conj) -> Result<(), EndStop> {
        let Some(conj) = conj_of(env, self) else {
            return Err(EndStop::Refused(Rule::Hit));
        };
        if stands(alloc, env.inside.columns, rows, conj)? {
            Ok(())
        } else {
            Err(EndStop::Refused(Rule::Hit))
        }
    }
}
