ghost use Rattle.std.specs.Prelude.{◌≡◌, ◌↔◌, ◌++◌, ℤ, List, cond, Some, None, IfOk, IfSome};
ghost use Rattle.ac_forms.specs.NormalForm.{normal_conj};
ghost use Rattle.ac_forms.specs.Rows.{IsWellMade, AreRowsOver, Meets};
ghost use Rattle.ac_forms.specs.RangeTests.{rows_fit};
ghost use Rattle.ac_forms.specs.declared.row.Row.{Row};
ghost use Rattle.ac_omega_steps.specs.LeftRows.{normal_of, with_more};

use ac_base::Items;
use ac_forms::{Conj, FormStop, Row};
use std::alloc::{AllocError, Global};

/// How many rows always come together before they are brought into normal form.
pub(crate) const ROOM: usize = 32_768;

/// The normal form of a conjunction, if it is made in `i128`.
#[tactic(auto, using(crate::proofs::LeftMade::rows_fit_true, crate::proofs::LeftMade::rows_fit_false, crate::proofs::LeftMade::conj_made))]
pub(crate) fn normal(alloc: Global, conj: &Conj) -> Result<Option<Conj>, AllocError>
    requires { IsWellMade conj.now }
    ensures exact { IfOk result (λ made. made ≡ cond (rows_fit conj.now.rows) (Some (normal_conj conj.now)) None) }
    ensures made { IfOk result (λ made. IfSome made (λ d. IsWellMade d)) }
    ensures points { IfOk result (λ made. IfSome made (λ d. (p : List ℤ) → Meets d.rows p ↔ Meets conj.now.rows p)) }
{
    match conj.normalise(alloc) {
        Ok(normal) => Ok(Some(normal)),
        Err(FormStop::Wide) => Ok(None),
        Err(FormStop::Memory(want)) => Err(want),
    }
}

/// The rows, or their normal form where there are more of them than the room. Then the room becomes twice what is left.
pub(crate) fn within(
    alloc: Global,
    columns: usize,
    rows: Items<Row>,
    room: &mut usize,
) -> Result<Option<Items<Row>>, AllocError>
    requires { AreRowsOver columns rows }
    ensures normal { IfOk result (λ left. (more : List Row) → normal_of (with_more left more) ≡ normal_of (Some (rows ++ more))) }
    ensures over { IfOk result (λ left. IfSome left (λ rows. AreRowsOver columns rows)) }
{
    if rows.len() <= *room {
        return Ok(Some(rows));
    }
    let Some(left) = normal(alloc, &Conj { columns, rows })? else {
        return Ok(None);
    };
    let rows = left.rows;
    *room = rows.len().saturating_mul(2).max(ROOM);
    Ok(Some(rows))
}
