//! An assignment as integer points, in the scope around it.
ghost use Rattle.ac_forms.specs.FormStops.{MadeIff};
ghost use Rattle.ac_poly.specs.Lower.{model_in, assigned};
ghost use Rattle.ac_poly.specs.LoweringRange.{CanModel, CanAssign};

use crate::forms::last_forms;
use crate::nodes::add_nodes;
use crate::types::StmtModel;
use ac_base::Items;
use ac_forms::FormStop;
use ac_poly_quotients::Scope;
use ac_poly_quotients::last::{finals, first_quotient, placed_pieces, places, quotient_rows};
use ac_poly_quotients::own::own_quots;
use ac_poly_quotients::scopes::with_quots;
use ac_syntax::tree::{IndexExpr, Value};
use std::alloc::Global;

/// An assignment, in its scope: its own quotients have columns there.
fn model_in(
    alloc: Global,
    own: &Scope,
    array: usize,
    subs: &[IndexExpr],
    value: &Value,
) -> Result<StmtModel, FormStop>
    ensures { MadeIff result (CanModel own.now subs.now value.now) (model_in own.now array subs.now value.now) }
{
    let places = places(alloc, own)?;
    let ks = places.as_slice();
    let quots = finals(alloc, ks, own.columns.as_slice())?;
    let rows = quotient_rows(alloc, first_quotient(own)?, quots.as_slice())?;
    let mut nodes = Items::new(alloc);
    add_nodes(alloc, own, ks, value, &mut nodes)?;
    let subs = last_forms(alloc, own, ks, subs)?;
    Ok(StmtModel {
        loops: Items::from_slice(alloc, own.loops.as_slice())?,
        quots,
        pieces: placed_pieces(alloc, ks, rows.as_slice(), own.pieces.as_slice())?,
        array,
        subs,
        nodes,
    })
}

/// An assignment, in the scope around it.
pub(crate) fn assigned(
    alloc: Global,
    scope: &Scope,
    array: usize,
    subs: &[IndexExpr],
    value: &Value,
) -> Result<StmtModel, FormStop>
    ensures { MadeIff result (CanAssign scope.now subs.now value.now) (assigned scope.now array subs.now value.now) }
{
    let quots = own_quots(alloc, subs, value)?;
    let own = with_quots(alloc, scope, quots.as_slice())?;
    model_in(alloc, &own, array, subs, value)
}
