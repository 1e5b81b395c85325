//! The nodes of a value.
ghost use Rattle.std.specs.Prelude.{◌≡◌, ◌++◌, length, IfOk};
ghost use Rattle.std.specs.List.{AllByRecursion};
ghost use Rattle.ac_forms.specs.FormStops.{MadeWhere};
ghost use Rattle.ac_syntax.specs.ValueNodes.{size};
ghost use Rattle.ac_forms.specs.Renaming.{AreDistinct};
ghost use Rattle.ac_poly_quotients.specs.LastColumns.{places};
ghost use Rattle.ac_poly.specs.Lower.{last_form};
ghost use Rattle.ac_poly.specs.ModelNodes.{nodes};
ghost use Rattle.ac_poly.specs.LoweringRange.{CanFormValue};
ghost use Rattle.ac_poly.specs.LoweringSteps.{nodes_of, roots_of};

use crate::forms::{last_form, last_forms};
use crate::types::NodeModel;
use ac_base::Items;
use ac_forms::FormStop;
use ac_poly_quotients::Scope;
use ac_syntax::copy::copy_symbol;
use ac_syntax::count;
use ac_syntax::tree::Value;
use std::alloc::{AllocError, Global};

/// How many nodes a value has.
fn size(value: &Value) -> Result<usize, AllocError>
    ensures { IfOk result (λ count. count ≡ size value.now) }
{
    match count::nodes(value) {
        None => Err(AllocError),
        Some(count) => usize::try_from(count).map_err(|_wide| AllocError),
    }
}

/// The numbers of values that stand one after another from `first` on.
#[tactic(auto, using(crate::proofs::NodeSteps::root_steps))]
pub fn roots_of(alloc: Global, values: &[Value], first: usize) -> Result<Items<usize>, AllocError>
    ensures { IfOk result (λ made. made ≡ roots_of values.now first) }
{
    let mut made = Items::new(alloc);
    let mut at = first;
    for value in values {
        made.push(at)?;
        at = at.checked_add(size(value)?).ok_or(AllocError)?;
    }
    Ok(made)
}

/// Adds the nodes of a value, which are numbered by their places in the list.
#[cycle(nodes)]
#[tactic(auto, using(crate::proofs::NodeSteps::value_steps))]
pub(crate) fn add_nodes(
    alloc: Global,
    own: &Scope,
    ks: &[usize],
    value: &Value,
    out: &mut Items<NodeModel>,
) -> Result<(), FormStop>
    requires value { ks.now ≡ places own.now }
    requires distinct { AreDistinct ks.now }
    ensures { MadeWhere result (CanFormValue own.now value.now) (λ _. out.new ≡ out.old ++ nodes (last_form own.now) value.now (length out.old)) }
{
    match value {
        Value::Number(e) => out.push(NodeModel::Number(last_form(alloc, own, ks, e)?))?,
        Value::Access { array, subs, .. } => {
            let subs = last_forms(alloc, own, ks, subs.as_slice())?;
            out.push(NodeModel::Read {
                array: *array,
                subs,
            })?;
        }
        Value::Call { symbol, args, .. } => {
            let first = out.len().checked_add(1).ok_or(AllocError)?;
            let roots = roots_of(alloc, args.as_slice(), first)?;
            let symbol = copy_symbol(alloc, symbol)?;
            out.push(NodeModel::Call {
                symbol,
                args: roots,
            })?;
            add_all_nodes(alloc, own, ks, args.as_slice(), out)?;
        }
    }
    Ok(())
}

/// Adds the nodes of values, one after another.
#[cycle(nodes)]
#[tactic(auto, using(crate::proofs::NodeSteps::node_steps))]
fn add_all_nodes(
    alloc: Global,
    own: &Scope,
    ks: &[usize],
    values: &[Value],
    out: &mut Items<NodeModel>,
) -> Result<(), FormStop>
    requires value { ks.now ≡ places own.now }
    requires distinct { AreDistinct ks.now }
    ensures { MadeWhere result (AllByRecursion (CanFormValue own.now) values.now) (λ _. out.new ≡ out.old ++ nodes_of (last_form own.now) values.now (length out.old)) }
{
    for value in values {
        add_nodes(alloc, own, ks, value, out)?;
    }
    Ok(())
}
