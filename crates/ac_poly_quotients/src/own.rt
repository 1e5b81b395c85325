//! The quotients of an assignment itself.
ghost use Rattle.std.specs.Prelude.{◌≡◌, ◌++◌, IfOk, OnOk};
ghost use Rattle.std.specs.List.{flat_map};
ghost use Rattle.ac_poly_quotients.specs.OwnQuotients.{form_quots, value_quots, own_quots};

use crate::scopes::push_quots;
use ac_base::Items;
use ac_syntax::tree::{IndexExpr, Quot, Value};
use std::alloc::{AllocError, Global};

/// Adds the quotients of index expressions, in order.
#[tactic(auto, using(crate::proofs::OwnQuotients::form_steps))]
fn push_forms(alloc: Global, out: &mut Items<Quot>, forms: &[IndexExpr]) -> Result<(), AllocError>
    ensures { OnOk result (out.new ≡ out.old ++ flat_map form_quots forms.now) }
{
    for form in forms {
        push_quots(alloc, out, form.quots.as_slice())?;
    }
    Ok(())
}

/// Adds the quotients of a value, node by node in preorder.
#[cycle(own)]
#[tactic(auto, using(crate::proofs::OwnQuotients::value_cases))]
fn push_value(alloc: Global, out: &mut Items<Quot>, value: &Value) -> Result<(), AllocError>
    ensures { OnOk result (out.new ≡ out.old ++ value_quots value.now) }
{
    match value {
        Value::Number(form) => push_quots(alloc, out, form.quots.as_slice()),
        Value::Access { subs, .. } => push_forms(alloc, out, subs.as_slice()),
        Value::Call { args, .. } => push_values(alloc, out, args.as_slice()),
    }
}

/// Adds the quotients of values, in order.
#[cycle(own)]
#[tactic(auto, using(crate::proofs::OwnQuotients::values_steps))]
fn push_values(alloc: Global, out: &mut Items<Quot>, values: &[Value]) -> Result<(), AllocError>
    ensures { OnOk result (out.new ≡ out.old ++ flat_map value_quots values.now) }
{
    for value in values {
        push_value(alloc, out, value)?;
    }
    Ok(())
}

/// The quotients of an assignment itself, in the order of evaluation: those of its value, and then those of its subscripts.
pub fn own_quots(
    alloc: Global,
    subs: &[IndexExpr],
    value: &Value,
) -> Result<Items<Quot>, AllocError>
    ensures { IfOk result (λ made. made ≡ own_quots subs.now value.now) }
{
    let mut made = Items::new(alloc);
    push_value(alloc, &mut made, value)?;
    push_forms(alloc, &mut made, subs)?;
    Ok(made)
}
