ghost use Rattle.std.specs.Prelude.{◌≡◌, ◌≤◌, ◌<◌, ◌+◌, ◌^◌, ◌++◌, [], ◌∷◌, pos, IfOk, unsigned_abs};
ghost use Rattle.ac_forms.specs.declared.row.Row.TheVariants.{Div};
ghost use Rattle.ac_hull.specs.Templates.{difference, bounds_of, classes_below, classes_of, pair_rows, row_rows, all_rows, template_rows, IsTemplate};

use crate::equality::with_number;
use ac_base::Items;
use ac_forms::{Form, Row};
use std::alloc::{AllocError, Global};

/// The template rows over that many columns.
#[tactic(auto, using(crate::proofs::Templating::template_steps))]
pub fn template(
    alloc: Global,
    columns: usize,
    thresholds: &[i128],
    moduli: &[i128],
) -> Result<Items<Row>, AllocError>
    requires { columns < usize.MAX }
    ensures value { IfOk result (λ rows. rows ≡ template_rows columns thresholds.now moduli.now) }
    ensures exact { IfOk result (λ rows. IsTemplate columns thresholds.now moduli.now rows) }
{
    let mut rows = Items::new(alloc);
    for first in 0..columns + 1 {
        rows = with_row(alloc, rows, columns, thresholds, moduli, first)?;
    }
    Ok(rows)
}

/// The rows with those of a first column.
#[tactic(auto, using(crate::proofs::Templating::row_steps))]
fn with_row(
    alloc: Global,
    rows: Items<Row>,
    columns: usize,
    thresholds: &[i128],
    moduli: &[i128],
    first: usize,
) -> Result<Items<Row>, AllocError>
    requires { columns < usize.MAX }
    ensures { IfOk result (λ made. made ≡ rows ++ row_rows columns thresholds.now moduli.now first (columns + 1)) }
{
    let mut made = rows;
    for second in 0..columns + 1 {
        made = with_pair(alloc, made, columns, thresholds, moduli, first, second)?;
    }
    Ok(made)
}

/// The rows with those of two columns.
#[tactic(auto, using(crate::proofs::Templating::pair_steps))]
fn with_pair(
    alloc: Global,
    rows: Items<Row>,
    columns: usize,
    thresholds: &[i128],
    moduli: &[i128],
    first: usize,
    second: usize,
) -> Result<Items<Row>, AllocError>
    ensures { IfOk result (λ made. made ≡ rows ++ pair_rows columns thresholds.now moduli.now first second) }
{
    let made = with_bounds(alloc, rows, columns, thresholds, first, second)?;
    if first >= second {
        return Ok(made);
    }
    with_classes(alloc, made, columns, moduli, first, second)
}

/// The rows with the bounds of two columns.
#[tactic(auto, using(crate::proofs::Templating::bound_steps))]
fn with_bounds(
    alloc: Global,
    rows: Items<Row>,
    columns: usize,
    thresholds: &[i128],
    first: usize,
    second: usize,
) -> Result<Items<Row>, AllocError>
    ensures { IfOk result (λ made. made ≡ rows ++ bounds_of columns thresholds.now first second) }
{
    if first == second {
        return Ok(rows);
    }
    let mut made = rows;
    for threshold in thresholds {
        made.push(Row::Ge(difference(alloc, columns, first, second, *threshold)?))?;
    }
    Ok(made)
}

/// The rows with the residue classes of two columns.
#[tactic(auto, using(crate::proofs::Templating::class_steps))]
fn with_classes(
    alloc: Global,
    rows: Items<Row>,
    columns: usize,
    moduli: &[i128],
    first: usize,
    second: usize,
) -> Result<Items<Row>, AllocError>
    ensures { IfOk result (λ made. made ≡ rows ++ classes_of columns first second moduli.now) }
{
    let mut made = rows;
    for modulus in moduli {
        made = with_modulus(alloc, made, columns, *modulus, first, second)?;
    }
    Ok(made)
}

/// The rows with the residue classes of one modulus.
#[tactic(auto, using(crate::proofs::Templating::modulus_steps))]
fn with_modulus(
    alloc: Global,
    rows: Items<Row>,
    columns: usize,
    modulus: i128,
    first: usize,
    second: usize,
) -> Result<Items<Row>, AllocError>
    ensures { IfOk result (λ made. made ≡ rows ++ classes_below columns first second modulus (unsigned_abs modulus)) }
{
    let mut made = rows;
    for class in 0..modulus.unsigned_abs() {
        made = with_class(alloc, made, columns, modulus, class, first, second)?;
    }
    Ok(made)
}

/// The rows with one residue class.
#[tactic(auto, using(ac_base::proofs::Bits::again_128))]
fn with_class(
    alloc: Global,
    rows: Items<Row>,
    columns: usize,
    modulus: i128,
    class: u128,
    first: usize,
    second: usize,
) -> Result<Items<Row>, AllocError>
    requires { class < 2 ^ 127 }
    ensures { IfOk result (λ made. made ≡ rows ++ Div modulus (difference columns first second (pos class)) ∷ []) }
{
    let mut made = rows;
    made.push(Row::Div(
        modulus,
        difference(alloc, columns, first, second, class as i128)?,
    ))?;
    Ok(made)
}

/// The first column less the second plus a number; a column past the end stands for 0.
#[tactic(auto, using(ac_base::proofs::Bits::again_128))]
pub(crate) fn difference(
    alloc: Global,
    columns: usize,
    first: usize,
    second: usize,
    constant: i128,
) -> Result<Form, AllocError>
    ensures { IfOk result (λ form. form ≡ difference columns first second constant) }
{
    let zeros = Form::constant(alloc, columns, 0)?;
    let coefs = with_number(Items::from_slice(alloc, zeros.coefs())?, first, 1);
    let coefs = with_number(coefs, second, -1);
    Form::from_parts(alloc, constant, coefs.as_slice())
}
