// Where the parameter lists of two programs differ.
ghost use Rattle.std.specs.Prelude.{◌≡◌, ◌↔◌, ◌≤◌, ◌+◌, [], length, map, IfNone, IfSome, IsTrue, option_map};
ghost use Rattle.std.specs.Option.{option_copied};
ghost use Rattle.ac_parse.specs.ProgramPairs.{significant, extent_of, shape_of, parameter_at, signature, IsFirstDifference};

use ac_syntax::name::Name;
use ac_syntax::tree::{Array, IndexExpr, Program, Slot};

fn same_name(a: &Name, b: &Name) -> bool
    ensures { IsTrue result ↔ (a.now ≡ b.now) }
{
    a == b
}

/// Whether all coefficients are 0.
fn are_zero(a: &[i64]) -> bool
    ensures { IsTrue result ↔ (significant a.now ≡ []) }
{
    match a {
        [] => true,
        [x, xs @ ..] => *x == 0 && are_zero(xs),
    }
}

/// Whether two lists of coefficients are those of one form; a missing one is 0.
fn same_coefficients(a: &[i64], b: &[i64]) -> bool
    ensures { IsTrue result ↔ (significant a.now ≡ significant b.now) }
{
    match (a, b) {
        ([], _) => are_zero(b),
        (_, []) => are_zero(a),
        ([x, xs @ ..], [y, ys @ ..]) => *x == *y && same_coefficients(xs, ys),
    }
}

fn same_extent(a: &IndexExpr, b: &IndexExpr) -> bool
    ensures { IsTrue result ↔ (extent_of a.now ≡ extent_of b.now) }
{
    a.konst == b.konst && same_coefficients(a.params.as_slice(), b.params.as_slice())
}

fn same_extents(a: &[IndexExpr], b: &[IndexExpr]) -> bool
    ensures { IsTrue result ↔ (map extent_of a.now ≡ map extent_of b.now) }
{
    match (a, b) {
        ([], []) => true,
        ([x, xs @ ..], [y, ys @ ..]) => same_extent(x, y) && same_extents(xs, ys),
        _ => false,
    }
}

fn same_shape(a: &Array, b: &Array) -> bool
    ensures { IsTrue result ↔ (shape_of a.now ≡ shape_of b.now) }
{
    same_name(&a.name, &b.name) && same_extents(a.extents.as_slice(), b.extents.as_slice())
}

fn same_names(a: Option<&Name>, b: Option<&Name>) -> bool
    ensures { IsTrue result ↔ (option_copied a.entry ≡ option_copied b.entry) }
{
    match (a, b) {
        (None, None) => true,
        (Some(a), Some(b)) => same_name(a, b),
        _ => false,
    }
}

fn same_shapes(a: Option<&Array>, b: Option<&Array>) -> bool
    ensures { IsTrue result ↔ (option_map shape_of (option_copied a.entry) ≡ option_map shape_of (option_copied b.entry)) }
{
    match (a, b) {
        (None, None) => true,
        (Some(a), Some(b)) => same_shape(a, b),
        _ => false,
    }
}

fn same_parameter(left: &Program, right: &Program, a: Slot, b: Slot) -> bool
    ensures { IsTrue result ↔ (parameter_at left.now a ≡ parameter_at right.now b) }
{
    match (a, b) {
        (Slot::Param(i), Slot::Param(j)) => same_names(left.params.get(i), right.params.get(j)),
        (Slot::Array(i), Slot::Array(j)) => same_shapes(left.arrays.get(i), right.arrays.get(j)),
        _ => false,
    }
}

fn difference_in(left: &Program, right: &Program, a: &[Slot], b: &[Slot]) -> Option<usize>
    ensures same { IfNone result (map (parameter_at left.now) a.now ≡ map (parameter_at right.now) b.now) }
    ensures differ { IfSome result (λ place. IsFirstDifference (map (parameter_at left.now) a.now) (map (parameter_at right.now) b.now) place) }
{
    match (a, b) {
        ([], []) => None,
        ([x, xs @ ..], [y, ys @ ..]) => {
            if !same_parameter(left, right, *x, *y) {
                return Some(0);
            }
            let place = difference_in(left, right, xs, ys)?;
            Some(place + 1)
        }
        ([], [_, ..]) | ([_, ..], []) => Some(0),
    }
}

/// The first place at which the parameter lists differ.
pub fn first_difference(left: &Program, right: &Program) -> Option<usize>
    ensures same { IfNone result (signature left.now ≡ signature right.now) }
    ensures differ { IfSome result (λ place. IsFirstDifference (signature left.now) (signature right.now) place) }
{
    difference_in(left, right, left.slots.as_slice(), right.slots.as_slice())
}
