ghost use Rattle.std.specs.Prelude.{◌≡◌, ◌↔◌, ◌≤◌, ◌+◌, IfOk, ℤ, List, [], ◌∷◌, pos, negsuc, neg_ℤ, ◌+ℤ◌, ◌-ℤ◌, ◌≤ℤ◌, length};
ghost use Rattle.ac_forms.specs.Affine.{FormFits, shifted};
ghost use Rattle.ac_forms.specs.Fits.{Fits};
ghost use Rattle.ac_forms.specs.Negation.{opposite, above, below, with_column, piece, negation, NegationFits, HasExtension};
ghost use Rattle.ac_forms.specs.PieceMembership.{IsInSome, IsInOneAtMost};
ghost use Rattle.ac_forms.specs.Rows.{Holds, IsRowOver};
ghost use Rattle.ac_forms.specs.FormStops.{MadeIff, MadeWhere};
ghost use Rattle.ac_forms.specs.declared.row.Row.TheVariants.{Eq, Div, Ge};

use crate::conj::Conj;
use crate::form::Form;
use crate::row::Row;
use crate::stop::FormStop;
use ac_base::Items;
use std::alloc::{AllocError, Global};

impl Row {
    /// The negation of a row over that many columns, in pieces: one for `Ge`, two for `Eq`, and for `Div` one with one
    /// more column, the quotient. No point is in two pieces, and a point is in one exactly where the row doesn't hold.
    /// `Wide` exactly where a change of sign, or what is added to a constant, leaves `i128`.
    pub fn negate(&self, alloc: Global, columns: usize) -> Result<Vec<Conj>, FormStop>
        requires { IsRowOver columns self.now }
        ensures exact { MadeWhere result (NegationFits self.now) (λ pieces. pieces.items ≡ negation columns self.now) }
        ensures complement { IfOk result (λ pieces. (p : List ℤ) → length p ≡ columns → (¬ Holds self.now p) ↔ IsInSome HasExtension pieces.items p) }
        ensures apart { IfOk result (λ pieces. (p : List ℤ) → length p ≡ columns → IsInOneAtMost HasExtension pieces.items p) }
    {
        pieces_of(alloc, self, columns)
    }
}

/// The negation of a row.
fn pieces_of(alloc: Global, row: &Row, columns: usize) -> Result<Vec<Conj>, FormStop>
    requires { IsRowOver columns row.now }
    ensures { MadeWhere result (NegationFits row.now) (λ pieces. pieces.items ≡ negation columns row.now) }
{
    match row {
        Row::Eq(form) => not_zero(alloc, form, columns),
        Row::Div(modulus, form) => not_multiple(alloc, *modulus, form, columns),
        Row::Ge(form) => negative(alloc, form, columns),
    }
}

/// The form is at least 1, or at most -1.
fn not_zero(alloc: Global, form: &Form, columns: usize) -> Result<Vec<Conj>, FormStop>
    ensures { MadeWhere result (NegationFits (Eq form.now)) (λ pieces. pieces.items ≡ negation columns (Eq form.now)) }
{
    let above = form.shift(alloc, -1)?;
    let below = less_form(alloc, -1, form)?;
    let mut pieces = Vec::new(alloc);
    pieces.push(one_row(alloc, columns, above)?)?;
    pieces.push(one_row(alloc, columns, below)?)?;
    Ok(pieces)
}

/// The form less the modulus times a further column lies from 1 to the modulus less 1.
#[tactic(auto, using(crate::proofs::Negations::negation_steps))]
fn not_multiple(
    alloc: Global,
    modulus: i128,
    form: &Form,
    columns: usize,
) -> Result<Vec<Conj>, FormStop>
    requires { IsRowOver columns (Div modulus form.now) }
    ensures { MadeWhere result (NegationFits (Div modulus form.now)) (λ pieces. pieces.items ≡ negation columns (Div modulus form.now)) }
{
    let low = at_least_one(alloc, modulus, form, columns)?;
    let high = below_modulus(alloc, modulus, form, columns)?;
    let columns = low.columns();
    let mut rows = Items::new(alloc);
    rows.push(Row::Ge(low))?;
    rows.push(Row::Ge(high))?;
    let mut pieces = Vec::new(alloc);
    pieces.push(Conj { columns, rows })?;
    Ok(pieces)
}

/// The form less the modulus times a further column, less 1.
#[tactic(auto, using(ac_base::proofs::Bits::again_128))]
pub(crate) fn at_least_one(
    alloc: Global,
    modulus: i128,
    form: &Form,
    columns: usize,
) -> Result<Form, FormStop>
    requires { IsRowOver columns (Div modulus form.now) }
    ensures { MadeIff result (Fits (form.now.konst +ℤ negsuc 0)) (with_column columns (neg_ℤ modulus) (above form.now)) }
{
    let above = form.shift(alloc, -1)?;
    Ok(above.with_column(alloc, columns, -modulus)?)
}

/// The modulus times a further column, plus the modulus less 1, less the form.
#[tactic(auto, using(ac_base::proofs::Bits::again_128))]
pub(crate) fn below_modulus(
    alloc: Global,
    modulus: i128,
    form: &Form,
    columns: usize,
) -> Result<Form, FormStop>
    requires { IsRowOver columns (Div modulus form.now) }
    ensures { MadeIff result (FormFits (opposite form.now) × Fits ((opposite form.now).konst +ℤ (modulus -ℤ pos 1))) (with_column columns modulus (shifted (opposite form.now) (modulus -ℤ pos 1))) }
{
    let rest = less_form(alloc, modulus - 1, form)?;
    Ok(rest.with_column(alloc, columns, modulus)?)
}

/// The number less the form.
#[tactic(auto, using(ac_base::proofs::Bits::again_128))]
pub(crate) fn less_form(alloc: Global, number: i128, form: &Form) -> Result<Form, FormStop>
    ensures { MadeIff result (FormFits (opposite form.now) × Fits ((opposite form.now).konst +ℤ number)) (shifted (opposite form.now) number) }
{
    form.opposite(alloc)?.shift(alloc, number)
}

/// The form is at most -1.
fn negative(alloc: Global, form: &Form, columns: usize) -> Result<Vec<Conj>, FormStop>
    ensures { MadeWhere result (NegationFits (Ge form.now)) (λ pieces. pieces.items ≡ negation columns (Ge form.now)) }
{
    let mut pieces = Vec::new(alloc);
    pieces.push(one_row(alloc, columns, less_form(alloc, -1, form)?)?)?;
    Ok(pieces)
}

/// The conjunction of the one row `form >= 0`.
fn one_row(alloc: Global, columns: usize, form: Form) -> Result<Conj, AllocError>
    ensures { IfOk result (λ conj. conj ≡ piece columns (Ge form ∷ [])) }
{
    let mut rows = Items::new(alloc);
    rows.push(Row::Ge(form))?;
    Ok(Conj { columns, rows })
}
