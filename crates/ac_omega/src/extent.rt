ghost use Rattle.std.specs.Prelude.{◌≡◌, ◌*◌, ◌<◌, ◌^◌, ◌↔◌, IsTrue};
ghost use Rattle.ac_omega.specs.Maxima.{greatest_abs, with_form, with_modulus, with_row, with_rows, with_choice};

use ac_forms::{Form, Row};
use ac_omega_steps::Choice;

/// The greatest absolute values that a walk meets.
#[derive(Clone, Copy, PartialEq, Eq, Drop)]
pub struct Maxima {
    /// Of coefficients, moduli and the moduli of residues.
    pub factor: u128,
    /// Of coefficients, constants and moduli.
    pub number: u128,
}

/// The greatest of a number and the absolute values of a list.
fn greatest_abs(start: u128, numbers: &[i128]) -> u128
    ensures { result ≡ greatest_abs start numbers.now }
{
    let mut greatest = start;
    for number in numbers {
        greatest = greatest.max(number.unsigned_abs());
    }
    greatest
}

/// The maxima with the numbers of a form.
fn with_form(form: &Form, met: Maxima) -> Maxima
    ensures { result ≡ with_form form.now met }
{
    let coefs = form.coefs();
    Maxima {
        factor: greatest_abs(met.factor, coefs),
        number: greatest_abs(met.number.max(form.konst().unsigned_abs()), coefs),
    }
}

/// The maxima with a modulus.
fn with_modulus(modulus: &i128, met: Maxima) -> Maxima
    ensures { result ≡ with_modulus modulus.now met }
{
    let size = modulus.unsigned_abs();
    Maxima {
        factor: met.factor.max(size),
        number: met.number.max(size),
    }
}

/// The maxima with the numbers of a row.
fn with_row(row: &Row, met: Maxima) -> Maxima
    ensures { result ≡ with_row row.now met }
{
    match row {
        Row::Eq(form) | Row::Ge(form) => with_form(form, met),
        Row::Div(modulus, form) => with_form(form, with_modulus(modulus, met)),
    }
}

/// The maxima with the numbers of rows.
pub(crate) fn with_rows(rows: &[Row], met: Maxima) -> Maxima
    ensures { result ≡ with_rows rows.now met }
{
    let mut all = met;
    for row in rows {
        all = with_row(row, all);
    }
    all
}

/// The maxima with the modulus of a choice, where it is a residue.
pub(crate) fn with_choice(choice: &Choice, met: Maxima) -> Maxima
    ensures { result ≡ with_choice choice.now met }
{
    match choice {
        Choice::Residue(_, modulus, _) => Maxima {
            factor: met.factor.max(modulus.unsigned_abs()),
            number: met.number,
        },
        Choice::Drop(_) | Choice::Equal(_, _) | Choice::Shadow(_) | Choice::Splinter(_, _, _) => {
            met
        }
    }
}

/// The greatest product of the maxima from which a certificate is made.
const LIMIT: u128 = 1 << 120;

/// Whether the product of the maxima exceeds 2^120.
pub(crate) fn are_large(all: &Maxima) -> bool
    ensures { IsTrue result ↔ (2 ^ 120 < all.now.factor * all.now.number) }
{
    match all.factor.checked_mul(all.number) {
        Some(product) => product > LIMIT,
        None => true,
    }
}
