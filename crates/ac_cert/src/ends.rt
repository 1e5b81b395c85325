ghost use Rattle.std.specs.Prelude.{◌≡◌, Some};
ghost use Rattle.ac_forms.specs.Rows.{HasModulus};
ghost use Rattle.ac_cert.specs.AbsurdEnd.{is_absurd, is_false};

use crate::check::End;
use crate::numbers::{divides_number, is_all_zero};
use crate::types::{EndStop, Rule};
use ac_forms::{Conj, Row};
use std::alloc::Global;

/// The end at a row without coefficients that is false, so that there is no point.
#[derive(Clone, Copy, Drop)]
pub struct Absurd {
    /// The place of the row.
    pub row: usize,
}

/// Whether a row does not hold where its form is worth its constant.
#[tactic(auto, using(ac_base::proofs::Bits::again_128))]
fn is_false(row: &Row) -> bool
    requires { HasModulus row.now }
    ensures { result ≡ is_false row.now }
{
    match row {
        Row::Eq(form) => form.konst() != 0,
        Row::Div(modulus, form) => !divides_number(*modulus, form.konst()),
        Row::Ge(form) => form.konst() < 0,
    }
}

/// Whether a row has no coefficients and is false.
fn is_absurd(row: &Row) -> bool
    requires { HasModulus row.now }
    ensures { result ≡ is_absurd (Some row.now) }
{
    is_all_zero(row.form().coefs()) && is_false(row)
}

impl End for Absurd {
    type Env = ();

    ghost use Rattle.std.specs.Prelude.{◌≡◌, Option, Some, None, cond};
    ghost use Rattle.ac_cert.specs.declared.ends.Absurd.{Absurd};
    ghost use Rattle.ac_cert.specs.AbsurdEnd.{absurd_refusal};
    ghost use Rattle.ac_cert.specs.AbsurdLaw.{absurd_sound};

    ghost means = { λ e env p. ⊥ };

    ghost refusal = { λ e env c. absurd_refusal e.row c };

    ghost sound = { λ e env c p r w at. absurd_sound e.row c p r at };

    fn check(&self, _alloc: Global, _env: &(), rows: &Conj) -> Result<(), EndStop> {
        match rows.rows.get(self.row) {
            Some(row) => {
                if is_absurd(row) {
                    Ok(())
                } else {
                    Err(EndStop::Refused(Rule::Absurd))
                }
            }
            None => Err(EndStop::Refused(Rule::Absurd)),
        }
    }
}
