ghost use Rattle.std.specs.Prelude.{◌≡◌, ℤ, List};
ghost use Rattle.ac_forms.specs.Affine.{value_at};
ghost use Rattle.ac_forms.specs.RowColumns.{trimmed};

use crate::form::Form;
use crate::normal::trimmed;

impl Form {
    /// The form without the zeros at its end, which has the same values.
    #[tactic(auto, using(ac_base::proofs::Bits::again_128))]
    pub fn trimmed(self) -> Form
        ensures exact { result ≡ trimmed self }
        ensures value { (p : List ℤ) → value_at result p ≡ value_at self p }
    {
        without_last_zeros(self)
    }
}

/// The form without the zeros at its end.
#[tactic(auto, using(ac_base::proofs::Bits::again_128))]
fn without_last_zeros(form: Form) -> Form
    ensures { result ≡ trimmed form }
{
    let (konst, coefs) = form.into_parts();
    trimmed(konst, coefs)
}
