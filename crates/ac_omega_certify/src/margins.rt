//! Sizes of a column in its bounds, and what their dark shadow takes (W. Pugh, The Omega test, 1991).
ghost use Rattle.std.specs.Prelude.{◌≡◌, pos, ◌≤ℤ◌, ◌-ℤ◌, ◌*ℤ◌, neg_ℤ};
ghost use Rattle.ac_forms.specs.Affine.{coef};
ghost use Rattle.ac_forms.specs.Fits.{Fits};
ghost use Rattle.ac_omega_steps.specs.Bounds.{is_low, is_high};
ghost use Rattle.ac_omega_certify.specs.ShadowSteps.{dark_gap};

use ac_forms::Form;

/// Whether the form of a `Ge` row bounds the column from below.
#[tactic(auto, using(ac_base::proofs::Bits::again_128))]
pub(crate) fn is_low(z: usize, form: &Form) -> bool
    ensures { result ≡ is_low z form.now }
{
    form.coef(z) > 0
}

/// Whether it bounds the column from above.
#[tactic(auto, using(ac_base::proofs::Bits::again_128))]
pub(crate) fn is_high(z: usize, form: &Form) -> bool
    ensures { result ≡ is_high z form.now }
{
    form.coef(z) < 0
}

/// The opposite of a column's coefficient.
#[tactic(auto, using(ac_base::proofs::Bits::again_128))]
pub(crate) fn opposite_coef(z: usize, form: &Form) -> i128
    requires { Fits (neg_ℤ (coef z form.now)) }
    ensures { result ≡ neg_ℤ (coef z form.now) }
{
    -form.coef(z)
}

/// `(a - 1) (b - 1)`.
#[tactic(auto, using(ac_base::proofs::Bits::again_128))]
pub(crate) fn dark_gap(a: i128, b: i128) -> i128
    requires size { pos 1 ≤ℤ a }
    requires lower { pos 1 ≤ℤ b }
    requires fits { Fits (dark_gap a b) }
    ensures { result ≡ dark_gap a b }
{
    (a - 1) * (b - 1)
}

/// `a n - (a - 1) (b - 1)`.
#[tactic(auto, using(ac_base::proofs::Bits::again_128))]
pub(crate) fn raised_gap(a: i128, b: i128, n: i128) -> i128
    requires size { pos 1 ≤ℤ a }
    requires lower { pos 1 ≤ℤ b }
    requires dark_gap { Fits (dark_gap a b) }
    requires product { Fits (a *ℤ n) }
    requires fits { Fits (a *ℤ n -ℤ dark_gap a b) }
    ensures { result ≡ a *ℤ n -ℤ dark_gap a b }
{
    a * n - dark_gap(a, b)
}
