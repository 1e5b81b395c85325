ghost use Rattle.std.specs.Prelude.{◌≡◌, ◌↔◌, ◌≤◌, ◌+◌, IfOk, ℤ, List, pos, negsuc, neg_ℤ, ◌+ℤ◌, ◌-ℤ◌, ◌≤ℤ◌};
ghost use Rattle.ac_forms.specs.Affine.{FormFits, shifted};
ghost use Rattle.ac_forms.specs.Fits.{Fits};
ghost use Rattle.ac_forms.specs.Negation.{opposite, above, below, with_column};
ghost use Rattle.ac_forms.specs.Rows.{IsRowOver};
ghost use Rattle.ac_forms.specs.FormStops.{MadeIff};
ghost use Rattle.ac_forms.specs.declared.row.Row.TheVariants.{Div};

use crate::form::Form;
use crate::negate::{at_least_one, below_modulus, less_form};
use crate::stop::FormStop;
use std::alloc::Global;

impl Form {
    /// The form that is not negative exactly where this one is at least 1. `Wide` exactly where its constant leaves
    /// `i128`.
    pub fn above(&self, alloc: Global) -> Result<Form, FormStop>
        ensures { MadeIff result (Fits (self.now.konst +ℤ negsuc 0)) (above self.now) }
    {
        self.shift(alloc, -1)
    }

    /// The form that is not negative exactly where this one is at most -1. `Wide` exactly where a change of sign, or what
    /// is added to the constant, leaves `i128`.
    pub fn below(&self, alloc: Global) -> Result<Form, FormStop>
        ensures { MadeIff result (FormFits (opposite self.now) × Fits ((opposite self.now).konst +ℤ negsuc 0)) (below self.now) }
    {
        less_form(alloc, -1, self)
    }

    /// The form that is not negative exactly where this one, less the modulus times a further column behind that many, is
    /// at least 1. `Wide` exactly where its constant leaves `i128`.
    #[tactic(auto, using(ac_base::proofs::Bits::again_128))]
    pub fn remainder_from_one(
        &self,
        alloc: Global,
        modulus: i128,
        columns: usize,
    ) -> Result<Form, FormStop>
        requires { IsRowOver columns (Div modulus self.now) }
        ensures { MadeIff result (Fits (self.now.konst +ℤ negsuc 0)) (with_column columns (neg_ℤ modulus) (above self.now)) }
    {
        at_least_one(alloc, modulus, self, columns)
    }

    /// The form that is not negative exactly where this one, less the modulus times a further column behind that many, is
    /// less than the modulus. `Wide` exactly where a change of sign, or what is added to the constant, leaves `i128`.
    #[tactic(auto, using(ac_base::proofs::Bits::again_128))]
    pub fn remainder_to_last(
        &self,
        alloc: Global,
        modulus: i128,
        columns: usize,
    ) -> Result<Form, FormStop>
        requires { IsRowOver columns (Div modulus self.now) }
        ensures { MadeIff result (FormFits (opposite self.now) × Fits ((opposite self.now).konst +ℤ (modulus -ℤ pos 1))) (with_column columns modulus (shifted (opposite self.now) (modulus -ℤ pos 1))) }
    {
        below_modulus(alloc, modulus, self, columns)
    }
}
