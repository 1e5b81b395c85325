//! Normal forms that are kept from one question to the next.
ghost use Rattle.std.specs.Prelude.{◌≡◌, ℤ, List, IfOk, true};
ghost use Rattle.ac_forms.specs.Rows.{Meets, HaveModuli};
ghost use Rattle.ac_forms.specs.Standing.{all_stand};

use crate::noted::{Noted, standing};
use ac_forms::Row;
use std::alloc::{AllocError, Global};
use std::marker::Model;

/// The rows that were asked about last beside their normal forms. Where the rows of the next question begin as they do, those forms
/// are taken. Contracts see nothing of it: what is kept changes no answer.
#[derive(Drop)]
pub struct NormalForms {
    noted: Vec<Noted>,
}

impl Model for NormalForms {
    ghost use Rattle.std.specs.List.{AllByRecursion};
    ghost use Rattle.ac_claims_paths.specs.RowNotes.{IsNoted};

    ghost Value = { Unit {0} };

    ghost view = { λ _. tt };

    ghost invariant = { λ forms. AllByRecursion IsNoted forms.noted.items };
}

impl NormalForms {
    /// Nothing is kept. It takes no memory before the first question.
    pub fn new(alloc: Global) -> NormalForms
        ensures { result ≡ tt }
    {
        NormalForms {
            noted: Vec::new(alloc),
        }
    }

    /// Whether each of some rows stands among `rows`, as `ac_forms::all_stand` answers: its normal form says nothing, or is that of
    /// one of them. Of the rows, those behind the first that differs from the last question's are brought into normal form; each row
    /// of `wanted` is.
    pub fn all_stand(
        &mut self,
        alloc: Global,
        rows: &[Row],
        wanted: &[Row],
    ) -> Result<bool, AllocError>
        requires rows { HaveModuli rows.now }
        requires wanted { HaveModuli wanted.now }
        ensures exact { IfOk result (λ standing. standing ≡ all_stand rows.now wanted.now) }
        ensures meets { IfOk result (λ standing. standing ≡ true → (p : List ℤ) → Meets rows.now p → Meets wanted.now p) }
    {
        standing(alloc, rows, wanted, &mut self.noted)
    }
}
