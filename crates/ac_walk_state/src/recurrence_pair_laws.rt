//! The laws on what is known at recurrence pairs: each function here does nothing.
ghost use Rattle.std.specs.Prelude.{ℕ, Bool, List};
ghost use Rattle.ac_forms.specs.declared.row.Row.{Row};
ghost use Rattle.ac_syntax.specs.declared.tree.Order.{Order};
ghost use Rattle.ac_syntax.specs.declared.tree.Pair.{Pair};
ghost use Rattle.ac_syntax.specs.declared.tree.Position.{Position};
ghost use Rattle.ac_widen_programs.specs.PairSetting.{setting};
ghost use Rattle.ac_walk_state.specs.RecurrencePairLaws.{AreWideningPointsIn, ClaimsAreInHulls, HaveClaimRows, WideningPointsStay, ReasonsJustify};

/// What is right for entries is so for these and further ones.
pub fn widening_points_stay()
    ensures { WideningPointsStay }
{}

/// What is right by a template is so in each setting of a pair where the template rows are those of the template.
pub fn widening_points_stand_in_settings()
    ensures { (pair : Pair) (outputs : List ℕ) (recurrent : Position × Position → Bool) (template : Position × Position → List Row) → AreWideningPointsIn (setting pair outputs recurrent template) }
{}

/// A claim has claim rows alone, and its points are in the hull of the members.
pub fn claims_are_of_members()
    ensures rows { (pair : Pair) (outputs : List ℕ) (recurrent : Position × Position → Bool) (template : Position × Position → List Row) → HaveClaimRows (setting pair outputs recurrent template) }
    ensures hulls { ClaimsAreInHulls }
{}

/// A combination from the members justifies a point of the claim.
pub fn reasons_justify()
    ensures { (pair : Pair) (outputs : List ℕ) (recurrent : Position × Position → Bool) (template : Position × Position → List Row) (order : Position × Position → Order) → ReasonsJustify (setting pair outputs recurrent template) order }
{}
