ghost use Rattle.std.specs.Prelude.{List, ℤ};
ghost use Rattle.ac_syntax.specs.declared.tree.Order.{Order};
ghost use Rattle.ac_forms.specs.declared.row.Row.{Row};
ghost use Rattle.ac_widen.specs.Claims.{Stand};
ghost use Rattle.ac_widen.specs.Derivations.{EntryOf, IsDerivation};
ghost use Rattle.ac_widen.specs.Obligations.{HasMismatch};
ghost use Rattle.ac_widen.specs.Setting.{Setting, IsLawful};
ghost use Rattle.ac_widen.specs.WideningLaws.{ObligationsMeet, LeadToFine, HaveClaimRows, AreObligations, GoesOnByEntry, GoesOnByPath, ClaimedAreObligations, LedAreObligations, ClaimedAreJustified, DerivationsRefute, RefutedHaveMismatch, DecidesExactly};

/// Two programs that are compared, as the method sees them.
pub trait HasSetting {
    /// The pairs of positions.
    ghost Positions: { Type 0 };

    /// The pairs of two programs, their steps, and what stands at each pair of positions.
    ghost setting: { Self → Setting Positions };
}

/// Claims that stand hold every obligation: at each recurrence pair all obligations meet the claim, and none is a mismatch.
pub fn claims_hold_obligations<S: HasSetting>(programs: &S)
    requires lawful { IsLawful (S.setting programs.now) }
    ensures meet { (order : S.Positions → Order) (claim : S.Positions → List Row) → Stand (S.setting programs.now) order claim → ObligationsMeet (S.setting programs.now) order claim }
    ensures agree { (order : S.Positions → Order) (claim : S.Positions → List Row) → Stand (S.setting programs.now) order claim → ¬ (HasMismatch (S.setting programs.now) order) }
{}

/// Claims of claim rows stand where output pairs and the points of the claims lead to fine pairs alone.
pub fn claims_stand_by_trees<S: HasSetting>(programs: &S)
    requires lawful { IsLawful (S.setting programs.now) }
    ensures { (order : S.Positions → Order) (claim : S.Positions → List Row) → HaveClaimRows (S.setting programs.now) claim → LeadToFine (S.setting programs.now) order claim → Stand (S.setting programs.now) order claim }
{}

/// Each entry of a derivation is an obligation.
pub fn derivations_show_obligations<S: HasSetting>(programs: &S)
    ensures { (order : S.Positions → Order) (es : List (EntryOf S.Positions)) → IsDerivation (S.setting programs.now) order es → AreObligations (S.setting programs.now) order es }
{}

/// A derivation goes on by a justified entry, and by the steps of a path from its last entry.
pub fn derivations_go_on<S: HasSetting>(programs: &S)
    ensures entry { (order : S.Positions → Order) → GoesOnByEntry (S.setting programs.now) order }
    ensures path { (order : S.Positions → Order) → GoesOnByPath (S.setting programs.now) order }
{}

/// What meets the claim of found members is an obligation, and a hull entry shows it; so is what an obligation leads to.
pub fn members_claim_obligations<S: HasSetting>(programs: &S)
    requires lawful { IsLawful (S.setting programs.now) }
    ensures claimed { (order : S.Positions → Order) → ClaimedAreObligations (S.setting programs.now) order }
    ensures justified { (order : S.Positions → Order) → ClaimedAreJustified (S.setting programs.now) order }
    ensures led { (order : S.Positions → Order) → LedAreObligations (S.setting programs.now) order }
{}

/// A derivation that ends in a mismatch refutes the partial order of the sites through which it steps: each order that
/// extends it has a mismatch.
pub fn orders_are_refuted<S: HasSetting>(programs: &S)
    requires lawful { IsLawful (S.setting programs.now) }
    ensures refutes { DerivationsRefute (S.setting programs.now) }
    ensures mismatch { RefutedHaveMismatch (S.setting programs.now) }
{}

/// A search that ends with claims that stand under some order, or with refuted partial orders of which each order extends
/// one, says equal exactly where for some order no obligation is a mismatch.
pub fn search_is_exact<S: HasSetting>(programs: &S)
    requires lawful { IsLawful (S.setting programs.now) }
    ensures { DecidesExactly (S.setting programs.now) }
{}
