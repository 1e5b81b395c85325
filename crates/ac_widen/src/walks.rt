ghost use Rattle.std.specs.Prelude.{◌≡◌, ◌+◌, ℕ, suc, List, length, ◌++◌};
ghost use Rattle.ac_syntax.specs.declared.tree.Order.{Order};
ghost use Rattle.ac_widen.specs.Derivations.{EntryOf};
ghost use Rattle.ac_widen.specs.Setting.{IsLawful};
ghost use Rattle.ac_widen.specs.WideningLaws.{StaysRight, IsRightClaim, RoomFalls, GoesOnFromClaim, GoesOnFromOutput, kept_at_first};
ghost use Rattle.ac_widen.specs.Walks.{Kept, IsKept, room_of};

use crate::laws::HasSetting;

/// What a walk keeps at a recurrence pair is right at first, stays so as the entries go on, and with each found member.
pub fn members_are_kept<S: HasSetting>(programs: &S)
    ensures first { (es : List (EntryOf S.Positions)) (k : S.Positions) → IsKept (S.setting programs.now) es k (kept_at_first ((S.setting programs.now).template k)) }
    ensures onward { (es more : List (EntryOf S.Positions)) (k : S.Positions) (c : Kept) → IsKept (S.setting programs.now) es k c → IsKept (S.setting programs.now) (es ++ more) k c }
    ensures member { StaysRight (S.setting programs.now) }
{}

/// The rows of what is kept are the claim of the found members, and each is an equality, a template row, or met by no point.
pub fn claims_are_of_members<S: HasSetting>(programs: &S)
    ensures { IsRightClaim (S.setting programs.now) }
{}

/// At a recurrence pair there is room for as many members as a point has numbers, as the template has rows, and one more, if
/// each breaks the claim at which it is found.
pub fn members_are_bounded<S: HasSetting>(programs: &S)
    ensures first { (k : S.Positions) → room_of (S.setting programs.now) k (kept_at_first ((S.setting programs.now).template k)) ≡ suc ((S.setting programs.now).width k + length ((S.setting programs.now).template k)) }
    ensures falls { RoomFalls (S.setting programs.now) }
{}

/// A derivation goes on by a path from a point of a claim of found members, and by one from an output pair.
pub fn paths_go_on<S: HasSetting>(programs: &S)
    requires lawful { IsLawful (S.setting programs.now) }
    ensures claim { (order : S.Positions → Order) → GoesOnFromClaim (S.setting programs.now) order }
    ensures output { (order : S.Positions → Order) → GoesOnFromOutput (S.setting programs.now) order }
{}
