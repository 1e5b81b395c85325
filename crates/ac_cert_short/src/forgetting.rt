//! A draft that is dropped: its uses are taken from the counts.
ghost use Rattle.std.specs.Prelude.{◌≡◌, ℕ, length};
ghost use Rattle.ac_cert_short.specs.CertificateNodes.{uses};
ghost use Rattle.ac_cert_short.specs.Drafts.{draft_behind, draft_nodes, kids_uses, mark_use, mark_uses};
ghost use Rattle.ac_cert_short.specs.DraftRelations.{AreForgotten};

use crate::counts::{forget, forget_step};
use crate::draft::{Behind, Draft, Mark};

/// Takes the uses of a mark from the counts.
fn forget_mark(counts: &mut Vec<usize>, mark: &Mark)
    ensures long { length counts.new.items ≡ length counts.old.items }
    ensures forgotten { AreForgotten counts.old.items counts.new.items (λ i. mark_use i mark.now) }
{
    match mark {
        Mark::Kept(step) => forget_step(counts, step),
        Mark::Gap => {}
    }
}

/// Takes the uses of marks from the counts.
#[tactic(auto, using(crate::proofs::Shapes::marks_more, crate::proofs::Shapes::marks_end))]
fn forget_marks(counts: &mut Vec<usize>, marks: &[Mark])
    ensures long { length counts.new.items ≡ length counts.old.items }
    ensures forgotten { AreForgotten counts.old.items counts.new.items (λ i. mark_uses i marks.now) }
{
    for mark in marks {
        forget_mark(counts, mark);
    }
}

/// Takes the uses of a draft from the counts.
#[tactic(auto, using(crate::proofs::Shapes::marks_used))]
#[cycle(forgets)]
pub(crate) fn forget_draft(counts: &mut Vec<usize>, draft: &Draft)
    ensures long { length counts.new.items ≡ length counts.old.items }
    ensures forgotten { AreForgotten counts.old.items counts.new.items (λ i. uses i (draft_nodes draft.now)) }
{
    forget_marks(counts, draft.marks.as_slice());
    forget_behind(counts, &draft.behind);
}

/// The same of what comes behind the marks.
#[tactic(auto, using(crate::proofs::Shapes::uses_at_residue))]
#[cycle(forgets)]
fn forget_behind(counts: &mut Vec<usize>, behind: &Behind)
    ensures long { length counts.new.items ≡ length counts.old.items }
    ensures forgotten { AreForgotten counts.old.items counts.new.items (λ i. uses i (draft_behind behind.now)) }
{
    match behind {
        Behind::Split(_, left, right) => {
            forget_draft(counts, left);
            forget_draft(counts, right);
        }
        Behind::Residue(_, _, kids) => forget_kids(counts, kids),
        Behind::End(end) => forget(counts, end.row),
    }
}

/// The same of the children of a residue branch.
#[tactic(auto, using(crate::proofs::Shapes::drafts_more, crate::proofs::Shapes::drafts_end))]
#[cycle(forgets)]
pub(crate) fn forget_kids(counts: &mut Vec<usize>, kids: &[Draft])
    ensures long { length counts.new.items ≡ length counts.old.items }
    ensures forgotten { AreForgotten counts.old.items counts.new.items (λ i. kids_uses i kids.now) }
{
    for kid in kids {
        forget_draft(counts, kid);
    }
}
