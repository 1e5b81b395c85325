//! What a question is to the paths that follow it: each function here does nothing, and its contract is a fact about all
//! questions.
ghost use Rattle.ac_claims_plans.specs.QuestionBranches.{BranchesFollow};
ghost use Rattle.ac_claims_plans.specs.QuestionCover.{CoveredBranchesGivePlans, PlansServeCovered, QuestionsCoverThemselves, QuestionsMayStay, SidesAreCovered};
ghost use Rattle.ac_claims_plans.specs.QuestionPlans.{BranchesGivePlans, CertificatesGivePlans, ServedQuestionsHavePlans, SidesAreFormed};
ghost use Rattle.ac_claims_plans.specs.QuestionStarts.{PlansAreAcceptedAtStarts, QuestionsFollowThemselves};

/// Where the step of a question has branches, the step of a path that follows the question has as many. Each follows the one of
/// the question in turn, placed as behind the step, and has its columns and well-made rows.
pub fn branches_follow()
    ensures { BranchesFollow }
{}

/// What serves the rows of a question at the positions of whatever path is a plan for the question. So is a certificate's plan,
/// where the certificate is accepted on these rows.
pub fn served_questions()
    ensures served { ServedQuestionsHavePlans }
    ensures certified { CertificatesGivePlans }
{}

/// A formed question is formed on each side of a branch on a row over its columns.
pub fn sides_are_formed()
    ensures { SidesAreFormed }
{}

/// A branch on a row whose sides have plans is a plan for the question.
pub fn branches_on_rows()
    ensures { BranchesGivePlans }
{}

/// A formed question, with each column and row at its own place, follows itself; so a plan for it is accepted on it.
pub fn starts()
    ensures follow { QuestionsFollowThemselves }
    ensures accepted { PlansAreAcceptedAtStarts }
{}

/// A question covers another one where it stands wherever that one does; then a plan for it is one for that one. It covers
/// itself. Behind a branch on a row that the other one has from then on it covers that one whether it has the row too or stays
/// as it is; so the branch is a plan for the other one with the plans for its own sides outside.
pub fn question_may_stay()
    ensures serves { PlansServeCovered }
    ensures itself { QuestionsCoverThemselves }
    ensures sides { SidesAreCovered }
    ensures stays { QuestionsMayStay }
    ensures branches { CoveredBranchesGivePlans }
{}
