//! What a side of a branch is to the question: the function here does nothing, and its contract is a fact about all questions.
ghost use Rattle.std.specs.Prelude.{◌≡◌, List, length};
ghost use Rattle.ac_forms.specs.declared.conj.Conj.{Conj};
ghost use Rattle.ac_claims_paths.specs.PathSteps.{Pairing};
ghost use Rattle.ac_claims_paths.specs.declared.path.Path.{Path};
ghost use Rattle.ac_claims.specs.declared.types.Claim.{Claim};
ghost use Rattle.ac_claims.specs.declared.types.Plan.{Plan};
ghost use Rattle.ac_claims_plans.specs.Embeddings.{advanced};
ghost use Rattle.ac_claims_plans.specs.PlanAcceptance.{Serves};
ghost use Rattle.ac_claims_plans.specs.BranchSides.{on_side, side_of};

use crate::branching::Part;
use crate::embedding::Embedding;

/// A plan that serves the question itself on the path of a side without further columns serves the question on that side.
pub fn question_stays(embedding: &Embedding, part: &Part)
    requires columns { part.now.question_columns ≡ 0 }
    requires places { length part.now.rows ≡ length part.now.places }
    ensures { (g : Pairing) (cs : List Claim) (h : Path) (c : Conj) (t : Plan) → Serves g cs h (advanced embedding.now part.now.path_columns part.now.path_rows) c t → Serves g cs h (on_side embedding.now part.now) (side_of c part.now) t }
{}
