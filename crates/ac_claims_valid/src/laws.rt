//! The rules of proofs, and the first fault that the judge finds.
ghost use Rattle.ac_claims_valid.specs.RuleLaws.{FaultlessPlansShow, ValidProofsMeetTheRules, RulesNameSameOutputs};
ghost use Rattle.ac_claims_valid.specs.TextLaws.{TextsAreJudgedByTheRules};

use ac_prooftext::written_proofs_are_judged;

/// No line of a plan fails on a path if and only if each of its lines meets its rule.
pub fn rules_of_plans()
    ensures { FaultlessPlansShow }
{}

/// A proof is valid if and only if it meets the rules of the format. So the outputs that such a proof names are the same.
pub fn rules_of_proofs()
    ensures valid { ValidProofsMeetTheRules }
    ensures same { RulesNameSameOutputs }
{}

/// A check that was fed with the text of a spelled proof names its outputs only if the proof meets the rules, and refuses a line
/// only if it does not.
pub fn rules_of_proof_texts()
    ensures { TextsAreJudgedByTheRules }
{
    written_proofs_are_judged();
}
