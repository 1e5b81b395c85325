//! What holds of all proofs and texts: each function here does nothing, and its contract is a fact.
ghost use Rattle.ac_prooftext.specs.CheckLaws.{AnswersAreVerdicts, DeepTextsStayDeep, DeepSpellingsAreDeep, WrittenProofsAreJudged};
ghost use Rattle.ac_prooftext.specs.CompleteProofs.{TakesProofs};
ghost use Rattle.ac_prooftext.specs.CheckSoundness.{NamedOutputsAreSame, AcceptedOutputsAreSame};
ghost use Rattle.ac_prooftext.specs.TextLaws.{ProofsAreSpelled, SpellingsHaveNoFault, TextsAreOfOneProof};

use std::alloc::Global;

/// The lines of a spelled proof may follow each other, and then the proof is complete.
pub fn lines_of_proofs_may_follow()
    ensures { TakesProofs }
{}

/// The text of a spelled proof is a spelling, and no spelling has a fault.
pub fn spellings_have_no_fault()
    ensures proofs { ProofsAreSpelled }
    ensures no_fault { SpellingsHaveNoFault }
{}

/// Where the check of the lines of a complete proof names outputs (`lines`), or that of a stream of bytes does (`stream`), each of
/// them is the same: in both programs, for each valuation
/// of the context, each element, all contents that agree on the inputs and every table that respects the declarations.
pub fn named_outputs_are_the_same(alloc: Global)
    ensures lines { NamedOutputsAreSame }
    ensures stream { AcceptedOutputsAreSame }
{
    let _alloc = alloc;
}

/// No text is that of two spelled proofs: their lines are the same.
pub fn texts_are_of_one_proof()
    ensures { TextsAreOfOneProof }
{}

/// The answer of a check that was fed with the text of a spelled proof is that of `check_proof` on the proof: too long, too
/// deep, or the verdict.
pub fn written_proofs_are_judged()
    ensures { WrittenProofsAreJudged }
{}

/// The answer on a stream is the verdict on the proof that it spells, and a stream that is too deep has no other answer.
pub fn answers_are_verdicts()
    ensures verdicts { AnswersAreVerdicts }
    ensures faults { DeepTextsStayDeep }
    ensures spellings { DeepSpellingsAreDeep }
{}
