//! What agreeing terms say, in words: each function here does nothing, and its contract is a fact about all pairs.
ghost use Rattle.ac_widen_programs.specs.OutputAgreement.{AgreeingTermsHaveNoMismatch, OutputsWithoutMismatchAgree};

/// Where both programs leave terms that agree in each element of the outputs, at each valuation of the context, no obligation of these
/// outputs is a mismatch, if no pair is taken for a recurrence pair and no function is declared commutative. So an output with a mismatch
/// has an element whose terms do not agree.
pub fn agreeing_terms_have_no_mismatch()
    ensures { AgreeingTermsHaveNoMismatch }
{}

/// Where under some order of the arguments no obligation of some outputs is a mismatch, both programs leave terms that agree in each
/// element of these outputs, at each valuation of the context: so the outputs are the same. That holds wherever is widened.
pub fn outputs_without_mismatch_agree()
    ensures { OutputsWithoutMismatchAgree }
{}
