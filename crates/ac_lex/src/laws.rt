ghost use Rattle.ac_lex.specs.UniqueTokens.{HasOneList, HasOneFault, HasNotBoth};

/// What the bytes of a text determine: its list of tokens or its first fault, and never both.
#[tactic(auto, using(crate::proofs::LawLemmas::one_list, crate::proofs::LawLemmas::one_fault, crate::proofs::LawLemmas::not_both))]
pub fn tokens_are_determined()
    ensures list { HasOneList }
    ensures fault { HasOneFault }
    ensures apart { HasNotBoth }
{}
