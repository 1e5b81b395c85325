//! What holds of each generated pair, in words: each function here does nothing, and its contract is a fact about all of them.
ghost use Rattle.ac_gen.specs.PairValidity.{GeneratedPairsArePaired, GeneratedPairsAreSmall, GeneratedPairsAreLowered, GeneratedPairsAreEverywhere, GeneratedPairsRunEverywhere, GeneratedPairsAreNeverOutside};

/// Both programs are as the language has them, over one parameter, and their arrays have the same extents; their numbers have an
/// absolute value of at most 2^31. Both are lowered: no assignment has too many pieces, and no number leaves `i128`.
pub fn generated_pairs_are_well_made()
    ensures paired { GeneratedPairsArePaired }
    ensures small { GeneratedPairsAreSmall }
    ensures lowered { GeneratedPairsAreLowered }
{}

/// The context of a pair holds for every value of N, both programs may run there, and no run ends outside the context.
pub fn generated_pairs_run_everywhere()
    ensures valuations { GeneratedPairsAreEverywhere }
    ensures ready { GeneratedPairsRunEverywhere }
    ensures within { GeneratedPairsAreNeverOutside }
{}
