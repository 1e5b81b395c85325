//! What chains are, and what an arranged pair says of the chains of the old one, in words.
ghost use Rattle.ac_assoc_law.specs.LawsOfChains.{CallsBringTheirOperands, OthersBringThemselves, LeavesBringThemselves, ChainsHaveOneValue, OthersHaveTheirValue, LeavesHaveTheirValue, RisingRises, PermutedAreTheSame, PermutedStandInOrder, FirstOrderIsTheirs};
ghost use Rattle.ac_assoc_law.specs.LawsOfArrangements.{ArrangedValuesAreChainValues, ArrangedRunsAreChainRuns, ArrangedTablesRespect, ArrangedTablesAreFinite, ArrangedPairsHaveTables, ArrangedPairsAreReady, ArrangedPairsHaveArities, ArrangedPairsHaveDimensions, ArrangedPairsAreSmall, SameArrangedIsSameUnderChains, SameFinitelyIsSameUnderFiniteChains};

/// A call of a name with two arguments brings to a chain of this name the operands of its arguments, from left to right. All else
/// brings itself.
pub fn operands_of_values()
    ensures calls { CallsBringTheirOperands }
    ensures others { OthersBringThemselves }
    ensures leaves { LeavesBringThemselves }
{}

/// The value of a chain is that of the values of its operands in rising order. All else has its value as ever.
pub fn values_of_chains()
    ensures chains { ChainsHaveOneValue }
    ensures others { OthersHaveTheirValue }
    ensures leaves { LeavesHaveTheirValue }
    ensures rising { RisingRises }
    ensures orders { PermutedAreTheSame }
    ensures lexicographic { PermutedStandInOrder }
    ensures first { FirstOrderIsTheirs }
{}

/// The value of an arranged value, under the table of the arranged pair, is the value of the chain in the old one.
pub fn arranged_values_are_chain_values()
    ensures { ArrangedValuesAreChainValues }
{}

/// A run of an arranged body leaves what the chain run of the old one leaves, whatever orders are chosen.
pub fn arranged_runs_are_chain_runs()
    ensures { ArrangedRunsAreChainRuns }
{}

/// The table of the arranged pair respects its commutative names where the old one respects the old names. It is 0 but at
/// finitely many lists where both old tables are.
pub fn tables_of_arranged_pairs()
    ensures respect { ArrangedTablesRespect }
    ensures finite { ArrangedTablesAreFinite }
{}

/// For every table of the calls that respects the old pair's names and every table of the chains, a table respects the new
/// pair's names, and under it each run of the new pair leaves what the chain run of the old pair leaves.
pub fn arranged_pairs_have_tables()
    ensures { ArrangedPairsHaveTables }
{}

/// An output that is the same in the arranged pair is the same under chains in the old one; so it is where all tables are finite.
pub fn same_arranged_is_same_under_chains()
    ensures all { SameArrangedIsSameUnderChains }
    ensures finite { SameFinitelyIsSameUnderFiniteChains }
{}

/// The programs of an arranged pair are ready if those of the old pair are. Their executed calls have as many arguments as their symbols
/// say, their cells have the dimensions of their arrays, and their numbers are small, if so it is in the old pair.
pub fn arranged_pairs_stay_ready()
    ensures ready { ArrangedPairsAreReady }
    ensures arities { ArrangedPairsHaveArities }
    ensures dimensions { ArrangedPairsHaveDimensions }
    ensures small { ArrangedPairsAreSmall }
{}
