//! What the definitions of execution say, in words: each function here does nothing, and its contract is a fact about
//! all programs. The crates above rest on these facts.
ghost use Rattle.ac_syntax.specs.LawsOfQuotients.{QuotientsAreGreatest, DivisorsAreTested, SameQuotientsHaveOneValue};
ghost use Rattle.ac_syntax.specs.LawsOfTurns.{EachTurnHolds, TurnsEnd, TurnsAreWhereTheConditionHolds};
ghost use Rattle.ac_syntax.specs.LawsOfTraces.{EntriesAreInstances, EntriesFollowTheText, EntriesStandInOrder, EachEntryStandsOnce};
ghost use Rattle.ac_syntax.specs.LawsOfPlaces.{EntriesHavePlaces, OnePlaceOneEntry, EntriesBeforeStandEarlier, CellsAreCompared, SourceStandsLast, NoSourceIsNoWriter};
ghost use Rattle.ac_syntax.specs.LawsOfNodes.{ValuesHaveThreeCases, RootIsTheFirstNode, ArgumentsStandInOrder};
ghost use Rattle.ac_syntax.specs.LawsOfSources.{SourceIsTheLastWriterBefore, SourceIsTheLastWriter, RunLeavesWhatTheSourceStored};
ghost use Rattle.ac_syntax.specs.LawsOfTerms.{IntegersAreValuesOfTerms, TermsAreOfTheSource, AgreeingTermsHaveEqualValues, AgreementIsMatching, AgreeingTermsAreTheSame, AgreeingOutputsAreTheSame};

/// The value of a quotient is the greatest integer whose product with the divisor is at most the form, where the divisor is at
/// least 1. A test of a divisor holds exactly at its multiples. Quotients that are noted as one have one value.
pub fn quotients_are_greatest()
    ensures greatest { QuotientsAreGreatest }
    ensures multiples { DivisorsAreTested }
    ensures same { SameQuotientsHaveOneValue }
{}

/// The condition of a loop holds in each of its turns; under the rule on endless loops it fails after the last. So, where
/// nothing that is rounded changes with its iterator, a number is that of a turn exactly where the condition holds at 0 and at
/// that number.
pub fn turns_of_a_loop()
    ensures hold { EachTurnHolds }
    ensures end { TurnsEnd }
    ensures numbers { TurnsAreWhereTheConditionHolds }
{}

/// The entries of a trace are exactly the instances of the program's assignments, and each does what its assignment says.
pub fn entries_of_a_trace()
    ensures instances { EntriesAreInstances }
    ensures text { EntriesFollowTheText }
{}

/// Entries stand in the order of the counters of their common loops and then of the text. An assignment with given
/// counters stands once.
pub fn order_of_entries()
    ensures order { EntriesStandInOrder }
    ensures once { EachEntryStandsOnce }
{}

/// Each entry of a list stands at a place there, and at one place stands one entry. The entries before an entry are those
/// at earlier places.
pub fn places_of_entries()
    ensures each { EntriesHavePlaces }
    ensures one { OnePlaceOneEntry }
    ensures before { EntriesBeforeStandEarlier }
{}

/// Among any entries the source of a cell is the one at the last place that writes it, and there is none exactly where no
/// entry does. Two cells are tested to be one exactly where they are.
pub fn sources_by_place()
    ensures last { SourceStandsLast }
    ensures none { NoSourceIsNoWriter }
    ensures cells { CellsAreCompared }
{}

/// A value is a number, an access or a call. Its nodes stand in preorder: the root is node 0, and an argument stands behind
/// its call and the arguments before it.
pub fn nodes_of_values()
    ensures cases { ValuesHaveThreeCases }
    ensures root { RootIsTheFirstNode }
    ensures arguments { ArgumentsStandInOrder }
{}

/// The source of a read is the last entry before the reader that writes the cell, and that of an output the last entry
/// of the trace that does. A run leaves in a cell what its source stored, or the initial contents.
pub fn sources_of_cells()
    ensures read { SourceIsTheLastWriterBefore }
    ensures output { SourceIsTheLastWriter }
    ensures run { RunLeavesWhatTheSourceStored }
    ensures term { TermsAreOfTheSource }
{}

/// The integer that a run leaves is the value of the term that it leaves, and terms that agree have equal values under
/// each table that respects the declarations. Two terms agree exactly where they match node by node from the outside in.
pub fn values_of_terms()
    ensures integers { IntegersAreValuesOfTerms }
    ensures agreeing { AgreeingTermsHaveEqualValues }
    ensures matching { AgreementIsMatching }
{}

/// Where the terms of two programs agree, the programs leave the same: at a cell, and for an output of a pair, at each
/// valuation of the context and each element.
pub fn agreement_is_sameness()
    ensures cell { AgreeingTermsAreTheSame }
    ensures output { AgreeingOutputsAreTheSame }
{}
