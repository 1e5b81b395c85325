//! What it means that a pair has no fault, and which arrangements there are.
ghost use Rattle.ac_assoc.specs.ArrangeablePairs.{PairsWithoutFaultCanBeArranged};
ghost use Rattle.ac_assoc.specs.ChosenArrangements.{ArrangementsAreAllChoices};
ghost use Rattle.ac_assoc.specs.ProgramChains.{OperandsStandAtTheirNodes};

/// A pair whose executed calls have as many arguments as their symbols say, and in which no fault is found, can be arranged.
pub fn pairs_without_fault_can_be_arranged()
    ensures { PairsWithoutFaultCanBeArranged }
{}

/// The nodes of the operands of a value are those of the operands, in their order.
pub fn operands_stand_at_their_nodes()
    ensures { OperandsStandAtTheirNodes }
{}

/// Each choice of orders for the chains on the right is that of the arrangement with some number below their product.
pub fn arrangements_are_all_choices()
    ensures { ArrangementsAreAllChoices }
{}
