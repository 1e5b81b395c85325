ghost use Rattle.ac_flow.specs.SourceSteps.{CasesAreSteps, CasesAreInPieces, StepsAreOfCases, StepsAreDetermined, FlowsAreOfReaders};

/// At a read or an output and a valuation of the context, where the rows of a case hold, the read goes to the case's source
/// exactly where none of the case's kills holds; to its initial position exactly where no kill of the case of the initial
/// contents holds. The rows of a case hold in exactly one piece of the reader, or in none. Each read goes somewhere, by
/// exactly one case.
pub fn cases_are_steps()
    ensures steps { CasesAreSteps }
    ensures pieces { CasesAreInPieces }
    ensures each { StepsAreOfCases }
    ensures one { StepsAreDetermined }
{}

/// Each flow of the reads and outputs of a program is that of one of them, and each of them has a flow.
pub fn flows_are_of_readers()
    ensures { FlowsAreOfReaders }
{}
