//! How a pair path comes to a question, and what its points say.
ghost use Rattle.ac_widen_programs.specs.PairPathSteps.{StartsLead, CallsLead, ReadsLead, SurvivorsLead, SurvivorsAreLeft, QuestionsGrow, PairPathsLead, OrdersAreTaken, OrdersMayChange, PointsAreNumbers};
ghost use Rattle.ac_widen_programs.specs.PairPathEnds.{EndsAreMismatches, BrokenClaimsFail, MismatchesAreShown, StepsAreJustified, PairPathsDerive};

/// At each point of the start of a claim at a piece of each of its positions both positions stand at their coordinates, at a
/// valuation of the context, and the claim's rows hold: the pair path of this one pair leads to the start.
pub fn starts_lead()
    ensures { StartsLead }
{}

/// Where a pair path leads to a question, it leads on with the pair of a branch: to each branch of two calls, by the order that is
/// chosen at their positions if they are a site, and as their arguments stand elsewhere; to the branch of a case of a read or an
/// output, with the rows of what is left of the case, whose quotients are further columns; and to each point of that branch in
/// none of the case's kills. Of a case with such a point something is left.
pub fn steps_lead()
    ensures calls { CallsLead }
    ensures reads { ReadsLead }
    ensures survivors { SurvivorsLead }
    ensures left { SurvivorsAreLeft }
{}

/// A pair path that leads to a question leads to it with further rows, and with further columns behind its own.
pub fn questions_grow()
    ensures { QuestionsGrow }
{}

/// The pair path of each question to which an unfolding comes leads to it: so each of its points is read off as pairs that are steps
/// of both programs, from one of the claim on.
pub fn pair_paths_lead()
    ensures { PairPathsLead }
{}

/// Where two calls have branches by an order, they have them by that choice at their positions. A pair path comes to a point under each
/// order that gives the same at the pairs from which it steps.
pub fn orders_are_chosen()
    ensures taken { OrdersAreTaken }
    ensures others { OrdersMayChange }
{}

/// The point of a pair of seats is the first numbers of the question's point, for the parameters, and those from the first
/// column of each seat on, as many as the seat is wide.
pub fn points_are_numbers()
    ensures { PointsAreNumbers }
{}

/// Where a pair path comes to a pair that matches nothing, the pair is a mismatch, if each call that is executed has as many arguments
/// as its symbol says. A pair matches nothing where no read or output stands on either side, no two calls of one symbol with as
/// many arguments, no two numbers but some that the point makes unequal, and no two initial cells but some of two arrays, of no
/// input, or with subscripts that the point makes unequal: it meets a part of the negation of an equality's row. Where it meets a
/// part of the negation of one of a claim's rows over the columns of the pair, the claim has a row that fails at the pair's point.
pub fn pair_paths_end()
    ensures mismatches { EndsAreMismatches }
    ensures claims { BrokenClaimsFail }
{}

/// Each entry of a pair path behind the first one is justified as a step from the one before it, in every setting of the programs;
/// from a pair of an output on the entries are a derivation. Where the first pair is an obligation and the pair path comes to a pair that
/// matches nothing, the order has a mismatch.
pub fn pair_paths_derive()
    ensures steps { StepsAreJustified }
    ensures derivation { PairPathsDerive }
    ensures mismatch { MismatchesAreShown }
{}
