ghost use Rattle.ac_flow.specs.KillAcceptance.{StandingKillsAreAccepted, KillsThereAreAccepted, OwnKillsAreAccepted, AcceptedKillsEndPlans};

/// A judge of proofs accepts each kill of a flow where the kill's rows, over the columns of the path, stand among the path's
/// rows. They stand where they are among rows that some point meets, and have normal forms in `i128`. Over the case's own
/// columns the kill is accepted as it is on all rows that its own are among, if some point meets these and their numbers are
/// ones of `i128`. An accepted kill ends a plan without a fault.
pub fn kills_are_accepted()
    ensures standing { StandingKillsAreAccepted }
    ensures there { KillsThereAreAccepted }
    ensures own { OwnKillsAreAccepted }
    ensures ends { AcceptedKillsEndPlans }
{}
