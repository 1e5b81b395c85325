ghost use Rattle.ac_walk_state.specs.RefutedOrders.{DerivationsRefuteParts};

/// A derivation under an order that ends in a mismatch refutes the part of the order at the sites from which it steps.
/// This does nothing: its contract is a law on each setting of two programs.
pub fn derivations_refute_parts()
    ensures { DerivationsRefuteParts }
{}
