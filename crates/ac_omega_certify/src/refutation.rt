ghost use Rattle.std.specs.Prelude.{◌≡◌};
ghost use Rattle.ac_omega_certify.specs.Refutations.{conj_of};

use ac_base::Items;
use ac_forms::Conj;
use ac_omega_steps::Choice;

/// Why a conjunction in normal form has no integer point (W. Pugh, The Omega test, 1991).
#[derive(Drop)]
pub enum Refutation {
    /// It is the absurd one.
    Absurd(Conj),
    /// The choices of a strategy for one of its columns, in order, and why what each of them leaves has no point.
    Open {
        conj: Conj,
        choices: Items<Choice>,
        below: Items<Refutation>,
    },
}

impl Refutation {
    /// The conjunction that has no point.
    pub fn conj(&self) -> &Conj
        ensures { result.now ≡ conj_of self.now }
    {
        match self {
            Refutation::Absurd(conj) => conj,
            Refutation::Open { conj, .. } => conj,
        }
    }
}
