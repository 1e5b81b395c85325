// The calls of one kind on a fake, which fails at those that it was told.
ghost use Rattle.std.specs.Prelude.{◌≡◌, ◌≤◌, ◌++◌, ◌∷◌, [], OnOk, OnErr};
ghost use Rattle.ac_port.specs.FakeCalls.{is_listed, after_call};

use std::alloc::{AllocError, Global};
use std::marker::Model;

#[derive(Drop)]
pub struct CallLog {
    next: u64,
    failing: Vec<u64>,
    faults: u64,
}

impl Model for CallLog {
    ghost use Rattle.ac_port.specs.FakeCalls.{Calls, calls_code};

    ghost Value = { Calls };

    ghost coded = { calls_code };

    ghost view = { λ a. record { next = a.next; failing = a.failing.items; faults = a.faults } };
}

impl CallLog {
    pub fn new(alloc: Global) -> Self
        ensures { result ≡ record { next = 0; failing = []; faults = 0 } }
    {
        CallLog {
            next: 0,
            failing: Vec::new(alloc),
            faults: 0,
        }
    }

    /// Tells the call with this number to fail.
    pub fn fail(&mut self, call: u64) -> Result<(), AllocError>
        ensures ok { OnOk result (self.new ≡ record self.old { failing = self.old.failing ++ call ∷ [] }) }
        ensures err { OnErr result (self.new ≡ self.old) }
    {
        self.failing.push(call)?;
        Ok(())
    }

    pub fn is_next_listed(&self) -> bool
        ensures { result ≡ is_listed self.now }
    {
        self.failing.contains(&self.next)
    }

    /// Counts a call, and a fault where it failed.
    pub fn count(&mut self, failed: bool)
        ensures counted { self.new ≡ after_call failed self.old }
        ensures no_fewer { self.old.faults ≤ self.new.faults }
    {
        self.next = self.next.saturating_add(1);
        if failed {
            self.faults = self.faults.saturating_add(1);
        }
    }
}
