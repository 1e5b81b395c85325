// A sink in memory, for tests.
ghost use Rattle.std.specs.Prelude.{◌≡◌, ◌≤◌, ◌++◌, ◌∷◌, ◌↔◌, [], Option, OnOk, OnErr, IsErrOf, IsTrue};
ghost use Rattle.ac_port.specs.CallCounts.{Rose};
ghost use Rattle.ac_port.specs.FakeCalls.{is_listed, after_call};

use crate::calls::CallLog;
use crate::{Sink, SinkStop};
use std::alloc::{AllocError, Global};
use std::marker::Model;

/// A sink in memory, for tests. Puts are numbered from 0, and those that were listed fail; the number ends
/// at 2^64 - 1.
#[derive(Drop)]
pub struct MemSink {
    bytes: Vec<u8>,
    puts: CallLog,
}

impl Model for MemSink {
    ghost use Rattle.ac_port.specs.Memory.{SinkInMemory, sink_code};

    ghost Value = { SinkInMemory };

    ghost coded = { sink_code };

    ghost view = { λ a. record { bytes = a.bytes.items; puts = a.puts } };
}

impl MemSink {
    /// Nothing yet.
    pub fn new(alloc: Global) -> MemSink
        ensures bytes { result.bytes ≡ [] }
        ensures puts { result.puts ≡ record { next = 0; failing = []; faults = 0 } }
    {
        MemSink {
            bytes: Vec::new(alloc),
            puts: CallLog::new(alloc),
        }
    }

    /// Tells the put with this number to fail.
    pub fn fail_put(&mut self, call: u64) -> Result<(), AllocError>
        ensures ok { OnOk result (self.new ≡ record self.old { puts = record self.old.puts { failing = self.old.puts.failing ++ call ∷ [] } }) }
        ensures err { OnErr result (self.new ≡ self.old) }
    {
        self.puts.fail(call)
    }

    /// The bytes so far.
    pub fn bytes(&self) -> &[u8]
        ensures { result.now ≡ self.now.bytes }
    {
        &self.bytes
    }
}

impl Sink for MemSink {
    ghost sent = { λ sink. Option.Some sink.bytes };

    ghost faults = { λ sink. sink.puts.faults };

    /// Fails exactly at a listed put, and then appends nothing.
    fn put(&mut self, bytes: &[u8]) -> Result<(), SinkStop>
        ensures exact { IsErrOf result SinkStop.Failed ↔ IsTrue (is_listed self.old.puts) }
        ensures counted { self.new.puts ≡ after_call (is_listed self.old.puts) self.old.puts }
        ensures appended { OnOk result (self.new.bytes ≡ self.old.bytes ++ bytes.now) }
        ensures nothing { OnErr result (self.new.bytes ≡ self.old.bytes) }
        ensures failed { IsErrOf result SinkStop.Failed → Rose self.old.puts.faults self.new.puts.faults }
        ensures no_fewer { self.old.puts.faults ≤ self.new.puts.faults }
    {
        let fails = self.puts.is_next_listed();
        self.puts.count(fails);
        if fails {
            return Err(SinkStop::Failed);
        }
        self.bytes.extend_from_slice(bytes)?;
        Ok(())
    }
}
