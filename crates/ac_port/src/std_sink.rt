// The standard output.
ghost use Rattle.std.specs.Prelude.{◌≡◌, None};

use crate::streams::write_whole;
use crate::{Sink, SinkStop};
use std::io;

/// The standard output. Of what was written nothing is told.
#[derive(Drop)]
pub struct StdSink<P: Print> {
    rt: P,
    faults: u64,
}

impl<P: Print> StdSink<P> {
    /// The output that `rt` reaches, with no faults yet.
    pub fn new(rt: P) -> Self
        ensures { result.faults ≡ 0 }
    {
        StdSink { rt, faults: 0 }
    }
}

impl<P: Print> Sink for StdSink<P> {
    ghost sent = { λ _. None };

    ghost faults = { λ sink. sink.faults };

    fn put(&mut self, bytes: &[u8]) -> Result<(), SinkStop> {
        if write_whole(&mut io::writer(&self.rt), bytes).is_err() {
            self.faults = self.faults.saturating_add(1);
            return Err(SinkStop::Failed);
        }
        Ok(())
    }
}
