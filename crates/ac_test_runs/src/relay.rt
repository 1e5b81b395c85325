//! A client of files and sinks that knows their traits alone.
ghost use Rattle.std.specs.Prelude.{◌≡◌, ◌++◌, ◌∷◌, [], option_map, OnOk, IfSome, IsErrOf};
ghost use Rattle.std.specs.FinMap as map;
ghost use Rattle.ac_port.specs.CallCounts.{Rose};
ghost use Rattle.ac_port.specs.Transcripts.{whole_read, read_failed};

use ac_port::{Files, ReadStop, Sink, SinkStop};
use std::alloc::Global;

/// Why a relay stopped.
#[derive(Clone, Copy, PartialEq, Eq)]
pub enum RelayStop {
    Read,
    TooBig,
    Put,
    Memory,
}

/// Puts the bytes of a file of at most `limit` bytes.
pub fn relay<F: Files, S: Sink>(
    alloc: Global,
    files: &mut F,
    sink: &mut S,
    name: &[u8],
    limit: u64,
) -> Result<(), RelayStop>
    ensures sent { OnOk result (IfSome (F.contents files.old) (λ told. IfSome (map.get told name.now) (λ bytes.
        S.sent sink.new ≡ option_map (λ before. before ++ bytes) (S.sent sink.old)))) }
    ensures same { F.contents files.new ≡ F.contents files.old }
    ensures read { IsErrOf result RelayStop.Read → F.transcript files.new ≡ F.transcript files.old ++ whole_read name.now limit read_failed ∷ [] }
    ensures put { IsErrOf result RelayStop.Put → Rose (S.faults sink.old) (S.faults sink.new) }
{
    let bytes = match files.read(alloc, name, limit) {
        Ok(bytes) => bytes,
        Err(ReadStop::Failed) => return Err(RelayStop::Read),
        Err(ReadStop::TooBig) => return Err(RelayStop::TooBig),
        Err(ReadStop::Memory(_)) => return Err(RelayStop::Memory),
    };
    match sink.put(&bytes) {
        Ok(()) => Ok(()),
        Err(SinkStop::Failed) => Err(RelayStop::Put),
        Err(SinkStop::Memory(_)) => Err(RelayStop::Memory),
    }
}
