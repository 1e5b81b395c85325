// Reading and writing whole, over readers and writers that take a part at a time.
ghost use Rattle.std.specs.Prelude.{◌≡◌, ◌≤◌, ◌<◌, ℕ, length, take, IfOk, OnOk, OnErr, IfSome, IsErrOf};
ghost use Rattle.std.specs.Io.KnownBytes.{Appends};

use crate::ReadStop;
use std::alloc::Global;
use std::io::{self, Read, Write};

const CHUNK: usize = 4096;

/// All that the reader still gives, if that is at most `limit` bytes. It stops at the first byte above.
pub fn read_up_to<R: Read>(reader: &mut R, alloc: Global, limit: u64) -> Result<Vec<u8>, ReadStop>
    ensures within { IfOk result (λ bytes. length bytes.items ≤ limit) }
    ensures whole { IfOk result (λ bytes. IfSome (R.remaining reader.old) (λ left. bytes.items ≡ left)) }
    ensures too_big { IsErrOf result ReadStop.TooBig → IfSome (R.remaining reader.old) (λ left. limit < length left) }
{
    let mut bytes = Vec::new(alloc);
    let mut chunk = [0u8; CHUNK];
    for _ in 0..u64::MAX {
        let room = limit - bytes.len() as u64;
        let wanted = room.min(CHUNK as u64 - 1) as usize + 1;
        let front = &mut chunk[..wanted];
        let Ok(count) = reader.read(front) else {
            return Err(ReadStop::Failed);
        };
        if count == 0 {
            return Ok(bytes);
        }
        if count as u64 > room {
            return Err(ReadStop::TooBig);
        }
        bytes.extend_from_slice(&front[..count])?;
    }
    Err(ReadStop::Failed)
}

/// Fills the bytes with what the reader still gives, and gives their number: fewer than there is room for only at its end.
pub fn fill<R: Read>(reader: &mut R, into: &mut [u8]) -> Result<usize, ReadStop>
    ensures within { IfOk result (λ count. count ≤ length into.new) }
{
    let mut count = 0;
    while count < into.len() {
        let Ok(more) = reader.read(&mut into[count..]) else {
            return Err(ReadStop::Failed);
        };
        if more == 0 {
            return Ok(count);
        }
        count += more;
    }
    Ok(count)
}

/// Writes all the bytes. An error leaves some front part of them written.
pub fn write_whole<W: Write>(writer: &mut W, bytes: &[u8]) -> io::Result<()>
    ensures whole { OnOk result (Appends (W.contents writer.old) (W.contents writer.new) bytes.now) }
    ensures front { OnErr result ((count : ℕ) × Appends (W.contents writer.old) (W.contents writer.new) (take count bytes.now)) }
{
    let mut rest = bytes;
    while !rest.is_empty() {
        let count = writer.write(rest)?;
        if count == 0 {
            return Err(io::ErrorKind::WriteZero.into());
        }
        rest = &rest[count..];
    }
    writer.flush()
}
