//! Bytes that are read and written whole, where a call of the system may move fewer than it is asked for.

ghost use Rattle.std.specs.Prelude.{◌≡◌, ◌≤◌, ◌<◌, IfOk, length, take};
ghost use Rattle.std.specs.Io.KnownBytes.{Appends, Consumes, IsAtEnd};
ghost use Rattle.mx_real.specs.Streams.{moved};

use std::io::{ErrorKind, Read, Write};

/// Reads until the buffer is full or the input ends, and gives the number of bytes; as an error that of the bytes in
/// front of a call of the system that failed. A call that a signal interrupts is made again, and none once the buffer
/// is full.
pub fn read_whole<R: Read>(reader: &mut R, into: &mut [u8]) -> Result<usize, usize>
    ensures count { moved result ≤ length into.old }
    ensures bytes { Consumes (R.remaining reader.old) (R.remaining reader.new) (take (moved result) into.new) }
    ensures end { IfOk result (λ n. n < length into.old → IsAtEnd (R.remaining reader.new)) }
{
    let mut count = 0;
    for _turn in 0..u64::MAX {
        if count == into.len() {
            return Ok(count);
        }
        match reader.read(&mut into[count..]) {
            Ok(0) => return Ok(count),
            Ok(n) => count += n,
            Err(e) => {
                if e.kind() != ErrorKind::Interrupted {
                    return Err(count);
                }
            }
        }
    }
    Err(count)
}

/// Writes all bytes, and gives their number; as an error that of the bytes in front of a call of the system that
/// failed. A call that a signal interrupts is made again, and none once all bytes are written.
pub fn write_whole<W: Write>(writer: &mut W, from: &[u8]) -> Result<usize, usize>
    ensures count { moved result ≤ length from.now }
    ensures bytes { Appends (W.contents writer.old) (W.contents writer.new) (take (moved result) from.now) }
    ensures whole { IfOk result (λ n. n ≡ length from.now) }
{
    let mut count = 0;
    for _turn in 0..u64::MAX {
        if count == from.len() {
            return Ok(count);
        }
        match writer.write(&from[count..]) {
            Ok(0) => return Err(count),
            Ok(n) => count += n,
            Err(e) => {
                if e.kind() != ErrorKind::Interrupted {
                    return Err(count);
                }
            }
        }
    }
    Err(count)
}
