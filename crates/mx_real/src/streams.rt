//! What a slot of the real host leads to, and the calls on it.
//!
//! The calls are generic in the files and the standard streams, so that their clauses can speak of the bytes of a
//! reader and a writer that tell them.

ghost use Rattle.std.specs.Prelude.{◌≡◌, ◌≤◌, ◌<◌, ◌↔◌, false, None, Err, IfOk, IfSome, OnErr, OnOk, length, take};
ghost use Rattle.std.specs.Io.KnownBytes.{Appends, Consumes, IsAtEnd};
ghost use Rattle.std.specs.Io.Seek.{StaysAt};
ghost use Rattle.mx_host.specs.HostAnswer as answer;
ghost use Rattle.mx_real.specs.Streams.{contents_of, is_readable, is_writable, IsSought, position_of, remaining_of};

use crate::transfers::{read_whole, write_whole};
use mx_host::{HostFault, Mode};
use std::fs::OpenFile;
use std::io::{Read, Seek, SeekFrom, Write};

/// What a slot leads to.
#[derive(Drop)]
pub enum Stream<F> {
    /// It is not open.
    Closed,
    /// Standard input.
    Input,
    /// Standard output.
    Output,
    /// Standard error.
    Errors,
    /// A file, opened in this mode.
    File(F, Mode),
}

/// Reads until the buffer is full or the input ends. Where a call of the system fails, the place in a file is moved back
/// over the bytes that were read; what they changed in the buffer stays.
pub fn read<I: Read, F: Read + Seek>(
    input: &mut I,
    stream: &mut Stream<F>,
    into: &mut [u8],
) -> Result<usize, HostFault>
    ensures count { IfOk result (λ n. n ≤ length into.old) }
    ensures bytes { IfOk result (λ n. Consumes (remaining_of I.remaining F.remaining input.old stream.old)
        (remaining_of I.remaining F.remaining input.new stream.new) (take n into.new)) }
    ensures end { IfOk result (λ n. n < length into.old →
        IsAtEnd (remaining_of I.remaining F.remaining input.new stream.new)) }
    ensures misused { result ≡ Err HostFault.Misused ↔ is_readable stream.old ≡ false }
{
    match stream {
        Stream::Input => match read_whole(input, into) {
            Ok(count) => Ok(count),
            Err(_) => Err(HostFault::Failed),
        },
        Stream::File(file, mode) => {
            if mode.is_write_only() {
                return Err(HostFault::Misused);
            }
            match read_whole(file, into) {
                Ok(count) => Ok(count),
                Err(count) => Err(move_back(file, count)),
            }
        }
        Stream::Closed | Stream::Output | Stream::Errors => Err(HostFault::Misused),
    }
}

/// Writes all bytes. Where a call of the system fails, the place in a file is moved back over the bytes that were
/// written; they stay in the file.
pub fn write<O: Write, E: Write, F: Write + Seek>(
    output: &mut O,
    errors: &mut E,
    stream: &mut Stream<F>,
    from: &[u8],
) -> Result<(), HostFault>
    ensures bytes { OnOk result (Appends
        (contents_of O.contents E.contents F.contents output.old errors.old stream.old)
        (contents_of O.contents E.contents F.contents output.new errors.new stream.new) from.now) }
    ensures misused { result ≡ Err HostFault.Misused ↔ is_writable stream.old ≡ false }
{
    match stream {
        Stream::Output => match write_whole(output, from) {
            Ok(_) => Ok(()),
            Err(_) => Err(HostFault::Failed),
        },
        Stream::Errors => match write_whole(errors, from) {
            Ok(_) => Ok(()),
            Err(_) => Err(HostFault::Failed),
        },
        Stream::File(file, mode) => {
            if mode.is_read_only() {
                return Err(HostFault::Misused);
            }
            match write_whole(file, from) {
                Ok(_) => Ok(()),
                Err(count) => Err(move_back(file, count)),
            }
        }
        Stream::Closed | Stream::Input => Err(HostFault::Misused),
    }
}

/// Moves the place in a file back over the bytes that a call moved before it failed. What has no place, as a pipe,
/// stays as it is.
fn move_back<F: Seek>(file: &mut F, count: usize) -> HostFault
    ensures { result ≡ HostFault.Failed }
{
    if let Ok(count) = i64::try_from(count) {
        let _ = file.seek_relative(-count);
    }
    HostFault::Failed
}

/// Moves the place of a file in a binary mode.
pub fn seek<F: Seek + OpenFile>(stream: &mut Stream<F>, to: i64) -> Result<(), HostFault>
    ensures place { OnOk result (IsSought (position_of F.stream_position stream.old)
        (position_of F.stream_position stream.new) to) }
    ensures stays { OnErr result (StaysAt (position_of F.stream_position stream.old)
        (position_of F.stream_position stream.new)) }
{
    match stream {
        Stream::File(file, mode) if mode.is_binary() => match file.metadata() {
            Ok(about) => seek_file(file, about.len(), to),
            Err(_) => Err(HostFault::Failed),
        },
        _ => Err(HostFault::Misused),
    }
}

/// The place of a file in a binary mode.
pub fn tell<F: Seek>(stream: &mut Stream<F>) -> Result<u64, HostFault>
    ensures place { IfSome (position_of F.stream_position stream.old) (λ at. IfOk result (λ n. n ≡ at)) }
    ensures stays { StaysAt (position_of F.stream_position stream.old) (position_of F.stream_position stream.new) }
{
    match stream {
        Stream::File(file, mode) if mode.is_binary() => match file.stream_position() {
            Ok(place) => Ok(place),
            Err(_) => Err(HostFault::Failed),
        },
        _ => Err(HostFault::Misused),
    }
}

/// Moves the place of a file of this length.
fn seek_file<F: Seek>(file: &mut F, len: u64, to: i64) -> Result<(), HostFault>
    ensures place { OnOk result (IfSome (F.stream_position file.old)
        (λ _. F.stream_position file.new ≡ answer.place_sought len to)) }
    ensures stays { OnErr result (StaysAt (F.stream_position file.old) (F.stream_position file.new)) }
    ensures misused { result ≡ Err HostFault.Misused ↔ answer.place_sought len to ≡ None }
{
    match place_sought(len, to) {
        Some(place) => match file.seek(SeekFrom::Start(place)) {
            Ok(_) => Ok(()),
            Err(_) => Err(HostFault::Failed),
        },
        None => Err(HostFault::Misused),
    }
}

/// The place that is sought in a file of this length, where it lies inside.
fn place_sought(len: u64, to: i64) -> Option<u64>
    ensures { result ≡ answer.place_sought len to }
{
    if to >= 0 {
        let place = to.unsigned_abs();
        if place <= len { Some(place) } else { None }
    } else {
        let back = (to + 1).unsigned_abs();
        if back <= len { Some(len - back) } else { None }
    }
}
