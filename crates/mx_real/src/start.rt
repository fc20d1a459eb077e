//! The slots as a program starts with them.

ghost use Rattle.std.specs.Prelude.{◌≡◌, ◌++◌, IfSome, OnSome, map, replicate};
ghost use Rattle.mx_host.specs.HostModel.{standard_streams, start_slots};
ghost use Rattle.mx_real.specs.Streams.{stream_of};

use crate::streams::Stream;
use std::alloc::Global;

/// The program's first three slots and the tool's last three lead to the standard streams. Nothing where there is no
/// memory.
pub fn streams_at_start<F: Drop>(alloc: Global) -> Option<Vec<Stream<F>>>
    ensures { IfSome result (λ streams. streams.items ≡ map stream_of start_slots) }
{
    let mut streams = Vec::new(alloc);
    add_standard(&mut streams)?;
    add_closed(&mut streams, 255)?;
    add_standard(&mut streams)?;
    Some(streams)
}

/// Adds the three standard streams.
fn add_standard<F: Drop>(streams: &mut Vec<Stream<F>>) -> Option<()>
    ensures { OnSome result (streams.new.items ≡ streams.old.items ++ map stream_of standard_streams) }
{
    streams.push(Stream::Input).ok()?;
    streams.push(Stream::Output).ok()?;
    streams.push(Stream::Errors).ok()
}

/// Adds this many closed slots.
fn add_closed<F: Drop>(streams: &mut Vec<Stream<F>>, count: usize) -> Option<()>
    ensures { OnSome result (streams.new.items ≡ streams.old.items ++ replicate count Stream.Closed) }
{
    for _at in 0..count {
        streams.push(Stream::Closed).ok()?;
    }
    Some(())
}
