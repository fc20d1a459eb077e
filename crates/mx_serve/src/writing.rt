//! What is written: the bodies of answers, each in its frame.

ghost use Rattle.std.specs.Prelude.{◌≡◌, Err, IfOk};
ghost use Rattle.mx_face.specs.Pages.{PartFaultsOnlyBy};
ghost use Rattle.mx_frames.specs.Streams.{framed};
ghost use Rattle.mx_host.specs.Keeping.{Answers};
ghost use Rattle.mx_serve.specs.Wire as spec;

use mx_frames::add_frame;
use mx_host::{Host, HostFault};
use mx_outcome::Outcome;
use mx_word::{Bytes, NoMemory};
use std::alloc::Global;

/// The slot of the tool's standard output.
const OUTPUT: u16 = 259;

/// Writes a frame to the tool's standard output.
fn put_frame<H: Host>(host: &mut H, frame: &[u8]) -> Result<(), Outcome>
    ensures told { Answers (H.told host.old) (H.told host.new) (Err Outcome.OutOfMemory) result
        (λ m. spec.frame_put frame.now m) }
    ensures causes { PartFaultsOnlyBy H.told H.faults host.old host.new result }
{
    match host.write_slot(OUTPUT, frame) {
        Ok(()) => Ok(()),
        Err(HostFault::OutOfMemory) => Err(Outcome::OutOfMemory),
        Err(HostFault::Failed) => Err(Outcome::HostFault),
        Err(HostFault::Misused) => Err(Outcome::HostFault),
    }
}

/// The frame of a body.
fn frame_of(alloc: Global, body: &[u8]) -> Result<Bytes, NoMemory>
    ensures { IfOk result (λ frame. frame ≡ framed body.now) }
{
    let mut frame = Bytes::new(alloc);
    add_frame(&mut frame, body)?;
    Ok(frame)
}

/// Writes a body in its frame.
fn put_body<H: Host>(alloc: Global, host: &mut H, body: &[u8]) -> Result<(), Outcome>
    ensures told { Answers (H.told host.old) (H.told host.new) (Err Outcome.OutOfMemory) result
        (λ m. spec.body_put body.now m) }
    ensures causes { PartFaultsOnlyBy H.told H.faults host.old host.new result }
{
    match frame_of(alloc, body) {
        Ok(frame) => put_frame(host, frame.as_slice()),
        Err(NoMemory) => Err(Outcome::OutOfMemory),
    }
}

/// Writes bodies, each in its frame, up to one that is not written.
#[tactic(auto, using(mx_face::proofs::Parts::parts), unfolding(crate::specs::Wire::bodies_put))]
pub(crate) fn put_bodies<H: Host>(
    alloc: Global,
    host: &mut H,
    bodies: &[Bytes],
) -> Result<(), Outcome>
    ensures told { Answers (H.told host.old) (H.told host.new) (Err Outcome.OutOfMemory) result
        (λ m. spec.bodies_put bodies.now m) }
    ensures causes { PartFaultsOnlyBy H.told H.faults host.old host.new result }
{
    let mut rest = bodies;
    while let [body, more @ ..] = rest {
        match put_body(alloc, host, body.as_slice()) {
            Ok(()) => rest = more,
            Err(outcome) => return Err(outcome),
        }
    }
    Ok(())
}
