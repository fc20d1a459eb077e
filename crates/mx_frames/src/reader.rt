//! Frames that are read byte by byte.

ghost use Rattle.std.specs.Prelude.{◌≡◌, ◌++◌, IfOk, OnOk};
ghost use Rattle.mx_frames.specs.Streams as spec;

use crate::heads::{body_length, ends_head};
use mx_word::{Bytes, NoMemory, Sequence};
use std::alloc::Global;

/// How many bytes a header has before it is taken for none.
const HEAD_LIMIT: usize = 4096;

/// A frame: its header, with the empty line that ends it, and its body.
#[derive(Drop)]
pub struct Frame {
    pub head: Bytes,
    pub body: Bytes,
}

/// A list of frames.
pub type Frames = Sequence<Frame>;

/// What has come of the next frame: bytes of its header; its header, how many bytes its body has, and bytes of the body; or what is no
/// header, after which nothing is read.
#[derive(Drop)]
pub enum Coming {
    Head(Bytes),
    Body(Bytes, u64, Bytes),
    Faulty,
}

/// What has come at the front of a stream.
pub fn start(alloc: Global) -> Coming
    ensures { result ≡ spec.nothing }
{
    Coming::Head(Bytes::new(alloc))
}

/// What has come with a header that has ended.
fn body_after(alloc: Global, head: Bytes, length: Option<u64>) -> Coming
    ensures { result ≡ spec.body_after head length }
{
    match length {
        None => Coming::Faulty,
        Some(length) => Coming::Body(head, length, Bytes::new(alloc)),
    }
}

/// What has come with a header of these bytes, which may have ended.
fn head_after(alloc: Global, head: Bytes) -> Coming
    ensures { result ≡ spec.head_after head }
{
    if ends_head(head.as_slice()) {
        let length = body_length(head.as_slice());
        return body_after(alloc, head, length);
    }
    if head.as_slice().len() < HEAD_LIMIT {
        Coming::Head(head)
    } else {
        Coming::Faulty
    }
}

/// What has come with one more byte.
fn with_byte(alloc: Global, before: Coming, b: u8) -> Result<Coming, NoMemory>
    ensures { IfOk result (λ coming. coming ≡ spec.with_byte before b) }
{
    match before {
        Coming::Head(mut head) => {
            head.push(b)?;
            Ok(head_after(alloc, head))
        }
        Coming::Body(head, length, mut body) => {
            body.push(b)?;
            Ok(Coming::Body(head, length, body))
        }
        Coming::Faulty => Ok(Coming::Faulty),
    }
}

/// Adds the frame whose body has come, if it is whole, and gives what has come of the next one.
fn settle_body(
    alloc: Global,
    frames: &mut Frames,
    head: Bytes,
    length: u64,
    body: Bytes,
) -> Result<Coming, NoMemory>
    ensures frames { OnOk result (frames.new ≡ frames.old ++ (spec.settled_body head length body).frames) }
    ensures coming { IfOk result (λ coming. coming ≡ (spec.settled_body head length body).coming) }
{
    if body.as_slice().len() as u64 != length {
        return Ok(Coming::Body(head, length, body));
    }
    frames.push(Frame { head, body })?;
    Ok(start(alloc))
}

/// Adds the frame that has come whole, if one has, and gives what has come of the next one.
fn settle(alloc: Global, frames: &mut Frames, before: Coming) -> Result<Coming, NoMemory>
    ensures frames { OnOk result (frames.new ≡ frames.old ++ (spec.settled before).frames) }
    ensures coming { IfOk result (λ coming. coming ≡ (spec.settled before).coming) }
{
    match before {
        Coming::Head(head) => Ok(Coming::Head(head)),
        Coming::Body(head, length, body) => settle_body(alloc, frames, head, length, body),
        Coming::Faulty => Ok(Coming::Faulty),
    }
}

/// Reads a piece of a stream, of whose next frame this has come: adds the frames that are whole, and gives what has come of the next one.
#[tactic(auto, using(crate::proofs::Turns::turns), unfolding(crate::specs::Streams::reads))]
pub fn feed(
    alloc: Global,
    frames: &mut Frames,
    before: Coming,
    piece: &[u8],
) -> Result<Coming, NoMemory>
    ensures frames { OnOk result (frames.new ≡ frames.old ++ (spec.reads before piece.now).frames) }
    ensures coming { IfOk result (λ coming. coming ≡ (spec.reads before piece.now).coming) }
{
    let mut coming = before;
    let mut rest = piece;
    while let [b, more @ ..] = rest {
        let next = with_byte(alloc, coming, *b)?;
        coming = settle(alloc, frames, next)?;
        rest = more;
    }
    Ok(coming)
}

/// How many bytes may be asked for, so that none is after the frame that comes.
pub fn wanted(coming: &Coming) -> u64
    ensures { result ≡ spec.wanted coming.now }
{
    match coming {
        Coming::Head(_) => 1,
        Coming::Body(_, length, body) => length.saturating_sub(body.as_slice().len() as u64),
        Coming::Faulty => 0,
    }
}
