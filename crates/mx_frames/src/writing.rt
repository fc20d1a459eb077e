//! Frames that are written.

ghost use Rattle.std.specs.Prelude.{◌≡◌, ◌++◌, OnOk};
ghost use Rattle.mx_frames.specs.Streams as spec;

use mx_text::add_decimal;
use mx_word::{Bytes, NoMemory};

/// Adds a header for a body of so many bytes.
#[tactic(auto, unfolding(crate::specs::Streams::head_for))]
fn add_head(stream: &mut Bytes, length: u64) -> Result<(), NoMemory>
    ensures { OnOk result (stream.new ≡ stream.old ++ spec.head_for length) }
{
    stream.extend(b"Content-Length: ")?;
    add_decimal(stream, length)?;
    stream.extend(b"\r\n\r\n")
}

/// Adds the frame of a body.
pub fn add_frame(stream: &mut Bytes, body: &[u8]) -> Result<(), NoMemory>
    ensures { OnOk result (stream.new ≡ stream.old ++ spec.framed body.now) }
{
    add_head(stream, body.len() as u64)?;
    stream.extend(body)
}
