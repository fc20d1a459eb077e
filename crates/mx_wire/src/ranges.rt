//! Places and ranges of a text.

ghost use Rattle.std.specs.Prelude.{◌≡◌, ◌++◌, OnOk};
ghost use Rattle.mx_wire.specs.Ranges as spec;

use mx_frames::column_of;
use mx_json::{add_between, add_number, add_string};
use mx_word::{Bytes, NoMemory};
use std::alloc::Global;

/// Adds the place in front of which are so many units of a line, whose number is counted from 1.
#[tactic(auto, unfolding(crate::specs::Ranges::position))]
pub fn add_position(
    text: &mut Bytes,
    front: &[u8],
    number: u32,
    column: usize,
) -> Result<(), NoMemory>
    ensures { OnOk result (text.new ≡ text.old ++ front.now ++ spec.position number column) }
{
    text.extend(front)?;
    add_number(text, b"{\"line\":", u64::from(number.saturating_sub(1)))?;
    add_number(text, b",\"character\":", column as u64)?;
    text.extend(b"}")
}

/// Adds the range between two columns of a line, whose number is counted from 1.
#[tactic(auto, unfolding(crate::specs::Ranges::columns_range))]
fn add_columns(
    text: &mut Bytes,
    front: &[u8],
    number: u32,
    start: usize,
    end: usize,
) -> Result<(), NoMemory>
    ensures { OnOk result (text.new ≡ text.old ++ front.now ++ spec.columns_range number start end) }
{
    text.extend(front)?;
    add_position(text, b"{\"start\":", number, start)?;
    add_position(text, b",\"end\":", number, end)?;
    text.extend(b"}")
}

/// The place so many bytes after another one; where the line ends before it, the end of the line.
pub fn end_of(line: &[u8], from: usize, count: usize) -> usize
    ensures { result ≡ spec.end_of line.now from count }
{
    let whole = line.len();
    if from < whole && count < whole - from {
        from + count
    } else {
        whole
    }
}

/// Adds the range of the bytes of a line from one place up to another; the number of the line is counted from 1.
pub fn add_range(
    text: &mut Bytes,
    front: &[u8],
    number: u32,
    line: &[u8],
    from: usize,
    to: usize,
) -> Result<(), NoMemory>
    ensures { OnOk result (text.new ≡ text.old ++ front.now ++ spec.range number line.now from to) }
{
    let start = column_of(line, from);
    let end = column_of(line, to);
    add_columns(text, front, number, start, end)
}

/// Adds the range of a whole line.
pub fn add_line_range(
    text: &mut Bytes,
    front: &[u8],
    number: u32,
    line: &[u8],
) -> Result<(), NoMemory>
    ensures { OnOk result (text.new ≡ text.old ++ front.now ++ spec.line_range number line.now) }
{
    add_range(text, front, number, line, 0, line.len())
}

/// Adds a range in the text of a name.
#[tactic(auto, unfolding(crate::specs::Ranges::location))]
pub fn add_location(
    alloc: Global,
    text: &mut Bytes,
    uri: &[u8],
    range: &[u8],
) -> Result<(), NoMemory>
    ensures { OnOk result (text.new ≡ text.old ++ spec.location uri.now range.now) }
{
    add_string(alloc, text, b"{\"uri\":", uri)?;
    add_between(text, b",\"range\":", range, b"}")
}
