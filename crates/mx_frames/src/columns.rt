//! Columns on the wire, which count units of UTF-16.

ghost use Rattle.std.specs.Prelude.{◌≡◌, ◌≤◌, length};
ghost use Rattle.mx_frames.specs.Columns as spec;

use crate::heads::front;

/// How many units of UTF-16 a byte of UTF-8 begins.
fn units(b: u8) -> usize
    ensures value { result ≡ spec.units b }
    ensures few { result ≤ 2 }
{
    if 128 <= b && b < 192 {
        0
    } else if b < 240 {
        1
    } else {
        2
    }
}

/// How many units of UTF-16 a text has.
#[tactic(auto, unfolding(crate::specs::Columns::total))]
fn total(text: &[u8]) -> usize
    ensures { result ≡ spec.total text.now }
{
    let mut count = 0usize;
    let mut rest = text;
    while let [b, more @ ..] = rest {
        count += units(*b);
        rest = more;
    }
    count
}

/// The column of a place of a line; where the place is beyond the line, that of its end.
pub fn column_of(line: &[u8], place: usize) -> usize
    ensures { result ≡ spec.column_of line.now place }
{
    total(front(line, place))
}

/// The place of a column of a line; where the column is beyond the line, the end of the line.
#[tactic(auto, unfolding(crate::specs::Columns::place_of))]
pub fn place_of(line: &[u8], column: usize) -> usize
    ensures place { result ≡ spec.place_of line.now column }
    ensures within { result ≤ length line.now }
{
    let mut place = 0usize;
    let mut left = column;
    let mut rest = line;
    while let [b, more @ ..] = rest {
        if left == 0 && units(*b) != 0 {
            return place;
        }
        left = left.saturating_sub(units(*b));
        place += 1;
        rest = more;
    }
    place
}
