//! The octas of memory and of the stack area that are not 0.

ghost use Rattle.std.specs.Prelude.{◌≡◌, ◌<◌, ◌^◌, max};
ghost use Rattle.mx_mem.specs.Memory.{IsNextNonzero};
ghost use Rattle.mx_ring.specs.Stack.{windowed, stack_address, stack_octa};
ghost use Rattle.mx_core.specs.Kept.{state_of};
ghost use Rattle.mx_core.specs.Way.Search.{IsNextIndex, IsNextBetween, first_index};
ghost use Rattle.mx_core.specs.State.{octa};

use crate::Machine;
use mx_ring::{AREA_END, Ring};
use mx_word::STACK_SEGMENT;

/// How many octas the stack area has.
const AREA: u64 = 0x10_0000;

impl Machine {
    /// The least octa other than 0 whose own address is at or above `from`, which is below 2^63: its
    /// address and its value. Nothing where there is none. Those of the stack area are among them.
    pub fn next_nonzero(&self, from: u64) -> Option<(u64, u64)>
        requires { from < 2 ^ 63 }
        ensures { IsNextNonzero (octa (state_of self.now)) from result }
    {
        match self.next_below(from) {
            Some(found) => Some(found),
            None => match self.next_in_area(from) {
                Some(found) => Some(found),
                None => self.next_above(from),
            },
        }
    }

    /// The least of them below the stack area.
    fn next_below(&self, from: u64) -> Option<(u64, u64)>
        requires { from < 2 ^ 63 }
        ensures { IsNextBetween (octa (state_of self.now)) from (stack_address 0) result }
    {
        match self.memory.next_nonzero(from) {
            Some((a, x)) => {
                if a < STACK_SEGMENT {
                    Some((a, x))
                } else {
                    None
                }
            }
            None => None,
        }
    }

    /// The least of them in the stack area.
    fn next_in_area(&self, from: u64) -> Option<(u64, u64)>
        ensures { IsNextBetween (octa (state_of self.now))
            (max from (stack_address 0)) (stack_address (2 ^ 20)) result }
    {
        match next_index(&self.ring, first_index(from)) {
            Some((i, x)) => Some((STACK_SEGMENT + 8 * i, x)),
            None => None,
        }
    }

    /// The least of them above the stack area.
    fn next_above(&self, from: u64) -> Option<(u64, u64)>
        requires { from < 2 ^ 63 }
        ensures { IsNextNonzero (octa (state_of self.now)) (max from (stack_address (2 ^ 20))) result }
    {
        self.memory.next_nonzero(from.max(AREA_END))
    }
}

/// The index of the first octa of the stack area whose address is at or above another.
fn first_index(from: u64) -> u64
    ensures { result ≡ first_index from }
{
    (from.max(STACK_SEGMENT) - STACK_SEGMENT).div_ceil(8)
}

/// The first octa of the stack area other than 0 from an index on: its index and its value.
fn next_index(ring: &Ring, from: u64) -> Option<(u64, u64)>
    ensures { IsNextIndex (stack_octa (windowed ring.now)) from result }
{
    for i in from..AREA {
        let x = ring.stack_octa(i as u32);
        if x != 0 {
            return Some((i, x));
        }
    }
    None
}
