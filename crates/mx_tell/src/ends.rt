//! The end of a run in words.

use crate::names::add_place;
use mx_book::Book;
use mx_outcome::fault_name;
use mx_run::End;
use mx_text::add_decimal;
use mx_word::{Bytes, NoMemory};

/// What a machine stops for, and what to do.
fn advice(reason: u16) -> &'static str {
    match reason {
        110 => "this machine does not compute with floating-point numbers",
        111 => "the fields of the instruction are not allowed; often data ran as instructions",
        112 => "only an operating system may do this",
        113 => "an address is 2^63 or more; look at the register with the address",
        114 =>
            "there are too many hidden registers; a recursion may not end, or a subroutine returns without POP",
        115 => "there is nothing to return to; a subroutine that calls another one has to keep rJ",
        116 => "UNSAVE finds no frame; give it the address that SAVE gave",
        117 => "the handler of the trip is missing; it begins with a tetra of 0",
        118 => "the store needs a page more than there may be; a loop may fill memory",
        120 => "what RESUME would insert is left out; set the top bit of rX to go back to rW",
        121 => "wyde texts are left out; use Fgets and Fputs",
        122 => "a file trap would move more than 2^24 bytes; its operands may be wrong",
        123 => "a file trap needs a page more than there may be",
        124 => "there is no such trap; data may have run as instructions, or Halt is missing",
        _ => "see the manual",
    }
}

/// Adds why a machine stops at an address.
fn add_stopped(text: &mut Bytes, book: &Book, pc: u64, reason: u16) -> Result<(), NoMemory> {
    text.extend(b"stopped at ")?;
    add_place(text, book, pc)?;
    text.extend(b": ")?;
    add_decimal(text, u64::from(reason))?;
    text.push(b' ')?;
    text.extend(fault_name(reason).as_bytes())?;
    text.extend(b", ")?;
    text.extend(advice(reason).as_bytes())?;
    text.push(b'\n')
}

/// Adds how a run has ended: `halted with status 55`, or where and why the machine has stopped, and what to do. Of a run that goes on it
/// adds nothing.
pub fn add_end(text: &mut Bytes, book: &Book, end: End) -> Result<(), NoMemory> {
    match end {
        End::Halted(status) => {
            text.extend(b"halted with status ")?;
            add_decimal(text, u64::from(status))?;
            text.push(b'\n')
        }
        End::Stopped { pc, reason } => add_stopped(text, book, pc, reason),
        End::OutOfMemory => text.extend(b"out of memory\n"),
        End::Broke { .. } | End::Traced(_) | End::Spent => Ok(()),
    }
}
