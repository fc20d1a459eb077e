//! The outside, as a trait.

ghost use Rattle.std.specs.Prelude.{IsTrue, ◌≡◌, ◌≢◌, ◌≤◌, ℕ, Option, Ok, Err, IfOk, IfErr, length, take, drop};
ghost use Rattle.mx_word.specs.Results.{map_ok};
ghost use Rattle.mx_host.specs.HostModel.{HostModel, tells, contents, Rose};
ghost use Rattle.mx_host.specs.Keeping.{Answers, AnswersRead, LacksCalled, ComesByFault, Keeps};
ghost use Rattle.mx_host.specs.HostAnswer.{open_answer, close_answer, read_answer, write_answer, seek_answer};
ghost use Rattle.mx_host.specs.HostAnswer.{tell_answer};

use crate::faults::{HostFault, OpenFault};
use crate::slots::Mode;

/// What is outside: files and streams, each call on a slot from 0 to 260.
///
/// Slots 0 to 255 are the program's, 256 and 257 the tool's input and output file, and 258, 259 and
/// 260 the tool's standard input, output and error.
///
/// Over a host that tells its contents each call answers and leaves what the rules say, or answers
/// that there was no memory and leaves all but the number of calls. Over every host Failed comes
/// only where the count of faults rose in that call, and over a host that tells nothing so do
/// Absent and Misused. A count at 2^64 - 1 counts as risen.
pub trait Host {
    /// The contents, where the host tells them.
    ghost told: { Self → Option HostModel };

    /// How many calls have failed; it never falls, and stays at 2^64 - 1.
    ghost faults: { Self → ℕ };

    /// Opens a file on a slot, which is one from 0 to 257 and is closed first if it is open. The place is 0.
    ///
    /// Errors: `Absent` where the mode is for reading only and no file has the name, `Failed` and `OutOfMemory`.
    /// The other modes make the file or empty it.
    fn open_file(&mut self, slot: u16, name: &[u8], mode: Mode) -> Result<(), OpenFault>
        requires { slot ≤ 257 }
        ensures answers { Answers (told self.old) (told self.new) (Err OpenFault.OutOfMemory) result
            (λ m. open_answer m slot name.now mode) }
        ensures memory { LacksCalled (told self.old) (told self.new) (Err OpenFault.OutOfMemory) result }
        ensures failed { result ≡ Err OpenFault.Failed → Rose (faults self.old) (faults self.new) }
        ensures absent { ComesByFault (told self.old) (Err OpenFault.Absent) result
            (faults self.old) (faults self.new) }
        ensures keeps { Keeps (told self.old) (told self.new) (faults self.old) (faults self.new) };

    /// Closes a slot, which is one from 0 to 260.
    ///
    /// Errors: `Misused` where it is not open, `Failed` and `OutOfMemory`.
    fn close_slot(&mut self, slot: u16) -> Result<(), HostFault>
        requires { slot ≤ 260 }
        ensures answers { Answers (told self.old) (told self.new) (Err HostFault.OutOfMemory) result
            (λ m. close_answer m slot) }
        ensures memory { LacksCalled (told self.old) (told self.new) (Err HostFault.OutOfMemory) result }
        ensures failed { result ≡ Err HostFault.Failed → Rose (faults self.old) (faults self.new) }
        ensures misused { ComesByFault (told self.old) (Err HostFault.Misused) result
            (faults self.old) (faults self.new) }
        ensures tells { tells (told self.new) ≡ tells (told self.old) }
        ensures never_falls { faults self.old ≤ faults self.new }
        ensures keeps { slot ≤ 257 → Keeps (told self.old) (told self.new) (faults self.old) (faults self.new) };

    /// Puts the next bytes of a slot, one from 0 to 260, at the front of `into`, moves the place past them and
    /// gives their number, which is below the length of `into` only at the end of the input.
    ///
    /// Errors: `Misused` where the slot is not open or is for writing only, `Failed` and `OutOfMemory`.
    fn read_slot(&mut self, slot: u16, into: &mut [u8]) -> Result<usize, HostFault>
        requires { slot ≤ 260 }
        ensures count { IfOk result (λ n. n ≤ length into.old) }
        ensures answers { AnswersRead (told self.old) (told self.new) into.new result
            (λ m. read_answer m slot (length into.old)) }
        ensures rest { IsTrue (tells (told self.old)) →
            IfOk result (λ n. drop n into.new ≡ drop n into.old) }
        ensures unread { IsTrue (tells (told self.old)) → IfErr result (λ _. into.new ≡ into.old) }
        ensures memory { LacksCalled (told self.old) (told self.new) (Err HostFault.OutOfMemory) result }
        ensures failed { result ≡ Err HostFault.Failed → Rose (faults self.old) (faults self.new) }
        ensures misused { ComesByFault (told self.old) (Err HostFault.Misused) result
            (faults self.old) (faults self.new) }
        ensures keeps { Keeps (told self.old) (told self.new) (faults self.old) (faults self.new) };

    /// Writes all these bytes at the place of a slot, one from 0 to 260, and moves the place past them; on
    /// standard output and error it appends them. A gap before the place is filled with zeros.
    ///
    /// Errors: `Misused` where the slot is not open or is for reading only, `Failed` and `OutOfMemory`.
    fn write_slot(&mut self, slot: u16, from: &[u8]) -> Result<(), HostFault>
        requires { slot ≤ 260 }
        ensures answers { Answers (told self.old) (told self.new) (Err HostFault.OutOfMemory) result
            (λ m. write_answer m slot from.now) }
        ensures memory { LacksCalled (told self.old) (told self.new) (Err HostFault.OutOfMemory) result }
        ensures failed { result ≡ Err HostFault.Failed → Rose (faults self.old) (faults self.new) }
        ensures misused { ComesByFault (told self.old) (Err HostFault.Misused) result
            (faults self.old) (faults self.new) }
        ensures keeps { Keeps (told self.old) (told self.new) (faults self.old) (faults self.new) };

    /// Moves the place of a slot, one from 0 to 260, to `to` bytes from the start where `to` is at least 0, and
    /// otherwise to length + to + 1, so that -1 means the end.
    ///
    /// Errors: `Misused` where the slot is not a file in a binary mode or the new place would lie outside 0 to
    /// the length, `Failed` and `OutOfMemory`.
    fn seek_slot(&mut self, slot: u16, to: i64) -> Result<(), HostFault>
        requires { slot ≤ 260 }
        ensures answers { Answers (told self.old) (told self.new) (Err HostFault.OutOfMemory) result
            (λ m. seek_answer m slot to) }
        ensures memory { LacksCalled (told self.old) (told self.new) (Err HostFault.OutOfMemory) result }
        ensures failed { result ≡ Err HostFault.Failed → Rose (faults self.old) (faults self.new) }
        ensures misused { ComesByFault (told self.old) (Err HostFault.Misused) result
            (faults self.old) (faults self.new) }
        ensures keeps { Keeps (told self.old) (told self.new) (faults self.old) (faults self.new) };

    /// The place of a slot, one from 0 to 260, in bytes from the start of its file.
    ///
    /// Errors: `Misused` where the slot is not a file in a binary mode, `Failed` and `OutOfMemory`.
    fn tell_slot(&mut self, slot: u16) -> Result<u64, HostFault>
        requires { slot ≤ 260 }
        ensures answers { Answers (told self.old) (told self.new) (Err HostFault.OutOfMemory) result
            (λ m. tell_answer m slot) }
        ensures memory { LacksCalled (told self.old) (told self.new) (Err HostFault.OutOfMemory) result }
        ensures failed { result ≡ Err HostFault.Failed → Rose (faults self.old) (faults self.new) }
        ensures misused { ComesByFault (told self.old) (Err HostFault.Misused) result
            (faults self.old) (faults self.new) }
        ensures keeps { Keeps (told self.old) (told self.new) (faults self.old) (faults self.new) };
}
