//! What was written to a part of memory.

ghost use Rattle.std.specs.Prelude.{◌≡◌, ◌≤◌, ◌++◌, [], IfOk, OnOk, OnErr, Some, length, nat_le};
ghost use Rattle.mx_watch.specs.Writings as spec;
ghost use Rattle.mx_watch.specs.Writings.{noting};

use crate::numbers::add_count;
use crate::watcher::wish_of;
use crate::{Watcher, Wish};
use mx_core::{Touch, Trace};
use mx_text::octa_hex;
use mx_word::{Bytes, NoMemory, Sequence};
use std::alloc::Global;

/// A write of a step: the address of its instruction, the address that it wrote, which is a multiple of the
/// size, and the size in bytes.
#[derive(Clone, Copy, Debug, PartialEq, Eq)]
pub struct Write {
    pub pc: u64,
    pub at: u64,
    pub size: u8,
}

/// A watcher that notes the writes of steps to a part of memory. It is full after this many of them.
#[derive(Drop)]
pub struct Writes {
    from: u64,
    to: u64,
    cap: u32,
    writes: Sequence<Write>,
    alloc: Global,
}

impl Writes {
    /// Notes no writes yet, and those to addresses from `from` on and below `to`, up to `cap`, which is at
    /// least 1.
    ///
    /// Errors: out of memory.
    pub fn new(alloc: Global, from: u64, to: u64, cap: u32) -> Result<Writes, NoMemory>
        requires { 1 ≤ cap }
        ensures { IfOk result (λ w. ⟦<Writes as Watcher>⟧.meaning w ≡ noting from to cap []) }
    {
        Ok(Writes {
            from,
            to,
            cap,
            writes: Sequence::new(alloc),
            alloc,
        })
    }

    /// Whether as many writes are noted as it is full after.
    fn is_full(&self) -> bool
        ensures { result ≡ nat_le self.now.cap (length self.now.writes) }
    {
        self.writes.as_slice().len() as u64 >= u64::from(self.cap)
    }
}

impl Watcher for Writes {
    ghost meaning = { λ w. noting w.from w.to w.cap w.writes };

    fn tell(&mut self, t: &Trace) -> Result<Wish, NoMemory> {
        note(&mut self.writes, self.from, self.to, t)?;
        Ok(wish_of(self.is_full()))
    }

    #[tactic(auto, unfolding(crate::specs::Writings::writes_after))]
    fn summary(&self) -> Result<Bytes, NoMemory> {
        let mut text = Bytes::new(self.alloc);
        add_lines(&mut text, self.writes.as_slice())?;
        Ok(text)
    }
}

/// Notes the write of a step, if it is to an address from `from` on and below `to`.
fn note(writes: &mut Sequence<Write>, from: u64, to: u64, t: &Trace) -> Result<(), NoMemory>
    ensures ok { OnOk result (writes.new ≡ writes.old ++ spec.write_of from to t.now.pc t.now.writes) }
    ensures err { OnErr result (writes.new ≡ writes.old) }
{
    match t.writes {
        Some(touch) => note_inside(writes, from, to, t.pc, touch),
        None => Ok(()),
    }
}

/// Notes a write from an address, if it is to one from `from` on and below `to`. It is a call, so that what it needs is not
/// made ready for a step that writes nothing.
#[inline(never)]
fn note_inside(
    writes: &mut Sequence<Write>,
    from: u64,
    to: u64,
    pc: u64,
    touch: Touch,
) -> Result<(), NoMemory>
    ensures ok { OnOk result (writes.new ≡ writes.old ++ spec.write_of from to pc (Some touch)) }
    ensures err { OnErr result (writes.new ≡ writes.old) }
{
    if from <= touch.at && touch.at < to {
        writes.push(Write {
            pc,
            at: touch.at,
            size: touch.size,
        })
    } else {
        Ok(())
    }
}

/// Adds a line for each write.
fn add_lines(text: &mut Bytes, writes: &[Write]) -> Result<(), NoMemory>
    ensures { OnOk result (text.new ≡ text.old ++ spec.write_lines writes.now) }
{
    for write in writes {
        add_line(text, *write)?;
    }
    Ok(())
}

/// Adds the line of a write.
fn add_line(text: &mut Bytes, write: Write) -> Result<(), NoMemory>
    ensures { OnOk result (text.new ≡ text.old ++ spec.write_line write) }
{
    text.extend(b"write ")?;
    text.extend(&octa_hex(write.pc))?;
    text.push(b' ')?;
    text.extend(&octa_hex(write.at))?;
    text.push(b' ')?;
    add_count(text, u64::from(write.size))?;
    text.push(b'\n')
}
