//! A watcher that is full after a trace.

ghost use Rattle.test_outside.specs.Onces.{being_once};

use mx_core::Trace;
use mx_text::octa_hex;
use mx_watch::{Watcher, Wish};
use mx_word::{Bytes, NoMemory};
use std::alloc::Global;

/// It is full after a trace, and reports the address of its step.
#[derive(Drop)]
pub struct Once {
    pub pc: u64,
    pub told: bool,
    pub alloc: Global,
}

impl Watcher for Once {
    ghost meaning = { λ o. being_once o.pc o.told };

    fn tell(&mut self, t: &Trace) -> Result<Wish, NoMemory> {
        self.pc = t.pc;
        self.told = true;
        Ok(Wish::Full)
    }

    fn summary(&self) -> Result<Bytes, NoMemory> {
        let mut text = Bytes::copy(self.alloc, b"last ")?;
        text.extend(&octa_hex(self.pc))?;
        Ok(text)
    }
}
