//! Writing an object.

ghost use Rattle.std.specs.Prelude.{◌≡◌, [], ◌++◌, ◌+◌, ◌*◌, ◌/◌, ◌%◌, ◌<◌, ◌≤◌, ◌^◌, length, take, IfOk, IfErr, OnOk};
ghost use Rattle.std.specs.Prelude.{OnErr, ℕ, List};
ghost use Rattle.mx_mmo.specs.Object.{IsObject};
ghost use Rattle.mx_mmo.specs.Spelling.{bytes_of, ending, written};
ghost use Rattle.mx_mmo.specs.Valid.{Fits, Valid};
ghost use Rattle.mx_mmo.specs.declared.items.Item.{Item};

use crate::spell::{append_end, append_item};
use crate::{Item, MmoFault};
use mx_word::Bytes;
use std::alloc::Global;
use std::marker::Model;

/// Writes an object, item by item. Contracts see it as the bytes of the items that were put so far.
#[derive(Drop)]
pub struct Writer {
    bytes: Vec<u8>,
}

impl Model for Writer {
    ghost use Rattle.std.specs.Prelude.{List, ℕ};

    ghost Value = { List ℕ };

    ghost view = { λ w. w.bytes.items };
}

impl Writer {
    /// A writer that nothing was put into. It takes no memory.
    pub fn new(alloc: Global) -> Writer
        ensures { result ≡ [] }
    {
        Writer {
            bytes: Vec::new(alloc),
        }
    }

    /// Puts an item after those that were put. Its numbers fit their fields: so does each item that a reader
    /// gives or an assembler makes (`Fits` in `specs/Valid.antt`). It refuses only where it is out of memory, and
    /// then nothing changed.
    pub fn put(&mut self, item: &Item) -> Result<(), MmoFault>
        requires { Fits item.now }
        ensures ok { OnOk result (self.new ≡ self.old ++ bytes_of item.now) }
        ensures err { OnErr result (self.new ≡ self.old) }
        ensures only_no_memory { IfErr result (λ e. e ≡ MmoFault.OutOfMemory) }
    {
        let before = self.bytes.len();
        match append_item(&mut self.bytes, item) {
            Ok(()) => Ok(()),
            Err(_) => {
                self.bytes.truncate(before);
                Err(MmoFault::OutOfMemory)
            }
        }
    }

    /// The bytes of the object: what was put, the trie, and the lopcode `end` with the number of the trie's
    /// tetras. The trie is whole tetras, at most 65,535 of them. It refuses only where it is out of memory.
    pub fn end(self, trie: &[u8]) -> Result<Bytes, MmoFault>
        requires whole { length trie.now % 4 ≡ 0 }
        requires most { length trie.now / 4 < 2 ^ 16 }
        ensures bytes { IfOk result (λ bytes. bytes ≡ self ++ ending trie.now) }
        // What is written from valid items is an object of these items and this trie.
        ensures object { IfOk result (λ bytes. (items : List Item) → Valid items →
            self ≡ written items → IsObject bytes items trie.now) }
        ensures only_no_memory { IfErr result (λ e. e ≡ MmoFault.OutOfMemory) }
    {
        let mut bytes = self.bytes;
        append_end(&mut bytes, trie)?;
        Ok(Bytes::from_vec(bytes))
    }

    /// The bytes of the items that were put, without a trie and an end: the front of an object.
    pub fn so_far(self) -> Bytes
        ensures { result ≡ self }
    {
        Bytes::from_vec(self.bytes)
    }
}
