//! What is in an object.

use crate::{Items, Octas, Words};
use mx_word::Bytes;

/// One item of an object. Lambda is the address where the next tetra is loaded.
#[derive(Drop)]
pub enum Item {
    /// A tetra that is loaded at lambda.
    Load(u32),
    /// Lambda becomes this address.
    Loc(u64),
    /// Lambda grows by this many bytes.
    Skip(u16),
    /// Lambda is joined, as an octa, at this address.
    FixOcta(u64),
    /// The tetra of this number is joined this many tetras before lambda.
    FixNear(u16),
    /// The tetra `word` is joined at lambda less four times a distance: the distance is that tetra,
    /// or its low 24 bits less 2^bits where its first byte is 1. `bits` is 16 or 24, and the first
    /// byte is 0 or 1.
    FixFar { bits: u8, word: u32 },
    /// The source file of this number is selected, and named where it has a name.
    File { number: u8, name: Option<Bytes> },
    /// The line of the source that the tetras from here on come from.
    Line(u16),
    /// Data of another program, whose tetras are skipped.
    Spec(u16),
    /// The beginning of an object; the first of its tetras is a time.
    Pre(Words),
    /// The values of $G to $255; $255 is the address of Main.
    Post { g: u8, values: Octas },
    /// The beginning of the symbol trie.
    Stab,
}

/// What follows `stab`: the symbol trie, and the byte place where it begins.
#[derive(Drop)]
pub struct Tail {
    pub trie: Bytes,
    pub place: u64,
}

/// A whole object: its items, of which `stab` is the last, and the trie after it.
#[derive(Drop)]
pub struct Object {
    pub items: Items,
    pub tail: Tail,
}
