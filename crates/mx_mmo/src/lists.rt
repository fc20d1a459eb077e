//! Lists of tetras, of octas and of items.

use crate::Item;
use mx_word::Sequence;

/// A list of tetras.
pub type Words = Sequence<u32>;

/// A list of octas.
pub type Octas = Sequence<u64>;

/// A list of the items of an object.
pub type Items = Sequence<Item>;
