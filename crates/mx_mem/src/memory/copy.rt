//! A copy of a memory.

ghost use Rattle.std.specs.Prelude.{◌≡◌, IfOk};

use super::Memory;
use crate::page::copy::copy_pages;
use crate::places::GUESSES;
use mx_word::NoMemory;
use std::alloc::Global;
use std::array;
use std::cell::Cell;
use std::collections::BTreeMap;

impl Memory {
    /// A memory that holds the same, with pages of its own. It takes the time for as many pages.
    ///
    /// Errors: out of memory alone.
    pub fn copy(&self) -> Result<Memory, NoMemory>
        ensures { IfOk result (λ m. m ≡ self.now) }
    {
        let pages = copy_pages(self.alloc, self.pages.as_slice())?;
        let places = copy_places(&self.places)?;
        Ok(Memory {
            alloc: self.alloc,
            pages,
            places,
            code_start: self.code_start,
            code_size: self.code_size,
            code_place: self.code_place,
            code: Cell::new(0),
            guesses: array::from_fn(|_| Cell::new(0)),
        })
    }
}

/// The same places of pages once more.
fn copy_places(places: &BTreeMap<u64, usize>) -> Result<BTreeMap<u64, usize>, NoMemory>
    ensures { IfOk result (λ copy. copy.entries ≡ places.now.entries) }
{
    Ok(places.clone()?)
}
