//! Memory as pages that are found by their numbers.

ghost use Rattle.std.specs.Prelude.{◌≡◌, ◌≢◌, ◌↔◌, ◌≤◌, ◌<◌, ◌+◌, ◌*◌, ◌/◌, ◌^◌, ◌==◌, ◌++◌, ◌∷◌, [], ℕ, List, length};
ghost use Rattle.std.specs.Prelude.{false, IfSome, IsTrue, IsOk, OnOk, OnErr, if◌then◌else◌};
ghost use Rattle.std.specs.Ordering.{nat_cmp};
ghost use Rattle.std.specs.List.Sorted.{IsStrictlySortedBy};
ghost use Rattle.mx_mem.specs.Dropping.{without_page, pages_without, count_without_page};
ghost use Rattle.mx_mem.specs.Low.{low_pages};
ghost use Rattle.mx_mem.specs.Parts as spec;
ghost use Rattle.mx_mem.specs.Parts.{bytes_with_part};
ghost use Rattle.mx_mem.specs.Memory.{octa_at, byte_at, tetra_at, page_numbers, has_page, page_count};
ghost use Rattle.mx_mem.specs.Memory.{is_refused, with_page, count_with_page, stored_at, stored_bytes, in_half};
ghost use Rattle.mx_mem.specs.Memory.{with_tetra, bytes_with_tetra, IsCode, IsNextNonzero, KeepsCode};

mod copy;

use crate::dropping::take_away;
use crate::page::{LOW_PAGES, Page};
use crate::part::with_part;
use crate::places::{
    GUESSES, add, check_low_place, find_guessed_place, find_place, guess_index, next_page,
};
use crate::{MemFault, Part};
use std::alloc::Global;
use std::cell::Cell;
use std::collections::BTreeMap;
use std::marker::Model;
use std::{array, mem};

/// The bytes of a page.
const PAGE: u64 = 4096;

/// How many pages there may be: 256 MiB.
const MOST_PAGES: usize = 65536;

/// The memory of a machine below 2^63: an octa at each multiple of 8, 0 where nothing was stored. It has
/// pages of 4,096 bytes, at most 65,536 of them, which is 256 MiB. The first store in a page begins it.
#[derive(Drop)]
pub struct Memory {
    alloc: Global,
    pages: Vec<Page>,
    places: BTreeMap<u64, usize>,
    // A low page with instructions, by its first address, its size and its place; or a size of 0 and no page.
    code_start: u64,
    code_size: u64,
    code_place: usize,
    // Where pages may be that were used lately. It is tested at each use, so it may be wrong.
    code: Cell<usize>,
    guesses: [Cell<usize>; GUESSES],
}

impl Model for Memory {
    ghost use Rattle.mx_mem.specs.Memory.{Stored};

    ghost Value = { Stored };

    ghost use Rattle.mx_mem.specs.Held.{stored, Holds};

    ghost view = { stored };

    ghost invariant = { Holds };
}

#[tactic(auto, unfolding(crate::specs::Memory::octa_on, crate::specs::Memory::page_on, crate::specs::Memory::count_on))]
impl Memory {
    /// Memory in which nothing was stored, with no page. It takes no memory.
    pub fn new(alloc: Global) -> Memory
        ensures octas { octa_at result ≡ (λ _. 0) }
        ensures pages { has_page result ≡ (λ _. false) }
        ensures count { page_count result ≡ 0 }
    {
        Memory {
            alloc,
            pages: Vec::new(alloc),
            places: BTreeMap::new(alloc),
            code_start: 0,
            code_size: 0,
            code_place: 0,
            code: Cell::new(0),
            guesses: array::from_fn(|_| Cell::new(0)),
        }
    }

    /// The octa that holds an address, which is below 2^63; 0 where nothing was stored, and then its page
    /// need not be there. It takes no memory.
    #[inline(always)]
    pub fn load(&self, a: u64) -> u64
        requires { a < 2 ^ 63 }
        ensures value { result ≡ octa_at self.now a }
        ensures paged { result ≢ 0 → IsTrue (has_page self.now (a / 4096)) }
    {
        self.octa(&self.guesses[guess_index(a / PAGE)], a)
    }

    /// The tetra that holds an address, which is below 2^63; 0 where nothing was stored. It is for
    /// instructions: their page is remembered apart from those of `load`. It takes no memory.
    #[inline(always)]
    pub fn tetra(&self, a: u64) -> u32
        requires { a < 2 ^ 63 }
        ensures { result ≡ tetra_at self.now a }
    {
        match find_guessed_place(&self.pages, &self.places, &self.code, a / PAGE) {
            Some(place) => self.pages[place].tetra(a),
            None => 0,
        }
    }

    /// Keeps the place of the page where `tetra` found the last instruction, if that is a low one: `near_tetra` is
    /// quick there from now on.
    pub fn keep_code(&mut self)
        ensures { self.new.pages ≡ self.old.pages }
    {
        let place = self.code.get();
        if place < self.pages.len() {
            let number = self.pages[place].number();
            if number < LOW_PAGES {
                self.code_start = PAGE * number;
                self.code_size = PAGE;
                self.code_place = place;
            }
        }
    }

    /// The tetra that `tetra` gives, where its page is the low one whose place is kept; else nothing.
    #[inline(always)]
    pub fn near_tetra(&self, a: u64) -> Option<u32>
        ensures value { IfSome result (λ t. t ≡ tetra_at self.now a) }
        ensures low { IfSome result (λ _. a / 4096 < low_pages) }
    {
        let within = a.wrapping_sub(self.code_start);
        if within < self.code_size {
            Some(self.pages[self.code_place].tetra(within))
        } else {
            None
        }
    }

    /// The number of the instruction at an address, of the 1,024 of the page that is kept; nothing for an address that is not
    /// on it.
    #[inline(always)]
    pub fn find_kept(&self, a: u64) -> Option<u64>
        ensures code { IfSome result (λ _. IsCode self.now) }
        ensures within { IfSome result (λ k. k < 1024) }
        ensures at { IfSome result (λ k. a / 4 * 4 ≡ self.now.code_start + 4 * k) }
    {
        let within = a.wrapping_sub(self.code_start);
        if within < self.code_size {
            Some(within / 4)
        } else {
            None
        }
    }

    /// The instruction with a number of the page that is kept, whose place is given, as `tetra` gives it; 0 for the number
    /// 1,024.
    #[inline(always)]
    pub fn read_kept(&self, place: usize, k: u64) -> u32
        requires code { IsCode self.now }
        requires place { place ≡ self.now.code_place }
        requires range { k ≤ 1024 }
        ensures value { k < 1024 → result ≡ tetra_at self.now (self.now.code_start + 4 * k) }
        ensures end { k ≡ 1024 → result ≡ 0 }
    {
        self.pages[place].read_numbered_tetra(k as usize)
    }

    /// The first address of the page that is kept.
    #[inline(always)]
    pub fn kept_start(&self) -> u64
        ensures { result ≡ self.now.code_start }
    {
        self.code_start
    }

    /// The place of the page that is kept, for `read_kept`.
    #[inline(always)]
    pub fn kept_place(&self) -> usize
        ensures { result ≡ self.now.code_place }
    {
        self.code_place
    }

    /// The octa that `load` gives, where its page is a low one and is at the place that is remembered for it; else
    /// nothing.
    #[inline(always)]
    pub fn near_octa(&self, a: u64) -> Option<u64>
        ensures value { IfSome result (λ x. x ≡ octa_at self.now a) }
        ensures low { IfSome result (λ _. a / 4096 < low_pages) }
    {
        let place = self.guesses[guess_index(a / PAGE)].get();
        match check_low_place(&self.pages, &self.places, place, a / PAGE) {
            Some(place) => Some(self.pages[place].octa((a / 8 % 512) as usize)),
            None => None,
        }
    }

    /// The tetra that holds an address, where its page is a low one and is at the place that is remembered for it;
    /// else nothing. It is for data, and `near_tetra` for instructions.
    #[inline(always)]
    pub fn tetra_if_near(&self, a: u64) -> Option<u32>
        ensures value { IfSome result (λ t. t ≡ tetra_at self.now a) }
        ensures low { IfSome result (λ _. a / 4096 < low_pages) }
    {
        let place = self.guesses[guess_index(a / PAGE)].get();
        match check_low_place(&self.pages, &self.places, place, a / PAGE) {
            Some(place) => Some(self.pages[place].tetra(a)),
            None => None,
        }
    }

    /// Stores the low bytes of `x` in place of the part that holds an address, where its page is a low one and is
    /// at the place that is remembered for it; else nothing changes. Whether it did. It takes no memory.
    #[inline(always)]
    pub fn store_part_if_near(&mut self, a: u64, part: Part, x: u64) -> bool
        ensures octas { IsTrue result → octa_at self.new
            ≡ stored_at (octa_at self.old) a (spec.with_part part (octa_at self.old a) a x) }
        ensures pages { IsTrue result → has_page self.new ≡ with_page (has_page self.old) (a / 4096) }
        ensures count { IsTrue result → page_count self.new ≡ count_with_page self.old (a / 4096) }
        ensures there { IsTrue result → IsTrue (has_page self.old (a / 4096)) }
        ensures low { IsTrue result → a / 4096 < low_pages }
        ensures unmade { result ≡ false → self.new ≡ self.old }
        ensures code { KeepsCode self.old self.new }
    {
        let place = self.guesses[guess_index(a / PAGE)].get();
        match check_low_place(&self.pages, &self.places, place, a / PAGE) {
            Some(place) => {
                self.pages[place].put_part(a, part, x);
                true
            }
            None => false,
        }
    }

    /// The byte at an address, which is below 2^63; 0 where nothing was stored. It takes no memory.
    #[inline(always)]
    pub fn byte(&self, a: u64) -> u8
        requires { a < 2 ^ 63 }
        ensures { result ≡ byte_at self.now a }
    {
        (self.load(a) >> (8 * (7 - a % 8)) & 0xff) as u8
    }

    /// Stores an octa in place of the one that holds an address, which is below 2^63. Its page is there
    /// afterwards, also for an octa of 0. It takes no memory where the page is there.
    ///
    /// Errors: `PagesFull` where that would be one page too many, and out of memory; then nothing
    /// changed.
    #[inline(always)]
    pub fn store(&mut self, a: u64, x: u64) -> Result<(), MemFault>
        requires { a < 2 ^ 63 }
        ensures octas { OnOk result (octa_at self.new ≡ stored_at (octa_at self.old) a x) }
        ensures bytes { OnOk result (byte_at self.new ≡ stored_bytes (byte_at self.old) a x) }
        ensures pages { OnOk result (has_page self.new ≡ with_page (has_page self.old) (a / 4096)) }
        ensures count { OnOk result (page_count self.new ≡ count_with_page self.old (a / 4096)) }
        ensures there { IsTrue (has_page self.old (a / 4096)) → IsOk result }
        ensures full { IsTrue (is_refused self.old (a / 4096)) ↔ (result ≡ Err MemFault.PagesFull) }
        ensures err { OnErr result (self.new ≡ self.old) }
    {
        let place = find_place(&self.pages, &self.places, &self.guesses, a / PAGE);
        match place {
            Some(place) => {
                self.pages[place].put((a / 8 % 512) as usize, x);
                Ok(())
            }
            None => self.begin(a, x),
        }
    }

    /// Stores the low bytes of `x` in place of the part that holds an address, which is below 2^63. Its
    /// page is there afterwards. It takes no memory where the page is there.
    ///
    /// Errors: `PagesFull` where that would be one page too many, and out of memory; then nothing
    /// changed.
    #[inline(always)]
    pub fn store_part(&mut self, a: u64, part: Part, x: u64) -> Result<(), MemFault>
        requires { a < 2 ^ 63 }
        ensures octas { OnOk result
            (octa_at self.new ≡ stored_at (octa_at self.old) a (spec.with_part part (octa_at self.old a) a x)) }
        ensures bytes { OnOk result (byte_at self.new ≡ bytes_with_part part (byte_at self.old) a x) }
        ensures pages { OnOk result (has_page self.new ≡ with_page (has_page self.old) (a / 4096)) }
        ensures count { OnOk result (page_count self.new ≡ count_with_page self.old (a / 4096)) }
        ensures there { IsTrue (has_page self.old (a / 4096)) → IsOk result }
        ensures full { IsTrue (is_refused self.old (a / 4096)) ↔ (result ≡ Err MemFault.PagesFull) }
        ensures err { OnErr result (self.new ≡ self.old) }
    {
        self.store(a, with_part(part, self.load(a), a, x))
    }

    /// Joins a tetra by exclusive or to the one that holds an address, which is below 2^63. Its page is
    /// there afterwards, also for a tetra of 0. It takes no memory where the page is there.
    ///
    /// Errors: `PagesFull` where that would be one page too many, and out of memory; then nothing
    /// changed.
    #[inline(always)]
    pub fn xor_tetra(&mut self, a: u64, t: u32) -> Result<(), MemFault>
        requires { a < 2 ^ 63 }
        ensures octas { OnOk result (octa_at self.new ≡ with_tetra (octa_at self.old) a t) }
        ensures bytes { OnOk result (byte_at self.new ≡ bytes_with_tetra (byte_at self.old) a t) }
        ensures pages { OnOk result (has_page self.new ≡ with_page (has_page self.old) (a / 4096)) }
        ensures count { OnOk result (page_count self.new ≡ count_with_page self.old (a / 4096)) }
        ensures there { IsTrue (has_page self.old (a / 4096)) → IsOk result }
        ensures full { IsTrue (is_refused self.old (a / 4096)) ↔ (result ≡ Err MemFault.PagesFull) }
        ensures err { OnErr result (self.new ≡ self.old) }
    {
        self.store(a, self.load(a) ^ in_its_half(a, t))
    }

    /// The octa that holds an address, which is below 2^63. Its page may be where it is remembered.
    #[inline(always)]
    fn octa(&self, guess: &Cell<usize>, a: u64) -> u64
        requires { a < 2 ^ 63 }
        ensures { result ≡ octa_at self.now a }
    {
        match find_guessed_place(&self.pages, &self.places, guess, a / PAGE) {
            Some(place) => self.pages[place].octa((a / 8 % 512) as usize),
            None => 0,
        }
    }

    /// Stores an octa at an address below 2^63, whose page is not there yet.
    #[inline(never)]
    fn begin(&mut self, a: u64, x: u64) -> Result<(), MemFault>
        requires range { a < 2 ^ 63 }
        requires new { has_page self.old (a / 4096) ≡ false }
        ensures octas { OnOk result (octa_at self.new ≡ stored_at (octa_at self.old) a x) }
        ensures pages { OnOk result (has_page self.new ≡ with_page (has_page self.old) (a / 4096)) }
        ensures count { OnOk result (page_count self.new ≡ count_with_page self.old (a / 4096)) }
        ensures full { IsTrue (is_refused self.old (a / 4096)) ↔ (result ≡ Err MemFault.PagesFull) }
        ensures err { OnErr result (self.new ≡ self.old) }
    {
        if self.pages.len() == MOST_PAGES {
            return Err(MemFault::PagesFull);
        }
        match Page::with_octa(self.alloc, a / PAGE, (a / 8 % 512) as usize, x) {
            Ok(page) => add(&mut self.pages, &mut self.places, page),
            Err(_) => Err(MemFault::OutOfMemory),
        }
    }

    /// Whether the page is there that has an address, which is below 2^63. It takes no memory.
    pub fn has_page(&self, a: u64) -> bool
        requires { a < 2 ^ 63 }
        ensures { result ≡ has_page self.now (a / 4096) }
    {
        self.places.contains_key(&(a / PAGE))
    }

    /// Takes the page away that has an address, which is below 2^63: its octas are 0 then. All else stays. It takes no
    /// memory.
    pub fn drop_page(&mut self, a: u64)
        requires { a < 2 ^ 63 }
        ensures octas { octa_at self.new ≡ without_page (octa_at self.old) (a / 4096) }
        ensures pages { has_page self.new ≡ pages_without (has_page self.old) (a / 4096) }
        ensures count { page_count self.new ≡ count_without_page self.old (a / 4096) }
    {
        take_away(&mut self.pages, &mut self.places, a / PAGE);
        self.code_size = 0;
    }

    /// Exchanges what is in two memories. It takes no memory, and the same time for any two: where pages
    /// may be that were used lately is remembered apart.
    pub fn exchange(&mut self, other: &mut Memory)
        ensures here { self.new ≡ other.old }
        ensures there { other.new ≡ self.old }
    {
        mem::swap(&mut self.pages, &mut other.pages);
        mem::swap(&mut self.places, &mut other.places);
        mem::swap(&mut self.code_start, &mut other.code_start);
        mem::swap(&mut self.code_size, &mut other.code_size);
        mem::swap(&mut self.code_place, &mut other.code_place);
    }

    /// How many pages are there, at most 65,536. Each octa is below 2^64.
    pub fn pages(&self) -> u32
        ensures value { result ≡ page_count self.now }
        ensures few { result ≤ 65536 }
        ensures octas { (a : ℕ) → octa_at self.now a < 2 ^ 64 }
        ensures distinct { IsStrictlySortedBy nat_cmp (page_numbers self.now) }
    {
        self.places.len() as u32
    }

    /// The least octa other than 0 whose own address is at or above `from`, which is below 2^63: its
    /// address and its value. Nothing where there is none.
    pub fn next_nonzero(&self, from: u64) -> Option<(u64, u64)>
        requires { from < 2 ^ 63 }
        ensures { IsNextNonzero (octa_at self.now) from result }
    {
        let mut at = from.div_ceil(8);
        while let Some((number, place)) = next_page(&self.places, at / 512) {
            at = at.max(512 * number);
            if let Some((i, x)) = self.pages[place].next_nonzero((at % 512) as usize) {
                return Some((PAGE * number + 8 * i as u64, x));
            }
            at = 512 * (number + 1);
        }
        None
    }
}

/// An octa that has a tetra in the half where the address lies, and 0 in the other.
#[inline(always)]
fn in_its_half(a: u64, t: u32) -> u64
    ensures { result ≡ in_half a t }
{
    if a % 8 < 4 {
        u64::from(t) << 32
    } else {
        u64::from(t)
    }
}
