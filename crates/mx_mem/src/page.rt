//! One page of memory.

ghost use Rattle.std.specs.Prelude.{◌≡◌, ◌≤◌, ◌<◌, ◌*◌, ◌/◌, ◌%◌, ◌^◌, ℕ, IfOk, IsTrue, replicate, slice_index, slice_index_or, slice_set};
ghost use Rattle.mx_mem.specs.Memory.{tetra_of};
ghost use Rattle.mx_mem.specs.Count.{IsNextIn};
ghost use Rattle.mx_mem.specs.Low.{IsLowNumber, low_pages};
ghost use Rattle.mx_mem.specs.Parts.{with_part};
ghost use Rattle.mx_mem.specs.Tetras.{octas_of};

pub(crate) mod copy;

use crate::Part;
use crate::part::{tetra_with, with_part};
use mx_word::NoMemory;
use std::alloc::Global;
use std::marker::Model;

/// How many octas a page has.
pub const OCTAS: usize = 512;

/// How many tetras are kept of a page: its 1,024, and one of 0 after them.
const TETRAS: usize = 1025;

/// How many pages are below Stack_Segment, which begins at 6 times 2^60: these are the low ones.
pub const LOW_PAGES: u64 = 0x6_0000_0000_0000;

/// A page of 512 octas with its number; it has the addresses from 4096 times its number on. It is one word, so that
/// a list of pages is indexed quickly.
#[derive(Drop)]
pub struct Page {
    sheet: Box<Sheet>,
}

/// What a page has: its octas are kept as tetras, the high one of each octa first, since an instruction is a tetra. A tetra
/// of 0 comes after them, so that instructions are read one after another without a test for the end.
#[derive(Drop)]
struct Sheet {
    number: u64,
    // The number where it is that of a low page, and else no number of a page.
    low: u64,
    // No octa is above this. So a page of zeros need not be searched.
    most: u64,
    tetras: [u32; TETRAS],
}

impl Model for Page {
    ghost use Rattle.std.specs.Prelude.{◌≡◌, ℕ, List, slice_index_or};
    ghost use Rattle.mx_mem.specs.Count.{AreAtMost};
    ghost use Rattle.mx_mem.specs.Low.{IsLowNumber};
    ghost use Rattle.mx_mem.specs.Tetras.{octas_of};

    ghost Value = { ℕ × List ℕ };

    ghost view = { λ p. (p.sheet.value.number, octas_of p.sheet.value.tetras) };

    ghost invariant = { λ p. AreAtMost p.sheet.value.most (octas_of p.sheet.value.tetras)
        × IsLowNumber p.sheet.value.low p.sheet.value.number
        × (slice_index_or p.sheet.value.tetras 1024 0 ≡ 0) };
}

#[tactic(auto, using(crate::proofs::Counts::counts, crate::proofs::Tetras::tetras))]
impl Page {
    /// A page of zeros.
    fn new(alloc: Global, number: u64) -> Result<Page, NoMemory>
        ensures { IfOk result (λ page. page ≡ (number, replicate 512 0)) }
    {
        let sheet = Sheet {
            number,
            low: low_number(number),
            most: 0,
            tetras: [0; TETRAS],
        };
        Ok(Page {
            sheet: Box::new(alloc, sheet)?,
        })
    }

    /// A page of zeros but for one octa, at a place below 512.
    pub fn with_octa(alloc: Global, number: u64, at: usize, x: u64) -> Result<Page, NoMemory>
        requires { at < 512 }
        ensures { IfOk result (λ page. page ≡ (number, slice_set (replicate 512 0) at x)) }
    {
        let mut page = Page::new(alloc, number)?;
        page.put(at, x);
        Ok(page)
    }

    /// The number of the page.
    #[inline(always)]
    pub fn number(&self) -> u64
        ensures { result ≡ self.now.0 }
    {
        self.sheet.number
    }

    /// Whether the page has this number, below 2^52, and is a low one.
    #[inline(always)]
    pub fn is_low(&self, number: u64) -> bool
        requires { number < 2 ^ 52 }
        ensures number { IsTrue result → self.now.0 ≡ number }
        ensures low { IsTrue result → number < low_pages }
    {
        self.sheet.low == number
    }

    /// The octa at a place below 512.
    #[inline(always)]
    pub fn octa(&self, at: usize) -> u64
        requires { at < 512 }
        ensures { result ≡ slice_index_or self.now.1 at 0 }
    {
        (u64::from(self.sheet.tetras[2 * at]) << 32) + u64::from(self.sheet.tetras[2 * at + 1])
    }

    /// The tetra that holds an address, if the page has it.
    #[inline(always)]
    pub fn tetra(&self, a: u64) -> u32
        ensures { result ≡ tetra_of (slice_index_or self.now.1 (a / 8 % 512) 0) a }
    {
        tetra_in(&self.sheet.tetras, a)
    }

    /// The tetra with a number below 1,024; 0 for the number 1,024.
    #[inline(always)]
    pub fn read_numbered_tetra(&self, k: usize) -> u32
        requires { k ≤ 1024 }
        ensures value { k < 1024 → result ≡ tetra_of (slice_index_or self.now.1 (4 * k / 8 % 512) 0) (4 * k) }
        ensures end { k ≡ 1024 → result ≡ 0 }
    {
        read_numbered(&self.sheet.tetras, k)
    }

    /// Puts an octa at a place below 512.
    #[inline(always)]
    pub fn put(&mut self, at: usize, x: u64)
        requires { at < 512 }
        ensures { self.new ≡ (self.old.0, slice_set self.old.1 at x) }
    {
        put_octa(&mut self.sheet.tetras, at, x);
        self.sheet.most |= x;
    }

    /// Puts a tetra in place of the one that holds an address, if the page has it.
    #[inline(always)]
    pub fn put_tetra(&mut self, a: u64, t: u32)
        ensures { self.new ≡ (
          self.old.0,
          slice_set self.old.1 (a / 8 % 512)
              (with_part Part.Tetra (slice_index_or self.old.1 (a / 8 % 512) 0) a t),
        ) }
    {
        put_tetra_in(&mut self.sheet.tetras, a, t);
        know_tetras(self.sheet.tetras.as_slice());
        self.sheet.most = u64::MAX;
    }

    /// Puts the low bytes of `x` in place of the part that holds an address, if the page has it. A part of a tetra
    /// is put into the tetra alone.
    #[inline(always)]
    pub fn put_part(&mut self, a: u64, part: Part, x: u64)
        ensures { self.new ≡ (
          self.old.0,
          slice_set self.old.1 (a / 8 % 512) (with_part part (slice_index_or self.old.1 (a / 8 % 512) 0) a x),
        ) }
    {
        match part {
            Part::Octa => {
                let at = (a / 8 % 512) as usize;
                self.put(at, with_part(part, self.octa(at), a, x));
            }
            _ => {
                let t = self.tetra(a);
                self.put_tetra(a, tetra_with(part, t, a, x));
            }
        }
    }

    /// The first octa other than 0 from a place on, which is at most 512, and its place.
    pub fn next_nonzero(&self, from: usize) -> Option<(usize, u64)>
        requires { from ≤ 512 }
        ensures { IsNextIn self.now.1 from result }
    {
        if self.sheet.most == 0 {
            return None;
        }
        for at in from..OCTAS {
            let x = self.octa(at);
            if x != 0 {
                return Some((at, x));
            }
        }
        None
    }
}

/// The number of a page as it is kept for a quick test: itself, or for a page that is not low 2^64 - 1.
fn low_number(number: u64) -> u64
    ensures { IsLowNumber result number }
{
    if number < LOW_PAGES { number } else { u64::MAX }
}

/// Of the tetras of a page, the one that holds an address.
#[inline(always)]
fn tetra_in(tetras: &[u32; TETRAS], a: u64) -> u32
    ensures { result ≡ tetra_of (slice_index_or (octas_of tetras.now) (a / 8 % 512) 0) a }
{
    know_tetras(tetras.as_slice());
    tetras[(a / 4 % 1024) as usize]
}

/// Of the tetras of a page, the one with a number, at most 1,024.
#[inline(always)]
fn read_numbered(tetras: &[u32; TETRAS], k: usize) -> u32
    requires { k ≤ 1024 }
    ensures value { k < 1024 → result ≡ tetra_of (slice_index_or (octas_of tetras.now) (4 * k / 8 % 512) 0) (4 * k) }
    ensures end { k ≡ 1024 → result ≡ slice_index_or tetras.now 1024 0 }
{
    know_tetras(tetras.as_slice());
    tetras[k]
}

/// States that each item of a slice of tetras is below 2^32. It does nothing.
#[inline(always)]
fn know_tetras(tetras: &[u32])
    ensures { (i : ℕ) → slice_index tetras.now i < 2 ^ 32 }
{
    let _tetras = tetras;
}

/// A tetra in place of the one of a page that holds an address.
#[inline(always)]
fn put_tetra_in(tetras: &mut [u32; TETRAS], a: u64, t: u32)
    ensures octas { octas_of tetras.new ≡ slice_set (octas_of tetras.old) (a / 8 % 512)
        (with_part Part.Tetra (slice_index_or (octas_of tetras.old) (a / 8 % 512) 0) a t) }
    ensures last { slice_index_or tetras.new 1024 0 ≡ slice_index_or tetras.old 1024 0 }
{
    know_tetras(tetras.as_slice());
    tetras[(a / 4 % 1024) as usize] = t;
}

/// An octa in place of the two tetras at a place below 512.
#[inline(always)]
fn put_octa(tetras: &mut [u32; TETRAS], at: usize, x: u64)
    requires { at < 512 }
    ensures octas { octas_of tetras.new ≡ slice_set (octas_of tetras.old) at x }
    ensures last { slice_index_or tetras.new 1024 0 ≡ slice_index_or tetras.old 1024 0 }
{
    tetras[2 * at] = (x / (1 << 32)) as u32;
    tetras[2 * at + 1] = (x % (1 << 32)) as u32;
}
