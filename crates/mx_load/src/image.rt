//! What the items of an object set up.

ghost use Rattle.std.specs.Prelude.{◌≡◌, ◌≢◌, ◌≤◌, ◌<◌, ◌/◌, ◌^◌, ◌==◌, [], true, false, Ok, Err, OnOk, OnErr, IfErr, IsTrue, if◌then◌else◌};
ghost use Rattle.mx_mem.specs.Low.{low_pages};
ghost use Rattle.mx_mem.specs.Memory.{count_with_page, has_page, in_half, octa_at, page_count, stored_at, with_page, with_tetra};
ghost use Rattle.mx_mmo.specs.Meaning as spec;
ghost use Rattle.mx_mmo.specs.Meaning.{nothing, lined, with_globals};
ghost use Rattle.mx_load.specs.Faults.{told, given};
ghost use Rattle.mx_load.specs.Kept.{image_of, line_at};

use crate::LoadFault;
use mx_mem::{MemFault, Memory, Part};
use mx_word::{STACK_SEGMENT, Symbols};
use std::alloc::Global;
use std::collections::BTreeMap;
use std::marker::Model;

/// What the items of an object set up before a program runs: memory, the lines of its tetras, the global registers
/// and the symbols. Memory has at most 65,536 pages.
#[derive(Drop)]
pub struct Image {
    memory: Memory,
    lines: BTreeMap<u64, u32>,
    g: u8,
    globals: Vec<u64>,
    symbols: Symbols,
}

impl Model for Image {
    ghost use Rattle.std.specs.Prelude.{◌≤◌};
    ghost use Rattle.mx_mem.specs.Memory.{page_count};
    ghost use Rattle.mx_load.specs.Kept.{Kept};

    ghost Value = { Kept };

    ghost view = { λ m. record {
      memory = m.memory;
      lines = m.lines.entries;
      g = m.g;
      globals = m.globals.items;
      symbols = m.symbols;
    } };

    ghost invariant = { λ m. (page_count m.memory ≤ 65536) × (32 ≤ m.g) };
}

impl Image {
    /// The memory before the program runs, with at most 65,536 pages.
    pub fn memory(&self) -> &Memory
        ensures value { result.now ≡ self.now.memory }
        ensures few { page_count self.now.memory ≤ 65536 }
    {
        &self.memory
    }

    /// The memory before the program runs, without the rest of the image. It takes no memory.
    pub fn into_memory(self) -> Memory
        ensures value { result ≡ self.memory }
        ensures few { page_count result ≤ 65536 }
    {
        self.memory
    }

    /// The line of the source that the tetra at an address came from; 0 where none is known. An
    /// address within a tetra means that tetra.
    pub fn line_of(&self, a: u64) -> u32
        ensures { result ≡ (image_of self.now).line_of a }
    {
        line_in(&self.lines, a)
    }

    /// The number of the first global register, from 32 to 255.
    pub fn g(&self) -> u8
        ensures value { result ≡ (image_of self.now).g }
        ensures bounds { 32 ≤ result }
    {
        self.g
    }

    /// The value of the global register $k; 0 where $k is not global.
    pub fn global(&self, k: u8) -> u64
        ensures { result ≡ (image_of self.now).global k }
    {
        if k < self.g {
            return 0;
        }
        self.globals
            .get(usize::from(k - self.g))
            .copied()
            .unwrap_or(0)
    }

    /// The symbols that the loader was ended with: those of the object's trie, or of the source.
    pub fn symbols(&self) -> &Symbols
        ensures { result.now ≡ self.now.symbols }
    {
        &self.symbols
    }
}

/// What building an image needs.
impl Image {
    /// The image before the first item.
    pub(crate) fn empty(alloc: Global) -> Image
        ensures { image_of result ≡ nothing.image }
    {
        Image {
            memory: Memory::new(alloc),
            lines: BTreeMap::new(alloc),
            g: 255,
            globals: Vec::new(alloc),
            symbols: Symbols::new(alloc),
        }
    }

    /// Joins a tetra to the one that holds an address. Mostly its page was used lately.
    #[inline(always)]
    pub(crate) fn join(&mut self, a: u64, t: u32) -> Result<(), LoadFault>
        ensures { result ≢ Err LoadFault.OutOfMemory →
            given result (image_of self.new) ≡ told (spec.join (image_of self.old) a t) }
    {
        if self.join_near(a, t) {
            return Ok(());
        }
        self.join_far(a, t)
    }

    /// Joins a tetra where the page of the address was used lately; else nothing changes. Whether it did.
    #[inline(always)]
    fn join_near(&mut self, a: u64, t: u32) -> bool
        ensures joined { result ≡ true → Ok (image_of self.new) ≡ spec.join (image_of self.old) a t }
        ensures same { result ≡ false → self.new ≡ self.old }
    {
        join_if_near(&mut self.memory, a, t)
    }

    /// Joins a tetra, also where its page is a new one.
    #[inline(never)]
    fn join_far(&mut self, a: u64, t: u32) -> Result<(), LoadFault>
        ensures { result ≢ Err LoadFault.OutOfMemory →
            given result (image_of self.new) ≡ told (spec.join (image_of self.old) a t) }
    {
        if a >= STACK_SEGMENT {
            return Err(LoadFault::BadPlace);
        }
        match self.memory.xor_tetra(a, t) {
            Ok(()) => Ok(()),
            Err(MemFault::PagesFull) => Err(LoadFault::PagesFull),
            Err(MemFault::OutOfMemory) => Err(LoadFault::OutOfMemory),
        }
    }

    /// Joins an octa to the tetra that holds an address and the next one.
    pub(crate) fn join_octa(&mut self, a: u64, x: u64) -> Result<(), LoadFault>
        ensures { result ≢ Err LoadFault.OutOfMemory →
            given result (image_of self.new) ≡ told (spec.join_octa (image_of self.old) a x) }
    {
        let high = 4 * (a / 4);
        let low = high.wrapping_add(4);
        if high >= STACK_SEGMENT || low >= STACK_SEGMENT {
            return Err(LoadFault::BadPlace);
        }
        self.join(high, (x >> 32) as u32)?;
        self.join(low, (x % (1 << 32)) as u32)
    }

    /// Notes the line of the tetra at an address.
    pub(crate) fn note(&mut self, a: u64, line: u32) -> Result<(), LoadFault>
        ensures ok { let m = image_of self.old in
            OnOk result (image_of self.new ≡ record m { line_of = lined m.line_of a line }) }
        ensures err { IfErr result (λ fault. fault ≡ LoadFault.OutOfMemory) }
    {
        put_line(&mut self.lines, a, line)
    }

    /// Gives $g to $255 their values.
    pub(crate) fn set_globals(&mut self, g: u8, values: &[u64]) -> Result<(), LoadFault>
        requires { 32 ≤ g }
        ensures ok { OnOk result (image_of self.new ≡ with_globals (image_of self.old) g values.now) }
        ensures err { IfErr result (λ fault. fault ≡ LoadFault.OutOfMemory) }
    {
        self.globals.clear();
        self.globals.extend_from_slice(values)?;
        self.g = g;
        Ok(())
    }

    /// The image with these symbols.
    pub(crate) fn with_symbols(self, symbols: Symbols) -> Image
        ensures image { image_of result ≡ image_of self }
        ensures symbols { result.symbols ≡ symbols }
    {
        let mut image = self;
        image.symbols = symbols;
        image
    }
}

/// An octa that has a tetra in the half where an address lies, and 0 in the other.
#[inline(always)]
fn in_its_half(a: u64, t: u32) -> u64
    ensures { result ≡ in_half a t }
{
    if a % 8 < 4 {
        u64::from(t) << 32
    } else {
        u64::from(t)
    }
}

/// Joins a tetra to memory where the page of its address was used lately; else nothing changes. Whether it did.
#[tactic(auto, using(crate::proofs::Joined::joined))]
#[inline(always)]
fn join_if_near(memory: &mut Memory, a: u64, t: u32) -> bool
    ensures octas { IsTrue result → octa_at memory.new ≡ with_tetra (octa_at memory.old) a t }
    ensures pages { IsTrue result → has_page memory.new ≡ with_page (has_page memory.old) (a / 4096) }
    ensures count { IsTrue result → page_count memory.new ≡ count_with_page memory.old (a / 4096) }
    ensures there { IsTrue result → IsTrue (has_page memory.old (a / 4096)) }
    ensures low { IsTrue result → a < 0x6000_0000_0000_0000 }
    ensures unmade { result ≡ false → memory.new ≡ memory.old }
{
    match memory.near_octa(a) {
        Some(x) => store_near(memory, a, x ^ in_its_half(a, t)),
        None => false,
    }
}

/// An octa in place of the one that holds an address, where its page was used lately; else nothing changes. Whether
/// it did.
#[tactic(auto, using(crate::proofs::Joined::placed))]
#[inline(always)]
fn store_near(memory: &mut Memory, a: u64, x: u64) -> bool
    requires { octa_at memory.old a < 2 ^ 64 }
    ensures octas { IsTrue result → octa_at memory.new ≡ stored_at (octa_at memory.old) a x }
    ensures pages { IsTrue result → has_page memory.new ≡ with_page (has_page memory.old) (a / 4096) }
    ensures count { IsTrue result → page_count memory.new ≡ count_with_page memory.old (a / 4096) }
    ensures there { IsTrue result → IsTrue (has_page memory.old (a / 4096)) }
    ensures low { IsTrue result → a / 4096 < low_pages }
    ensures unmade { result ≡ false → memory.new ≡ memory.old }
{
    memory.store_part_if_near(a, Part::Octa, x)
}

/// The line of the tetra that holds an address.
#[tactic(auto, unfolding(crate::specs::Kept::line_at))]
fn line_in(lines: &BTreeMap<u64, u32>, a: u64) -> u32
    ensures { result ≡ line_at lines.now.entries a }
{
    lines.get(&(a / 4)).copied().unwrap_or(0)
}

/// Puts the line of the tetra that holds an address.
#[tactic(auto, unfolding(crate::specs::Kept::line_at))]
fn put_line(lines: &mut BTreeMap<u64, u32>, a: u64, line: u32) -> Result<(), LoadFault>
    ensures ok { OnOk result (line_at lines.new.entries ≡ lined (line_at lines.old.entries) a line) }
    ensures err { IfErr result (λ fault. fault ≡ LoadFault.OutOfMemory) }
{
    lines.insert(a / 4, line)?;
    Ok(())
}
