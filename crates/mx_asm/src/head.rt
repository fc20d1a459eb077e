//! Where the next tetra of the object is loaded.

ghost use Rattle.std.specs.Prelude.{◌≡◌, ◌+◌, ◌<◌, ◌≤◌, ◌^◌, List, ℕ, ◌++◌, IfOk, OnOk, length, map, replicate};
ghost use Rattle.mx_mmo.specs.Reading.{tetras_of};
ghost use Rattle.mx_mmo.specs.declared.items.Item.TheVariants.{Load};
ghost use Rattle.mx_asm.specs.Emission as spec;
ghost use Rattle.mx_asm.specs.Fitting.{AreFit};

use mx_mmo::{Item, Items};
use mx_word::{Bytes, NoMemory, Value, Wait, tetra_of};
use std::alloc::Global;

/// Where the next tetra is loaded, and the line in force for it.
#[derive(Clone, Copy)]
pub(crate) struct Head {
    pub(crate) lambda: u64,
    pub(crate) line: u32,
}

impl Head {
    /// The head where the records of references to a value are; there may be none.
    pub(crate) fn at_fixes(self, value: Value, waits: &[Wait]) -> Head
        ensures { result ≡ spec.head_at_fixes self value waits.now }
    {
        match (value, waits) {
            (Value::Pure(lambda), [_, ..]) => Head {
                lambda,
                line: self.line,
            },
            _ => self,
        }
    }

    /// The head after the tetras of bytes of a line.
    pub(crate) fn at_bytes(self, line: u32, start: u64, bytes: &[u8]) -> Head
        requires { 0 < length bytes.now → start + length bytes.now ≤ 2 ^ 63 }
        ensures { result ≡ spec.head_at_bytes self line start bytes.now }
    {
        if bytes.is_empty() {
            return self;
        }
        let end = start + bytes.len() as u64;
        Head {
            lambda: round_up(end),
            line: line_number_after(short_line(line), round_up(end) / 4 - start / 4),
        }
    }

    /// Adds the items of bytes of a line that are placed from an address on.
    pub(crate) fn place(
        self,
        alloc: Global,
        items: &mut Items,
        line: u32,
        start: u64,
        bytes: &[u8],
    ) -> Result<(), NoMemory>
        requires { 0 < length bytes.now → start + length bytes.now ≤ 2 ^ 63 }
        ensures items { OnOk result (items.new ≡ items.old ++ spec.byte_items self line start bytes.now) }
        ensures fits { OnOk result (AreFit items.old → AreFit items.new) }
    {
        if bytes.is_empty() {
            return Ok(());
        }
        let covered = cover(alloc, start, bytes)?;
        locate(items, self.lambda, start)?;
        set_line(items, self.line, line)?;
        load_all(items, covered.as_slice())
    }
}

/// The multiple of 4 that is not above.
fn round_down(a: u64) -> u64
    ensures { result ≡ spec.lowered a }
{
    a / 4 * 4
}

/// The multiple of 4 that is not below.
fn round_up(a: u64) -> u64
    requires { a ≤ 2 ^ 63 }
    ensures { result ≡ spec.raised a }
{
    (a + 3) / 4 * 4
}

/// The number that names a line, or 0 where the line has no such number.
fn short_line(line: u32) -> u16
    ensures { result ≡ spec.told_line line }
{
    if line > 65535 { 0 } else { line as u16 }
}

/// The line in force after this many tetras.
fn line_number_after(line: u16, tetras: u64) -> u32
    ensures { result ≡ spec.line_number_after line tetras }
{
    if line == 0 {
        return 0;
    }
    let last = u64::from(line).saturating_add(tetras);
    last.min(0xffff_ffff) as u32
}

/// Adds where tetras are loaded, if lambda is another place.
#[tactic(auto, using(crate::proofs::Fitting::fitting))]
fn locate(items: &mut Items, lambda: u64, start: u64) -> Result<(), NoMemory>
    ensures items { OnOk result (items.new ≡ items.old ++ spec.located lambda start) }
    ensures fits { OnOk result (AreFit items.old → AreFit items.new) }
{
    if round_down(lambda) == round_down(start) {
        return Ok(());
    }
    items.push(Item::Loc(round_down(start)))
}

/// Adds the line of tetras, if another one is in force.
#[tactic(auto, using(crate::proofs::Fitting::fitting))]
fn set_line(items: &mut Items, in_force: u32, line: u32) -> Result<(), NoMemory>
    ensures items { OnOk result (items.new ≡ items.old ++ spec.lined in_force line) }
    ensures fits { OnOk result (AreFit items.old → AreFit items.new) }
{
    let told = short_line(line);
    if in_force == u32::from(told) {
        return Ok(());
    }
    items.push(Item::Line(told))
}

/// Adds the tetras of bytes.
#[tactic(auto, using(crate::proofs::Fitting::fitting))]
fn load_all(items: &mut Items, bytes: &[u8]) -> Result<(), NoMemory>
    ensures items { OnOk result (items.new ≡ items.old ++ map Load (tetras_of bytes.now)) }
    ensures fits { OnOk result (AreFit items.old → AreFit items.new) }
{
    let mut rest = bytes;
    while let [a, b, c, d, others @ ..] = rest {
        items.push(Item::Load(tetra_of([*a, *b, *c, *d])))?;
        rest = others;
    }
    Ok(())
}

/// Bytes with the zeros around them that complete their tetras.
fn cover(alloc: Global, start: u64, bytes: &[u8]) -> Result<Bytes, NoMemory>
    requires { start + length bytes.now ≤ 2 ^ 63 }
    ensures { IfOk result (λ b. b ≡ spec.covered start bytes.now) }
{
    let end = start + bytes.len() as u64;
    let mut covered = Bytes::new(alloc);
    covered.extend(zeros((start % 4) as usize))?;
    covered.extend(bytes)?;
    covered.extend(zeros(((4 - end % 4) % 4) as usize))?;
    Ok(covered)
}

/// This many zeros.
pub(crate) fn zeros(n: usize) -> &'static [u8]
    requires { n < 4 }
    ensures { result.now ≡ replicate n 0 }
{
    match n {
        0 => &[],
        1 => &[0],
        2 => &[0, 0],
        _ => &[0, 0, 0],
    }
}
