//! Whether two sources have one image.

ghost use Rattle.std.specs.Prelude.{◌≡◌, ◌≤◌, ◌<◌, ◌%◌, ◌^◌, ℕ, true, false, None, IfOk, IfSome};
ghost use Rattle.mx_files.specs.Sources.{source_meaning};
ghost use Rattle.mx_load.specs.Kept.{image_of};
ghost use Rattle.mx_mem.specs.Memory.{octa_at};
ghost use Rattle.mx_changes.specs.Images as spec;

use mx_files::{Refusal, SourceFault, load_source};
use mx_load::Image;
use mx_mem::Memory;
use mx_word::NoMemory;
use std::alloc::Global;

/// Where memory ends.
const END: u64 = 1 << 63;

/// What two sources come to.
#[derive(Clone, Copy, Debug, PartialEq, Eq)]
pub(crate) enum Compared {
    Same,
    Different,
    FirstRefused,
    SecondRefused,
}

/// The first octa other than 0 from a place on, and its address; where there is none, 0 at the end of memory.
fn next_octa(memory: &Memory, from: u64) -> (u64, u64)
    requires { from < 2 ^ 63 }
    ensures { spec.IsNextOcta (octa_at memory.now) from result.0 result.1 }
{
    match memory.next_nonzero(from) {
        None => (END, 0),
        Some((a, x)) => { if a < END { (a, x) } else { (END, 0) } }
    }
}

/// The place of the octa after another one.
fn after(at: u64) -> u64
    ensures { result ≡ spec.after at }
{
    if at < END { at + 8 } else { END }
}

/// A place up to which two memories have the same octas from another one on; nothing where they have not the same ones.
#[tactic(auto, using(crate::proofs::SameOctas::octas))]
fn next_place(one: &Memory, other: &Memory, from: u64) -> Option<u64>
    requires { from < 2 ^ 63 }
    ensures same { IfSome result (λ next. (from < next)
        × ((q : ℕ) → from ≤ q → q < next → q % 8 ≡ 0 → octa_at one.now q ≡ octa_at other.now q)) }
    ensures different { result ≡ None → spec.AreSameOctas (octa_at one.now) (octa_at other.now) → ⊥ }
{
    let (a, x) = next_octa(one, from);
    let (b, y) = next_octa(other, from);
    if a != b {
        return None;
    }
    if x != y {
        return None;
    }
    Some(after(a))
}

/// Whether two memories have the same octas.
fn same_memory(one: &Memory, other: &Memory) -> bool
    ensures same { result ≡ true → spec.AreSameOctas (octa_at one.now) (octa_at other.now) }
    ensures different { result ≡ false → spec.AreSameOctas (octa_at one.now) (octa_at other.now) → ⊥ }
{
    let mut from = 0u64;
    while from < END {
        match next_place(one, other, from) {
            None => return false,
            Some(next) => from = next,
        }
    }
    true
}

/// Whether two images have one value in each global register.
#[tactic(auto, using(crate::proofs::SameImages::parts))]
fn same_globals(one: &Image, other: &Image) -> bool
    ensures same { result ≡ true → spec.AreSameGlobals (image_of one.now).global (image_of other.now).global }
    ensures different { result ≡ false → spec.AreSameGlobals (image_of one.now).global (image_of other.now).global → ⊥ }
{
    for k in 0..256u16 {
        if one.global(k as u8) != other.global(k as u8) {
            return false;
        }
    }
    true
}

/// Whether two images have the same memory and the same global registers.
#[tactic(auto, using(crate::proofs::SameImages::parts))]
fn same_image(one: &Image, other: &Image) -> bool
    ensures same { result ≡ true → spec.AreSame (image_of one.now) (image_of other.now) }
    ensures different { result ≡ false → spec.AreSame (image_of one.now) (image_of other.now) → ⊥ }
{
    if one.g() != other.g() {
        return false;
    }
    if !same_globals(one, other) {
        return false;
    }
    same_memory(one.memory(), other.memory())
}

/// The image of a source, or its refusal.
fn image(alloc: Global, source: &[u8]) -> Result<Result<Image, Refusal>, NoMemory>
    ensures { IfOk result (λ image. spec.meaning_in image ≡ source_meaning source.now) }
{
    match load_source(alloc, source) {
        Ok(image) => Ok(Ok(image)),
        Err(SourceFault::OutOfMemory) => Err(NoMemory),
        Err(SourceFault::Refused(refusal)) => Ok(Err(refusal)),
    }
}

/// Whether what two sources mean is the same.
fn compare_images(one: &Image, other: &Image) -> Compared
    ensures { spec.IsSame (image_of one.now) (image_of other.now) result }
{
    if same_image(one, other) {
        Compared::Same
    } else {
        Compared::Different
    }
}

/// Compares what two sources mean.
fn compare_meanings(one: &Result<Image, Refusal>, other: &Result<Image, Refusal>) -> Compared
    ensures { spec.IsCompared (spec.meaning_in one.now) (spec.meaning_in other.now) result }
{
    match one {
        Err(_) => Compared::FirstRefused,
        Ok(first) => match other {
            Err(_) => Compared::SecondRefused,
            Ok(second) => compare_images(first, second),
        },
    }
}

/// Compares what two sources come to.
pub(crate) fn compare(alloc: Global, one: &[u8], other: &[u8]) -> Result<Compared, NoMemory>
    ensures { IfOk result (λ compared. spec.Compares one.now other.now compared) }
{
    let first = image(alloc, one)?;
    let second = image(alloc, other)?;
    Ok(compare_meanings(&first, &second))
}
