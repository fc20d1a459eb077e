//! The global registers of an image.

ghost use Rattle.std.specs.Prelude.{◌≡◌, ◌+◌, IfOk, length};
ghost use Rattle.mx_load.specs.Kept.{image_of};
ghost use Rattle.mx_start.specs.Images.{globals_of};

use mx_load::Image;
use mx_mmo::Octas;
use mx_word::NoMemory;
use std::alloc::Global;

/// The values of $g to $255 in an image.
///
/// Errors: out of memory.
#[tactic(auto, using(crate::proofs::BuiltGlobals::growing))]
pub fn collect_globals(alloc: Global, image: &Image) -> Result<Octas, NoMemory>
    ensures value { IfOk result (λ octas. octas ≡ globals_of (image_of image.now)) }
    ensures count { IfOk result (λ octas. length octas + image.now.g ≡ 256) }
{
    let mut globals = Octas::new(alloc);
    for k in usize::from(image.g())..256 {
        globals.push(image.global(k as u8))?;
    }
    Ok(globals)
}
