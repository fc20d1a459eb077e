//! Loading a whole list of items.

ghost use Rattle.std.specs.Prelude.{◌≡◌, ◌≢◌, Err, IfOk};
ghost use Rattle.std.specs.List.{AllByRecursion};
ghost use Rattle.mx_mmo.specs.Meaning.{meaning};
ghost use Rattle.mx_mmo.specs.Valid.{Fits};
ghost use Rattle.mx_word.specs.Results.{map_ok};
ghost use Rattle.mx_load.specs.Faults.{told};
ghost use Rattle.mx_load.specs.Kept.{image_of};

use crate::{Image, LoadFault, Loader};
use mx_mmo::Item;
use mx_word::Symbols;
use std::alloc::Global;

/// The image that items set up, with these symbols. The numbers of each item fit their fields. Only rows of tests
/// call it.
///
/// Errors: the first fault of the items, from the left, and out of memory.
pub fn load(alloc: Global, items: &[Item], symbols: Symbols) -> Result<Image, LoadFault>
    requires { AllByRecursion Fits items.now }
    ensures meaning { result ≢ Err LoadFault.OutOfMemory →
        map_ok image_of result ≡ told (meaning items.now) }
    ensures symbols { IfOk result (λ image. image.symbols ≡ symbols) }
{
    let mut loader = Loader::new(alloc);
    for item in items {
        loader.take(item)?;
    }
    loader.finish(symbols)
}
