//! The source of a view.

ghost use Rattle.std.specs.Prelude.{◌≡◌, Err};
ghost use Rattle.mx_host.specs.Keeping.{Answers};
ghost use Rattle.mx_face.specs.Pages as spec;
ghost use Rattle.mx_face.specs.Pages.{PartFaultsOnlyBy};

use crate::telling::tell;
use mx_files::{SOURCE_PIECES, read_file};
use mx_host::Host;
use mx_outcome::Outcome;
use mx_word::Bytes;
use std::alloc::Global;

/// Reads the source in the file of this name. Where it is not read, that is told on standard error.
pub fn read_source<H: Host>(alloc: Global, host: &mut H, name: &[u8]) -> Result<Bytes, Outcome>
    ensures told { Answers (H.told host.old) (H.told host.new) (Err Outcome.OutOfMemory) result
        (λ m. spec.source_in name.now m) }
    ensures causes { PartFaultsOnlyBy H.told H.faults host.old host.new result }
{
    match read_file(alloc, host, name, SOURCE_PIECES) {
        Ok(source) => Ok(source),
        Err(outcome) => Err(tell(alloc, host, outcome)),
    }
}
