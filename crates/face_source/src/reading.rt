//! The file of a view.

ghost use Rattle.std.specs.Prelude.{◌≡◌, Err};
ghost use Rattle.mx_face.specs.Pages.{PartFaultsOnlyBy, read_or_told};
ghost use Rattle.mx_files.specs.Source.{file_bytes, object_pieces};
ghost use Rattle.mx_host.specs.Keeping.{Answers};

use mx_face::tell;
use mx_files::{OBJECT_PIECES, read_file};
use mx_host::Host;
use mx_outcome::Outcome;
use mx_word::Bytes;
use std::alloc::Global;

/// Reads the source or the object in the file of this name. Where it is not read, that is told on standard error.
pub(crate) fn read_view<H: Host>(alloc: Global, host: &mut H, name: &[u8]) -> Result<Bytes, Outcome>
    ensures told { Answers (H.told host.old) (H.told host.new) (Err Outcome.OutOfMemory) result
        (λ m. read_or_told (file_bytes object_pieces name.now m)) }
    ensures causes { PartFaultsOnlyBy H.told H.faults host.old host.new result }
{
    match read_file(alloc, host, name, OBJECT_PIECES) {
        Ok(bytes) => Ok(bytes),
        Err(outcome) => Err(tell(alloc, host, outcome)),
    }
}
