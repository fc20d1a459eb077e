//! How the real host opens a file.

ghost use Rattle.std.specs.Prelude.{◌≡◌, IfOk};
ghost use Rattle.mx_real.specs.Opening.{IsOpenedIn, options_of};

use crate::standard::is_at_standard_stream;
use crate::streams::Stream;
use mx_host::{Mode, OpenFault};
use std::fs::{File, OpenOptions};
use std::io::ErrorKind;

/// Opens a file. A name that is no UTF-8 text is the name of no file, and none can be made with it. A file that the
/// system puts in the place of a closed standard stream is closed at once, and that is `Failed`.
pub fn open(runtime: &HostRuntime, name: &[u8], mode: Mode) -> Result<Stream<File>, OpenFault>
    ensures { IfOk result (IsOpenedIn mode) }
{
    let Ok(path) = str::from_utf8(name) else {
        return Err(refuse_missing_file(mode));
    };
    match options(mode).open(runtime, path) {
        Ok(file) if is_at_standard_stream(&file) => Err(OpenFault::Failed),
        Ok(file) => Ok(Stream::File(file, mode)),
        Err(e) => match e.kind() {
            ErrorKind::NotFound => Err(refuse_missing_file(mode)),
            ErrorKind::OutOfMemory => Err(OpenFault::OutOfMemory),
            _ => Err(OpenFault::Failed),
        },
    }
}

/// The fault where there is no file of a name: it is absent where it is only to be read, and else it cannot be made.
fn refuse_missing_file(mode: Mode) -> OpenFault {
    if mode.is_read_only() {
        OpenFault::Absent
    } else {
        OpenFault::Failed
    }
}

/// What the system is asked for in a mode.
fn options(mode: Mode) -> OpenOptions
    ensures { result ≡ options_of mode }
{
    let mut options = OpenOptions::new();
    options.read(!mode.is_write_only());
    options.write(!mode.is_read_only());
    options.create(!mode.is_read_only());
    options.truncate(!mode.is_read_only());
    options
}
