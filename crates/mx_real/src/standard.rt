//! The descriptors of the system that are the standard streams': 0, 1 and 2.
//!
//! The system gives a file that is opened the lowest free descriptor. Where a standard stream is closed at the start,
//! that is the stream's own, and what is written to the stream would go into the file.

ghost use Rattle.std.specs.Prelude.{◌≡◌, IfSome};
ghost use Rattle.std.specs.Fd.{file_raw_fd};
ghost use Rattle.mx_real.specs.Descriptors.{is_standard};

use std::fs::{File, OpenOptions};
use std::os::fd::AsRawFd;

/// What holds the places of the standard streams that are closed at the start: `/dev/null`, for reading at
/// descriptor 0, for writing at 1 and 2. It is kept for the whole run.
#[derive(Drop)]
pub struct StandIns {
    input: Option<File>,
    output: Option<File>,
    errors: Option<File>,
}

impl StandIns {
    /// Opens `/dev/null` in place of each standard stream that is closed. Where it cannot be opened, the stream stays
    /// closed.
    pub fn new(runtime: &HostRuntime) -> StandIns {
        let input = stand_in(runtime, 0);
        let output = stand_in(runtime, 1);
        let errors = stand_in(runtime, 2);
        StandIns {
            input,
            output,
            errors,
        }
    }
}

/// Whether the descriptor of a file is one of the standard streams': 0 to 2.
pub fn is_at_standard_stream(file: &File) -> bool
    ensures { result ≡ is_standard (file_raw_fd file.now) }
{
    file.as_raw_fd() < 3
}

/// `/dev/null` at this descriptor, for reading at 0, else for writing. Nothing where the descriptor is not the lowest
/// free one, or where `/dev/null` cannot be opened.
pub fn stand_in(runtime: &HostRuntime, descriptor: i32) -> Option<File>
    ensures { IfSome result (λ file. file_raw_fd file ≡ descriptor) }
{
    let mut options = OpenOptions::new();
    options.read(descriptor == 0);
    options.write(descriptor != 0);
    match options.open(runtime, "/dev/null") {
        Ok(file) if file.as_raw_fd() == descriptor => Some(file),
        _ => None,
    }
}
