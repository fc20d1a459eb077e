//! A copy of a host in memory.

ghost use Rattle.std.specs.Prelude.{◌≡◌, IfOk};

use super::MemHost;
use crate::files::StoredFile;
use mx_word::{Bytes, NoMemory};
use std::alloc::Global;

impl MemHost {
    /// The same host once more, with files and streams of its own. It takes the time for as many bytes.
    ///
    /// Errors: out of memory alone.
    pub fn copy(&self) -> Result<MemHost, NoMemory>
        ensures { IfOk result (λ host. host ≡ self.now) }
    {
        Ok(MemHost {
            alloc: self.alloc,
            files: copy_files(self.alloc, self.files.as_slice())?,
            slots: Vec::from_slice(self.alloc, self.slots.as_slice())?,
            input: Vec::from_slice(self.alloc, &self.input[self.input_place..])?,
            input_place: 0,
            output: Bytes::copy(self.alloc, self.output.as_slice())?,
            errors: Bytes::copy(self.alloc, self.errors.as_slice())?,
            calls: self.calls,
            failing: Vec::from_slice(self.alloc, self.failing.as_slice())?,
        })
    }
}

/// A file with the same name and bytes.
fn copy_file(alloc: Global, file: &StoredFile) -> Result<StoredFile, NoMemory>
    ensures { IfOk result (λ copy. copy ≡ file.now) }
{
    Ok(StoredFile {
        name: Bytes::copy(alloc, file.name.as_slice())?,
        bytes: Bytes::copy(alloc, file.bytes.as_slice())?,
    })
}

/// Copies of files in the same order.
fn copy_files(alloc: Global, files: &[StoredFile]) -> Result<Vec<StoredFile>, NoMemory>
    ensures { IfOk result (λ copies. copies.items ≡ files.now) }
{
    let mut copies = Vec::with_capacity(alloc, files.len())?;
    for file in files {
        copies.push(copy_file(alloc, file)?)?;
    }
    Ok(copies)
}
