//! The program of a page, and a host in memory with its files.

ghost use Rattle.std.specs.Prelude.{◌≡◌, ◌<◌, ◌≤◌, IfOk, length};
ghost use Rattle.mx_replay.specs.Programs.{NamesFile};

use mx_begin::{Form, word_bytes};
use mx_host::{MemHost, StoredFile};
use mx_inputs::Gathered;
use mx_replay::Program;
use mx_word::{Bytes, NoMemory, Sequence};
use mx_words::Order;
use std::alloc::Global;

/// The same words once more.
fn copy_words(alloc: Global, words: &[String]) -> Result<Vec<String>, NoMemory>
    ensures { IfOk result (λ copy. length copy.items ≡ length words.now) }
{
    let mut copy = Vec::new(alloc);
    for word in words {
        copy.push(String::from_str(alloc, word.as_str())?)?;
    }
    Ok(copy)
}

/// The same files once more.
fn copy_files(alloc: Global, files: &[StoredFile]) -> Result<Sequence<StoredFile>, NoMemory> {
    let mut copy = Sequence::new(alloc);
    for file in files {
        copy.push(StoredFile {
            name: Bytes::copy(alloc, file.name.as_slice())?,
            bytes: Bytes::copy(alloc, file.bytes.as_slice())?,
        })?;
    }
    Ok(copy)
}

/// The program of a page, with its source or object among its files.
pub fn program_of(
    alloc: Global,
    words: &[String],
    order: &Order,
    form: Form,
    gathered: &Gathered,
) -> Result<Program, NoMemory>
    requires file { order.now.file < length words.now }
    requires rest { order.now.rest ≤ length words.now }
    ensures { IfOk result NamesFile }
{
    let copy = copy_words(alloc, words)?;
    let mut files = copy_files(alloc, gathered.files.as_slice())?;
    files.push(StoredFile {
        name: Bytes::copy(alloc, word_bytes(words, order.file))?,
        bytes: Bytes::copy(alloc, gathered.source.as_slice())?,
    })?;
    let input = Bytes::copy(alloc, gathered.input.as_slice())?;
    Ok(Program {
        words: Sequence::from_vec(copy),
        order: *order,
        form,
        input,
        files,
    })
}

/// A host in memory with the input and the files of a page.
pub fn host_of(alloc: Global, gathered: &Gathered) -> Result<MemHost, NoMemory> {
    let input = Bytes::copy(alloc, gathered.input.as_slice())?;
    let Ok(mut host) = MemHost::new(alloc, input.into_vec(), Vec::new(alloc)) else {
        return Err(NoMemory);
    };
    for file in gathered.files.as_slice() {
        let bytes = Bytes::copy(alloc, file.bytes.as_slice())?;
        let Ok(()) = host.put_file(file.name.as_slice(), bytes.into_vec()) else {
            return Err(NoMemory);
        };
    }
    Ok(host)
}
