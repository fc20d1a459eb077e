//! A program once more.

ghost use Rattle.std.specs.Prelude.{◌≡◌, IfOk, map, string_bytes};
ghost use Rattle.mx_record.specs.Recording.{AreAlike};
ghost use Rattle.mx_replay.specs.Programs.{NamesFile};

use mx_host::StoredFile;
use mx_replay::Program;
use mx_word::{Bytes, NoMemory, Sequence};
use std::alloc::Global;

/// The same words once more.
fn copy_words(alloc: Global, words: &[String]) -> Result<Vec<String>, NoMemory>
    ensures { IfOk result (λ copy. map string_bytes copy.items ≡ map string_bytes words.now) }
{
    let mut copy = Vec::new(alloc);
    for word in words {
        copy.push(String::from_str(alloc, word.as_str())?)?;
    }
    Ok(copy)
}

/// The same file once more.
fn copy_file(alloc: Global, file: &StoredFile) -> Result<StoredFile, NoMemory>
    ensures { IfOk result (λ copy. copy ≡ file.now) }
{
    Ok(StoredFile {
        name: Bytes::copy(alloc, file.name.as_slice())?,
        bytes: Bytes::copy(alloc, file.bytes.as_slice())?,
    })
}

/// The same files once more.
fn copy_files(alloc: Global, files: &[StoredFile]) -> Result<Sequence<StoredFile>, NoMemory>
    ensures { IfOk result (λ copy. copy ≡ files.now) }
{
    let mut copy = Sequence::new(alloc);
    for file in files {
        copy.push(copy_file(alloc, file)?)?;
    }
    Ok(copy)
}

/// A program with the same run.
#[tactic(auto, using(crate::proofs::Recording::naming))]
pub(crate) fn copy_program(alloc: Global, program: &Program) -> Result<Program, NoMemory>
    requires { NamesFile program.now }
    ensures alike { IfOk result (λ copy. AreAlike program.now copy) }
    ensures named { IfOk result NamesFile }
{
    let words = copy_words(alloc, program.words.as_slice())?;
    let input = Bytes::copy(alloc, program.input.as_slice())?;
    let files = copy_files(alloc, program.files.as_slice())?;
    Ok(Program {
        words: Sequence::from_vec(words),
        order: program.order,
        form: program.form,
        input,
        files,
    })
}
