//! A program that is run over a host in memory.

ghost use Rattle.std.specs.Prelude.{◌≡◌, [], IfOk, OnOk};
ghost use Rattle.mx_host.specs.HostAnswer.{with_file};
ghost use Rattle.mx_host.specs.HostModel.{start_model};
ghost use Rattle.mx_replay.specs.Programs.{host_of};

use mx_begin::Form;
use mx_host::{MemHost, StoredFile};
use mx_word::{Bytes, NoMemory, Sequence};
use mx_words::Order;
use std::alloc::Global;

/// A program with all that its run depends on.
#[derive(Drop)]
pub struct Program {
    /// The words of the command line: among them the name of the source or object, and the arguments.
    pub words: Sequence<String>,
    /// What the words order: which of them names the file, where the arguments begin, and the ring.
    pub order: Order,
    /// Whether the file is a source or an object.
    pub form: Form,
    /// The standard input of the program.
    pub input: Bytes,
    /// The files that there are, among them the source or object.
    pub files: Sequence<StoredFile>,
}

/// A copy of bytes as a vector.
fn to_vec(alloc: Global, bytes: &Bytes) -> Result<Vec<u8>, NoMemory>
    ensures { IfOk result (λ v. v.items ≡ bytes.now) }
{
    Ok(Vec::from_slice(alloc, bytes.as_slice())?)
}

/// Puts a file on a host.
fn put(alloc: Global, host: &mut MemHost, file: &StoredFile) -> Result<(), NoMemory>
    ensures { OnOk result (host.new ≡ with_file host.old file.now.name file.now.bytes) }
{
    let bytes = to_vec(alloc, &file.bytes)?;
    match host.put_file(file.name.as_slice(), bytes) {
        Ok(()) => Ok(()),
        Err(_) => Err(NoMemory),
    }
}

/// A host with this standard input and no files.
fn host_with(alloc: Global, input: &Bytes) -> Result<MemHost, NoMemory>
    ensures { IfOk result (λ h. h ≡ start_model input.now []) }
{
    let input = to_vec(alloc, input)?;
    match MemHost::new(alloc, input, Vec::new(alloc)) {
        Ok(host) => Ok(host),
        Err(_) => Err(NoMemory),
    }
}

/// The host of a program before it begins.
pub(crate) fn host_of(alloc: Global, program: &Program) -> Result<MemHost, NoMemory>
    ensures { IfOk result (λ h. h ≡ host_of program.now) }
{
    let mut host = host_with(alloc, &program.input)?;
    for file in program.files.as_slice() {
        put(alloc, &mut host, file)?;
    }
    Ok(host)
}
