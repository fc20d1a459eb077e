//! What is read before a run: the program, its input and its files.

ghost use Rattle.std.specs.Prelude.{IfErr};
ghost use Rattle.mx_face.specs.Pages.{IsOfView, PartFaultsOnlyBy};

use crate::words::{Named, Ordered};
use mx_files::{OBJECT_PIECES, read_file};
use mx_host::{Host, StoredFile};
use mx_outcome::Outcome;
use mx_word::{Bytes, NoMemory, Sequence};
use std::alloc::Global;

/// What is read before the run: the source or object, the standard input, and the files that the program is to find.
#[derive(Drop)]
pub struct Gathered {
    pub source: Bytes,
    pub input: Bytes,
    pub files: Sequence<StoredFile>,
}

/// The word at a place, where the name of the view is 0; an empty one where there is none.
fn word_at(words: &[String], place: usize) -> &[u8] {
    match words.get(place.saturating_sub(1)) {
        Some(word) => word.as_bytes(),
        None => b"",
    }
}

/// Reads the file of this name.
fn file<H: Host>(alloc: Global, host: &mut H, name: &[u8]) -> Result<Bytes, Outcome>
    ensures { PartFaultsOnlyBy H.told H.faults host.old host.new result }
{
    read_file(alloc, host, name, OBJECT_PIECES)
}

/// Reads the file that the word at a place names, if there is one.
pub fn file_at<H: Host>(
    alloc: Global,
    host: &mut H,
    words: &[String],
    place: Option<usize>,
) -> Result<Option<Bytes>, Outcome>
    ensures { PartFaultsOnlyBy H.told H.faults host.old host.new result }
{
    match place {
        None => Ok(None),
        Some(place) => match file(alloc, host, word_at(words, place)) {
            Ok(bytes) => Ok(Some(bytes)),
            Err(outcome) => Err(outcome),
        },
    }
}

/// Adds a file under its name.
fn add(
    alloc: Global,
    files: &mut Sequence<StoredFile>,
    name: &[u8],
    bytes: Bytes,
) -> Result<(), Outcome>
    ensures { IfErr result IsOfView }
{
    let Ok(name) = Bytes::copy(alloc, name) else {
        return Err(Outcome::OutOfMemory);
    };
    match files.push(StoredFile { name, bytes }) {
        Ok(()) => Ok(()),
        Err(NoMemory) => Err(Outcome::OutOfMemory),
    }
}

/// Reads the file that the word at a place names, and adds it.
fn add_file_at<H: Host>(
    alloc: Global,
    host: &mut H,
    words: &[String],
    place: usize,
    files: &mut Sequence<StoredFile>,
) -> Result<(), Outcome>
    ensures { PartFaultsOnlyBy H.told H.faults host.old host.new result }
{
    let name = word_at(words, place);
    match file(alloc, host, name) {
        Ok(bytes) => add(alloc, files, name, bytes),
        Err(outcome) => Err(outcome),
    }
}

/// Reads the files that the words at some places name.
#[tactic(auto, using(mx_face::proofs::Parts::parts))]
fn files_at<H: Host>(
    alloc: Global,
    host: &mut H,
    words: &[String],
    places: &[usize],
) -> Result<Sequence<StoredFile>, Outcome>
    ensures { PartFaultsOnlyBy H.told H.faults host.old host.new result }
{
    let mut files = Sequence::new(alloc);
    for place in places {
        match add_file_at(alloc, host, words, *place, &mut files) {
            Ok(()) => {}
            Err(outcome) => return Err(outcome),
        }
    }
    Ok(files)
}

/// Reads the files that the program is to find.
fn gather_files<H: Host>(
    alloc: Global,
    host: &mut H,
    words: &[String],
    named: &Named,
    source: Bytes,
    input: Bytes,
) -> Result<Gathered, Outcome>
    ensures { PartFaultsOnlyBy H.told H.faults host.old host.new result }
{
    match files_at(alloc, host, words, named.files.as_slice()) {
        Ok(files) => Ok(Gathered {
            source,
            input,
            files,
        }),
        Err(outcome) => Err(outcome),
    }
}

/// The bytes of a file, or none.
fn bytes_in(alloc: Global, file: Option<Bytes>) -> Bytes {
    match file {
        Some(bytes) => bytes,
        None => Bytes::new(alloc),
    }
}

/// Reads what the words name besides the source: the input and the files.
fn gather_beside<H: Host>(
    alloc: Global,
    host: &mut H,
    words: &[String],
    named: &Named,
    source: Bytes,
) -> Result<Gathered, Outcome>
    ensures { PartFaultsOnlyBy H.told H.faults host.old host.new result }
{
    match file_at(alloc, host, words, named.input) {
        Ok(input) => gather_files(alloc, host, words, named, source, bytes_in(alloc, input)),
        Err(outcome) => Err(outcome),
    }
}

/// The name of the program's file.
fn name_of(ordered: &Ordered) -> &[u8] {
    match ordered.named.words.as_slice().get(ordered.order.file) {
        Some(word) => word.as_bytes(),
        None => b"",
    }
}

/// Reads the program, its input and the files that it is to find, as the words name them.
pub fn gather<H: Host>(
    alloc: Global,
    host: &mut H,
    words: &[String],
    ordered: &Ordered,
) -> Result<Gathered, Outcome>
    ensures { PartFaultsOnlyBy H.told H.faults host.old host.new result }
{
    match file(alloc, host, name_of(ordered)) {
        Ok(source) => gather_beside(alloc, host, words, &ordered.named, source),
        Err(outcome) => Err(outcome),
    }
}
