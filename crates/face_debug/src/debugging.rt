//! What the words after `debug` order.

ghost use Rattle.std.specs.Prelude.{◌≡◌, ◌<◌, ◌≤◌, IfErr, IfOk, length};
ghost use Rattle.mx_face.specs.Pages.{FaultsOnlyBy, IsOfView};
ghost use Rattle.mx_replay.specs.Programs.{NamesFile};

use crate::talking::talk;
use face_check::{Form as FaultForm, check};
use mx_begin::{Form, word_bytes};
use mx_book::Book;
use mx_debug::Session;
use mx_face::tell;
use mx_host::{Host, StoredFile};
use mx_inputs::{Gathered, Ordered, OwnOption, Unread, file_at, gather, read_order};
use mx_load::ObjectFault;
use mx_object::is_object;
use mx_outcome::Outcome;
use mx_replay::Program;
use mx_word::{Bytes, NoMemory, Sequence};
use mx_words::Order;
use std::alloc::Global;

/// What is known by name of the source or the object that bytes are.
fn book_of(alloc: Global, name: &[u8], bytes: &[u8]) -> Result<Book, Outcome>
    ensures { IfErr result IsOfView }
{
    if !is_object(bytes) {
        return match Book::of_source(alloc, name, bytes) {
            Ok(book) => Ok(book),
            Err(NoMemory) => Err(Outcome::OutOfMemory),
        };
    }
    match Book::of_object(alloc, name, bytes) {
        Ok(book) => Ok(book),
        Err(ObjectFault::Bad { place, fault }) => Err(Outcome::BadObject { place, fault }),
        Err(ObjectFault::OutOfMemory) => Err(Outcome::OutOfMemory),
    }
}

/// Whether bytes are a source or an object.
fn form_of(bytes: &[u8]) -> Form {
    if is_object(bytes) {
        Form::Object
    } else {
        Form::Source
    }
}

/// The program with all that its run depends on.
fn program_of(
    alloc: Global,
    words: Vec<String>,
    order: Order,
    source: Bytes,
    input: Bytes,
    files: Sequence<StoredFile>,
) -> Result<Program, NoMemory>
    requires file { order.file < length words.items }
    requires rest { order.rest ≤ length words.items }
    ensures { IfOk result NamesFile }
{
    let form = form_of(source.as_slice());
    let name = Bytes::copy(alloc, word_bytes(words.as_slice(), order.file))?;
    let mut files = files;
    files.push(StoredFile {
        name,
        bytes: source,
    })?;
    Ok(Program {
        words: Sequence::from_vec(words),
        order,
        form,
        input,
        files,
    })
}

/// An outcome of a run over a host in memory, which has the file and does not fail.
fn of_memory(outcome: Outcome) -> Outcome
    ensures { IsOfView result }
{
    match outcome {
        Outcome::HostFault | Outcome::NoFile => Outcome::OutOfMemory,
        outcome => outcome,
    }
}

/// A name of a file without the folders in front of it.
fn base_name(name: &[u8]) -> &[u8] {
    let count = name.iter().rev().take_while(|b| **b != b'/').count();
    name.split_at(name.len().saturating_sub(count)).1
}

/// The session of what was read, at its start, or the outcome where the source or the object is refused.
pub fn begin_session(
    alloc: Global,
    ordered: Ordered,
    gathered: Gathered,
) -> Result<Session, Outcome>
    requires file { ordered.order.file < length ordered.named.words.items }
    requires rest { ordered.order.rest ≤ length ordered.named.words.items }
    ensures { IfErr result IsOfView }
{
    let Ordered { named, order } = ordered;
    let Gathered {
        source,
        input,
        files,
    } = gathered;
    let words = named.words;
    let steps = order.steps;
    let name = base_name(word_bytes(words.as_slice(), order.file));
    let book = match book_of(alloc, name, source.as_slice()) {
        Ok(book) => book,
        Err(outcome) => return Err(outcome),
    };
    let Ok(program) = program_of(alloc, words, order, source, input, files) else {
        return Err(Outcome::OutOfMemory);
    };
    match Session::begin(alloc, program, book, steps) {
        Ok(session) => Ok(session),
        Err(outcome) => Err(of_memory(outcome)),
    }
}

/// Tells why there is no session: of a source that is refused all faults, as `check` tells them.
fn refuse<H: Host>(alloc: Global, host: &mut H, name: &[u8], outcome: Outcome) -> Outcome
    requires { IsOfView outcome }
    ensures { FaultsOnlyBy H.told H.faults host.old host.new result }
{
    match outcome {
        Outcome::Refused { .. } => check(alloc, host, FaultForm::Text, true, name),
        outcome => tell(alloc, host, outcome),
    }
}

/// Begins the session of what was read, and answers its lines.
fn debug_gathered<H: Host>(
    alloc: Global,
    host: &mut H,
    ordered: Ordered,
    gathered: Gathered,
    lines: &Option<Bytes>,
    has_prompt: bool,
) -> Outcome
    requires file { ordered.order.file < length ordered.named.words.items }
    requires rest { ordered.order.rest ≤ length ordered.named.words.items }
    ensures { FaultsOnlyBy H.told H.faults host.old host.new result }
{
    let name = Bytes::copy(
        alloc,
        word_bytes(ordered.named.words.as_slice(), ordered.order.file),
    );
    let Ok(name) = name else {
        return tell(alloc, host, Outcome::OutOfMemory);
    };
    match begin_session(alloc, ordered, gathered) {
        Ok(mut session) => talk(alloc, host, &mut session, lines, has_prompt),
        Err(outcome) => refuse(alloc, host, name.as_slice(), outcome),
    }
}

/// Reads the lines, if the words name a file with some, and begins the session.
fn debug_lines<H: Host>(
    alloc: Global,
    host: &mut H,
    words: &[String],
    ordered: Ordered,
    gathered: Gathered,
    has_prompt: bool,
) -> Outcome
    requires file { ordered.order.file < length ordered.named.words.items }
    requires rest { ordered.order.rest ≤ length ordered.named.words.items }
    ensures { FaultsOnlyBy H.told H.faults host.old host.new result }
{
    match file_at(alloc, host, words, ordered.named.own) {
        Ok(lines) => debug_gathered(alloc, host, ordered, gathered, &lines, has_prompt),
        Err(outcome) => tell(alloc, host, outcome),
    }
}

/// Reads what the words name, and begins the session.
fn debug_ordered<H: Host>(
    alloc: Global,
    host: &mut H,
    words: &[String],
    ordered: Ordered,
    has_prompt: bool,
) -> Outcome
    requires file { ordered.order.file < length ordered.named.words.items }
    requires rest { ordered.order.rest ≤ length ordered.named.words.items }
    ensures { FaultsOnlyBy H.told H.faults host.old host.new result }
{
    match gather(alloc, host, words, &ordered) {
        Ok(gathered) => debug_lines(alloc, host, words, ordered, gathered, has_prompt),
        Err(outcome) => tell(alloc, host, outcome),
    }
}

/// Does what the words after `debug` order: the lines of standard input, or of the file that `--command` names, are answered, each
/// before the next one is read, after a prompt where one is wanted. It answers the outcome: that the session was left, or why there
/// was none.
pub fn debug<H: Host>(alloc: Global, host: &mut H, words: &[String], has_prompt: bool) -> Outcome
    ensures causes { FaultsOnlyBy H.told H.faults host.old host.new result }
{
    let own = OwnOption {
        name: "--command",
        has_value: true,
    };
    match read_order(alloc, own, words) {
        Ok(ordered) => debug_ordered(alloc, host, words, ordered, has_prompt),
        Err(Unread::Fault(fault)) => tell(alloc, host, Outcome::Usage(fault)),
        Err(Unread::OutOfMemory) => tell(alloc, host, Outcome::OutOfMemory),
    }
}
