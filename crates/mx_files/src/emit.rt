//! A source that is assembled into an object file.

ghost use Rattle.std.specs.Prelude.{◌≡◌, ◌≢◌, Ok, Err, [], IfOk, OnOk, false, fold};
ghost use Rattle.mx_asm.specs.Faults.{no_memory};
ghost use Rattle.mx_asm.specs.Fitting.{AreFit, IsPadded};
ghost use Rattle.mx_asm.specs.OnePass.{beginning};
ghost use Rattle.mx_asm.specs.Whole.{assembled_lines, line_after};
ghost use Rattle.mx_line.specs.Lines.{lines_of};
ghost use Rattle.mx_mmo.specs.Spelling.{written};
ghost use Rattle.mx_plan.specs.Clauses.{CarriesOutOnHost};
ghost use Rattle.mx_files.specs.Failing.{FailsOnlyBy};
ghost use Rattle.mx_files.specs.Clauses.{AnswersPlan, DoesPart, FailsByPlan, WritesFrontOfPlan};
ghost use Rattle.mx_files.specs.ObjectPlans as plans;
ghost use Rattle.mx_files.specs.ObjectPlans.{assemble_plan};
ghost use Rattle.mx_files.specs.Objects as objects;

use crate::pieces::{close_file, put_text, whole_outcome};
use crate::refusal::{Refusal, is_out_of_memory, refusal_of};
use crate::source::{SOURCE_PIECES, read_file};
use mx_asm::{Assembler, Refused};
use mx_host::{Host, Mode, OpenFault};
use mx_line::cut_line;
use mx_mmo::{Item, Items, Writer};
use mx_outcome::Outcome;
use mx_plan::open;
use mx_word::{Bytes, NoMemory};
use std::alloc::Global;

/// The slot of the object file.
const OBJECT_SLOT: u16 = 257;

/// Takes the lines of a source, up to the first that is refused.
#[tactic(auto, using(crate::proofs::TakenLines::taking))]
fn take_lines(assembler: &mut Assembler, items: &mut Items, text: &[u8]) -> Result<(), NoMemory>
    ensures taken { OnOk result ((items.new, assembler.new)
        ≡ fold line_after (items.old, assembler.old) (lines_of text.now)) }
    ensures fits { AreFit items.old → AreFit items.new }
{
    let mut rest = text;
    while !rest.is_empty() {
        let (line, others) = cut_line(rest);
        match assembler.line(line, items) {
            Ok(()) => {}
            Err(refused) => return if_no_memory(&refused),
        }
        rest = others;
    }
    Ok(())
}

/// Whether a refusal is more than that there was no memory.
fn if_no_memory(refused: &Refused) -> Result<(), NoMemory>
    ensures { OnOk result (refused.now ≢ no_memory) }
{
    if is_out_of_memory(refused) {
        return Err(NoMemory);
    }
    Ok(())
}

/// Takes the lines of a source, and ends it. What is answered is its trie or its refusal.
#[tactic(auto, using(crate::proofs::TakenLines::taking))]
fn assemble_by(
    assembler: &mut Assembler,
    items: &mut Items,
    text: &[u8],
) -> Result<Result<Bytes, Refused>, NoMemory>
    requires start { assembler.old ≡ Ok beginning }
    requires none { items.old ≡ [] }
    ensures value { IfOk result (λ r. (items.new, r) ≡ assembled_lines (lines_of text.now)) }
    ensures fits { AreFit items.old → AreFit items.new }
    ensures trie { IfOk result (λ r. IfOk r IsPadded) }
{
    match take_lines(assembler, items, text) {
        Ok(()) => match assembler.finish(items) {
            Ok(trie) => Ok(Ok(trie)),
            Err(refused) => match if_no_memory(&refused) {
                Ok(()) => Ok(Err(refused)),
                Err(e) => Err(e),
            },
        },
        Err(e) => Err(e),
    }
}

/// Adds the items that a source is assembled into. What is answered is its trie or its refusal.
fn assemble_into(
    alloc: Global,
    items: &mut Items,
    text: &[u8],
) -> Result<Result<Bytes, Refused>, NoMemory>
    requires { items.old ≡ [] }
    ensures value { IfOk result (λ r. (items.new, r) ≡ assembled_lines (lines_of text.now)) }
    ensures fits { AreFit items.old → AreFit items.new }
    ensures trie { IfOk result (λ r. IfOk r IsPadded) }
{
    let mut assembler = Assembler::new(alloc)?;
    assemble_by(&mut assembler, items, text)
}

/// The items that a source is assembled into, and its trie or refusal.
fn assembled(alloc: Global, text: &[u8]) -> Result<(Items, Result<Bytes, Refused>), NoMemory>
    ensures value { IfOk result (λ r. r ≡ assembled_lines (lines_of text.now)) }
    ensures fits { IfOk result (λ r. AreFit r.0) }
    ensures trie { IfOk result (λ r. IfOk r.1 IsPadded) }
{
    let mut items = Items::new(alloc);
    let answer = assemble_into(alloc, &mut items, text)?;
    Ok((items, answer))
}

/// A writer that these items were put into.
#[tactic(auto, unfolding(mx_asm::specs::Fitting::AreFit))]
fn item_writer(alloc: Global, items: &[Item]) -> Result<Writer, NoMemory>
    requires { AreFit items.now }
    ensures { IfOk result (λ writer. writer ≡ written items.now) }
{
    let mut writer = Writer::new(alloc);
    for item in items {
        match writer.put(item) {
            Ok(()) => {}
            Err(_) => return Err(NoMemory),
        }
    }
    Ok(writer)
}

/// What there is of the object of a source, and its refusal.
#[tactic(auto, unfolding(crate::specs::Objects::source_object))]
fn source_object(alloc: Global, text: &[u8]) -> Result<(Bytes, Result<(), Refusal>), NoMemory>
    ensures { IfOk result (λ r. r ≡ objects.source_object text.now) }
{
    let (items, answer) = assembled(alloc, text)?;
    let writer = item_writer(alloc, items.as_slice())?;
    object_of(writer, answer)
}

/// What was written with the end of an object after it, or with the refusal.
fn object_of(
    writer: Writer,
    answer: Result<Bytes, Refused>,
) -> Result<(Bytes, Result<(), Refusal>), NoMemory>
    requires { IfOk answer IsPadded }
    ensures { IfOk result (λ r. r ≡ objects.object_with writer answer) }
{
    match answer {
        Ok(trie) => match writer.end(trie.as_slice()) {
            Ok(bytes) => Ok((bytes, Ok(()))),
            Err(_) => Err(NoMemory),
        },
        Err(refused) => Ok((writer.so_far(), Err(refusal_of(refused)))),
    }
}

/// What a source that is assembled, or refused, comes to.
fn answer_of_source(answer: Result<(), Refusal>) -> Result<(), Outcome>
    ensures { result ≡ plans.assembled answer }
{
    match answer {
        Ok(()) => Ok(()),
        Err(refusal) => Err(refusal.outcome()),
    }
}

/// Closes the object file, also that of a source that is refused.
fn close_object<H: Host>(host: &mut H, answer: Result<(), Refusal>) -> Result<(), Outcome>
    ensures { DoesPart H.told H.faults host.old host.new result (plans.close_object answer) }
{
    close_file(host, OBJECT_SLOT)?;
    answer_of_source(answer)
}

/// Writes the bytes of an object, and closes its file.
fn put_object<H: Host>(
    host: &mut H,
    bytes: &[u8],
    answer: Result<(), Refusal>,
) -> Result<(), Outcome>
    ensures { DoesPart H.told H.faults host.old host.new result (plans.put_object (bytes.now, answer)) }
{
    put_text(host, OBJECT_SLOT, bytes)?;
    close_object(host, answer)
}

/// Assembles a source into the object file, which is open. The file of a source that is refused has the
/// items of the statements before the faulty one.
fn put_source<H: Host>(alloc: Global, host: &mut H, text: &[u8]) -> Result<(), Outcome>
    ensures { DoesPart H.told H.faults host.old host.new result (plans.put_source text.now) }
{
    let (bytes, answer) = source_object(alloc, text)?;
    put_object(host, bytes.as_slice(), answer)
}

/// Opens the file of this name as the object file.
#[tactic(auto, using(mx_plan::proofs::Plans::plans), unfolding(crate::specs::ObjectPlans::open_object))]
fn open_object<H: Host>(host: &mut H, name: &[u8]) -> Result<(), Outcome>
    ensures { DoesPart H.told H.faults host.old host.new result (plans.open_object name.now) }
{
    match open(host, OBJECT_SLOT, name, Mode::BinaryWrite) {
        Ok(()) => Ok(()),
        Err(OpenFault::Absent) => Err(Outcome::HostFault),
        Err(OpenFault::Failed) => Err(Outcome::HostFault),
        Err(OpenFault::OutOfMemory) => Err(Outcome::OutOfMemory),
    }
}

/// Assembles a source into the file of this name.
fn put_into<H: Host>(alloc: Global, host: &mut H, object: &[u8], text: &[u8]) -> Result<(), Outcome>
    ensures { DoesPart H.told H.faults host.old host.new result (plans.put_into object.now text.now) }
{
    open_object(host, object)?;
    put_source(alloc, host, text)
}

/// Reads a source, and assembles it.
fn assemble<H: Host>(
    alloc: Global,
    host: &mut H,
    source: &[u8],
    object: &[u8],
) -> Result<(), Outcome>
    ensures { DoesPart H.told H.faults host.old host.new result (plans.assemble_part source.now object.now) }
{
    let text = read_file(alloc, host, source, SOURCE_PIECES)?;
    put_into(alloc, host, object, text.as_slice())
}

/// Assembles the source in a file into the object file of this name. Where there is no memory, the calls made by then
/// stay: the object file is opened before the source is assembled, and written after.
pub fn assemble_file<H: Host>(alloc: Global, host: &mut H, source: &[u8], object: &[u8]) -> Outcome
    ensures plan { CarriesOutOnHost (H.told host.old) (H.told host.new) Outcome.OutOfMemory result
        (assemble_plan source.now object.now) }
    ensures cause { FailsByPlan H.told H.faults host.old host.new result
        (plans.assemble_part source.now object.now) }
    ensures told { AnswersPlan H.told host.old host.new result (assemble_plan source.now object.now) }
    ensures written { WritesFrontOfPlan H.told host.old host.new result
        (assemble_plan source.now object.now) }
    ensures causes { FailsOnlyBy H.told H.faults host.old host.new result }
{
    whole_outcome(assemble(alloc, host, source, object))
}
