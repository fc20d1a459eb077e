//! An object that is listed, line by line.

ghost use Rattle.std.specs.Prelude.{◌≡◌, ◌≢◌, ◌<◌, ◌≤◌, ◌^◌, Ok, Err, None, true, false, length, map, OnOk};
ghost use Rattle.std.specs.Prelude.{IfErr, IfSome};
ghost use Rattle.mx_mmo.specs.Whole.{left_of};
ghost use Rattle.mx_plan.specs.Calls as calls;
ghost use Rattle.mx_plan.specs.Clauses.{CarriesOutOnHost};
ghost use Rattle.mx_plan.specs.Plan.{end_of};
ghost use Rattle.mx_stab.specs.Faults as tries;
ghost use Rattle.mx_type.specs.Lambda.{lambda_after};
ghost use Rattle.mx_type.specs.Lines.{ended, stab_line, symbol_line};
ghost use Rattle.mx_type.specs.Texts.{item_text};
ghost use Rattle.mx_files.specs.Failing.{FailsOnlyBy};
ghost use Rattle.mx_files.specs.Answers.{AnswersAs, AnswersAsList, WritesFrontOf, plainly};
ghost use Rattle.mx_files.specs.Clauses.{DoesPart, FailsByPlan, Leaves, is_end};
ghost use Rattle.mx_files.specs.FilePlans as lines;
ghost use Rattle.mx_files.specs.ObjectPlans as plans;
ghost use Rattle.mx_files.specs.Typed as spec;

use crate::lines::write_line;
use crate::pieces::whole_outcome;
use crate::source::{OBJECT_PIECES, read_file};
use mx_host::Host;
use mx_mmo::{Item, MmoFault, Reader, Tail};
use mx_outcome::Outcome;
use mx_stab::StabFault;
use mx_type::Lister;
use mx_word::{Bytes, Symbol};
use std::alloc::Global;

/// What comes of bytes that are no object.
fn refuse_bytes(fault: MmoFault) -> Outcome
    ensures value { result ≢ Outcome.OutOfMemory → result ≡ spec.unread fault }
    ensures memory { fault ≡ MmoFault.OutOfMemory → result ≡ Outcome.OutOfMemory }
    ensures no_host_fault { result ≢ Outcome.HostFault }
    ensures no_missing_file { result ≢ Outcome.NoFile }
    ensures end { is_end result ≡ true }
{
    match fault.place() {
        Some(place) => Outcome::BadObject {
            place,
            fault: fault.number(),
        },
        None => Outcome::OutOfMemory,
    }
}

/// What comes of a trie at a place that is none.
fn refuse_trie(place: u64, fault: StabFault) -> Outcome
    requires front { place ≤ 2 ^ 26 }
    requires within { IfSome (tries.place_of fault) (λ at. at < 2 ^ 63) }
    ensures value { result ≢ Outcome.OutOfMemory → result ≡ spec.unread_trie place fault }
    ensures memory { fault ≡ StabFault.OutOfMemory → result ≡ Outcome.OutOfMemory }
    ensures no_host_fault { result ≢ Outcome.HostFault }
    ensures no_missing_file { result ≢ Outcome.NoFile }
    ensures end { is_end result ≡ true }
{
    match fault.place() {
        Some(at) => Outcome::BadObject {
            place: place + at,
            fault: fault.number(),
        },
        None => Outcome::OutOfMemory,
    }
}

/// Writes a text as a line, if it has bytes.
fn put_shown<H: Host>(host: &mut H, text: &[u8]) -> Result<(), Outcome>
    ensures { DoesPart H.told H.faults host.old host.new result (plans.shown_plan text.now) }
{
    if text.is_empty() {
        return Ok(());
    }
    write_line(host, text)
}

/// Writes the line of an item, if it has one, by way of `line`.
fn put_item<H: Host>(
    host: &mut H,
    lister: &mut Lister,
    line: &mut Bytes,
    item: &Item,
) -> Result<(), Outcome>
    ensures put { DoesPart H.told H.faults host.old host.new result
        (plans.item_plan (item_text lister.old item.now)) }
    ensures lambda { OnOk result (lister.new ≡ lambda_after lister.old item.now) }
{
    lister.item_into(line, item)?;
    put_shown(host, line.as_slice())
}

/// Lists the item that is next, and says whether one did.
fn list_next<H: Host>(
    host: &mut H,
    lister: &mut Lister,
    line: &mut Bytes,
    reader: &mut Reader,
) -> Result<bool, Outcome>
    requires { reader.old.fault ≡ None }
    ensures more { result ≡ Ok true →
        Leaves (H.told host.old) (H.told host.new) (H.faults host.old) (H.faults host.new)
        (plans.typed_plan (spec.still_typed lister.new reader.new))
        (plans.typed_plan (spec.still_typed lister.old reader.old)) }
    ensures last { result ≡ Ok false →
        Leaves (H.told host.old) (H.told host.new) (H.faults host.old) (H.faults host.new)
        (plans.typed_plan (spec.end_typed (Ok (left_of reader.new))))
        (plans.typed_plan (spec.still_typed lister.old reader.old)) }
    ensures less { result ≡ Ok true → length reader.new.rest < length reader.old.rest }
    ensures read { OnOk result (reader.new.fault ≡ None) }
    ensures ends { IfErr result (λ outcome.
        DoesPart H.told H.faults host.old host.new (Err outcome)
        (plans.typed_plan (spec.still_typed lister.old reader.old))) }
{
    match reader.next() {
        Ok(None) => Ok(false),
        Ok(Some(item)) => match put_item(host, lister, line, &item) {
            Ok(()) => Ok(true),
            Err(outcome) => Err(outcome),
        },
        Err(fault) => Err(refuse_bytes(fault)),
    }
}

/// Lists all items that are next.
fn list_items<H: Host>(
    host: &mut H,
    lister: &mut Lister,
    line: &mut Bytes,
    reader: &mut Reader,
) -> Result<(), Outcome>
    requires { reader.old.fault ≡ None }
    ensures last { OnOk result (
        Leaves (H.told host.old) (H.told host.new) (H.faults host.old) (H.faults host.new)
        (plans.typed_plan (spec.end_typed (Ok (left_of reader.new))))
        (plans.typed_plan (spec.still_typed lister.old reader.old))) }
    ensures read { OnOk result (reader.new.fault ≡ None) }
    ensures ends { IfErr result (λ outcome.
        DoesPart H.told H.faults host.old host.new (Err outcome)
        (plans.typed_plan (spec.still_typed lister.old reader.old))) }
{
    loop {
        match list_next(host, lister, line, reader) {
            Ok(true) => {}
            Ok(false) => return Ok(()),
            Err(outcome) => return Err(outcome),
        }
    }
}

/// Writes the line of a symbol.
fn put_symbol<H: Host>(host: &mut H, lister: &Lister, symbol: &Symbol) -> Result<(), Outcome>
    ensures { DoesPart H.told H.faults host.old host.new result
        (lines.made_plan (ended (symbol_line symbol.now))) }
{
    let line = lister.symbol_line(symbol)?;
    write_line(host, line.as_slice())
}

/// Writes the lines of symbols.
fn put_symbols<H: Host>(host: &mut H, lister: &Lister, symbols: &[Symbol]) -> Result<(), Outcome>
    ensures { DoesPart H.told H.faults host.old host.new result
        (lines.lines_plan (map (λ s. ended (symbol_line s)) symbols.now)) }
{
    for symbol in symbols {
        put_symbol(host, lister, symbol)?;
    }
    Ok(())
}

/// Writes the line of a trie.
fn put_trie<H: Host>(host: &mut H, lister: &Lister, trie: &[u8]) -> Result<(), Outcome>
    ensures { DoesPart H.told H.faults host.old host.new result (lines.made_plan (ended (stab_line trie.now))) }
{
    let line = lister.trie_line(trie)?;
    write_line(host, line.as_slice())
}

/// Writes the lines of a trie and its symbols.
fn put_tail<H: Host>(
    host: &mut H,
    lister: &Lister,
    trie: &[u8],
    symbols: &[Symbol],
) -> Result<(), Outcome>
    ensures { DoesPart H.told H.faults host.old host.new result
        (lines.lines_plan (spec.tail_lines trie.now symbols.now)) }
{
    put_trie(host, lister, trie)?;
    put_symbols(host, lister, symbols)
}

/// Lists what follows the items.
#[tactic(auto, using(mx_load::proofs::Tails::tails))]
fn list_tail<H: Host>(
    alloc: Global,
    host: &mut H,
    lister: &Lister,
    tail: &Tail,
) -> Result<(), Outcome>
    requires { tail.now.place ≤ 2 ^ 26 }
    ensures { DoesPart H.told H.faults host.old host.new result
        (plans.typed_plan (spec.tail_typed (Ok tail.now))) }
{
    match mx_stab::read(alloc, tail.trie.as_slice()) {
        Ok(symbols) => put_tail(host, lister, tail.trie.as_slice(), symbols.as_slice()),
        Err(fault) => Err(refuse_trie(tail.place, fault)),
    }
}

/// Lists the end of an object, where no item is next.
fn list_end<H: Host>(
    alloc: Global,
    host: &mut H,
    lister: &Lister,
    reader: &mut Reader,
) -> Result<(), Outcome>
    requires { reader.old.fault ≡ None }
    ensures { DoesPart H.told H.faults host.old host.new result
        (plans.typed_plan (spec.end_typed (Ok (left_of reader.old)))) }
{
    match reader.finish() {
        Ok(tail) => list_tail(alloc, host, lister, &tail),
        Err(fault) => Err(refuse_bytes(fault)),
    }
}

/// Lists the object that a reader was fed.
fn list_fed<H: Host>(alloc: Global, host: &mut H, reader: &mut Reader) -> Result<(), Outcome>
    requires { reader.old.fault ≡ None }
    ensures { DoesPart H.told H.faults host.old host.new result
        (plans.typed_plan (spec.still_typed 0 reader.old)) }
{
    let mut lister = Lister::new(alloc);
    let mut line = Bytes::new(alloc);
    list_items(host, &mut lister, &mut line, reader)?;
    list_end(alloc, host, &lister, reader)
}

/// Lists an object, or the items before its first fault.
fn list_object<H: Host>(alloc: Global, host: &mut H, bytes: &[u8]) -> Result<(), Outcome>
    ensures { DoesPart H.told H.faults host.old host.new result (plans.typed_plan (spec.typed bytes.now)) }
{
    let mut reader = Reader::new(alloc);
    match reader.feed(bytes) {
        Ok(()) => list_fed(alloc, host, &mut reader),
        Err(fault) => Err(refuse_bytes(fault)),
    }
}

/// Reads an object, and lists it.
fn list_whole<H: Host>(alloc: Global, host: &mut H, name: &[u8]) -> Result<(), Outcome>
    ensures { DoesPart H.told H.faults host.old host.new result (plans.list_part name.now) }
{
    let bytes = read_file(alloc, host, name, OBJECT_PIECES)?;
    list_object(alloc, host, bytes.as_slice())
}

/// Lists the object in the file of this name. Where there is no memory, the lines that were written stay, and no other
/// is written.
pub fn list_file<H: Host>(alloc: Global, host: &mut H, name: &[u8]) -> Outcome
    ensures plan { CarriesOutOnHost (H.told host.old) (H.told host.new) Outcome.OutOfMemory result
        (plans.list_plan name.now) }
    ensures cause { FailsByPlan H.told H.faults host.old host.new result (plans.list_part name.now) }
    ensures told { AnswersAs (H.told host.old) (H.told host.new) result
        (λ m. plainly (end_of calls.host (plans.list_plan name.now) m)) }
    ensures listed { AnswersAsList (H.told host.old) (H.told host.new) result
        (λ m. plainly (end_of calls.host (plans.list_plan name.now) m)) }
    ensures front { WritesFrontOf (H.told host.old) (H.told host.new) result
        (λ m. plainly (end_of calls.host (plans.list_plan name.now) m)) }
    ensures causes { FailsOnlyBy H.told H.faults host.old host.new result }
{
    whole_outcome(list_whole(alloc, host, name))
}
