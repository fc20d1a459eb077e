//! An object that is read and loaded.

ghost use Rattle.std.specs.Prelude.{◌≡◌, ◌≢◌, ◌<◌, ◌≤◌, ◌+◌, ◌^◌, Ok, Err, None, true, false, suc, ℕ, length, OnOk};
ghost use Rattle.std.specs.Prelude.{IfErr, IfSome};
ghost use Rattle.mx_mmo.specs.Valid.{Fits};
ghost use Rattle.mx_mmo.specs.Whole.{left_of};
ghost use Rattle.mx_load.specs.Answers as spec;
ghost use Rattle.mx_load.specs.Answers.{LoadsTo, all_loaded, loaded_in, place_and_number};
ghost use Rattle.mx_load.specs.Objects.{object_loaded, trie_read, whole_loaded};
ghost use Rattle.mx_load.specs.Status.{loading_of};
ghost use Rattle.mx_stab.specs.Faults as tries;
ghost use Rattle.mx_stab.specs.Reading.{trie_answer};

use crate::progress::Progress;
use crate::{Image, LoadFault};
use mx_mmo::{Item, MmoFault, Reader, Tail};
use mx_stab::StabFault;
use mx_word::Symbols;
use std::alloc::Global;

/// Why bytes are no object, or an object sets up nothing.
#[derive(Clone, Copy, Debug, PartialEq, Eq)]
pub enum ObjectFault {
    /// The byte place, from 0, and the number of the first fault: of reading (60 to 65), of loading
    /// (90, 95, 96) or of the trie (70 to 74, 76).
    Bad { place: u64, fault: u16 },
    /// There was no memory.
    OutOfMemory,
}

/// The fault of bytes that are no object.
fn fault_of_bytes(fault: MmoFault) -> ObjectFault
    ensures { result ≡ spec.unread fault }
{
    match fault.place() {
        Some(place) => ObjectFault::Bad {
            place,
            fault: fault.number(),
        },
        None => ObjectFault::OutOfMemory,
    }
}

/// The fault of an item at a place that sets up nothing.
fn fault_of_item(place: u64, fault: LoadFault) -> ObjectFault
    ensures { result ≡ spec.unloaded place fault }
{
    match fault {
        LoadFault::OutOfMemory => ObjectFault::OutOfMemory,
        _ => ObjectFault::Bad {
            place,
            fault: fault.number(),
        },
    }
}

/// Loads an item that begins at a place.
#[tactic(auto, using(crate::proofs::Loading::loading))]
fn load_item(progress: &mut Progress, item: &Item, place: u64) -> Result<bool, ObjectFault>
    requires { Fits item.now }
    ensures taken { spec.LoadsItem result progress.old progress.new place item.now }
    ensures more { result ≢ Ok false }
{
    match progress.take(item) {
        Ok(()) => Ok(true),
        Err(fault) => Err(fault_of_item(place, fault)),
    }
}

/// Loads a tetra that begins at a place.
#[tactic(auto, using(crate::proofs::Loading::loading))]
#[inline(always)]
fn load_tetra(progress: &mut Progress, t: u32, place: u64) -> Result<bool, ObjectFault>
    ensures taken { spec.LoadsItem result progress.old progress.new place (Item.Load t) }
    ensures more { result ≢ Ok false }
{
    match progress.load(t) {
        Ok(()) => Ok(true),
        Err(fault) => Err(fault_of_item(place, fault)),
    }
}

/// Loads the item that is next, and says whether one did. Mostly it is a tetra.
#[inline(always)]
fn load_next(reader: &mut Reader, progress: &mut Progress) -> Result<bool, ObjectFault>
    requires { reader.old.fault ≡ None }
    ensures next { result ≡ Ok true → spec.LoadsOn progress.old progress.new reader.old reader.new }
    ensures less { result ≡ Ok true → length reader.new.rest < length reader.old.rest }
    ensures last { result ≡ Ok false →
        LoadsTo progress.old reader.old (Ok (loading_of progress.new, left_of reader.new)) }
    ensures read { OnOk result (reader.new.fault ≡ None) }
    ensures fault { result ≢ Err ObjectFault.OutOfMemory →
        IfErr result (λ f. LoadsTo progress.old reader.old (Err (place_and_number f))) }
{
    match reader.next_plain() {
        Some(t) => load_tetra(progress, t, reader.place()),
        None => load_other(reader, progress),
    }
}

/// Loads the item that is next, whatever it is, and says whether one did.
#[inline(never)]
fn load_other(reader: &mut Reader, progress: &mut Progress) -> Result<bool, ObjectFault>
    requires { reader.old.fault ≡ None }
    ensures next { result ≡ Ok true → spec.LoadsOn progress.old progress.new reader.old reader.new }
    ensures less { result ≡ Ok true → length reader.new.rest < length reader.old.rest }
    ensures last { result ≡ Ok false →
        LoadsTo progress.old reader.old (Ok (loading_of progress.new, left_of reader.new)) }
    ensures read { OnOk result (reader.new.fault ≡ None) }
    ensures fault { result ≢ Err ObjectFault.OutOfMemory →
        IfErr result (λ f. LoadsTo progress.old reader.old (Err (place_and_number f))) }
{
    match reader.next() {
        Ok(None) => Ok(false),
        Ok(Some(item)) => load_item(progress, &item, reader.place()),
        Err(fault) => Err(fault_of_bytes(fault)),
    }
}

/// Loads all items that are next.
fn load_items(reader: &mut Reader, progress: &mut Progress) -> Result<(), ObjectFault>
    requires { reader.old.fault ≡ None }
    ensures last { OnOk result
        (all_loaded progress.old reader.old ≡ Ok (loading_of progress.new, left_of reader.new)) }
    ensures read { OnOk result (reader.new.fault ≡ None) }
    ensures fault { result ≢ Err ObjectFault.OutOfMemory →
        IfErr result (λ f. all_loaded progress.old reader.old ≡ Err (place_and_number f)) }
{
    loop {
        match load_next(reader, progress) {
            Ok(true) => {}
            Ok(false) => return Ok(()),
            Err(fault) => return Err(fault),
        }
    }
}

/// The fault of a trie that is at a place.
fn fault_of_trie(place: u64, fault: StabFault) -> ObjectFault
    requires front { place ≤ 2 ^ 26 }
    requires within { IfSome (tries.place_of fault) (λ at. at < 2 ^ 63) }
    ensures { result ≡ spec.unread_trie place fault }
{
    match fault.place() {
        Some(at) => ObjectFault::Bad {
            place: place + at,
            fault: fault.number(),
        },
        None => ObjectFault::OutOfMemory,
    }
}

/// The symbols of the trie after the items of an object.
#[tactic(auto, using(crate::proofs::Tails::tails))]
fn read_trie(alloc: Global, tail: &Tail) -> Result<Symbols, ObjectFault>
    requires { tail.now.place ≤ 2 ^ 26 }
    ensures { result ≢ Err ObjectFault.OutOfMemory →
        spec.symbols_in result ≡ trie_read tail.now.place (trie_answer tail.now.trie) }
{
    match mx_stab::read(alloc, tail.trie.as_slice()) {
        Ok(symbols) => Ok(symbols),
        Err(fault) => Err(fault_of_trie(tail.place, fault)),
    }
}

/// The image once all items were loaded, with the symbols of the trie, if the object ends as it has
/// to.
#[tactic(auto, using(crate::proofs::Tails::tails))]
fn finish(alloc: Global, reader: &mut Reader, progress: Progress) -> Result<Image, ObjectFault>
    requires { reader.old.fault ≡ None }
    ensures { result ≢ Err ObjectFault.OutOfMemory →
        loaded_in result ≡ whole_loaded (Ok (loading_of progress, left_of reader.old)) }
{
    match reader.finish() {
        Ok(tail) => {
            let symbols = read_trie(alloc, &tail)?;
            Ok(progress.image.with_symbols(symbols))
        }
        Err(fault) => Err(fault_of_bytes(fault)),
    }
}

/// The image of the object that bytes are, with the symbols of its trie.
///
/// Errors: the first fault with its byte place, as [`ObjectFault`] says, and out of memory.
#[tactic(auto, using(crate::proofs::Tails::tails))]
pub fn load_object(alloc: Global, bytes: &[u8]) -> Result<Image, ObjectFault>
    ensures { result ≢ Err ObjectFault.OutOfMemory → loaded_in result ≡ object_loaded bytes.now }
{
    let mut reader = Reader::new(alloc);
    let mut progress = Progress::new(alloc);
    match reader.feed(bytes) {
        Ok(()) => {
            load_items(&mut reader, &mut progress)?;
            finish(alloc, &mut reader, progress)
        }
        Err(fault) => Err(fault_of_bytes(fault)),
    }
}
