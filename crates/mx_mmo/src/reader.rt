//! Reading an object in pieces.

ghost use Rattle.std.specs.Prelude.{◌≡◌, ◌≢◌, ◌≤◌, ◌+◌, ◌++◌, ◌^◌, length, drop, ◌<◌, IfOk, IfSome, OnOk, OnErr};
ghost use Rattle.std.specs.Prelude.{OnSome, None, Ok, Some};
ghost use Rattle.mx_mmo.specs.Replies as spec;
ghost use Rattle.mx_mmo.specs.Valid.{Fits};

use crate::due::{Phase, plain_tetra, read_first_item};
use crate::input::Input;
use crate::skipping::Scan;
use crate::tail::read_tail;
use crate::{Item, MmoFault, Tail};
use mx_word::NoMemory;
use std::alloc::Global;
use std::marker::Model;

/// The longest object, in bytes.
const LIMIT: u64 = 1 << 26;

/// Reads an object whose bytes come in pieces, and gives its items one by one.
///
/// After a fault other than out of memory each call answers that fault again; after out of memory
/// the reader is as it was.
#[derive(Drop)]
pub struct Reader {
    alloc: Global,
    input: Input,
    /// How far the tetras after a spec that is next were looked through.
    scan: Scan,
    phase: Phase,
    at: u64,
    place: u64,
    fault: Option<MmoFault>,
}

impl Model for Reader {
    ghost use Rattle.std.specs.Prelude.{◌≡◌, ◌≤◌, ◌+◌, ◌^◌, Some, false, length, drop, take};
    ghost use Rattle.mx_mmo.specs.Replies.{ReaderModel};
    ghost use Rattle.mx_mmo.specs.Skipping.{quoted_after};

    ghost Value = { ReaderModel };

    ghost view = { λ r. record {
      rest = r.input;
      phase = r.phase;
      at = r.at;
      place = r.place;
      fault = r.fault;
    } };

    ghost invariant = { λ r. (r.at + length r.input ≤ 2 ^ 26) ×
        (r.scan.size ≤ length (drop 4 r.input)) ×
        (quoted_after false (take r.scan.size (drop 4 r.input)) ≡ Some r.scan.quoted) };
}

/// How far a reader has come after an item.
fn phase_after(item: &Item, phase: Phase) -> Phase
    ensures { result ≡ spec.phase_after item.now phase }
{
    match item {
        Item::Pre(_) => Phase::Middle,
        Item::Post { .. } => Phase::Posted,
        Item::Stab => Phase::Ended,
        _ => phase,
    }
}

impl Reader {
    /// A reader that nothing was fed. It takes no memory.
    pub fn new(alloc: Global) -> Reader
        ensures { result ≡ spec.fresh }
    {
        Reader {
            alloc,
            input: Input::new(alloc),
            scan: Scan::new(),
            phase: Phase::Start,
            at: 0,
            place: 0,
            fault: None,
        }
    }

    /// Takes the next piece of the object.
    ///
    /// Errors: `TooLong` where more than 2^26 bytes would have come with it, with the place 2^26; then none of
    /// the piece is taken, and the fault stays. The fault that was answered before. Out of memory.
    pub fn feed(&mut self, piece: &[u8]) -> Result<(), MmoFault>
        ensures answers { result ≢ Err MmoFault.OutOfMemory →
            (result, self.new) ≡ spec.feed_answer self.old piece.now }
        ensures memory { result ≡ Err MmoFault.OutOfMemory → self.new ≡ self.old }
        ensures fault_again { IfSome self.old.fault (λ fault. result ≡ Err fault) }
    {
        if let Some(fault) = self.fault {
            return Err(fault);
        }
        if self.end() + piece.len() as u64 > LIMIT {
            return self.refuse(MmoFault::TooLong(LIMIT));
        }
        self.hold(piece)?;
        Ok(())
    }

    /// The next whole item; nothing where neither a whole item nor a fault is next, and always after `stab`.
    ///
    /// Errors: `NoPre`, `BadLop` and `BadFields`, each with the byte place of the tetra that has it. The fault
    /// that was answered before. Out of memory.
    pub fn next(&mut self) -> Result<Option<Item>, MmoFault>
        ensures answers { result ≢ Err MmoFault.OutOfMemory →
            (result, self.new) ≡ spec.next_answer self.old }
        ensures memory { result ≡ Err MmoFault.OutOfMemory → self.new ≡ self.old }
        ensures fault_again { IfSome self.old.fault (λ fault. result ≡ Err fault) }
        ensures fits { IfOk result (λ item. IfSome item Fits) }
        ensures place { IfOk result (λ item. OnSome item (self.new.place ≡ self.old.at)) }
        ensures shorter { IfOk result (λ item. OnSome item (length self.new.rest < length self.old.rest)) }
    {
        if let Some(fault) = self.fault {
            return Err(fault);
        }
        let mut scan = self.scan;
        let due = read_first_item(
            self.alloc,
            &mut scan,
            self.phase,
            self.at,
            self.input.bytes(),
        );
        match due {
            Ok(None) => {
                self.scan = scan;
                Ok(None)
            }
            Ok(Some((item, size))) => {
                self.advance(&item, size);
                Ok(Some(item))
            }
            Err(MmoFault::OutOfMemory) => Err(MmoFault::OutOfMemory),
            Err(fault) => self.refuse(fault),
        }
    }

    /// The tetra that is next, where it is one that is loaded as it is: it is given then, as `next` gives it as an
    /// item. Nothing where anything else is due, and then nothing changes. It takes no memory.
    #[inline]
    pub fn next_plain(&mut self) -> Option<u32>
        ensures answers { IfSome result (λ t. (Ok (Some (Item.Load t)), self.new) ≡ spec.next_answer self.old) }
        ensures read { OnSome result (self.new.fault ≡ None) }
        ensures shorter { OnSome result (length self.new.rest < length self.old.rest) }
        ensures none { result ≡ None → self.new ≡ self.old }
    {
        if self.fault.is_some() || self.phase != Phase::Middle {
            return None;
        }
        let t = plain_tetra(self.input.bytes())?;
        self.pass(4);
        Some(t)
    }

    /// The byte place, from 0, where the item that was given last begins; 0 where none was given.
    #[inline]
    pub fn place(&self) -> u64
        ensures { result ≡ self.now.place }
    {
        self.place
    }

    /// Says that no more comes, once `next` gives nothing, and gives what follows `stab`.
    ///
    /// Errors: `NotTetras` where the bytes left over are no whole tetras; `Truncated` where `stab` or the last
    /// tetra `end` is missing, or an item is not whole; `BadFields` where `end` has not the number of the trie's
    /// tetras. The fault that was answered before. Out of memory.
    pub fn finish(&mut self) -> Result<Tail, MmoFault>
        ensures answers { result ≢ Err MmoFault.OutOfMemory →
            (result, self.new) ≡ spec.finish_answer self.old }
        ensures memory { result ≡ Err MmoFault.OutOfMemory → self.new ≡ self.old }
        ensures fault_again { IfSome self.old.fault (λ fault. result ≡ Err fault) }
        ensures place { IfOk result (λ tail. tail.place ≤ 2 ^ 26) }
    {
        if let Some(fault) = self.fault {
            return Err(fault);
        }
        match read_tail(self.alloc, self.phase, self.at, self.input.bytes()) {
            Ok(tail) => Ok(tail),
            Err(MmoFault::OutOfMemory) => Err(MmoFault::OutOfMemory),
            Err(fault) => self.refuse(fault),
        }
    }

    /// Answers a fault and keeps it.
    fn refuse<T>(&mut self, fault: MmoFault) -> Result<T, MmoFault>
        ensures { (result, self.new) ≡ spec.refused self.old fault }
    {
        self.fault = Some(fault);
        Err(fault)
    }

    /// Goes on after an item that was given.
    fn advance(&mut self, item: &Item, size: usize)
        requires { size ≤ length self.old.rest }
        ensures { self.new ≡ spec.given self.old item.now size }
    {
        self.pass(size);
        self.phase = phase_after(item, self.phase);
    }

    /// This many bytes are given, and the phase stays.
    #[inline(always)]
    fn pass(&mut self, size: usize)
        requires { size ≤ length self.old.rest }
        ensures { self.new ≡ record self.old {
          rest = drop size self.old.rest;
          at = self.old.at + size;
          place = self.old.at;
        } }
    {
        self.input.advance(size);
        self.scan = Scan::new();
        self.place = self.at;
        self.at += size as u64;
    }

    /// How many bytes were fed.
    fn end(&self) -> u64
        ensures count { result ≡ self.now.at + length self.now.rest }
        ensures most { result ≤ 2 ^ 26 }
    {
        self.at + self.input.len() as u64
    }

    /// Holds a piece more.
    fn hold(&mut self, piece: &[u8]) -> Result<(), NoMemory>
        requires { self.old.at + length self.old.rest + length piece.now ≤ 2 ^ 26 }
        ensures ok { OnOk result (self.new ≡ record self.old { rest = self.old.rest ++ piece.now }) }
        ensures err { OnErr result (self.new ≡ self.old) }
    {
        self.input.add(piece)
    }
}
