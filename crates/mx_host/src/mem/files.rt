//! The files and the slots of a host in memory.

ghost use Rattle.std.specs.Prelude.{◌≡◌, ◌<◌, ◌≤◌, ◌+◌, ◌^◌, [], ◌∷◌, ◌++◌, None, OnOk, OnErr, IfErr, IfSome, length};
ghost use Rattle.std.specs.Prelude.{take, drop};
ghost use Rattle.mx_word.specs.Lists.{with_written};
ghost use Rattle.mx_host.specs.HostModel.{Leads, place_of, slot_at, with_slot};
ghost use Rattle.mx_host.specs.HostAnswer as spec;

use super::MemHost;
use super::streams::copy_front;
use crate::faults::{HostFault, OpenFault};
use crate::files::StoredFile;
use crate::slots::{Lead, Mode, Slot};
use mx_word::{Bytes, NoMemory};

impl MemHost {
    /// What the slot is.
    pub(super) fn slot(&self, slot: u16) -> Slot
        requires { slot ≤ 260 }
        ensures value { result ≡ slot_at self.now slot }
        ensures leads { Leads (length self.now.files) result }
    {
        self.slots[slot as usize]
    }

    /// Puts another value in a slot.
    pub(super) fn set_slot(&mut self, slot: u16, to: Slot)
        requires slot { slot ≤ 260 }
        requires leads { Leads (length self.old.files) to }
        ensures { self.new ≡ with_slot self.old slot to }
    {
        self.slots[slot as usize] = to;
    }

    /// The number of bytes of a file.
    pub(super) fn file_length(&self, at: usize) -> usize
        requires { at < length self.now.files }
        ensures value { result ≡ length (spec.bytes_at self.now.files at) }
        ensures fits { result < 2 ^ 63 }
    {
        self.files[at].bytes.as_slice().len()
    }

    /// Copies bytes of a file from a place on.
    pub(super) fn read_file(&self, at: usize, place: usize, into: &mut [u8]) -> usize
        requires at { at < length self.now.files }
        requires place { place < 2 ^ 63 }
        ensures fits { place + result < 2 ^ 63 }
        ensures count { result
            ≡ length (take (length into.old) (drop place (spec.bytes_at self.now.files at))) }
        ensures bytes { into.new
            ≡ take (length into.old) (drop place (spec.bytes_at self.now.files at)) ++ drop result into.old }
    {
        let bytes = self.files[at].bytes.as_slice();
        copy_front(bytes, place, into)
    }

    /// Writes bytes to a file at a place, and moves the place of the slot past them.
    pub(super) fn write_file(
        &mut self,
        slot: u16,
        at: usize,
        mode: Mode,
        place: usize,
        from: &[u8],
    ) -> Result<(), HostFault>
        requires slot { slot ≤ 260 }
        requires at { at < length self.old.files }
        requires place { place < 2 ^ 63 }
        ensures ok { OnOk result (self.new ≡ with_slot
            (record self.old {
              files = spec.with_bytes self.old.files at
                  (with_written (spec.bytes_at self.old.files at) place from.now);
            })
            slot (Slot.Open (Lead.File at) mode (place + length from.now))) }
        ensures err { IfErr result (λ e. (e ≡ HostFault.OutOfMemory) × (self.new ≡ self.old)) }
    {
        if from.len() >= (1 << 63) - place {
            return Err(HostFault::OutOfMemory);
        }
        match self.files[at].bytes.overwrite(place, from) {
            Ok(()) => {
                self.set_slot(
                    slot,
                    Slot::Open {
                        lead: Lead::File(at),
                        mode,
                        place: place + from.len(),
                    },
                );
                Ok(())
            }
            Err(_) => Err(HostFault::OutOfMemory),
        }
    }

    /// Puts these bytes in a file, in place of those that it has.
    pub(super) fn set_bytes(&mut self, at: usize, bytes: Bytes)
        requires { at < length self.old.files }
        ensures files { self.new ≡ record self.old { files = spec.with_bytes self.old.files at bytes } }
        ensures as_many { length self.new.files ≡ length self.old.files }
    {
        self.files[at].bytes = bytes;
    }

    /// Takes all bytes out of a file.
    pub(super) fn empty(&mut self, at: usize)
        requires { at < length self.old.files }
        ensures files { self.new ≡ record self.old { files = spec.with_bytes self.old.files at [] } }
        ensures as_many { length self.new.files ≡ length self.old.files }
    {
        let none = Bytes::new(self.alloc);
        self.set_bytes(at, none);
    }

    /// Adds a file of this name, which no file has yet.
    #[tactic(auto, using(crate::proofs::Names::distinct))]
    pub(super) fn add_file(&mut self, name: &[u8], bytes: Bytes) -> Result<(), NoMemory>
        requires { place_of self.old.files name.now ≡ None }
        ensures ok { OnOk result (self.new ≡ record self.old
            { files = self.old.files ++ record { name = name.now; bytes = bytes } ∷ [] }) }
        ensures err { OnErr result (self.new ≡ self.old) }
    {
        let name = Bytes::copy(self.alloc, name)?;
        self.files.push(StoredFile { name, bytes })?;
        Ok(())
    }

    /// Adds an empty file of this name, which no file has yet, and opens it.
    pub(super) fn make(&mut self, slot: u16, name: &[u8], mode: Mode) -> Result<(), OpenFault>
        requires slot { slot ≤ 260 }
        requires missing { place_of self.old.files name.now ≡ None }
        ensures ok { OnOk result (self.new ≡ with_slot
            (record self.old { files = self.old.files ++ spec.empty_file name.now ∷ [] })
            slot (Slot.Open (Lead.File (length self.old.files)) mode 0)) }
        ensures err { IfErr result (λ e. (e ≡ OpenFault.OutOfMemory) × (self.new ≡ self.old)) }
    {
        let at = self.files.len();
        let none = Bytes::new(self.alloc);
        self.add_file(name, none)?;
        self.set_slot(slot, slot_at_start(at, mode));
        Ok(())
    }
}

/// A slot on the beginning of a file.
pub(super) fn slot_at_start(at: usize, mode: Mode) -> Slot
    ensures { result ≡ Slot.Open (Lead.File at) mode 0 }
{
    Slot::Open {
        lead: Lead::File(at),
        mode,
        place: 0,
    }
}

/// The place that is sought in a file of this length, where it lies inside.
pub(super) fn place_sought(length: usize, to: i64) -> Option<usize>
    ensures value { result ≡ spec.place_sought length to }
    ensures inside { IfSome result (λ place. place ≤ length) }
{
    if to >= 0 {
        let place = to.unsigned_abs() as usize;
        if place <= length { Some(place) } else { None }
    } else {
        let back = (to + 1).unsigned_abs() as usize;
        if back <= length {
            Some(length - back)
        } else {
            None
        }
    }
}
