//! The words that change the breaks and what is watched.

ghost use Rattle.std.specs.Prelude.{◌≡◌, [], OnOk};
ghost use Rattle.mx_debug.specs.Sessions.{KeepsProgram};
ghost use Rattle.mx_debug.specs.Words.{Deletes, LeavesAllBut};

use crate::conditions::add_condition;
use crate::known::{Known, breaks_but, watches_but};
use crate::session::Session;
use crate::telling::add_said;
use mx_ask::{add_unnamed, cut_word, parse_number};
use mx_core::Machine;
use mx_places::{
    PLACE_WANTED, Unwanted, Wanted, note_of, parse_break, parse_place, thing_of_place,
};
use mx_stops::{Break, Place, Watch, see};
use mx_tell::{add_break_row, add_watch_row};
use mx_word::{Bytes, NoMemory};

/// Adds the row of a break.
fn add_break(text: &mut Bytes, known: &Known, b: &Break) -> Result<(), NoMemory> {
    let mut condition = Bytes::new(known.alloc);
    add_condition(&mut condition, &known.book, b.condition)?;
    add_break_row(
        text,
        &known.book,
        u64::from(b.number),
        b.address,
        condition.as_slice(),
    )
}

/// Adds the row of what is watched.
fn add_watch(
    text: &mut Bytes,
    known: &Known,
    machine: &Machine,
    watch: &Watch,
) -> Result<(), NoMemory> {
    let note = note_of(known.alloc, watch.place, &see(machine, watch.place))?;
    add_watch_row(
        text,
        &known.book,
        u64::from(watch.number),
        thing_of_place(watch.place),
        note.as_slice(),
    )
}

/// Adds the rows of all breaks.
fn add_breaks(text: &mut Bytes, known: &Known) -> Result<(), NoMemory> {
    for b in known.stops.breaks.as_slice() {
        add_break(text, known, b)?;
    }
    Ok(())
}

/// Adds the rows of all breaks and of what is watched.
pub(crate) fn add_stops(
    text: &mut Bytes,
    known: &Known,
    machine: &Machine,
) -> Result<(), NoMemory> {
    let stops = &known.stops;
    if stops.breaks.as_slice().is_empty() && stops.watches.as_slice().is_empty() {
        return text.extend(b"no breaks and no watches\n");
    }
    add_breaks(text, known)?;
    for watch in stops.watches.as_slice() {
        add_watch(text, known, machine, watch)?;
    }
    Ok(())
}

/// Adds why a line orders no break.
fn add_unwanted(out: &mut Bytes, why: Unwanted, rest: &[u8]) -> Result<(), NoMemory> {
    match why {
        Unwanted::Target => add_unnamed(
            out,
            cut_word(rest).0,
            b"? no such place: give a label, LABEL+N, a line with an instruction, or #ADDRESS",
        ),
        Unwanted::Condition => {
            out.extend(
                b"? a condition is written: if VALUE OP N, where OP is ==, !=, <, <=, > or >=\n",
            )
        }
    }
}

impl Session {
    /// Sets a break.
    fn set_break(&mut self, wanted: Wanted, out: &mut Bytes) -> Result<(), NoMemory>
        ensures program { KeepsProgram self.old self.new }
        ensures place { self.new.at ≡ self.old.at }
        ensures watches { self.new.watches ≡ self.old.watches }
    {
        let number = self.known.stops.next();
        let b = Break {
            number,
            address: wanted.address,
            condition: wanted.condition,
        };
        self.known.stops.breaks.push(b)?;
        add_break(out, &self.known, &b)
    }

    /// Watches a place.
    fn set_watch(&mut self, place: Place, out: &mut Bytes) -> Result<(), NoMemory>
        ensures program { KeepsProgram self.old self.new }
        ensures place { self.new.at ≡ self.old.at }
        ensures breaks { self.new.breaks ≡ self.old.breaks }
    {
        let number = self.known.stops.next();
        let watch = Watch { number, place };
        self.known.stops.watches.push(watch)?;
        add_watch(out, &self.known, self.replay.machine(), &watch)
    }

    /// Obeys `break`.
    pub(crate) fn obey_break(&mut self, rest: &[u8], out: &mut Bytes) -> Result<(), NoMemory>
        ensures program { KeepsProgram self.old self.new }
        ensures place { self.new.at ≡ self.old.at }
    {
        let pc = self.replay.machine().pc();
        match parse_break(&self.known.book, pc, rest) {
            Ok(wanted) => self.set_break(wanted, out),
            Err(why) => add_unwanted(out, why, rest),
        }
    }

    /// Obeys `watch`.
    pub(crate) fn obey_watch(&mut self, rest: &[u8], out: &mut Bytes) -> Result<(), NoMemory>
        ensures program { KeepsProgram self.old self.new }
        ensures place { self.new.at ≡ self.old.at }
    {
        match parse_place(&self.known.book, rest) {
            Some(place) => self.set_watch(self.follow(place), out),
            None => add_unnamed(out, rest, PLACE_WANTED),
        }
    }

    /// Deletes the break or the watch of a number.
    fn delete(&mut self, number: u64, out: &mut Bytes) -> Result<(), NoMemory>
        ensures program { KeepsProgram self.old self.new }
        ensures place { self.new.at ≡ self.old.at }
        ensures left { OnOk result (LeavesAllBut number self.old self.new) }
    {
        let stops = &self.known.stops;
        let breaks = breaks_but(self.known.alloc, stops.breaks.as_slice(), number)?;
        let watches = watches_but(self.known.alloc, stops.watches.as_slice(), number)?;
        let is_known = breaks.as_slice().len() < stops.breaks.as_slice().len()
            || watches.as_slice().len() < stops.watches.as_slice().len();
        self.known.stops.breaks = breaks;
        self.known.stops.watches = watches;
        if is_known {
            add_said(out, b"deleted")
        } else {
            add_said(out, b"? no break or watch has this number")
        }
    }

    /// Deletes all breaks and watches.
    fn delete_all(&mut self, out: &mut Bytes) -> Result<(), NoMemory>
        ensures program { KeepsProgram self.old self.new }
        ensures place { self.new.at ≡ self.old.at }
        ensures breaks { self.new.breaks ≡ [] }
        ensures watches { self.new.watches ≡ [] }
    {
        self.known.stops.clear(self.known.alloc);
        add_said(out, b"all deleted")
    }

    /// Obeys `delete`.
    #[tactic(auto, using(crate::proofs::Deleting::deleting))]
    pub(crate) fn obey_delete(&mut self, rest: &[u8], out: &mut Bytes) -> Result<(), NoMemory>
        ensures program { KeepsProgram self.old self.new }
        ensures place { self.new.at ≡ self.old.at }
        ensures left { OnOk result (Deletes self.old rest.now self.new) }
    {
        if rest.is_empty() {
            return self.delete_all(out);
        }
        match parse_number(rest) {
            Some(number) => self.delete(number, out),
            None => add_said(
                out,
                b"? delete takes the number of a break or watch, or nothing",
            ),
        }
    }
}
