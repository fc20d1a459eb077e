//! The words that go to another step.

ghost use Rattle.std.specs.Prelude.{◌≡◌, None, OnOk};
ghost use Rattle.mx_debug.specs.Going.{GoesToLast, GoesToMaker, GoesToNext, depth_at, followed_at};
ghost use Rattle.mx_debug.specs.Sessions.{KeepsProgram, KeepsStops};
ghost use Rattle.mx_debug.specs.Words.{Leads, LeavesCall};

use crate::session::{Again, Session};
use crate::telling::add_said;
use mx_ask::{Word, add_unnamed, parse_count, parse_number};
use mx_places::{PLACE_WANTED, find_known_value, note_of, parse_place, thing_of_place};
use mx_stops::{Place, see, value_at};
use mx_tell::{add_thing, add_value, add_was};
use mx_word::{Bytes, NoMemory};

/// What is said where no call can be left.
const NO_CALL: &[u8] = b"not inside a call";

impl Session {
    /// Notes that another step is shown: `list` begins anew.
    fn forget_listed(&mut self)
        ensures { self.new ≡ self.old }
    {
        self.again = Again {
            listed: None,
            ..self.again
        };
    }

    /// Notes how often a step is made by an empty line.
    fn note_count(&mut self, count: u64)
        ensures { self.new ≡ self.old }
    {
        self.again = Again {
            count,
            ..self.again
        };
    }

    /// How many registers are hidden.
    #[tactic(auto, using(crate::proofs::Reaching::depths))]
    fn depth(&self) -> u64
        ensures { result ≡ depth_at self.now }
    {
        self.replay.depth()
    }

    /// The place by which a register is followed from the step that is shown.
    #[tactic(auto, using(crate::proofs::Reaching::depths))]
    pub(crate) fn follow(&self, place: Place) -> Place
        ensures { result ≡ followed_at self.now place }
    {
        self.replay.follow(place)
    }

    /// Obeys `step`.
    fn obey_step(&mut self, rest: &[u8], out: &mut Bytes) -> Result<(), NoMemory>
        ensures program { KeepsProgram self.old self.new }
        ensures stops { KeepsStops self.old self.new }
        ensures leads { OnOk result (Leads self.old Word.Step rest.now self.new.at) }
    {
        let Some(count) = parse_count(rest) else {
            return add_said(out, b"? not a number of steps");
        };
        self.note_count(count);
        self.step_on(count, out)
    }

    /// Obeys `reverse-step`.
    fn obey_reverse_step(&mut self, rest: &[u8], out: &mut Bytes) -> Result<(), NoMemory>
        ensures program { KeepsProgram self.old self.new }
        ensures stops { KeepsStops self.old self.new }
        ensures leads { OnOk result (Leads self.old Word.ReverseStep rest.now self.new.at) }
    {
        let Some(count) = parse_count(rest) else {
            return add_said(out, b"? not a number of steps");
        };
        self.note_count(count);
        self.step_back(count, out)
    }

    /// Obeys `run`: goes to the start without telling of it, and on.
    #[tactic(auto, using(crate::proofs::Reaching::leading))]
    fn obey_run(&mut self, out: &mut Bytes) -> Result<(), NoMemory>
        ensures program { KeepsProgram self.old self.new }
        ensures stops { KeepsStops self.old self.new }
        ensures next { OnOk result (GoesToNext (record self.old { at = 0 }) None self.new.at) }
    {
        self.replay.go_to(0)?;
        self.go_on(None, out)
    }

    /// Obeys `goto`.
    fn obey_goto(&mut self, rest: &[u8], out: &mut Bytes) -> Result<(), NoMemory>
        ensures program { KeepsProgram self.old self.new }
        ensures stops { KeepsStops self.old self.new }
        ensures leads { OnOk result (Leads self.old Word.GoTo rest.now self.new.at) }
    {
        match parse_number(rest) {
            Some(k) => self.go_to(k, out),
            None => add_said(out, b"? goto takes the number of a step"),
        }
    }

    /// Obeys `finish`.
    #[tactic(auto, using(crate::proofs::Reaching::leaving))]
    fn obey_finish(&mut self, out: &mut Bytes) -> Result<(), NoMemory>
        ensures program { KeepsProgram self.old self.new }
        ensures stops { KeepsStops self.old self.new }
        ensures leads { OnOk result (LeavesCall self.old self.new.at (GoesToNext self.old)) }
    {
        let depth = self.depth();
        if depth == 0 {
            return add_said(out, NO_CALL);
        }
        self.go_on(Some(depth - 1), out)
    }

    /// Obeys `reverse-finish`.
    #[tactic(auto, using(crate::proofs::Reaching::leaving))]
    fn obey_reverse_finish(&mut self, out: &mut Bytes) -> Result<(), NoMemory>
        ensures program { KeepsProgram self.old self.new }
        ensures stops { KeepsStops self.old self.new }
        ensures leads { OnOk result (LeavesCall self.old self.new.at (GoesToLast self.old)) }
    {
        let depth = self.depth();
        if depth == 0 {
            return add_said(out, NO_CALL);
        }
        self.go_back(Some(depth - 1), out)
    }

    /// Adds what a step makes of the value at a place, or that none made it.
    fn add_made(
        &self,
        place: Place,
        made: Option<u64>,
        value: u64,
        out: &mut Bytes,
    ) -> Result<(), NoMemory> {
        let book = &self.known.book;
        let thing = thing_of_place(place);
        if made.is_none() {
            add_thing(out, book, thing)?;
            return out.extend(b" has not changed since the start\n");
        }
        out.extend(b"makes ")?;
        add_thing(out, book, thing)?;
        out.extend(b" = ")?;
        add_value(out, book, value, None)?;
        let before = see(self.replay.machine(), place);
        add_was(out, book, thing, find_known_value(place, &before))?;
        let note = note_of(self.known.alloc, place, &before)?;
        out.extend(note.as_slice())?;
        out.push(b'\n')
    }

    /// Goes to the step that makes the value at a place.
    #[tactic(auto, using(crate::proofs::Reaching::leading))]
    fn show_maker(&mut self, place: Place, out: &mut Bytes) -> Result<(), NoMemory>
        ensures program { KeepsProgram self.old self.new }
        ensures stops { KeepsStops self.old self.new }
        ensures leads { OnOk result (GoesToMaker self.old place self.new.at) }
    {
        let value = value_at(self.replay.machine(), place);
        let made = self.go_to_maker(place, out)?;
        self.add_made(place, made, value, out)?;
        Ok(())
    }

    /// Obeys `who`.
    fn obey_who(&mut self, rest: &[u8], out: &mut Bytes) -> Result<(), NoMemory>
        ensures program { KeepsProgram self.old self.new }
        ensures stops { KeepsStops self.old self.new }
        ensures leads { OnOk result (Leads self.old Word.Who rest.now self.new.at) }
    {
        match parse_place(&self.known.book, rest) {
            Some(place) => self.show_maker(self.follow(place), out),
            None => add_unnamed(out, rest, PLACE_WANTED),
        }
    }

    /// Obeys a word that goes to another step; any other one stays.
    pub(crate) fn go(&mut self, word: Word, rest: &[u8], out: &mut Bytes) -> Result<(), NoMemory>
        ensures program { KeepsProgram self.old self.new }
        ensures stops { KeepsStops self.old self.new }
        ensures leads { OnOk result (Leads self.old word rest.now self.new.at) }
    {
        self.forget_listed();
        let depth = self.depth();
        match word {
            Word::Run => self.obey_run(out),
            Word::Start => self.go_to(0, out),
            Word::Step => self.obey_step(rest, out),
            Word::ReverseStep => self.obey_reverse_step(rest, out),
            Word::GoTo => self.obey_goto(rest, out),
            Word::Next => self.go_on(Some(depth), out),
            Word::ReverseNext => self.go_back(Some(depth), out),
            Word::Finish => self.obey_finish(out),
            Word::ReverseFinish => self.obey_reverse_finish(out),
            Word::Continue => self.go_on(None, out),
            Word::ReverseContinue => self.go_back(None, out),
            Word::Who => self.obey_who(rest, out),
            _ => Ok(()),
        }
    }
}
