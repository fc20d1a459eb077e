//! Lines, and the words that they begin with.

ghost use Rattle.std.specs.Prelude.{◌≡◌, false, OnOk};
ghost use Rattle.mx_debug.specs.Sessions.{KeepsProgram, KeepsStops};
ghost use Rattle.mx_debug.specs.Words as spec;
ghost use Rattle.mx_debug.specs.Words.{Deletes, Leads};

use crate::printing::print;
use crate::session::{Again, Session};
use crate::showing::info;
use mx_ask::{Asked, Word, add_help, add_unasked, cut_form, cut_word, find_word, trim_end};
use mx_word::{Bytes, NoMemory};

/// Whether a session goes on after a line.
#[derive(Clone, Copy)]
pub enum Flow {
    GoOn,
    Quit,
}

/// Whether a word goes to another step.
fn is_step_word(word: Word) -> bool
    ensures { result ≡ spec.goes word }
{
    match word {
        Word::Run
        | Word::Start
        | Word::Step
        | Word::ReverseStep
        | Word::GoTo
        | Word::Next
        | Word::ReverseNext
        | Word::Finish
        | Word::ReverseFinish
        | Word::Continue
        | Word::ReverseContinue
        | Word::Who => true,
        Word::Break
        | Word::Watch
        | Word::Delete
        | Word::Print
        | Word::Examine
        | Word::Backtrace
        | Word::Info
        | Word::List
        | Word::Help
        | Word::Quit => false,
    }
}

/// Whether a word changes the breaks or what is watched.
fn is_setting_word(word: Word) -> bool
    ensures { result ≡ spec.sets word }
{
    matches!(word, Word::Break | Word::Watch | Word::Delete)
}

/// Whether an empty line does again what a word does.
fn is_repeated(word: Word) -> bool {
    matches!(
        word,
        Word::Step
            | Word::ReverseStep
            | Word::Next
            | Word::ReverseNext
            | Word::Continue
            | Word::ReverseContinue
            | Word::Examine
            | Word::List
    )
}

impl Session {
    /// Notes the word that an empty line does again, if it is one.
    fn note_word(&mut self, word: Word)
        ensures { self.new ≡ self.old }
    {
        let again = if is_repeated(word) { Some(word) } else { None };
        self.again = Again {
            word: again,
            ..self.again
        };
    }

    /// Obeys a word that changes the breaks or what is watched.
    fn set(&mut self, word: Word, rest: &[u8], out: &mut Bytes) -> Result<(), NoMemory>
        ensures program { KeepsProgram self.old self.new }
        ensures place { self.new.at ≡ self.old.at }
        ensures deletes { word ≡ Word.Delete → OnOk result (Deletes self.old rest.now self.new) }
    {
        match word {
            Word::Break => self.obey_break(rest, out),
            Word::Watch => self.obey_watch(rest, out),
            _ => self.obey_delete(rest, out),
        }
    }

    /// Obeys a word that changes nothing.
    fn show(
        &mut self,
        word: Word,
        form: &[u8],
        rest: &[u8],
        out: &mut Bytes,
    ) -> Result<(), NoMemory>
        ensures { self.new ≡ self.old }
    {
        match word {
            Word::Print => print(out, &self.known.book, self.replay.machine(), form, rest),
            Word::Examine => self.obey_examine(form, rest, out),
            Word::Backtrace => self.obey_backtrace(out),
            Word::Info => info(out, &self.replay, &self.known, rest),
            Word::List => self.obey_list(rest, out),
            Word::Help => add_help(out, rest),
            _ => Ok(()),
        }
    }

    /// Obeys a word with the form after its stroke and what follows it, and adds the answer.
    ///
    /// Errors: out of memory; then it is at a step of the run all the same.
    #[tactic(auto, using(crate::proofs::Reaching::staying))]
    pub fn obey_word(
        &mut self,
        word: Word,
        form: &[u8],
        rest: &[u8],
        out: &mut Bytes,
    ) -> Result<(), NoMemory>
        ensures program { KeepsProgram self.old self.new }
        ensures leads { OnOk result (Leads self.old word rest.now self.new.at) }
        ensures place { spec.goes word ≡ false → self.new.at ≡ self.old.at }
        ensures stops { spec.sets word ≡ false → KeepsStops self.old self.new }
        ensures deletes { word ≡ Word.Delete → OnOk result (Deletes self.old rest.now self.new) }
    {
        self.note_word(word);
        if is_step_word(word) {
            self.go(word, rest, out)
        } else if is_setting_word(word) {
            self.set(word, rest, out)
        } else {
            self.show(word, form, rest, out)
        }
    }

    /// Does again what an empty line does again.
    fn repeat(&mut self, out: &mut Bytes) -> Result<(), NoMemory>
        ensures program { KeepsProgram self.old self.new }
        ensures stops { KeepsStops self.old self.new }
    {
        let again = self.again;
        match again.word {
            None => Ok(()),
            Some(Word::Step) => self.step_on(again.count, out),
            Some(Word::ReverseStep) => self.step_back(again.count, out),
            Some(Word::Examine) => self.examine_more(out),
            Some(Word::List) => self.obey_list(b"", out),
            Some(word) => self.go(word, b"", out),
        }
    }

    /// Obeys the word that is written so.
    fn obey_asked(
        &mut self,
        name: &[u8],
        form: &[u8],
        rest: &[u8],
        out: &mut Bytes,
    ) -> Result<Flow, NoMemory>
        ensures program { KeepsProgram self.old self.new }
    {
        match find_word(name) {
            Asked::Word(row) if row.word == Word::Quit => return Ok(Flow::Quit),
            Asked::Word(row) => self.obey_word(row.word, form, rest, out)?,
            Asked::Unknown => add_unasked(out, name, false)?,
            Asked::Ambiguous => add_unasked(out, name, true)?,
        }
        Ok(Flow::GoOn)
    }

    /// Obeys a line, and adds the answer.
    ///
    /// Errors: out of memory; then it is at a step of the run all the same.
    pub fn obey(&mut self, line: &[u8], out: &mut Bytes) -> Result<Flow, NoMemory>
        ensures program { KeepsProgram self.old self.new }
    {
        let (word, rest) = cut_word(trim_end(line));
        if word.is_empty() {
            self.repeat(out)?;
            return Ok(Flow::GoOn);
        }
        let (name, form) = cut_form(word);
        self.obey_asked(name, form, rest, out)
    }
}
