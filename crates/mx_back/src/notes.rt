//! Notes of steps, the newest first, in two lists.

ghost use Rattle.std.specs.Prelude.{◌≡◌, ◌≤◌, ◌<◌, ◌+◌, ◌∷◌, [], ◌==◌, ℕ, IfOk, drop, length, nat_le, slice_get, take};
ghost use Rattle.std.specs.Vec.{vec_capacity};
ghost use Rattle.mx_back.specs.NoteLists.{PopsNote, notes_of};

use mx_core::Note;
use mx_word::NoMemory;
use std::alloc::Global;
use std::marker::Model;
use std::mem;

/// How many notes are kept at most.
const MOST: usize = 1024;

/// At most 1,024 notes. They are in two lists, with room for as many in each: the newer ones, and those before them. Once the
/// newer ones are 1,024 they take the place of the others, which go. So a note is added without a look for the oldest one.
#[derive(Drop)]
pub(crate) struct Notes {
    newer: Vec<Note>,
    older: Vec<Note>,
    kept: usize,
}

impl Model for Notes {
    ghost use Rattle.std.specs.Prelude.{List};
    ghost use Rattle.mx_core.specs.Undoing.{StateWas};
    ghost use Rattle.mx_back.specs.NoteLists.{notes_in, HoldsNotes};

    ghost Value = { List StateWas };

    ghost view = { notes_in };

    ghost invariant = { HoldsNotes };
}

impl Notes {
    /// No notes. The room for all is taken at once.
    ///
    /// Errors: `NoMemory` where there is no memory for it.
    pub(crate) fn new(alloc: Global) -> Result<Notes, NoMemory>
        ensures { IfOk result (λ notes. notes ≡ []) }
    {
        let newer = Vec::with_capacity(alloc, MOST)?;
        let older = Vec::with_capacity(alloc, MOST)?;
        Ok(Notes {
            newer,
            older,
            kept: 0,
        })
    }

    /// How many there are, at most 1,024.
    pub(crate) fn len(&self) -> usize
        ensures value { result ≡ length self.now }
        ensures most { result ≤ 1024 }
    {
        self.kept
    }

    /// Adds a note. Where there were 1,024, the oldest one goes.
    #[inline(always)]
    pub(crate) fn push(&mut self, note: Note)
        ensures { self.new ≡ take 1024 (note ∷ self.old) }
    {
        let Ok(()) = self.newer.push(note) else {
            unreachable!()
        };
        let kept = (self.kept + 1).min(MOST);
        self.kept = kept;
        turn_if_full(&mut self.newer, &mut self.older);
    }

    /// Takes the newest note, if there is one.
    pub(crate) fn pop(&mut self) -> Option<Note>
        ensures value { result ≡ slice_get self.old 0 }
        ensures rest { self.new ≡ drop 1 self.old }
    {
        if is_none(self.kept) {
            return None;
        }
        self.kept -= 1;
        pop_newest(&mut self.newer, &mut self.older)
    }

    /// There are no notes any more. They take up their memory until others take their place.
    pub(crate) fn clear(&mut self)
        ensures { self.new ≡ [] }
    {
        self.kept = 0;
    }
}

/// Where there are 1,024 newer ones, they take the place of the older ones.
#[inline(always)]
fn turn_if_full(newer: &mut Vec<Note>, older: &mut Vec<Note>)
    requires most { length newer.old.items ≤ 1024 }
    ensures same { (kept : ℕ) → kept ≤ 1024
        → notes_of newer.new.items older.new.items kept ≡ notes_of newer.old.items older.old.items kept }
    ensures there { (kept : ℕ) → kept ≤ 1024 → kept ≤ length newer.old.items + length older.old.items
        → kept ≤ length newer.new.items + length older.new.items }
    ensures fewer { length newer.new.items < 1024 }
    ensures newer_room { 1024 ≤ vec_capacity newer.old → 1024 ≤ vec_capacity older.old → 1024 ≤ vec_capacity newer.new }
    ensures older_room { 1024 ≤ vec_capacity newer.old → 1024 ≤ vec_capacity older.old → 1024 ≤ vec_capacity older.new }
{
    if !is_full(newer) {
        return;
    }
    turn(newer, older);
}

/// Whether a list has 1,024 notes.
#[inline(always)]
fn is_full(notes: &Vec<Note>) -> bool
    ensures { result ≡ nat_le 1024 (length notes.now.items) }
{
    notes.len() >= MOST
}

/// The newer ones take the place of the older ones.
#[inline(never)]
fn turn(newer: &mut Vec<Note>, older: &mut Vec<Note>)
    ensures none { newer.new.items ≡ [] }
    ensures moved { older.new.items ≡ newer.old.items }
    ensures newer_room { vec_capacity newer.new ≡ vec_capacity older.old }
    ensures older_room { vec_capacity older.new ≡ vec_capacity newer.old }
{
    older.clear();
    mem::swap(newer, older);
}

/// Whether a number is 0.
fn is_none(count: usize) -> bool
    ensures { result ≡ (count == 0) }
{
    count == 0
}

/// Takes the newest note of two lists.
fn pop_newest(newer: &mut Vec<Note>, older: &mut Vec<Note>) -> Option<Note>
    ensures gives { (kept : ℕ) → kept < length newer.old.items + length older.old.items
        → PopsNote result (notes_of newer.old.items older.old.items (kept + 1)) (notes_of newer.new.items older.new.items kept) }
    ensures there { length newer.old.items + length older.old.items ≤ length newer.new.items + length older.new.items + 1 }
    ensures fewer { length newer.new.items ≤ length newer.old.items }
    ensures newer_room { vec_capacity newer.new ≡ vec_capacity newer.old }
    ensures older_room { vec_capacity older.new ≡ vec_capacity older.old }
{
    match newer.pop() {
        Some(note) => Some(note),
        None => older.pop(),
    }
}
