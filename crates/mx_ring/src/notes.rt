//! Notes of what a call overwrites, by which it is taken back.

ghost use Rattle.std.specs.Prelude.{◌≡◌, ◌<◌, ◌^◌, ℕ, length, IfOk, OnErr, Err};
ghost use Rattle.mx_ring.specs.Bounds.{IsRing};
ghost use Rattle.mx_ring.specs.NoteParts.{before_in};
ghost use Rattle.mx_ring.specs.Notes.{WorkNeeds, ring_noted, registers_noted};
ghost use Rattle.mx_ring.specs.Notes.{TakesBack, LocalsFit, FitsHidden, registers_undone, hidden_undone, given_back, some, all};
ghost use Rattle.mx_ring.specs.Laws.{Sets, SetsAndStores, SetsBoth, StoreIsUndone, Stores, WorkIsGiven, Works};
ghost use Rattle.mx_registers.specs.Registers.{value_of};
ghost use Rattle.mx_ring.specs.Window.{Window};
ghost use Rattle.mx_ring.specs.declared.notes.RingWork.{RingWork};
ghost use Rattle.mx_ring.specs.declared.notes.RingWork.TheVariants.{Set};

use crate::{RingFault, Saved};
use mx_registers::{Hidden, Visible};
use std::alloc::Global;
use std::marker::Model;

/// The calls of the register stack that change it, with what each is given.
#[derive(Clone, Copy)]
pub enum RingWork {
    Set(u8, u64),
    Push(u8),
    Pop(u8),
    Save(u8, Saved),
    Unsave(u64),
    CutLocals(u8),
    SetGlobalStart(u8),
    SetOcta(u32, u64),
}

/// What the registers were before a call: L, and what $k and $255 had, or all of them.
#[derive(Drop)]
pub(crate) enum Before {
    Some {
        local_count: u8,
        place: u8,
        value: u64,
        last: u64,
    },
    All(Box<Visible>),
}

/// What a call of the register stack overwrote: by it the call is taken back.
#[derive(Drop)]
pub struct RingNote {
    pub(crate) registers: Before,
    pub(crate) spilled: usize,
    pub(crate) over: Vec<u64>,
    pub(crate) stays: usize,
    pub(crate) gone: Vec<u64>,
    pub(crate) octa: Option<(u32, u64)>,
}

impl Model for RingNote {
    ghost use Rattle.mx_ring.specs.Notes.{RingWas};

    ghost Value = { RingWas };

    ghost use Rattle.mx_ring.specs.NoteParts.{note_in};

    ghost view = { note_in };
}

impl RingNote {
    /// Gives the registers back what the note has of them.
    pub(crate) fn give_registers(&self, visible: &mut Visible)
        requires { LocalsFit self.now.registers visible.old }
        ensures { visible.new ≡ registers_undone self.now.registers visible.old }
    {
        match &self.registers {
            Before::Some {
                local_count,
                place,
                value,
                last,
            } => {
                visible.truncate(usize::from(*local_count));
                give(visible, *place, *value);
                give(visible, 255, *last);
            }
            Before::All(registers) => visible.copy_from(registers),
        }
    }

    /// Puts the hidden octas and those of the stack area back that the note has.
    #[tactic(auto, unfolding(crate::specs::Notes::hidden_undone))]
    pub(crate) fn give_hidden(&self, hidden: &mut Hidden)
        requires { FitsHidden self.now hidden.old }
        ensures { hidden.new ≡ hidden_undone self.now hidden.old }
    {
        match self.octa {
            Some((i, x)) => {
                hidden.set_octa(i as usize, x);
                hidden.put_back(self.spilled, &self.over, self.stays, &self.gone);
            }
            None => hidden.put_back(self.spilled, &self.over, self.stays, &self.gone),
        }
    }
}

/// Gives $k a value, unless it is neither local nor global.
fn give(visible: &mut Visible, k: u8, x: u64)
    ensures { visible.new ≡ given_back visible.old k x }
{
    if !visible.is_marginal(k) {
        visible.set(k, x);
    }
}

/// What a call notes of the registers.
///
/// Errors: `OutOfMemory` alone.
#[tactic(auto, unfolding(crate::specs::Notes::registers_noted))]
pub(crate) fn note_registers(
    alloc: Global,
    work: RingWork,
    visible: &Visible,
) -> Result<Before, RingFault>
    ensures note { IfOk result (λ before. before_in before ≡ registers_noted work visible.now) }
    ensures memory { OnErr result (result ≡ Err RingFault.OutOfMemory) }
{
    match work {
        RingWork::Set(k, _) => Ok(some_registers(visible, k)),
        RingWork::SetOcta(_, _) => Ok(some_registers(visible, 255)),
        _ => all_registers(alloc, visible),
    }
}

/// L, and what $k and $255 have.
fn some_registers(visible: &Visible, k: u8) -> Before
    ensures { before_in result
        ≡ some (length visible.now.locals) k (value_of visible.now k) (value_of visible.now 255) }
{
    Before::Some {
        local_count: visible.local_count() as u8,
        place: k,
        value: visible.get(k),
        last: visible.get(255),
    }
}

/// All registers.
///
/// Errors: `OutOfMemory` alone.
fn all_registers(alloc: Global, visible: &Visible) -> Result<Before, RingFault>
    ensures note { IfOk result (λ before. before_in before ≡ all visible.now) }
    ensures memory { OnErr result (result ≡ Err RingFault.OutOfMemory) }
{
    Ok(Before::All(Box::new(alloc, visible.copy())?))
}

/// What a call notes takes the stack after it back to the one before it: every register, every hidden octa, the number
/// of spilled ones, and every octa of the stack area.
pub fn notes_take_back()
    ensures { (w v : Window) (work : RingWork) → IsRing w → WorkNeeds work w → WorkIsGiven work w
        → Works work w v → TakesBack (ring_noted work w) v w }
{}

/// The note of a value for $X takes back, too, what a trip does after it: it gives $255 a value.
pub fn notes_take_trips_back()
    ensures { (w u v : Window) (k x y : ℕ) → IsRing w → Sets w k x u → Sets u 255 y v
        → TakesBack (ring_noted (Set k x) w) v w }
{}

/// The note of an octa of the stack area and of $k takes both back: a store, and a value for $k after it.
pub fn notes_take_stores_back()
    ensures { (w u v : Window) (i z k x : ℕ) → IsRing w → i < 2 ^ 20 → Stores w i z u → Sets u k x v
        → StoreIsUndone i k w v }
{}

/// One note takes back what a step does: it gives $k a value, an octa of the stack area another one, and $255 a value.
pub fn notes_take_steps_back()
    ensures value { (w v : Window) (k x y : ℕ) → IsRing w → SetsBoth w k x y v
        → TakesBack (ring_noted (Set k x) w) v w }
    ensures octa { (w v : Window) (i z k x y : ℕ) → IsRing w → i < 2 ^ 20 → SetsAndStores w k x i z y v
        → StoreIsUndone i k w v }
{}
