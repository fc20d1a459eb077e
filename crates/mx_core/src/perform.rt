//! One instruction, by its operation.
ghost use Rattle.std.specs.Prelude.{◌≡◌, false};
ghost use Rattle.mx_core.specs.Way.Calls.{KeepsOnErr, LacksMemoryOnlyWhere, Performs, PerformsWithMemory};
ghost use Rattle.mx_core.specs.Deeds.{deed_of};
ghost use Rattle.mx_code.specs.Instructions.{operation_in};
ghost use Rattle.mx_core.specs.Kept.{state_of};
ghost use Rattle.mx_core.specs.Way.Stepping.{may_store, needs_page};

use crate::{Machine, Reason};
use mx_code::{Instruction, Operation, Stop};

impl Machine {
    /// Carries an instruction out. It takes memory only for a store that begins a page.
    ///
    /// Errors: the stops of the instruction, and out of memory; then nothing changed.
    #[tactic(auto, using(crate::proofs::Results::Unchanged::unchanged))]
    #[inline(always)]
    pub(crate) fn perform(&mut self, i: &Instruction) -> Result<(), Stop>
        ensures answer { PerformsWithMemory (operation_in i.now) i.now result self.old self.new }
        ensures err { KeepsOnErr result self.old self.new }
        ensures lacks_memory { LacksMemoryOnlyWhere
            (needs_page (state_of self.old) (deed_of (operation_in i.now) (state_of self.old) i.now)) result }
    {
        match i.operation() {
            Operation::Store(how) => self.store_register(how, i),
            Operation::CompareAndSwap => self.swap(i),
            _ => self.perform_without_store(i),
        }
    }

    /// Carries an instruction out that stores nothing. It takes no memory.
    ///
    /// Errors: the stops of the instruction; then nothing changed.
    #[tactic(auto, using(crate::proofs::Results::Others::stops))]
    #[inline(always)]
    pub(crate) fn perform_without_store(&mut self, i: &Instruction) -> Result<(), Stop>
        requires { may_store (operation_in i.now) ≡ false }
        ensures { Performs (operation_in i.now) i.now result self.old self.new }
    {
        match i.operation() {
            Operation::Compute => self.compute(i),
            Operation::Load(how) => self.load(how, i),
            Operation::Branch => self.branch(i),
            Operation::Wyde => self.set_wyde(i),
            Operation::Negate => self.negate(i),
            Operation::ConditionalSet => self.conditional_set(i),
            Operation::ZeroOrSet => self.zero_or_set(i),
            Operation::Address => self.get_address(i),
            Operation::Jump => self.jump(i),
            Operation::PushJump => self.push_jump(i),
            Operation::Pop => self.pop(i),
            Operation::Go => self.go(i),
            Operation::PushGo => self.push_go(i),
            Operation::Get => self.get_special(i),
            Operation::Put => self.put_special(i),
            Operation::Nothing => self.do_nothing(i),
            Operation::Synchronize => self.synchronize(i),
            Operation::Save => self.save(i),
            Operation::Unsave => self.unsave(i),
            Operation::Trip => self.trip_at_once(i),
            Operation::Float => Err(Stop::Stopped(Reason::Float)),
            Operation::Privileged => Err(Stop::Stopped(Reason::Privileged)),
            Operation::Resume => Err(Stop::Stopped(Reason::Illegal)),
            // A TRAP; what stores does not come here.
            _ => Err(Stop::Stopped(Reason::ResumeInsert)),
        }
    }
}
