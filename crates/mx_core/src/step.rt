//! One step.

ghost use Rattle.std.specs.Prelude.{◌≡◌, ◌≢◌, ◌<◌, ◌≤◌, ◌-◌, ◌^◌, IsTrue, true};
ghost use Rattle.mx_core.specs.Way.Calls.{KeepsOnErr, LacksMemoryOnlyWhere, MakesWithMemory};
ghost use Rattle.mx_core.specs.Deeds.{deed_at, outcome};
ghost use Rattle.mx_code.specs.Instructions.{instruction, operation_in};
ghost use Rattle.mx_core.specs.Kept.{state_of};
ghost use Rattle.mx_core.specs.Step as spec;
ghost use Rattle.mx_code.specs.Told.{answer_in};
ghost use Rattle.mx_core.specs.Walks.{Goes};
ghost use Rattle.mx_core.specs.Way.KeptPage.{IsHere, address_in};
ghost use Rattle.mx_core.specs.Way.Stepping.{HasAdvanced, HasStepped, needs_page, step_needs_page};

use crate::along::Next;
use crate::bounds::{know_steps, machines_keep_the_invariant};
use crate::{Machine, Reason, Trace};
use mx_alu::TrapCall;
use mx_code::{Instruction, Operation, Stop, Told};
use mx_word::is_in_stack_segment;

/// What a step comes to: the machine went on, with a trace; it calls a file trap, and is to be told its
/// result; it stopped; or it is out of memory. But for the first the machine is as it was.
#[derive(Clone, Copy, PartialEq, Eq)]
pub enum Step {
    Went(Trace),
    Trap(TrapCall),
    Stopped(Reason),
    OutOfMemory,
}

/// What a step comes to, without its trace or its call: the machine went on; it calls a file trap, and is to
/// be told its result; it stopped; or it is out of memory. But for the first the machine is as it was.
#[derive(Clone, Copy, Debug, PartialEq, Eq)]
pub enum Advance {
    Went,
    Trap,
    Stopped(Reason),
    OutOfMemory,
}

/// How many steps went on, one after another, and what the last call of a step came to: `Went` where as many
/// steps as were asked for went on, and else what the step after them comes to, which changed nothing.
#[derive(Clone, Copy)]
pub struct Advanced {
    pub made: u64,
    pub last: Advance,
}

impl Machine {
    /// One step. It takes memory only for a store to a page that is not there.
    pub fn step(&mut self) -> Step
        ensures answer { HasStepped result self.old self.new }
        ensures memory { result ≡ Step.OutOfMemory → state_of self.new ≡ state_of self.old }
        ensures lacks_memory { result ≡ Step.OutOfMemory → IsTrue (step_needs_page (state_of self.old)) }
    {
        let answer = self.step_with_trace();
        self.keep_code();
        answer
    }

    /// One step. The page of its instruction is not kept.
    fn step_with_trace(&mut self) -> Step
        ensures answer { HasStepped result self.old self.new }
        ensures memory { result ≡ Step.OutOfMemory → state_of self.new ≡ state_of self.old }
        ensures lacks_memory { result ≡ Step.OutOfMemory → IsTrue (step_needs_page (state_of self.old)) }
    {
        let at = self.pc();
        if at >= 1 << 63 {
            return Step::Stopped(Reason::Negative);
        }
        let i = self.fetch(at);
        match i.operation() {
            Operation::Trap => Step::Trap(self.trap_call(&i)),
            _ => self.follow(&i),
        }
    }

    /// The call of the TRAP at the next address.
    pub(crate) fn trap_call(&self, i: &Instruction) -> TrapCall
        requires { i.now ≡ spec.fetched (state_of self.now) }
        ensures { result ≡ spec.call_of (state_of self.now) }
    {
        TrapCall {
            pc: i.at,
            word: i.word,
            arg: self.register(255),
        }
    }

    /// A step with its trace at an instruction that is no TRAP.
    pub(crate) fn follow(&mut self, i: &Instruction) -> Step
        requires fetched { i.now ≡ spec.fetched (state_of self.old) }
        requires range { (state_of self.old).pc < 2 ^ 63 }
        requires no_trap { operation_in i.now ≢ Operation.Trap }
        ensures answer { HasStepped result self.old self.new }
        ensures memory { result ≡ Step.OutOfMemory → state_of self.new ≡ state_of self.old }
        ensures lacks_memory { result ≡ Step.OutOfMemory →
            IsTrue (needs_page (state_of self.old) (deed_at (state_of self.old) i.now)) }
    {
        let sight = self.sight_at(i);
        match self.carry_out_fetched(i) {
            Ok(()) => {
                self.note_where(is_in_stack_segment(i.at));
                Step::Went(Trace {
                    pc: i.at,
                    word: i.word,
                    dest: sight.dest,
                    reads: sight.reads,
                    writes: self.touch_written(&sight),
                    next: self.pc(),
                })
            }
            Err(Stop::Stopped(reason)) => Step::Stopped(reason),
            Err(Stop::OutOfMemory) => Step::OutOfMemory,
        }
    }

    /// One step without its trace. It takes memory only for a store to a page that is not there.
    pub fn advance(&mut self) -> Advance
        ensures answer { HasAdvanced result self.old self.new }
        ensures memory { result ≡ Advance.OutOfMemory → state_of self.new ≡ state_of self.old }
        ensures lacks_memory { result ≡ Advance.OutOfMemory → IsTrue (step_needs_page (state_of self.old)) }
    {
        self.advance_many(1).last
    }

    /// At most `n` steps without their traces, up to the first that does not go on. They take memory only
    /// for a store to a page that is not there.
    #[inline(never)]
    pub fn advance_many(&mut self, n: u64) -> Advanced
        ensures goes { Goes result.made (state_of self.old) (state_of self.new) }
        ensures most { result.made ≤ n }
        ensures all { result.last ≡ Advance.Went → result.made ≡ n }
        ensures fewer { result.last ≢ Advance.Went → result.made < n }
        ensures last { result.last ≢ Advance.Went → HasAdvanced result.last self.new self.new }
        ensures lacks_memory { result.last ≡ Advance.OutOfMemory → IsTrue (step_needs_page (state_of self.new)) }
    {
        let mut left = n;
        loop {
            left = self.make_usual_ones(left);
            if left == 0 {
                return Advanced {
                    made: n,
                    last: Advance::Went,
                };
            }
            machines_keep_the_invariant(self);
            match self.advance_and_keep() {
                Advance::Went => left -= 1,
                last => {
                    return Advanced {
                        made: n - left,
                        last,
                    };
                }
            }
        }
    }

    /// At most `n` steps on the page of instructions that is kept, up to the first that is no usual one or leads
    /// elsewhere. How many of the `n` are left. It is a call, which several processors make for each turn of one step.
    #[inline(never)]
    pub fn make_usual_ones(&mut self, n: u64) -> u64
        ensures goes { Goes (n - result) (state_of self.old) (state_of self.new) }
        ensures most { result ≤ n }
    {
        match self.find_index() {
            Some(index) => self.make_from(index, n),
            None => n,
        }
    }

    /// The same from the instruction with a number on, which is the next one.
    #[inline(always)]
    fn make_from(&mut self, first: u64, n: u64) -> u64
        requires here { IsHere self.old first }
        requires at { (state_of self.old).pc ≡ address_in self.old first }
        ensures goes { Goes (n - result) (state_of self.old) (state_of self.new) }
        ensures most { result ≤ n }
    {
        know_steps(self);
        let place = self.memory.kept_place();
        let mut index = first;
        let mut made = 0;
        while made < n {
            machines_keep_the_invariant(self);
            match self.advance_at(place, index) {
                Next::At(j) => index = j,
                Next::To(j) => {
                    if j > 1024 {
                        self.place_at(j, made + 1);
                        return n - (made + 1);
                    }
                    index = j;
                    made += 1;
                    continue;
                }
                Next::Unmade => {
                    self.place_at(index, made);
                    return n - made;
                }
            }
            made += 1;
        }
        self.place_at(index, made);
        0
    }

    /// One step without its trace, after which the page of its instruction is kept.
    #[inline(always)]
    fn advance_and_keep(&mut self) -> Advance
        ensures answer { HasAdvanced result self.old self.new }
        ensures memory { result ≡ Advance.OutOfMemory → state_of self.new ≡ state_of self.old }
        ensures lacks_memory { result ≡ Advance.OutOfMemory → IsTrue (step_needs_page (state_of self.old)) }
    {
        let answer = self.advance_general();
        self.keep_code();
        answer
    }

    /// One step without its trace, for each address and each instruction.
    #[inline(never)]
    fn advance_general(&mut self) -> Advance
        ensures answer { HasAdvanced result self.old self.new }
        ensures memory { result ≡ Advance.OutOfMemory → state_of self.new ≡ state_of self.old }
        ensures lacks_memory { result ≡ Advance.OutOfMemory → IsTrue (step_needs_page (state_of self.old)) }
    {
        let at = self.pc();
        if at >= 1 << 63 {
            return Advance::Stopped(Reason::Negative);
        }
        let i = self.fetch(at);
        match i.operation() {
            Operation::Trap => Advance::Trap,
            _ => self.make(&i),
        }
    }

    /// A step at an instruction that is no TRAP.
    #[inline(always)]
    fn make(&mut self, i: &Instruction) -> Advance
        requires fetched { i.now ≡ spec.fetched (state_of self.old) }
        requires range { (state_of self.old).pc < 2 ^ 63 }
        requires no_trap { operation_in i.now ≢ Operation.Trap }
        ensures answer { HasAdvanced result self.old self.new }
        ensures memory { result ≡ Advance.OutOfMemory → state_of self.new ≡ state_of self.old }
        ensures lacks_memory { result ≡ Advance.OutOfMemory →
            IsTrue (needs_page (state_of self.old) (deed_at (state_of self.old) i.now)) }
    {
        match self.carry_out_fetched(i) {
            Ok(()) => {
                self.note_where(is_in_stack_segment(i.at));
                Advance::Went
            }
            Err(Stop::Stopped(reason)) => stop_for(reason),
            Err(Stop::OutOfMemory) => Advance::OutOfMemory,
        }
    }

    /// The instruction at the next address.
    #[inline(always)]
    pub(crate) fn fetch(&self, at: u64) -> Instruction
        requires next { at ≡ (state_of self.now).pc }
        requires range { at < 2 ^ 63 }
        ensures { result ≡ spec.fetched (state_of self.now) }
    {
        Instruction::new(at, self.tetra(at))
    }

    /// Carries an instruction of a program out, which is no TRAP.
    #[tactic(auto, using(crate::proofs::Results::Unchanged::unchanged))]
    #[inline(always)]
    fn carry_out_fetched(&mut self, i: &Instruction) -> Result<(), Stop>
        requires { i.now ≡ instruction i.now.at i.now.word }
        ensures answer { MakesWithMemory (λ s. outcome s (deed_at s i.now)) result self.old self.new }
        ensures err { KeepsOnErr result self.old self.new }
        ensures lacks_memory { LacksMemoryOnlyWhere
            (needs_page (state_of self.old) (deed_at (state_of self.old) i.now)) result }
    {
        self.carry_out(i.at, i.word).into_result()
    }

    /// Carries an instruction of a program out, which is no TRAP. It is given words and no reference, so
    /// that a frequent instruction need not be in memory.
    #[tactic(auto, using(crate::proofs::Results::Unchanged::unchanged))]
    #[inline(never)]
    fn carry_out(&mut self, at: u64, word: u32) -> Told
        ensures answer { MakesWithMemory (λ s. outcome s (deed_at s (instruction at word)))
            (answer_in result) self.old self.new }
        ensures err { KeepsOnErr (answer_in result) self.old self.new }
        ensures lacks_memory { LacksMemoryOnlyWhere
            (needs_page (state_of self.old) (deed_at (state_of self.old) (instruction at word))) (answer_in result) }
    {
        let i = Instruction::new(at, word);
        match i.operation() {
            Operation::Resume => Told::from_result(self.resume(&i)),
            _ => Told::from_result(self.perform(&i)),
        }
    }
}

/// A step that stopped. It is a call, so that a step that goes on chooses between no answers.
#[inline(never)]
fn stop_for(reason: Reason) -> Advance
    ensures { result ≡ Advance.Stopped reason }
{
    Advance::Stopped(reason)
}
