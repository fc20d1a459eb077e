//! Usual instructions that do more than give a value or go elsewhere. Each is given with its code as a literal.

ghost use Rattle.std.specs.Prelude.{◌≡◌, ◌≢◌, ◌<◌, ◌/◌, ◌%◌, ℕ, IsTrue, true};
ghost use Rattle.mx_code.specs.Instructions.{code_of, instruction, next_of, operation_in, x_of};
ghost use Rattle.mx_core.specs.Deeds.{deed_at, deed_of, outcome};
ghost use Rattle.mx_core.specs.Effects.{data_address};
ghost use Rattle.mx_core.specs.Kept.{state_of};
ghost use Rattle.mx_core.specs.Way.Calls.{KeepsWhereNot, MakesBefore, MakesWhereTold, settled, settled_with, store_outcome, told_specials};
ghost use Rattle.mx_core.specs.Way.KeptPage.{IsHere, IsReached, KeepsPlace, KeepsUnmade, MakesNext, ReadsNoCount, address_in};
ghost use Rattle.mx_core.specs.Way.Noting.{PutsLink, StoresBelow};

use crate::Machine;
use crate::along::{Next, lead_by, lead_on};
use crate::plain::plain_answer;
use crate::values::measure_near;
use mx_alu::Answer;
use mx_code::{Instruction, Operation, Storing, convert_stored, is_store_overflow, part_of_store};
use mx_mem::Part;
use mx_ops::codes::{RH, RJ, RR};

impl Machine {
    /// MULU, DIV and DIVU in plain cases, which give more than a result.
    #[inline(always)]
    pub(crate) fn give_at(&mut self, index: u64, code: u8, word: u32) -> Next
        requires here { IsHere self.old index }
        requires before { index < 1024 }
        requires code { code ≡ code_of (instruction index word) }
        ensures made { MakesNext (λ s. outcome s (deed_at s (instruction (address_in self.old index) word))) result
            self.old self.new }
        ensures plain { result ≢ Next.Unmade → ReadsNoCount (instruction (address_in self.old index) word) }
        ensures kept { KeepsUnmade result self.old self.new }
        ensures within { IsReached result }
        ensures code { KeepsPlace self.old self.new }
    {
        let i = Instruction::with_code(self.locate(index), code, word);
        match i.operation() {
            Operation::Compute => {
                if self.give_if_plain(&i) {
                    lead_on(index)
                } else {
                    Next::Unmade
                }
            }
            _ => Next::Unmade,
        }
    }

    /// GO.
    #[inline(always)]
    pub(crate) fn go_at(&mut self, index: u64, code: u8, word: u32) -> Next
        requires here { IsHere self.old index }
        requires before { index < 1024 }
        requires code { code ≡ code_of (instruction index word) }
        ensures made { MakesNext (λ s. outcome s (deed_at s (instruction (address_in self.old index) word))) result
            self.old self.new }
        ensures plain { result ≢ Next.Unmade → ReadsNoCount (instruction (address_in self.old index) word) }
        ensures kept { KeepsUnmade result self.old self.new }
        ensures within { IsReached result }
        ensures code { KeepsPlace self.old self.new }
    {
        let i = Instruction::with_code(self.locate(index), code, word);
        match i.operation() {
            Operation::Go => {
                let a = self.data_address(&i);
                match self.set(i.x(), i.next()) {
                    Ok(()) => self.lead_to(a),
                    Err(_) => Next::Unmade,
                }
            }
            _ => Next::Unmade,
        }
    }

    /// STB to STCO.
    #[inline(always)]
    pub(crate) fn store_at(&mut self, index: u64, code: u8, word: u32) -> Next
        requires here { IsHere self.old index }
        requires before { index < 1024 }
        requires code { code ≡ code_of (instruction index word) }
        ensures made { MakesNext (λ s. outcome s (deed_at s (instruction (address_in self.old index) word))) result
            self.old self.new }
        ensures plain { result ≢ Next.Unmade → ReadsNoCount (instruction (address_in self.old index) word) }
        ensures kept { KeepsUnmade result self.old self.new }
        ensures within { IsReached result }
        ensures code { KeepsPlace self.old self.new }
    {
        let i = Instruction::with_code(self.locate(index), code, word);
        match i.operation() {
            Operation::Store(how) => {
                if self.store_register_if_near(how, &i) {
                    lead_on(index)
                } else {
                    Next::Unmade
                }
            }
            _ => Next::Unmade,
        }
    }

    /// PUSHJ.
    #[inline(always)]
    pub(crate) fn push_at(&mut self, index: u64, code: u8, word: u32) -> Next
        requires here { IsHere self.old index }
        requires before { index < 1024 }
        requires code { code ≡ code_of (instruction index word) }
        ensures made { MakesNext (λ s. outcome s (deed_at s (instruction (address_in self.old index) word))) result
            self.old self.new }
        ensures plain { result ≢ Next.Unmade → ReadsNoCount (instruction (address_in self.old index) word) }
        ensures kept { KeepsUnmade result self.old self.new }
        ensures within { IsReached result }
        ensures code { KeepsPlace self.old self.new }
    {
        let i = Instruction::with_code(self.locate(index), code, word);
        match i.operation() {
            Operation::PushJump => match self.push(i.x()) {
                Ok(()) => {
                    self.put(RJ, i.next());
                    lead_by(index, measure_near(&i))
                }
                Err(_) => Next::Unmade,
            },
            _ => Next::Unmade,
        }
    }

    /// POP.
    #[inline(always)]
    pub(crate) fn pop_at(&mut self, index: u64, code: u8, word: u32) -> Next
        requires here { IsHere self.old index }
        requires before { index < 1024 }
        requires code { code ≡ code_of (instruction index word) }
        ensures made { MakesNext (λ s. outcome s (deed_at s (instruction (address_in self.old index) word))) result
            self.old self.new }
        ensures plain { result ≢ Next.Unmade → ReadsNoCount (instruction (address_in self.old index) word) }
        ensures kept { KeepsUnmade result self.old self.new }
        ensures within { IsReached result }
        ensures code { KeepsPlace self.old self.new }
    {
        let i = Instruction::with_code(self.locate(index), code, word);
        match i.operation() {
            Operation::Pop => {
                let a = self.special(RJ).wrapping_add(4 * i.yz());
                match self.pop_registers(i.x()) {
                    Ok(()) => self.lead_to(a),
                    Err(_) => Next::Unmade,
                }
            }
            _ => Next::Unmade,
        }
    }

    /// PUT of rJ, which is in each subroutine that calls others.
    #[inline(always)]
    pub(crate) fn put_at(&mut self, index: u64, code: u8, word: u32) -> Next
        requires here { IsHere self.old index }
        requires before { index < 1024 }
        requires code { code ≡ code_of (instruction index word) }
        ensures made { MakesNext (λ s. outcome s (deed_at s (instruction (address_in self.old index) word))) result
            self.old self.new }
        ensures plain { result ≢ Next.Unmade → ReadsNoCount (instruction (address_in self.old index) word) }
        ensures kept { KeepsUnmade result self.old self.new }
        ensures within { IsReached result }
        ensures code { KeepsPlace self.old self.new }
    {
        let i = Instruction::with_code(self.locate(index), code, word);
        match i.operation() {
            Operation::Put => {
                if i.x() == RJ && i.y() == 0 {
                    self.put(RJ, self.z_operand(&i));
                    lead_on(index)
                } else {
                    Next::Unmade
                }
            }
            _ => Next::Unmade,
        }
    }

    /// What MULU, DIV and DIVU give in plain cases.
    #[tactic(auto, using(crate::proofs::Results::Events::compute_given))]
    #[inline(always)]
    fn give_if_plain(&mut self, i: &Instruction) -> bool
        requires { operation_in i.now ≡ Operation.Compute }
        ensures made { MakesBefore (λ s. outcome s (deed_of Operation.Compute s i.now)) (next_of i.now) result
            self.old self.new }
        ensures kept { KeepsWhereNot result self.old self.new }
        ensures code { KeepsPlace self.old self.new }
    {
        let (y, z) = (self.y_operand(i), self.z_operand(i));
        match plain_answer::<0>(i.code(), y, z, self.extra()) {
            Some(a) => self.set_answer(i.x(), &a),
            None => false,
        }
    }

    /// $k, rH and rR get what an answer tells, if there is room for the register.
    #[inline(always)]
    fn set_answer(&mut self, k: u8, a: &Answer) -> bool
        ensures made { (n : ℕ) → MakesBefore (λ s. settled_with s k a.now.x (told_specials a.now) n) n result self.old self.new }
        ensures kept { KeepsWhereNot result self.old self.new }
        ensures code { KeepsPlace self.old self.new }
    {
        match self.set(k, a.x) {
            Ok(()) => {
                self.put_told(RH, a.h);
                self.put_told(RR, a.r);
                true
            }
            Err(_) => false,
        }
    }

    /// What STB to STCO store below Stack_Segment, where the page is near and no sign is lost.
    #[inline(always)]
    fn store_register_if_near(&mut self, how: Storing, i: &Instruction) -> bool
        ensures made { MakesBefore (λ s. outcome s (deed_of (Operation.Store how) s i.now)) (next_of i.now) result
            self.old self.new }
        ensures kept { KeepsWhereNot result self.old self.new }
        ensures code { KeepsPlace self.old self.new }
    {
        let a = self.data_address(i);
        let x = self.x_register(i);
        if is_store_overflow(how, x) {
            return false;
        }
        self.store_if_near(a, part_of_store(how), convert_stored(how, x, i.x()))
    }

    /// STB to STCO below Stack_Segment, where the page is near and no sign is lost. Each caller has its own, by a number, so that
    /// it is inlined there.
    #[tactic(auto)]
    #[inline(always)]
    pub(crate) fn store_if_usual<const CALLER: usize>(
        &mut self,
        how: Storing,
        i: &Instruction,
    ) -> bool
        ensures made { MakesWhereTold (λ s. outcome s (deed_of (Operation.Store how) s i.now)) result self.old self.new }
        ensures stores { IsTrue result →
            StoresBelow (state_of self.old) (state_of self.new) (data_address (state_of self.old) i.now) }
        ensures kept { KeepsWhereNot result self.old self.new }
    {
        let a = self.data_address(i);
        let x = self.x_register(i);
        if is_store_overflow(how, x) {
            return false;
        }
        if self.store_if_near(a, part_of_store(how), convert_stored(how, x, i.x())) {
            self.go_to(i.next());
            true
        } else {
            false
        }
    }

    /// PUT of rJ, which is in each subroutine that calls others.
    #[tactic(auto, using(crate::proofs::Results::Puts::put_link))]
    #[inline(always)]
    pub(crate) fn put_link_if_usual(&mut self, i: &Instruction) -> bool
        requires { operation_in i.now ≡ Operation.Put }
        ensures made { MakesWhereTold (λ s. outcome s (deed_of Operation.Put s i.now)) result self.old self.new }
        ensures puts { IsTrue result → PutsLink (state_of self.old) (state_of self.new) }
        ensures kept { KeepsWhereNot result self.old self.new }
    {
        if i.x() != RJ || i.y() != 0 {
            return false;
        }
        self.put(RJ, self.z_operand(i));
        self.go_to(i.next());
        true
    }

    /// $X gets a value, and the machine goes on at an address, if there is room for the register.
    #[tactic(auto, unfolding(crate::specs::Way::Calls::set_outcome, crate::specs::Way::Calls::settled))]
    #[inline(always)]
    pub(crate) fn settle_if_room(&mut self, i: &Instruction, x: u64) -> bool
        requires aligned { i.now.at % 4 ≡ 0 }
        requires low { i.now.at < 0x6000_0000_0000_0000 }
        ensures made { MakesWhereTold (λ s. settled s (x_of i.now) x (next_of i.now)) result self.old self.new }
        ensures kept { KeepsWhereNot result self.old self.new }
    {
        match self.set(i.x(), x) {
            Ok(()) => {
                self.go_on(i.at);
                true
            }
            Err(_) => false,
        }
    }

    /// The low bytes of `x` are stored in the part that holds an address, if that is below Stack_Segment and its
    /// page is near.
    #[tactic(auto, unfolding(crate::specs::Kept::state_of, crate::specs::State::octa, crate::specs::State::with_octa, crate::specs::Way::Calls::store_outcome))]
    #[inline(always)]
    fn store_if_near(&mut self, a: u64, part: Part, x: u64) -> bool
        ensures made { MakesWhereTold (λ s. store_outcome s a part x) result self.old self.new }
        ensures low { IsTrue result → a < 0x6000_0000_0000_0000 }
        ensures there { IsTrue result → (state_of self.old).pages (a / 4096) ≡ true }
        ensures kept { KeepsWhereNot result self.old self.new }
        ensures code { KeepsPlace self.old self.new }
    {
        self.memory.store_part_if_near(a, part, x)
    }
}
