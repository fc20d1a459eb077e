//! A copy of the machine.

ghost use Rattle.std.specs.Prelude.{◌≡◌, IfOk};
ghost use Rattle.mx_core.specs.Kept.{state_of};

use crate::Machine;
use mx_word::NoMemory;

impl Machine {
    /// The same machine once more, with memory of its own. It takes the time for as many pages and hidden octas.
    ///
    /// Errors: out of memory alone.
    pub fn copy(&self) -> Result<Machine, NoMemory>
        ensures { IfOk result (λ machine. machine ≡ self.now) }
    {
        Ok(Machine {
            alloc: self.alloc,
            pc: self.pc,
            ring: self.ring.copy()?,
            memory: self.memory.copy()?,
            special: self.special,
            mark: self.mark,
            touched: self.touched,
            steps: self.steps,
        })
    }

    /// How many pages its memory has, at most 65,536.
    #[tactic(auto, unfolding(crate::specs::Kept::state_of))]
    pub fn pages(&self) -> u32
        ensures { result ≡ (state_of self.now).page_count }
    {
        self.memory.pages()
    }
}
