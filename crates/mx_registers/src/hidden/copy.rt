//! A copy of the hidden octas.

ghost use Rattle.std.specs.Prelude.{◌≡◌, IfOk};

use super::Hidden;
use mx_word::NoMemory;

impl Hidden {
    /// The same hidden octas and the same stack area once more. `NoMemory` where there is no memory for them.
    pub fn copy(&self) -> Result<Hidden, NoMemory>
        ensures { IfOk result (λ h. h ≡ self.now) }
    {
        Ok(Hidden {
            alloc: self.alloc,
            list: self.list.copy(self.alloc)?,
            stack: self.stack.copy(self.alloc)?,
            spilled: self.spilled,
            limit: self.limit,
        })
    }
}
