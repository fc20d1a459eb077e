//! A copy of the register stack.

ghost use Rattle.std.specs.Prelude.{◌≡◌, IfOk};

use super::Ring;
use mx_word::NoMemory;

impl Ring {
    /// The same registers, hidden octas and stack area once more. `NoMemory` where there is no memory for them.
    pub fn copy(&self) -> Result<Ring, NoMemory>
        ensures { IfOk result (λ ring. ring ≡ self.now) }
    {
        Ok(Ring {
            alloc: self.alloc,
            visible: self.visible.copy(),
            hidden: self.hidden.copy()?,
            size: self.size,
        })
    }
}
