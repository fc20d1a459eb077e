//! A copy of the stack area.

ghost use Rattle.std.specs.Prelude.{◌≡◌, IfOk};

use super::Area;
use crate::hidden::ROOM;
use crate::slices::append;
use mx_word::NoMemory;
use std::alloc::Global;

impl Area {
    /// An area with the same octas. `NoMemory` where there is no memory for it.
    pub(crate) fn copy(&self, alloc: Global) -> Result<Area, NoMemory>
        ensures { IfOk result (λ a. a ≡ self.now) }
    {
        let mut octas = Vec::with_capacity(alloc, ROOM)?;
        append(&mut octas, self.octas.as_slice());
        Ok(Area { octas })
    }
}
