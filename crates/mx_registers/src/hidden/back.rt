//! What is overwritten among the hidden octas, and how it is put back.

ghost use Rattle.std.specs.Prelude.{◌≡◌, ◌≤◌, ◌<◌, ◌+◌, ◌^◌, ℕ, IfOk, OnErr, Err, length, take, drop};
ghost use Rattle.mx_word.specs.Lists.{with_part};
ghost use Rattle.mx_registers.specs.HiddenPart.{octas_of, put_back, rewound};

use super::{Hidden, ROOM, limit_for};
use crate::RingFault;
use crate::slices::append;

impl Hidden {
    /// The octas of the stack area after the spilled ones: this many, or as many as there are.
    ///
    /// Errors: `OutOfMemory` alone.
    pub fn copy_after_spilled(&mut self, count: usize) -> Result<Vec<u64>, RingFault>
        ensures same { self.new ≡ self.old }
        ensures octas { IfOk result (λ list. list.items ≡ take count (drop self.old.spilled self.old.stack)) }
        ensures memory { OnErr result (result ≡ Err RingFault.OutOfMemory) }
    {
        let count = count.min(ROOM - self.spilled);
        let mut list = Vec::with_capacity(self.alloc, count)?;
        self.stack
            .append_to(self.spilled, self.spilled + count, &mut list);
        Ok(list)
    }

    /// The hidden octas in the ring without the first `stays`.
    ///
    /// Errors: `OutOfMemory` alone.
    pub fn copy_residents_from(&self, stays: usize) -> Result<Vec<u64>, RingFault>
        ensures octas { IfOk result (λ list. list.items ≡ drop stays self.now.resident) }
        ensures memory { OnErr result (result ≡ Err RingFault.OutOfMemory) }
    {
        let resident = &self.list.as_slice()[self.spilled..];
        let gone = &resident[stays.min(resident.len())..];
        let mut list = Vec::with_capacity(self.alloc, gone.len())?;
        append(&mut list, gone);
        Ok(list)
    }

    /// This many octas are spilled, and these follow them in the stack area, within its 2^20; of the hidden octas in
    /// the ring this many stay, and these follow, at most 2^20 in all. Where more octas are spilled than were, none stays.
    /// It takes no memory.
    pub fn put_back(&mut self, spilled: usize, over: &[u64], stays: usize, gone: &[u64])
        requires area { spilled + length over.now ≤ 2 ^ 20 }
        requires stays { stays ≤ 2 ^ 20 }
        requires order { self.old.spilled < spilled → stays ≡ 0 }
        requires room { length (octas_of (put_back self.old spilled over.now stays gone.now)) ≤ 2 ^ 20 }
        ensures { self.new ≡ put_back self.old spilled over.now stays gone.now }
    {
        self.rewind(spilled, stays);
        self.overwrite(over);
        self.append(gone);
    }

    /// This many octas are spilled, and of the hidden octas in the ring this many stay.
    fn rewind(&mut self, spilled: usize, stays: usize)
        requires inside { spilled ≤ 2 ^ 20 }
        requires stays { stays ≤ 2 ^ 20 }
        requires order { self.old.spilled < spilled → stays ≡ 0 }
        ensures { self.new ≡ rewound self.old spilled stays }
    {
        if spilled <= self.spilled {
            return self.unspill(spilled, stays);
        }
        self.take_stack(spilled);
    }

    /// This many octas are spilled, no more than before, and of the hidden octas in the ring this many stay.
    fn unspill(&mut self, spilled: usize, stays: usize)
        requires fewer { spilled ≤ self.old.spilled }
        requires stays { stays ≤ 2 ^ 20 }
        ensures { self.new ≡ rewound self.old spilled stays }
    {
        self.list.truncate(spilled + stays);
        self.spilled = spilled;
        self.limit = limit_for(spilled);
    }

    /// Overwrites as many octas of the stack area after the spilled ones.
    fn overwrite(&mut self, octas: &[u64])
        requires { self.old.spilled + length octas.now ≤ 2 ^ 20 }
        ensures { self.new ≡ record self.old { stack = with_part self.old.stack self.old.spilled octas.now } }
    {
        self.stack.write(self.spilled, octas);
    }
}
