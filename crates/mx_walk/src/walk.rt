//! A walk over the lines of a source.

ghost use Rattle.std.specs.Prelude.{◌≡◌, ◌≢◌, ◌+◌, ◌++◌, ◌∷◌, [], IfOk, OnOk};
ghost use Rattle.mx_asm.specs.Faults.{no_memory};
ghost use Rattle.mx_line.specs.Lines.{lines_of};
ghost use Rattle.mx_marks.specs.Mending.{with_newline};
ghost use Rattle.mx_walk.specs.Walks as spec;

use crate::lines::{finish_source, separate_no_memory};
use mx_asm::{Assembler, Refused};
use mx_mmo::Items;
use mx_word::{Bytes, NoMemory};
use std::alloc::Global;
use std::marker::Model;

/// A text that is refused so as the next line, and whether the walk is as it was before it.
#[derive(Drop)]
pub struct Stop {
    pub text: Bytes,
    pub refused: Refused,
    pub is_kept: bool,
}

/// A text that is refused so.
fn make_stop(alloc: Global, text: &[u8], refused: Refused, is_kept: bool) -> Result<Stop, NoMemory>
    ensures stop { IfOk result (λ s. s ≡ record { text = text.now; refused = refused; is_kept = is_kept }) }
    ensures memory { OnOk result (refused ≢ no_memory) }
{
    let refused = separate_no_memory(refused)?;
    let text = Bytes::copy(alloc, text)?;
    Ok(Stop {
        text,
        refused,
        is_kept,
    })
}

/// A walk over the lines of a source: the lines that were taken so far, each with a newline, the number of the next one, and the
/// assembler after them. Another text may be taken in the place of a line that was refused.
#[derive(Drop)]
pub struct Walk {
    assembler: Assembler,
    front: Bytes,
    number: u32,
}

impl Model for Walk {
    ghost use Rattle.mx_walk.specs.Walks.{Walk};

    ghost Value = { Walk };

    ghost view = { λ w. record { assembler = w.assembler; front = w.front; number = w.number } };
}

impl Walk {
    /// Before the first line.
    #[tactic(auto, using(crate::proofs::Turns::taking))]
    pub fn begin(alloc: Global) -> Result<Walk, NoMemory>
        ensures at { IfOk result spec.IsAt }
        ensures front { IfOk result (λ walk. walk.front ≡ []) }
    {
        Ok(Walk {
            assembler: Assembler::new(alloc)?,
            front: Bytes::new(alloc),
            number: 1,
        })
    }

    /// The number of the next line, counted from 1.
    pub fn number(&self) -> u32
        ensures { result ≡ self.now.number }
    {
        self.number
    }

    /// The lines that were taken, each with a newline.
    pub fn read_taken_lines(&self) -> &[u8]
        ensures { result.now ≡ self.now.front }
    {
        self.front.as_slice()
    }

    /// Adds a line to those that were taken.
    fn add(&mut self, line: &[u8]) -> Result<(), NoMemory>
        ensures { OnOk result (self.new ≡
            record self.old { front = self.old.front ++ with_newline line.now; number = self.old.number + 1 }) }
    {
        let Some(next) = self.number.checked_add(1) else {
            return Err(NoMemory);
        };
        self.front.extend(line)?;
        self.front.extend(b"\n")?;
        self.number = next;
        Ok(())
    }

    /// Takes a text as the next line, which has no newline, or gives its refusal. Every source that begins with the lines that were
    /// taken and this one is refused so then; and the walk may be as it was before, so that another text can be taken in its place.
    #[tactic(auto, using(crate::proofs::Turns::taking))]
    pub fn take(&mut self, alloc: Global, line: &[u8]) -> Result<Option<Stop>, NoMemory>
        requires at { spec.IsAt self.old }
        requires plain { spec.IsPlain line.now }
        ensures { IfOk result (λ stop. spec.HasTurned self.old self.new line.now stop) }
    {
        let mut items = Items::new(alloc);
        match self.assembler.try_line(line, &mut items) {
            Ok(Ok(())) => {
                self.add(line)?;
                Ok(None)
            }
            Ok(Err(refused)) => Ok(Some(make_stop(alloc, line, refused, true)?)),
            Err(refused) => Ok(Some(make_stop(alloc, line, refused, false)?)),
        }
    }

    /// Why the source of the lines that were taken is refused when it is assembled, if it is.
    #[tactic(auto, using(crate::proofs::Turns::taking))]
    pub fn finish(&mut self, alloc: Global) -> Result<Option<Refused>, NoMemory>
        requires at { spec.IsAt self.old }
        ensures refused { IfOk result (λ refused. refused ≡ spec.source_refusal self.old.front) }
        ensures front { self.new.front ≡ self.old.front }
    {
        Ok(finish_source(alloc, &mut self.assembler)?.err())
    }

    /// A source of the lines that were taken, a text as the next line, and the lines of a rest.
    #[tactic(auto, using(crate::proofs::Turns::taking))]
    pub fn source_with_line(
        &self,
        alloc: Global,
        text: &[u8],
        rest: &[u8],
    ) -> Result<Bytes, NoMemory>
        requires text { spec.IsText self.now.front }
        requires plain { spec.IsPlain text.now }
        ensures { IfOk result (λ source.
            lines_of source ≡ lines_of (self.now.front ++ spec.text_of (text.now ∷ lines_of rest.now))) }
    {
        let mut source = Bytes::copy(alloc, self.front.as_slice())?;
        source.extend(text)?;
        source.extend(b"\n")?;
        source.extend(rest)?;
        Ok(source)
    }
}
