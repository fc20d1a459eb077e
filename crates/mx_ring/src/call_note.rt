//! Notes of calls that few registers and few hidden octas take part in.

ghost use Rattle.std.specs.Prelude.{◌≡◌, length};
ghost use Rattle.mx_ring.specs.Notes.{FitsHidden, registers_undone, hidden_undone};

use mx_registers::{Hidden, Visible};
use std::marker::Model;

/// What PUSHJ or POP overwrote, where at most 8 registers were local, nothing was spilled, and at most 8 hidden octas left
/// the ring: the local registers and these octas. By it the call is taken back.
#[derive(Drop)]
pub struct CallNote {
    pub(crate) local_count: usize,
    pub(crate) locals: [u64; 8],
    pub(crate) spilled: usize,
    pub(crate) stays: usize,
    pub(crate) gone_count: usize,
    pub(crate) gone: [u64; 8],
}

impl Model for CallNote {
    ghost use Rattle.mx_ring.specs.Notes.{RingWas};

    ghost Value = { RingWas };

    ghost use Rattle.mx_ring.specs.NoteParts.{call_in, CallHolds};

    ghost view = { call_in };

    ghost invariant = { CallHolds };
}

impl CallNote {
    /// Gives the registers back what the note has of them.
    pub(crate) fn give_registers(&self, visible: &mut Visible)
        ensures { visible.new ≡ registers_undone self.now.registers visible.old }
    {
        visible.bring_back(&self.locals[..self.local_count], 0);
    }

    /// Puts the hidden octas back that the note has.
    #[tactic(auto, unfolding(crate::specs::Notes::hidden_undone))]
    pub(crate) fn give_hidden(&self, hidden: &mut Hidden)
        requires { FitsHidden self.now hidden.old }
        ensures { hidden.new ≡ hidden_undone self.now hidden.old }
    {
        hidden.put_back(self.spilled, &[], self.stays, &self.gone[..self.gone_count]);
    }
}

/// Eight octas as an array.
#[inline(always)]
pub(crate) fn eight_of(octas: &[u64]) -> [u64; 8]
    requires { length octas.now ≡ 8 }
    ensures { result ≡ octas.now }
{
    let mut eight = [0; 8];
    copy_all(&mut eight, octas);
    eight
}

/// Other octas in place of as many.
#[inline(always)]
fn copy_all(octas: &mut [u64], others: &[u64])
    requires { length octas.old ≡ length others.now }
    ensures { octas.new ≡ others.now }
{
    octas.copy_from_slice(others);
}
