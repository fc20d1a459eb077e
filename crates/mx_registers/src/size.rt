//! How many registers the machine keeps outside its memory.

ghost use Rattle.std.specs.Prelude.{◌≡◌};
ghost use Rattle.mx_registers.specs.RingSizes.{ring_size_of};

use std::marker::Model;

/// The size of the ring of registers: a power of two from 256 to 65,536.
#[derive(Clone, Copy, Debug, PartialEq, Eq)]
pub struct RingSize {
    registers: u32,
}

impl Model for RingSize {
    ghost use Rattle.std.specs.Prelude.{ℕ, IsTrue};
    ghost use Rattle.mx_registers.specs.RingSizes.{is_ring_size};

    ghost Value = { ℕ };

    ghost view = { λ s. s.registers };

    ghost invariant = { λ s. IsTrue (is_ring_size s.registers) };

    ghost inverse = { λ n. record { registers = n } };
}

impl RingSize {
    /// The size of `n` registers; nothing exactly where `n` is no power of two from 256 to 65,536.
    pub fn of(n: u32) -> Option<RingSize>
        ensures { result ≡ ring_size_of n }
    {
        if 256 <= n && n <= 65_536 && n.is_power_of_two() {
            return Some(RingSize { registers: n });
        }
        None
    }

    /// The number of registers of the ring: a power of two from 256 to 65,536.
    pub fn registers(&self) -> u32
        ensures { result ≡ self.now }
    {
        self.registers
    }
}
