//! What is read of a machine.

ghost use Rattle.std.specs.Prelude.{◌≡◌};
ghost use Rattle.mx_core.specs.Kept.{state_of};
ghost use Rattle.mx_show.specs.Subjects.{octa_shown};
ghost use Rattle.mx_tell.specs.Values as spec;

use mx_book::Thing;
use mx_core::Machine;
use mx_word::octa_bytes;

/// The octa that holds an address; 0 where there is none.
#[tactic(auto, unfolding(mx_show::specs::Subjects::octa_shown))]
pub(crate) fn octa_at(machine: &Machine, a: u64) -> u64
    ensures { result ≡ octa_shown (state_of machine.now) a }
{
    if a < 1 << 63 { machine.octa(a) } else { 0 }
}

/// What the special register with a code has; 0 where there is none.
fn special_value(machine: &Machine, code: u8) -> u64
    ensures { result ≡ spec.special_value (state_of machine.now) code }
{
    if code < 32 { machine.special(code) } else { 0 }
}

/// What a thing has.
pub fn value_of(machine: &Machine, thing: Thing) -> u64
    ensures { result ≡ spec.value_of (state_of machine.now) thing }
{
    match thing {
        Thing::Register(k) => machine.register(k),
        Thing::Special(code) => special_value(machine, code),
        Thing::Octa(a) => octa_at(machine, a),
        Thing::Number(x) => x,
    }
}

/// The byte at an address; 0 where there is none.
pub(crate) fn byte_at(machine: &Machine, a: u64) -> u8 {
    let bytes = octa_bytes(octa_at(machine, a));
    bytes[(a % 8) as usize]
}

/// The tetra that holds an address; 0 where there is none.
pub(crate) fn tetra_at(machine: &Machine, a: u64) -> u32 {
    let octa = octa_at(machine, a);
    if a % 8 < 4 {
        (octa >> 32) as u32
    } else {
        (octa % (1 << 32)) as u32
    }
}
