//! All that a machine shows, as one number.

use mx_core::Machine;

/// The first octa of Stack_Segment.
const BASE: u64 = 0x6000_0000_0000_0000;

/// A digest with an octa more.
fn with(digest: u64, octa: u64) -> u64 {
    (digest ^ octa)
        .wrapping_mul(0x9e37_79b9_7f4a_7c15)
        .rotate_left(23)
}

/// The digest of the next address, the steps, L, G, whether rS shows, the registers, the special registers, the first
/// octas of the stack area, and those of memory that are not 0.
pub fn digest_of(machine: &Machine) -> u64 {
    let small = with(with(0, machine.pc()), machine.steps());
    let counts = u64::from(machine.l()) + 256 * u64::from(machine.g());
    let all = with(with(small, counts), u64::from(machine.touched()));
    with_memory(
        with_area(
            with_specials(with_registers(all, machine), machine),
            machine,
        ),
        machine,
    )
}

fn with_registers(digest: u64, machine: &Machine) -> u64 {
    let mut all = digest;
    for k in 0..256u64 {
        all = with(all, machine.register((k & 0xff) as u8));
    }
    all
}

fn with_specials(digest: u64, machine: &Machine) -> u64 {
    let mut all = digest;
    for code in 0..32u8 {
        all = with(all, machine.special(code));
    }
    all
}

fn with_area(digest: u64, machine: &Machine) -> u64 {
    let mut all = digest;
    for i in 0..600u64 {
        all = with(all, machine.octa(BASE + 8 * i));
    }
    all
}

fn with_memory(digest: u64, machine: &Machine) -> u64 {
    let mut all = digest;
    let mut from = 0u64;
    for _ in 0..600 {
        if from >= 1 << 63 {
            return all;
        }
        match machine.next_nonzero(from) {
            Some((at, octa)) => {
                all = with(with(all, at), octa);
                from = at.wrapping_add(8);
            }
            None => return all,
        }
    }
    all
}
