//! What a step changed.

use crate::things::{add_change, add_thing, add_usual};
use crate::values::{octa_at, tetra_at, value_of};
use mx_book::{Book, Thing};
use mx_core::{Machine, Touch, Trace};
use mx_ops::codes::{RC, RL, RO, RS};
use mx_word::{Bytes, NoMemory};

/// What there was before a step: the registers, the special registers, and the octa at the address that the next instruction
/// computes from its fields.
#[derive(Drop)]
pub struct Before {
    registers: [u64; 256],
    special: [u64; 32],
    address: u64,
    octa: u64,
}

/// The code of POP.
const POP: u32 = 0xf8;

/// The code of TRAP.
const TRAP: u32 = 0x00;

/// This many values are shown of a call or a return, and no more.
const TOLD: u64 = 8;

/// The registers of a machine.
fn registers_of(machine: &Machine) -> [u64; 256] {
    let mut registers = [0; 256];
    for k in 0..256usize {
        registers[k] = machine.register(k as u8);
    }
    registers
}

/// The special registers of a machine.
fn specials_of(machine: &Machine) -> [u64; 32] {
    let mut special = [0; 32];
    for code in 0..32usize {
        special[code] = machine.special(code as u8);
    }
    special
}

/// The third operand of an instruction: $Z, or Z itself where the code is odd.
fn third(machine: &Machine, word: u32) -> u64 {
    let z = (word % 256) as u8;
    if word >> 24 & 1 == 1 {
        u64::from(z)
    } else {
        machine.register(z)
    }
}

/// The address that an instruction stores to, if it is one that stores.
fn address_of(machine: &Machine, word: u32) -> u64 {
    let y = ((word >> 8) % 256) as u8;
    machine.register(y).wrapping_add(third(machine, word))
}

impl Before {
    /// What there is in a machine, before its next step.
    pub fn of(machine: &Machine) -> Before {
        let address = address_of(machine, tetra_at(machine, machine.pc()));
        Before {
            registers: registers_of(machine),
            special: specials_of(machine),
            address,
            octa: octa_at(machine, address),
        }
    }
}

/// Adds what a register has, if it is another value than before, or the one that the step gave it.
fn add_register(
    text: &mut Bytes,
    book: &Book,
    k: u8,
    old: u64,
    new: u64,
    dest: Option<u8>,
) -> Result<(), NoMemory> {
    if old != new {
        return add_change(text, book, Thing::Register(k), old, new);
    }
    if dest != Some(k) {
        return Ok(());
    }
    add_thing(text, book, Thing::Register(k))?;
    text.extend(b" = ")?;
    add_usual(text, book, new)?;
    text.extend(b"  (as before)\n")
}

/// Adds the registers that a step changed.
fn add_registers(
    text: &mut Bytes,
    book: &Book,
    before: &Before,
    dest: Option<u8>,
    machine: &Machine,
) -> Result<(), NoMemory> {
    for k in 0..256usize {
        let new = machine.register(k as u8);
        add_register(text, book, k as u8, before.registers[k], new, dest)?;
    }
    Ok(())
}

/// Adds what a register has.
fn add_held(text: &mut Bytes, book: &Book, machine: &Machine, k: u8) -> Result<(), NoMemory> {
    add_thing(text, book, Thing::Register(k))?;
    text.extend(b" = ")?;
    add_usual(text, book, machine.register(k))?;
    text.push(b'\n')
}

/// Whether a step came to other registers: by a call, or a return.
fn has_moved_registers(before: &Before, machine: &Machine) -> bool {
    before.special[usize::from(RO)] != machine.special(RO)
}

/// The first register that a call or a return has given a value: of a return the first result, of a call the first argument.
fn first_given_register(before: &Before, trace: &Trace, machine: &Machine) -> u8 {
    if trace.word >> 24 != POP {
        return 0;
    }
    let x = u64::from((trace.word >> 16) % 256);
    let locals = before.special[usize::from(RL)];
    let results = x.min(locals.saturating_add(1));
    machine.l().saturating_sub(results.min(255) as u8)
}

/// Adds the arguments of a call, or the results of a return.
fn add_given(
    text: &mut Bytes,
    book: &Book,
    before: &Before,
    trace: &Trace,
    machine: &Machine,
) -> Result<(), NoMemory> {
    let first = first_given_register(before, trace, machine);
    for k in first..machine.l() {
        if u64::from(k.saturating_sub(first)) < TOLD {
            add_held(text, book, machine, k)?;
        }
    }
    Ok(())
}

/// Whether a special register goes with traps: rBB, rWW, rXX, rYY or rZZ.
fn is_of_traps(code: u8) -> bool {
    code == 7 || 28 <= code
}

/// Whether a special register is told where a step changes it. Those that each trap changes are told of no trap.
fn is_told(code: u8, word: u32) -> bool {
    let is_counted = code == RC || code == RO || code == RS || code == RL;
    !is_counted && (word >> 24 != TRAP || !is_of_traps(code))
}

/// Adds a special register, if it is told and has another value than before.
fn add_special(
    text: &mut Bytes,
    book: &Book,
    code: u8,
    old: u64,
    new: u64,
    word: u32,
) -> Result<(), NoMemory> {
    if old == new || !is_told(code, word) {
        return Ok(());
    }
    add_change(text, book, Thing::Special(code), old, new)
}

/// Adds the special registers that a step changed.
fn add_specials(
    text: &mut Bytes,
    book: &Book,
    before: &Before,
    word: u32,
    machine: &Machine,
) -> Result<(), NoMemory> {
    for code in 0..32usize {
        let new = machine.special(code as u8);
        add_special(text, book, code as u8, before.special[code], new, word)?;
    }
    Ok(())
}

/// Adds an octa that a step wrote, and what it had, if that is known.
fn add_octa(
    text: &mut Bytes,
    book: &Book,
    before: &Before,
    touch: Touch,
    machine: &Machine,
) -> Result<(), NoMemory> {
    let thing = Thing::Octa(touch.at);
    let new = value_of(machine, thing);
    if touch.at / 8 == before.address / 8 {
        return add_change(text, book, thing, before.octa, new);
    }
    add_thing(text, book, thing)?;
    text.extend(b" = ")?;
    add_usual(text, book, new)?;
    text.push(b'\n')
}

/// Adds what a step changed, a line for each value: registers; special registers, but those that count steps and registers and,
/// of a trap, those that each trap changes; and the octa that was written. After a call its arguments are told, and after a return
/// its results, since all registers have other numbers then.
pub fn add_changes(
    text: &mut Bytes,
    book: &Book,
    before: &Before,
    trace: &Trace,
    machine: &Machine,
) -> Result<(), NoMemory> {
    if has_moved_registers(before, machine) {
        add_given(text, book, before, trace, machine)?;
    } else {
        add_registers(text, book, before, trace.dest, machine)?;
    }
    add_specials(text, book, before, trace.word, machine)?;
    match trace.writes {
        Some(touch) => add_octa(text, book, before, touch, machine),
        None => Ok(()),
    }
}
