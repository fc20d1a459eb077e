//! The lines that print a step and the state.

ghost use Rattle.std.specs.Prelude.{◌≡◌, ◌++◌, IfOk, OnOk, codes, decimal};
ghost use Rattle.mx_text.specs.Numbers as numbers;
ghost use Rattle.mx_core.specs.Kept.{state_of};
ghost use Rattle.mx_show.specs.Subjects.{octa_shown};
ghost use Rattle.mx_show.specs.Texts as spec;

use mx_core::{Machine, Touch, Trace};
use mx_text::{add_decimal, instruction, octa_hex, tetra_hex};
use mx_word::{Bytes, NoMemory};
use std::alloc::Global;

/// Adds an octa in hexadecimal form.
pub(crate) fn add_hex(text: &mut Bytes, x: u64) -> Result<(), NoMemory>
    ensures { OnOk result (text.new ≡ text.old ++ numbers.hex_text x) }
{
    text.extend(&octa_hex(x))
}

/// The octa that holds an address; 0 where there is none.
#[tactic(auto, unfolding(crate::specs::Subjects::octa_shown))]
pub(crate) fn octa_at(machine: &Machine, a: u64) -> u64
    ensures { result ≡ octa_shown (state_of machine.now) a }
{
    if a < 1 << 63 { machine.octa(a) } else { 0 }
}

/// The line of a step that was made, over the machine that it leaves: the address, the tetra, the
/// instruction and what it changed. It ends with its newline.
#[tactic(auto, unfolding(crate::specs::Texts::trace_text))]
pub fn trace_line(alloc: Global, trace: &Trace, machine: &Machine) -> Result<Bytes, NoMemory>
    ensures { IfOk result (λ text. text ≡ spec.ended (spec.trace_text trace.now (state_of machine.now))) }
{
    let mut text = step_text(alloc, trace)?;
    add_destination(&mut text, machine, trace.dest)?;
    add_write(&mut text, machine, trace.writes)?;
    add_trap(&mut text, machine, trace.word)?;
    add_next(&mut text, trace.pc, trace.next)?;
    text.push(b'\n')?;
    Ok(text)
}

/// The address, the tetra and the instruction of a step.
#[tactic(auto, unfolding(crate::specs::Texts::step_text))]
fn step_text(alloc: Global, trace: &Trace) -> Result<Bytes, NoMemory>
    ensures { IfOk result (λ text. text ≡ spec.step_text trace.now) }
{
    let mut text = Bytes::copy(alloc, &octa_hex(trace.pc))?;
    text.push(b' ')?;
    text.extend(&tetra_hex(trace.word))?;
    text.push(b' ')?;
    text.extend(instruction(alloc, trace.word, trace.pc)?.as_slice())?;
    Ok(text)
}

/// Adds the destination, where there is one.
fn add_destination(text: &mut Bytes, machine: &Machine, dest: Option<u8>) -> Result<(), NoMemory>
    ensures { OnOk result (text.new ≡ text.old ++ spec.destination_text (state_of machine.now) dest) }
{
    let Some(k) = dest else {
        return Ok(());
    };
    text.extend(b" $")?;
    add_decimal(text, u64::from(k))?;
    text.push(b'=')?;
    add_hex(text, machine.register(k))
}

/// Adds the octa that was written, where there is one.
fn add_write(text: &mut Bytes, machine: &Machine, writes: Option<Touch>) -> Result<(), NoMemory>
    ensures { OnOk result (text.new ≡ text.old ++ spec.write_text (state_of machine.now) writes) }
{
    let Some(touch) = writes else {
        return Ok(());
    };
    text.extend(b" M")?;
    add_hex(text, touch.at / 8 * 8)?;
    text.push(b'=')?;
    add_hex(text, octa_at(machine, touch.at))
}

/// Adds $255, which a file trap gives a value.
fn add_trap(text: &mut Bytes, machine: &Machine, word: u32) -> Result<(), NoMemory>
    ensures { OnOk result (text.new ≡ text.old ++ spec.trap_text (state_of machine.now) word) }
{
    if word >> 24 != 0 {
        return Ok(());
    }
    text.extend(b" $255=")?;
    add_hex(text, machine.register(255))
}

/// Adds the next address, where it is not that of the tetra after it.
fn add_next(text: &mut Bytes, pc: u64, next: u64) -> Result<(), NoMemory>
    ensures { OnOk result (text.new ≡ text.old ++ spec.next_text pc next) }
{
    if next == pc.wrapping_add(4) {
        return Ok(());
    }
    text.extend(b" -> ")?;
    add_hex(text, next)
}

/// The line on the state: the steps made, the address of the next instruction, L and G. It ends with
/// its newline.
#[tactic(auto, unfolding(crate::specs::Texts::state_text))]
pub fn state_line(alloc: Global, machine: &Machine) -> Result<Bytes, NoMemory>
    ensures { IfOk result (λ text. text ≡ spec.ended (spec.state_text (state_of machine.now))) }
{
    let mut text = Bytes::copy(alloc, b"steps ")?;
    add_decimal(&mut text, machine.steps())?;
    text.extend(b" at ")?;
    add_hex(&mut text, machine.pc())?;
    text.extend(b" L ")?;
    add_decimal(&mut text, u64::from(machine.l()))?;
    text.extend(b" G ")?;
    add_decimal(&mut text, u64::from(machine.g()))?;
    text.push(b'\n')?;
    Ok(text)
}
