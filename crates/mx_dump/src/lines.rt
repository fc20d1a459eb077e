//! The dump, line by line.

ghost use Rattle.std.specs.Prelude.{◌≡◌, ◌<◌, ◌^◌, ◌∷◌, [], IfOk};
ghost use Rattle.mx_core.specs.Kept.{state_of};
ghost use Rattle.mx_core.specs.Way.Search.{IsNextBetween};
ghost use Rattle.mx_core.specs.State.{octa};
ghost use Rattle.mx_files.specs.Clauses.{DoesPart};
ghost use Rattle.mx_files.specs.FilePlans.{lines_plan};
ghost use Rattle.mx_dump.specs.Dump as spec;
ghost use Rattle.mx_dump.specs.Shown.{IsNextShown, shown_octa};

use mx_core::{Machine, is_in_stack_area};
use mx_files::write_line;
use mx_host::Host;
use mx_ops::codes::RS;
use mx_ops::special_name;
use mx_outcome::Outcome;
use mx_ring::AREA_END;
use mx_text::{add_decimal, octa_hex};
use mx_word::{Bytes, NoMemory};
use std::alloc::Global;

/// The first address that no octa has.
const END: u64 = 1 << 63;

/// A name and an octa as a line.
fn format_octa_line(name: Bytes, x: u64) -> Result<Bytes, NoMemory>
    ensures { IfOk result (λ line. line ≡ spec.named_octa name x) }
{
    let mut line = name;
    line.extend(b"=")?;
    line.extend(&octa_hex(x))?;
    line.extend(b"\n")?;
    Ok(line)
}

/// Whether a special register is shown.
fn is_special_shown(machine: &Machine, code: u8) -> bool
    ensures { result ≡ spec.is_special_shown (state_of machine.now) code }
{
    machine.touched() || code != RS
}

/// The line of a special register.
fn special_text(alloc: Global, machine: &Machine, code: u8) -> Result<Bytes, NoMemory>
    requires { code < 32 }
    ensures { IfOk result (λ line. line ≡ spec.special_text (state_of machine.now) code) }
{
    let name = Bytes::copy(alloc, special_name(code).as_bytes())?;
    format_octa_line(name, machine.special(code))
}

/// Writes the line of a special register, if it is shown.
fn put_special<H: Host>(
    alloc: Global,
    host: &mut H,
    machine: &Machine,
    code: u8,
) -> Result<(), Outcome>
    requires { code < 32 }
    ensures { DoesPart H.told H.faults host.old host.new result
        (lines_plan (spec.special_line (state_of machine.now) code)) }
{
    if !is_special_shown(machine, code) {
        return Ok(());
    }
    let line = special_text(alloc, machine, code)?;
    write_line(host, line.as_slice())
}

/// Writes the lines of the special registers.
fn put_specials<H: Host>(alloc: Global, host: &mut H, machine: &Machine) -> Result<(), Outcome>
    ensures { DoesPart H.told H.faults host.old host.new result
        (lines_plan (spec.special_lines (state_of machine.now))) }
{
    for code in 0..32u8 {
        put_special(alloc, host, machine, code)?;
    }
    Ok(())
}

/// Whether a register is local or global.
fn is_register_shown(machine: &Machine, k: u8) -> bool
    ensures { result ≡ spec.is_register_shown (state_of machine.now) k }
{
    k < machine.l() || machine.g() <= k
}

/// The line of a register.
fn register_text(alloc: Global, machine: &Machine, k: u8) -> Result<Bytes, NoMemory>
    ensures { IfOk result (λ line. line ≡ spec.register_text (state_of machine.now) k) }
{
    let mut name = Bytes::copy(alloc, b"$")?;
    add_decimal(&mut name, u64::from(k))?;
    format_octa_line(name, machine.register(k))
}

/// Writes the line of a register, if it is local or global.
fn put_register<H: Host>(
    alloc: Global,
    host: &mut H,
    machine: &Machine,
    k: u8,
) -> Result<(), Outcome>
    ensures { DoesPart H.told H.faults host.old host.new result
        (lines_plan (spec.register_line (state_of machine.now) k)) }
{
    if !is_register_shown(machine, k) {
        return Ok(());
    }
    let line = register_text(alloc, machine, k)?;
    write_line(host, line.as_slice())
}

/// Writes the lines of the registers.
fn put_registers<H: Host>(alloc: Global, host: &mut H, machine: &Machine) -> Result<(), Outcome>
    ensures { DoesPart H.told H.faults host.old host.new result
        (lines_plan (spec.register_lines (state_of machine.now))) }
{
    for k in 0..256u16 {
        put_register(alloc, host, machine, k as u8)?;
    }
    Ok(())
}

/// The line of an octa.
fn octa_text(alloc: Global, a: u64, x: u64) -> Result<Bytes, NoMemory>
    ensures { IfOk result (λ line. line ≡ shown_octa a x) }
{
    let mut name = Bytes::copy(alloc, b"M")?;
    name.extend(&octa_hex(a))?;
    format_octa_line(name, x)
}

/// Writes the line of an octa.
pub fn put_octa<H: Host>(alloc: Global, host: &mut H, a: u64, x: u64) -> Result<(), Outcome>
    ensures { DoesPart H.told H.faults host.old host.new result (lines_plan (shown_octa a x ∷ [])) }
{
    let line = octa_text(alloc, a, x)?;
    write_line(host, line.as_slice())
}

/// Whether an octa at an address is shown, if it is not 0.
fn is_address_shown(machine: &Machine, a: u64) -> bool
    ensures { result ≡ spec.is_address_shown (state_of machine.now) a }
{
    machine.touched() || !is_in_stack_area(a)
}

/// The first octa other than 0 from an address on: its address and its value.
fn next_octa(machine: &Machine, from: u64) -> Option<(u64, u64)>
    ensures { IsNextBetween (octa (state_of machine.now)) from (2 ^ 63) result }
{
    if from >= END {
        return None;
    }
    match machine.next_nonzero(from) {
        Some((a, x)) => { if a < END { Some((a, x)) } else { None } }
        None => None,
    }
}

/// The first octa from an address on that is shown: its address and its value.
#[tactic(auto, using(crate::proofs::Dumps::showing))]
fn next_shown(machine: &Machine, from: u64) -> Option<(u64, u64)>
    ensures { IsNextShown (state_of machine.now) from result }
{
    match next_octa(machine, from) {
        Some((a, x)) => {
            if is_address_shown(machine, a) {
                Some((a, x))
            } else {
                next_octa(machine, AREA_END)
            }
        }
        None => None,
    }
}

/// Writes the lines of the octas that are shown.
fn put_octas<H: Host>(alloc: Global, host: &mut H, machine: &Machine) -> Result<(), Outcome>
    ensures { DoesPart H.told H.faults host.old host.new result
        (lines_plan (spec.octa_lines (state_of machine.now) spec.octa_count)) }
{
    let mut from = 0u64;
    while let Some((a, x)) = next_shown(machine, from) {
        put_octa(alloc, host, a, x)?;
        from = a + 8;
    }
    Ok(())
}

/// Writes the dump of a machine to the tool's standard output, up to a line that is not written: the special registers,
/// the registers and memory.
pub fn dump<H: Host>(alloc: Global, host: &mut H, machine: &Machine) -> Result<(), Outcome>
    ensures { DoesPart H.told H.faults host.old host.new result
        (lines_plan (spec.dump_lines (state_of machine.now))) }
{
    put_specials(alloc, host, machine)?;
    put_registers(alloc, host, machine)?;
    put_octas(alloc, host, machine)
}
