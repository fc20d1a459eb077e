//! A program that starts with the arguments `p` and `ab`, by the rules of the simulator.

use crate::row::{has_octa, has_special, start_with};
use mx_core::Machine;
use mx_start::StartFault;
use mx_word::Bytes;
use std::alloc::Global;
use std::test::Fail;

/// Addresses, and the octas there.
static OCTAS: [(u64, u64); 7] = [
    // the first free address, and the two pointers
    (0x4000_0000_0000_0000, 0x4000_0000_0000_0030),
    (0x4000_0000_0000_0008, 0x4000_0000_0000_0020),
    (0x4000_0000_0000_0010, 0x4000_0000_0000_0028),
    (0x4000_0000_0000_0018, 0),
    // the two texts
    (0x4000_0000_0000_0020, 0x7000_0000_0000_0000),
    (0x4000_0000_0000_0028, 0x6162_0000_0000_0000),
    // nothing follows them
    (0x4000_0000_0000_0030, 0),
];

/// Codes of special registers, and what they have.
static SPECIALS: [(u8, u64); 8] = [
    (9, 0x0100_0000_0000_0000), // rN
    (10, 0x6000_0000_0000_0000), // rO
    (11, 0x6000_0000_0000_0000), // rS
    (13, 0x8000_0005_0000_0000), // rT
    (14, 0x8000_0006_0000_0000), // rTT
    (15, u64::MAX), // rK
    (18, 0x369c_2004_0000_0000), // rV
    (20, 2), // rL
];

/// The machine at the start.
fn machine(alloc: Global) -> Result<Machine, Fail> {
    let args = [Bytes::copy(alloc, b"p")?, Bytes::copy(alloc, b"ab")?];
    start_with(alloc, 256, &args)
}

/// Checks that a machine has the octas.
fn has_octas(machine: &Machine) -> Result<(), Fail> {
    for (at, octa) in &OCTAS {
        if !has_octa(machine, (*at, *octa)) {
            return Err(Fail::new(format_args!("at {at:#x}")));
        }
    }
    Ok(())
}

/// Checks that a machine has the special registers.
fn has_specials(machine: &Machine) -> Result<(), Fail> {
    for (code, value) in &SPECIALS {
        if !has_special(machine, (*code, *value)) {
            return Err(Fail::new(format_args!("special {code}")));
        }
    }
    Ok(())
}

#[test]
fn memory_at_the_start(rt: HostRuntime) -> Result<(), Fail> {
    has_octas(&machine(rt.alloc())?)
}

/// Checks that a machine has $0, $1 and the next address.
fn has_registers(machine: &Machine) -> Result<(), Fail> {
    let found = (machine.register(0), machine.register(1), machine.pc());
    if found == (2, 0x4000_0000_0000_0008, 0) {
        return Ok(());
    }
    Err(Fail::new(format_args!("found {found:?}")))
}

#[test]
fn registers_at_the_start(rt: HostRuntime) -> Result<(), Fail> {
    assert_eq!(rt; StartFault::PagesFull.number(), 118);
    let machine = machine(rt.alloc())?;
    has_specials(&machine)?;
    has_registers(&machine)
}
