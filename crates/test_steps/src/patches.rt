//! Programs that change their own instructions, and what they come to: each instruction is read when it is reached.

use crate::programs::{Program, Run, all_come_out, begin};
use crate::row::start_one;
use mx_core::Advance;
use std::alloc::Global;
use std::test::Fail;

/// The next instruction, SETL $0,1, becomes SETL $0,7.
const NEXT: Program = &[
    (0x100, 0xe201_e300_eb01_0007),
    (0x108, 0xf402_0002_ab01_0200),
    (0x110, 0xe300_0001_0000_0000),
];

/// In a loop of three turns ADDU $0,$0,1 becomes ADDU $0,$0,16 after its first turn.
const LOOP: Program = &[
    (0x100, 0xe201_2300_eb01_0010),
    (0x108, 0xf402_0003_e300_0000),
    (0x110, 0xe303_0003_2300_0001),
    (0x118, 0xab01_0200_2703_0301),
    (0x120, 0x5b03_fffd_0000_0000),
];

/// The last instruction of a page changes the first one of the next page, SETL $0,1, to SETL $0,9.
const ACROSS: Program = &[
    (0xff0, 0xe201_e300_eb01_0009),
    (0xff8, 0xf402_0002_ab01_0200),
    (0x1000, 0xe300_0001_0000_0000),
];

/// SETL $0,5 is stored where no page is yet, and then the machine goes there.
const ELSEWHERE: Program = &[
    (0x100, 0xe201_e300_eb01_0005),
    (0x108, 0xe302_3000_ab01_0200),
    (0x110, 0x9f03_0200_0000_0000),
];

/// What they come to: the steps up to the TRAP at the end, and $0.
static PATCHES: [Run; 4] = [
    (256, NEXT, 0x100, 5, 0, 7, Advance::Trap),
    (256, LOOP, 0x100, 17, 0, 33, Advance::Trap),
    (256, ACROSS, 0xff0, 5, 0, 9, Advance::Trap),
    (256, ELSEWHERE, 0x100, 6, 0, 5, Advance::Trap),
];

/// Whether a run comes to its value by one call for all its steps.
fn comes_out_at_once(alloc: Global, run: &Run) -> Result<bool, Fail> {
    let (size, octas, main, steps, register, value, next) = *run;
    let mut machine = start_one(alloc, size)?;
    begin(&mut machine, 0, octas, main)?;
    let done = machine.advance_many(1000);
    Ok(done.made == u64::from(steps) && done.last == next && machine.register(register) == value)
}

#[test]
fn changed_instructions_are_carried_out(rt: HostRuntime) -> Result<(), Fail> {
    all_come_out(rt.alloc(), &PATCHES)
}

#[test]
fn changed_instructions_are_carried_out_at_once(rt: HostRuntime) -> Result<(), Fail> {
    for run in &PATCHES {
        assert!(rt; comes_out_at_once(rt.alloc(), run)?, "value {}", run.5);
    }
    Ok(())
}
