//! Programs that are stepped up and back.

use crate::back::digest::digest_of;
use crate::back::walk::{Program, count_returns, machine_with, step_back, step_up};
use mx_back::{Back, BackFault};
use mx_core::Step;
use mx_mmo::Octas;
use std::alloc::Global;
use std::test::Fail;

/// Three calls that hide 100 octas each, of which 45 spill; then rS is read.
static CALLS: [(u64, u64); 2] = [
    (0x100, 0xf263_0001_f263_0001),
    (0x108, 0xf263_0001_feff_000b),
];

/// A value makes the registers below it local, twice.
static GROWTH: [(u64, u64); 1] = [(0x100, 0xe302_0007_e303_0008)];

/// A store begins a page.
static PAGE: [(u64, u64); 1] = [(0x100, 0xe002_2000_ad02_0200)];

/// 2^63 - 1 is doubled, where overflows trip to #20; the handler goes on.
static TRIP: [(u64, u64); 4] = [
    (0x100, 0xe301_4000_f615_0001),
    (0x108, 0xe002_7fff_2002_0202),
    (0x110, 0xfd00_0000_0000_0000),
    (0x20, 0xfd00_0000_fd00_0000),
];

/// A store of a byte loses its sign, and trips to #20.
static STORE_TRIP: [(u64, u64); 3] = [
    (0x100, 0xe301_4000_f615_0001),
    (0x108, 0xe002_2000_a101_0200),
    (0x20, 0xfd00_0000_fd00_0000),
];

/// The register where PUSHJ leaves its hole had a value.
static HOLE: [(u64, u64); 2] = [
    (0x100, 0xe300_0005_f201_0001),
    (0x108, 0xe300_0009_f801_0000),
];

/// G rises to 40 and to 60, and $50 had a value; L falls to 1.
static PUTS: [(u64, u64); 3] = [
    (0x100, 0xf713_0028_e332_0007),
    (0x108, 0xf713_003c_e301_0010),
    (0x110, 0xf714_0001_fd00_0000),
];

/// SAVE, a call, and UNSAVE.
static FRAMES: [(u64, u64); 3] = [
    (0x100, 0xe300_0005_faff_0000),
    (0x108, 0xe300_0009_f203_0001),
    (0x110, 0xfb00_00ff_fd00_0000),
];

/// The octas that were spilled are replaced by others: a call hides 200, $99 gets a value, POP, another call and value.
static SPILLS: [(u64, u64); 4] = [
    (0x100, 0xe300_0007_f2c8_0001),
    (0x108, 0xe363_0005_f800_0002),
    (0x110, 0xe300_0009_f2c8_0001),
    (0x118, 0xe363_0005_fd00_0000),
];

/// An octa is exchanged twice: rP gets it, and then it gets 0.
static EXCHANGES: [(u64, u64); 3] = [
    (0x100, 0xe001_2000_e302_0005),
    (0x108, 0xad02_0100_9500_0100),
    (0x110, 0x9500_0100_fd00_0000),
];

/// The same in the stack area, where the register that gets the answer grows, and spills the octa that is exchanged.
static SPILLED_EXCHANGES: [(u64, u64); 5] = [
    (0x100, 0xe001_6000_e302_0005),
    (0x108, 0xad02_0100_95c8_0108),
    (0x110, 0xf2c8_0001_e001_6000),
    (0x118, 0x95f0_0100_95f1_0100),
    (0x120, 0xad01_0110_8d03_0110),
];

/// RESUME inserts ADDU with the operands 40 and 2.
static INSERTS: [(u64, u64); 5] = [
    (0, 0xe302_0001_e602_2300),
    (8, 0xe402_0100_f619_0002),
    (0x10, 0xe303_0028_f61a_0003),
    (0x18, 0xf71b_0002_f403_0003),
    (0x20, 0xf618_0003_f900_0000),
];

/// TRIP, a branch, GO, a load, a wyde and PUT of a special register.
static OTHERS: [(u64, u64); 5] = [
    (0x100, 0xe001_2000_a301_0100),
    (0x108, 0x8d02_0100_f604_0001),
    (0x110, 0x4200_0001_ff01_0203),
    (0, 0x9f03_ff00_fd00_0000),
    (0x20, 0xfd00_0000_fd00_0000),
];

/// SETH, a store that begins a page, SETL, a store of a byte, ADDU, PUT of rJ, a load, a jump and SWYM.
static USUAL: [(u64, u64); 5] = [
    (0x100, 0xe002_2000_ad02_0200),
    (0x108, 0xe303_0007_a103_0209),
    (0x110, 0x2203_0303_f604_0003),
    (0x118, 0x8d04_0208_f000_0001),
    (0x120, 0xfd00_0000_fd00_0000),
];

/// MULU twice, DIV and DIVU, of registers that are local but once.
static PRODUCTS: [(u64, u64); 3] = [
    (0x100, 0xe301_0007_1b02_01ff),
    (0x108, 0x1b02_0203_1d02_0205),
    (0x110, 0x1f01_0203_fd00_0000),
];

/// A call in a call, the first at a local register and the second at none; then both return, with no result.
static SMALL_CALLS: [(u64, u64); 3] = [
    (0x100, 0xe300_0005_e302_0007),
    (0x108, 0xf201_0001_e300_0009),
    (0x110, 0xf204_0001_f800_0000),
];

/// A jump to itself.
static JUMPS: [(u64, u64); 1] = [(0x100, 0xf000_0000_0000_0000)];

/// A step, and TRAP 0,Halt,0.
static HALTS: [(u64, u64); 1] = [(0x100, 0xfd00_0000_0000_0000)];

/// A row: a program, and how many of its steps are made.
type Row = (Program, usize);

fn see(alloc: Global, rows: &[Row]) -> Result<(), Fail> {
    for (at, (program, steps)) in rows.iter().enumerate() {
        if count_returns(alloc, program, *steps, false)? != *steps {
            return Err(Fail::new(format_args!("row {at}")));
        }
        if count_returns(alloc, program, *steps, true)? != *steps {
            return Err(Fail::new(format_args!("row {at}, usual steps as such")));
        }
    }
    Ok(())
}

#[test]
fn each_kind_of_step_comes_back(rt: HostRuntime) -> Result<(), Fail> {
    let rows: [Row; 9] = [
        (&CALLS, 4),
        (&GROWTH, 2),
        (&PAGE, 2),
        (&TRIP, 6),
        (&STORE_TRIP, 5),
        (&HOLE, 4),
        (&PUTS, 6),
        (&FRAMES, 6),
        (&SPILLS, 8),
    ];
    see(rt.alloc(), &rows)
}

#[test]
fn exchanges_and_inserted_steps_come_back(rt: HostRuntime) -> Result<(), Fail> {
    let rows: [Row; 7] = [
        (&USUAL, 9),
        (&PRODUCTS, 6),
        (&SMALL_CALLS, 7),
        (&EXCHANGES, 6),
        (&SPILLED_EXCHANGES, 10),
        (&INSERTS, 10),
        (&OTHERS, 7),
    ];
    see(rt.alloc(), &rows)
}

/// How many steps are kept after 1,100, how many come back, and how many were made before those.
fn many(alloc: Global, quick: bool) -> Result<(usize, usize, u64), Fail> {
    let mut machine = machine_with(alloc, &JUMPS)?;
    let mut back = Back::new(alloc)?;
    let mut seen = Octas::new(alloc);
    if !step_up(&mut back, &mut machine, &mut seen, 1100, quick) {
        return Err(Fail::new("a step did not go on"));
    }
    let kept = back.kept();
    let came = step_back(&mut back, &mut machine, seen.as_slice());
    Ok((kept, came, machine.steps()))
}

#[test]
fn the_last_1024_steps_are_kept(rt: HostRuntime) -> Result<(), Fail> {
    assert!(rt; many(rt.alloc(), false)? == (1024, 1024, 76));
    assert!(rt; many(rt.alloc(), true)? == (1024, 1024, 76));
    Ok(())
}

/// Before a file trap one step is kept, and after `forget` none comes back.
fn halted(alloc: Global) -> Result<(usize, bool, usize, bool), Fail> {
    let mut machine = machine_with(alloc, &HALTS)?;
    let mut back = Back::new(alloc)?;
    back.step(&mut machine);
    let trapped = is_trap(back.step(&mut machine));
    let before = back.kept();
    back.forget();
    let nothing = back.back(&mut machine) == Err(BackFault::NothingKept);
    Ok((before, trapped, back.kept(), nothing))
}

fn is_trap(step: Step) -> bool {
    match step {
        Step::Trap(_) => true,
        _ => false,
    }
}

#[test]
fn a_trap_keeps_nothing_new(rt: HostRuntime) -> Result<(), Fail> {
    assert!(rt; halted(rt.alloc())? == (1, true, 0, true));
    Ok(())
}

#[test]
fn the_fault_has_a_number(rt: HostRuntime) {
    assert!(rt; BackFault::NothingKept.number() == 140);
}
