//! Programs of a few tetras, and what they come to, worked out by hand from the rules of the simulator.

use crate::row::{BASE, set_octas, start_one};
use mx_core::{Advance, Machine, Reason, SetFault, Step, Touch, Trace};
use std::alloc::Global;
use std::test::Fail;

/// The octas of a program with their addresses.
pub(crate) type Program = &'static [(u64, u64)];

/// -7 divided by 2.
const DIVIDES: Program = &[(0, 0xe301_0007_3401_0001), (8, 0x1d00_0102_0000_0000)];

/// The upper half of the square of 2^64 - 1.
const SQUARES: Program = &[(0, 0xe301_0001_3401_0001), (8, 0x1a00_0101_feff_0003)];

/// 1 is added to 2^63 - 1 where overflows trip; nothing is at the handler.
const ADDS: Program = &[
    (0x100, 0xe301_4000_f615_0001),
    (0x108, 0x3500_0001_3f00_0001),
    (0x110, 0x2100_0001_0000_0000),
];

/// A byte of 384 is stored and loaded.
const STORES: Program = &[(0, 0xe000_2000_e301_0180), (8, 0xa101_0001_83ff_0001)];

/// A recursive sum of the numbers to 300, and what calls it.
const SUMS: Program = &[
    (0x100, 0xe301_012c_f200_0003),
    (0x108, 0xc1ff_0000_0000_0000),
    (0x110, 0x4200_0007_fe01_0004),
    (0x118, 0x2703_0001_f302_fffd),
    (0x120, 0x2200_0002_f604_0001),
    (0x128, 0xf801_0000_f801_0000),
];

/// Three calls that hide 100 octas each; then rS is read.
const HIDES: Program = &[(0, 0xf263_0001_f263_0001), (8, 0xf263_0001_feff_000b)];

/// SAVE, another value for $0, a call, UNSAVE.
const SAVES: Program = &[
    (0x100, 0xe300_0005_faff_0000),
    (0x108, 0xe300_0009_f203_0001),
    (0x110, 0xfb00_00ff_c1ff_0000),
];

/// POP, UNSAVE, FADD and RESUME with nothing before them.
const POPS: Program = &[(0, 0xf800_0000_0000_0000)];

const UNSAVES: Program = &[(0, 0xfb00_0000_0000_0000)];

const FLOATS: Program = &[(0, 0x0400_0102_0000_0000)];

const RESUMES: Program = &[(0, 0xf900_0000_0000_0000)];

/// RESUME inserts ADDU $0,$0,1.
const INSERTS: Program = &[
    (0, 0xe302_0001_e602_2300),
    (8, 0xf619_0002_f403_0003),
    (0x10, 0xf618_0003_f900_0000),
    (0x18, 0xc1ff_0000_0000_0000),
];

/// The same with the operands 40 and 2.
const CONTINUES: Program = &[
    (0, 0xe302_0001_e602_2300),
    (8, 0xe402_0100_f619_0002),
    (0x10, 0xe303_0028_f61a_0003),
    (0x18, 0xf71b_0002_f403_0003),
    (0x20, 0xf618_0003_f900_0000),
    (0x28, 0xc1ff_0000_0000_0000),
];

/// RESUME gives $0 the value 9.
const SETS: Program = &[
    (0, 0xe002_0200_f619_0002),
    (8, 0xe303_0009_f61b_0003),
    (0x10, 0xf403_0003_f618_0003),
    (0x18, 0xf900_0000_c1ff_0000),
];

/// An insertion of a kind that is none.
const INSERTS_KIND_3: Program = &[
    (0, 0xe002_0300_f619_0002),
    (8, 0xf403_0003_f618_0003),
    (0x10, 0xf900_0000_0000_0000),
];

/// A run of a program: the size of the ring, the octas and the address where they begin, how many steps are
/// made, a register with what it has then, and what comes next.
pub(crate) type Run = (u32, Program, u64, u32, u8, u64, Advance);

/// Programs that come to their values.
static RUNS: [Run; 14] = [
    (256, DIVIDES, 0, 3, 0, 0xffff_ffff_ffff_fffc, Advance::Trap),
    (
        256,
        SQUARES,
        0,
        4,
        255,
        0xffff_ffff_ffff_fffe,
        Advance::Trap,
    ),
    (
        256,
        ADDS,
        0x100,
        4,
        0,
        0x7fff_ffff_ffff_ffff,
        Advance::Stopped(Reason::UnhandledTrip),
    ),
    (256, STORES, 0, 4, 255, 128, Advance::Trap),
    (256, SAVES, 0x100, 2, 255, BASE + 128, Advance::Went),
    (256, SAVES, 0x100, 6, 255, 5, Advance::Trap),
    (256, POPS, 0, 0, 0, 1, Advance::Stopped(Reason::Underflow)),
    (256, UNSAVES, 0, 0, 0, 1, Advance::Stopped(Reason::BadFrame)),
    (256, FLOATS, 0, 0, 0, 1, Advance::Stopped(Reason::Float)),
    (
        256,
        RESUMES,
        0,
        0,
        0,
        1,
        Advance::Stopped(Reason::ResumeInsert),
    ),
    (256, INSERTS, 0, 7, 255, 2, Advance::Trap),
    (256, CONTINUES, 0, 11, 255, 42, Advance::Trap),
    (256, SETS, 0, 8, 255, 9, Advance::Trap),
    (
        256,
        INSERTS_KIND_3,
        0,
        4,
        0,
        1,
        Advance::Stopped(Reason::Illegal),
    ),
];

/// Programs on rings of several sizes.
static RINGS: [Run; 6] = [
    // what is computed does not depend on the ring
    (256, SUMS, 0x100, 2105, 255, 45150, Advance::Trap),
    (512, SUMS, 0x100, 2105, 255, 45150, Advance::Trap),
    (1024, SUMS, 0x100, 2105, 255, 45150, Advance::Trap),
    // rS does
    (256, HIDES, 0, 4, 255, BASE + 360, Advance::Trap),
    (512, HIDES, 0, 4, 255, BASE, Advance::Trap),
    (1024, HIDES, 0, 4, 255, BASE, Advance::Trap),
];

/// Octas at the handler of overflows, and what $255 gets: rX, rW, rY, rB and rA.
static HANDLERS: [(u64, u64); 5] = [
    (0xfeff_0019_0000_0000, 0x8000_0000_2100_0001),
    (0xfeff_0018_0000_0000, 0x114),
    (0xfeff_001a_0000_0000, 0x7fff_ffff_ffff_ffff),
    (0xfeff_0000_0000_0000, 0x100),
    (0xfeff_0015_0000_0000, 0x4000),
];

/// A machine gets an octa at the handler of overflows and those of a program, and comes to an address,
/// which $255 has then.
pub(crate) fn begin(
    machine: &mut Machine,
    handler: u64,
    octas: &[(u64, u64)],
    main: u64,
) -> Result<(), SetFault> {
    machine.set_octa(0x20, handler)?;
    set_octas(machine, octas)?;
    machine.set_register(255, main)?;
    machine.set_pc(main);
    Ok(())
}

/// Whether a machine makes this many steps.
fn makes(machine: &mut Machine, steps: u32) -> bool {
    for _ in 0..steps {
        if machine.advance() != Advance::Went {
            return false;
        }
    }
    true
}

/// Whether a run comes to its value, with an octa at the handler of overflows.
fn comes_out(alloc: Global, handler: u64, run: &Run) -> Result<bool, Fail> {
    let (size, octas, main, steps, register, value, next) = *run;
    let mut machine = start_one(alloc, size)?;
    begin(&mut machine, handler, octas, main)?;
    Ok(
        makes(&mut machine, steps)
            && machine.register(register) == value
            && machine.advance() == next,
    )
}

/// Checks that runs come to their values with nothing at the handler.
pub(crate) fn all_come_out(alloc: Global, runs: &[Run]) -> Result<(), Fail> {
    for run in runs {
        if !comes_out(alloc, 0, run)? {
            return Err(Fail::new(format_args!("ring {}, value {:#x}", run.0, run.5)));
        }
    }
    Ok(())
}

#[test]
fn programs_come_to_their_values(rt: HostRuntime) -> Result<(), Fail> {
    all_come_out(rt.alloc(), &RUNS)
}

#[test]
fn rings_show_in_rs_alone(rt: HostRuntime) -> Result<(), Fail> {
    all_come_out(rt.alloc(), &RINGS)
}

#[test]
fn overflows_trip(rt: HostRuntime) -> Result<(), Fail> {
    for (handler, value) in &HANDLERS {
        let run = (256, ADDS, 0x100, 6, 255, *value, Advance::Trap);
        assert!(rt; comes_out(rt.alloc(), *handler, &run)?, "{handler:#x}");
    }
    Ok(())
}

/// What CSWAP may write.
const PLACE: Touch = Touch { at: 0x20, size: 8 };

/// SETL $1,7 and CSWAP $1,$2,#20, twice.
static EXCHANGES: [(u64, u64); 2] = [(0, 0xe301_0007_9501_0220), (8, 0x9501_0220_0000_0000)];

/// Whether CSWAP at an address writes this, and gives $1 the value.
fn exchanges(machine: &mut Machine, pc: u64, writes: Option<Touch>, value: u64) -> bool {
    let trace = Trace {
        pc,
        word: 0x9501_0220,
        dest: Some(1),
        reads: Some(PLACE),
        writes,
        next: pc.wrapping_add(4),
    };
    machine.step() == Step::Went(trace) && machine.register(1) == value
}

/// What the first step of EXCHANGES answers, and whether CSWAP writes, and then does not.
fn exchange(alloc: Global) -> Result<(Advance, bool, bool), Fail> {
    let mut machine = start_one(alloc, 256)?;
    begin(&mut machine, 0, &EXCHANGES, 0)?;
    let first = machine.advance();
    let is_written = exchanges(&mut machine, 4, Some(PLACE), 1);
    let is_left = exchanges(&mut machine, 8, None, 0);
    Ok((first, is_written, is_left))
}

/// CSWAP writes where memory has what rP has, and tells it; then it does not.
#[test]
fn exchanges_tell_what_they_wrote(rt: HostRuntime) -> Result<(), Fail> {
    assert_eq!(rt; exchange(rt.alloc())?, (Advance::Went, true, true));
    Ok(())
}
