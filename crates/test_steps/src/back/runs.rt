//! Runs whose last steps are kept.

use crate::back::walk::{Program, machine_with};
use mx_back::{Back, run_kept};
use mx_host::MemHost;
use mx_run::End;
use std::alloc::Global;
use std::test::Fail;

/// SETL $2,7, SETL $3,8, and FADD, which is not carried out.
static SETS: [(u64, u64); 2] = [
    (0x100, 0xe302_0007_e303_0008),
    (0x108, 0x0400_0102_0000_0000),
];

/// TRAP 0,Ftell,StdOut, SWYM and FADD.
static TELLS: [(u64, u64); 2] = [
    (0x100, 0x0000_0a01_fd00_0000),
    (0x108, 0x0400_0102_0000_0000),
];

/// A step, and TRAP 0,Halt,0.
static HALTS: [(u64, u64); 1] = [(0x100, 0xfd00_0000_0000_0000)];

/// A step, and TRAP 0,Fgetws,StdIn, which is refused.
static WIDE: [(u64, u64); 1] = [(0x100, 0xfd00_0000_0000_0500)];

/// How a run of at most ten steps ends, and how many are kept then.
fn kept(alloc: Global, program: Program) -> Result<(End, usize), Fail> {
    let mut machine = machine_with(alloc, program)?;
    let mut back = Back::new(alloc)?;
    let Ok(mut host) = MemHost::new(alloc, Vec::new(alloc), Vec::new(alloc)) else {
        return Err(Fail::new("no memory for a host"));
    };
    let end = run_kept(alloc, &mut machine, &mut host, 10, &mut back);
    Ok((end, back.kept()))
}

fn stop(pc: u64, reason: u16) -> End {
    End::Stopped { pc, reason }
}

#[test]
fn runs_keep_the_steps_after_a_trap(rt: HostRuntime) -> Result<(), Fail> {
    let rows: [(Program, End, usize); 4] = [
        (&SETS, stop(0x108, 110), 2),
        (&TELLS, stop(0x108, 110), 1),
        (&HALTS, End::Halted(0), 0),
        (&WIDE, stop(0x104, 121), 1),
    ];
    for (at, (program, end, count)) in rows.iter().enumerate() {
        if kept(rt.alloc(), program)? != (*end, *count) {
            return Err(Fail::new(format_args!("row {at}")));
        }
    }
    Ok(())
}
