//! Several processors on one memory, by schedules.

use mx_top::Outcome;
use std::alloc::Global;
use std::test::Fail;
use test_rows::{Due, comes_to, due_done, file, host, outcome_over};

/// Each processor adds 1 to one octa of memory, and begins anew where another one changed it in between.
const COUNTER: &str =
    " LOC Data_Segment\n GREG @\nSum OCTA 0\n LOC #100\nMain LDO $3,Sum\n PUT rP,$3\n ADDU $4,$3,1\n CSWAP $4,Sum\n BZ $4,Main\n TRAP 0,Halt,0\n";

/// Processor 0 does what no machine does, while the others go round.
const STOPS: &str = " LOC #100\nMain BNZ $1,1F\n FADD $0,$0,$0\n1H JMP 1B\n";

/// Each processor halts with its own number.
const NUMBERS: &str = " LOC #100\nMain SET $255,$1\n TRAP 0,Halt,0\n";

/// Whether a source comes to what is due, assembled and then run by a schedule.
fn runs(
    alloc: Global,
    source: &str,
    schedule: &[u8],
    all: &[&str],
    due: Due,
) -> Result<bool, Fail> {
    let mut host = host(alloc, file("a.mms", source.as_bytes()))?;
    outcome_over(alloc, &mut host, &["asm", "a.mms", "a.mmo"])?;
    host.put_file(b"s", Vec::from_slice(alloc, schedule)?)?;
    comes_to(alloc, &mut host, all, due)
}

/// What is due where the schedule is bad.
fn bad<'a>(place: u64, errors: &'a [u8]) -> Due<'a> {
    Due {
        outcome: Outcome::BadSchedule { place },
        output: b"",
        errors,
    }
}

/// What is due where all steps were made.
fn spent<'a>(steps: u64, output: &'a [u8], errors: &'a [u8]) -> Due<'a> {
    Due {
        outcome: Outcome::StepsSpent { steps },
        output,
        errors,
    }
}

/// Words, a schedule, and the lines that are due of the counter.
type Row = (&'static [&'static str], &'static [u8], &'static [u8]);

static COUNTED: [Row; 5] = [
    (
        &["multi", "--dump", "s", "a.mmo"],
        &[0, 1],
        b"processor 0 halted 0 steps 6\nprocessor 1 halted 0 steps 11\nM#0000000000000100=#8d03fe00f6170003\nM#0000000000000108=#230403019504fe00\nM#0000000000000110=#4304fffc00000000\nM#2000000000000000=#0000000000000002\n",
    ),
    (
        &["multi", "--dump", "s", "a.mmo"],
        &[0, 0, 0, 0, 0, 0, 1],
        b"processor 0 halted 0 steps 6\nprocessor 1 halted 0 steps 6\nM#0000000000000100=#8d03fe00f6170003\nM#0000000000000108=#230403019504fe00\nM#0000000000000110=#4304fffc00000000\nM#2000000000000000=#0000000000000002\n",
    ),
    // there are as many as the greatest byte and one, named or not; all that are named have halted
    (
        &["multi", "s", "a.mmo"],
        &[1],
        b"processor 0 running steps 0\nprocessor 1 halted 0 steps 6\n",
    ),
    // all have halted with the last step that may be made
    (
        &["multi", "--steps", "17", "s", "a.mmo"],
        &[0, 1],
        b"processor 0 halted 0 steps 6\nprocessor 1 halted 0 steps 11\n",
    ),
    (
        &["multi", "--ring", "65536", "s", "a.mmo"],
        &[0, 1],
        b"processor 0 halted 0 steps 6\nprocessor 1 halted 0 steps 11\n",
    ),
];

#[test]
fn counters(rt: HostRuntime) -> Result<(), Fail> {
    for (all, schedule, output) in &COUNTED {
        assert!(rt; runs(rt.alloc(), COUNTER, schedule, all, due_done(0, output))?);
    }
    Ok(())
}

#[test]
fn steps_are_counted_in_all(rt: HostRuntime) -> Result<(), Fail> {
    let due = spent(
        5,
        b"processor 0 running steps 3\nprocessor 1 running steps 2\n",
        b"5 steps spent\n",
    );
    assert!(rt;
        runs(
            rt.alloc(),
            COUNTER,
            &[0, 1],
            &["multi", "--steps", "5", "s", "a.mmo"],
            due
        )?
    );
    let due = spent(
        16,
        b"processor 0 halted 0 steps 6\nprocessor 1 running steps 10\n",
        b"16 steps spent\n",
    );
    assert!(rt;
        runs(
            rt.alloc(),
            COUNTER,
            &[0, 1],
            &["multi", "--steps", "16", "s", "a.mmo"],
            due
        )?
    );
    Ok(())
}

#[test]
fn a_stop_ends_all(rt: HostRuntime) -> Result<(), Fail> {
    let due = Due {
        outcome: Outcome::Stopped {
            pc: 0x104,
            reason: 110,
        },
        output: b"processor 0 stopped 110 steps 1\nprocessor 1 running steps 1\n",
        errors: b"#0000000000000104: 110 Float\n",
    };
    assert!(rt; runs(rt.alloc(), STOPS, &[0, 1], &["multi", "s", "a.mmo"], due)?);
    Ok(())
}

#[test]
fn each_halts_with_its_own_status(rt: HostRuntime) -> Result<(), Fail> {
    let due = due_done(
        0,
        b"processor 0 halted 0 steps 2\nprocessor 1 halted 1 steps 2\nprocessor 2 halted 2 steps 2\n",
    );
    assert!(rt;
        runs(
            rt.alloc(),
            NUMBERS,
            &[2, 0, 1],
            &["multi", "s", "a.mmo"],
            due
        )?
    );
    Ok(())
}

/// A schedule, the first place of its fault, and the message.
static BAD: [(&[u8], u64, &[u8]); 3] = [
    (&[], 0, b"schedule byte 0\n"),
    (&[0, 9], 1, b"schedule byte 1\n"),
    (&[0, 7, 8, 255], 2, b"schedule byte 2\n"),
];

#[test]
fn bad_schedules(rt: HostRuntime) -> Result<(), Fail> {
    for (schedule, place, errors) in &BAD {
        assert!(rt;
            runs(
                rt.alloc(),
                COUNTER,
                schedule,
                &["multi", "s", "a.mmo"],
                bad(*place, errors)
            )?
        );
    }
    Ok(())
}

#[test]
fn schedules_are_told_before_the_object_is_opened(rt: HostRuntime) -> Result<(), Fail> {
    let all = &["multi", "s", "no.mmo"];
    assert!(rt;
        runs(
            rt.alloc(),
            COUNTER,
            &[0, 9],
            all,
            bad(1, b"schedule byte 1\n")
        )?
    );
    let due = Due {
        outcome: Outcome::NoFile,
        output: b"",
        errors: b"no file\n",
    };
    assert!(rt; runs(rt.alloc(), COUNTER, &[0, 1], all, due)?);
    Ok(())
}
