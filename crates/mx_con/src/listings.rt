//! Lines on several octas and tetras.

ghost use Rattle.std.specs.Prelude.{◌<◌, ◌+◌, ◌*◌, ◌^◌};
ghost use Rattle.mx_core.specs.Kept.{state_of};
ghost use Rattle.mx_run.specs.FlagMaps.{flags_at};
ghost use Rattle.mx_con.specs.Clauses.{DoesOnHost};
ghost use Rattle.mx_con.specs.LinePlans.{line_plan, lines_plan};
ghost use Rattle.mx_con.specs.ConsoleTexts.{flag_text};
ghost use Rattle.mx_show.specs.Subjects.{shown_line};
ghost use Rattle.mx_con.specs.Replies as spec;
ghost use Rattle.mx_con.specs.Replies.{flag_lines, tetra_count};

use crate::SessionEnd;
use crate::host_lines::write_line;
use crate::texts::flag_line;
use mx_cmd::Subject;
use mx_core::Machine;
use mx_host::Host;
use mx_run::{Flags, Runner};
use mx_show::format_subject;
use mx_text::Form;
use std::alloc::Global;

/// Writes the n octas after one, whose addresses are all below 2^63.
pub(crate) fn write_octas<H: Host>(
    alloc: Global,
    machine: &Machine,
    host: &mut H,
    form: Form,
    a: u64,
    n: u64,
) -> Result<(), SessionEnd>
    requires { a + 8 * n < 2 ^ 63 }
    ensures { DoesOnHost H.told H.faults host.old host.new result
        (lines_plan (spec.octas_after (state_of machine.now) form a n)) }
{
    for turn in 0..n {
        match write_octa(alloc, machine, host, form, a + 8 * (turn + 1)) {
            Ok(()) => {}
            Err(end) => return Err(end),
        }
    }
    Ok(())
}

/// Writes the octa at an address.
#[tactic(auto, using(crate::proofs::LineEnds::lacking))]
fn write_octa<H: Host>(
    alloc: Global,
    machine: &Machine,
    host: &mut H,
    form: Form,
    a: u64,
) -> Result<(), SessionEnd>
    requires { a < 2 ^ 63 }
    ensures { DoesOnHost H.told H.faults host.old host.new result
        (line_plan (shown_line (state_of machine.now) (Subject.Memory a) form)) }
{
    write_line(
        host,
        format_subject(alloc, machine, Subject::Memory(a), form)?,
    )
}

/// Writes the lines of all tetras with flags.
pub(crate) fn write_flags<H: Host>(
    alloc: Global,
    runner: &Runner,
    host: &mut H,
) -> Result<(), SessionEnd>
    ensures { DoesOnHost H.told H.faults host.old host.new result
        (lines_plan (flag_lines (flags_at runner.now.flags) 0 tetra_count)) }
{
    let mut tetra: u64 = 0;
    while tetra < 1 << 62 {
        let Some((a, flags)) = runner.next_flagged(4 * tetra) else {
            return Ok(());
        };
        match write_flag(alloc, host, a, flags) {
            Ok(()) => tetra = a / 4 + 1,
            Err(end) => return Err(end),
        }
    }
    Ok(())
}

/// Writes the line of a tetra with flags.
#[tactic(auto, using(crate::proofs::LineEnds::lacking))]
fn write_flag<H: Host>(alloc: Global, host: &mut H, a: u64, flags: Flags) -> Result<(), SessionEnd>
    ensures part { DoesOnHost H.told H.faults host.old host.new result (line_plan (flag_text a flags)) }
    ensures address { a < 2 ^ 64 }
{
    write_line(host, flag_line(alloc, a, flags)?)
}
