//! What a line changes of a runner.

ghost use Rattle.std.specs.Prelude.{◌≡◌, ◌≢◌, ◌/◌, Err, OnErr, OnOk};
ghost use Rattle.mx_core.specs.Way.Changed.{Changes};
ghost use Rattle.mx_core.specs.UserChanges.{at_address};
ghost use Rattle.mx_core.specs.Kept.{state_of};
ghost use Rattle.mx_run.specs.FlagMaps.{flags_at, with_flags};
ghost use Rattle.mx_con.specs.Replies as spec;
ghost use Rattle.mx_show.specs.Subjects.{IsSound, subject_changed};

use mx_cmd::{Breaks, Subject};
use mx_core::SetFault;
use mx_run::{Flags, Runner};
use mx_show::set_subject;
use mx_word::NoMemory;

/// Gives a subject another value.
///
/// Errors: `NotAllowed` where that is refused, and out of memory; then nothing changed.
#[tactic(auto, using(crate::proofs::StepBounds::changing))]
pub(crate) fn change(runner: &mut Runner, subject: Subject, value: u64) -> Result<(), SetFault>
    requires { IsSound subject }
    ensures ok { result ≢ Err SetFault.OutOfMemory →
        Changes (λ s. subject_changed s subject value) result runner.old.machine runner.new.machine }
    ensures err { OnErr result (state_of runner.new.machine ≡ state_of runner.old.machine) }
    ensures same_steps { (state_of runner.new.machine).steps ≡ (state_of runner.old.machine).steps }
    ensures flags { runner.new.flags ≡ runner.old.flags }
{
    set_subject(runner.machine_mut(), subject, value)
}

/// The machine goes on at an address.
pub(crate) fn go_on_at(runner: &mut Runner, a: u64)
    ensures state { state_of runner.new.machine ≡ at_address (state_of runner.old.machine) a }
    ensures flags { runner.new.flags ≡ runner.old.flags }
{
    runner.machine_mut().set_pc(a);
}

/// Notes that a line looked at rS or at Stack_Segment, where it did.
pub(crate) fn note_if(runner: &mut Runner, wild: bool)
    ensures state { state_of runner.new.machine ≡ spec.noted_if wild (state_of runner.old.machine) }
    ensures flags { runner.new.flags ≡ runner.old.flags }
{
    if wild {
        runner.machine_mut().note_touch();
    }
}

/// Sets the breaks of the tetra that holds an address.
///
/// Errors: out of memory; then nothing changed.
pub(crate) fn set_breaks(runner: &mut Runner, breaks: Breaks, a: u64) -> Result<(), NoMemory>
    ensures ok { OnOk result (flags_at runner.new.flags ≡ with_flags (flags_at runner.old.flags) (a / 4)
        (spec.with_breaks (flags_at runner.old.flags (a / 4)) breaks)) }
    ensures err { OnErr result (runner.new.flags ≡ runner.old.flags) }
    ensures machine { runner.new.machine ≡ runner.old.machine }
{
    let flags = runner.flags(a);
    runner.set_flags(
        a,
        Flags {
            r: breaks.r,
            w: breaks.w,
            x: breaks.x,
            t: flags.t,
        },
    )
}

/// Sets whether the steps of the tetra that holds an address are traced.
///
/// Errors: out of memory; then nothing changed.
pub(crate) fn set_trace(runner: &mut Runner, traced: bool, a: u64) -> Result<(), NoMemory>
    ensures ok { OnOk result (flags_at runner.new.flags ≡ with_flags (flags_at runner.old.flags) (a / 4)
        (spec.with_trace (flags_at runner.old.flags (a / 4)) traced)) }
    ensures err { OnErr result (runner.new.flags ≡ runner.old.flags) }
    ensures machine { runner.new.machine ≡ runner.old.machine }
{
    let flags = runner.flags(a);
    runner.set_flags(a, Flags { t: traced, ..flags })
}
