//! Steps of a run one after another.

ghost use Rattle.std.specs.Prelude.{◌≡◌, ◌≢◌, [], true, false};
ghost use Rattle.mx_core.specs.Kept.{state_of};
ghost use Rattle.mx_run.specs.Clauses.{CarriesOutRun, IsRun, TakesSteps};
ghost use Rattle.mx_run.specs.FlagMaps.{flags_at};
ghost use Rattle.mx_run.specs.RunPlans.{run_plan, SparesMemory};
ghost use Rattle.mx_run.specs.Runs.{no_flags};

use crate::steps::{run_step, step_over};
use crate::{End, FlagMap};
use mx_core::Machine;
use mx_host::Host;
use std::alloc::Global;

/// Makes at most n steps, and breaks and ends where the flags say. With `pass` the first step is made
/// also where the run would break before it.
#[tactic(auto, using(crate::proofs::Later::running))]
pub fn go_by_flags<H: Host>(
    alloc: Global,
    machine: &mut Machine,
    flags: &FlagMap,
    host: &mut H,
    n: u64,
    pass: bool,
) -> End
    ensures { TakesSteps H.told H.faults host.old host.new machine.old machine.new n (flags_at flags.now) pass result }
{
    let mut first = pass;
    for turn in 0..n {
        match run_step(alloc, machine, flags, host, first) {
            Ok(()) => first = false,
            Err(end) => return end,
        }
    }
    End::Spent
}

/// Makes at most n steps, where no tetra has a flag.
pub fn go_freely<H: Host>(
    alloc: Global,
    machine: &mut Machine,
    flags: &FlagMap,
    host: &mut H,
    n: u64,
) -> End
    requires { flags.now ≡ [] }
    ensures { TakesSteps H.told H.faults host.old host.new machine.old machine.new n (flags_at flags.now) true result }
{
    let mut left = n;
    loop {
        let walk = machine.advance_many(left);
        left -= walk.made;
        if left == 0 {
            return End::Spent;
        }
        match step_over(alloc, machine, flags, host, walk.last) {
            Ok(()) => left -= 1,
            Err(end) => return end,
        }
    }
}

/// Makes at most n steps of a machine over a host, with no flags. From a machine that nobody touched it goes as over an
/// unbounded list of registers, up to the first turn that looks at rS or at the memory of the register stack.
///
/// Out of memory, the turns that were made stay, and of the last one what it leaves then; what was
/// written to standard output is a front of what the run writes.
#[tactic(auto)]
pub fn run_freely<H: Host>(alloc: Global, machine: &mut Machine, host: &mut H, n: u64) -> End
    ensures plan { CarriesOutRun H.told host.old host.new machine.old machine.new End.OutOfMemory result
        (run_plan n no_flags false) }
    ensures spared { SparesMemory n (state_of machine.old) → result ≢ End.OutOfMemory }
    ensures run { IsRun H.told H.faults host.old host.new machine.old machine.new n no_flags false result }
{
    let flags = FlagMap::new(alloc);
    go_freely(alloc, machine, &flags, host, n)
}
