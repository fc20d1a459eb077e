//! A source that is generated, and run.

ghost use Rattle.std.specs.Prelude.{◌≡◌, ◌≢◌, ◌≤◌, ◌+◌, ◌*◌, ◌∷◌, [], Ok, IfOk, false, codes, length};
ghost use Rattle.mx_core.specs.Kept.{state_of};
ghost use Rattle.mx_start.specs.Start.{pool, pool_octas};
ghost use Rattle.mx_load.specs.Kept.{image_of};
ghost use Rattle.mx_ring.specs.Stack.{stack_address};
ghost use Rattle.mx_gen.specs.Generator.{generated};
ghost use Rattle.mx_files.specs.Failing.{FailsOnlyBy};
ghost use Rattle.mx_begin.specs.Ends.{IsOfMachine};
ghost use Rattle.mx_top.specs.Endings as plans;
ghost use Rattle.mx_top.specs.MachineWork as work;
ghost use Rattle.mx_top.specs.Product as page;
ghost use Rattle.mx_top.specs.Product.{taking};
ghost use Rattle.mx_top.specs.Runs as spec;
ghost use Rattle.mx_top.specs.WorkClauses.{DoesNext, DoesProgram, DoesWork};
ghost use Rattle.mx_plan.specs.Clauses.{CarriesOutOnHost};

use crate::generator::{format_summary, generate_source};
use mx_begin::{outcome_of, start_machine};
use mx_core::Machine;
use mx_files::{SourceFault, load_source, write_line};
use mx_host::Host;
use mx_load::Image;
use mx_outcome::Outcome;
use mx_run::Runner;
use mx_word::{Bytes, NoMemory};
use mx_words::Order;
use std::alloc::Global;

/// A generated program makes at most this many steps.
const STEP_BOUND: u64 = 1 << 26;

/// Writes the line that tells what came of a program that halted.
fn put_summary<H: Host>(
    alloc: Global,
    host: &mut H,
    blocks: u64,
    size: u64,
    machine: &Machine,
) -> Outcome
    ensures plan { CarriesOutOnHost (H.told host.old) (H.told host.new) Outcome.OutOfMemory result
        (plans.summed_plan blocks size (Outcome.Done 0) (state_of machine.now)) }
    ensures causes { FailsOnlyBy H.told H.faults host.old host.new result }
{
    let line = match format_summary(alloc, blocks, size, machine.steps(), machine.register(255)) {
        Ok(line) => line,
        Err(_) => return Outcome::OutOfMemory,
    };
    match write_line(host, line.as_slice()) {
        Ok(()) => Outcome::Done(0),
        Err(other) => other,
    }
}

/// Whether a program halted.
fn is_done(outcome: Outcome) -> bool
    ensures { result ≡ spec.is_done outcome }
{
    matches!(outcome, Outcome::Done(_))
}

/// What follows the run of a generated program: its summary, where it halted.
fn sum_up<H: Host>(
    alloc: Global,
    host: &mut H,
    blocks: u64,
    size: u64,
    machine: &Machine,
    outcome: Outcome,
) -> Outcome
    requires { IsOfMachine outcome }
    ensures { DoesNext H.told H.faults host.old host.new outcome result
        (plans.summed_plan blocks size outcome (state_of machine.now)) }
{
    if !is_done(outcome) {
        return outcome;
    }
    put_summary(alloc, host, blocks, size, machine)
}

/// Runs a generated program that was started.
fn run_summed<H: Host>(
    alloc: Global,
    host: &mut H,
    blocks: u64,
    size: u64,
    machine: Machine,
) -> Outcome
    requires { (state_of machine).touched ≡ false }
    ensures { DoesWork H.told H.faults host.old host.new (state_of machine) result
        (work.generated_work blocks size) }
{
    let mut runner = Runner::new(alloc, machine);
    let end = runner.go(host, STEP_BOUND, false);
    sum_up(
        alloc,
        host,
        blocks,
        size,
        runner.machine(),
        outcome_of(STEP_BOUND, end),
    )
}

/// The one argument of a generated program.
#[tactic(auto, unfolding(mx_start::specs::Start::pool_octas))]
fn generator_arguments(alloc: Global) -> Result<Vec<Bytes>, NoMemory>
    ensures value { IfOk result (λ arguments. arguments.items ≡ codes "gen" ∷ []) }
    ensures fits { IfOk result (λ arguments. pool + 8 * length (pool_octas arguments.items) ≤ stack_address 0) }
{
    let mut arguments = Vec::new(alloc);
    arguments.push(Bytes::copy(alloc, b"gen")?)?;
    Ok(arguments)
}

/// Runs the image of a generated program of this size.
fn run_generated<H: Host>(
    alloc: Global,
    host: &mut H,
    order: &Order,
    size: u64,
    image: Image,
) -> Outcome
    ensures { DoesProgram H.told H.faults host.old host.new result
        (page.run_source order.now size (Ok (image_of image))) }
{
    let arguments = match generator_arguments(alloc) {
        Ok(arguments) => arguments,
        Err(_) => return Outcome::OutOfMemory,
    };
    match start_machine(alloc, image, arguments.as_slice(), order.ring) {
        Ok(machine) => run_summed(alloc, host, order.number, size, machine),
        Err(outcome) => outcome,
    }
}

/// Runs a source that was generated.
fn run_text<H: Host>(alloc: Global, host: &mut H, order: &Order, text: &[u8]) -> Outcome
    ensures { DoesProgram H.told H.faults host.old host.new result (page.run_text order.now text.now) }
{
    match load_source(alloc, text) {
        Ok(image) => run_generated(alloc, host, order, text.len() as u64, image),
        Err(SourceFault::Refused(refusal)) => refusal.outcome(),
        Err(SourceFault::OutOfMemory) => Outcome::OutOfMemory,
    }
}

/// Generates a source with as many blocks as are ordered, runs it, and writes what came of it.
pub fn generate<H: Host>(alloc: Global, host: &mut H, order: &Order) -> Outcome
    requires { order.now.number ≤ 10000 }
    ensures { DoesProgram H.told H.faults host.old host.new result
        (taking (page.run_text order.now (generated order.now.number))) }
{
    match generate_source(alloc, order.number) {
        Ok(text) => run_text(alloc, host, order, text.as_slice()),
        Err(_) => Outcome::OutOfMemory,
    }
}
