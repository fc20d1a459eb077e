//! Programs that are stepped up and back.

ghost use Rattle.std.specs.Prelude.{[], ◌≡◌};
ghost use Rattle.mx_back.specs.History.{AreNotesOf};
ghost use Rattle.mx_core.specs.Kept.{state_of};

use crate::back::digest::digest_of;
use mx_back::Back;
use mx_core::{Machine, SetFault, Step};
use mx_load::Loader;
use mx_mmo::Octas;
use mx_ring::RingSize;
use mx_start::start;
use mx_word::{Bytes, Symbols};
use std::alloc::Global;
use std::test::Fail;

/// The octas of a program with their addresses; it starts at the first of them.
pub type Program = &'static [(u64, u64)];

/// A machine with a ring of 256 registers, before any step.
fn started(alloc: Global) -> Result<Machine, Fail> {
    let Some(size) = RingSize::of(256) else {
        return Err(Fail::new("no size of a ring"));
    };
    let image = Loader::new(alloc).finish(Symbols::new(alloc))?;
    let args = [Bytes::copy(alloc, b"p")?];
    Ok(start(alloc, image, &args, size)?)
}

/// A machine with a program.
pub fn machine_with(alloc: Global, program: &[(u64, u64)]) -> Result<Machine, Fail> {
    let mut machine = started(alloc)?;
    set_octas(&mut machine, program)?;
    if let Some((at, _)) = program.first() {
        machine.set_pc(*at);
    }
    Ok(machine)
}

fn set_octas(machine: &mut Machine, octas: &[(u64, u64)]) -> Result<(), SetFault> {
    for (at, octa) in octas {
        if *at >= 1 << 63 {
            return Err(SetFault::NotAllowed);
        }
        machine.set_octa(*at, *octa)?;
    }
    Ok(())
}

/// Makes a step, where `quick` is wished first as a usual one. Whether it went on.
fn make_step(back: &mut Back, machine: &mut Machine, quick: bool) -> bool
    requires { AreNotesOf back.old (state_of machine.old) }
    ensures { AreNotesOf back.new (state_of machine.new) }
{
    if quick && back.step_if_usual(machine) {
        return true;
    }
    match back.step(machine) {
        Step::Went(_) => true,
        _ => false,
    }
}

/// Makes this many steps, and keeps what the machine shows before each. Whether all of them went on.
pub fn step_up(
    back: &mut Back,
    machine: &mut Machine,
    seen: &mut Octas,
    steps: usize,
    quick: bool,
) -> bool
    requires { AreNotesOf back.old (state_of machine.old) }
    ensures { AreNotesOf back.new (state_of machine.new) }
{
    for _turn in 0..steps {
        let shown = digest_of(machine);
        if !make_step(back, machine, quick) {
            return false;
        }
        if seen.push(shown).is_err() {
            return false;
        }
    }
    true
}

/// Takes steps back as long as one is kept. How many there were before which the machine shows what it showed.
pub fn step_back(back: &mut Back, machine: &mut Machine, seen: &[u64]) -> usize
    requires { AreNotesOf back.old (state_of machine.old) }
    ensures { AreNotesOf back.new (state_of machine.new) }
{
    let most = seen.len();
    for turn in 0..most {
        let answer = back.back(machine);
        match answer {
            Ok(()) => {}
            Err(_) => return turn,
        }
        if seen.get(most - 1 - turn) != Some(&digest_of(machine)) {
            return turn;
        }
    }
    most
}

/// How many steps of a program go on and come back, of this many; with `quick` usual ones are made as such.
pub fn count_returns(
    alloc: Global,
    program: Program,
    steps: usize,
    quick: bool,
) -> Result<usize, Fail> {
    let mut machine = machine_with(alloc, program)?;
    let mut back = Back::new(alloc)?;
    let mut seen = Octas::new(alloc);
    if !step_up(&mut back, &mut machine, &mut seen, steps, quick) {
        return Err(Fail::new("a step did not go on"));
    }
    Ok(step_back(&mut back, &mut machine, seen.as_slice()))
}
