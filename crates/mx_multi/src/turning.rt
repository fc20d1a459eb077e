//! Turns of several processors: one of them, or as many as a schedule has.

ghost use Rattle.std.specs.Prelude.{◌≡◌, ◌<◌, false};
ghost use Rattle.mx_multi.specs.Clauses.{TakesTurn, TakesTurns};
ghost use Rattle.mx_multi.specs.Joint.{has_halted, joint_of, processor_count};
ghost use Rattle.mx_multi.specs.Schedules.{AreNames};

use crate::runs::run_seats;
use crate::{Multi, MultiEnd, Turn};
use mx_host::Host;
use std::alloc::Global;

impl Multi {
    /// Makes one turn of a processor over a host: a step of it on the one memory, a file trap included, unless it has
    /// halted. A processor that nobody touched goes as a machine over an unbounded list of registers does.
    ///
    /// Out of memory, a step left the processor as it was; a file trap left the bytes that it moved and the calls that
    /// it made.
    pub fn turn<H: Host>(&mut self, host: &mut H, who: u8) -> Turn
        requires { who < processor_count self.now }
        ensures turn { TakesTurn H.told H.faults host.old host.new (joint_of self.old) (joint_of self.new) who result }
        ensures count { processor_count self.new ≡ processor_count self.old }
    {
        if self.halted(who) {
            return Turn::Idle;
        }
        self.make_turn(host, who)
    }

    /// A turn of a processor that has not halted.
    fn make_turn<H: Host>(&mut self, host: &mut H, who: u8) -> Turn
        requires inside { who < processor_count self.now }
        requires runs { has_halted self.now.halted who ≡ false }
        ensures turn { TakesTurn H.told H.faults host.old host.new (joint_of self.old) (joint_of self.new) who result }
        ensures count { processor_count self.new ≡ processor_count self.old }
    {
        self.seats.lend(&mut self.memory);
        let answer = self.seats.turn(self.alloc, host, who);
        self.seats.give_back(&mut self.memory);
        answer
    }

    /// Lets the processors take turns by a schedule, up to n steps in all.
    pub(crate) fn run<H: Host>(
        &mut self,
        alloc: Global,
        host: &mut H,
        schedule: &[u8],
        n: u64,
    ) -> MultiEnd
        requires { AreNames (processor_count self.now) schedule.now }
        ensures turns { TakesTurns schedule.now n H.told H.faults host.old host.new (joint_of self.old) (joint_of self.new) result }
        ensures count { processor_count self.new ≡ processor_count self.old }
    {
        self.seats.lend(&mut self.memory);
        let end = run_seats(alloc, &mut self.seats, host, schedule, n);
        self.seats.give_back(&mut self.memory);
        end
    }
}
