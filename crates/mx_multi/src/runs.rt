//! Turns of several processors by a schedule.

ghost use Rattle.std.specs.Prelude.{◌≡◌, ◌≤◌, drop, length};
ghost use Rattle.mx_multi.specs.Clauses.{TakesTurns};
ghost use Rattle.mx_multi.specs.Joint.{joint_of, processor_count};
ghost use Rattle.mx_multi.specs.Schedules.{AreNames};
ghost use Rattle.mx_multi.specs.Seats.{seated};
ghost use Rattle.mx_multi.specs.Stretches.{running};

use crate::queue::{Queue, leave_out_halted, next_place, queue_of};
use crate::rows::walk_rows;
use crate::seats::Seats;
use crate::{Multi, MultiEnd, Turn};
use mx_host::Host;
use std::alloc::Global;

/// Lets processors take turns over a host, in the order of a schedule whose bytes name them and which is repeated from
/// its beginning as often as needed, up to n steps in all. A turn of a processor that has halted does nothing and is no
/// step. It ends where each processor that the schedule names has halted, or one of them stops.
///
/// Processors that nobody touched go as machines over unbounded lists of registers that take one step each on one memory,
/// up to the first turn that looks at rS or at the memory of a register stack. Out of memory, the turns that were made
/// stay, and of the last one what it leaves then. At the start memory is taken for the names of those that have not
/// halted; after a halt those that are left are moved together, so that names of halted ones cost no time.
pub fn run_turns<H: Host>(
    alloc: Global,
    multi: &mut Multi,
    host: &mut H,
    schedule: &[u8],
    n: u64,
) -> MultiEnd
    requires { AreNames (processor_count multi.now) schedule.now }
    ensures turns { TakesTurns schedule.now n H.told H.faults host.old host.new
        (joint_of multi.old) (joint_of multi.new) result }
    ensures count { processor_count multi.new ≡ processor_count multi.old }
{
    multi.run(alloc, host, schedule, n)
}

/// The same of machines of which one has the one memory.
pub(crate) fn run_seats<H: Host>(
    alloc: Global,
    seats: &mut Seats,
    host: &mut H,
    schedule: &[u8],
    n: u64,
) -> MultiEnd
    requires { AreNames (length seats.now.machines) schedule.now }
    ensures turns { TakesTurns schedule.now n H.told H.faults host.old host.new (seated seats.old) (seated seats.new) result }
    ensures count { length seats.new.machines ≡ length seats.old.machines }
{
    let mut queue = match queue_of(alloc, seats.halted(), schedule) {
        Ok(all) => all,
        Err(_) => return MultiEnd::OutOfMemory,
    };
    let mut left = n;
    while left > 0 {
        let names = queue.names.as_slice();
        let place = match next_place(names, queue.at) {
            Some(place) => place,
            None => return MultiEnd::AllHalted,
        };
        let walked = walk_rows(seats, names, place, left);
        left = walked.left;
        if left == 0 {
            return MultiEnd::Spent;
        }
        left -= 1;
        let who = names[walked.at];
        match seats.turn(alloc, host, who) {
            Turn::Went => queue.at = walked.at + 1,
            Turn::Idle => queue.at = walked.at + 1,
            Turn::Halted(_) => {
                queue.at = walked.at + 1;
                leave_out(seats, &mut queue);
            }
            Turn::Stopped { pc, reason } => {
                return MultiEnd::Stopped {
                    processor: who,
                    pc,
                    reason,
                };
            }
            Turn::OutOfMemory => return MultiEnd::OutOfMemory,
        }
    }
    match next_place(queue.names.as_slice(), queue.at) {
        Some(_) => MultiEnd::Spent,
        None => MultiEnd::AllHalted,
    }
}

/// Leaves out the names of machines that have halted, and finds the place again.
fn leave_out(seats: &Seats, queue: &mut Queue)
    requires names { AreNames (length seats.now.machines) queue.now.names.items }
    requires inside { queue.now.at ≤ length queue.now.names.items }
    ensures names { queue.new.names.items ≡ running seats.now.halted queue.old.names.items }
    ensures place { drop queue.new.at queue.new.names.items ≡ running seats.now.halted (drop queue.old.at queue.old.names.items) }
{
    leave_out_halted(seats.halted(), queue);
}
