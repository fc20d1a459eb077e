//! The number of the calls of the host shows in no file trap, nor does the list of those that fail.

ghost use Rattle.std.specs.Prelude.{◌≡◌};
ghost use Rattle.mx_host.specs.HostModel.{HostModel};
ghost use Rattle.mx_mem.specs.Space.{Contents};
ghost use Rattle.mx_plan.specs.Counts.{NoneFailed, unscheduled};
ghost use Rattle.mx_trap.specs.Apart.{leaves_unscheduled};
ghost use Rattle.mx_trap.specs.FileTraps.{trap_answer};
ghost use Rattle.mx_alu.specs.declared.call.TrapCall.{TrapCall};

use mx_mem::Space;

/// Where no call that a trap makes fails, it answers and leaves the same whatever number of calls was made
/// before, and whatever other calls are listed as failing; only that number and that list differ.
#[tactic(auto, using(crate::proofs::KeptTraps::steady))]
pub fn traps_go_by_no_count<M: Space>()
    ensures { (s : Contents M.Rest) (m n : HostModel) (call : TrapCall) → unscheduled m ≡ unscheduled n →
        NoneFailed m (trap_answer s m call).2 → NoneFailed n (trap_answer s n call).2 →
        leaves_unscheduled (trap_answer s m call) ≡ leaves_unscheduled (trap_answer s n call) }
{}
