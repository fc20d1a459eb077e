//! What holds of two spaces that are the same outside Stack_Segment, over the definitions alone.

ghost use Rattle.std.specs.Prelude.{◌≡◌, ◌≤◌, ℕ, false};
ghost use Rattle.mx_mem.specs.Space.{Contents};
ghost use Rattle.mx_host.specs.HostModel.{HostModel};
ghost use Rattle.mx_alu.specs.declared.call.TrapCall.{TrapCall};
ghost use Rattle.mx_trap.specs.Apart.{apart, leaves_apart, with_segment};
ghost use Rattle.mx_trap.specs.FileTraps.{trap_answer};
ghost use Rattle.mx_trap.specs.Touches.{touches};

use mx_mem::Space;

/// A call that does not touch Stack_Segment answers the same whatever bytes are there and whatever
/// else belongs to the space, and it leaves both as they are. It does not touch the other space
/// either.
#[tactic(auto, using(crate::proofs::ApartCalls::laws))]
pub fn calls_go_apart<M: Space, N: Space>()
    ensures answer { (others : ℕ → ℕ) (rest : N.Rest) (s : Contents M.Rest) (m : HostModel)
        (call : TrapCall) → touches s.bytes call ≡ false
        → trap_answer (apart others rest s) m call ≡ leaves_apart others rest (trap_answer s m call) }
    ensures touches { (others bytes : ℕ → ℕ) (call : TrapCall) → touches bytes call ≡ false
        → touches (with_segment others bytes) call ≡ false }
{}

/// A call leaves what else belongs to the space, and at most 65,536 pages where there were no more.
#[tactic(auto, using(crate::proofs::KeptTraps::keeping))]
pub fn calls_keep_contents<M: Space>()
    ensures rest { (s : Contents M.Rest) (m : HostModel) (call : TrapCall)
        → (trap_answer s m call).1.rest ≡ s.rest }
    ensures pages { (s : Contents M.Rest) (m : HostModel) (c : TrapCall) → s.page_count ≤ 65536
        → (trap_answer s m c).1.page_count ≤ 65536 }
{}
