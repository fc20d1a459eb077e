//! What holds of file traps over their definitions alone.

ghost use Rattle.std.specs.Prelude.{◌≡◌, ◌≢◌, ◌≤◌, ◌<◌, ◌+◌, ◌%◌, ◌^◌, ℕ, true, false, ◌-◌, ◌++◌, ◌∷◌, List, []};
ghost use Rattle.std.specs.Prelude.{length, drop, Ok, Err};
ghost use Rattle.mx_host.specs.HostModel.{HostModel, slot_at, to_input};
ghost use Rattle.mx_host.specs.HostAnswer.{read_answer};
ghost use Rattle.mx_mem.specs.Space.{Contents};
ghost use Rattle.mx_trap.specs.FileTraps.{trap_answer};
ghost use Rattle.mx_trap.specs.Laws.{ComesTo, SameButCalls, IsText, RunsOut, IsLong, line_ends, line_front};
ghost use Rattle.mx_trap.specs.Laws.{stored_byte, LiesBelow, LooksAt};
ghost use Rattle.mx_plan.specs.Calls.{both, host, space};
ghost use Rattle.mx_plan.specs.Plan.{end_of};
ghost use Rattle.mx_trap.specs.Moves.{leaving, minus_one, bytes_stored, fgets, fread, octa_minus, written, write_piece};
ghost use Rattle.mx_trap.specs.Requests.{good_buffer, text_length, most_bytes};
ghost use Rattle.mx_word.specs.Segments.{is_in_stack_segment};
ghost use Rattle.mx_trap.specs.Touches.{meets_segment, text_touches};
ghost use Rattle.mx_trap.specs.declared.answer.TrapStop.{TrapStop};
ghost use Rattle.mx_trap.specs.declared.answer.TrapAnswer.{TrapAnswer};
ghost use Rattle.mx_alu.specs.declared.call.TrapCall.{TrapCall};
ghost use Rattle.mx_word.specs.Lists.{IsFront};

use mx_mem::Space;

/// A trap only adds to standard output.
#[tactic(auto, using(crate::proofs::KeptTraps::adding))]
pub fn traps_only_add_to_output<M: Space>()
    ensures { (s : Contents M.Rest) (m : HostModel) (call : TrapCall) →
        IsFront m.output (trap_answer s m call).2.output }
{}

/// Where no call fails, bytes that go out in pieces of 4,096 come to the same as one write of them.
#[tactic(auto, using(crate::proofs::JoinedWrites::joined))]
pub fn pieces_come_to_one_write()
    ensures { (slot : ℕ) (bytes : List ℕ) (m : HostModel) → m.failing ≡ [] →
        SameButCalls (end_of host (written slot bytes) m) (end_of host (write_piece slot bytes 0) m) }
{}

/// Where no call fails and no byte is refused, Fread does as one read of q bytes: it answers n - q for
/// the n bytes that come, and stores them.
#[tactic(auto, using(crate::proofs::JoinedReads::joined))]
pub fn pieces_come_to_one_read<M: Space>()
    ensures { (slot p q : ℕ) (s : Contents M.Rest) (m : HostModel) (got : List ℕ) → m.failing ≡ [] →
        (read_answer m slot q).0 ≡ Ok got → (end_of space (bytes_stored got p) s).0 ≡ Ok tt →
        ComesTo (leaving (end_of both (fread slot p q) (s, m))) (TrapAnswer.Value (octa_minus (length got) q))
        (end_of space (bytes_stored got p) s).1
        (read_answer m slot q).1 }
{}

/// Where no call fails and no byte is refused, Fgets of q bytes on standard input takes the first line,
/// with its newline or cut after q - 1 bytes, stores it with a zero byte after it and answers its
/// length. Where the input ends first, it stores what came and answers -1.
#[tactic(auto, using(crate::proofs::JoinedLines::joined))]
pub fn lines_come_with_their_newline<M: Space>()
    ensures whole { (slot p q : ℕ) (s : Contents M.Rest) (m : HostModel) → 0 < q → m.failing ≡ [] →
        slot_at m slot ≡ to_input → line_ends (q - 1) m.input ≡ true →
        (end_of space (bytes_stored (line_front (q - 1) m.input ++ 0 ∷ []) p) s).0 ≡ Ok tt →
        ComesTo (leaving (end_of both (fgets slot p q) (s, m)))
        (TrapAnswer.Value (length (line_front (q - 1) m.input)))
        (end_of space (bytes_stored (line_front (q - 1) m.input ++ 0 ∷ []) p) s).1
        (record m { input = drop (length (line_front (q - 1) m.input)) m.input }) }
    ensures cut { (slot p q : ℕ) (s : Contents M.Rest) (m : HostModel) → 0 < q → m.failing ≡ [] →
        slot_at m slot ≡ to_input → line_ends (q - 1) m.input ≡ false →
        (end_of space (bytes_stored (line_front (q - 1) m.input) p) s).0 ≡ Ok tt →
        ComesTo (leaving (end_of both (fgets slot p q) (s, m))) (TrapAnswer.Value minus_one)
        (end_of space (bytes_stored (line_front (q - 1) m.input) p) s).1 (record m { input = [] }) }
{}

/// Bytes that are stored, none of them refused, are at the addresses from a on; every other byte and
/// the rest of the space are as before.
#[tactic(auto, using(crate::proofs::StoredBytes::storing))]
pub fn stored_bytes_are_there<M: Space>()
    ensures bytes { (bytes : List ℕ) (a : ℕ) (s : Contents M.Rest) (q : ℕ) →
        (end_of space (bytes_stored bytes a) s).0 ≡ Ok tt →
        (end_of space (bytes_stored bytes a) s).1.bytes q ≡ stored_byte bytes a s.bytes q }
    ensures rest { (bytes : List ℕ) (a : ℕ) (s : Contents M.Rest) →
        (end_of space (bytes_stored bytes a) s).1.rest ≡ s.rest }
{}

/// The length of a text is that of the bytes up to the first zero byte, where all of them and that
/// byte lie below 2^63 and they are at most 2^24. It is negative only where at most 2^24 bytes, none
/// of them zero, lead up to an address of 2^63 or more, and too large only where none of 2^24 + 1
/// bytes is zero and all of them lie below 2^63.
#[tactic(auto, using(crate::proofs::TextEnds::ends))]
pub fn texts_end_at_the_first_zero()
    ensures found { (bytes : ℕ → ℕ) (a n : ℕ) → text_length most_bytes bytes a ≡ Ok n → IsText most_bytes bytes a n }
    ensures only { (bytes : ℕ → ℕ) (a n : ℕ) → IsText most_bytes bytes a n → text_length most_bytes bytes a ≡ Ok n }
    ensures negative { (bytes : ℕ → ℕ) (a : ℕ) → text_length most_bytes bytes a ≡ Err TrapStop.Negative →
        RunsOut most_bytes bytes a }
    ensures large { (bytes : ℕ → ℕ) (a : ℕ) → text_length most_bytes bytes a ≡ Err TrapStop.TransferTooLarge →
        IsLong most_bytes bytes a }
{}

/// Some of n addresses from a on, as sums modulo 2^64, lie in Stack_Segment exactly where the test by
/// intervals says so.
#[tactic(auto, using(crate::proofs::Segments::meeting))]
pub fn intervals_meet_the_segment()
    ensures found { (a n : ℕ) → a < 2 ^ 64 → meets_segment a n ≡ true →
        (k : ℕ) × (k < n) × (is_in_stack_segment ((a + k) % 2 ^ 64) ≡ true) }
    ensures only { (a n k : ℕ) → a < 2 ^ 64 → k < n → n < 2 ^ 64 → is_in_stack_segment ((a + k) % 2 ^ 64) ≡ true →
        meets_segment a n ≡ true }
{}

/// A text touches Stack_Segment exactly where one of the bytes that are looked at in it lies there.
#[tactic(auto, using(crate::proofs::TextReach::looking))]
pub fn texts_touch_where_they_are_read()
    ensures found { (bytes : ℕ → ℕ) (a : ℕ) → a < 2 ^ 64 → text_touches bytes a ≡ true →
        (i : ℕ) × LooksAt most_bytes bytes a i × (is_in_stack_segment (a + i) ≡ true) }
    ensures only { (b : ℕ → ℕ) (a i : ℕ) → a < 2 ^ 64 → LooksAt most_bytes b a i →
        is_in_stack_segment (a + i) ≡ true → text_touches b a ≡ true }
{}

/// A buffer is good exactly where it has at most 2^24 bytes and each of them lies below 2^63. One of more bytes is
/// too large, wherever it lies; else one with a byte at 2^63 or above is negative. One of no bytes is good anywhere.
#[tactic(auto, using(crate::proofs::GoodBuffers::goodness))]
pub fn buffers_are_good_below()
    ensures good { (p q : ℕ) → q ≤ most_bytes → LiesBelow p q → good_buffer (Ok (p, q)) ≡ Ok (p, q) }
    ensures large { (p q : ℕ) → most_bytes < q → good_buffer (Ok (p, q)) ≡ Err TrapStop.TransferTooLarge }
    ensures negative { (p q i : ℕ) → q ≤ most_bytes → i < q → 2 ^ 63 ≤ p + i →
        good_buffer (Ok (p, q)) ≡ Err TrapStop.Negative }
{}

/// By its definition a file trap is never out of memory, whatever the space, the files and the failing calls.
#[tactic(auto, using(crate::proofs::ToldTraps::told))]
pub fn traps_end_by_themselves<M: Space>()
    ensures { (s : Contents M.Rest) (m : HostModel) (call : TrapCall) →
        (trap_answer s m call).0 ≢ TrapAnswer.OutOfMemory }
{}
