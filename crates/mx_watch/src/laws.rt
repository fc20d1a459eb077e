//! What the three watchers come to, in words of the traces alone.

ghost use Rattle.std.specs.Prelude.{◌≡◌, ◌<◌, ◌-◌, ◌^◌, ◌↔◌, ◌++◌, ℕ, suc, Bool, true, List, [], length, min, replicate, slice_index, take};
ghost use Rattle.std.specs.List.{Contains, flat_map, range_with_len};
ghost use Rattle.std.specs.List.Sorted.{IsStrictlySortedBy};
ghost use Rattle.std.specs.Ordering.{nat_cmp};
ghost use Rattle.mx_code.specs.declared.trace.Trace.{Trace};
ghost use Rattle.mx_watch.specs.Covers.{addresses_after, addresses_of};
ghost use Rattle.mx_watch.specs.Hearing.{Hears, heard, never_full, remains, reported, reported_heard, reports_in_turn};
ghost use Rattle.mx_watch.specs.Listening.{Listening, watched};
ghost use Rattle.mx_watch.specs.Profiles.{counts_after, occurrences};
ghost use Rattle.mx_watch.specs.Reporting.{in_places, reports_on, texts_now};
ghost use Rattle.mx_watch.specs.Watching.{Watching};
ghost use Rattle.mx_watch.specs.declared.telling.Report.{Report};
ghost use Rattle.mx_watch.specs.Writings.{write_of, writes_after};

/// A new profile counts how many of the traces have a code, up to 2^64 - 1.
#[tactic(auto, using(crate::proofs::CountLaws::counting_laws))]
pub fn codes_are_counted()
    ensures { (h : List Trace) (code : ℕ) → code < 256 →
        slice_index (counts_after (replicate 256 0) h) code ≡ min (occurrences code h) (2 ^ 64 - 1) }
{}

/// A new cover has the addresses of the traces, each once: they ascend, and an address is among them exactly where
/// it is that of a trace. So their number is that of the different addresses.
#[tactic(auto, using(crate::proofs::AddressLaws::address_laws))]
pub fn addresses_come_once()
    ensures ascending { (h : List Trace) → IsStrictlySortedBy nat_cmp (addresses_after [] h) }
    ensures those { (h : List Trace) (a : ℕ) → Contains (addresses_after [] h) a ↔ Contains (addresses_of h) a }
{}

/// New `Writes` have the writes of the traces to their part of memory, in turn.
#[tactic(auto, using(crate::proofs::WriteLaws::write_laws))]
pub fn writes_come_in_turn()
    ensures { (from to : ℕ) (h : List Trace) →
        writes_after from to [] h ≡ flat_map (λ t. write_of from to t.pc t.writes) h }
{}

/// After traces, those watchers are left of which no front of the traces is full, in order, each told all of them. The
/// report of another one is on its shortest front that is full: the shorter one first, and of one length in the order
/// of the watchers.
#[tactic(auto, using(crate::proofs::HearingLaws::hearing))]
pub fn each_hears_its_front()
    ensures left { (h : List Trace) (l : Listening) → (watched h l).left ≡ flat_map (remains h) l.left }
    ensures kept { (h : List Trace) (l : Listening) → (watched h l).kept ≡ l.kept ++ reports_in_turn h l.left }
{}

/// A watcher hears of traces the shortest front of one or more that is full, and all of them where none is. A report
/// that is kept is on what its watcher heard.
pub fn reports_are_on_what_was_heard()
    ensures all { (full : List Trace → Bool) (h : List Trace) → never_full full h ≡ true → heard full h ≡ h }
    ensures front { (full : List Trace → Bool) (h : List Trace) (k : ℕ) → k < length h
        → never_full full (take k h) ≡ true → full (take (suc k) h) ≡ true → heard full h ≡ take (suc k) h }
    ensures reports { (h : List Trace) (k : ℕ) (w : ℕ × Watching) → k < length h
        → reported h k w ≡ reported_heard h k w }
{}

/// Of watchers that were told traces, those that are kept and those that are left together give the report of each on
/// what it heard, in the order of the list at the start.
#[tactic(auto, using(crate::proofs::AllReported::all_reported))]
pub fn all_are_reported_in_order()
    ensures { (h : List Trace) (watchers left : List Watching) (kept : List Report) → Hears h watchers left [] kept →
        in_places (range_with_len 0 (length watchers)) kept (texts_now left) ≡ reports_on h watchers }
{}
