//! What a call of the program answers where no call of the host that it makes fails.

ghost use Rattle.std.specs.Prelude.{◌≡◌, ◌%◌, ◌^◌, None};
ghost use Rattle.mx_asm.specs.Refusal.{refusal};
ghost use Rattle.mx_ring.specs.Stack.{register};
ghost use Rattle.law_runs.specs.Programs.{CalledAssembler, CalledGenerator, CalledProgram, HaltedRun, Halting};
ghost use Rattle.law_runs.specs.Programs.{Playing, called_run};
ghost use Rattle.mx_outcome.specs.declared.outcome.Outcome.TheVariants.{Done};

/// A program that halts does so with the low byte of its register $255.
pub fn statuses_are_low_bytes()
    ensures { (r : HaltedRun) → r.status ≡ register r.ended.stack 255 % 2 ^ 8 }
{}

/// Let the program be called over a host that tells, whose slots are as at the start, and let no call of
/// the host that it makes be in the list of those that fail. It answers out of memory, or as follows.
///
/// The words are `run` without `-i`, the source is there and has no refusal, its arguments fit the pages,
/// and the machine of the window that is asked for halts within the steps that are asked for: then the
/// answer is Done of the low byte of $255, with a dump and without one. So it is with `sim` of an object without a
/// fault. `asm` of a source without a refusal answers Done of 0; so does `gen` where its machine starts and halts
/// within 2^26 steps. With `-i`, and without the halt, the answer is that of the session. The runs and the session are
/// those over the host with no call counted and none that fails.
pub fn calls_answer_what_is_due()
    ensures run { (p : CalledProgram) (r : Halting (called_run p)) →
        p.outcome ≡ Done (register r.ended.stack 255 % 2 ^ 8) }
    ensures asm { (p : CalledAssembler) → refusal p.text ≡ None → p.outcome ≡ Done 0 }
    ensures generate { (p : CalledGenerator) → p.outcome ≡ Done 0 }
    ensures console { (p : CalledProgram) (r : Playing (called_run p)) → p.outcome ≡ r.outcome }
{}
