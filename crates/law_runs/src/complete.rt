//! Laws that the program is done with what is right: where each call is answered, a source that means
//! something is run, or assembled, to its end. What holds of a source that is run holds of an object, too.

ghost use Rattle.std.specs.Prelude.{◌≡◌, ◌≤◌, List, ℕ, [], ◌∷◌, None, Ok, Err, true, false};
ghost use Rattle.mx_host.specs.HostModel.{HostModel};
ghost use Rattle.mx_mmo.specs.Image.{Image};
ghost use Rattle.mx_plan.specs.Wild.{ends};
ghost use Rattle.mx_core.specs.State.{State};
ghost use Rattle.mx_asm.specs.Entries.{source_entries, statements_in};
ghost use Rattle.mx_asm.specs.Image.{image};
ghost use Rattle.mx_asm.specs.Pages.{run_refusal};
ghost use Rattle.mx_asm.specs.Refusal.{refusal};
ghost use Rattle.mx_gen.specs.Generator.{generated};
ghost use Rattle.mx_gen.specs.Program.{generated_image};
ghost use Rattle.mx_plan.specs.Counts.{unscheduled, without_count};
ghost use Rattle.law_runs.specs.Complete.{with_output};
ghost use Rattle.law_runs.specs.Programs.{Dumps, FoundProgram, FoundSource, GeneratedRun, Halting, Playing};
ghost use Rattle.law_runs.specs.Programs.{ReadProgram, ReadableFile, SparedRun, StartsConsole, WrittenSource};
ghost use Rattle.law_runs.specs.Programs.{assembled_answer, console_answer, dumped_answer, found_answer, found_run};
ghost use Rattle.law_runs.specs.Programs.{generated_answer, halted_answer, read_answer, refused_answer, run_answer};
ghost use Rattle.law_runs.specs.Programs.{said, source_answer, spared_answer, with_object_of, written_answer};
ghost use Rattle.mx_files.specs.Writing.{lines_put};
ghost use Rattle.mx_files.specs.Objects.{source_object};
ghost use Rattle.mx_top.specs.Telling.{with_message};
ghost use Rattle.mx_files.specs.Source.{file_bytes};
ghost use Rattle.mx_files.specs.Sources.{source_meaning};
ghost use Rattle.mx_outcome.specs.declared.outcome.Outcome.TheVariants.{Done};
ghost use Rattle.mx_files.specs.declared.refusal.Refusal.{Refusal};

/// A source or an object that is read, that means an image, and whose machine starts and halts within the steps of
/// the order, is done: the program answers the status that the machine halted with, and leaves the host
/// as the machine left it. With a dump it leaves the host as the last line of the dump did, if each line
/// is written. By the clauses of the top call the program then answers this, or it is out of memory.
pub fn programs_that_halt_are_done()
    ensures plain { (p : ReadProgram) (r : Halting p.run) → p.run.order.dump ≡ false →
        read_answer p ≡ ends (Done r.status) r.after }
    ensures dumped { (p : ReadProgram) (r : Halting p.run) (n : HostModel) → Dumps p.run r n →
        read_answer p ≡ ends (Done r.status) n }
{}

/// With the console, where the machine starts, the program answers what the session comes to, and leaves
/// the host as the session does, after which the dump and the message may write.
pub fn consoles_answer_as_sessions()
    ensures session { (p : ReadProgram) (s : State) → StartsConsole p.run s →
        read_answer p ≡ with_message (console_answer p.run s) }
    ensures plain { (p : ReadProgram) (r : Playing p.run) → p.run.order.dump ≡ false →
        read_answer p ≡ with_message (ends r.outcome r.after) }
{}

/// A source without a refusal means the image of its statements, and a source that means an image is
/// accepted: an object is made of it, as of each source that the assembler refuses nothing of. Where the
/// words order to assemble a source that is read, and the object file opens, is written and is closed, the
/// program is done, if the source is accepted. Otherwise it answers the refusal.
#[tactic(auto, using(crate::proofs::Completed::completed))]
pub fn sources_that_mean_are_assembled()
    ensures unrefused { (text : List ℕ) → run_refusal text ≡ None →
        source_meaning text ≡ Ok (image (statements_in (source_entries text))) }
    ensures accepted { (text : List ℕ) (image : Image) → source_meaning text ≡ Ok image →
        (source_object text).1 ≡ Ok tt }
    ensures assembled { (text : List ℕ) → refusal text ≡ None → (source_object text).1 ≡ Ok tt }
    ensures means { (w : WrittenSource) (image : Image) → source_meaning w.text ≡ Ok image →
        written_answer w ≡ ends (Done 0) w.after }
    ensures done { (w : WrittenSource) → (source_object w.text).1 ≡ Ok tt → written_answer w ≡ ends (Done 0) w.after }
    ensures refused { (w : WrittenSource) (r : Refusal) → (source_object w.text).1 ≡ Err r →
        written_answer w ≡ refused_answer w r }
{}

/// A source that is generated means the image of its program. It is done where the machine of this image
/// starts and halts within 2^26 steps, and the line that tells what came of it is written. Where no call that
/// the program makes fails and the slots are as at the start, that line is written; the run is then that
/// over the host with no call counted and none that fails.
#[tactic(auto, using(crate::proofs::Completed::completed))]
pub fn generated_sources_are_done()
    ensures means { (n : ℕ) → n ≤ 10000 → source_meaning (generated n) ≡ Ok (generated_image n) }
    ensures written { (g : GeneratedRun) (n : HostModel) → lines_put (g.line ∷ []) g.left ≡ (true, n) →
        generated_answer g ≡ ends (Done 0) n }
    ensures spared { (g : SparedRun) → spared_answer g ≡ ends (Done 0) (unscheduled (with_output g.left g.line)) }
{}

/// Where no call of the reading fails and the slots are as at the start, a file that is there is read,
/// and nothing but the number of calls is then changed. So where no call that the program makes fails, a
/// source or an object that is there, and that means an image, is run in the host as it is, with no call counted
/// and none that fails: the program answers and leaves what the run of the image and the message do, but
/// for the number of calls and the list of those that fail. Where its machine halts within the steps of
/// the order, the program is done.
pub fn programs_that_are_there_are_run()
    ensures read { (f : ReadableFile) → without_count (file_bytes f.most f.name f.host).1 ≡ without_count f.host }
    ensures run { (p : FoundProgram) → found_answer p ≡ said (run_answer (found_run p)) }
    ensures plain { (p : FoundProgram) (r : Halting (found_run p)) → p.order.dump ≡ false →
        found_answer p ≡ halted_answer (found_run p) r }
    ensures dumped { (p : FoundProgram) (r : Halting (found_run p)) → p.order.dump ≡ true →
        found_answer p ≡ dumped_answer (found_run p) r }
{}

/// With the console, where no call that the program makes fails, a source or an object that is there
/// answers what the session comes to, and leaves the host as the session does, after which the dump and
/// the message may write.
pub fn consoles_of_what_is_there_answer_as_sessions()
    ensures { (p : FoundProgram) (s : State) → StartsConsole (found_run p) s →
        found_answer p ≡ said (console_answer (found_run p) s) }
{}

/// Where no call that the program makes fails and the slots are as at the start, a source that is there
/// is assembled: the program leaves the host with what there is of the object in the file that the words
/// name, and otherwise as it was, but for the number of calls, the list of those that fail and the
/// message. Where the assembler refuses nothing, it is done, and there is no message.
pub fn sources_that_are_there_are_assembled()
    ensures done { (p : FoundSource) → refusal p.text ≡ None →
        source_answer p ≡ ends (Done 0) (unscheduled (with_object_of p p.host)) }
    ensures told { (p : FoundSource) → source_answer p ≡ said (assembled_answer p (unscheduled p.host)) }
{}
