//! A run that is counted beside the run of the program.

ghost use Rattle.std.specs.Prelude.{◌≡◌, Ok};
ghost use Rattle.mx_plan.specs.Wild.{ends};
ghost use Rattle.mx_files.specs.Source.{file_bytes, object_pieces};
ghost use Rattle.mx_count.specs.Runs.{by_text};
ghost use Rattle.mx_words.specs.declared.order.Command.TheVariants.{Run, Sim};
ghost use Rattle.mx_top.specs.Product.{product};
ghost use Rattle.mx_top.specs.Telling.{with_message};
ghost use Rattle.law_runs.specs.Counted.{PlainRun, ShortSource, TracedRun, data_answer, object_answer};
ghost use Rattle.law_runs.specs.Counted.{source_file, text_answer, traced_counts};

/// A source that is counted is run as the program runs it, and an object, too: the outcome, and all that the host then
/// holds, its files and its output, are those that `mmixware run` and `mmixware sim` come to by the same words before
/// their message. So it is over a ring of registers, and over an unbounded list of them.
pub fn counts_run_as_the_program()
    ensures text { (r : PlainRun Run) → product r.kind r.words r.host ≡ with_message (text_answer r) }
    ensures data { (r : PlainRun Run) → product r.kind r.words r.host ≡ with_message (data_answer r) }
    ensures object { (r : PlainRun Sim) → product r.kind r.words r.host ≡ with_message (object_answer r) }
{}

/// Its sheet is that of the traces that watchers of this run are told with `--report`, and of the step that halts: over a
/// ring of registers, and, where the run meets nothing wild and so ends, over an unbounded list of them.
pub fn counts_go_by_the_traces_of_their_runs()
    ensures { (r : TracedRun) →
        source_file r.kind r.words r.order by_text r.host ≡ ends (traced_counts r) r.last.host }
{}

/// A source of at most 2^22 bytes, which is the most that is not refused, is read alike by `mmixview count`, which takes up
/// to as many bytes as an object may have, and by `mmixware run`.
pub fn sources_are_read_alike()
    ensures { (f : ShortSource) → file_bytes object_pieces f.name f.host ≡ (Ok f.text, f.after) }
{}
