//! Laws of files that are read and of texts that are written piece by piece.

ghost use Rattle.std.specs.Prelude.{◌≡◌, ◌*◌, List, ℕ, None, Ok, Err, take};
ghost use Rattle.mx_host.specs.HostModel.{HostModel, place_of};
ghost use Rattle.mx_host.specs.HostAnswer.{bytes_at};
ghost use Rattle.mx_plan.specs.Counts.{NoneFailed};
ghost use Rattle.mx_trap.specs.Laws.{SameButCalls};
ghost use Rattle.mx_files.specs.Writing.{put_piece, put_text};
ghost use Rattle.mx_files.specs.Source.{file_bytes};
ghost use Rattle.mx_outcome.specs.declared.outcome.Outcome.{Outcome};
ghost use Rattle.law_runs.specs.Programs.{ReadableFile};

/// Where no call that this makes fails, a file that is there is read whole, as far as this many pieces of
/// 4,096 bytes reach, and one that is not there is said to be missing.
#[tactic(auto, using(crate::proofs::WholeFiles::wholes))]
pub fn files_are_read_whole()
    ensures there { (f : ReadableFile) →
        (file_bytes f.most f.name f.host).0 ≡ Ok (take (4096 * f.most) (bytes_at f.host.files f.place)) }
    ensures missing { (most : ℕ) (name : List ℕ) (m : HostModel) → NoneFailed m (file_bytes most name m).1 →
        place_of m.files name ≡ None → (file_bytes most name m).0 ≡ Err Outcome.NoFile }
{}

/// Where none of its writes fails, a text that goes out in pieces of 4,096 bytes comes to the same as one
/// that goes out in one write.
#[tactic(auto, using(crate::proofs::JoinedWrites::joined))]
pub fn pieces_come_to_one_write()
    ensures { (slot : ℕ) (text : List ℕ) (m : HostModel) → NoneFailed m (put_text slot text m).1 →
        SameButCalls (put_text slot text m) (put_piece slot text m) }
{}
