//! Laws of whole runs of the program where no call that is made fails.

ghost use Rattle.std.specs.Prelude.{◌≡◌, List, Ok, ℕ};
ghost use Rattle.mx_host.specs.HostModel.{HostModel};
ghost use Rattle.mx_mmo.specs.Image.{Image};
ghost use Rattle.mx_load.specs.Objects.{object_loaded};
ghost use Rattle.mx_asm.specs.Pages.{RunRefusal};
ghost use Rattle.mx_run.specs.WildRuns.{MachineKind};
ghost use Rattle.mx_begin.specs.Arguments.{Word};
ghost use Rattle.law_runs.specs.Detour.{HasTooManyPages, IsMeant, IsRefusedRun, answer_unscheduled};
ghost use Rattle.law_runs.specs.Detour.{HasOutcome, host_of, object_bytes, source_symbols};
ghost use Rattle.law_runs.specs.Programs.{AreForPages, DetourRun, DoTheSame, SameRun, object_run, source_run};
ghost use Rattle.mx_top.specs.Product.{product, product_traces};
ghost use Rattle.mx_files.specs.Sources.{source_meaning};
ghost use Rattle.mx_outcome.specs.declared.outcome.Outcome.TheVariants.{Refused};

/// Where no call that the program makes fails, it does and answers the same whatever number of calls was made
/// before, and whatever other calls are listed as failing; only that number and that list differ in what it
/// leaves. Watchers are told the same traces. It never changes that list.
#[tactic(auto, using(crate::proofs::SteadyProduct::steady))]
pub fn programs_go_by_no_count()
    ensures same { (r : SameRun) →
        answer_unscheduled (product r.kind r.words r.one) ≡ answer_unscheduled (product r.kind r.words r.other) }
    ensures told { (r : SameRun) → product_traces r.kind r.words r.one ≡ product_traces r.kind r.words r.other }
    ensures list { (kind : MachineKind) (words : List Word) (m : HostModel) →
        (host_of (product kind words m)).failing ≡ m.failing }
{}

/// Where no call that is made fails, `sim` of an object answers and leaves what `run` of the source does that
/// it was assembled from, with the same options and arguments. Only the number of calls differs. A source
/// that `run` refuses is that of the next law.
pub fn objects_run_as_their_sources()
    ensures { (d : DetourRun) (image : Image) → source_meaning d.text ≡ Ok image →
        DoTheSame d }
{}

/// Where `run` refuses a source that was assembled, it does so for its pages, 90, and `sim` refuses the object
/// for the same reason, where no call that is made fails.
pub fn objects_are_refused_as_their_sources()
    ensures { (d : DetourRun) (line why from : ℕ) → HasOutcome (source_run d) (Refused line why from) →
        AreForPages why (object_run d) }
{}

/// The object of a source that is run is loaded as the image that it is run from, with the symbols of
/// the source. A source that is assembled and yet refused when it is run has more than 65,536 pages, and
/// its object is refused for the same reason, 90.
pub fn objects_load_as_their_sources()
    ensures loaded { (text : List ℕ) (i : Image) → IsMeant text i →
        object_loaded (object_bytes text) ≡ Ok (i, source_symbols text) }
    ensures pages { (text : List ℕ) (r : RunRefusal) → IsRefusedRun text r → HasTooManyPages text r }
{}
