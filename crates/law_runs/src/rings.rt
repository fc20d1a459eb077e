//! What holds of runs of the program, whatever the ring.

ghost use Rattle.std.specs.Prelude.{◌≡◌, ℕ, List, Option, Some, Ok, true, false};
ghost use Rattle.mx_plan.specs.Wild.{ends};
ghost use Rattle.mx_core.specs.State.{State};
ghost use Rattle.mx_host.specs.HostModel.{HostModel, contents};
ghost use Rattle.mx_plan.specs.Calls.{host};
ghost use Rattle.mx_plan.specs.Plan.{end_of};
ghost use Rattle.mx_run.specs.Runs.{no_flags};
ghost use Rattle.mx_run.specs.WildRuns.{MachineKind, window_machine, list_machine, run_by};
ghost use Rattle.mx_watch.specs.Watching.{Watching};
ghost use Rattle.mx_outcome.specs.declared.outcome.Outcome.{Outcome};
ghost use Rattle.mx_words.specs.Orders.{order_of};
ghost use Rattle.mx_words.specs.Values.{blocks_value, ring_value};
ghost use Rattle.mx_begin.specs.Arguments.{Word};
ghost use Rattle.mx_top.specs.Product.{product, product_traces};
ghost use Rattle.mx_top.specs.Reports.{due_reports, watched_product};
ghost use Rattle.mx_top.specs.Telling.{reports_plan};
ghost use Rattle.law_runs.specs.Called.{IsCalled, IsWatched};
ghost use Rattle.law_runs.specs.Detour.{host_of};
ghost use Rattle.law_runs.specs.Rings.{OrderPair, SameReports, SameRings, gen_ring_words, gen_words, watching};
ghost use Rattle.law_runs.specs.Unbroken.{is_answer_told, is_run_told};

/// Orders that differ in the size of the ring alone come to the same over the list machine. So, by the
/// clause `headline` of the top call, two rings give the same outcome and the same host, where the
/// list machine meets nothing wild; and, with the clause of the call with watchers, the same reports. So `gen`
/// comes to the same with `--ring` and without it.
pub fn two_rings_agree()
    ensures alone { (r : OrderPair) (m : HostModel) →
        product list_machine r.words m ≡ product list_machine r.others m }
    ensures watched { (r : OrderPair) (ws : List Watching) (m : HostModel) → SameReports r →
        watching r.words ws m ≡ watching r.others ws m }
    ensures generated { (blocks ring : Word) (n size : ℕ) (m : HostModel) → blocks_value blocks ≡ Ok n →
        ring_value ring ≡ Ok size → product list_machine (gen_words blocks) m ≡
        product list_machine (gen_ring_words ring blocks) m }
{}

/// Reports change nothing but what follows the message. Words with `--report` come to what the words without it
/// come to, over each machine; watchers leave the outcome as it is, and write their reports after all else; and a call
/// with watchers answers as one without them, so that what holds of answers of the program holds of it.
#[tactic(auto, using(crate::proofs::WatchedCalls::watched_calls))]
pub fn reports_change_nothing_else()
    ensures words { (kind : MachineKind) (r : OrderPair) (m : HostModel) → SameRings r →
        product kind r.words m ≡ product kind r.others m }
    ensures outcome { (kind : MachineKind) (words : List Word) (watchers : List Watching) (outcome : Outcome)
        (m n : HostModel) → product kind words m ≡ ends outcome n → watched_product kind words watchers m ≡
        ends outcome (end_of host (reports_plan outcome
        (due_reports (order_of words) watchers (product_traces kind words m))) n).1 }
    ensures calls { (words : List Word) (watchers : List Watching) (old new : Option HostModel) (result : Outcome) →
        IsWatched words watchers old new result →
        IsCalled words old (Some (host_of (product window_machine words (contents old)))) result }
{}

/// A run of the program, which has no flags, halts, stops, spends its steps or meets something wild; by
/// its definition it is never out of memory. So the one free answer means nothing else.
#[tactic(auto, using(crate::proofs::UnbrokenRuns::unbroken))]
pub fn runs_end_by_themselves()
    ensures { (kind : MachineKind) (n : ℕ) (s : State) (m : HostModel) →
        is_run_told n (run_by kind n no_flags false s m) ≡ true }
{}

/// By its definition the program is never out of memory, with whatever words, files and failing calls. So
/// that answer, which is always free, means nothing else in what it promises.
#[tactic(auto, using(crate::proofs::ToldPrograms::unbroken_programs))]
pub fn programs_end_by_themselves()
    ensures { (kind : MachineKind) (words : List Word) (m : HostModel) → is_answer_told (product kind words m) ≡ true }
{}
