//! What counts come to, in words of the traces alone.

ghost use Rattle.std.specs.Prelude.{◌≡◌, ◌+◌, ◌%◌, ◌^◌, ◌&&◌, [], ℕ, Bool, List, codes, false, length, take};
ghost use Rattle.std.specs.List.{filter, sum_by};
ghost use Rattle.mx_core.specs.State.{State};
ghost use Rattle.mx_run.specs.Runs.{no_flags, run};
ghost use Rattle.mx_code.specs.declared.trace.Trace.{Trace};
ghost use Rattle.mx_host.specs.HostModel.{HostModel};
ghost use Rattle.mx_view.specs.declared.cells.Cell.{Cell};
ghost use Rattle.mx_costs.specs.Costs.{mems, oops};
ghost use Rattle.mx_count.specs.Runs.{step_count};
ghost use Rattle.mx_count.specs.Sheets.{AddsTally, column, is_among};
ghost use Rattle.mx_count.specs.Tallies.{code_in, goes_away, nothing, tally_in};

/// The tally of addresses has the number of the traces there, how many of them have another next address than the one
/// after it, and the sums of their υ and μ.
#[tactic(auto, using(crate::proofs::TraceCounts::numbers))]
pub fn tallies_count_traces()
    ensures times { (test : ℕ → Bool) (h : List Trace) →
        (tally_in test h).times ≡ length (filter (λ t. test t.pc) h) }
    ensures away { (test : ℕ → Bool) (h : List Trace) →
        (tally_in test h).away ≡ length (filter (λ t. test t.pc && goes_away t) h) }
    ensures oops { (test : ℕ → Bool) (h : List Trace) →
        (tally_in test h).oops ≡ sum_by (λ t. oops (code_in t) (goes_away t)) (filter (λ t. test t.pc) h) }
    ensures mems { (test : ℕ → Bool) (h : List Trace) →
        (tally_in test h).mems ≡ sum_by (λ t. mems (code_in t)) (filter (λ t. test t.pc) h) }
{}

/// The tally of a line is the sum over the tetras that it loads: that of one more tetra is added, if none before it has
/// its address.
#[tactic(auto, using(crate::proofs::TraceCounts::lines))]
pub fn lines_are_sums_over_their_tetras()
    ensures none { (h : List Trace) → tally_in (is_among []) h ≡ nothing }
    ensures more { (c : Cell) (cells : List Cell) (h : List Trace) → is_among cells c.address ≡ false →
        AddsTally c cells h }
{}

/// A column begins with a blank, so the numbers of a row are apart, however many digits they have.
pub fn columns_are_apart()
    ensures { (n : ℕ) → take 1 (column n) ≡ codes " " }
{}

/// As many steps are counted as the machine makes, with the one that halts: its count of steps, which is one modulo 2^64,
/// grows by the number in the tally of all steps.
#[tactic(auto, using(crate::proofs::CountedSteps::counting))]
pub fn all_steps_are_counted()
    ensures { (n : ℕ) (s : State) (m : HostModel) →
        (run n no_flags false s m).state.steps % 2 ^ 64 ≡ (s.steps + step_count n s m) % 2 ^ 64 }
{}
