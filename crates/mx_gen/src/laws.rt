//! What holds over the definitions alone.

ghost use Rattle.std.specs.Prelude.{◌≡◌, ◌≤◌, ℕ, None, Ok, map};
ghost use Rattle.mx_asm.specs.Entries.{source_entries, statements_in};
ghost use Rattle.mx_asm.specs.Pages.{run_refusal};
ghost use Rattle.mx_asm.specs.Refusal.{refusal};
ghost use Rattle.mx_gen.specs.Generator.{generated};
ghost use Rattle.mx_gen.specs.Program.{program};

/// A source of at most 10,000 blocks that is generated is read as the statements of the program, one a
/// line, and as nothing else.
pub fn generated_sources_are_read()
    ensures entries { (n : ℕ) → n ≤ 10000 → source_entries (generated n) ≡ map Ok (program n) }
    ensures statements { (n : ℕ) → n ≤ 10000 → statements_in (source_entries (generated n)) ≡ program n }
{}

/// A source of at most 10,000 blocks that is generated is not refused: not when it is assembled, and not when it is
/// run, where the pages that it touches count too. So it means the image of the statements of the program.
pub fn generated_sources_are_accepted()
    ensures assembled { (n : ℕ) → n ≤ 10000 → refusal (generated n) ≡ None }
    ensures run { (n : ℕ) → n ≤ 10000 → run_refusal (generated n) ≡ None }
{}
