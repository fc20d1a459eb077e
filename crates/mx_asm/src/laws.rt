//! What holds of sources over lists alone.

ghost use Rattle.std.specs.Prelude.{◌≡◌, ◌<◌, ◌≤◌, ◌↔◌, ◌⊎◌, ℕ, List, [], ◌∷◌, ◌++◌, None, Some, Ok, Err};
ghost use Rattle.std.specs.Result.{result_err};
ghost use Rattle.mx_expr.specs.Tree.{back};
ghost use Rattle.mx_expr.specs.Value.{value_of};
ghost use Rattle.mx_line.specs.declared.cutter.Cut.{Cut};
ghost use Rattle.mx_mmo.specs.declared.items.Item.{Item};
ghost use Rattle.mx_stmt.specs.Encoding.{StatementTree, encoding};
ghost use Rattle.mx_stmt.specs.Operands.{knowledge_of, no_targets};
ghost use Rattle.mx_stmt.specs.Reading.{Fields, IsFault, IsRead, fields_of};
ghost use Rattle.mx_stmt.specs.declared.faults.StmtFault.{StmtFault};
ghost use Rattle.mx_stmt.specs.declared.statement.Label.TheVariants.{Local};
ghost use Rattle.mx_word.specs.declared.symbols.Value.TheVariants.{Pure};
ghost use Rattle.mx_word.specs.declared.symbols.Value.{Value};
ghost use Rattle.mx_asm.specs.Emission.{front};
ghost use Rattle.mx_asm.specs.Entries.{statements_in};
ghost use Rattle.mx_asm.specs.Faults.{fault_number};
ghost use Rattle.mx_asm.specs.Laws.{AddsItems, AddsLast, GivesFault, GivesStatement, HasTakenMore, accepted_of, emitted};
ghost use Rattle.mx_asm.specs.Laws.{lines_accepted, statements_of};
ghost use Rattle.mx_asm.specs.Locals.{HasNoLocal};
ghost use Rattle.mx_asm.specs.OnePass.{Status, beginning, end_following};
ghost use Rattle.mx_asm.specs.Refusal.{refusal};
ghost use Rattle.mx_asm.specs.TwoPass.{final_known, value_in};
ghost use Rattle.mx_asm.specs.Whole.{HasTaken, Line, assembled_lines, assembled_source, lines_entries, lines_items};
ghost use Rattle.mx_asm.specs.Whole.{lines_refusal, lines_taken, one_pass};
ghost use Rattle.mx_asm.specs.declared.refused.Refused.{Refused};

/// Once lines were taken one after another, the items that they gave are those of the two passes: of
/// all statements before the first refusal, each with zero for its references, and with a record
/// for a reference where its label is. The refusal is the first one of the two passes. Without
/// one these are all statements of the lines.
#[tactic(auto, using(crate::proofs::InTurn::front_laws))]
pub fn lines_give_the_front()
    ensures items { (lines : List (List ℕ)) → (lines_taken lines).0 ≡ lines_items lines }
    ensures front { (line : Line) (lines : List Line) →
        lines_items (line ∷ lines) ≡ front (lines_accepted (line ∷ lines)) }
    ensures all { (lines : List Line) → lines_refusal lines ≡ None →
        lines_accepted lines ≡ statements_in (lines_entries lines) }
    ensures refusal { (lines : List (List ℕ)) → result_err (lines_taken lines).1 ≡ lines_refusal lines }
{}

/// The lines of a source, taken one after another and then ended, give what the two passes give: all
/// items of the object and its symbol trie, or the items of the statements before the first refusal,
/// and that refusal.
pub fn one_pass_gives_the_whole()
    ensures { (lines : List (List ℕ)) → one_pass lines ≡ assembled_lines lines }
{}

/// Before the first line nothing was taken. After the lines that were taken a line more is taken, and
/// the end gives what the two passes give of all lines. The items may be added to any list: it grows as
/// the items of the lines grow.
pub fn lines_are_taken_in_turn()
    ensures none { HasTaken [] (Ok beginning) }
    ensures line { (lines : List Line) (text : Line) (out : List Item) (a : Status) → HasTaken lines a →
        HasTakenMore lines text out a }
    ensures items { (lines : List Line) (text : Line) (out : List Item) (a : Status) → HasTaken lines a →
        AddsItems lines text out a }
    ensures end { (all : List Line) (out : List Item) (a : Status) → HasTaken all a →
        (end_following out a).1 ≡ (assembled_lines all).1 }
    ensures whole { (lines : List Line) (out : List Item) (a : Status) → HasTaken lines a → AddsLast lines out a }
{}

/// A source that is not refused is assembled into what its statements emit, and their symbol trie.
/// One that is refused gives the front of an object of the statements before its refusal, and the
/// refusal.
pub fn sources_are_emitted_or_refused()
    ensures emitted { (source : List ℕ) → refusal source ≡ None →
        assembled_source source ≡ emitted (statements_of source) }
    ensures refused { (text : List ℕ) (r : Refused) → refusal text ≡ Some r →
        assembled_source text ≡ (front (accepted_of text), Err r) }
{}

/// By its definition a source is never refused because memory runs out: the fault that it, or its lines so far,
/// are refused with has a number above 0.
#[tactic(auto, using(crate::proofs::NumberedRefusals::numbered))]
pub fn refusals_have_numbers()
    ensures source { (source : List ℕ) (r : Refused) → refusal source ≡ Some r → 0 < fault_number r.fault }
    ensures lines { (lines : List (List ℕ)) (r : Refused) → lines_refusal lines ≡ Some r → 0 < fault_number r.fault }
{}

/// What is listed for a statement that was cut from a line goes by the grammar of its fields: a statement
/// exactly where its fields say that one, and the refusal of the line with a fault exactly where that is
/// the first one of its fields. Fields say a statement or have a first fault.
pub fn entries_are_read()
    ensures read { (line : ℕ) (t : Line) (cut : Cut) (s : StatementTree) →
        GivesStatement line t cut s ↔ IsRead (fields_of t cut) line s }
    ensures faulty { (line : ℕ) (t : Line) (cut : Cut) (why : StmtFault) →
        GivesFault line t cut why ↔ IsFault (fields_of t cut) why }
    ensures either { (fields : Fields) (line : ℕ) →
        ((s : StatementTree) × IsRead fields line s) ⊎ ((f : StmtFault) × IsFault fields f) }
{}

/// After the statements of a source the operand `dB` means the value of the last label `dH` among
/// them: that of a statement after which none has this label. Where none of them has it, it means
/// pure 0.
pub fn back_labels_are_the_last()
    ensures last { (front between : List StatementTree) (s : StatementTree) (d : ℕ) (value : Value) → d ≤ 9 →
        s.label ≡ Some (Local d) → value_in (encoding no_targets (final_known front) s) ≡ Some value → HasNoLocal d between →
        value_of (knowledge_of (final_known (front ++ s ∷ between))) (back d) ≡ Ok value }
    ensures none { (ss : List StatementTree) (d : ℕ) → HasNoLocal d ss →
        value_of (knowledge_of (final_known ss)) (back d) ≡ Ok (Pure 0) }
{}
