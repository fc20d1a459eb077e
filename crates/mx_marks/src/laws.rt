//! What holds of marks.

ghost use Rattle.std.specs.Prelude.{◌≡◌, ◌≤◌, ◌+◌, ◌-◌, ℕ, List, Ok, Some, drop, length, true};
ghost use Rattle.std.specs.Str.{all_scalars, encode_utf8_all};
ghost use Rattle.mx_line.specs.Cutting.{statement_of};
ghost use Rattle.mx_line.specs.declared.cutter.Cut.{Cut};
ghost use Rattle.mx_marks.specs.Fields.{Line, from_field};
ghost use Rattle.mx_marks.specs.Marks.{operands_mark};
ghost use Rattle.mx_marks.specs.Under.{under_text};
ghost use Rattle.mx_marks.specs.declared.fields.Field.TheVariants.{Operands, Operation};

/// In a statement that is cut from a line, the operation and the operands begin for marks where they begin by the cut.
#[tactic(auto, using(crate::proofs::CutFields::marked))]
pub fn carets_are_under_their_fields()
    ensures operation { (line : Line) (place : ℕ) (cut : Cut) → place ≤ length line →
        statement_of line place ≡ Ok (Some cut) →
        length line - length (from_field Operation (drop place line)) ≡ cut.op.from }
    ensures operands { (line : Line) (place : ℕ) (cut : Cut) → place ≤ length line →
        statement_of line place ≡ Ok (Some cut) →
        length line - length (from_field Operands (drop place line)) ≡ cut.operands.from }
{}

/// The mark of operands begins where they begin, or within them.
#[tactic(auto, using(crate::proofs::MarksWithin::withins))]
pub fn marks_begin_within_their_fields()
    ensures first { (from : ℕ) (operands part : Line) → from ≤ (operands_mark from operands part).from }
    ensures last { (from : ℕ) (operands part : Line) →
        (operands_mark from operands part).from ≤ from + length operands }
{}

/// A caret follows as many characters as are in front of it: under a text that is the UTF-8 of characters there is a blank or a tab
/// for each of them.
#[tactic(auto, using(crate::proofs::Characters::characters))]
pub fn carets_count_characters()
    ensures { (chars : List ℕ) → all_scalars chars ≡ true →
        length (under_text (encode_utf8_all chars)) ≡ length chars }
{}
