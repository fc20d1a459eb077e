//! What holds over the definitions alone.

ghost use Rattle.std.specs.Prelude.{◌≡◌, ◌↔◌, ◌<◌, ◌^◌, ◌%◌, ◌∷◌, [], ℕ, Ok};
ghost use Rattle.std.specs.Result.{IsOk};
ghost use Rattle.mx_line.specs.declared.cutter.Cut.{Cut};
ghost use Rattle.mx_line.specs.Cutting.{cuts_from};
ghost use Rattle.mx_stmt.specs.declared.placed.Placed.{Placed};
ghost use Rattle.mx_stmt.specs.Encoding.{StatementTree, encoding};
ghost use Rattle.mx_stmt.specs.Operands.{Known, no_targets};
ghost use Rattle.mx_stmt.specs.Reading.{IsRead, fields_of};
ghost use Rattle.mx_gen.specs.ShownStatements.{IsPlaceable, IsShownPart, shown_fields, shown_line};

/// A line of a blank and the text of an instruction is cut to one statement, which has no label, the name as its
/// operation, and the operands as its operand field.
pub fn shown_lines_are_one_statement()
    ensures { (word pc : ℕ) → word < 2 ^ 32 →
        (cut : Cut) × (cuts_from (shown_line word pc) 0 ≡ Ok cut ∷ []) ×
        (fields_of (shown_line word pc) cut ≡ shown_fields word pc) }
{}

/// The text of an instruction is read as a statement. At its address it is assembled to the tetra that it shows, and
/// exactly where the tetra may be placed and its relative address has not wrapped round 2^64.
pub fn texts_assemble_to_their_tetras()
    ensures read { (word pc line : ℕ) → word < 2 ^ 32 → (s : StatementTree) × IsRead (shown_fields word pc) line s }
    ensures same { (word pc line : ℕ) (s : StatementTree) (k : Known) (placed : Placed) → word < 2 ^ 32 → pc < 2 ^ 64 →
        pc % 4 ≡ 0 → k.at ≡ pc → IsRead (shown_fields word pc) line s → encoding no_targets k s ≡ Ok placed →
        IsShownPart word pc placed }
    ensures taken { (word pc line : ℕ) (s : StatementTree) (k : Known) → word < 2 ^ 32 → pc < 2 ^ 64 →
        pc % 4 ≡ 0 → k.at ≡ pc → IsRead (shown_fields word pc) line s →
        (IsOk (encoding no_targets k s) ↔ IsPlaceable word pc) }
{}
