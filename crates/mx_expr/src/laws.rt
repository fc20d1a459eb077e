//! What holds of operand fields over lists alone.

ghost use Rattle.std.specs.Prelude.{◌≡◌, ◌↔◌, ◌⊎◌, ℕ, List, Ok, Err};
ghost use Rattle.mx_expr.specs.declared.faults.ExprFault.{ExprFault};
ghost use Rattle.mx_expr.specs.Reading.{reading};
ghost use Rattle.mx_expr.specs.Spelling.{IsFirst, IsList, Spells};
ghost use Rattle.mx_expr.specs.Tree.{Tree};

/// Reading a field byte by byte is what the grammar of expressions says (MMIXware, "MMIXAL"): it gives a
/// list exactly where the field spells that list and has no fault, and a fault exactly where that is the
/// first one of the field.
pub fn fields_are_read_as_spelled()
    ensures list { (field : List ℕ) (list : List Tree) → (reading field ≡ Ok list) ↔ IsList field list }
    ensures fault { (field : List ℕ) (fault : ExprFault) → (reading field ≡ Err fault) ↔ IsFirst field fault }
{}

/// Each field spells a list and has no fault, or has a first fault. No field has both.
pub fn fields_are_lists_or_faulty()
    ensures either { (field : List ℕ) →
        ((list : List Tree) × IsList field list) ⊎ ((fault : ExprFault) × IsFirst field fault) }
    ensures one { (field : List ℕ) (list : List Tree) (fault : ExprFault) → IsList field list →
        IsFirst field fault → ⊥ }
{}

/// A field spells at most one list.
pub fn one_list()
    ensures { (field : List ℕ) (list other : List Tree) → Spells field list → Spells field other → list ≡ other }
{}

/// A field has at most one first fault.
pub fn one_fault()
    ensures { (field : List ℕ) (fault other : ExprFault) → IsFirst field fault → IsFirst field other → fault ≡ other }
{}
