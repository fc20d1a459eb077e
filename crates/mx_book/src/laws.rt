//! What holds of what is looked up.

ghost use Rattle.std.specs.Prelude.{◌++◌, ◌∷◌, ℕ, List};
ghost use Rattle.mx_object.specs.declared.labels.Label.{Label};
ghost use Rattle.mx_book.specs.Lookups.{IsAsEarly, IsAsNear, address_before, earliest, from_line, nearest_address};
ghost use Rattle.mx_book.specs.declared.loads.Load.{Load};

/// No label at or before an address in its segment is nearer than the one that is told.
#[tactic(auto, using(crate::proofs::Nearest::near))]
pub fn no_label_is_nearer()
    ensures { (front later : List Label) (l : Label) (a : ℕ) →
        IsAsNear (nearest_address a (front ++ l ∷ later)) (address_before a l) }
{}

/// No instruction of a line from this one on is on an earlier line than the one that is told.
#[tactic(auto, using(crate::proofs::Earliest::early))]
pub fn no_line_is_earlier()
    ensures { (front later : List Load) (l : Load) (line : ℕ) →
        IsAsEarly (earliest line (front ++ l ∷ later)) (from_line line l) }
{}
