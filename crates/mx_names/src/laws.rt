//! What holds of the definitions alone.

ghost use Rattle.std.specs.Prelude.{◌≡◌, ◌↔◌, ◌<◌, ◌≤◌, ℕ, List, length, Some, None};
ghost use Rattle.mx_names.specs.declared.gregs.Base.{Base};
ghost use Rattle.mx_names.specs.Gregs.{IsNearest, greg_value, lowest_of, nearest_base};

/// The nearest base is an allocated register with a value that is not 0 and the least address - value
/// modulo 2^64. There is none exactly where no allocated register has such a value.
pub fn nearest_base_is_least()
    ensures base { (gregs : List ℕ) (address : ℕ) (base : Base) → length gregs ≤ 255 →
        nearest_base gregs address ≡ Some base → IsNearest gregs address base }
    ensures none { (gregs : List ℕ) (address : ℕ) → length gregs ≤ 255 → (nearest_base gregs address ≡ None) ↔
        ((reg : ℕ) → lowest_of gregs ≤ reg → reg < 255 → greg_value gregs reg ≡ 0) }
{}
