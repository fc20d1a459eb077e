//! The rows of the table, part by part.

ghost use Rattle.std.specs.Prelude.{◌≡◌, map};
ghost use Rattle.mx_explain.specs.Topics.{row};
ghost use Rattle.mx_operations.specs.Parts as spec;

use crate::bits::{BITS, BYTES, WYDES};
use crate::choices::{BRANCHES, SETS};
use crate::control::{JUMPS, SYSTEM};
use crate::floats::{FLOATS, MORE_FLOATS};
use crate::memory::{HINTS, LOADS, STORES};
use crate::numbers::{ARITHMETIC, COMPARISONS};
use mx_explain::Entry;

/// Instructions on numbers.
#[tactic(auto, unfolding(crate::specs::Parts::arithmetic_rows))]
pub fn arithmetic_rows() -> &'static [Entry]
    ensures { map (λ e. row e.0 e.1.now e.2.now e.3.now e.4.now) result.now ≡ spec.arithmetic_rows }
{
    &ARITHMETIC
}

/// Comparisons, negations, shifts and copies.
#[tactic(auto, unfolding(crate::specs::Parts::comparison_rows))]
pub fn comparison_rows() -> &'static [Entry]
    ensures { map (λ e. row e.0 e.1.now e.2.now e.3.now e.4.now) result.now ≡ spec.comparison_rows }
{
    &COMPARISONS
}

/// Instructions on bits.
#[tactic(auto, unfolding(crate::specs::Parts::bit_rows))]
pub fn bit_rows() -> &'static [Entry]
    ensures { map (λ e. row e.0 e.1.now e.2.now e.3.now e.4.now) result.now ≡ spec.bit_rows }
{
    &BITS
}

/// Instructions on bytes and single bits.
#[tactic(auto, unfolding(crate::specs::Parts::byte_rows))]
pub fn byte_rows() -> &'static [Entry]
    ensures { map (λ e. row e.0 e.1.now e.2.now e.3.now e.4.now) result.now ≡ spec.byte_rows }
{
    &BYTES
}

/// Instructions on wydes.
#[tactic(auto, unfolding(crate::specs::Parts::wyde_rows))]
pub fn wyde_rows() -> &'static [Entry]
    ensures { map (λ e. row e.0 e.1.now e.2.now e.3.now e.4.now) result.now ≡ spec.wyde_rows }
{
    &WYDES
}

/// Branches.
#[tactic(auto, unfolding(crate::specs::Parts::branch_rows))]
pub fn branch_rows() -> &'static [Entry]
    ensures { map (λ e. row e.0 e.1.now e.2.now e.3.now e.4.now) result.now ≡ spec.branch_rows }
{
    &BRANCHES
}

/// Registers that are set by a condition.
#[tactic(auto, unfolding(crate::specs::Parts::set_rows))]
pub fn set_rows() -> &'static [Entry]
    ensures { map (λ e. row e.0 e.1.now e.2.now e.3.now e.4.now) result.now ≡ spec.set_rows }
{
    &SETS
}

/// Loads.
#[tactic(auto, unfolding(crate::specs::Parts::load_rows))]
pub fn load_rows() -> &'static [Entry]
    ensures { map (λ e. row e.0 e.1.now e.2.now e.3.now e.4.now) result.now ≡ spec.load_rows }
{
    &LOADS
}

/// Stores.
#[tactic(auto, unfolding(crate::specs::Parts::store_rows))]
pub fn store_rows() -> &'static [Entry]
    ensures { map (λ e. row e.0 e.1.now e.2.now e.3.now e.4.now) result.now ≡ spec.store_rows }
{
    &STORES
}

/// Hints to the cache.
#[tactic(auto, unfolding(crate::specs::Parts::hint_rows))]
pub fn hint_rows() -> &'static [Entry]
    ensures { map (λ e. row e.0 e.1.now e.2.now e.3.now e.4.now) result.now ≡ spec.hint_rows }
{
    &HINTS
}

/// Jumps, subroutines and special registers.
#[tactic(auto, unfolding(crate::specs::Parts::jump_rows))]
pub fn jump_rows() -> &'static [Entry]
    ensures { map (λ e. row e.0 e.1.now e.2.now e.3.now e.4.now) result.now ≡ spec.jump_rows }
{
    &JUMPS
}

/// Trips, traps and the state.
#[tactic(auto, unfolding(crate::specs::Parts::system_rows))]
pub fn system_rows() -> &'static [Entry]
    ensures { map (λ e. row e.0 e.1.now e.2.now e.3.now e.4.now) result.now ≡ spec.system_rows }
{
    &SYSTEM
}

/// Instructions on floating-point numbers.
#[tactic(auto, unfolding(crate::specs::Parts::float_rows))]
pub fn float_rows() -> &'static [Entry]
    ensures { map (λ e. row e.0 e.1.now e.2.now e.3.now e.4.now) result.now ≡ spec.float_rows }
{
    &FLOATS
}

/// More instructions on floating-point numbers.
#[tactic(auto, unfolding(crate::specs::Parts::more_float_rows))]
pub fn more_float_rows() -> &'static [Entry]
    ensures { map (λ e. row e.0 e.1.now e.2.now e.3.now e.4.now) result.now ≡ spec.more_float_rows }
{
    &MORE_FLOATS
}
