//! The rows of the table, part by part.

ghost use Rattle.std.specs.Prelude.{◌≡◌, map};
ghost use Rattle.mx_explain.specs.Topics.{row};
ghost use Rattle.mx_explain.specs.Parts as spec;

use crate::pseudo::PSEUDO;
use crate::registers::{MORE_REGISTERS, REGISTERS};
use crate::row::Entry;
use crate::symbols::{EVENTS, FILES, OTHERS, SERVICES};

/// Pseudo-operations.
#[tactic(auto, unfolding(crate::specs::Parts::pseudo_rows))]
pub fn pseudo_rows() -> &'static [Entry]
    ensures { map (λ e. row e.0 e.1.now e.2.now e.3.now e.4.now) result.now ≡ spec.pseudo_rows }
{
    &PSEUDO
}

/// Special registers.
#[tactic(auto, unfolding(crate::specs::Parts::register_rows))]
pub fn register_rows() -> &'static [Entry]
    ensures { map (λ e. row e.0 e.1.now e.2.now e.3.now e.4.now) result.now ≡ spec.register_rows }
{
    &REGISTERS
}

/// More special registers.
#[tactic(auto, unfolding(crate::specs::Parts::more_register_rows))]
pub fn more_register_rows() -> &'static [Entry]
    ensures { map (λ e. row e.0 e.1.now e.2.now e.3.now e.4.now) result.now ≡ spec.more_register_rows }
{
    &MORE_REGISTERS
}

/// Bits and handlers of events.
#[tactic(auto, unfolding(crate::specs::Parts::event_rows))]
pub fn event_rows() -> &'static [Entry]
    ensures { map (λ e. row e.0 e.1.now e.2.now e.3.now e.4.now) result.now ≡ spec.event_rows }
{
    &EVENTS
}

/// Handles and modes of files.
#[tactic(auto, unfolding(crate::specs::Parts::file_rows))]
pub fn file_rows() -> &'static [Entry]
    ensures { map (λ e. row e.0 e.1.now e.2.now e.3.now e.4.now) result.now ≡ spec.file_rows }
{
    &FILES
}

/// Services of TRAP.
#[tactic(auto, unfolding(crate::specs::Parts::service_rows))]
pub fn service_rows() -> &'static [Entry]
    ensures { map (λ e. row e.0 e.1.now e.2.now e.3.now e.4.now) result.now ≡ spec.service_rows }
{
    &SERVICES
}

/// Other predefined symbols.
#[tactic(auto, unfolding(crate::specs::Parts::other_rows))]
pub fn other_rows() -> &'static [Entry]
    ensures { map (λ e. row e.0 e.1.now e.2.now e.3.now e.4.now) result.now ≡ spec.other_rows }
{
    &OTHERS
}
