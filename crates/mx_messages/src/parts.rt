//! The rows of the table, part by part.

ghost use Rattle.std.specs.Prelude.{◌≡◌, map};
ghost use Rattle.mx_explain.specs.Topics.{row};
ghost use Rattle.mx_messages.specs.Parts as spec;

use crate::inside::INSIDE;
use crate::kinds::KINDS;
use crate::objects::{LOADING, OBJECTS, TRIES};
use crate::sources::{EXPRESSIONS, LINES, PLACES, SOURCES, STATEMENTS};
use crate::statuses::STATUSES;
use crate::stops::{STOPS, TRAPS};
use crate::warnings::WARNINGS;
use mx_explain::Entry;

/// Faults of a line.
#[tactic(auto, unfolding(crate::specs::Parts::line_rows))]
pub fn line_rows() -> &'static [Entry]
    ensures { map (λ e. row e.0 e.1.now e.2.now e.3.now e.4.now) result.now ≡ spec.line_rows }
{
    &LINES
}

/// Faults of an expression.
#[tactic(auto, unfolding(crate::specs::Parts::expression_rows))]
pub fn expression_rows() -> &'static [Entry]
    ensures { map (λ e. row e.0 e.1.now e.2.now e.3.now e.4.now) result.now ≡ spec.expression_rows }
{
    &EXPRESSIONS
}

/// Faults of a statement.
#[tactic(auto, unfolding(crate::specs::Parts::statement_rows))]
pub fn statement_rows() -> &'static [Entry]
    ensures { map (λ e. row e.0 e.1.now e.2.now e.3.now e.4.now) result.now ≡ spec.statement_rows }
{
    &STATEMENTS
}

/// Faults of addresses and labels.
#[tactic(auto, unfolding(crate::specs::Parts::place_rows))]
pub fn place_rows() -> &'static [Entry]
    ensures { map (λ e. row e.0 e.1.now e.2.now e.3.now e.4.now) result.now ≡ spec.place_rows }
{
    &PLACES
}

/// Faults of a source as a whole.
#[tactic(auto, unfolding(crate::specs::Parts::source_rows))]
pub fn source_rows() -> &'static [Entry]
    ensures { map (λ e. row e.0 e.1.now e.2.now e.3.now e.4.now) result.now ≡ spec.source_rows }
{
    &SOURCES
}

/// Warnings of a source.
#[tactic(auto, unfolding(crate::specs::Parts::warning_rows))]
pub fn warning_rows() -> &'static [Entry]
    ensures { map (λ e. row e.0 e.1.now e.2.now e.3.now e.4.now) result.now ≡ spec.warning_rows }
{
    &WARNINGS
}

/// Faults of an object.
#[tactic(auto, unfolding(crate::specs::Parts::object_rows))]
pub fn object_rows() -> &'static [Entry]
    ensures { map (λ e. row e.0 e.1.now e.2.now e.3.now e.4.now) result.now ≡ spec.object_rows }
{
    &OBJECTS
}

/// Faults of the symbols of an object.
#[tactic(auto, unfolding(crate::specs::Parts::trie_rows))]
pub fn trie_rows() -> &'static [Entry]
    ensures { map (λ e. row e.0 e.1.now e.2.now e.3.now e.4.now) result.now ≡ spec.trie_rows }
{
    &TRIES
}

/// Faults of an object that is loaded.
#[tactic(auto, unfolding(crate::specs::Parts::loading_rows))]
pub fn loading_rows() -> &'static [Entry]
    ensures { map (λ e. row e.0 e.1.now e.2.now e.3.now e.4.now) result.now ≡ spec.loading_rows }
{
    &LOADING
}

/// Reasons of a stop.
#[tactic(auto, unfolding(crate::specs::Parts::stop_rows))]
pub fn stop_rows() -> &'static [Entry]
    ensures { map (λ e. row e.0 e.1.now e.2.now e.3.now e.4.now) result.now ≡ spec.stop_rows }
{
    &STOPS
}

/// Reasons of a stop of RESUME or TRAP.
#[tactic(auto, unfolding(crate::specs::Parts::trap_rows))]
pub fn trap_rows() -> &'static [Entry]
    ensures { map (λ e. row e.0 e.1.now e.2.now e.3.now e.4.now) result.now ≡ spec.trap_rows }
{
    &TRAPS
}

/// Command-line errors.
#[tactic(auto, unfolding(crate::specs::Parts::kind_rows))]
pub fn kind_rows() -> &'static [Entry]
    ensures { map (λ e. row e.0 e.1.now e.2.now e.3.now e.4.now) result.now ≡ spec.kind_rows }
{
    &KINDS
}

/// Exit statuses.
#[tactic(auto, unfolding(crate::specs::Parts::status_rows))]
pub fn status_rows() -> &'static [Entry]
    ensures { map (λ e. row e.0 e.1.now e.2.now e.3.now e.4.now) result.now ≡ spec.status_rows }
{
    &STATUSES
}

/// Numbers inside the program.
#[tactic(auto, unfolding(crate::specs::Parts::inside_rows))]
pub fn inside_rows() -> &'static [Entry]
    ensures { map (λ e. row e.0 e.1.now e.2.now e.3.now e.4.now) result.now ≡ spec.inside_rows }
{
    &INSIDE
}
