//! What a text names where a machine is known: a register with a number added or taken away, too.

ghost use Rattle.std.specs.Prelude.{◌≡◌};
ghost use Rattle.mx_core.specs.Kept.{state_of};
ghost use Rattle.mx_places.specs.Moments as spec;

use crate::places::{resolve_for_display, resolve_name};
use crate::sums::{add_numbers, cut_sum, parse_offset};
use mx_book::{Book, Thing};
use mx_core::Machine;

/// What a register has.
fn read_held(machine: &Machine, thing: Option<Thing>) -> Option<u64>
    ensures { result ≡ spec.held (state_of machine.now) thing }
{
    match thing {
        Some(Thing::Register(k)) => Some(machine.register(k)),
        _ => None,
    }
}

/// What a register has and what is added to it, as `$253-12` writes it.
fn register_sum(book: &Book, machine: &Machine, text: &[u8]) -> Option<u64>
    ensures { result ≡ spec.register_sum book.now (state_of machine.now) text.now }
{
    let (base, rest) = cut_sum(text);
    add_numbers(
        read_held(machine, resolve_name(book, base)),
        parse_offset(rest),
    )
}

/// What a text names in a machine.
#[tactic(auto, unfolding(crate::specs::Moments::named_now))]
pub fn resolve_name_now(book: &Book, machine: &Machine, text: &[u8]) -> Option<Thing>
    ensures { result ≡ spec.named_now book.now (state_of machine.now) text.now }
{
    match register_sum(book, machine, text) {
        Some(n) => Some(Thing::Number(n)),
        None => resolve_name(book, text),
    }
}

/// The same, but for a name with an address of data: it means the octa there.
#[tactic(auto, unfolding(crate::specs::Moments::shown_now))]
pub fn resolve_for_display_now(book: &Book, machine: &Machine, text: &[u8]) -> Option<Thing>
    ensures { result ≡ spec.shown_now book.now (state_of machine.now) text.now }
{
    match register_sum(book, machine, text) {
        Some(n) => Some(Thing::Number(n)),
        None => resolve_for_display(book, text),
    }
}
