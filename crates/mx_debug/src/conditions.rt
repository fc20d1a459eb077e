//! The condition of a break as a text.

use mx_book::Book;
use mx_places::{signs_of, thing_of_place};
use mx_stops::Condition;
use mx_tell::{add_thing, add_value};
use mx_word::{Bytes, NoMemory};

/// Adds a condition, if there is one.
pub(crate) fn add_condition(
    text: &mut Bytes,
    book: &Book,
    condition: Option<Condition>,
) -> Result<(), NoMemory> {
    let Some(condition) = condition else {
        return Ok(());
    };
    add_thing(text, book, thing_of_place(condition.place))?;
    text.extend(b" ")?;
    text.extend(signs_of(condition.relation))?;
    text.extend(b" ")?;
    add_value(text, book, condition.number, None)
}
