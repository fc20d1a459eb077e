//! The value of what a line names.

use mx_ask::add_unnamed;
use mx_book::Book;
use mx_core::Machine;
use mx_places::{parse_form, parse_small_part, resolve_for_display_now};
use mx_tell::{add_part, add_shown};
use mx_text::Form;
use mx_word::{Bytes, NoMemory};

/// Adds what a text names and what it has, in the form that the letters after a stroke ask for.
pub(crate) fn print(
    out: &mut Bytes,
    book: &Book,
    machine: &Machine,
    letters: &[u8],
    rest: &[u8],
) -> Result<(), NoMemory> {
    let Some(form) = parse_form(letters) else {
        return out.extend(b"? no such form: /d is decimal, /x hexadecimal, /t text\n");
    };
    match parse_small_part(book, rest) {
        Some((unit, a)) => add_part(out, book, machine, unit, a, form),
        None => print_thing(out, book, machine, form, rest),
    }
}

/// Adds what a text names and what it has.
fn print_thing(
    out: &mut Bytes,
    book: &Book,
    machine: &Machine,
    form: Option<Form>,
    rest: &[u8],
) -> Result<(), NoMemory> {
    match resolve_for_display_now(book, machine, rest) {
        Some(thing) => add_shown(out, book, machine, thing, form),
        None => add_unnamed(
            out,
            rest,
            b"? give NAME[+N], $K[+N], rX, M8[ADDRESS] or a number",
        ),
    }
}
