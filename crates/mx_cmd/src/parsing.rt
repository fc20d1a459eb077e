//! A line becomes a command.

ghost use Rattle.std.specs.Prelude.{◌≡◌, ◌<◌, [], ◌∷◌, length, Option, None, Some};
ghost use Rattle.std.specs.Option.{option_map};
ghost use Rattle.mx_word.specs.Kinds as kinds;
ghost use Rattle.mx_cmd.specs.Commands as spec;
ghost use Rattle.mx_cmd.specs.Numerals as numerals;

use crate::command::{Breaks, Command, Subject};
use crate::numerals::{
    address_of, hexadecimal_digits, parse_address_digits, parse_octa_digits, split_digits,
    value_of, without_hash,
};
use mx_ops::special_code;
use mx_text::Form;
use mx_word::is_letter;

/// The longest line that is a command, in bytes.
const LONGEST_LINE: usize = 4096;

/// The command of a line of the console without its newline; nothing where the line has none of the forms, or more
/// than 4,096 bytes.
#[tactic(auto, unfolding(crate::specs::Commands::command_of))]
pub fn parse_command(line: &[u8]) -> Option<Command>
    ensures { result ≡ spec.command_of line.now }
{
    if line.len() > LONGEST_LINE {
        return None;
    }
    let [first, text @ ..] = line else {
        return Some(Command::Step);
    };
    command_with(*first, text)
}

/// The command that begins with a byte.
fn command_with(first: u8, text: &[u8]) -> Option<Command>
    ensures { result ≡ spec.command_with first text.now }
{
    match first {
        b'n' => alone(Command::Step, text),
        b'c' => alone(Command::Continue, text),
        b'q' => alone(Command::Quit, text),
        b's' => alone(Command::State, text),
        b'B' => alone(Command::Flags, text),
        _ => subject_command(first, text),
    }
}

/// A command on which nothing follows.
fn alone(command: Command, text: &[u8]) -> Option<Command>
    ensures { result ≡ spec.alone command text.now }
{
    if text.is_empty() { Some(command) } else { None }
}

/// A command on a subject, and `+`.
fn subject_command(first: u8, text: &[u8]) -> Option<Command>
    ensures { result ≡ spec.subject_command first text.now }
{
    match first {
        b'$' => register_command(text),
        b'g' => global_command(text),
        b'r' => special_command(text),
        b'M' => memory_command(text),
        b'+' => more_command(text),
        _ => address_command(first, text),
    }
}

/// A command on an address.
fn address_command(first: u8, text: &[u8]) -> Option<Command>
    ensures { result ≡ spec.address_command first text.now }
{
    match first {
        b'@' => Some(Command::GoTo(address_of(text)?)),
        b't' => Some(Command::Trace(address_of(text)?)),
        b'u' => Some(Command::Untrace(address_of(text)?)),
        b'b' => break_command(text),
        _ => None,
    }
}

/// `$n`.
fn register_command(text: &[u8]) -> Option<Command>
    ensures { result ≡ spec.register_command (numerals.front kinds.is_digit text.now)
        (numerals.past kinds.is_digit text.now) }
{
    let (digits, rest) = split_digits(text);
    if digits.is_empty() {
        return None;
    }
    on_subject(Subject::Register(parse_octa_digits(10, digits)), rest)
}

/// `gn`.
fn global_command(text: &[u8]) -> Option<Command>
    ensures { result ≡ spec.global_command (numerals.front kinds.is_digit text.now)
        (numerals.past kinds.is_digit text.now) }
{
    let (digits, rest) = split_digits(text);
    if digits.is_empty() {
        return None;
    }
    on_subject(Subject::Global(parse_octa_digits(10, digits)), rest)
}

/// `rNAME`.
fn special_command(text: &[u8]) -> Option<Command>
    ensures { result ≡ spec.special_command (numerals.front kinds.is_letter text.now)
        (numerals.past kinds.is_letter text.now) }
{
    let (name, rest) = letters(text);
    if name.is_empty() {
        return None;
    }
    on_subject(Subject::Special(special_code(name)), rest)
}

/// `Mx`.
fn memory_command(text: &[u8]) -> Option<Command>
    ensures { result ≡ spec.memory_command (numerals.address_in text.now) (numerals.past_address text.now) }
{
    let (digits, rest) = hexadecimal_digits(without_hash(text));
    on_subject(Subject::Memory(parse_address_digits(digits)?), rest)
}

/// `+n`.
fn more_command(text: &[u8]) -> Option<Command>
    ensures { result ≡ spec.more_command (numerals.front kinds.is_digit text.now)
        (numerals.past kinds.is_digit text.now) }
{
    let (digits, rest) = split_digits(text);
    if digits.is_empty() {
        return None;
    }
    Some(Command::ShowMore(parse_octa_digits(10, digits), form_of(rest)?))
}

/// `b` with its letters.
fn break_command(text: &[u8]) -> Option<Command>
    ensures { result ≡ option_map (Command.Break (spec.breaks_of (numerals.front spec.is_break_letter text.now)))
        (numerals.address_of (numerals.past spec.is_break_letter text.now)) }
{
    let (letters, rest) = break_letters(text);
    let breaks = Breaks {
        r: has_letter(letters, b'r'),
        w: has_letter(letters, b'w'),
        x: has_letter(letters, b'x'),
    };
    Some(Command::Break(breaks, address_of(rest)?))
}

/// What follows a subject: a form, or `=` and a value.
fn on_subject(subject: Subject, text: &[u8]) -> Option<Command>
    ensures { result ≡ spec.on_subject subject text.now }
{
    let [first, rest @ ..] = text else {
        return Some(Command::Show(subject, Form::Hex));
    };
    if *first == b'=' {
        return Some(Command::Change(subject, value_of(rest)?));
    }
    Some(Command::Show(subject, form_of(text)?))
}

/// A form at the end of a line; none means hexadecimal.
fn form_of(text: &[u8]) -> Option<Form>
    ensures { result ≡ spec.form_of text.now }
{
    match text {
        [] => Some(Form::Hex),
        [b] => form_of_byte(*b),
        _ => None,
    }
}

fn form_of_byte(b: u8) -> Option<Form>
    ensures { result ≡ spec.form_of_byte b }
{
    match b {
        b'!' => Some(Form::Decimal),
        b'#' => Some(Form::Hex),
        b'"' => Some(Form::Chars),
        _ => None,
    }
}

/// The letters at the front of a text, and what follows them.
#[tactic(auto, using(crate::proofs::Fronts::fronts))]
fn letters(text: &[u8]) -> (&[u8], &[u8])
    ensures front { result.0.now ≡ numerals.front kinds.is_letter text.now }
    ensures rest { result.1.now ≡ numerals.past kinds.is_letter text.now }
{
    text.split_at(letter_count(text))
}

fn letter_count(text: &[u8]) -> usize
    ensures { result ≡ length (numerals.front kinds.is_letter text.now) }
{
    text.iter().take_while(|b| is_letter(**b)).count()
}

/// The letters r, w and x at the front of a text, and what follows them.
#[tactic(auto, using(crate::proofs::Fronts::fronts))]
fn break_letters(text: &[u8]) -> (&[u8], &[u8])
    ensures front { result.0.now ≡ numerals.front spec.is_break_letter text.now }
    ensures rest { result.1.now ≡ numerals.past spec.is_break_letter text.now }
{
    text.split_at(break_letter_count(text))
}

fn break_letter_count(text: &[u8]) -> usize
    ensures { result ≡ length (numerals.front spec.is_break_letter text.now) }
{
    text.iter().take_while(|b| is_break_letter(**b)).count()
}

fn is_break_letter(b: u8) -> bool
    ensures { result ≡ spec.is_break_letter b }
{
    b == b'r' || b == b'w' || b == b'x'
}

fn has_letter(letters: &[u8], letter: u8) -> bool
    ensures { result ≡ spec.has_letter letter letters.now }
{
    letters.iter().any(|b| *b == letter)
}
