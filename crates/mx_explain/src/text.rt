//! The text of a row.

ghost use Rattle.std.specs.Prelude.{◌≡◌, ◌++◌, OnOk};
ghost use Rattle.std.specs.List.{flat_map};
ghost use Rattle.mx_explain.specs.Texts as spec;
ghost use Rattle.mx_explain.specs.Topics.{seen};

use crate::facts::{add_operation_codes, add_operation_cost, add_symbol_value};
use crate::operands::operands;
use crate::row::{Row, Topic, name_of, number_of};
use mx_ops::{Op, find};
use mx_text::add_decimal;
use mx_word::{Bytes, NoMemory};
use std::alloc::Global;

/// What an operation is.
fn operation_kind(op: Option<Op>) -> &'static str
    ensures { result.now ≡ spec.operation_kind op }
{
    match op {
        Some(Op::Pseudo(_)) => "a pseudo-operation",
        Some(Op::Code(_)) => "an instruction",
        _ => "an instruction that the operands choose",
    }
}

/// What a topic is, of an operation by its name.
fn kind_of(topic: Topic, name: &str) -> &'static str
    ensures { result.now ≡ spec.kind_of topic name.now }
{
    match topic {
        Topic::Source(_) => "a fault of a source",
        Topic::Object(_) => "a fault of an object",
        Topic::Stop(_) => "a reason of a stop",
        Topic::Kind(_) => "a command-line error",
        Topic::Warning(_) => "a warning of a source",
        Topic::Status(_) => "an exit status",
        Topic::Inside(_) => "a number inside the program",
        Topic::Operation => operation_kind(find(name.as_bytes())),
        Topic::Unperformed => "an instruction that this machine does not perform",
        Topic::Symbol => "a predefined symbol",
    }
}

/// Adds a number and a blank, if there is one.
fn add_number(text: &mut Bytes, number: Option<u16>) -> Result<(), NoMemory>
    ensures { OnOk result (text.new ≡ text.old ++ spec.number_text number) }
{
    let Some(number) = number else {
        return Ok(());
    };
    add_decimal(text, u64::from(number))?;
    text.push(b' ')
}

/// Adds what a row is called: its number, if it has one, and its name.
pub fn add_label(text: &mut Bytes, row: Row) -> Result<(), NoMemory>
    ensures { OnOk result (text.new ≡ text.old ++ spec.label (seen row)) }
{
    add_number(text, number_of(row.topic))?;
    text.extend(name_of(row).as_bytes())
}

/// Adds the first line of a row.
#[tactic(auto, unfolding(crate::specs::Texts::head))]
fn add_head(text: &mut Bytes, row: Row) -> Result<(), NoMemory>
    ensures { OnOk result (text.new ≡ text.old ++ spec.head (seen row)) }
{
    add_label(text, row)?;
    text.extend(b": ")?;
    text.extend(kind_of(row.topic, row.name).as_bytes())?;
    text.push(b'\n')
}

/// Adds a byte, and after the end of a line the blanks at the front of the next one.
fn add_indented(text: &mut Bytes, b: u8) -> Result<(), NoMemory>
    ensures { OnOk result (text.new ≡ text.old ++ spec.indented b) }
{
    if b == b'\n' {
        return text.extend(b"\n  ");
    }
    text.push(b)
}

/// Adds the lines of sentences without the end of the last one.
fn add_lines(text: &mut Bytes, says: &str) -> Result<(), NoMemory>
    ensures { OnOk result (text.new ≡ text.old ++ flat_map spec.indented says.now) }
{
    for b in says.as_bytes() {
        add_indented(text, *b)?;
    }
    Ok(())
}

/// Adds the sentences of a row.
#[tactic(auto, unfolding(crate::specs::Texts::sentences))]
fn add_sentences(text: &mut Bytes, says: &str) -> Result<(), NoMemory>
    ensures { OnOk result (text.new ≡ text.old ++ spec.sentences says.now) }
{
    text.extend(b"  ")?;
    add_lines(text, says)?;
    text.push(b'\n')
}

/// Adds a line with a title, unless it would be empty.
#[tactic(auto, unfolding(crate::specs::Texts::part))]
fn add_part(text: &mut Bytes, title: &[u8; 12], part: &str) -> Result<(), NoMemory>
    ensures { OnOk result (text.new ≡ text.old ++ spec.part title.now part.now) }
{
    if part.is_empty() {
        return Ok(());
    }
    text.extend(title)?;
    text.extend(part.as_bytes())?;
    text.push(b'\n')
}

/// Adds how an operation is written.
fn add_form(text: &mut Bytes, name: &str) -> Result<(), NoMemory>
    ensures { OnOk result (text.new ≡ text.old ++ spec.form name.now) }
{
    text.extend(b"  ")?;
    text.extend(name.as_bytes())?;
    text.push(b' ')?;
    text.extend(operands(find(name.as_bytes())).as_bytes())?;
    text.push(b'\n')
}

/// Adds what the tables say in front of the sentences: how an operation is written, or the value of a symbol.
#[tactic(auto, unfolding(crate::specs::Texts::front))]
fn add_front(alloc: Global, text: &mut Bytes, topic: Topic, name: &str) -> Result<(), NoMemory>
    ensures { OnOk result (text.new ≡ text.old ++ spec.front topic name.now) }
{
    match topic {
        Topic::Operation | Topic::Unperformed => add_form(text, name),
        Topic::Symbol => add_symbol_value(alloc, text, name),
        _ => Ok(()),
    }
}

/// Adds what the tables say after the sentences: the codes and the costs of an instruction.
#[tactic(auto, unfolding(crate::specs::Texts::back))]
fn add_back(text: &mut Bytes, topic: Topic, name: &str) -> Result<(), NoMemory>
    ensures { OnOk result (text.new ≡ text.old ++ spec.back topic name.now) }
{
    match topic {
        Topic::Operation => {
            add_operation_codes(text, name)?;
            add_operation_cost(text, name)
        }
        Topic::Unperformed => add_operation_codes(text, name),
        _ => Ok(()),
    }
}

/// Adds the text of a row.
#[tactic(auto, unfolding(crate::specs::Texts::row_text))]
pub fn add_row(alloc: Global, text: &mut Bytes, row: Row) -> Result<(), NoMemory>
    ensures { OnOk result (text.new ≡ text.old ++ spec.row_text (seen row)) }
{
    add_head(text, row)?;
    add_front(alloc, text, row.topic, row.name)?;
    add_sentences(text, row.says)?;
    add_part(text, b"  Example:  ", row.example)?;
    add_part(text, b"  Fixed:    ", row.mended)?;
    add_back(text, row.topic, row.name)
}
