//! The rows that a word is about.

ghost use Rattle.std.specs.Prelude.{◌≡◌, ◌++◌, IfOk, OnOk};
ghost use Rattle.std.specs.List.{flat_map};
ghost use Rattle.mx_explain.specs.Topics.{row, seen};
ghost use Rattle.mx_foreign.specs.Foreign.{advice_of};
ghost use Rattle.face_explain.specs.Answers as spec;
ghost use Rattle.face_explain.specs.Notations.{notation_of};

use crate::nearest::unknown_text;
use crate::notations::notation_on;
use crate::sections::{Section, all, part_of};
use mx_explain::{Entry, Row, add_row, is_number_or_name_of, row_of};
use mx_foreign::advice_on;
use mx_word::{Bytes, NoMemory};
use std::alloc::Global;

/// What is answered on a word: what it means; or that it is not known, in a line for standard error.
#[derive(Drop)]
pub enum Answer {
    Explained(Bytes),
    Unknown(Bytes),
}

/// Adds the text of a row that a word is about.
fn add_fitting(alloc: Global, text: &mut Bytes, word: &str, row: Row) -> Result<(), NoMemory>
    ensures { OnOk result (text.new ≡ text.old ++ spec.fitting word.now (seen row)) }
{
    if is_number_or_name_of(word, row) {
        return add_row(alloc, text, row);
    }
    Ok(())
}

/// Adds the texts of the rows of a table that a word is about.
fn add_found(alloc: Global, text: &mut Bytes, word: &str, entries: &[Entry]) -> Result<(), NoMemory>
    ensures { OnOk result (text.new ≡ text.old ++ flat_map (λ e. spec.fitting word.now (row e.0 e.1.now e.2.now e.3.now e.4.now)) entries.now) }
{
    for entry in entries {
        add_fitting(alloc, text, word, row_of(entry))?;
    }
    Ok(())
}

/// Adds the texts of the rows of a section that a word is about.
fn add_section(
    alloc: Global,
    text: &mut Bytes,
    word: &str,
    section: Section,
) -> Result<(), NoMemory>
    ensures { OnOk result (text.new ≡ text.old ++ spec.section_fitting word.now section) }
{
    add_found(alloc, text, word, part_of(section).entries)
}

/// Adds the texts of the rows of sections that a word is about.
fn add_sections(
    alloc: Global,
    text: &mut Bytes,
    word: &str,
    sections: &[Section],
) -> Result<(), NoMemory>
    ensures { OnOk result (text.new ≡ text.old ++ flat_map (spec.section_fitting word.now) sections.now) }
{
    for section in sections {
        add_section(alloc, text, word, *section)?;
    }
    Ok(())
}

/// The texts of all rows that a word is about.
#[tactic(auto, using(crate::proofs::WholeTable::whole))]
fn explanation(alloc: Global, word: &str) -> Result<Bytes, NoMemory>
    ensures { IfOk result (λ text. text ≡ spec.explanation word.now) }
{
    let mut text = Bytes::new(alloc);
    add_sections(alloc, &mut text, word, all())?;
    Ok(text)
}

/// What is said of an operation of other machines, where this is what MMIX has.
#[tactic(auto, unfolding(crate::specs::Answers::foreign_text))]
fn foreign_text(alloc: Global, word: &str, advice: &str) -> Result<Bytes, NoMemory>
    ensures { IfOk result (λ text. text ≡ spec.foreign_text word.now advice.now) }
{
    let mut text = Bytes::copy(alloc, word.as_bytes())?;
    text.extend(b": an operation of other machines\n  ")?;
    text.extend(advice.as_bytes())?;
    text.push(b'\n')?;
    Ok(text)
}

/// What is said of another part of MMIXAL.
#[tactic(auto, unfolding(crate::specs::Answers::notation_text))]
fn notation_text(alloc: Global, word: &str, says: &str) -> Result<Bytes, NoMemory>
    ensures { IfOk result (λ text. text ≡ spec.notation_text word.now says.now) }
{
    let mut text = Bytes::copy(alloc, word.as_bytes())?;
    text.extend(b": a part of MMIXAL\n  ")?;
    text.extend(says.as_bytes())?;
    text.push(b'\n')?;
    Ok(text)
}

/// What is answered on a word that no row is about, and that is no operation of other machines.
fn notation_answer(alloc: Global, word: &str) -> Result<Answer, NoMemory>
    ensures { IfOk result (λ given. given ≡ spec.notation_answer word.now (notation_of word.now)) }
{
    let says = notation_on(word.as_bytes());
    if says.is_empty() {
        return Ok(Answer::Unknown(unknown_text(alloc, word)?));
    }
    Ok(Answer::Explained(notation_text(alloc, word, says)?))
}

/// What is answered on a word that no row is about.
fn foreign_answer(alloc: Global, word: &str) -> Result<Answer, NoMemory>
    ensures { IfOk result (λ given. given ≡ spec.foreign_answer word.now (advice_of word.now)) }
{
    let advice = advice_on(word.as_bytes());
    if advice.is_empty() {
        return notation_answer(alloc, word);
    }
    Ok(Answer::Explained(foreign_text(alloc, word, advice)?))
}

/// What a word means: the texts of all rows of the table whose number or name it is, in their order; upper and lower case do not
/// matter. Where there is none, what MMIX has in place of an operation of other machines, or what Main, @ or a local label is. It refuses
/// only where it is out of memory.
#[tactic(auto, using(crate::proofs::WholeTable::answers), unfolding(crate::specs::Answers::answer))]
pub fn explain(alloc: Global, word: &str) -> Result<Answer, NoMemory>
    ensures { IfOk result (λ given. given ≡ spec.answer word.now) }
{
    let text = explanation(alloc, word)?;
    if text.as_slice().is_empty() {
        return foreign_answer(alloc, word);
    }
    Ok(Answer::Explained(text))
}
