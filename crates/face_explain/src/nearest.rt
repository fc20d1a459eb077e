//! Words that no row is about.

ghost use Rattle.std.specs.Prelude.{◌≡◌, ◌++◌, IfOk, OnOk};
ghost use Rattle.std.specs.List.{flat_map};
ghost use Rattle.mx_explain.specs.Topics.{row, seen};
ghost use Rattle.face_explain.specs.Answers as spec;

use crate::near::is_near;
use crate::sections::{Section, all, part_of};
use mx_explain::{Entry, Row, name_of, row_of};
use mx_word::{Bytes, NoMemory};
use std::alloc::Global;

/// Adds a blank and the name of a row, if a word is within one letter of it.
fn add_offered(text: &mut Bytes, word: &str, row: Row) -> Result<(), NoMemory>
    ensures { OnOk result (text.new ≡ text.old ++ spec.offered word.now (seen row)) }
{
    if is_near(word, row) {
        text.push(b' ')?;
        return text.extend(name_of(row).as_bytes());
    }
    Ok(())
}

/// Adds the names in a table that a word is within one letter of.
fn add_near(text: &mut Bytes, word: &str, entries: &[Entry]) -> Result<(), NoMemory>
    ensures { OnOk result (text.new ≡ text.old ++ flat_map (λ e. spec.offered word.now (row e.0 e.1.now e.2.now e.3.now e.4.now)) entries.now) }
{
    for entry in entries {
        add_offered(text, word, row_of(entry))?;
    }
    Ok(())
}

/// Adds the names of a section that a word is within one letter of.
fn add_section(text: &mut Bytes, word: &str, section: Section) -> Result<(), NoMemory>
    ensures { OnOk result (text.new ≡ text.old ++ spec.section_offered word.now section) }
{
    add_near(text, word, part_of(section).entries)
}

/// Adds the names of sections that a word is within one letter of.
fn add_sections(text: &mut Bytes, word: &str, sections: &[Section]) -> Result<(), NoMemory>
    ensures { OnOk result (text.new ≡ text.old ++ flat_map (spec.section_offered word.now) sections.now) }
{
    for section in sections {
        add_section(text, word, *section)?;
    }
    Ok(())
}

/// The names that a word is within one letter of.
#[tactic(auto, using(crate::proofs::WholeTable::names))]
fn near_names(alloc: Global, word: &str) -> Result<Bytes, NoMemory>
    ensures { IfOk result (λ names. names ≡ spec.near_names word.now) }
{
    let mut names = Bytes::new(alloc);
    add_sections(&mut names, word, all())?;
    Ok(names)
}

/// Adds the names that are near, if there are any, or where to find all.
#[tactic(auto, unfolding(crate::specs::Answers::advice))]
fn add_advice(text: &mut Bytes, names: &[u8]) -> Result<(), NoMemory>
    ensures { OnOk result (text.new ≡ text.old ++ spec.advice names.now) }
{
    if names.is_empty() {
        return text.extend(b"; mmixview explain lists all that is\n");
    }
    text.extend(b"; near it:")?;
    text.extend(names)?;
    text.push(b'\n')
}

/// What is said of a word that no row is about.
pub(crate) fn unknown_text(alloc: Global, word: &str) -> Result<Bytes, NoMemory>
    ensures { IfOk result (λ text. text ≡ spec.unknown_text word.now) }
{
    let names = near_names(alloc, word)?;
    let mut text = Bytes::copy(alloc, b"error: ")?;
    text.extend(word.as_bytes())?;
    text.extend(b" is not explained")?;
    add_advice(&mut text, names.as_slice())?;
    Ok(text)
}
