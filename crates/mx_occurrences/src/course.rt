//! What names depend on: the prefix, and how often each local label has come.

ghost use Rattle.std.specs.Prelude.{◌≡◌, IfOk, OnOk};
ghost use Rattle.mx_occurrences.specs.Occurrences as spec;

use crate::occurrence::Named;
use mx_ops::{Op, Pseudo, find};
use mx_slips::{Statement, Token};
use mx_word::{Bytes, NoMemory, is_digit, is_letter};
use std::alloc::Global;

/// The prefix, and how often each of `0H` to `9H` has come.
#[derive(Drop)]
pub(crate) struct Course {
    pub prefix: Bytes,
    pub counts: [u64; 10],
}

/// The next number, where there is one.
#[tactic(auto, unfolding(crate::specs::Occurrences::next))]
fn next(n: u64) -> u64
    ensures { result ≡ spec.next n }
{
    if n < u64::MAX { n + 1 } else { n }
}

/// Before the first statement.
pub(crate) fn start(alloc: Global) -> Result<Course, NoMemory>
    ensures { IfOk result (λ course. course ≡ spec.start) }
{
    Ok(Course {
        prefix: Bytes::copy(alloc, b":")?,
        counts: [0; 10],
    })
}

/// Whether a name is complete.
fn is_complete(name: &[u8]) -> bool
    ensures { result ≡ spec.begins_with_colon name.now }
{
    match name {
        [] => false,
        [b, ..] => *b == b':',
    }
}

/// The complete name of a symbol: itself, or the prefix followed by it.
pub fn full_name(alloc: Global, prefix: &[u8], name: &[u8]) -> Result<Bytes, NoMemory>
    ensures { IfOk result (λ full. full ≡ spec.full_name prefix.now name.now) }
{
    if is_complete(name) {
        return Bytes::copy(alloc, name);
    }
    let mut full = Bytes::copy(alloc, prefix)?;
    full.extend(name)?;
    Ok(full)
}

/// The digit at the front of a text, as a number.
pub(crate) fn front_digit(text: &[u8]) -> Option<u8>
    ensures { result ≡ spec.front_digit text.now }
{
    match text {
        [] => None,
        [b, ..] => {
            if is_digit(*b) {
                Some(b.saturating_sub(b'0'))
            } else {
                None
            }
        }
    }
}

/// How often a local label has come.
pub(crate) fn count_of(course: &Course, d: u8) -> u64
    ensures { result ≡ spec.count_of course.now d }
{
    if d < 10 {
        course.counts[usize::from(d)]
    } else {
        0
    }
}

/// Counts a local label.
fn count_label(course: &mut Course, d: u8)
    ensures { course.new ≡ spec.counted course.old d }
{
    if d < 10 {
        course.counts[usize::from(d)] = next(course.counts[usize::from(d)]);
    }
}

/// Counts the label of a statement, if it is a local one.
pub(crate) fn pass_label(course: &mut Course, statement: &Statement)
    ensures { course.new ≡ spec.after_label course.old statement.now }
{
    let Some(label) = &statement.label else {
        return;
    };
    if let Some(d) = front_digit(label.text.as_slice()) {
        count_label(course, d);
    }
}

/// Whether a statement is PREFIX.
pub(crate) fn is_prefix(statement: &Statement) -> bool
    ensures { result ≡ spec.is_prefix statement.now }
{
    match find(statement.op.text.as_slice()) {
        Some(Op::Pseudo(Pseudo::Prefix)) => true,
        _ => false,
    }
}

/// The prefix after PREFIX with these operands.
fn prefix_with(alloc: Global, prefix: &[u8], tokens: &[Token]) -> Result<Bytes, NoMemory>
    ensures { IfOk result (λ full. full ≡ spec.prefix_with prefix.now tokens.now) }
{
    match tokens {
        [token] => full_name(alloc, prefix, token.text.as_slice()),
        _ => Bytes::copy(alloc, prefix),
    }
}

/// Takes the prefix of a statement.
pub(crate) fn pass_prefix(
    alloc: Global,
    course: &mut Course,
    statement: &Statement,
) -> Result<(), NoMemory>
    ensures { OnOk result (course.new ≡ spec.after_prefix course.old statement.now) }
{
    if is_prefix(statement) {
        course.prefix = prefix_with(alloc, course.prefix.as_slice(), statement.tokens.as_slice())?;
    }
    Ok(())
}

/// What the label of a statement names, once the label is counted.
pub(crate) fn label_named(alloc: Global, course: &Course, label: &[u8]) -> Result<Named, NoMemory>
    ensures { IfOk result (λ named. named ≡ spec.label_named course.now label.now) }
{
    match front_digit(label) {
        Some(d) => Ok(Named::Local(d, count_of(course, d))),
        None => Ok(Named::Symbol(full_name(alloc, course.prefix.as_slice(), label)?)),
    }
}

/// What `dB` or `dF` names: `before` is what has come before the statement, and `course` has its label, too.
fn local_named(before: &Course, course: &Course, d: u8, way: u8) -> Option<Named>
    ensures { result ≡ spec.local_named before.now course.now d way }
{
    if way == b'B' {
        Some(Named::Local(d, count_of(before, d)))
    } else if way == b'F' {
        Some(Named::Local(d, next(count_of(course, d))))
    } else {
        None
    }
}

/// Whether a text begins with a letter.
fn begins_with_letter(text: &[u8]) -> bool
    ensures { result ≡ spec.begins_with_letter text.now }
{
    match text {
        [] => false,
        [b, ..] => is_letter(*b),
    }
}

/// What a token of a statement names that begins with a digit, if it names something.
fn digit_named(before: &Course, course: &Course, d: u8, text: &[u8]) -> Option<Named>
    ensures { result ≡ spec.digit_named before.now course.now d text.now }
{
    match text {
        [_, way] => local_named(before, course, d, *way),
        _ => None,
    }
}

/// What a token of a statement names, if it is a name.
pub(crate) fn token_named(
    alloc: Global,
    before: &Course,
    course: &Course,
    text: &[u8],
) -> Result<Option<Named>, NoMemory>
    ensures { IfOk result (λ named. named ≡ spec.token_named before.now course.now text.now) }
{
    if let Some(d) = front_digit(text) {
        return Ok(digit_named(before, course, d, text));
    }
    if begins_with_letter(text) {
        let full = full_name(alloc, course.prefix.as_slice(), text)?;
        return Ok(Some(Named::Symbol(full)));
    }
    Ok(None)
}
