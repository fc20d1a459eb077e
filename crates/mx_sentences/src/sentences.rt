//! What is said of a fault.

ghost use Rattle.std.specs.Prelude.{◌≡◌, ◌≤◌, ◌++◌, [], IfOk, IfSome, OnOk, length};
ghost use Rattle.mx_ops.specs.Opcodes.{operation_of};
ghost use Rattle.mx_ops.specs.Shapes.{shapes_of};
ghost use Rattle.mx_marks.specs.Marks.{operation_at};
ghost use Rattle.mx_sentences.specs.Additions.{instead_text};
ghost use Rattle.mx_advice.specs.Rows.{shown};
ghost use Rattle.mx_sentences.specs.Sentences as spec;

use crate::additions::{
    add_base, add_between, add_instead, add_main, add_reach, add_set, starts_with_letter,
};
use crate::choices::{Unknown, is_defined, row_with, unknown_kind, whole_row};
use crate::places::{mark_of, statement_place};
use mx_advice::Row;
use mx_asm::AsmFault;
use mx_marks::{
    Likeness, Mark, find_label_line, find_similar_label, find_similar_name, find_similar_operation,
    operation_at, slice_marked,
};
use mx_ops::{Op, Shape, find, shape_of};
use mx_text::add_decimal;
use mx_word::{Bytes, NoMemory};
use std::alloc::Global;

/// What is said of a fault: the marked text of its line, if it is known; what is wrong; a name that is meant perhaps, or no text; and how to
/// fix it. Each text is one line without its end.
#[derive(Drop)]
pub struct Remark {
    pub mark: Option<Mark>,
    pub what: Bytes,
    pub meant: Bytes,
    pub help: Bytes,
}

/// Adds the text that is marked, or the noun for it.
fn add_subject(text: &mut Bytes, row: Row, marked: &[u8]) -> Result<(), NoMemory>
    ensures { OnOk result (text.new ≡ text.old ++ spec.subject_of (shown row) marked.now) }
{
    if marked.is_empty() {
        return text.extend(row.noun.as_bytes());
    }
    text.extend(b"`")?;
    text.extend(marked)?;
    text.extend(b"`")
}

/// What is wrong.
fn what_text(alloc: Global, row: Row, marked: &[u8]) -> Result<Bytes, NoMemory>
    ensures { IfOk result (λ text. text ≡ spec.what_text (shown row) marked.now) }
{
    if row.after.as_bytes().is_empty() {
        return Bytes::copy(alloc, row.noun.as_bytes());
    }
    let mut text = Bytes::copy(alloc, row.before.as_bytes())?;
    add_subject(&mut text, row, marked)?;
    text.extend(row.after.as_bytes())?;
    Ok(text)
}

/// Which operands an instruction of this shape takes.
fn shape_text(shape: Shape) -> &'static [u8]
    ensures { result.now ≡ spec.shape_text shape }
{
    match shape {
        Shape::Three => b"$X,$Y,$Z or $X,$Y,n",
        Shape::Regs => b"$X,$Y,$Z",
        Shape::Round => b"$X,$Z or $X,n,$Z",
        Shape::Neg => b"$X,$Z or $X,n or $X,n,$Z or $X,n,n",
        Shape::Rel => b"$X,label",
        Shape::Mem => b"$X,$Y,$Z or $X,$Y,n or $X,$Y or $X,label",
        Shape::MemPure => b"n,$Y,$Z or n,$Y,n or n,$Y or n,label",
        Shape::Wyde => b"$X,n",
        Shape::Jump => b"a label",
        Shape::Put => b"r,$Z or r,n for a special register r as rJ",
        Shape::Get => b"$X,r for a special register r as rJ",
        Shape::Pop => b"n,n or n",
        Shape::One => b"n",
        Shape::Save => b"$X,0",
        Shape::Unsave => b"$Z",
        Shape::Free => b"n or n,n or n,n,n",
    }
}

/// Which operands the instruction of a code takes.
fn code_text(code: u8) -> &'static [u8]
    ensures { result.now ≡ spec.first_text (shapes_of code) }
{
    shape_text(shape_of(code))
}

/// Which operands an operation takes; no text for one that the assembler carries out.
fn operands_text(operation: Option<Op>) -> &'static [u8]
    ensures { result.now ≡ spec.operands_text operation }
{
    match operation {
        Some(Op::Code(code)) => code_text(code),
        Some(Op::Lda) => shape_text(Shape::Mem),
        Some(Op::Set) => b"$X,$Y or $X,n",
        Some(Op::Pseudo(_)) | None => b"",
    }
}

/// Adds which operands an operation takes, if that is known.
fn add_takes(text: &mut Bytes, operation: &[u8], operands: &[u8]) -> Result<(), NoMemory>
    ensures { OnOk result (text.new ≡ text.old ++ spec.takes_text operation.now operands.now) }
{
    if operands.is_empty() {
        return Ok(());
    }
    text.extend(b" ")?;
    text.extend(operation)?;
    text.extend(b" takes ")?;
    text.extend(operands)?;
    text.extend(b".")
}

/// Adds what puts the address of a label of data into a register.
#[tactic(auto, unfolding(crate::specs::Sentences::into_text))]
fn add_into(text: &mut Bytes, name: &[u8]) -> Result<(), NoMemory>
    ensures { OnOk result (text.new ≡ text.old ++ spec.into_text name.now) }
{
    add_between(text, b"LDA $1,", name, b" puts it into a register")
}

/// Adds what loads the data at a label.
#[tactic(auto, unfolding(crate::specs::Sentences::from_text))]
fn add_from(text: &mut Bytes, name: &[u8]) -> Result<(), NoMemory>
    ensures { OnOk result (text.new ≡ text.old ++ spec.from_text name.now) }
{
    add_between(text, b", and LDO $1,", name, b" loads the octa there.")
}

/// Adds what loads the address of a label of data, and what is there.
fn add_load(text: &mut Bytes, name: &[u8]) -> Result<(), NoMemory>
    ensures { OnOk result (text.new ≡ text.old ++ spec.load_text name.now) }
{
    add_into(text, name)?;
    add_from(text, name)
}

/// Adds what loads an address where a label of data is marked, and what makes a number that is marked in SET.
fn add_fit(text: &mut Bytes, marked: &[u8], line: &[u8], place: usize) -> Result<(), NoMemory>
    requires { place ≤ length line.now }
    ensures { OnOk result (text.new ≡ text.old ++ spec.fit_text marked.now line.now place) }
{
    if starts_with_letter(marked) {
        add_load(text, marked)
    } else {
        add_set(text, marked, line, place)
    }
}

/// Adds in which line a label is defined already, if that is found.
fn add_defined(text: &mut Bytes, number: u64) -> Result<(), NoMemory>
    ensures { OnOk result (text.new ≡ text.old ++ spec.defined_text number) }
{
    if number == 0 {
        return Ok(());
    }
    text.extend(b" It is the label of line ")?;
    add_decimal(text, number)?;
    text.extend(b".")
}

/// Adds which operands the operation of the statement at a place takes, and which operation takes these.
fn add_shape(text: &mut Bytes, fault: u16, line: &[u8], place: usize) -> Result<(), NoMemory>
    requires { place ≤ length line.now }
    ensures { OnOk result (text.new ≡ text.old
        ++ (spec.takes_text (operation_at line.now place) (spec.operands_text (operation_of (operation_at line.now place)))
        ++ instead_text fault line.now place)) }
{
    let operation = operation_at(line, place);
    add_takes(text, operation, operands_text(find(operation)))?;
    add_instead(text, fault, line, place)
}

/// Adds what more helps, where the statement is known.
fn add_help(
    text: &mut Bytes,
    fault: u16,
    number: u32,
    source: &[u8],
    marked: &[u8],
    line: &[u8],
    place: Option<usize>,
) -> Result<(), NoMemory>
    requires { IfSome place (λ p. p ≤ length line.now) }
    ensures { OnOk result (text.new ≡ text.old ++ spec.more_help fault number source.now marked.now line.now place) }
{
    let Some(place) = place else {
        return Ok(());
    };
    match fault {
        40 | 41 | 42 => add_shape(text, fault, line, place),
        43 => add_fit(text, marked, line, place),
        44 => add_base(text, line, place),
        45 | 85 => add_reach(text, fault, line, place),
        30 => add_defined(
            text,
            find_label_line(marked, number.saturating_sub(1), source),
        ),
        _ => Ok(()),
    }
}

/// How to fix a fault.
fn help_text(
    alloc: Global,
    row: Row,
    fault: u16,
    number: u32,
    source: &[u8],
    marked: &[u8],
    line: &[u8],
    place: Option<usize>,
) -> Result<Bytes, NoMemory>
    requires { IfSome place (λ p. p ≤ length line.now) }
    ensures { IfOk result (λ text. text ≡ (shown row).help ++ spec.more_help fault number source.now marked.now line.now place) }
{
    let mut text = Bytes::copy(alloc, row.help.as_bytes())?;
    add_help(&mut text, fault, number, source, marked, line, place)?;
    Ok(text)
}

/// A label of a source that is like a name, or else a name that MMIXAL defines; no text where none is.
fn guess_name<'a>(source: &'a [u8], name: &[u8]) -> &'a [u8]
    ensures { result.now ≡ spec.meant_name source.now name.now }
{
    let label = find_similar_label(Likeness::Alike, name, u32::MAX, source);
    if label.is_empty() {
        find_similar_name(name)
    } else {
        label
    }
}

/// The operation that is meant perhaps by a word of this kind; no text where none is known.
fn guess_operation(kind: Unknown, marked: &[u8]) -> &'static [u8]
    ensures { result.now ≡ spec.meant_of kind marked.now }
{
    match kind {
        Unknown::Misspelled => find_similar_operation(marked),
        _ => b"",
    }
}

/// The operation that is meant perhaps in the statement at a place.
fn guess_operation_at(marked: &[u8], line: &[u8], place: Option<usize>) -> &'static [u8]
    requires { IfSome place (λ p. p ≤ length line.now) }
    ensures { result.now ≡ spec.meant_unknown marked.now line.now place }
{
    match place {
        None => b"",
        Some(place) => guess_operation(unknown_kind(marked, line, place), marked),
    }
}

/// The name that is meant perhaps where this text is marked under a fault; no text where none is known.
fn guess_by_fault<'a>(
    fault: u16,
    source: &'a [u8],
    marked: &[u8],
    line: &[u8],
    place: Option<usize>,
) -> &'a [u8]
    requires { IfSome place (λ p. p ≤ length line.now) }
    ensures { result.now ≡ spec.meant_by fault source.now marked.now line.now place }
{
    match fault {
        39 => guess_operation_at(marked, line, place),
        80 => guess_name(source, marked),
        17 => {
            if is_defined(source, marked) {
                &[]
            } else {
                guess_name(source, marked)
            }
        }
        _ => &[],
    }
}

/// The text that a fault is about, if it is marked.
fn part_text(line: &[u8], mark: Option<Mark>) -> &[u8]
    ensures { result.now ≡ spec.part_text line.now mark }
{
    match mark {
        Some(mark) if mark.is_part => slice_marked(line, mark),
        _ => &[],
    }
}

/// What is said of a fault in this line of a source, which has this number.
///
/// Errors: out of memory.
pub fn remark_on(
    alloc: Global,
    why: AsmFault,
    number: u32,
    source: &[u8],
    line: &[u8],
) -> Result<Remark, NoMemory>
    ensures { IfOk result (λ remark. remark ≡ spec.remark_of why number source.now line.now) }
{
    let mark = mark_of(alloc, why, number, source, line)?;
    let marked = part_text(line, mark);
    let place = statement_place(why, line);
    let row = row_with(why.number(), source, marked, line, place);
    let what = what_text(alloc, row, marked)?;
    let meant = Bytes::copy(
        alloc,
        guess_by_fault(why.number(), source, marked, line, place),
    )?;
    let help = help_text(
        alloc,
        row,
        why.number(),
        number,
        source,
        marked,
        line,
        place,
    )?;
    Ok(Remark {
        mark,
        what,
        meant,
        help,
    })
}

/// What is said of a fault with this number that is one of the source as a whole.
///
/// Errors: out of memory.
pub fn remark_on_whole(alloc: Global, fault: u16, source: &[u8]) -> Result<Remark, NoMemory>
    ensures { IfOk result (λ remark. remark ≡ spec.remark_of_whole fault source.now) }
{
    let row = whole_row(fault, source);
    let what = what_text(alloc, row, &[])?;
    let mut help = Bytes::copy(alloc, row.help.as_bytes())?;
    add_main(&mut help, fault, source)?;
    Ok(Remark {
        mark: None,
        what,
        meant: Bytes::new(alloc),
        help,
    })
}
