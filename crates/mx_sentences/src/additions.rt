//! What is added to what mends a fault, with the very operands of the statement.

ghost use Rattle.std.specs.Prelude.{◌≡◌, ◌≤◌, ◌++◌, OnOk, length};
ghost use Rattle.mx_sentences.specs.Additions as spec;

use crate::choices::{has_colon, is_geta, is_set, like_main};
use mx_marks::{find_label_line, first_operand, operands_at, operation_at, skip_past_comma};
use mx_text::add_decimal;
use mx_word::{Bytes, NoMemory, is_digit, is_letter};

/// Whether a text begins with a letter.
pub(crate) fn starts_with_letter(text: &[u8]) -> bool
    ensures { result ≡ spec.begins_letter text.now }
{
    match text {
        [] => false,
        [b, ..] => is_letter(*b),
    }
}

/// Whether a text begins with a digit.
fn starts_with_digit(text: &[u8]) -> bool
    ensures { result ≡ spec.begins_digit text.now }
{
    match text {
        [] => false,
        [b, ..] => is_digit(*b),
    }
}

/// Adds a name between two texts.
pub(crate) fn add_between(
    text: &mut Bytes,
    front: &[u8],
    name: &[u8],
    back: &[u8],
) -> Result<(), NoMemory>
    ensures { OnOk result (text.new ≡ text.old ++ (front.now ++ name.now ++ back.now)) }
{
    text.extend(front)?;
    text.extend(name)?;
    text.extend(back)
}

/// Adds what makes a small number below 0 in a register.
#[tactic(auto, unfolding(crate::specs::Additions::short_negative))]
fn add_short_negative(text: &mut Bytes, register: &[u8], digits: &[u8]) -> Result<(), NoMemory>
    ensures { OnOk result (text.new ≡ text.old ++ spec.short_negative register.now digits.now) }
{
    text.extend(b"Take NEG ")?;
    text.extend(register)?;
    text.extend(b",")?;
    text.extend(digits)?;
    text.extend(b".")
}

/// Adds the instruction that turns the sign of a register.
#[tactic(auto, unfolding(crate::specs::Additions::set_end))]
fn add_set_end(text: &mut Bytes, register: &[u8]) -> Result<(), NoMemory>
    ensures { OnOk result (text.new ≡ text.old ++ spec.set_end register.now) }
{
    text.extend(b" and NEG ")?;
    text.extend(register)?;
    text.extend(b",")?;
    text.extend(register)?;
    text.extend(b".")
}

/// Adds what makes a number below 0 in a register.
#[tactic(auto, unfolding(crate::specs::Additions::long_negative))]
fn add_long_negative(text: &mut Bytes, register: &[u8], digits: &[u8]) -> Result<(), NoMemory>
    ensures { OnOk result (text.new ≡ text.old ++ spec.long_negative register.now digits.now) }
{
    text.extend(b"Take SET ")?;
    text.extend(register)?;
    text.extend(b",")?;
    text.extend(digits)?;
    add_set_end(text, register)
}

/// Adds what makes a number below 0 with these digits.
fn add_negative(text: &mut Bytes, register: &[u8], digits: &[u8]) -> Result<(), NoMemory>
    ensures { OnOk result (text.new ≡ text.old ++ spec.negative_text register.now digits.now) }
{
    if digits.len() < 3 {
        add_short_negative(text, register, digits)
    } else {
        add_long_negative(text, register, digits)
    }
}

/// Adds the instruction that sets the high part of a number, up to its number.
#[tactic(auto, unfolding(crate::specs::Additions::setml_front))]
fn add_setml_front(text: &mut Bytes, register: &[u8]) -> Result<(), NoMemory>
    ensures { OnOk result (text.new ≡ text.old ++ spec.setml_front register.now) }
{
    add_between(text, b"Take SETML ", register, b",")
}

/// Adds the instruction that adds the low part of a number, up to its number.
#[tactic(auto, unfolding(crate::specs::Additions::incl_front))]
fn add_incl_front(text: &mut Bytes, register: &[u8]) -> Result<(), NoMemory>
    ensures { OnOk result (text.new ≡ text.old ++ spec.incl_front register.now) }
{
    add_between(text, b">>16 and INCL ", register, b",")
}

/// Adds what makes a large number in a register.
#[tactic(auto, unfolding(crate::specs::Additions::large_text))]
fn add_large(text: &mut Bytes, register: &[u8], number: &[u8]) -> Result<(), NoMemory>
    ensures { OnOk result (text.new ≡ text.old ++ spec.large_text register.now number.now) }
{
    add_setml_front(text, register)?;
    text.extend(number)?;
    add_incl_front(text, register)?;
    text.extend(number)?;
    text.extend(b"&#ffff.")
}

/// Adds what makes a number that has no room in SET.
fn add_number(text: &mut Bytes, register: &[u8], number: &[u8]) -> Result<(), NoMemory>
    ensures { OnOk result (text.new ≡ text.old ++ spec.number_text register.now number.now) }
{
    let [b, digits @ ..] = number else {
        return Ok(());
    };
    if *b == b'-' {
        add_negative(text, register, digits)
    } else {
        add_large(text, register, number)
    }
}

/// Adds what makes the marked number, if the statement at a place is SET.
pub(crate) fn add_set(
    text: &mut Bytes,
    marked: &[u8],
    line: &[u8],
    place: usize,
) -> Result<(), NoMemory>
    requires { place ≤ length line.now }
    ensures { OnOk result (text.new ≡ text.old ++ spec.set_text marked.now line.now place) }
{
    if is_set(operation_at(line, place)) {
        add_number(text, first_operand(operands_at(line, place)), marked)
    } else {
        Ok(())
    }
}

/// How the sentence on an address ends that GETA does not reach.
fn far_end(fault: u16) -> &'static [u8]
    ensures { result.now ≡ spec.far_end fault }
{
    if fault == 85 {
        b", both above this line."
    } else {
        b"."
    }
}

/// Adds what takes the address of a label that GETA does not reach.
#[tactic(auto, unfolding(crate::specs::Additions::named_text))]
fn add_named(text: &mut Bytes, fault: u16, operands: &[u8], name: &[u8]) -> Result<(), NoMemory>
    ensures { OnOk result (text.new ≡ text.old ++ spec.named_text fault operands.now name.now) }
{
    text.extend(b"Use LDA ")?;
    text.extend(operands)?;
    text.extend(b", with GREG @ in front of ")?;
    text.extend(name)?;
    text.extend(far_end(fault))
}

/// Adds what takes an address that GETA does not reach.
#[tactic(auto, unfolding(crate::specs::Additions::unnamed_text))]
fn add_unnamed(text: &mut Bytes) -> Result<(), NoMemory>
    ensures { OnOk result (text.new ≡ text.old ++ spec.unnamed_text) }
{
    text.extend(b"Use LDA, with GREG @ in front of the data.")
}

/// Adds what takes the address that GETA with these operands does not reach.
fn add_far(text: &mut Bytes, fault: u16, operands: &[u8]) -> Result<(), NoMemory>
    ensures { OnOk result (text.new ≡ text.old ++ spec.far_text fault operands.now) }
{
    let name = skip_past_comma(operands);
    if starts_with_letter(name) {
        add_named(text, fault, operands, name)
    } else {
        add_unnamed(text)
    }
}

/// Adds what takes the address, if the statement at a place is GETA.
pub(crate) fn add_reach(
    text: &mut Bytes,
    fault: u16,
    line: &[u8],
    place: usize,
) -> Result<(), NoMemory>
    requires { place ≤ length line.now }
    ensures { OnOk result (text.new ≡ text.old ++ spec.reach_text fault line.now place) }
{
    if is_geta(line, place) {
        add_far(text, fault, operands_at(line, place))
    } else {
        Ok(())
    }
}

/// Adds a jump by a register.
#[tactic(auto, unfolding(crate::specs::Additions::go_text))]
fn add_go(text: &mut Bytes, operands: &[u8]) -> Result<(), NoMemory>
    ensures { OnOk result (text.new ≡ text.old ++ spec.go_text operands.now) }
{
    add_between(
        text,
        b" GO $0,",
        operands,
        b" goes to the address in a register.",
    )
}

/// Adds a store of a number.
#[tactic(auto, unfolding(crate::specs::Additions::stco_text))]
fn add_stco(text: &mut Bytes, operands: &[u8]) -> Result<(), NoMemory>
    ensures { OnOk result (text.new ≡ text.old ++ spec.stco_text operands.now) }
{
    add_between(text, b" STCO ", operands, b" stores a number up to 255.")
}

/// Adds which other operation takes these operands, if one is known.
fn add_other(
    text: &mut Bytes,
    fault: u16,
    operation: &[u8],
    operands: &[u8],
) -> Result<(), NoMemory>
    ensures { OnOk result (text.new ≡ text.old ++ spec.other_text fault operation.now operands.now) }
{
    if fault == 42 && operation == b"JMP".as_slice() {
        add_go(text, operands)
    } else if fault == 41 && operation == b"STO".as_slice() {
        add_stco(text, operands)
    } else {
        Ok(())
    }
}

/// Adds which other operation takes the operands of the statement at a place, if one is known.
pub(crate) fn add_instead(
    text: &mut Bytes,
    fault: u16,
    line: &[u8],
    place: usize,
) -> Result<(), NoMemory>
    requires { place ≤ length line.now }
    ensures { OnOk result (text.new ≡ text.old ++ spec.instead_text fault line.now place) }
{
    add_other(
        text,
        fault,
        operation_at(line, place),
        operands_at(line, place),
    )
}

/// Adds that a number is taken for an address.
#[tactic(auto, unfolding(crate::specs::Additions::address_front))]
fn add_address_front(text: &mut Bytes, number: &[u8]) -> Result<(), NoMemory>
    ensures { OnOk result (text.new ≡ text.old ++ spec.address_front number.now) }
{
    add_between(text, b" ", number, b" is an address here")
}

/// Adds how SET makes a number.
#[tactic(auto, unfolding(crate::specs::Additions::set_makes))]
fn add_set_makes(text: &mut Bytes, operands: &[u8]) -> Result<(), NoMemory>
    ensures { OnOk result (text.new ≡ text.old ++ spec.set_makes operands.now) }
{
    add_between(text, b": SET ", operands, b" makes a number.")
}

/// Adds what makes a number that is taken for an address.
fn add_address_of_number(text: &mut Bytes, operands: &[u8]) -> Result<(), NoMemory>
    ensures { OnOk result (text.new ≡ text.old ++ spec.address_of_number operands.now) }
{
    add_address_front(text, skip_past_comma(operands))?;
    add_set_makes(text, operands)
}

/// Whether an operation is a load.
fn is_load(operation: &[u8]) -> bool
    ensures { result ≡ spec.is_load operation.now }
{
    match operation {
        [] => false,
        [b, ..] => *b == b'L',
    }
}

/// Adds what makes a number, if it is the address of a load.
pub(crate) fn add_base(text: &mut Bytes, line: &[u8], place: usize) -> Result<(), NoMemory>
    requires { place ≤ length line.now }
    ensures { OnOk result (text.new ≡ text.old ++ spec.base_text line.now place) }
{
    let operands = operands_at(line, place);
    if is_load(operation_at(line, place)) && starts_with_digit(skip_past_comma(operands)) {
        add_address_of_number(text, operands)
    } else {
        Ok(())
    }
}

/// Adds a label, up to the number of its line.
#[tactic(auto, unfolding(crate::specs::Additions::label_front))]
fn add_label_front(text: &mut Bytes, label: &[u8]) -> Result<(), NoMemory>
    ensures { OnOk result (text.new ≡ text.old ++ spec.label_front label.now) }
{
    add_between(text, b"The label `", label, b"` in line ")
}

/// Adds a label with its line.
fn add_label(text: &mut Bytes, label: &[u8], number: u64) -> Result<(), NoMemory>
    ensures { OnOk result (text.new ≡ text.old ++ spec.label_text label.now number) }
{
    add_label_front(text, label)?;
    add_decimal(text, number)
}

/// What is said of a label that is like Main.
fn main_end(label: &[u8]) -> &'static [u8]
    ensures { result.now ≡ spec.main_end label.now }
{
    if label == b"main".as_slice() {
        b" begins with a small letter: write Main."
    } else {
        b" is no Main: write Main, if the program starts there."
    }
}

/// Adds that a label is like Main, if there is one.
fn add_label_main(text: &mut Bytes, label: &[u8], source: &[u8]) -> Result<(), NoMemory>
    ensures { OnOk result (text.new ≡ text.old ++ spec.label_main_text label.now source.now) }
{
    if label.is_empty() {
        return Ok(());
    }
    add_label(text, label, find_label_line(label, u32::MAX, source))?;
    text.extend(main_end(label))
}

/// Adds which label is like Main, where a fault of the source as a whole is that there is none.
pub(crate) fn add_main(text: &mut Bytes, fault: u16, source: &[u8]) -> Result<(), NoMemory>
    ensures { OnOk result (text.new ≡ text.old ++ spec.main_text fault source.now) }
{
    if fault != 82 || has_colon(source) {
        return Ok(());
    }
    add_label_main(text, like_main(source), source)
}
