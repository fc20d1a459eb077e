//! The labels of a source, and words that are like a name.

ghost use Rattle.std.specs.Prelude.{◌≡◌, drop, length};
ghost use Rattle.mx_line.specs.Lines.{lines_of};
ghost use Rattle.mx_marks.specs.Labels as spec;

use crate::fields::{after_word, cut_leading_word};
use crate::under::split_at_most;
use mx_line::cut_line;
use mx_ops::{Op, Pseudo, find};
use mx_word::{is_digit, is_letter};

/// How a label has to be like a name: the same; or alike, as where a letter differs.
#[derive(Clone, Copy)]
pub enum Likeness {
    Same,
    Alike,
}

/// A text without its first byte.
fn without_first(text: &[u8]) -> &[u8]
    ensures { result.now ≡ drop 1 text.now }
{
    split_at_most(text, 1).1
}

/// Whether the first two letters of a text are those of another, exchanged.
fn are_exchanged(a: &[u8], b: &[u8]) -> bool
    ensures { result ≡ spec.are_exchanged a.now b.now }
{
    match (a, b) {
        ([p, q, ..], [r, s, ..]) => *p == *s && *q == *r,
        _ => false,
    }
}

/// Whether two texts are the same but for their first letters, but for one letter more in front of one of them, or but for an exchange of the
/// first two letters.
fn is_slip(a: &[u8], b: &[u8]) -> bool
    ensures { result ≡ spec.is_slip a.now b.now }
{
    without_first(a) == without_first(b)
        || without_first(a) == b
        || a == without_first(b)
        || (are_exchanged(a, b) && split_at_most(a, 2).1 == split_at_most(b, 2).1)
}

/// Whether one of two bytes is a digit and the other a letter.
fn is_digit_slip(x: u8, y: u8) -> bool
    ensures { result ≡ spec.is_digit_slip x y }
{
    (is_digit(x) && is_letter(y)) || (is_letter(x) && is_digit(y))
}

/// Whether one of two texts is one letter and the other ends, or they are the same but for a digit in place of a letter.
fn is_short_slip(a: &[u8], b: &[u8]) -> bool
    ensures { result ≡ spec.is_short_slip a.now b.now }
{
    let [x, more @ ..] = a else {
        return b.len() == 1;
    };
    let [y, others @ ..] = b else {
        return more.is_empty();
    };
    is_digit_slip(*x, *y) && more == others
}

/// Whether two texts differ by a slip, in a long word or in a short one.
fn is_slip_in(is_long: bool, a: &[u8], b: &[u8]) -> bool
    ensures { result ≡ spec.is_slip_in is_long a.now b.now }
{
    if is_long {
        is_slip(a, b)
    } else {
        is_short_slip(a, b)
    }
}

/// Whether two texts begin with one byte.
fn have_same_first_byte(a: &[u8], b: &[u8]) -> bool
    ensures { result ≡ spec.begin_alike a.now b.now }
{
    match (a, b) {
        ([x, ..], [y, ..]) => *x == *y,
        _ => false,
    }
}

/// Whether two words differ by one slip; in short ones fewer differences are slips.
#[tactic(auto, using(crate::proofs::LabelTurns::nears))]
fn is_near(is_long: bool, a: &[u8], b: &[u8]) -> bool
    ensures { result ≡ spec.is_near is_long a.now b.now }
{
    let mut left = a;
    let mut right = b;
    while have_same_first_byte(left, right) {
        left = without_first(left);
        right = without_first(right);
    }
    is_slip_in(is_long, left, right)
}

/// Whether a word is like a name: they differ in capitals alone, or are near each other.
fn is_alike(name: &[u8], other: &[u8]) -> bool
    ensures { result ≡ spec.is_alike name.now other.now }
{
    name.eq_ignore_ascii_case(other)
        || (name.len() >= 3 && is_near(name.len() >= 4 || other.len() >= 4, name, other))
}

/// Whether a label is like a name in this way.
fn is_like(kind: Likeness, name: &[u8], other: &[u8]) -> bool
    ensures { result ≡ spec.is_like kind name.now other.now }
{
    match kind {
        Likeness::Same => name == other,
        Likeness::Alike => is_alike(name, other),
    }
}

/// The first of this many lines of a source whose label is like a name; no text where none is.
#[tactic(auto, using(crate::proofs::LabelTurns::labels))]
fn first_line<'a>(kind: Likeness, name: &[u8], most: u32, source: &'a [u8]) -> &'a [u8]
    ensures { result.now ≡ spec.first_line kind name.now most (lines_of source.now) }
{
    let mut rest = source;
    let mut left = most;
    while !rest.is_empty() {
        let (line, more) = cut_line(rest);
        if left == 0 {
            return &[];
        }
        if is_like(kind, name, cut_leading_word(line)) {
            return line;
        }
        left -= 1;
        rest = more;
    }
    &[]
}

/// The first label of this many lines of a source that is like a name; no text where none is.
pub fn find_similar_label<'a>(kind: Likeness, name: &[u8], most: u32, source: &'a [u8]) -> &'a [u8]
    ensures { result.now ≡ spec.first_label kind name.now most (lines_of source.now) }
{
    cut_leading_word(first_line(kind, name, most, source))
}

/// The number of the first of this many lines of a source that has a label; 0 where none has it.
#[tactic(auto, using(crate::proofs::LabelTurns::numbers))]
pub fn find_label_line(name: &[u8], most: u32, source: &[u8]) -> u64
    ensures { result ≡ spec.label_number name.now most 1 (lines_of source.now) }
{
    let mut number: u64 = 1;
    let mut rest = source;
    let mut left = most;
    while !rest.is_empty() {
        let (line, more) = cut_line(rest);
        if left == 0 {
            return 0;
        }
        if name == cut_leading_word(line) {
            return number;
        }
        number += 1;
        left -= 1;
        rest = more;
    }
    0
}

/// The operation in the first line of a source that has a label.
fn label_operation(name: &[u8], source: &[u8]) -> Option<Op>
    ensures { result ≡ spec.label_operation name.now source.now }
{
    find(cut_leading_word(after_word(first_line(Likeness::Same, name, u32::MAX, source))))
}

/// Whether a name is a label of data.
pub(crate) fn is_data_label(name: &[u8], source: &[u8]) -> bool
    ensures { result ≡ spec.labels_data name.now source.now }
{
    match label_operation(name, source) {
        Some(Op::Pseudo(Pseudo::Byte | Pseudo::Wyde | Pseudo::Tetra | Pseudo::Octa)) => true,
        _ => false,
    }
}

/// Whether a name is a label of an instruction.
pub fn is_code_label(name: &[u8], source: &[u8]) -> bool
    ensures { result ≡ spec.labels_code name.now source.now }
{
    match label_operation(name, source) {
        Some(Op::Code(_) | Op::Lda | Op::Set) => true,
        _ => false,
    }
}

/// Whether a name is a label of this many lines of a source.
pub fn is_label(name: &[u8], most: u32, source: &[u8]) -> bool
    ensures { result ≡ spec.is_label name.now most (lines_of source.now) }
{
    find_similar_label(Likeness::Same, name, most, source).len() >= 1
}

/// The first word of a text that is like a name; no text where none is.
#[tactic(auto, using(crate::proofs::LabelTurns::words))]
fn first_word<'a>(name: &[u8], text: &'a [u8]) -> &'a [u8]
    ensures { result.now ≡ spec.first_word (length text.now) name.now text.now }
{
    let mut rest = text;
    let mut left = text.len();
    while left > 0 {
        if is_alike(name, cut_leading_word(rest)) {
            return cut_leading_word(rest);
        }
        rest = after_word(rest);
        left -= 1;
    }
    &[]
}

/// The first name that MMIXAL defines which is like a name; no text where none is.
#[tactic(auto, unfolding(crate::specs::Labels::known_names))]
pub fn find_similar_name(name: &[u8]) -> &'static [u8]
    ensures { result.now ≡ spec.first_word (length spec.known_names) name.now spec.known_names }
{
    first_word(
        name,
        b"Data_Segment Pool_Segment Halt Fopen Fclose Fread Fgets Fwrite Fputs Fseek Ftell StdIn StdOut StdErr TextRead TextWrite BinaryRead BinaryWrite rA rB rC rD rE rF rG rH rI rJ rK rL rM rN rO rP rQ rR rS rT rU rV rW rX rY rZ rBB rTT rWW rXX rYY rZZ",
    )
}

/// The first operation that is like a name; no text where none is.
#[tactic(auto, unfolding(crate::specs::Labels::operation_names))]
pub fn find_similar_operation(name: &[u8]) -> &'static [u8]
    ensures { result.now ≡ spec.first_word (length spec.operation_names) name.now spec.operation_names }
{
    first_word(
        name,
        b"ADD SUB SET LDO STO JMP BYTE TRAP LOC GREG CMP BZ BNZ BP BN BNP BNN PBZ PBNZ PBP PBN PBNP PBNN GETA PUSHJ POP MUL DIV NEG LDB STB LDA IS WYDE TETRA OCTA AND OR XOR ANDN ORN NOR NAND NXOR SL SLU SR SRU ADDU SUBU MULU DIVU CMPU NEGU LDBU LDW LDWU LDT LDTU LDOU STBU STW STWU STT STTU STOU 2ADDU 4ADDU 8ADDU 16ADDU SETL SETML SETMH SETH INCL INCML INCMH INCH ORL ORML ORMH ORH ANDNL ANDNML ANDNMH ANDNH CSZ CSNZ CSP CSN CSNP CSNN CSOD CSEV ZSZ ZSNZ ZSP ZSN ZSNP ZSNN ZSOD ZSEV BOD BEV PBOD PBEV GO PUSHGO GET PUT SAVE UNSAVE RESUME TRIP SWYM SYNC PREFIX LOCAL BDIF WDIF TDIF ODIF MUX SADD MOR MXOR LDHT STHT STCO LDUNC STUNC CSWAP PRELD PREST PREGO SYNCD SYNCID LDVTS",
    )
}
