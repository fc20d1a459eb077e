//! What programs write, and values.

use mx_book::Book;
use mx_tell::{add_output, add_value};
use mx_text::Form;
use mx_word::Bytes;
use std::alloc::Global;

/// What a program wrote, and how it is shown: UTF-8 as it is; other bytes, control characters, and characters that are cut off by their
/// numbers.
static WRITTEN: [(&[u8], &str); 8] = [
    (b"", ""),
    (b"a\tb\n", "a\tb\n"),
    (b"a", "a\n"),
    (b"\xc3\xa4", "\u{e4}\n"),
    (b"\xff\xc3\n", "\\xff\\xc3\n"),
    (b"\x1b[1m\x00\x7f", "\\x1b[1m\\x00\\x7f\n"),
    (b"\xf0\x9f\x98\x80\xf0\x9f", "\u{1f600}\\xf0\\x9f\n"),
    (b"\"\\\n", "\"\\\n"),
];

/// A value, the form that is asked for, and how it is shown: where no form is, in 12 decimal digits at most.
static VALUES: [(u64, Option<Form>, &str); 8] = [
    (0, None, "0"),
    (0u64.wrapping_sub(7), None, "-7"),
    (999_999_999_999, None, "999999999999"),
    (1_000_000_000_000, None, "#e8d4a51000"),
    (0x2000_0000_0000_0005, None, "#2000000000000005 <Text+5>"),
    (16, Some(Form::Hex), "#0000000000000010"),
    (1 << 63, Some(Form::Decimal), "-9223372036854775808"),
    (0x4100_0000_0000_007e, Some(Form::Chars), "\"A......~\""),
];

/// The first row of output that is shown otherwise.
fn wrong_output(alloc: Global) -> Option<usize> {
    for (number, (bytes, due)) in WRITTEN.iter().enumerate() {
        let mut text = Bytes::new(alloc);
        if add_output(&mut text, bytes).is_err() || text.as_slice() != due.as_bytes() {
            return Some(number);
        }
    }
    None
}

/// The first value that is shown otherwise.
pub fn wrong_value(alloc: Global, book: &Book) -> Option<usize> {
    for (number, (value, form, due)) in VALUES.iter().enumerate() {
        let mut text = Bytes::new(alloc);
        let shown = add_value(&mut text, book, *value, *form);
        if shown.is_err() || text.as_slice() != due.as_bytes() {
            return Some(number);
        }
    }
    None
}

#[test]
fn output_is_shown(rt: HostRuntime) {
    assert_eq!(rt; wrong_output(rt.alloc()), None);
}
