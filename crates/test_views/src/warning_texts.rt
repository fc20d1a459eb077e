//! Warnings as a text, to the last byte.

use mx_warn::warnings_text;
use mx_word::{Bytes, NoMemory};

/// A tab and a character of two bytes in front of a caret, and another line that a warning is about.
static SOURCE: &[u8] = b"f\xc3\xbc\tJMP 1B
Main JMP Loop
loop SWYM 0
";

static TOLD: &[u8] = b"line 1: warning 3 NoLabelBefore
    f\xc3\xbc\tJMP 1B
      \t    ^
    no such local label comes before, so this is 0; 1F means the next 1H, and for this line itself write JMP @
line 3: warning 8 OtherCase
    loop SWYM 0
    ^
    this label is never used, and a name that differs in the case of letters alone is not defined; write both alike (line 2)
";

/// Whether this is the text.
fn is_text(told: Result<Bytes, NoMemory>, text: &[u8]) -> bool {
    match told {
        Ok(told) => told.as_slice() == text,
        Err(_) => false,
    }
}

#[test]
fn warnings_with_carets(rt: HostRuntime) {
    assert!(rt; is_text(warnings_text(rt.alloc(), SOURCE), TOLD));
}

#[test]
fn no_warnings(rt: HostRuntime) {
    assert!(rt; is_text(warnings_text(rt.alloc(), b"Main SWYM 0\n"), b""));
}
