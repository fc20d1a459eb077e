//! What is said of Main, of @, and of local labels.

ghost use Rattle.std.specs.Prelude.{◌≡◌};
ghost use Rattle.face_explain.specs.Notations as spec;

use mx_word::is_digit;

/// Whether a word is the label where a program starts.
fn is_main(word: &[u8]) -> bool
    ensures { result ≡ spec.is_main word.now }
{
    word == b"Main".as_slice() || word == b"main".as_slice()
}

/// Whether a word is a local label.
fn is_local(word: &[u8]) -> bool
    ensures { result ≡ spec.is_local word.now }
{
    match word {
        [d, b] => is_digit(*d) && (*b == b'B' || *b == b'F' || *b == b'H'),
        _ => false,
    }
}

/// What is said of Main.
#[tactic(auto, unfolding(crate::specs::Notations::main_says))]
fn main_says() -> &'static str
    ensures { result.now ≡ spec.main_says }
{
    "A program starts at the label Main. It is written in the first column, in\n  front of the first instruction that runs, with a capital and without a colon.\n  Under a PREFIX it is :Main."
}

/// What is said of @.
#[tactic(auto, unfolding(crate::specs::Notations::here_says))]
fn here_says() -> &'static str
    ensures { result.now ≡ spec.here_says }
{
    "The address of the statement in which it is, where its first byte is placed.\n  LOC changes it: LOC #100. GREG @ in front of data makes a base for them."
}

/// What is said of a local label.
#[tactic(auto, unfolding(crate::specs::Notations::local_says))]
fn local_says() -> &'static str
    ensures { result.now ≡ spec.local_says }
{
    "A local label. 1H in front of a statement labels it, with any digit for 1,\n  and may be there again and again. 1F in an operand is the next 1H after the\n  statement, and 1B the last one before it."
}

/// What is said of a word that is a part of the language and no row of the table; no text of another word.
#[tactic(auto, unfolding(crate::specs::Notations::notation_of))]
pub(crate) fn notation_on(word: &[u8]) -> &'static str
    ensures { result.now ≡ spec.notation_of word.now }
{
    if is_main(word) {
        main_says()
    } else if word == b"@".as_slice() {
        here_says()
    } else if is_local(word) {
        local_says()
    } else {
        ""
    }
}
