//! How a line is cut into its parts.

ghost use Rattle.std.specs.Prelude.{◌≡◌, length};
ghost use Rattle.mx_cmd.specs.Numerals.{front, past};
ghost use Rattle.mx_ask.specs.Lines as spec;

/// Whether a byte is a blank or a tab.
fn is_blank(b: u8) -> bool
    ensures { result ≡ spec.is_blank b }
{
    b == b' ' || b == b'\t'
}

/// Whether a byte is neither a blank nor a tab.
fn is_ink(b: u8) -> bool
    ensures { result ≡ spec.is_ink b }
{
    !is_blank(b)
}

/// Whether a byte is no stroke.
fn is_no_stroke(b: u8) -> bool
    ensures { result ≡ spec.is_no_stroke b }
{
    b != b'/'
}

fn ink_count(text: &[u8]) -> usize
    ensures { result ≡ length (front spec.is_ink text.now) }
{
    text.iter().take_while(|b| is_ink(**b)).count()
}

fn blank_count(text: &[u8]) -> usize
    ensures { result ≡ length (front spec.is_blank text.now) }
{
    text.iter().take_while(|b| is_blank(**b)).count()
}

fn name_count(text: &[u8]) -> usize
    ensures { result ≡ length (front spec.is_no_stroke text.now) }
{
    text.iter().take_while(|b| is_no_stroke(**b)).count()
}

/// What follows the blanks at the front of a text.
#[tactic(auto, using(mx_cmd::proofs::Fronts::fronts))]
fn without_blanks(text: &[u8]) -> &[u8]
    ensures { result.now ≡ spec.without_blanks text.now }
{
    text.split_at(blank_count(text)).1
}

/// The word at the front of a text, and what follows it.
#[tactic(auto, using(mx_cmd::proofs::Fronts::fronts))]
fn ink(text: &[u8]) -> (&[u8], &[u8])
    ensures front { result.0.now ≡ front spec.is_ink text.now }
    ensures rest { result.1.now ≡ past spec.is_ink text.now }
{
    text.split_at(ink_count(text))
}

/// The first word of a text, and what follows it after blanks.
#[tactic(auto, unfolding(crate::specs::Lines::first_word, crate::specs::Lines::after_word))]
pub fn cut_word(text: &[u8]) -> (&[u8], &[u8])
    ensures word { result.0.now ≡ spec.first_word text.now }
    ensures rest { result.1.now ≡ spec.after_word text.now }
{
    let (word, rest) = ink(without_blanks(text));
    (word, without_blanks(rest))
}

/// The name in a word and the letters after a stroke, as those of `print/x`.
#[tactic(auto, using(mx_cmd::proofs::Fronts::fronts))]
pub fn cut_form(word: &[u8]) -> (&[u8], &[u8])
    ensures name { result.0.now ≡ spec.name_in word.now }
    ensures form { result.1.now ≡ spec.form_in word.now }
{
    word.split_at(name_count(word))
}

/// A text without blanks, tabs and returns at its end.
pub fn trim_end(text: &[u8]) -> &[u8]
    ensures { result.now ≡ spec.trimmed text.now }
{
    text.trim_ascii_end()
}
