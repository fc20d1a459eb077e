//! Runs of bytes of a kind (MMIXAL, format of lines: MMIXware, LNCS 1750).

ghost use Rattle.std.specs.Prelude.{◌≡◌, ◌+◌, length};
ghost use Rattle.mx_line.specs.Bytes as spec;

use mx_word::is_name_byte;

pub fn is_blank(b: u8) -> bool
    ensures { result ≡ spec.is_blank b }
{
    b == b'\t' || b == 11 || b == 12 || b == b'\r' || b == b' '
}

fn blank_count(text: &[u8]) -> usize
    ensures { result ≡ length (spec.run spec.is_blank text.now) }
{
    text.iter().take_while(|b| is_blank(**b)).count()
}

fn word_count(text: &[u8]) -> usize
    ensures { result ≡ length (spec.run spec.is_name_byte text.now) }
{
    text.iter().take_while(|b| is_name_byte(**b)).count()
}

/// The blanks at the front of a text, and what follows them.
#[tactic(auto, using(crate::proofs::KindLemmas::runs))]
pub fn split_blanks(text: &[u8]) -> (&[u8], &[u8])
    ensures front { result.0.now ≡ spec.run spec.is_blank text.now }
    ensures rest { result.1.now ≡ spec.past spec.is_blank text.now }
    ensures whole { length result.0.now + length result.1.now ≡ length text.now }
{
    text.split_at(blank_count(text))
}

/// The letters and digits at the front of a text, and what follows them.
#[tactic(auto, using(crate::proofs::KindLemmas::runs))]
pub fn split_word(text: &[u8]) -> (&[u8], &[u8])
    ensures front { result.0.now ≡ spec.run spec.is_name_byte text.now }
    ensures rest { result.1.now ≡ spec.past spec.is_name_byte text.now }
    ensures whole { length result.0.now + length result.1.now ≡ length text.now }
{
    text.split_at(word_count(text))
}
