//! The lines that print a break and the flags of a tetra, without their ends.

ghost use Rattle.std.specs.Prelude.{◌≡◌, ◌++◌, ◌<◌, IfOk, OnOk};
ghost use Rattle.mx_con.specs.ConsoleTexts as spec;

use mx_run::{BreakKind, Flags};
use mx_text::octa_hex;
use mx_word::{Bytes, NoMemory};
use std::alloc::Global;

/// The line of a break.
#[tactic(auto, unfolding(crate::specs::ConsoleTexts::break_text))]
pub(crate) fn break_line(alloc: Global, kind: BreakKind, at: u64) -> Result<Bytes, NoMemory>
    ensures { IfOk result (λ text. text ≡ spec.break_text kind at) }
{
    let mut text = Bytes::copy(alloc, break_words(kind))?;
    text.extend(&octa_hex(at))?;
    Ok(text)
}

fn break_words(kind: BreakKind) -> &'static [u8]
    ensures { result.now ≡ spec.break_words kind }
{
    match kind {
        BreakKind::Read => b"break r ",
        BreakKind::Write => b"break w ",
        BreakKind::Execute => b"break x ",
    }
}

/// The line of a tetra with flags.
#[tactic(auto, unfolding(crate::specs::ConsoleTexts::flag_text))]
pub(crate) fn flag_line(alloc: Global, a: u64, flags: Flags) -> Result<Bytes, NoMemory>
    ensures { IfOk result (λ text. text ≡ spec.flag_text a flags) }
{
    let mut text = Bytes::copy(alloc, &octa_hex(a))?;
    text.push(b' ')?;
    add_letters(&mut text, flags)?;
    Ok(text)
}

/// Adds the letters of the flags that are set.
fn add_letters(text: &mut Bytes, flags: Flags) -> Result<(), NoMemory>
    ensures { OnOk result (text.new ≡ text.old ++ spec.letters_of flags) }
{
    add_letter(text, flags.r, b'r')?;
    add_letter(text, flags.w, b'w')?;
    add_letter(text, flags.x, b'x')?;
    add_letter(text, flags.t, b't')
}

fn add_letter(text: &mut Bytes, set: bool, letter: u8) -> Result<(), NoMemory>
    ensures { OnOk result (text.new ≡ text.old ++ spec.letter_if set letter) }
{
    if set { text.push(letter) } else { Ok(()) }
}
