//! What words mean.

ghost use Rattle.std.specs.Prelude.{◌≡◌, IfOk};
ghost use Rattle.face_explain.specs.Answers.{answer};
ghost use Rattle.mx_hover.specs.Meanings as spec;

use face_explain::{Answer, explain};
use mx_word::{Bytes, NoMemory};
use std::alloc::Global;

/// What is said of a word, or no text.
fn explain_word(alloc: Global, word: &str) -> Result<Bytes, NoMemory>
    ensures { IfOk result (λ text. text ≡ spec.text_of (answer word.now)) }
{
    match explain(alloc, word)? {
        Answer::Explained(text) => Ok(text),
        Answer::Unknown(_) => Ok(Bytes::new(alloc)),
    }
}

/// What a word means, or no text.
pub(crate) fn meaning(alloc: Global, word: &[u8]) -> Result<Bytes, NoMemory>
    ensures { IfOk result (λ text. text ≡ spec.meaning word.now) }
{
    match str::from_utf8(word) {
        Ok(word) => explain_word(alloc, word),
        Err(_) => Ok(Bytes::new(alloc)),
    }
}
