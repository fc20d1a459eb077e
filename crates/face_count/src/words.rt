//! The words of `count`: `--json` if it is the first, and then those of `mmixware run`, but for the options that `count` has not.

ghost use Rattle.std.specs.Prelude.{◌≡◌, ◌<◌, ◌≤◌, IfOk, Ok, length, map, string_bytes};
ghost use Rattle.mx_words.specs.Orders.{order_of};
ghost use Rattle.face_count.specs.CountPages as spec;

use mx_word::NoMemory;
use mx_words::{Order, WordsFault, read};
use std::alloc::Global;

/// Whether a word is `--json`.
pub fn is_json_word(word: &String) -> bool
    ensures { result ≡ spec.is_json_word (string_bytes word.now) }
{
    word.as_str() == "--json"
}

/// The words with which `mmixware run` does the same run.
pub fn run_words(alloc: Global, words: &[String]) -> Result<Vec<String>, NoMemory>
    ensures { IfOk result (λ all. map string_bytes all.items ≡ spec.run_words (map string_bytes words.now)) }
{
    let mut all = Vec::new(alloc);
    all.push(String::from_str(alloc, "run")?)?;
    for word in words {
        all.push(String::from_str(alloc, word.as_str())?)?;
    }
    Ok(all)
}

/// The place of the first option in front of the file that `mmixware run` has and `count` has not.
fn other_option(words: &[String]) -> Option<usize> {
    let mut is_value = false;
    for (at, word) in words.iter().enumerate().skip(1) {
        if is_value {
            is_value = false;
            continue;
        }
        match word.as_str() {
            "--ring" | "--steps" => is_value = true,
            "-i" | "--dump" | "--report" | "--last" => return Some(at),
            _ => return None,
        }
    }
    None
}

/// The first fault of words that are no order of a run: an option that `count` has not is unknown to it, whatever follows.
fn first_fault(fault: WordsFault, unknown: usize) -> WordsFault {
    if unknown <= fault.word {
        return WordsFault {
            kind: 3,
            word: unknown,
        };
    }
    fault
}

/// What the words of a run order, if they have no option that `count` has not.
pub fn read_order(words: &[String]) -> Result<Order, WordsFault>
    ensures order { IfOk result (λ o. order_of (map string_bytes words.now) ≡ Ok o) }
    ensures places { IfOk result (λ o. (o.file < length words.now) × (o.rest ≤ length words.now)) }
{
    let Some(unknown) = other_option(words) else {
        return read(words);
    };
    match read(words) {
        Ok(_) => Err(WordsFault {
            kind: 3,
            word: unknown,
        }),
        Err(fault) => Err(first_fault(fault, unknown)),
    }
}
