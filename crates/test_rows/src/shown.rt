//! Runs on rings of three sizes: how a program ends, and lines of its dump.

use crate::rows::{Due, comes_from, file, host, outcome_over};
use mx_top::Outcome;
use std::alloc::Global;
use std::test::Fail;

/// How a program ends: with a status, or at an address for a reason.
#[derive(Clone, Copy)]
pub enum End {
    Done(u8),
    Stop(u64, u16),
}

/// A source, how its program ends, and lines of its dump.
pub type Row = (&'static str, End, &'static [&'static str]);

/// The sizes of rings on which each row is tried.
pub const SIZES: [&str; 3] = ["256", "512", "1024"];

fn outcome(end: End) -> Outcome {
    match end {
        End::Done(status) => Outcome::Done(status),
        End::Stop(pc, reason) => Outcome::Stopped { pc, reason },
    }
}

/// Whether `run hello.mms` comes to what is due of a source on each ring.
pub fn is_run_to(alloc: Global, source: &str, due: Due) -> Result<bool, Fail> {
    let given = file("hello.mms", source.as_bytes());
    let mut is_due = true;
    for ring in SIZES {
        is_due = is_due && comes_from(alloc, given, &["run", "--ring", ring, "hello.mms"], due)?;
    }
    Ok(is_due)
}

/// Whether `run --dump` of a source ends so on each ring, and its dump has these lines.
pub fn shows(alloc: Global, source: &str, end: End, lines: &[&str]) -> Result<bool, Fail> {
    let mut is_shown = true;
    for ring in SIZES {
        is_shown = is_shown && shows_on(alloc, ring, source, end, lines)?;
    }
    Ok(is_shown)
}

/// The source of the first row that does not end and dump as it says, if there is one. Each source follows the
/// same text.
pub fn find_mismatch(
    alloc: Global,
    before: &str,
    rows: &[Row],
) -> Result<Option<&'static str>, Fail> {
    for (source, end, lines) in rows {
        let mut whole = String::from_str(alloc, before)?;
        whole.push_str(source)?;
        if !shows(alloc, whole.as_str(), *end, lines)? {
            return Ok(Some(*source));
        }
    }
    Ok(None)
}

/// Whether `run --dump` of a source ends so on a ring of this size, and its dump has these lines.
pub fn shows_on(
    alloc: Global,
    ring: &str,
    source: &str,
    end: End,
    lines: &[&str],
) -> Result<bool, Fail> {
    let mut host = host(alloc, file("a.mms", source.as_bytes()))?;
    let words = &["run", "--dump", "--ring", ring, "a.mms"];
    let ended = outcome_over(alloc, &mut host, words)?;
    Ok(ended == outcome(end) && has_all_lines(host.output(), lines))
}

/// Whether all these lines are in a text.
pub fn has_all_lines(text: &[u8], lines: &[&str]) -> bool {
    for line in lines {
        if !has_part(text, line.as_bytes()) {
            return false;
        }
    }
    true
}

/// Whether a part is in a text.
pub fn has_part(text: &[u8], part: &[u8]) -> bool {
    for at in 0..text.len() {
        if text[at..].starts_with(part) {
            return true;
        }
    }
    false
}
