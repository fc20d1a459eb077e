//! What an editor is told of a place.

use mx_word::{Bytes, Sequence};

/// Whether the source is refused for it.
#[derive(Clone, Copy, Debug, PartialEq, Eq)]
pub enum Severity {
    Error,
    Warning,
}

/// What an editor is told: the number of a line, counted from 1, and its text; the bytes of it that are marked; how severe it is; a
/// short name; and what is wrong.
#[derive(Drop)]
pub struct Diagnostic {
    pub number: u32,
    pub line: Bytes,
    pub from: usize,
    pub to: usize,
    pub severity: Severity,
    pub code: Bytes,
    pub message: Bytes,
}

/// A list of what an editor is told.
pub type Diagnostics = Sequence<Diagnostic>;
