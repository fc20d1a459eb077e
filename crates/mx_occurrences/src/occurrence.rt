//! A name in its place.

ghost use Rattle.std.specs.Prelude.{◌≡◌, IfOk};
ghost use Rattle.mx_occurrences.specs.Occurrences as spec;

use mx_word::{Bytes, NoMemory, Sequence};
use std::alloc::Global;

/// What a name names: a symbol, by its complete name; or a local label by its digit and how often this digit has been a label up to it,
/// which is 0 where there is none.
#[derive(Drop)]
pub enum Named {
    Symbol(Bytes),
    Local(u8, u64),
}

/// A name in its place: the number of its line, how many bytes of the line are before it, its bytes, whether it is a label, and what it
/// names.
#[derive(Drop)]
pub struct Occurrence {
    pub line: u32,
    pub from: usize,
    pub text: Bytes,
    pub is_label: bool,
    pub named: Named,
}

/// A list of names in their places.
pub type Occurrences = Sequence<Occurrence>;

/// Whether two things that are named are one.
pub(crate) fn is_same(one: &Named, other: &Named) -> bool
    ensures { result ≡ spec.is_same one.now other.now }
{
    match (one, other) {
        (Named::Symbol(name), Named::Symbol(full)) => name.as_slice() == full.as_slice(),
        (Named::Local(d, n), Named::Local(e, m)) => *d == *e && *n == *m,
        _ => false,
    }
}

/// A name at a place of a line with this number.
pub(crate) fn make_occurrence(
    alloc: Global,
    line: u32,
    from: usize,
    text: &[u8],
    is_label: bool,
    named: Named,
) -> Result<Occurrence, NoMemory>
    ensures { IfOk result (λ o. o ≡ spec.occurrence line from text.now is_label named) }
{
    let text = Bytes::copy(alloc, text)?;
    Ok(Occurrence {
        line,
        from,
        text,
        is_label,
        named,
    })
}
