//! The form in which faults are told.

ghost use Rattle.std.specs.Prelude.{◌≡◌};
ghost use Rattle.face_check.specs.CheckPages as spec;

/// The form in which faults are told.
#[derive(Clone, Copy)]
pub enum Form {
    /// Each with its line and a caret, for people.
    Text,
    /// A line of JSON.
    Json,
    /// A line for each, as compilers write them for editors.
    Gnu,
}

/// The next number, where there is one.
#[tactic(auto, unfolding(crate::specs::CheckPages::next))]
pub fn next(n: u64) -> u64
    ensures { result ≡ spec.next n }
{
    if n < u64::MAX { n + 1 } else { n }
}
