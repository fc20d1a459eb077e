//! Names that are looked up.

ghost use Rattle.std.specs.Prelude.{◌≡◌, option_copied};
ghost use Rattle.std.specs.List.{find};
ghost use Rattle.mx_occurrences.specs.Occurrences as spec;

use crate::occurrence::{Named, Occurrence, is_same};

/// Whether a name reaches to a place of the line with this number.
fn reaches(line: u32, place: usize, o: &Occurrence) -> bool
    ensures { result ≡ spec.reaches line place o.now }
{
    o.line == line && o.from <= place && place - o.from <= o.text.as_slice().len()
}

/// The name at a place of the line with this number, or right before it.
pub fn occurrence_at(names: &[Occurrence], line: u32, place: usize) -> Option<&Occurrence>
    ensures { option_copied result ≡ spec.occurrence_at names.now line place }
{
    names.iter().find(|o| reaches(line, place, o))
}

/// Whether this is a label that names the same.
fn defines(named: &Named, o: &Occurrence) -> bool
    ensures { result ≡ spec.defines named.now o.now }
{
    o.is_label && is_same(named, &o.named)
}

/// The label that names the same, if there is one.
pub fn definition_of<'a>(names: &'a [Occurrence], named: &Named) -> Option<&'a Occurrence>
    ensures { option_copied result ≡ spec.definition_of names.now named.now }
{
    names.iter().find(|o| defines(named, o))
}

/// Whether a name names this.
pub fn same_named(named: &Named, o: &Occurrence) -> bool
    ensures { result ≡ spec.is_same named.now o.now.named }
{
    is_same(named, &o.named)
}
