//! What is said of an operation that MMIX does not have.

ghost use Rattle.std.specs.Prelude.{◌≡◌, map};
ghost use Rattle.std.specs.List.{find};
ghost use Rattle.std.specs.Option.{option_map};
ghost use Rattle.std.specs.Str.{str_eq_ignore_ascii_case};
ghost use Rattle.mx_foreign.specs.Foreign as spec;

use crate::table::{FOREIGN, Row};

/// Whether a row has this name; upper and lower case do not matter.
fn has_name(row: &Row, name: &[u8]) -> bool
    ensures { result ≡ str_eq_ignore_ascii_case name.now row.now.0.now }
{
    name.eq_ignore_ascii_case(row.0.as_bytes())
}

/// The first of rows that has this name.
fn row_of<'a>(rows: &'a [Row], name: &[u8]) -> Option<&'a Row>
    ensures { option_map (λ row. row.now) result ≡ find (λ row. str_eq_ignore_ascii_case name.now row.0.now) rows.now }
{
    rows.iter().find(|row| has_name(row, name))
}

/// The sentence of the first of rows that has this name; no text where none has it.
#[tactic(auto, using(crate::proofs::Rows::rows))]
fn advice_in(rows: &[Row], name: &[u8]) -> &'static str
    ensures { result.now ≡ spec.advice_in name.now (map (λ row. (row.0.now, row.1.now)) rows.now) }
{
    match row_of(rows, name) {
        Some(row) => row.1,
        None => "",
    }
}

/// What MMIX has in place of an operation of other machines; no text for any other name. Upper and lower case do not matter.
#[tactic(auto, unfolding(crate::specs::Foreign::advice_of, crate::specs::Foreign::foreign))]
pub fn advice_on(name: &[u8]) -> &'static str
    ensures { result.now ≡ spec.advice_of name.now }
{
    advice_in(&FOREIGN, name)
}
