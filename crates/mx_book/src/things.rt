//! What is shown, watched and compared.

ghost use Rattle.std.specs.Prelude.{◌≡◌};
ghost use Rattle.mx_book.specs.Things as spec;

use mx_cmd::Subject;
use mx_word::Value;

/// What has a value: a register, a special register by its code, the octa that holds an address, or a number.
#[derive(Clone, Copy)]
pub enum Thing {
    Register(u8),
    Special(u8),
    Octa(u64),
    Number(u64),
}

/// What a symbol with this value means.
pub(crate) fn thing_with(value: Value) -> Thing
    ensures { result ≡ spec.thing_with value }
{
    match value {
        Value::Pure(x) => Thing::Number(x),
        Value::Reg(k) => Thing::Register(k),
    }
}

/// The register with this number, if there is one.
fn register(number: Option<u64>) -> Option<Thing>
    ensures { result ≡ spec.register number }
{
    match number {
        Some(k) if k < 256 => Some(Thing::Register(k as u8)),
        _ => None,
    }
}

/// What a written place is; nothing where there is no such register.
pub fn thing_of_subject(subject: Subject) -> Option<Thing>
    ensures { result ≡ spec.thing_of subject }
{
    match subject {
        Subject::Register(number) | Subject::Global(number) => register(number),
        Subject::Special(Some(code)) => Some(Thing::Special(code)),
        Subject::Special(None) => None,
        Subject::Memory(a) => Some(Thing::Octa(a)),
    }
}
