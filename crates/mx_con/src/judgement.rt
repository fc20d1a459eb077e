//! Which commands are bad, and why.

ghost use Rattle.std.specs.Prelude.{◌≡◌, ◌≤◌, IfNone, Some};
ghost use Rattle.mx_core.specs.Kept.{state_of};
ghost use Rattle.mx_con.specs.Judgement as spec;
ghost use Rattle.mx_show.specs.Subjects.{IsSound};

use mx_cmd::Subject;
use mx_core::Machine;
use mx_word::STACK_SEGMENT;

/// Why a line is bad: it is no command; a number is out of range; there is no such register; an address
/// is out of range; no octa was shown, or the last address is passed; or the change is refused.
#[derive(Clone, Copy)]
pub enum Bad {
    UnknownCommand,
    BadNumber,
    NoSuchRegister,
    BadAddress,
    NoMemoryShown,
    CannotChange,
}

impl Bad {
    /// The line that prints it.
    pub(crate) fn message(self) -> &'static str
        ensures { result.now ≡ spec.bad_text self }
    {
        match self {
            Bad::UnknownCommand => "? unknown command",
            Bad::BadNumber => "? bad number",
            Bad::NoSuchRegister => "? no such register",
            Bad::BadAddress => "? bad address",
            Bad::NoMemoryShown => "? no memory shown yet",
            Bad::CannotChange => "? cannot change",
        }
    }
}

/// Why a line that shows or changes a subject is bad.
#[tactic(auto, using(crate::proofs::SoundSubjects::sounding))]
pub(crate) fn subject_bad(machine: &Machine, subject: Subject) -> Option<Bad>
    ensures value { result ≡ spec.subject_bad (state_of machine.now) subject }
    ensures sound { IfNone result (IsSound subject) }
{
    if is_number_bad(subject) {
        return Some(Bad::BadNumber);
    }
    if is_register_bad(machine, subject) {
        return Some(Bad::NoSuchRegister);
    }
    if is_address_bad(subject) {
        return Some(Bad::BadAddress);
    }
    None
}

fn is_number_bad(subject: Subject) -> bool
    ensures { result ≡ spec.number_bad subject }
{
    match subject {
        Subject::Register(n) | Subject::Global(n) => n.is_none(),
        Subject::Special(_) | Subject::Memory(_) => false,
    }
}

fn is_register_bad(machine: &Machine, subject: Subject) -> bool
    ensures { result ≡ spec.register_bad (state_of machine.now) subject }
{
    match subject {
        Subject::Register(n) => is_outside(0, 255, n),
        Subject::Global(n) => is_outside(u64::from(machine.g()), 255, n),
        Subject::Special(None) => true,
        Subject::Special(Some(code)) => 31 < code,
        Subject::Memory(_) => false,
    }
}

/// Whether a number lies outside a range.
fn is_outside(least: u64, most: u64, n: Option<u64>) -> bool
    ensures { result ≡ spec.is_outside least most n }
{
    match n {
        Some(n) => n < least || most < n,
        None => false,
    }
}

fn is_address_bad(subject: Subject) -> bool
    ensures { result ≡ spec.address_bad subject }
{
    match subject {
        Subject::Register(_) | Subject::Global(_) | Subject::Special(_) => false,
        Subject::Memory(a) => 1 << 63 <= a,
    }
}

/// Why a line on the n octas after one is bad.
pub(crate) fn more_bad(shown: Option<u64>, n: u64) -> Option<Bad>
    ensures { result ≡ spec.more_bad shown (Some n) }
{
    if n == 0 || 100 < n {
        return Some(Bad::BadNumber);
    }
    if is_past_memory(shown, n) {
        return Some(Bad::NoMemoryShown);
    }
    None
}

/// Whether n octas after one that was shown go past the last address.
fn is_past_memory(shown: Option<u64>, n: u64) -> bool
    requires { n ≤ 100 }
    ensures { result ≡ spec.past_memory shown n }
{
    match shown {
        Some(a) => (1 << 63) - 8 < u128::from(a) + 8 * u128::from(n),
        None => true,
    }
}

/// Why a line on an instruction's address is bad.
pub(crate) fn go_to_bad(a: u64) -> Option<Bad>
    ensures { result ≡ spec.go_to_bad a }
{
    if 1 << 63 <= a {
        Some(Bad::BadAddress)
    } else {
        None
    }
}

/// Why a line on the flags of a tetra is bad.
pub(crate) fn flag_bad(a: u64) -> Option<Bad>
    ensures { result ≡ spec.flag_bad a }
{
    if STACK_SEGMENT <= a {
        Some(Bad::BadAddress)
    } else {
        None
    }
}
