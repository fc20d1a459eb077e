//! Addresses.

ghost use Rattle.std.specs.Prelude.{◌≡◌};
ghost use Rattle.mx_face.specs.Pages.{FaultsOnlyBy, Shows, remarked};
ghost use Rattle.face_source.specs.SourcePages as spec;

use mx_face::add_remark;
use mx_host::Host;
use mx_outcome::Outcome;
use mx_words::WordsFault;

/// An address: `#` and hexadecimal digits, or decimal digits. It has no sign.
pub fn read_address(text: &str) -> Option<u64> {
    let (digits, base) = match text.strip_prefix('#') {
        Some(digits) => (digits, 16),
        None => (text, 10),
    };
    if digits.starts_with('+') {
        return None;
    }
    u64::from_str_radix(digits, base).ok()
}

/// Says on standard error what an address is, and answers that the words are at fault.
#[tactic(auto, unfolding(crate::specs::SourcePages::address_refused))]
pub fn refuse_address<H: Host>(host: &mut H) -> Outcome
    ensures told { Shows H.told host.old host.new result (λ m. remarked spec.no_address spec.address_refused m) }
    ensures causes { FaultsOnlyBy H.told H.faults host.old host.new result }
{
    let fault = WordsFault { kind: 5, word: 1 };
    add_remark(
        host,
        Outcome::Usage(fault),
        b"error: an address is # and hexadecimal digits, or decimal digits\n",
    )
}
