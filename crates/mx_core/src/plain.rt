//! What MULU, DIV and DIVU give where nothing is unusual about it.

ghost use Rattle.std.specs.Prelude.{◌≡◌, None, IfSome};
ghost use Rattle.mx_alu.specs.Alu as spec;
ghost use Rattle.mx_alu.specs.Arithmetic as rows;

use mx_alu::{Answer, Extra};

/// What MULU gives; what DIV gives of numbers that are not negative, and DIVU of rD 0, where the divisor is not 0. Nothing
/// in other cases and for other codes. Each caller has its own, by a number, so that it is inlined there.
#[tactic(auto, using(crate::proofs::Results::Quotients::coded))]
#[inline(always)]
pub(crate) fn plain_answer<const CALLER: usize>(
    code: u8,
    y: u64,
    z: u64,
    extra: Extra,
) -> Option<Answer>
    ensures answer { IfSome result (λ a. a ≡ spec.alu code y z extra) }
    ensures event { IfSome result (λ a. a.event ≡ None) }
{
    match code {
        0x1a => Some(whole(y, z)),
        0x1b => Some(whole(y, z)),
        0x1c => signed(y, z),
        0x1d => signed(y, z),
        0x1e => long(extra.d, y, z),
        0x1f => long(extra.d, y, z),
        _ => None,
    }
}

/// The low half of a product, with the high half in rH.
#[inline(always)]
fn whole(y: u64, z: u64) -> Answer
    ensures answer { result ≡ rows.whole_product y z }
    ensures event { result.event ≡ None }
{
    let product = u128::from(y) * u128::from(z);
    Answer {
        x: (product & 0xffff_ffff_ffff_ffff) as u64,
        h: Some((product >> 64) as u64),
        r: None,
        event: None,
    }
}

/// A quotient of two numbers that are not negative, with the remainder in rR, where the divisor is not 0.
#[tactic(auto, using(crate::proofs::Results::Quotients::plain))]
#[inline(always)]
fn signed(y: u64, z: u64) -> Option<Answer>
    ensures answer { IfSome result (λ a. a ≡ rows.signed_quotient y z) }
    ensures event { IfSome result (λ a. a.event ≡ None) }
{
    if z == 0 || y >= 1 << 63 || z >= 1 << 63 {
        return None;
    }
    Some(Answer {
        x: y / z,
        h: None,
        r: Some(y % z),
        event: None,
    })
}

/// A quotient, with the remainder in rR, where rD is 0 and the divisor is not.
#[tactic(auto, using(crate::proofs::Results::Quotients::plain))]
#[inline(always)]
fn long(d: u64, y: u64, z: u64) -> Option<Answer>
    ensures answer { IfSome result (λ a. a ≡ rows.long_quotient d y z) }
    ensures event { IfSome result (λ a. a.event ≡ None) }
{
    if z == 0 || d != 0 {
        return None;
    }
    Some(Answer {
        x: y / z,
        h: None,
        r: Some(y % z),
        event: None,
    })
}
