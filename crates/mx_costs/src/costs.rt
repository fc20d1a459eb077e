//! What instructions cost.

ghost use Rattle.std.specs.Prelude.{◌≡◌};
ghost use Rattle.mx_costs.specs.Costs as spec;

/// The υ of a branch, which may be taken.
fn branch_oops(taken: bool) -> u64
    ensures { result ≡ spec.branch_oops taken }
{
    if taken { 3 } else { 1 }
}

/// The υ of a probable branch, which may be taken.
fn probable_oops(taken: bool) -> u64
    ensures { result ≡ spec.probable_oops taken }
{
    if taken { 1 } else { 3 }
}

/// The υ of an instruction, by its code and whether the step went away from the next address. (TAOCP 1, Fascicle 1,
/// Table 1.)
#[tactic(auto, unfolding(crate::specs::Costs::oops))]
pub fn oops(code: u8, away: bool) -> u64
    ensures { result ≡ spec.oops code away }
{
    match code {
        0x40..=0x4f => branch_oops(away),
        0x50..=0x5f => probable_oops(away),
        0x18..=0x1b => 10,
        0x1c..=0x1f => 60,
        0x94..=0x95 => 2,
        0x9e..=0x9f | 0xbe..=0xbf | 0xf8 => 3,
        0xf9 | 0x00 | 0xff => 5,
        _ => 1,
    }
}

/// The μ of an instruction, by its code. (TAOCP 1, Fascicle 1, Table 1.)
#[tactic(auto, unfolding(crate::specs::Costs::mems))]
pub fn mems(code: u8) -> u64
    ensures { result ≡ spec.mems code }
{
    match code {
        0x80..=0x93 | 0x96..=0x97 | 0xa0..=0xb7 => 1,
        0x94..=0x95 => 2,
        0xfa..=0xfb => 20,
        _ => 0,
    }
}
