//! The tetras that an item joins to memory.

ghost use Rattle.std.specs.Prelude.{◌≡◌, ◌≤◌, OnOk};
ghost use Rattle.mx_mmo.specs.Meaning as meaning;
ghost use Rattle.mx_mmo.specs.Valid.{Fits};
ghost use Rattle.mx_type.specs.Lambda as lambdas;
ghost use Rattle.mx_type.specs.Lines as lines;
ghost use Rattle.mx_object.specs.Addresses as spec;

use crate::addresses::Addresses;
use mx_mmo::Item;
use mx_word::NoMemory;

/// The address of the tetra that holds an address.
pub(crate) fn tetra_address(a: u64) -> u64
    ensures { result ≡ lines.tetra_address a }
{
    4 * (a / 4)
}

/// Lambda after an item, where it was an address before it.
pub(crate) fn lambda_after(lambda: u64, item: &Item) -> u64
    ensures { result ≡ lambdas.lambda_after lambda item.now }
{
    match item {
        Item::Load(_) => tetra_address(lambda).wrapping_add(4),
        Item::Loc(a) => *a,
        Item::Skip(n) => lambda.wrapping_add(u64::from(*n)),
        _ => lambda,
    }
}

/// The address this many tetras before another.
fn tetras_before(n: u32, a: u64) -> u64
    ensures { result ≡ meaning.tetras_before n a }
{
    a.wrapping_sub(4 * u64::from(n))
}

/// The address this many tetras after another.
fn tetras_after(n: u32, a: u64) -> u64
    ensures { result ≡ meaning.tetras_following n a }
{
    a.wrapping_add(4 * u64::from(n))
}

/// The address where a far fix joins its tetra.
fn far_place(a: u64, bits: u8, t: u32) -> u64
    requires { bits ≤ 24 }
    ensures { result ≡ meaning.far_place a bits t }
{
    if t >= 1 << 24 {
        tetras_after(1 << bits, tetras_before(t % (1 << 24), a))
    } else {
        tetras_before(t, a)
    }
}

/// Adds the addresses of the two tetras of an octa.
#[tactic(auto, using(crate::proofs::AddressLists::more))]
fn add_octa(addresses: &mut Addresses, a: u64) -> Result<(), NoMemory>
    ensures { OnOk result (addresses.new ≡ spec.with_all addresses.old (spec.octa_tetras a)) }
{
    let high = tetra_address(a);
    addresses.add(high)?;
    addresses.add(high.wrapping_add(4))?;
    Ok(())
}

/// Adds the addresses of the tetras that an item joins to memory.
#[tactic(auto, using(crate::proofs::AddressLists::more))]
pub(crate) fn add_joined(
    addresses: &mut Addresses,
    lambda: u64,
    item: &Item,
) -> Result<(), NoMemory>
    requires { Fits item.now }
    ensures { OnOk result (addresses.new ≡ spec.with_all addresses.old (spec.joined_by lambda item.now)) }
{
    match item {
        Item::Load(_) => addresses.add(tetra_address(lambda)),
        Item::FixOcta(a) => add_octa(addresses, *a),
        Item::FixNear(n) => addresses.add(tetra_address(tetras_before(u32::from(*n), lambda))),
        Item::FixFar { bits, word } => {
            addresses.add(tetra_address(far_place(lambda, *bits, *word)))
        }
        Item::Loc(_) | Item::Skip(_) | Item::File { .. } | Item::Line(_) => Ok(()),
        Item::Spec(_) | Item::Pre(_) | Item::Post { .. } | Item::Stab => Ok(()),
    }
}
