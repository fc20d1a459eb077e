//! The end of a source.

ghost use Rattle.std.specs.Prelude.{◌≡◌, ◌≢◌, ◌≤◌, ◌++◌, ◌%◌, Ok, Err, IfOk, OnOk, length};
ghost use Rattle.mx_names.specs.Names.{value_of_name};
ghost use Rattle.mx_asm.specs.Emission as emission;
ghost use Rattle.mx_asm.specs.Fitting.{GrowsFit};
ghost use Rattle.mx_asm.specs.Fronts.{IsFront};
ghost use Rattle.mx_word.specs.Ranges.{AreOctas};
ghost use Rattle.mx_asm.specs.Refusal.{undefined};
ghost use Rattle.mx_asm.specs.OnePass as spec;

use crate::AsmFault;
use crate::head::zeros;
use mx_mmo::{Item, Items, Octas};
use mx_names::{Gregs, Names};
use mx_stab::write;
use mx_word::{Awaited, Bytes, NoMemory, Value};
use std::alloc::Global;

/// The fault of a reference to what is never defined.
pub(crate) fn make_undefined_fault(who: &Awaited) -> AsmFault
    ensures { result ≡ undefined who.now }
{
    match who {
        Awaited::Name(_) => AsmFault::UndefinedSymbol,
        Awaited::Local(_) => AsmFault::UndefinedLocal,
    }
}

/// The fault at the end of a source with these names, with the lowest global register, and with one
/// more than the greatest register that LOCAL named.
pub(crate) fn main_fault(names: &Names, lowest: u8, locals: u16) -> Option<AsmFault>
    ensures { result ≡ spec.main_fault lowest locals (value_of_name names.now.names emission.main_name) }
{
    match names.lookup(b":Main") {
        None => Some(AsmFault::MainUndefined),
        Some(Value::Reg(_)) => Some(AsmFault::MainRegister),
        Some(Value::Pure(_)) if u16::from(lowest) < locals => Some(AsmFault::LocalAboveGlobals),
        Some(Value::Pure(_)) => None,
    }
}

/// The address of Main.
fn main_address(names: &Names) -> u64
    ensures { result ≡ emission.main_of names.now.names }
{
    match names.lookup(b":Main") {
        Some(Value::Pure(address)) => address,
        _ => 0,
    }
}

/// The symbol trie, with the zeros that complete its last tetra.
pub(crate) fn make_padded_trie(alloc: Global, names: &Names) -> Result<Bytes, NoMemory>
    ensures trie { IfOk result (λ trie. trie ≡ emission.padded_trie names.now.names) }
    ensures whole { IfOk result (λ trie. length trie % 4 ≡ 0) }
{
    let symbols = names.sorted()?;
    pad_to_tetra(write(alloc, &symbols)?)
}

/// Bytes with the zeros that complete their last tetra.
fn pad_to_tetra(bytes: Bytes) -> Result<Bytes, NoMemory>
    ensures trie { IfOk result (λ trie. trie ≡ bytes ++ emission.zeros_after (length bytes)) }
    ensures whole { IfOk result (λ trie. length trie % 4 ≡ 0) }
{
    let mut bytes = bytes;
    let count = bytes.as_slice().len();
    bytes.extend(zeros((4 - count % 4) % 4))?;
    Ok(bytes)
}

/// The values of the global registers that GREG gave.
#[tactic(auto, using(crate::proofs::Fitting::fitting))]
fn values(alloc: Global, gregs: &Gregs) -> Result<Octas, NoMemory>
    requires { length gregs.now ≤ 223 }
    ensures values { IfOk result (λ values. values ≡ gregs.now) }
    ensures octas { IfOk result AreOctas }
{
    let mut values = Octas::new(alloc);
    for reg in gregs.lowest()..255 {
        values.push(gregs.value_of(reg))?;
    }
    Ok(values)
}

/// Adds the global registers, and that the trie follows.
#[tactic(auto, using(crate::proofs::Fitting::fitting, crate::proofs::Fitting::growing))]
pub(crate) fn close(
    alloc: Global,
    out: &mut Items,
    names: &Names,
    gregs: &Gregs,
) -> Result<(), NoMemory>
    requires { length gregs.now ≤ 223 }
    ensures all { OnOk result (out.new ≡ out.old ++ emission.closing names.now.names gregs.now) }
    ensures front { IsFront out.new (out.old ++ emission.closing names.now.names gregs.now) }
    ensures fits { GrowsFit out.old out.new }
{
    let mut values = values(alloc, gregs)?;
    values.push(main_address(names))?;
    let g = gregs.lowest();
    out.push(Item::Post { g, values })?;
    out.push(Item::Stab)?;
    Ok(())
}
