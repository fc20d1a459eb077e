//! The fix records of references whose label is known now.

ghost use Rattle.std.specs.Prelude.{◌≡◌, ◌≢◌, ◌+◌, ◌<◌, ◌≤◌, ◌^◌, Ok, Err, IfOk};
ghost use Rattle.mx_mmo.specs.Valid.{Fits};
ghost use Rattle.mx_asm.specs.Fitting.{AreFit, IsWidth};
ghost use Rattle.mx_stmt.specs.Forms.{forward_word, backward_word, relative_word};
ghost use Rattle.mx_asm.specs.Emission.{moved, onto, fix_items};
ghost use Rattle.mx_asm.specs.Faults.{no_memory};
ghost use Rattle.mx_asm.specs.Fixes as spec;

use crate::{AsmFault, Refused};
use mx_mmo::{Item, Items};
use mx_word::{NoMemory, Value, Wait, WaitKind};
use std::alloc::Global;

/// The record that adds a word to a tetra.
fn word_fix(bits: u8, word: u32) -> Item
    ensures fix { result ≡ spec.word_fix bits word }
    ensures fits { IsWidth bits → word < 2 ^ 25 → Fits result }
{
    if word < 0x1_0000 {
        Item::FixNear(word as u16)
    } else {
        Item::FixFar { bits, word }
    }
}

/// The record of a relative address to a label so far ahead.
fn forward_fix(bits: u8, reach: u32, distance: u64) -> Result<Item, AsmFault>
    requires { reach ≤ 2 ^ 24 }
    ensures fix { result ≡ spec.relative_fix bits (forward_word 0 reach distance) }
    ensures fits { IsWidth bits → IfOk result Fits }
{
    if distance % 4 != 0 {
        Err(AsmFault::FutureNotMultiple)
    } else if distance / 4 < u64::from(reach) {
        Ok(word_fix(bits, (distance / 4) as u32))
    } else {
        Err(AsmFault::FutureTooFar)
    }
}

/// The record of a relative address to a label so far back.
fn backward_fix(bits: u8, reach: u32, distance: u64) -> Result<Item, AsmFault>
    requires { reach ≤ 2 ^ 24 }
    ensures fix { result ≡ spec.relative_fix bits (backward_word 0 reach distance) }
    ensures fits { IsWidth bits → 0 < distance → IfOk result Fits }
{
    if distance % 4 != 0 {
        Err(AsmFault::FutureNotMultiple)
    } else if distance / 4 <= u64::from(reach) {
        Ok(word_fix(bits, 0x100_0000 + (reach - (distance / 4) as u32)))
    } else {
        Err(AsmFault::FutureTooFar)
    }
}

/// The record of a relative address at a place to a label.
fn relative_fix(bits: u8, reach: u32, place: u64, label: u64) -> Result<Item, AsmFault>
    requires { reach ≤ 2 ^ 24 }
    ensures fix { result ≡ spec.relative_fix bits (relative_word 0 reach place label) }
    ensures fits { IsWidth bits → IfOk result Fits }
{
    if place <= label {
        forward_fix(bits, reach, label - place)
    } else {
        backward_fix(bits, reach, place - label)
    }
}

/// The record of a reference at a place to a label.
fn pure_fix(kind: WaitKind, place: u64, label: u64) -> Result<Item, AsmFault>
    ensures fix { result ≡ spec.pure_fix place kind label }
    ensures fits { IfOk result Fits }
{
    match kind {
        WaitKind::Octa => Ok(Item::FixOcta(place)),
        WaitKind::Near => relative_fix(16, 0x1_0000, place, label),
        WaitKind::Far => relative_fix(24, 0x100_0000, place, label),
    }
}

/// The record of a reference whose label has this value.
fn fix(value: Value, wait: &Wait) -> Result<Item, AsmFault>
    ensures fix { result ≡ spec.fix_of value wait.now }
    ensures fits { IfOk result Fits }
{
    match value {
        Value::Reg(_) => Err(AsmFault::FutureRegister),
        Value::Pure(label) => pure_fix(wait.kind, wait.at, label),
    }
}

/// Adds the records of references to the label of a line.
#[tactic(auto, using(crate::proofs::FixLists::fixing, crate::proofs::Fitting::fitting))]
fn with_fixes(items: Items, line: u32, value: Value, waits: &[Wait]) -> Result<Items, Refused>
    ensures fixes { result ≢ Err no_memory → result ≡ onto items (spec.fixes line value waits.now) }
    ensures fits { AreFit items → IfOk result AreFit }
{
    let mut items = items;
    for wait in waits {
        match fix(value, wait) {
            Ok(item) => items.push(item)?,
            Err(fault) => {
                return Err(Refused {
                    line,
                    fault,
                    from_line: wait.line,
                });
            }
        }
    }
    Ok(items)
}

/// The address of a label, where lambda is another.
#[tactic(auto, using(crate::proofs::Fitting::fitting))]
fn lambda_items(alloc: Global, lambda: u64, value: Value) -> Result<Items, NoMemory>
    ensures items { IfOk result (λ items. items ≡ moved lambda value) }
    ensures fits { IfOk result AreFit }
{
    let mut items = Items::new(alloc);
    if let Value::Pure(address) = value {
        if lambda != address {
            items.push(Item::Loc(address))?;
        }
    }
    Ok(items)
}

/// The records of the references that wait for the label of a line, or their first refusal; nothing
/// where none waits.
#[tactic(auto, using(crate::proofs::Fitting::fitting))]
pub(crate) fn fix_items(
    alloc: Global,
    lambda: u64,
    line: u32,
    value: Value,
    waits: &[Wait],
) -> Result<Items, Refused>
    ensures items { result ≢ Err no_memory → result ≡ fix_items lambda line value waits.now }
    ensures fits { IfOk result AreFit }
{
    if waits.is_empty() {
        return Ok(Items::new(alloc));
    }
    let items = lambda_items(alloc, lambda, value)?;
    with_fixes(items, line, value, waits)
}
