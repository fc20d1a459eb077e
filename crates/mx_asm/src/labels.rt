//! Labels of statements, and the references that wait for them.

ghost use Rattle.std.specs.Prelude.{◌≡◌, ◌≢◌, ◌<◌, ◌≤◌, ◌+◌, Ok, Err, OnOk, IfOk, IfSome, IfErr, length, true};
ghost use Rattle.mx_names.specs.Names.{AreNames, IsFullName, define_answer};
ghost use Rattle.mx_stmt.specs.Operands.{symbol_form};
ghost use Rattle.mx_stmt.specs.Reading.{LabelHasDigit};
ghost use Rattle.mx_asm.specs.Faults.{is_early};
ghost use Rattle.mx_asm.specs.OnePass as spec;

use crate::AsmFault;
use mx_names::{NameFault, Names};
use mx_stmt::Label;
use mx_word::{Awaited, Bytes, NoMemory, Value, Waits};
use std::alloc::Global;

/// Makes references wait.
fn wait_for(names: &mut Names, waits: Waits) -> Result<(), NoMemory>
    ensures waiting { OnOk result (names.new ≡ spec.with_waits names.old waits) }
    ensures kept { AreNames names.old.names → AreNames names.new.names }
    ensures symbols { names.new.names.symbols ≡ names.old.names.symbols }
{
    for wait in waits.into_vec() {
        names.wait_for(wait)?;
    }
    Ok(())
}

/// Gives and removes the references that wait for a name or a local label.
fn take_waiting(names: &mut Names, who: &Awaited) -> Result<Waits, NoMemory>
    ensures taken { IfOk result (λ waits. Ok (names.new, waits) ≡ spec.waits_taken who.now names.old) }
    ensures kept { AreNames names.new.names }
    ensures symbols { names.new.names.symbols ≡ names.old.names.symbols }
{
    names.take_waiting(who)
}

/// Defines a symbol, and takes the references that wait for it, those of its own statement among
/// them. Where it may not be defined, none of them begins to wait.
fn define_symbol(
    alloc: Global,
    names: &mut Names,
    full: Bytes,
    value: Value,
    waits: Waits,
) -> Result<Waits, AsmFault>
    requires full { IsFullName full }
    requires room { length names.old.names.symbols < 0xffff_ffff }
    ensures labelled { spec.Labels result names.new
        (spec.symbol_defined names.old full value waits (define_answer names.old.names full)) }
    ensures kept { AreNames names.old.names → AreNames names.new.names }
    ensures few { length names.new.names.symbols ≤ length names.old.names.symbols + 1 }
    ensures early { IfErr result (λ fault. is_early fault ≡ true → names.new ≡ names.old) }
{
    let who = Awaited::Name(Bytes::copy(alloc, full.as_slice())?);
    match names.define(full, value) {
        Ok(()) => {
            wait_for(names, waits)?;
            Ok(take_waiting(names, &who)?)
        }
        Err(NameFault::OutOfMemory) => Err(AsmFault::OutOfMemory),
        Err(fault) => Err(AsmFault::Name(fault)),
    }
}

/// Defines a label by its symbol.
fn define_name(
    alloc: Global,
    names: &mut Names,
    text: &Bytes,
    value: Value,
    waits: Waits,
) -> Result<Waits, AsmFault>
    requires room { length names.old.names.symbols < 0xffff_ffff }
    ensures labelled { spec.Labels result names.new
        (spec.with_symbol_label names.old value waits (symbol_form names.old.names text.now)) }
    ensures kept { AreNames names.old.names → AreNames names.new.names }
    ensures few { length names.new.names.symbols ≤ length names.old.names.symbols + 1 }
    ensures early { IfErr result (λ fault. is_early fault ≡ true → names.new ≡ names.old) }
{
    match names.resolve(text.as_slice()) {
        Ok(full) => define_symbol(alloc, names, full, value, waits),
        Err(NameFault::OutOfMemory) => Err(AsmFault::OutOfMemory),
        Err(fault) => Err(AsmFault::Name(fault)),
    }
}

/// Defines a local label; the references of its own statement wait for a later one.
fn define_local(names: &mut Names, d: u8, value: Value, waits: Waits) -> Result<Waits, AsmFault>
    requires digit { d ≤ 9 }
    ensures labelled { result ≢ Err AsmFault.OutOfMemory →
        spec.labelled_after result names.new ≡ spec.local_label names.old d value waits }
    ensures kept { AreNames names.old.names → AreNames names.new.names }
    ensures few { length names.new.names.symbols ≤ length names.old.names.symbols + 1 }
    ensures early { IfErr result (λ fault. is_early fault ≡ true → names.new ≡ names.old) }
{
    let taken = take_waiting(names, &Awaited::Local(d))?;
    names.define_local(d, value);
    wait_for(names, waits)?;
    Ok(taken)
}

/// Defines the label of a statement, if it has one, with its value, and takes the references that
/// wait for it. The references of the statement begin to wait.
pub(crate) fn define(
    alloc: Global,
    names: &mut Names,
    label: &Option<Label>,
    value: Option<Value>,
    waits: Waits,
) -> Result<Waits, AsmFault>
    requires room { length names.old.names.symbols < 0xffff_ffff }
    requires digit { IfSome label.now LabelHasDigit }
    ensures labelled { result ≢ Err AsmFault.OutOfMemory →
        spec.labelled_after result names.new ≡ spec.labelled names.old label.now value waits }
    ensures kept { AreNames names.old.names → AreNames names.new.names }
    ensures few { length names.new.names.symbols ≤ length names.old.names.symbols + 1 }
    ensures early { IfErr result (λ fault. is_early fault ≡ true → names.new ≡ names.old) }
{
    match (label, value) {
        (Some(Label::Name(text)), Some(value)) => define_name(alloc, names, text, value, waits),
        (Some(Label::Local(d)), Some(value)) => define_local(names, *d, value, waits),
        _ => {
            wait_for(names, waits)?;
            Ok(Waits::new(alloc))
        }
    }
}
