//! The items of an object are read, and the addresses of the tetras that they load are noted.

ghost use Rattle.std.specs.Prelude.{◌≡◌, ◌≢◌, ◌≤◌, ◌<◌, ◌^◌, Ok, None, true, false, length, IfOk, OnOk};
ghost use Rattle.mx_mmo.specs.Replies.{fresh};
ghost use Rattle.mx_mmo.specs.Valid.{Fits};
ghost use Rattle.mx_object.specs.Addresses.{addresses_of, items_in};
ghost use Rattle.mx_object.specs.Reading as spec;

use crate::addresses::Addresses;
use crate::joining::{add_joined, lambda_after};
use mx_mmo::{Item, MmoFault, Reader};
use mx_word::NoMemory;
use std::alloc::Global;

/// Notes what the next item loads, and moves lambda.
fn note(addresses: &mut Addresses, lambda: &mut u64, item: &Item) -> Result<bool, NoMemory>
    requires { Fits item.now }
    ensures { IfOk result (λ more. (more ≡ true) × spec.HasNoted addresses.old addresses.new lambda.old lambda.new item.now) }
{
    add_joined(addresses, *lambda, item)?;
    *lambda = lambda_after(*lambda, item);
    Ok(true)
}

/// No item is next where bytes have a fault.
fn end_at_fault(fault: MmoFault) -> Result<bool, NoMemory>
    ensures { IfOk result (λ more. (more ≡ false) × (fault ≢ MmoFault.OutOfMemory)) }
{
    match fault {
        MmoFault::OutOfMemory => Err(NoMemory),
        _ => Ok(false),
    }
}

/// Notes what the next item loads, and says whether there is one.
fn note_next(
    reader: &mut Reader,
    addresses: &mut Addresses,
    lambda: &mut u64,
) -> Result<bool, NoMemory>
    requires { reader.old.fault ≡ None }
    ensures next { result ≡ Ok true → spec.left addresses.old lambda.old reader.old ≡ spec.left addresses.new lambda.new reader.new }
    ensures less { result ≡ Ok true → length reader.new.rest < length reader.old.rest }
    ensures read { result ≡ Ok true → reader.new.fault ≡ None }
    ensures last { result ≡ Ok false → spec.left addresses.old lambda.old reader.old ≡ addresses.new }
{
    match reader.next() {
        Ok(Some(item)) => note(addresses, lambda, &item),
        Ok(None) => Ok(false),
        Err(fault) => end_at_fault(fault),
    }
}

/// Notes what all items load that are left.
fn note_all(reader: &mut Reader, addresses: &mut Addresses) -> Result<(), NoMemory>
    requires { reader.old.fault ≡ None }
    ensures { OnOk result (addresses.new ≡ spec.left addresses.old 0 reader.old) }
{
    let mut lambda = 0;
    loop {
        match note_next(reader, addresses, &mut lambda) {
            Ok(true) => {}
            Ok(false) => return Ok(()),
            Err(e) => return Err(e),
        }
    }
}

/// A reader of bytes.
fn reader_of(alloc: Global, bytes: &[u8]) -> Result<Reader, NoMemory>
    requires { length bytes.now ≤ 2 ^ 26 }
    ensures { IfOk result (λ reader. reader ≡ record fresh { rest = bytes.now }) }
{
    let mut reader = Reader::new(alloc);
    match reader.feed(bytes) {
        Ok(()) => Ok(reader),
        Err(_) => Err(NoMemory),
    }
}

/// The addresses of the tetras that the items load which bytes begin with.
pub(crate) fn addresses_in(alloc: Global, bytes: &[u8]) -> Result<Addresses, NoMemory>
    requires { length bytes.now ≤ 2 ^ 26 }
    ensures { IfOk result (λ addresses. addresses ≡ addresses_of (items_in bytes.now)) }
{
    let mut reader = reader_of(alloc, bytes)?;
    let mut addresses = Addresses::new(alloc);
    note_all(&mut reader, &mut addresses)?;
    Ok(addresses)
}
