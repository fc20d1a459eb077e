//! Memory, as bytes.

ghost use Rattle.std.specs.Prelude.{◌≡◌, ◌<◌, ◌≤◌, ◌+◌, ◌++◌, ◌^◌, IfOk, OnOk, min};
ghost use Rattle.mx_core.specs.Kept.{state_of};
ghost use Rattle.mx_core.specs.MachineSpace.{machine_contents};
ghost use Rattle.mx_trap.specs.Requests.{bytes_from};
ghost use Rattle.serde_json.specs.View.{view};
ghost use Rattle.mx_panes.specs.Memory as spec;
ghost use Rattle.mx_panes.specs.Memory.{ShowsMemory};

use crate::scene::Scene;
use crate::values::{MEMORY_END, add_reference, parse_reference};
use base64::engine::general_purpose::STANDARD;
use mx_adapter::{Answer, integer_at, number_at, text_at};
use mx_core::Machine;
use mx_json::{add_number, add_quoted};
use mx_word::{Bytes, NoMemory};
use serde_json::Value;
use std::alloc::Global;

/// How many bytes are read at most.
const MOST: u64 = 1 << 20;

/// The byte at an address below 2^63.
fn byte_at(machine: &Machine, a: u64) -> u8
    requires { a < 2 ^ 63 }
    ensures { result ≡ (machine_contents (state_of machine.now)).bytes a }
{
    (machine.octa(a) >> (8 * (7 - a % 8)) & 0xff) as u8
}

/// How many bytes a request asks for, which are 2^20 at most.
fn count_asked(message: &Value) -> u64
    ensures { result ≡ spec.count_asked (view message.now) }
{
    number_at(message, "/arguments/count")
        .unwrap_or(0)
        .min(MOST)
}

/// How many of so many bytes from an address on are memory.
fn readable(address: u64, count: u64) -> u64
    ensures count { result ≡ spec.readable address count }
    ensures below { min address (2 ^ 63) + result ≤ 2 ^ 63 }
{
    MEMORY_END.saturating_sub(address).min(count)
}

/// The bytes from an address on.
#[tactic(auto, using(crate::proofs::Shown::reading))]
fn read_bytes(alloc: Global, machine: &Machine, address: u64, count: u64) -> Result<Bytes, NoMemory>
    requires { address + count ≤ 2 ^ 63 }
    ensures { IfOk result (λ bytes.
        bytes ≡ bytes_from (machine_contents (state_of machine.now)).bytes address count) }
{
    let mut bytes = Bytes::new(alloc);
    for place in 0..count {
        bytes.push(byte_at(machine, address + place))?;
    }
    Ok(bytes)
}

/// The beginning of the member that tells how many bytes are no memory.
#[tactic(auto, unfolding(crate::specs::Memory::unreadable_name))]
fn unreadable_name() -> &'static [u8]
    ensures { result.now ≡ spec.unreadable_name }
{
    b",\"unreadableBytes\":"
}

/// Adds how many bytes are no memory, if there are some.
#[tactic(auto, unfolding(crate::specs::Memory::unreadable_member))]
fn add_unreadable(text: &mut Bytes, count: u64) -> Result<(), NoMemory>
    ensures { OnOk result (text.new ≡ text.old ++ spec.unreadable_member count) }
{
    if count == 0 {
        Ok(())
    } else {
        add_number(text, unreadable_name(), count)
    }
}

/// The beginning of the member that tells an address.
#[tactic(auto, unfolding(crate::specs::Memory::address_name))]
fn address_name() -> &'static [u8]
    ensures { result.now ≡ spec.address_name }
{
    b"{\"address\":"
}

/// What is answered of bytes from an address on, of which so many are no memory.
#[tactic(auto, unfolding(crate::specs::Memory::bytes_body))]
fn bytes_body(alloc: Global, address: u64, bytes: &[u8], unreadable: u64) -> Result<Bytes, NoMemory>
    ensures { IfOk result (λ text. text ≡ spec.bytes_body address bytes.now unreadable) }
{
    let data = STANDARD.encode(alloc, bytes)?;
    let mut text = Bytes::new(alloc);
    add_reference(&mut text, address_name(), address)?;
    add_quoted(&mut text, b",\"data\":", data.as_bytes())?;
    add_unreadable(&mut text, unreadable)?;
    text.extend(b"}")?;
    Ok(text)
}

impl Scene<'_> {
    /// What is read of so many bytes from an address on.
    fn memory_body(&self, address: u64, count: u64) -> Result<Bytes, NoMemory>
        ensures { IfOk result (λ text.
            text ≡ spec.memory_body (state_of self.now.machine.now) address count) }
    {
        let held = readable(address, count);
        let bytes = read_bytes(self.alloc, self.machine, address.min(MEMORY_END), held)?;
        bytes_body(
            self.alloc,
            address,
            bytes.as_slice(),
            count.saturating_sub(held),
        )
    }

    /// The address that a request refers to, with its offset in bytes.
    pub(crate) fn address_asked(&self, message: &Value) -> Result<Option<u64>, NoMemory> {
        let text = text_at(message, "/arguments/memoryReference").unwrap_or(b"");
        let offset = integer_at(message, "/arguments/offset").cast_unsigned();
        match parse_reference(self.alloc, self.book, text)? {
            Some(address) => Ok(Some(address.wrapping_add(offset))),
            None => Ok(None),
        }
    }

    /// Answers `readMemory`.
    #[tactic(auto, using(crate::proofs::Shown::reading))]
    pub fn read_memory(&self, message: &Value) -> Result<Answer, NoMemory>
        ensures { IfOk result (ShowsMemory (state_of self.now.machine.now) (view message.now)) }
    {
        let count = count_asked(message);
        match self.address_asked(message)? {
            Some(address) => Ok(Answer::Done(self.memory_body(address, count)?)),
            None => Ok(Answer::Refused(Bytes::copy(
                self.alloc,
                b"there is no such place in memory",
            )?)),
        }
    }
}
