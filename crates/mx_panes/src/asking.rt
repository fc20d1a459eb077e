//! The value of a name.

use crate::scene::Scene;
use crate::values::{add_reference, is_data, value_text};
use mx_adapter::Answer;
use mx_book::Thing;
use mx_json::add_string;
use mx_places::resolve_for_display_now;
use mx_tell::value_of;
use mx_word::{Bytes, NoMemory};
use std::alloc::Global;

/// The address that a thing with this value is at, or leads to.
fn address_of(thing: Thing, value: u64) -> Option<u64> {
    match thing {
        Thing::Octa(a) => Some(a),
        Thing::Number(_) | Thing::Register(_) | Thing::Special(_) => {
            if is_data(value) { Some(value) } else { None }
        }
    }
}

/// The body of an answer with a text, and the address that it leads to, if there is one.
pub fn result_body(alloc: Global, shown: &[u8], address: Option<u64>) -> Result<Bytes, NoMemory> {
    let mut text = Bytes::new(alloc);
    add_string(alloc, &mut text, b"{\"result\":", shown)?;
    if let Some(address) = address {
        add_reference(&mut text, b",\"memoryReference\":", address)?;
    }
    text.extend(b",\"variablesReference\":0}")?;
    Ok(text)
}

impl Scene<'_> {
    /// The value of what a text names.
    pub fn evaluate_name(&self, text: &[u8]) -> Result<Answer, NoMemory> {
        let Some(thing) = resolve_for_display_now(self.book, self.machine, text) else {
            let why = b"nothing to show: a name, $K, rX, M8[ADDRESS], a number";
            return Ok(Answer::Refused(Bytes::copy(self.alloc, why)?));
        };
        let value = value_of(self.machine, thing);
        let shown = value_text(self.alloc, self.book, value)?;
        let body = result_body(self.alloc, shown.as_slice(), address_of(thing, value))?;
        Ok(Answer::Done(body))
    }
}
