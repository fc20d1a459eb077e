//! What a program wrote.

use crate::characters::add_output;
use mx_host::MemHost;
use mx_text::add_decimal;
use mx_word::{Bytes, NoMemory};

/// How many bytes a program wrote to its standard output and its standard error.
#[derive(Clone, Copy)]
pub struct Written {
    output: usize,
    errors: usize,
}

impl Written {
    /// What was written up to a step.
    pub fn of(host: &MemHost) -> Written {
        Written {
            output: host.output().len(),
            errors: host.errors().len(),
        }
    }
}

/// Adds what was written beyond a length, or how much is taken back.
fn add_written(out: &mut Bytes, bytes: &[u8], before: usize) -> Result<(), NoMemory> {
    if before < bytes.len() {
        return add_output(out, &bytes[before..]);
    }
    if before > bytes.len() {
        out.extend(b"output taken back: ")?;
        add_decimal(out, (before - bytes.len()) as u64)?;
        return out.extend(b" bytes\n");
    }
    Ok(())
}

/// Adds what a program wrote on the way, or how much of it is taken back.
pub fn add_meanwhile(out: &mut Bytes, host: &MemHost, since: Written) -> Result<(), NoMemory> {
    add_written(out, host.output(), since.output)?;
    add_written(out, host.errors(), since.errors)
}
