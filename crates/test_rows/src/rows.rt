//! A run of the program, and what is due of it.

use mx_host::MemHost;
use mx_top::{Outcome, mmixware};
use std::alloc::Global;
use std::test::Fail;

/// What a call of the program comes to: the outcome, standard output and standard error.
#[derive(Clone, Copy)]
pub struct Due<'a> {
    pub outcome: Outcome,
    pub output: &'a [u8],
    pub errors: &'a [u8],
}

/// What a host has before a call of the program: a file, an input, and the calls that fail.
#[derive(Clone, Copy)]
pub struct Given<'a> {
    pub name: &'a str,
    pub bytes: &'a [u8],
    pub input: &'a [u8],
    pub failing: &'a [u64],
}

/// A host that has this file alone.
pub fn file<'a>(name: &'a str, bytes: &'a [u8]) -> Given<'a> {
    Given {
        name,
        bytes,
        input: b"",
        failing: &[],
    }
}

/// Words for a call.
pub fn words(alloc: Global, all: &[&str]) -> Result<Vec<String>, Fail> {
    let mut made = Vec::new(alloc);
    for word in all {
        made.push(String::from_str(alloc, word)?)?;
    }
    Ok(made)
}

/// A host that has what is given.
pub fn host(alloc: Global, given: Given) -> Result<MemHost, Fail> {
    let failing = Vec::from_slice(alloc, given.failing)?;
    let mut host = MemHost::new(alloc, Vec::from_slice(alloc, given.input)?, failing)?;
    host.put_file(given.name.as_bytes(), Vec::from_slice(alloc, given.bytes)?)?;
    Ok(host)
}

/// The outcome of words over a host.
pub fn outcome_over(alloc: Global, host: &mut MemHost, all: &[&str]) -> Result<Outcome, Fail> {
    let words = words(alloc, all)?;
    Ok(mmixware(alloc, words.as_slice(), host))
}

/// Whether the words come to what is due over a host.
pub fn comes_to(alloc: Global, host: &mut MemHost, all: &[&str], due: Due) -> Result<bool, Fail> {
    let outcome = outcome_over(alloc, host, all)?;
    Ok(outcome == due.outcome && host.output() == due.output && host.errors() == due.errors)
}

/// Whether the words come to what is due over a host of their own. The row has no host then, which
/// makes its proof short.
pub fn comes_from(alloc: Global, given: Given, all: &[&str], due: Due) -> Result<bool, Fail> {
    let mut host = host(alloc, given)?;
    comes_to(alloc, &mut host, all, due)
}

/// What is due of a program that halts.
pub fn due_done<'a>(status: u8, output: &'a [u8]) -> Due<'a> {
    Due {
        outcome: Outcome::Done(status),
        output,
        errors: b"",
    }
}

/// What is due of a program that stops.
pub fn due_stopped<'a>(pc: u64, reason: u16, errors: &'a [u8]) -> Due<'a> {
    Due {
        outcome: Outcome::Stopped { pc, reason },
        output: b"",
        errors,
    }
}

/// What is due of a source that is refused.
pub fn due_refused<'a>(line: u32, fault: u16, from_line: u32, errors: &'a [u8]) -> Due<'a> {
    Due {
        outcome: Outcome::Refused {
            line,
            fault,
            from_line,
        },
        output: b"",
        errors,
    }
}

/// Prints a text.
pub const FIRST: &str =
    " LOC #100\nText BYTE 104,105,10,0\nMain GETA $255,Text\n TRAP 0,7,1\n TRAP 0,0,0\n";

/// Prints its own name and a text (TAOCP volume 1, fascicle 1, program H's subject).
pub const HELLO: &str =
    "argv IS $1\n LOC #100\nMain LDOU $255,argv,0\n TRAP 0,Fputs,StdOut\n GETA $255,String\n TRAP 0,Fputs,StdOut\n TRAP 0,Halt,0\nString BYTE \", world\",#a,0\n";
