//! Runs the program on the real files and streams.
#![tactic(auto)]

mod help;

use crate::help::{find_own_text, print_text};
use mx_real::{RealHost, StandIns};
use mx_top::{Outcome, mmixware_watched};
use mx_watch::{Cover, Profile, Watcher, Writes};
use mx_word::NoMemory;
use std::alloc::Global;
use std::env;
use std::io::ErrorKind;
use std::process::ExitCode;

/// The statuses of what goes wrong before the program's own work.
const FAULTY_WORDS: u8 = 64;

const OUT_OF_MEMORY: u8 = 71;

/// The part of memory whose writes are reported, which is the data segment, and how many of them are.
const DATA_SEGMENT: u64 = 0x2000_0000_0000_0000;

const POOL_SEGMENT: u64 = 0x4000_0000_0000_0000;

const MOST_WRITES: u32 = 100;

/// Does what the words order, with a profile, the number of the addresses, and the first writes to the data segment
/// as the watchers of a run.
fn run_watched(alloc: Global, words: &[String], host: &mut RealHost) -> Result<Outcome, NoMemory> {
    let profile: Box<dyn Watcher> = Box::new(alloc, Profile::new(alloc)?)?;
    let cover: Box<dyn Watcher> = Box::new(alloc, Cover::new(alloc)?)?;
    let writes = Writes::new(alloc, DATA_SEGMENT, POOL_SEGMENT, MOST_WRITES)?;
    let writes: Box<dyn Watcher> = Box::new(alloc, writes)?;
    let mut watchers = Vec::new(alloc);
    watchers.push(profile)?;
    watchers.push(cover)?;
    watchers.push(writes)?;
    Ok(mmixware_watched(alloc, words, host, &mut watchers))
}

fn main(rt: HostRuntime) -> ExitCode {
    let _stand_ins = StandIns::new(&rt);
    let alloc = rt.alloc();
    let args = match env::args(&rt) {
        Ok(args) => args,
        Err(fault) if fault.kind() == ErrorKind::OutOfMemory => {
            return ExitCode::from(OUT_OF_MEMORY);
        }
        Err(_) => return ExitCode::from(FAULTY_WORDS),
    };
    let Ok(all) = args.collect::<Vec<String>>(alloc) else {
        return ExitCode::from(OUT_OF_MEMORY);
    };
    let words = match all.as_slice() {
        [] => &[],
        [_program, words @ ..] => words,
    };
    if let Some(text) = find_own_text(words) {
        return print_text(&rt, text);
    }
    let Some(mut host) = RealHost::new(rt) else {
        return ExitCode::from(OUT_OF_MEMORY);
    };
    match run_watched(alloc, words, &mut host) {
        Ok(outcome) => ExitCode::from(outcome.status()),
        Err(_) => ExitCode::from(OUT_OF_MEMORY),
    }
}
