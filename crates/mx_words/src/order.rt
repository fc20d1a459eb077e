//! What the words order.

use mx_registers::RingSize;

/// What the first word of the command line asks for.
#[derive(Clone, Copy, Debug, PartialEq, Eq)]
pub enum Command {
    /// `run`: assemble a source and run it.
    Run,
    /// `asm`: assemble a source into an object.
    Asm,
    /// `sim`: run an object.
    Sim,
    /// `gen`: generate a source, assemble it and run it.
    Gen,
    /// `type`: list an object.
    Show,
    /// `multi`: run an object on several processors, in the order of a schedule.
    Multi,
}

/// What the words order. Each field says which commands read it; for the others it has its default, or a place that none of
/// them reads.
#[derive(Clone, Copy, Debug, PartialEq, Eq)]
pub struct Order {
    /// What is asked for.
    pub command: Command,
    /// `run`, `sim`, `gen`, `multi`: the registers of the ring, by default 256.
    pub ring: RingSize,
    /// `run`, `sim`, `multi`: how many steps are made at most, 1 to 10^12, by default 10^9.
    pub steps: u64,
    /// `run`, `sim`: whether the console is wanted.
    pub interactive: bool,
    /// `run`, `sim`, `multi`: whether the state is written at the end.
    pub dump: bool,
    /// All but `gen`: the place of the source or object among the words.
    pub file: usize,
    /// `run`, `sim`: the place of the first argument among the words, or their number. `asm`: that of the object to write.
    pub rest: usize,
    /// `gen`: how many blocks it makes, 1 to 10,000.
    pub number: u64,
    /// `run`, `sim`: whether the reports of watchers are written at the end; not in an order for the console.
    pub report: bool,
    /// `run`, `sim`: how many steps are taken back at the end at most, 1 to 1,024, or 0 where none is; 0 in an order that
    /// is for the console or has reports.
    pub last: u64,
    /// `multi`: the place of the schedule among the words.
    pub schedule: usize,
}

/// Why the words are no order.
#[derive(Clone, Copy, Debug, PartialEq, Eq)]
pub struct WordsFault {
    /// 1 no command, 2 unknown command, 3 unknown option, 4 missing value, 5 bad number, 6 bad ring,
    /// 7 missing file or number, 8 too many words, 10 two of `-i`, `--report` and `--last` together.
    pub kind: u16,
    /// The place of the word from 0, or the number of words where one is missing.
    pub word: usize,
}
