//! The words of the command line, from the left.

ghost use Rattle.std.specs.Prelude.{IfOk, ◌≡◌, ◌<◌, ◌≤◌, ◌+◌, ◌^◌, length, map, drop, string_bytes};
ghost use Rattle.mx_words.specs.Files as files;
ghost use Rattle.mx_words.specs.Orders as spec;

use crate::options::read_option;
use crate::order::{Command, Order, WordsFault};
use crate::settings::Settings;
use crate::values::{blocks_value, is_option};
use mx_registers::RingSize;

/// What the words order, without the name of the program, or the first fault from the left. It takes
/// no memory.
///
/// The words are `run` or `sim`, options, a file and its arguments; `asm`, a source and an object;
/// `gen`, options and a number; `type` and an object; or `multi`, options, a schedule and an object. Options
/// are `--ring R`, for `run`, `sim` and `multi` also `--steps N` and `--dump`, and for `run` and `sim` `-i`,
/// `--report` and `--last J`; they may repeat, and the last one counts. No two of `-i`, `--report` and `--last`
/// are in one order.
#[tactic(auto, using(crate::proofs::Places::places, crate::proofs::OrderedBlocks::orders))]
pub fn read(words: &[String]) -> Result<Order, WordsFault>
    ensures value { result ≡ spec.order_of (map string_bytes words.now) }
    ensures lies { IfOk result (spec.LiesIn (length words.now)) }
    ensures last { IfOk result (λ o. o.last ≤ 1024) }
{
    if words.is_empty() {
        return Err(WordsFault { kind: 1, word: 0 });
    }
    match command_of(&words[0]) {
        Some(command) => read_command(command, words),
        None => Err(WordsFault { kind: 2, word: 0 }),
    }
}

/// The command that a word names.
fn command_of(word: &String) -> Option<Command>
    ensures { result ≡ spec.command_of (string_bytes word.now) }
{
    if word.as_str() == "run" {
        return Some(Command::Run);
    }
    if word.as_str() == "asm" {
        return Some(Command::Asm);
    }
    if word.as_str() == "sim" {
        return Some(Command::Sim);
    }
    if word.as_str() == "gen" {
        return Some(Command::Gen);
    }
    if word.as_str() == "type" {
        return Some(Command::Show);
    }
    if word.as_str() == "multi" {
        return Some(Command::Multi);
    }
    None
}

/// What is set without options: a ring of 256 registers, 10^9 steps, no console, no dump, no reports, and no step
/// is taken back.
fn defaults() -> Settings
    ensures { result ≡ spec.defaults }
{
    Settings {
        ring: RingSize::of(256).unwrap(),
        steps: 1_000_000_000,
        interactive: false,
        dump: false,
        report: false,
        last: 0,
    }
}

/// What the words after a command order.
#[tactic(auto, using(crate::proofs::ReadOptions::reading))]
fn read_command(command: Command, words: &[String]) -> Result<Order, WordsFault>
    requires { 0 < length words.now }
    ensures value { result ≡ spec.options_from command spec.defaults 1 (drop 1 (map string_bytes words.now)) }
    ensures lies { IfOk result (spec.LiesIn (length words.now)) }
{
    let mut settings = defaults();
    let mut at = 1;
    while at < words.len() && is_option(&words[at]) {
        match read_option(command, settings, words, at) {
            Ok((set, next)) => {
                settings = set;
                at = next;
            }
            Err(fault) => return Err(fault),
        }
    }
    file(command, settings, words, at)
}

/// What follows the options.
#[tactic(auto, using(crate::proofs::AfterOptions::following_words))]
fn file(
    command: Command,
    settings: Settings,
    words: &[String],
    at: usize,
) -> Result<Order, WordsFault>
    ensures value { result ≡ files.after_options command settings at (drop at (map string_bytes words.now)) }
    ensures lies { IfOk result (spec.LiesIn (length words.now)) }
{
    if at >= words.len() {
        return Err(WordsFault { kind: 7, word: at });
    }
    match command {
        Command::Run | Command::Sim => Ok(run_order(command, settings, at)),
        Command::Asm => asm_order(settings, words, at),
        Command::Gen => gen_order(settings, words, at),
        Command::Show => show_order(settings, words, at),
        Command::Multi => multi_order(settings, words, at),
    }
}

/// An order on the file at a place, with what follows it.
fn run_order(command: Command, settings: Settings, at: usize) -> Order
    requires { at + 1 < 2 ^ 63 }
    ensures { result ≡ spec.run_order command settings at }
{
    Order {
        command,
        ring: settings.ring,
        steps: settings.steps,
        interactive: settings.interactive,
        dump: settings.dump,
        file: at,
        rest: at + 1,
        number: 0,
        report: settings.report,
        last: settings.last,
        schedule: 0,
    }
}

/// An order to list the object at a place: no word follows it.
#[tactic(auto, using(crate::proofs::AfterOptions::following_words))]
fn show_order(settings: Settings, words: &[String], at: usize) -> Result<Order, WordsFault>
    requires { at < length words.now }
    ensures value { result ≡ spec.none_after (spec.run_order Command.Show settings at) at
        (drop (at + 1) (map string_bytes words.now)) }
    ensures lies { IfOk result (spec.LiesIn (length words.now)) }
{
    if words.len() > at + 1 {
        return Err(WordsFault {
            kind: 8,
            word: at + 1,
        });
    }
    Ok(run_order(Command::Show, settings, at))
}

/// An order to assemble the source at a place: one word follows it.
#[tactic(auto, using(crate::proofs::AfterOptions::following_words))]
fn asm_order(settings: Settings, words: &[String], at: usize) -> Result<Order, WordsFault>
    requires { at < length words.now }
    ensures value { result ≡ spec.object_after settings at (drop (at + 1) (map string_bytes words.now)) }
    ensures lies { IfOk result (spec.LiesIn (length words.now)) }
{
    if words.len() == at + 1 {
        return Err(WordsFault {
            kind: 7,
            word: at + 1,
        });
    }
    if words.len() > at + 2 {
        return Err(WordsFault {
            kind: 8,
            word: at + 2,
        });
    }
    Ok(run_order(Command::Asm, settings, at))
}

/// An order to run the object after the schedule at a place on several processors: no word follows it.
#[tactic(auto, using(crate::proofs::AfterOptions::following_words))]
fn multi_order(settings: Settings, words: &[String], at: usize) -> Result<Order, WordsFault>
    requires { at < length words.now }
    ensures value { result ≡ spec.processors_after settings at (drop (at + 1) (map string_bytes words.now)) }
    ensures lies { IfOk result (spec.LiesIn (length words.now)) }
{
    if words.len() == at + 1 {
        return Err(WordsFault {
            kind: 7,
            word: at + 1,
        });
    }
    if at + 2 < words.len() {
        return Err(WordsFault {
            kind: 8,
            word: at + 2,
        });
    }
    Ok(Order {
        command: Command::Multi,
        ring: settings.ring,
        steps: settings.steps,
        interactive: settings.interactive,
        dump: settings.dump,
        file: at + 1,
        rest: at + 2,
        number: 0,
        report: settings.report,
        last: settings.last,
        schedule: at,
    })
}

/// An order to generate as many blocks as the word at a place says: no word follows it.
#[tactic(auto, using(crate::proofs::AfterOptions::following_words))]
fn gen_order(settings: Settings, words: &[String], at: usize) -> Result<Order, WordsFault>
    requires { at < length words.now }
    ensures value { result ≡ files.blocks_after settings at (drop at (map string_bytes words.now)) }
    ensures lies { IfOk result (spec.LiesIn (length words.now)) }
{
    let number = match blocks_value(&words[at]) {
        Ok(n) => n,
        Err(kind) => return Err(WordsFault { kind, word: at }),
    };
    if words.len() > at + 1 {
        return Err(WordsFault {
            kind: 8,
            word: at + 1,
        });
    }
    Ok(Order {
        command: Command::Gen,
        ring: settings.ring,
        steps: settings.steps,
        interactive: settings.interactive,
        dump: settings.dump,
        file: 0,
        rest: 0,
        number,
        report: settings.report,
        last: settings.last,
        schedule: 0,
    })
}
