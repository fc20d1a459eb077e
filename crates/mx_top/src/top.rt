//! The top call.

ghost use Rattle.std.specs.Prelude.{◌≡◌, ◌≢◌, ◌≤◌, ◌<◌, length, map, string_bytes};
ghost use Rattle.mx_words.specs.Orders.{order_of};
ghost use Rattle.mx_top.specs.Causes.{Causes};
ghost use Rattle.mx_top.specs.ProgramClauses.{AnswersOverList, AnswersOverListWatched, Produces, ProducesWatched};
ghost use Rattle.mx_top.specs.Product as page;
ghost use Rattle.mx_top.specs.Telling as tells;
ghost use Rattle.mx_top.specs.WorkClauses.{CarriesOutProgramOnBoth, DoesProgram, HearsPlan, KeepsSaying, TellsAll, TellsBy};

use crate::generation::generate;
use crate::reports::{is_lacking, put_reports, reports_after, write_error};
use crate::run::run_machine;
use crate::schedules::run_scheduled;
use mx_begin::{Form, begin, word_bytes};
use mx_files::{assemble_file, list_file};
use mx_host::Host;
use mx_outcome::{Outcome, message};
use mx_watch::{Reports, Watcher};
use mx_word::Bytes;
use mx_words::{Command, Order, read};
use std::alloc::Global;

/// Runs the source or the object that the words name, with the arguments after it: a machine begins, and what has begun
/// runs.
fn run_ordered<H: Host>(
    alloc: Global,
    words: &[String],
    order: &Order,
    form: Form,
    host: &mut H,
    watchers: &mut Vec<Box<dyn Watcher>>,
    kept: &mut Reports,
) -> Outcome
    requires file { order.now.file < length words.now }
    requires rest { order.now.rest ≤ length words.now }
    ensures part { DoesProgram H.told H.faults host.old host.new result
        (page.run_file (map string_bytes words.now) order.now form) }
    ensures heard { HearsPlan (H.told host.old) result (map meaning watchers.old.items) (map meaning watchers.new.items)
        kept.old kept.new (page.run_file (map string_bytes words.now) order.now form) }
{
    match begin(alloc, host, words, order, form) {
        Ok(machine) => run_machine(alloc, host, order, machine, watchers, kept),
        Err(outcome) => outcome,
    }
}

/// Does what the words order.
fn carry_order<H: Host>(
    alloc: Global,
    words: &[String],
    order: &Order,
    host: &mut H,
    watchers: &mut Vec<Box<dyn Watcher>>,
    kept: &mut Reports,
) -> Outcome
    requires file { order.now.file < length words.now }
    requires rest { order.now.rest ≤ length words.now }
    requires schedule { order.now.schedule < length words.now }
    requires object { order.now.command ≡ Command.Asm → order.now.rest < length words.now }
    requires blocks { order.now.number ≤ 10000 }
    ensures part { DoesProgram H.told H.faults host.old host.new result
        (page.ordered_plan (map string_bytes words.now) order.now order.now.command) }
    ensures heard { HearsPlan (H.told host.old) result (map meaning watchers.old.items) (map meaning watchers.new.items)
        kept.old kept.new (page.ordered_plan (map string_bytes words.now) order.now order.now.command) }
{
    match order.command {
        Command::Run => run_ordered(alloc, words, order, Form::Source, host, watchers, kept),
        Command::Sim => run_ordered(alloc, words, order, Form::Object, host, watchers, kept),
        Command::Asm => assemble_file(
            alloc,
            host,
            word_bytes(words, order.file),
            word_bytes(words, order.rest),
        ),
        Command::Gen => generate(alloc, host, order),
        Command::Show => list_file(alloc, host, word_bytes(words, order.file)),
        Command::Multi => run_scheduled(
            alloc,
            host,
            order,
            word_bytes(words, order.schedule),
            word_bytes(words, order.file),
        ),
    }
}

/// Does what the words order, if they order something, without the message.
fn do_command<H: Host>(
    alloc: Global,
    words: &[String],
    host: &mut H,
    watchers: &mut Vec<Box<dyn Watcher>>,
    kept: &mut Reports,
) -> Outcome
    ensures both { CarriesOutProgramOnBoth (H.told host.old) (H.told host.new) result
        (page.work_plan (map string_bytes words.now) (order_of (map string_bytes words.now))) }
    ensures heard { HearsPlan (H.told host.old) result (map meaning watchers.old.items) (map meaning watchers.new.items)
        kept.old kept.new (page.work_plan (map string_bytes words.now) (order_of (map string_bytes words.now))) }
    ensures causes { Causes H.told H.faults host.old host.new result (map string_bytes words.now) }
{
    match read(words) {
        Ok(order) => carry_order(alloc, words, &order, host, watchers, kept),
        Err(fault) => Outcome::Usage(fault),
    }
}

/// Writes the message line of an outcome to the tool's standard error. A write that fails changes
/// nothing; where there is no memory for the line or its write, that is the outcome.
fn write_message<H: Host>(alloc: Global, host: &mut H, outcome: Outcome) -> Outcome
    ensures plan { TellsBy (H.told host.old) (H.told host.new) result (tells.message_plan outcome) }
    ensures same { result ≢ Outcome.OutOfMemory → result ≡ outcome }
    ensures keeps { KeepsSaying H.told H.faults host.old host.new }
{
    match message(alloc, outcome) {
        Ok(text) => write_line(host, outcome, text.as_slice()),
        Err(_) => Outcome::OutOfMemory,
    }
}

/// Writes a line to the tool's standard error, if there is something in it.
fn write_line<H: Host>(host: &mut H, outcome: Outcome, text: &[u8]) -> Outcome
    ensures plan { TellsBy (H.told host.old) (H.told host.new) result (tells.said_plan outcome text.now) }
    ensures same { result ≢ Outcome.OutOfMemory → result ≡ outcome }
    ensures keeps { KeepsSaying H.told H.faults host.old host.new }
{
    if text.is_empty() {
        return outcome;
    }
    if is_lacking(write_error(host, text)) {
        return Outcome::OutOfMemory;
    }
    outcome
}

/// Writes the message line of an outcome to the tool's standard error, and reports after it. Writes that fail change
/// nothing; where there is no memory, that is the outcome.
fn write_all<H: Host>(alloc: Global, host: &mut H, outcome: Outcome, texts: &[Bytes]) -> Outcome
    ensures plan { TellsAll (H.told host.old) (H.told host.new) result outcome texts.now }
    ensures same { result ≢ Outcome.OutOfMemory → result ≡ outcome }
    ensures keeps { KeepsSaying H.told H.faults host.old host.new }
{
    let told = write_message(alloc, host, outcome);
    put_reports(host, texts, told)
}

/// Does what the words of the command line order, as `mmixware` does, and tells watchers of the run where the words
/// ask for reports.
///
/// With `--report`, `run` and `sim` tell each watcher the trace of every step that the program completes, up to one
/// at which it is full; that one leaves the list. After the message, the report of each on what it heard is
/// written to slot 260, in the order of the list, if there is something in it; where the work found no memory, none is.
/// Nothing else changes: the outcome is that of `mmixware`, and so is all that the host holds before the reports, unless
/// the reports lack memory. Without `--report` no watcher is told anything.
pub fn mmixware_watched<H: Host>(
    alloc: Global,
    words: &[String],
    host: &mut H,
    watchers: &mut Vec<Box<dyn Watcher>>,
) -> Outcome
    ensures product { ProducesWatched (H.told host.old) (H.told host.new) result (map string_bytes words.now)
        (map meaning watchers.old.items) (map meaning watchers.new.items) }
    ensures headline { AnswersOverListWatched H.told host.old host.new result (map string_bytes words.now)
        (map meaning watchers.old.items) }
    ensures causes { Causes H.told H.faults host.old host.new result (map string_bytes words.now) }
{
    let count = watchers.len();
    let mut kept = Reports::new(alloc);
    let outcome = do_command(alloc, words, host, watchers, &mut kept);
    match reports_after(alloc, words, outcome, count, watchers, &kept) {
        Ok(texts) => write_all(alloc, host, outcome, texts.as_slice()),
        Err(_) => write_message(alloc, host, Outcome::OutOfMemory),
    }
}

/// Does what the words of the command line order, the program's name left out, and answers the
/// outcome.
///
/// The words `run SRC` assemble the source in the file SRC and run it, `asm SRC OBJ` assemble it
/// into the object file OBJ, `sim OBJ` run an object file, `gen N` run a source of N blocks that is
/// made, `type OBJ` list an object file, and `multi SCHED OBJ` run one on several processors. All else that
/// a user sees comes by the host: the object file, the program's own output, the dump that is asked for, the
/// listing, and a message line on slot 260 where the outcome is none of a program or of a tool that is done.
///
/// Over a host that tells its contents the outcome and all that the host then holds are those of
/// `product`, over a register window; and over an unbounded list of registers, as long as a program
/// does not look at rS or at the memory of the register stack, where standard output begins as that of
/// the list. Where memory runs out, the calls, steps and turns that were completed stay and nothing else
/// changed (`plan` of `Produces`), but for the message; standard output has been given a front of what `product` gives.
pub fn mmixware<H: Host>(alloc: Global, words: &[String], host: &mut H) -> Outcome
    ensures product { Produces (H.told host.old) (H.told host.new) result (map string_bytes words.now) }
    ensures headline { AnswersOverList (H.told host.old) (H.told host.new) result (map string_bytes words.now) }
    ensures causes { Causes H.told H.faults host.old host.new result (map string_bytes words.now) }
{
    let mut nobody = Vec::new(alloc);
    mmixware_watched(alloc, words, host, &mut nobody)
}
