//! The reports of watchers, after the message.

ghost use Rattle.std.specs.Prelude.{◌≡◌, ◌≢◌, ◌≤◌, [], Err, IfErr, IfOk, map, string_bytes};
ghost use Rattle.mx_words.specs.Orders.{order_of};
ghost use Rattle.mx_plan.specs.Calls.{write_plan};
ghost use Rattle.mx_plan.specs.Clauses.{CarriesOutOnHost};
ghost use Rattle.mx_top.specs.Telling as tells;
ghost use Rattle.mx_top.specs.Reports as spec;
ghost use Rattle.mx_top.specs.Reports.{AreAsked};
ghost use Rattle.mx_top.specs.WorkClauses.{KeepsSaying, TellsBy};
ghost use Rattle.mx_top.specs.WorkClauses.{is_lacking as lacks_memory};

use mx_host::{Host, HostFault};
use mx_outcome::Outcome;
use mx_watch::{Reports, Texts, Watcher, collect_reports};
use mx_word::{Bytes, NoMemory};
use mx_words::read;
use std::alloc::Global;

/// The reports that the words ask for: of the watchers that are left of this many, and those that are kept.
///
/// Errors: out of memory, where the words ask for some.
fn collect_asked_reports(
    alloc: Global,
    words: &[String],
    count: usize,
    watchers: &Vec<Box<dyn Watcher>>,
    kept: &Reports,
) -> Result<Texts, NoMemory>
    ensures texts { IfOk result (λ texts. texts ≡ spec.found_reports (order_of (map string_bytes words.now)) count
        (map meaning watchers.now.items) kept.now) }
    ensures asked { IfErr result (λ lack. AreAsked (order_of (map string_bytes words.now))) }
{
    match read(words) {
        Ok(order) => {
            if order.report {
                collect_reports(alloc, count, watchers, kept)
            } else {
                Ok(Texts::new(alloc))
            }
        }
        Err(_) => Ok(Texts::new(alloc)),
    }
}

/// The reports that follow an outcome: those that the words ask for. There are none where the work found no memory, nor where
/// nobody watches.
///
/// Errors: out of memory, where there are some.
#[tactic(auto, using(crate::proofs::Heard::unwatched_found))]
pub fn reports_after(
    alloc: Global,
    words: &[String],
    after: Outcome,
    count: usize,
    watchers: &Vec<Box<dyn Watcher>>,
    kept: &Reports,
) -> Result<Texts, NoMemory>
    ensures texts { after ≢ Outcome.OutOfMemory → IfOk result (λ texts.
        texts ≡ spec.found_reports (order_of (map string_bytes words.now)) count (map meaning watchers.now.items) kept.now) }
    ensures none { after ≡ Outcome.OutOfMemory → IfOk result (λ texts. texts ≡ []) }
    ensures asked { IfErr result (λ lack. AreAsked (order_of (map string_bytes words.now))) }
    ensures watched { IfErr result (λ lack. 1 ≤ count) }
    ensures worked { IfErr result (λ lack. after ≢ Outcome.OutOfMemory) }
{
    if let Outcome::OutOfMemory = after {
        return Ok(Texts::new(alloc));
    }
    if count == 0 {
        return Ok(Texts::new(alloc));
    }
    collect_asked_reports(alloc, words, count, watchers, kept)
}

/// Writes bytes to the tool's standard error.
///
/// Errors: those of the write.
#[tactic(auto, unfolding(mx_plan::specs::Calls::write_plan, mx_plan::specs::Calls::host, mx_plan::specs::Plan::end_of, mx_plan::specs::Plan::Stops, mx_host::specs::HostAnswer::write_answer))]
pub fn write_error<H: Host>(host: &mut H, text: &[u8]) -> Result<(), HostFault>
    ensures plan { CarriesOutOnHost (H.told host.old) (H.told host.new) (Err HostFault.OutOfMemory) result
        (write_plan 260 text.now) }
    ensures keeps { KeepsSaying H.told H.faults host.old host.new }
{
    host.write_slot(260, text)
}

/// Writes a report to the tool's standard error, if there is something in it. A write that fails changes nothing.
///
/// Errors: those of the write.
fn put_report<H: Host>(host: &mut H, text: &[u8]) -> Result<(), HostFault>
    ensures plan { CarriesOutOnHost (H.told host.old) (H.told host.new) (Err HostFault.OutOfMemory) result
        (tells.report_plan text.now) }
    ensures keeps { KeepsSaying H.told H.faults host.old host.new }
{
    if text.is_empty() {
        return Ok(());
    }
    write_error(host, text)
}

/// Whether a write lacked memory.
pub fn is_lacking(written: Result<(), HostFault>) -> bool
    ensures { result ≡ lacks_memory written }
{
    match written {
        Ok(()) => false,
        Err(HostFault::OutOfMemory) => true,
        Err(HostFault::Failed) => false,
        Err(HostFault::Misused) => false,
    }
}

/// Writes reports, one write for each that is not empty, and answers the outcome, or that there was no memory.
pub fn put_reports<H: Host>(host: &mut H, texts: &[Bytes], outcome: Outcome) -> Outcome
    ensures plan { TellsBy (H.told host.old) (H.told host.new) result (tells.reports_plan outcome texts.now) }
    ensures same { result ≢ Outcome.OutOfMemory → result ≡ outcome }
    ensures keeps { KeepsSaying H.told H.faults host.old host.new }
{
    for text in texts {
        if is_lacking(put_report(host, text.as_slice())) {
            return Outcome::OutOfMemory;
        }
    }
    outcome
}
