//! What the words after `page` order.

ghost use Rattle.std.specs.Prelude.{◌<◌, ◌≤◌, IfErr, IfOk, length};
ghost use Rattle.mx_count.specs.Runs.{AreArguments};
ghost use Rattle.mx_face.specs.Pages.{FaultsOnlyBy, IsOfView};

use crate::data::{Call, Program, data};
use mx_begin::{Form, collect_arguments};
use mx_count::count_lines;
use mx_face::{Page, put_page, tell};
use mx_host::Host;
use mx_inputs::{Gathered, Ordered, Unread, gather};
use mx_object::{count_object, is_object, list_object};
use mx_outcome::{Outcome, message};
use mx_view::{Wanted, list_source, tell_faults};
use mx_word::{Bytes, NoMemory};
use mx_words::Order;
use page_parts::{page_head, page_tail};
use page_run::{
    Ending, Made, host_of, make_refused, of_memory, program_of, read_order, record_run,
};
use std::alloc::Global;

/// Whether bytes are a source or an object.
fn form_of(bytes: &[u8]) -> Form {
    if is_object(bytes) {
        Form::Object
    } else {
        Form::Source
    }
}

/// Records the run of a program.
fn record(
    alloc: Global,
    words: &[String],
    order: &Order,
    gathered: &Gathered,
) -> Result<Made, Outcome>
    requires file { order.now.file < length words.now }
    requires rest { order.now.rest ≤ length words.now }
    ensures { IfErr result IsOfView }
{
    let form = form_of(gathered.source.as_slice());
    match program_of(alloc, words, order, form, gathered) {
        Ok(program) => record_run(alloc, program, order.steps),
        Err(NoMemory) => Err(Outcome::OutOfMemory),
    }
}

/// What is shown of a source that was run: it is run once more, for as many steps, and counted.
fn view_source_run(
    alloc: Global,
    order: &Order,
    gathered: &Gathered,
    given: &[Bytes],
) -> Result<Program, NoMemory>
    requires { AreArguments given.now }
{
    let source = gathered.source.as_slice();
    let mut host = host_of(alloc, gathered)?;
    let listed = list_source(alloc, Wanted::All, source)?;
    match count_lines(alloc, &mut host, order, source, given).sheet {
        Some(sheet) => Ok(Program::Source { listed, sheet }),
        None => Err(NoMemory),
    }
}

/// What is shown of an object that was run.
fn view_object_run(
    alloc: Global,
    order: &Order,
    gathered: &Gathered,
    given: &[Bytes],
) -> Result<Program, NoMemory>
    requires { AreArguments given.now }
{
    let bytes = gathered.source.as_slice();
    let mut host = host_of(alloc, gathered)?;
    let Ok(listed) = list_object(alloc, bytes) else {
        return Err(NoMemory);
    };
    match count_object(alloc, &mut host, order, bytes, given).sheet {
        Some(sheet) => Ok(Program::Object {
            symbols: listed.symbols.into_vec(),
            sheet,
        }),
        None => Err(NoMemory),
    }
}

/// What is shown of a program that was run for this many steps.
fn view_run(
    alloc: Global,
    words: &[String],
    order: &Order,
    gathered: &Gathered,
    steps: u64,
) -> Result<Program, NoMemory>
    requires file { order.now.file < length words.now }
    requires rest { order.now.rest ≤ length words.now }
{
    let given = collect_arguments(alloc, words, order)?;
    let made = Order {
        steps: steps.max(1),
        ..*order
    };
    if is_object(gathered.source.as_slice()) {
        return view_object_run(alloc, &made, gathered, given.as_slice());
    }
    view_source_run(alloc, &made, gathered, given.as_slice())
}

/// What is shown of a program that was not run.
fn view_without_run(alloc: Global, gathered: &Gathered) -> Result<Program, NoMemory> {
    let source = gathered.source.as_slice();
    if is_object(source) {
        return Ok(Program::Nothing);
    }
    Ok(Program::Faulty(tell_faults(alloc, source)?))
}

/// The page around data: no `<` is in it, so nothing there ends its element.
fn around(alloc: Global, data: &[u8]) -> Result<Bytes, NoMemory> {
    let mut text = Bytes::copy(alloc, page_head().as_bytes())?;
    for b in data {
        if *b == b'<' {
            text.extend(b"\\u003c")?;
        } else {
            text.push(*b)?;
        }
    }
    text.extend(page_tail().as_bytes())?;
    Ok(text)
}

/// The text of a page: the data alone, as a line, or the page around it.
fn text_of(alloc: Global, is_json: bool, data: Bytes) -> Result<Bytes, NoMemory> {
    if !is_json {
        return around(alloc, data.as_slice());
    }
    let mut line = data;
    line.extend(b"\n")?;
    Ok(line)
}

/// What there is to show of a run, or of a program that is refused.
fn make_page(
    alloc: Global,
    version: &str,
    ordered: &Ordered,
    gathered: &Gathered,
    made: &Made,
) -> Result<Page, NoMemory>
    requires file { ordered.now.order.file < length ordered.now.named.words.items }
    requires rest { ordered.now.order.rest ≤ length ordered.now.named.words.items }
    ensures { IfOk result (λ page. IsOfView page.outcome) }
{
    let words = ordered.named.words.as_slice();
    let program = match made.ending {
        Ending::Refused => view_without_run(alloc, gathered)?,
        _ => view_run(alloc, words, &ordered.order, gathered, made.steps)?,
    };
    let call = Call {
        words,
        order: &ordered.order,
        version,
    };
    let source = gathered.source.as_slice();
    let data = data(alloc, call, source, is_object(source), &program, made)?;
    let outcome = of_memory(made.outcome);
    Ok(Page {
        text: text_of(alloc, ordered.named.own.is_some(), data)?,
        remark: message(alloc, outcome)?,
        outcome,
    })
}

/// Shows a run, or a program that is refused.
fn show<H: Host>(
    alloc: Global,
    host: &mut H,
    version: &str,
    ordered: &Ordered,
    gathered: &Gathered,
    made: &Made,
) -> Outcome
    requires file { ordered.now.order.file < length ordered.now.named.words.items }
    requires rest { ordered.now.order.rest ≤ length ordered.now.named.words.items }
    ensures { FaultsOnlyBy H.told H.faults host.old host.new result }
{
    match make_page(alloc, version, ordered, gathered, made) {
        Ok(page) => put_page(alloc, host, &page),
        Err(NoMemory) => tell(alloc, host, Outcome::OutOfMemory),
    }
}

/// Records the run of what was read, and shows it.
fn show_gathered<H: Host>(
    alloc: Global,
    host: &mut H,
    version: &str,
    ordered: &Ordered,
    gathered: &Gathered,
) -> Outcome
    requires file { ordered.now.order.file < length ordered.now.named.words.items }
    requires rest { ordered.now.order.rest ≤ length ordered.now.named.words.items }
    ensures { FaultsOnlyBy H.told H.faults host.old host.new result }
{
    let words = ordered.named.words.as_slice();
    match record(alloc, words, &ordered.order, gathered) {
        Ok(made) => show(alloc, host, version, ordered, gathered, &made),
        Err(outcome) => match make_refused(alloc, outcome) {
            Some(made) => show(alloc, host, version, ordered, gathered, &made),
            None => tell(alloc, host, outcome),
        },
    }
}

/// Reads what the words name, and shows its run.
fn page_ordered<H: Host>(
    alloc: Global,
    host: &mut H,
    version: &str,
    words: &[String],
    ordered: &Ordered,
) -> Outcome
    requires file { ordered.now.order.file < length ordered.now.named.words.items }
    requires rest { ordered.now.order.rest ≤ length ordered.now.named.words.items }
    ensures { FaultsOnlyBy H.told H.faults host.old host.new result }
{
    match gather(alloc, host, words, ordered) {
        Ok(gathered) => show_gathered(alloc, host, version, ordered, &gathered),
        Err(outcome) => tell(alloc, host, outcome),
    }
}

/// Does what the words after `page` order: the source or the object is run over a host in memory, turn by turn, and the page of
/// the run is written, or, after `--json`, its data. It answers the outcome of the run, which its message tells.
pub fn page<H: Host>(alloc: Global, host: &mut H, version: &str, words: &[String]) -> Outcome
    ensures causes { FaultsOnlyBy H.told H.faults host.old host.new result }
{
    match read_order(alloc, words) {
        Ok(ordered) => page_ordered(alloc, host, version, words, &ordered),
        Err(Unread::Fault(fault)) => tell(alloc, host, Outcome::Usage(fault)),
        Err(Unread::OutOfMemory) => tell(alloc, host, Outcome::OutOfMemory),
    }
}
