//! The program of a launch, read over the host.

ghost use Rattle.std.specs.Prelude.{◌<◌, ◌≤◌, length};
ghost use Rattle.mx_host.specs.Keeping.{Keeps};

use face_debug::begin_session;
use mx_adapter::Launch;
use mx_debug::Session as Debugged;
use mx_host::Host;
use mx_inputs::{Gathered, Ordered, OwnOption, Unread, gather, read_order};
use mx_outcome::{Outcome, message};
use mx_view::list_faults;
use mx_word::{Bytes, NoMemory};
use std::alloc::Global;

/// What comes of a launch: a session at the start of the program, or all faults of its source, if that is refused, and a line that says
/// why there is none.
#[derive(Drop)]
pub(crate) enum Launched {
    Begun(Debugged),
    Refused(Bytes, Bytes),
}

/// A text without the newline that ends it.
fn without_newline(text: &[u8]) -> &[u8] {
    match text {
        [line @ .., b'\n'] => line,
        _ => text,
    }
}

/// Tells why there is no program.
fn refusal(alloc: Global, faults: Bytes, outcome: Outcome) -> Result<Launched, NoMemory> {
    let said = message(alloc, outcome)?;
    let why = Bytes::copy(alloc, without_newline(said.as_slice()))?;
    Ok(Launched::Refused(faults, why))
}

/// Tells why a source or an object is refused: of a source all its faults.
fn refusal_of(alloc: Global, source: &[u8], outcome: Outcome) -> Result<Launched, NoMemory> {
    match outcome {
        Outcome::Refused { .. } => {
            let sheet = list_faults(alloc, source)?;
            refusal(alloc, sheet.text, outcome)
        }
        _ => refusal(alloc, Bytes::new(alloc), outcome),
    }
}

/// Begins the program that was read.
fn begin(alloc: Global, ordered: Ordered, gathered: Gathered) -> Result<Launched, NoMemory>
    requires file { ordered.order.file < length ordered.named.words.items }
    requires rest { ordered.order.rest ≤ length ordered.named.words.items }
{
    let source = Bytes::copy(alloc, gathered.source.as_slice())?;
    match begin_session(alloc, ordered, gathered) {
        Ok(session) => Ok(Launched::Begun(session)),
        Err(outcome) => refusal_of(alloc, source.as_slice(), outcome),
    }
}

/// Reads what the words name, and begins the program.
fn launch_ordered<H: Host>(
    alloc: Global,
    host: &mut H,
    words: &[String],
    ordered: Ordered,
) -> Result<Launched, NoMemory>
    requires file { ordered.order.file < length ordered.named.words.items }
    requires rest { ordered.order.rest ≤ length ordered.named.words.items }
    ensures { Keeps (H.told host.old) (H.told host.new) (H.faults host.old) (H.faults host.new) }
{
    match gather(alloc, host, words, &ordered) {
        Ok(gathered) => begin(alloc, ordered, gathered),
        Err(outcome) => refusal(alloc, Bytes::new(alloc), outcome),
    }
}

/// Reads the program of a launch with its files, and begins it.
pub(crate) fn launch<H: Host>(
    alloc: Global,
    host: &mut H,
    wanted: &Launch,
) -> Result<Launched, NoMemory>
    ensures { Keeps (H.told host.old) (H.told host.new) (H.faults host.old) (H.faults host.new) }
{
    let own = OwnOption {
        name: "--json",
        has_value: false,
    };
    let words = wanted.words.as_slice();
    match read_order(alloc, own, words) {
        Ok(ordered) => launch_ordered(alloc, host, words, ordered),
        Err(Unread::Fault(fault)) => refusal(alloc, Bytes::new(alloc), Outcome::Usage(fault)),
        Err(Unread::OutOfMemory) => Err(NoMemory),
    }
}
