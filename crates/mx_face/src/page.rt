//! What a view has to say.

ghost use Rattle.std.specs.Prelude.{◌≡◌, Err};
ghost use Rattle.mx_host.specs.Keeping.{Answers};
ghost use Rattle.mx_face.specs.Pages as spec;
ghost use Rattle.mx_face.specs.Pages.{FaultsOnlyBy, FaultsOnward, IsOfView, PartFaultsOnlyBy};

use crate::telling::{add_remark, tell};
use mx_files::Refusal;
use mx_host::{Host, HostFault};
use mx_outcome::Outcome;
use mx_word::Bytes;
use std::alloc::Global;

/// The slot of the tool's standard output.
const OUTPUT: u16 = 259;

/// What a view has to say: a text for standard output, one for standard error, and the outcome. A text of no bytes is not written.
#[derive(Drop)]
pub struct Page {
    pub text: Bytes,
    pub remark: Bytes,
    pub outcome: Outcome,
}

/// Writes a text to the tool's standard output, if there is something in it.
fn put_text<H: Host>(host: &mut H, text: &[u8]) -> Result<(), Outcome>
    ensures told { Answers (H.told host.old) (H.told host.new) (Err Outcome.OutOfMemory) result
        (λ m. spec.text_put text.now m) }
    ensures causes { PartFaultsOnlyBy H.told H.faults host.old host.new result }
{
    match text {
        [] => Ok(()),
        [_, ..] => match host.write_slot(OUTPUT, text) {
            Ok(()) => Ok(()),
            Err(HostFault::OutOfMemory) => Err(Outcome::OutOfMemory),
            Err(HostFault::Failed) => Err(Outcome::HostFault),
            Err(HostFault::Misused) => Err(Outcome::HostFault),
        },
    }
}

/// Writes a page: its text, and then its remark. Where the text is not written, that is told in place of the remark. Where there is
/// no memory for a write, that is the outcome.
pub fn put_page<H: Host>(alloc: Global, host: &mut H, page: &Page) -> Outcome
    ensures told { Answers (H.told host.old) (H.told host.new) Outcome.OutOfMemory result
        (λ m. spec.page_put page.now m) }
    ensures onward { FaultsOnward H.told H.faults host.old host.new page.now.outcome result }
    ensures causes { IsOfView page.now.outcome → FaultsOnlyBy H.told H.faults host.old host.new result }
{
    match put_text(host, page.text.as_slice()) {
        Ok(()) => add_remark(host, page.outcome, page.remark.as_slice()),
        Err(outcome) => tell(alloc, host, outcome),
    }
}

/// The outcome of a source that is refused so, if it is.
pub fn outcome_of(refused: Option<Refusal>) -> Outcome
    ensures value { result ≡ spec.outcome_of refused }
    ensures view { IsOfView result }
{
    match refused {
        None => Outcome::Done(0),
        Some(refused) => refused.outcome(),
    }
}
