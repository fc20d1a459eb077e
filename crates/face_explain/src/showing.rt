//! What `explain` writes.

ghost use Rattle.std.specs.Prelude.{◌≡◌, IfOk};
ghost use Rattle.mx_face.specs.Pages.{FaultsOnlyBy, IsOfView, page_put};
ghost use Rattle.mx_host.specs.Keeping.{Answers};
ghost use Rattle.face_explain.specs.ExplainPages as spec;

use crate::answer::{Answer, explain};
use crate::columns::list;
use mx_face::{Page, put_page, tell};
use mx_host::Host;
use mx_outcome::Outcome;
use mx_word::{Bytes, NoMemory};
use mx_words::WordsFault;
use std::alloc::Global;

/// A page with this text.
fn page_of_text(alloc: Global, text: Bytes) -> Page
    ensures page { result ≡ spec.shown text }
    ensures view { IsOfView result.outcome }
{
    Page {
        text,
        remark: Bytes::new(alloc),
        outcome: Outcome::Done(0),
    }
}

/// A page that only says that a word is unknown.
fn unknown(alloc: Global, remark: Bytes) -> Page
    ensures page { result ≡ spec.unknown remark }
    ensures view { IsOfView result.outcome }
{
    Page {
        text: Bytes::new(alloc),
        remark,
        outcome: Outcome::Usage(WordsFault { kind: 5, word: 1 }),
    }
}

/// What is said of a word.
fn word_page(alloc: Global, word: &str) -> Result<Page, NoMemory>
    ensures page { IfOk result (λ page. page ≡ spec.word_page word.now) }
    ensures view { IfOk result (λ page. IsOfView page.outcome) }
{
    match explain(alloc, word)? {
        Answer::Explained(text) => Ok(page_of_text(alloc, text)),
        Answer::Unknown(remark) => Ok(unknown(alloc, remark)),
    }
}

/// The list of all that is explained.
fn list_page(alloc: Global) -> Result<Page, NoMemory>
    ensures page { IfOk result (λ page. page ≡ spec.list_page) }
    ensures view { IfOk result (λ page. IsOfView page.outcome) }
{
    Ok(page_of_text(alloc, list(alloc)?))
}

/// Says what a word means on standard output; an unknown word is told on standard error. Answers the outcome: that the words are at
/// fault where the word is unknown, a fault of the host, or that there was no memory.
pub fn show_word<H: Host>(alloc: Global, host: &mut H, word: &str) -> Outcome
    ensures told { Answers (H.told host.old) (H.told host.new) Outcome.OutOfMemory result
        (λ m. page_put (spec.word_page word.now) m) }
    ensures causes { FaultsOnlyBy H.told H.faults host.old host.new result }
{
    match word_page(alloc, word) {
        Ok(page) => put_page(alloc, host, &page),
        Err(_) => tell(alloc, host, Outcome::OutOfMemory),
    }
}

/// Lists all that is explained on standard output. Answers the outcome: a fault of the host, or that there was no memory.
pub fn show_list<H: Host>(alloc: Global, host: &mut H) -> Outcome
    ensures told { Answers (H.told host.old) (H.told host.new) Outcome.OutOfMemory result
        (λ m. page_put spec.list_page m) }
    ensures causes { FaultsOnlyBy H.told H.faults host.old host.new result }
{
    match list_page(alloc) {
        Ok(page) => put_page(alloc, host, &page),
        Err(_) => tell(alloc, host, Outcome::OutOfMemory),
    }
}
