//! The listing of a source or an object.

ghost use Rattle.std.specs.Prelude.{◌≡◌, ◌++◌, IfOk, OnOk, false, true};
ghost use Rattle.mx_face.specs.Pages.{FaultsOnlyBy, IsOfView, page_put};
ghost use Rattle.mx_host.specs.Keeping.{Answers};
ghost use Rattle.mx_view.specs.Listing.{refusal_in};
ghost use Rattle.face_source.specs.SourceJson.{accepted_name, listing_json};
ghost use Rattle.face_source.specs.SourcePages as spec;
ghost use Rattle.face_source.specs.ViewPages.{list_view, shown_view};

use crate::json::{add_lines, add_symbols};
use crate::object::list_page_of;
use crate::reading::read_view;
use mx_face::{Page, add_refusal, outcome_of, put_page, tell, visible_text};
use mx_host::Host;
use mx_json::add_flag;
use mx_object::is_object;
use mx_outcome::{Outcome, message};
use mx_view::{Listed, Sheet, Wanted, list_source, listing};
use mx_word::{Bytes, NoMemory};
use std::alloc::Global;

/// The name of what says whether a source is accepted.
#[tactic(auto, unfolding(crate::specs::SourceJson::accepted_name))]
fn accepted_key() -> &'static [u8]
    ensures { result.now ≡ accepted_name }
{
    b"{\"accepted\":"
}

/// Adds the listing as a line of JSON.
#[tactic(auto, unfolding(crate::specs::SourceJson::listing_json))]
fn add_listing(alloc: Global, text: &mut Bytes, listed: &Listed) -> Result<(), NoMemory>
    ensures { OnOk result (text.new ≡ text.old ++ listing_json listed.now) }
{
    add_flag(text, accepted_key(), listed.refused.is_none())?;
    text.extend(b",\"lines\":")?;
    add_lines(alloc, text, listed.lines.as_slice())?;
    add_refusal(text, b",\"refused\":", listed.refused)?;
    text.extend(b",\"symbols\":")?;
    add_symbols(alloc, text, listed.symbols.as_slice())?;
    text.extend(b"}\n")
}

/// The listing as JSON.
fn listing_as_json(alloc: Global, source: &[u8]) -> Result<Sheet, NoMemory>
    ensures text { IfOk result (λ sheet. sheet.text ≡ spec.list_text true source.now) }
    ensures refused { IfOk result (λ sheet. sheet.refused ≡ refusal_in source.now) }
{
    let listed = list_source(alloc, Wanted::All, source)?;
    let mut text = Bytes::new(alloc);
    add_listing(alloc, &mut text, &listed)?;
    Ok(Sheet {
        text,
        refused: listed.refused,
    })
}

/// The listing as a text, with control characters by their numbers.
fn listing_as_text(alloc: Global, source: &[u8]) -> Result<Sheet, NoMemory>
    ensures text { IfOk result (λ sheet. sheet.text ≡ spec.list_text false source.now) }
    ensures refused { IfOk result (λ sheet. sheet.refused ≡ refusal_in source.now) }
{
    let sheet = listing(alloc, source)?;
    let text = visible_text(alloc, sheet.text.as_slice())?;
    Ok(Sheet {
        text,
        refused: sheet.refused,
    })
}

/// The listing as a text or as JSON.
fn sheet(alloc: Global, is_json: bool, source: &[u8]) -> Result<Sheet, NoMemory>
    ensures text { IfOk result (λ sheet. sheet.text ≡ spec.list_text is_json source.now) }
    ensures refused { IfOk result (λ sheet. sheet.refused ≡ refusal_in source.now) }
{
    if is_json {
        return listing_as_json(alloc, source);
    }
    listing_as_text(alloc, source)
}

/// What `list` has to say of a source.
#[tactic(auto, unfolding(crate::specs::SourcePages::list_page))]
fn list_page(alloc: Global, is_json: bool, source: &[u8]) -> Result<Page, NoMemory>
    ensures page { IfOk result (λ page. page ≡ spec.list_page is_json source.now) }
    ensures view { IfOk result (λ page. IsOfView page.outcome) }
{
    let sheet = sheet(alloc, is_json, source)?;
    let outcome = outcome_of(sheet.refused);
    let remark = message(alloc, outcome)?;
    Ok(Page {
        text: sheet.text,
        remark,
        outcome,
    })
}

/// What `list` has to say of a source or an object.
#[tactic(auto, unfolding(crate::specs::ViewPages::list_view))]
fn list_view(alloc: Global, is_json: bool, bytes: &[u8]) -> Result<Page, NoMemory>
    ensures page { IfOk result (λ page. page ≡ list_view is_json bytes.now) }
    ensures view { IfOk result (λ page. IsOfView page.outcome) }
{
    if is_object(bytes) {
        return list_page_of(alloc, is_json, bytes);
    }
    list_page(alloc, is_json, bytes)
}

/// Shows the listing of a source or an object.
fn show_listing<H: Host>(alloc: Global, host: &mut H, is_json: bool, bytes: &[u8]) -> Outcome
    ensures told { Answers (H.told host.old) (H.told host.new) Outcome.OutOfMemory result
        (λ m. page_put (list_view is_json bytes.now) m) }
    ensures causes { FaultsOnlyBy H.told H.faults host.old host.new result }
{
    match list_view(alloc, is_json, bytes) {
        Ok(page) => put_page(alloc, host, &page),
        Err(_) => tell(alloc, host, Outcome::OutOfMemory),
    }
}

/// Shows the listing of the source or the object in the file of this name, as a text or, if it is a source, as a line of JSON, and
/// answers the outcome: that of the source or the object, which is told if it is refused; that an object is not written as JSON; that
/// the file is missing; a fault of the host; or that there was no memory.
pub fn list<H: Host>(alloc: Global, host: &mut H, is_json: bool, name: &[u8]) -> Outcome
    ensures told { Answers (H.told host.old) (H.told host.new) Outcome.OutOfMemory result
        (λ m. shown_view (list_view is_json) name.now m) }
    ensures causes { FaultsOnlyBy H.told H.faults host.old host.new result }
{
    match read_view(alloc, host, name) {
        Ok(bytes) => show_listing(alloc, host, is_json, bytes.as_slice()),
        Err(outcome) => outcome,
    }
}
