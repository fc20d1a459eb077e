//! What is shown of an object.

ghost use Rattle.std.specs.Prelude.{◌≡◌, ◌≢◌, Err, IfOk};
ghost use Rattle.mx_face.specs.Pages.{IsOfView};
ghost use Rattle.mx_object.specs.Listing.{answer_in, object_found, object_listed};
ghost use Rattle.face_source.specs.ViewPages as spec;

use mx_face::Page;
use mx_json::add_between;
use mx_load::ObjectFault;
use mx_object::{FoundTetra, ListedObject, find_tetra, format_found, format_listing, list_object};
use mx_outcome::{Outcome, message};
use mx_text::octa_hex;
use mx_word::{Bytes, NoMemory};
use mx_words::WordsFault;
use std::alloc::Global;

/// The remark on `--json`.
#[tactic(auto, unfolding(crate::specs::ViewPages::json_refused))]
fn json_remark() -> &'static [u8]
    ensures { result.now ≡ spec.json_refused }
{
    b"error: --json is for sources\n"
}

/// An object is not written as JSON.
#[tactic(auto, unfolding(crate::specs::ViewPages::json_page))]
fn json_page(alloc: Global) -> Result<Page, NoMemory>
    ensures page { IfOk result (λ page. page ≡ spec.json_page) }
    ensures view { IfOk result (λ page. IsOfView page.outcome) }
{
    let remark = Bytes::copy(alloc, json_remark())?;
    Ok(Page {
        text: Bytes::new(alloc),
        remark,
        outcome: Outcome::Usage(WordsFault { kind: 3, word: 1 }),
    })
}

/// That an object is refused so.
#[tactic(auto, unfolding(crate::specs::ViewPages::told_page))]
fn refusal_page(alloc: Global, place: u64, fault: u16) -> Result<Page, NoMemory>
    ensures page { IfOk result (λ page. page ≡ spec.told_page (Outcome.BadObject place fault)) }
    ensures view { IfOk result (λ page. IsOfView page.outcome) }
{
    let outcome = Outcome::BadObject { place, fault };
    let remark = message(alloc, outcome)?;
    Ok(Page {
        text: Bytes::new(alloc),
        remark,
        outcome,
    })
}

/// What is shown where all is done.
fn make_done_page(text: Bytes, remark: Bytes) -> Page
    ensures page { result ≡ record { text = text; remark = remark; outcome = Outcome.Done 0 } }
    ensures view { IsOfView result.outcome }
{
    Page {
        text,
        remark,
        outcome: Outcome::Done(0),
    }
}

/// The listing of an object.
fn listing_page(alloc: Global, listed: &ListedObject) -> Result<Page, NoMemory>
    ensures page { IfOk result (λ page. page ≡ spec.accepted_page listed.now) }
    ensures view { IfOk result (λ page. IsOfView page.outcome) }
{
    let text = format_listing(alloc, listed)?;
    Ok(make_done_page(text, Bytes::new(alloc)))
}

/// The listing of an object, or why it is refused.
#[tactic(auto, unfolding(crate::specs::ViewPages::listed_page))]
fn listing_or_refusal_page(alloc: Global, bytes: &[u8]) -> Result<Page, NoMemory>
    ensures page { IfOk result (λ page. page ≡ spec.listed_page (object_listed bytes.now)) }
    ensures view { IfOk result (λ page. IsOfView page.outcome) }
{
    match list_object(alloc, bytes) {
        Ok(listed) => listing_page(alloc, &listed),
        Err(ObjectFault::Bad { place, fault }) => refusal_page(alloc, place, fault),
        Err(ObjectFault::OutOfMemory) => Err(NoMemory),
    }
}

/// What `list` has to say of an object.
pub(crate) fn list_page_of(alloc: Global, is_json: bool, bytes: &[u8]) -> Result<Page, NoMemory>
    ensures page { IfOk result (λ page. page ≡ spec.list_object is_json bytes.now) }
    ensures view { IfOk result (λ page. IsOfView page.outcome) }
{
    if is_json {
        return json_page(alloc);
    }
    listing_or_refusal_page(alloc, bytes)
}

/// What is said of an address that no tetra has.
#[tactic(auto, unfolding(crate::specs::ViewPages::none_has))]
fn none_has() -> &'static [u8]
    ensures { result.now ≡ spec.none_has }
{
    b"no tetra has the address "
}

/// That no tetra has an address.
#[tactic(auto, unfolding(crate::specs::ViewPages::no_tetra))]
fn no_tetra(alloc: Global, address: u64) -> Result<Bytes, NoMemory>
    ensures { IfOk result (λ text. text ≡ spec.no_tetra address) }
{
    let mut text = Bytes::new(alloc);
    add_between(&mut text, none_has(), &octa_hex(address), b"\n")?;
    Ok(text)
}

/// What is said beside the tetra that holds an address.
fn remark(alloc: Global, address: u64, found: &Option<FoundTetra>) -> Result<Bytes, NoMemory>
    ensures { IfOk result (λ text. text ≡ spec.found_remark address found.now) }
{
    match found {
        Some(_) => Ok(Bytes::new(alloc)),
        None => no_tetra(alloc, address),
    }
}

/// The tetra that holds an address.
fn tetra_page(alloc: Global, address: u64, found: &Option<FoundTetra>) -> Result<Page, NoMemory>
    ensures page { IfOk result (λ page. page ≡ spec.tetra_page address found.now) }
    ensures view { IfOk result (λ page. IsOfView page.outcome) }
{
    let text = format_found(alloc, found)?;
    let remark = remark(alloc, address, found)?;
    Ok(make_done_page(text, remark))
}

/// The tetra that holds an address, or why the object is refused.
#[tactic(auto, unfolding(crate::specs::ViewPages::found_page))]
fn tetra_or_refusal_page(alloc: Global, address: u64, bytes: &[u8]) -> Result<Page, NoMemory>
    ensures page { IfOk result (λ page. page ≡ spec.found_page address (object_found bytes.now address)) }
    ensures view { IfOk result (λ page. IsOfView page.outcome) }
{
    match find_tetra(alloc, bytes, address) {
        Ok(found) => tetra_page(alloc, address, &found),
        Err(ObjectFault::Bad { place, fault }) => refusal_page(alloc, place, fault),
        Err(ObjectFault::OutOfMemory) => Err(NoMemory),
    }
}

/// What `where` has to say of an object.
pub(crate) fn where_page_of(
    alloc: Global,
    is_json: bool,
    address: u64,
    bytes: &[u8],
) -> Result<Page, NoMemory>
    ensures page { IfOk result (λ page. page ≡ spec.where_object is_json address bytes.now) }
    ensures view { IfOk result (λ page. IsOfView page.outcome) }
{
    if is_json {
        return json_page(alloc);
    }
    tetra_or_refusal_page(alloc, address, bytes)
}
