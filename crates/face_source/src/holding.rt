//! The lines or the tetra of an address.

ghost use Rattle.std.specs.Prelude.{◌≡◌, ◌++◌, IfOk, OnOk, true};
ghost use Rattle.mx_face.specs.Pages.{FaultsOnlyBy, IsOfView, Shows, page_put};
ghost use Rattle.mx_view.specs.Listing.{lines_listed, refusal_in};
ghost use Rattle.mx_view.specs.declared.cells.Wanted.TheVariants.{Holding};
ghost use Rattle.face_source.specs.SourceJson.{holding_json};
ghost use Rattle.face_source.specs.SourcePages as spec;
ghost use Rattle.face_source.specs.ViewPages.{shown_view, where_view};

use crate::json::{add_at, add_lines};
use crate::object::where_page_of;
use crate::reading::read_view;
use mx_face::{Page, add_refusal, outcome_of, put_page, tell};
use mx_files::Refusal;
use mx_host::Host;
use mx_json::add_between;
use mx_object::is_object;
use mx_outcome::{Outcome, message};
use mx_text::octa_hex;
use mx_view::{Listed, ListedLine, Wanted, list_lines_at, list_source};
use mx_word::{Bytes, NoMemory};
use std::alloc::Global;

/// What is shown of an address, whether a line is, and why the source is refused, if it is.
#[derive(Drop)]
struct Found {
    text: Bytes,
    found: bool,
    refused: Option<Refusal>,
}

/// Adds the lines of an address as a line of JSON.
#[tactic(auto, unfolding(crate::specs::SourceJson::holding_json))]
fn add_holding(
    alloc: Global,
    text: &mut Bytes,
    address: u64,
    listed: &Listed,
) -> Result<(), NoMemory>
    ensures { OnOk result (text.new ≡ text.old ++ holding_json address listed.now) }
{
    add_at(text, address)?;
    text.extend(b",\"lines\":")?;
    add_lines(alloc, text, listed.lines.as_slice())?;
    add_refusal(text, b",\"refused\":", listed.refused)?;
    text.extend(b"}\n")
}

/// Whether there is a line.
fn has_line(lines: &[ListedLine]) -> bool
    ensures { result ≡ spec.is_filled lines.now }
{
    match lines {
        [] => false,
        [_, ..] => true,
    }
}

/// Whether there is a byte.
fn has_byte(text: &[u8]) -> bool
    ensures { result ≡ spec.is_filled text.now }
{
    match text {
        [] => false,
        [_, ..] => true,
    }
}

/// The lines of an address as JSON.
fn find_as_json(alloc: Global, address: u64, source: &[u8]) -> Result<Found, NoMemory>
    ensures text { IfOk result (λ f. f.text ≡ spec.where_text true address source.now) }
    ensures found { IfOk result (λ f. f.found ≡ spec.is_filled (lines_listed (Holding address) source.now)) }
    ensures refused { IfOk result (λ f. f.refused ≡ refusal_in source.now) }
{
    let listed = list_source(alloc, Wanted::Holding(address), source)?;
    let mut text = Bytes::new(alloc);
    add_holding(alloc, &mut text, address, &listed)?;
    Ok(Found {
        text,
        found: has_line(listed.lines.as_slice()),
        refused: listed.refused,
    })
}

/// The lines of an address as a text or as JSON.
#[tactic(auto, using(crate::proofs::Filled::filled))]
fn find(alloc: Global, is_json: bool, address: u64, source: &[u8]) -> Result<Found, NoMemory>
    ensures text { IfOk result (λ f. f.text ≡ spec.where_text is_json address source.now) }
    ensures found { IfOk result (λ f. f.found ≡ spec.is_filled (lines_listed (Holding address) source.now)) }
    ensures refused { IfOk result (λ f. f.refused ≡ refusal_in source.now) }
{
    if is_json {
        return find_as_json(alloc, address, source);
    }
    let sheet = list_lines_at(alloc, address, source)?;
    Ok(Found {
        found: has_byte(sheet.text.as_slice()),
        text: sheet.text,
        refused: sheet.refused,
    })
}

/// What is said of an address that no line has.
#[tactic(auto, unfolding(crate::specs::SourcePages::none_has))]
fn none_has() -> &'static [u8]
    ensures { result.now ≡ spec.none_has }
{
    b"no line has the address "
}

/// That no line has an address.
#[tactic(auto, unfolding(crate::specs::SourcePages::no_line))]
fn no_line(alloc: Global, address: u64) -> Result<Bytes, NoMemory>
    ensures { IfOk result (λ text. text ≡ spec.no_line address) }
{
    let mut text = Bytes::new(alloc);
    add_between(&mut text, none_has(), &octa_hex(address), b"\n")?;
    Ok(text)
}

/// What is said beside the lines of an address.
fn remark(
    alloc: Global,
    address: u64,
    refused: Option<Refusal>,
    found: bool,
) -> Result<Bytes, NoMemory>
    ensures { IfOk result (λ text. text ≡ spec.where_remark address refused found) }
{
    match refused {
        Some(refused) => message(alloc, refused.outcome()),
        None if found => Ok(Bytes::new(alloc)),
        None => no_line(alloc, address),
    }
}

/// What `where` has to say of a source.
#[tactic(auto, unfolding(crate::specs::SourcePages::where_page))]
fn where_page(alloc: Global, is_json: bool, address: u64, source: &[u8]) -> Result<Page, NoMemory>
    ensures page { IfOk result (λ page. page ≡ spec.where_page is_json address source.now) }
    ensures view { IfOk result (λ page. IsOfView page.outcome) }
{
    let found = find(alloc, is_json, address, source)?;
    let remark = remark(alloc, address, found.refused, found.found)?;
    Ok(Page {
        text: found.text,
        remark,
        outcome: outcome_of(found.refused),
    })
}

/// What `where` has to say of a source or an object.
#[tactic(auto, unfolding(crate::specs::ViewPages::where_view))]
fn where_view(alloc: Global, is_json: bool, address: u64, bytes: &[u8]) -> Result<Page, NoMemory>
    ensures page { IfOk result (λ page. page ≡ where_view is_json address bytes.now) }
    ensures view { IfOk result (λ page. IsOfView page.outcome) }
{
    if is_object(bytes) {
        return where_page_of(alloc, is_json, address, bytes);
    }
    where_page(alloc, is_json, address, bytes)
}

/// Shows the lines or the tetra of an address.
fn show_lines<H: Host>(
    alloc: Global,
    host: &mut H,
    is_json: bool,
    address: u64,
    bytes: &[u8],
) -> Outcome
    ensures told { Shows H.told host.old host.new result (λ m. page_put (where_view is_json address bytes.now) m) }
    ensures causes { FaultsOnlyBy H.told H.faults host.old host.new result }
{
    match where_view(alloc, is_json, address, bytes) {
        Ok(page) => put_page(alloc, host, &page),
        Err(_) => tell(alloc, host, Outcome::OutOfMemory),
    }
}

/// Shows which lines of the source in the file of this name load the tetra that holds an address, as a text or as a line of JSON; or
/// the tetra, if there is an object in it. It answers the outcome, as `list` does. That no line or tetra has the address is told on
/// standard error, and is no fault.
pub fn find_lines<H: Host>(
    alloc: Global,
    host: &mut H,
    is_json: bool,
    address: u64,
    name: &[u8],
) -> Outcome
    ensures told { Shows H.told host.old host.new result (λ m. shown_view (where_view is_json address) name.now m) }
    ensures causes { FaultsOnlyBy H.told H.faults host.old host.new result }
{
    match read_view(alloc, host, name) {
        Ok(bytes) => show_lines(alloc, host, is_json, address, bytes.as_slice()),
        Err(outcome) => outcome,
    }
}
