//! The texts that are open.

ghost use Rattle.std.specs.Prelude.{◌≡◌, IfOk, option_copied};
ghost use Rattle.std.specs.List.{find, position};
ghost use Rattle.mx_lsp.specs.Documents as spec;

use mx_word::{Bytes, NoMemory, Sequence};
use std::alloc::Global;

/// A text that is open: its name, and its bytes.
#[derive(Drop)]
pub struct Document {
    pub uri: Bytes,
    pub text: Bytes,
}

/// The texts that are open.
pub type Documents = Sequence<Document>;

/// Whether a text has this name.
fn is_named(uri: &[u8], document: &Document) -> bool
    ensures { result ≡ spec.is_named uri.now document.now }
{
    document.uri.as_slice() == uri
}

/// The first text of this name.
fn document_of<'a>(documents: &'a [Document], uri: &[u8]) -> Option<&'a Document>
    ensures { option_copied result ≡ find (spec.is_named uri.now) documents.now }
{
    documents.iter().find(|d| is_named(uri, d))
}

/// The bytes of the text of this name, if it is open.
pub(crate) fn text_of<'a>(documents: &'a [Document], uri: &[u8]) -> Option<&'a [u8]>
    ensures { option_copied result ≡ spec.text_of documents.now uri.now }
{
    match document_of(documents, uri) {
        None => None,
        Some(document) => Some(document.text.as_slice()),
    }
}

/// The place of the first text of this name.
fn place(documents: &[Document], uri: &[u8]) -> Option<usize>
    ensures { result ≡ position (spec.is_named uri.now) documents.now }
{
    documents.iter().position(|d| is_named(uri, d))
}

/// The texts without the one at a place.
fn remove_at(documents: Documents, at: usize) -> Documents
    ensures { result ≡ spec.removed documents at }
{
    let mut left = documents.into_vec();
    if at < left.len() {
        left.remove(at);
    }
    Documents::from_vec(left)
}

/// The texts without the one of this name.
pub(crate) fn without(documents: Documents, uri: &[u8]) -> Documents
    ensures { result ≡ spec.without documents uri.now }
{
    match place(documents.as_slice(), uri) {
        None => documents,
        Some(at) => remove_at(documents, at),
    }
}

/// The texts with another one in front.
fn with_first(documents: Documents, document: Document) -> Result<Documents, NoMemory>
    ensures { IfOk result (λ all. all ≡ spec.with_first documents document) }
{
    let mut all = documents.into_vec();
    all.insert(0, document)?;
    Ok(Documents::from_vec(all))
}

/// The texts with this one under its name.
pub(crate) fn with_text(
    alloc: Global,
    documents: Documents,
    uri: &[u8],
    text: &[u8],
) -> Result<Documents, NoMemory>
    ensures { IfOk result (λ all. all ≡ spec.with_text documents uri.now text.now) }
{
    let document = Document {
        uri: Bytes::copy(alloc, uri)?,
        text: Bytes::copy(alloc, text)?,
    };
    with_first(without(documents, uri), document)
}
