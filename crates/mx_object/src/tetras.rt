//! The tetras of a listing.

ghost use Rattle.std.specs.Prelude.{◌≡◌, ◌++◌, ◌∷◌, [], IfOk, OnOk, map};
ghost use Rattle.mx_load.specs.Kept.{image_of};
ghost use Rattle.mx_object.specs.Labels as names;
ghost use Rattle.mx_object.specs.Listing as spec;

use crate::addresses::Addresses;
use crate::labels::{Labels, Place, labels_at};
use mx_load::Image;
use mx_text::instruction;
use mx_word::{Bytes, NoMemory, Sequence};
use std::alloc::Global;

/// A tetra that an object loads: its address, a multiple of 4, the tetra that memory has there before the program runs, the
/// text of the instruction that it is, the line of the source that it came from, if the object gives one, and its labels.
#[derive(Drop)]
pub struct ListedTetra {
    pub address: u64,
    pub tetra: u32,
    pub text: Bytes,
    pub line: Option<u32>,
    pub labels: Labels,
}

/// A list of tetras.
pub type ListedTetras = Sequence<ListedTetra>;

/// The tetra that holds an address, and the place of the address by the nearest symbol at or before it in its segment, if
/// there is one.
#[derive(Drop)]
pub struct FoundTetra {
    pub tetra: ListedTetra,
    pub place: Option<Place>,
}

/// The first address that no memory has.
const MEMORY_END: u64 = 1 << 63;

/// The tetra that an image has at an address.
fn tetra_in(image: &Image, address: u64) -> u32
    ensures { result ≡ spec.tetra_in (image_of image.now) address }
{
    if address < MEMORY_END {
        image.memory().tetra(address)
    } else {
        0
    }
}

/// The line that an image has for an address, if it is known.
fn line_in(image: &Image, address: u64) -> Option<u32>
    ensures { result ≡ spec.known_line ((image_of image.now).line_of address) }
{
    match image.line_of(address) {
        0 => None,
        line => Some(line),
    }
}

/// The tetra at an address, where `collect_labelled` has the addresses of the tetras that have labels.
pub(crate) fn tetra_at(
    alloc: Global,
    image: &Image,
    labelled: &Addresses,
    address: u64,
) -> Result<ListedTetra, NoMemory>
    requires { labelled.now ≡ names.labelled image.now.symbols }
    ensures { IfOk result (λ tetra. tetra ≡ spec.listed_at (image_of image.now) image.now.symbols address) }
{
    let tetra = tetra_in(image, address);
    let text = instruction(alloc, tetra, address)?;
    let labels = labels_at(alloc, address, image.symbols().as_slice(), labelled)?;
    Ok(ListedTetra {
        address,
        tetra,
        text,
        line: line_in(image, address),
        labels,
    })
}

/// The tetras at these addresses.
pub(crate) fn tetras_at(
    alloc: Global,
    image: &Image,
    labelled: &Addresses,
    addresses: &[u64],
) -> Result<ListedTetras, NoMemory>
    requires { labelled.now ≡ names.labelled image.now.symbols }
    ensures { IfOk result (λ tetras. tetras ≡ spec.tetras_at (image_of image.now) image.now.symbols addresses.now) }
{
    let mut tetras = ListedTetras::new(alloc);
    for address in addresses {
        tetras.push(tetra_at(alloc, image, labelled, *address)?)?;
    }
    Ok(tetras)
}
