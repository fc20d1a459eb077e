//! The places of the pages in the list, by their numbers.

ghost use Rattle.std.specs.Prelude.{◌≡◌, ◌≤◌, ◌<◌, ◌+◌, ◌^◌, ◌==◌, ◌++◌, ◌∷◌, [], ℕ, None, Some, length, IfSome, OnOk};
ghost use Rattle.std.specs.Prelude.{OnErr, if◌then◌else◌};
ghost use Rattle.std.specs.Ordering.{nat_cmp};
ghost use Rattle.std.specs.BTreeMap.{get};
ghost use Rattle.mx_mem.specs.Held.{Indexed, IsNextPage};
ghost use Rattle.mx_mem.specs.Low.{low_pages};

use crate::MemFault;
use crate::page::Page;
use std::cell::Cell;
use std::collections::BTreeMap;

/// How many places of pages with data are remembered.
pub const GUESSES: usize = 64;

/// Adds a page that is not there yet.
///
/// Errors: out of memory alone; then nothing changed.
pub fn add(
    pages: &mut Vec<Page>,
    places: &mut BTreeMap<u64, usize>,
    page: Page,
) -> Result<(), MemFault>
    requires { get nat_cmp places.old page.0 ≡ None }
    ensures pages { OnOk result (pages.new.items ≡ pages.old.items ++ page ∷ []) }
    ensures places { OnOk result ((p : ℕ) →
        get nat_cmp places.new p ≡ (if p == page.0 then Some (length pages.old.items) else get nat_cmp places.old p)) }
    ensures count { OnOk result (length places.new.entries ≡ length places.old.entries + 1) }
    ensures err { OnErr result ((pages.new.items ≡ pages.old.items) × (places.new.entries ≡ places.old.entries)) }
    ensures memory { OnErr result (result ≡ Err MemFault.OutOfMemory) }
{
    let number = page.number();
    let place = pages.len();
    if pages.push(page).is_err() {
        return Err(MemFault::OutOfMemory);
    }
    match places.insert(number, place) {
        Ok(_) => Ok(()),
        Err(_) => {
            pages.pop();
            Err(MemFault::OutOfMemory)
        }
    }
}

/// Which of the remembered places a page has, whose number is below 2^52. Pages at the beginning of the four segments, which
/// are 2^61 bytes apart, have different ones.
#[inline(always)]
pub fn guess_index(number: u64) -> usize
    requires { number < 2 ^ 52 }
    ensures { result < 64 }
{
    ((number + (number >> 45)) % 64) as usize
}

/// The place of the page with a number below 2^51: one of those that are remembered, or else by the map.
#[inline(always)]
pub fn find_place(
    pages: &[Page],
    places: &BTreeMap<u64, usize>,
    guesses: &[Cell<usize>; GUESSES],
    number: u64,
) -> Option<usize>
    requires below { number < 2 ^ 51 }
    requires indexed { Indexed pages.now places.now }
    ensures place { result ≡ get nat_cmp places.now number }
    ensures within { IfSome result (λ place. place < length pages.now) }
{
    find_guessed_place(pages, places, &guesses[guess_index(number)], number)
}

/// The place of the page with a number: the one that is remembered, or else by the map.
#[inline(always)]
pub fn find_guessed_place(
    pages: &[Page],
    places: &BTreeMap<u64, usize>,
    guess: &Cell<usize>,
    number: u64,
) -> Option<usize>
    requires { Indexed pages.now places.now }
    ensures place { result ≡ get nat_cmp places.now number }
    ensures within { IfSome result (λ place. place < length pages.now) }
{
    match check_place(pages, places, guess.get(), number) {
        Some(place) => Some(place),
        None => place_far(places, guess, number),
    }
}

/// A place, where the page with a number is there.
#[inline(always)]
pub fn check_place(
    pages: &[Page],
    places: &BTreeMap<u64, usize>,
    place: usize,
    number: u64,
) -> Option<usize>
    requires { Indexed pages.now places.now }
    ensures place { IfSome result (λ i. Some i ≡ get nat_cmp places.now number) }
    ensures within { IfSome result (λ i. i < length pages.now) }
{
    if let Some(page) = pages.get(place) {
        if page.number() == number {
            return Some(place);
        }
    }
    None
}

/// A place, where the low page with a number below 2^52 is there.
#[inline(always)]
pub fn check_low_place(
    pages: &[Page],
    places: &BTreeMap<u64, usize>,
    place: usize,
    number: u64,
) -> Option<usize>
    requires below { number < 2 ^ 52 }
    requires indexed { Indexed pages.now places.now }
    ensures place { IfSome result (λ i. Some i ≡ get nat_cmp places.now number) }
    ensures within { IfSome result (λ i. i < length pages.now) }
    ensures low { IfSome result (λ _. number < low_pages) }
{
    if let Some(page) = pages.get(place) {
        if page.is_low(number) {
            return Some(place);
        }
    }
    None
}

/// The place by the map, which is remembered.
#[inline(never)]
fn place_far(places: &BTreeMap<u64, usize>, guess: &Cell<usize>, number: u64) -> Option<usize>
    ensures { result ≡ get nat_cmp places.now number }
{
    let place = *places.get(&number)?;
    guess.set(place);
    Some(place)
}

/// The page that is there with the least number from `number` on: its number and its place.
pub fn next_page(places: &BTreeMap<u64, usize>, number: u64) -> Option<(u64, usize)>
    ensures { IsNextPage places.now number result }
{
    match places.range(number..).next() {
        Some((number, place)) => Some((*number, *place)),
        None => None,
    }
}
