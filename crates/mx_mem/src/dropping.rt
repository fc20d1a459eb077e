//! Pages that are taken away again.

ghost use Rattle.std.specs.Prelude.{◌≡◌, ◌+◌, ◌/◌, ◌==◌, ℕ, None, Some, true, false, is_some, if◌then◌else◌, length};
ghost use Rattle.std.specs.Ordering.{nat_cmp};
ghost use Rattle.std.specs.BTreeMap.{get};
ghost use Rattle.mx_mem.specs.Dropping.{IsTakenAway, without_page, pages_without};
ghost use Rattle.mx_mem.specs.Held.{Indexed, Bounded};
ghost use Rattle.mx_mem.specs.Memory.{Stored, octa_at, has_page, stored_at, with_page};

use crate::page::Page;
use std::collections::BTreeMap;

/// Takes the page with a number away, if it is there; the last one is in its place then. It takes no memory.
pub(crate) fn take_away(pages: &mut Vec<Page>, places: &mut BTreeMap<u64, usize>, number: u64)
    requires indexed { Indexed pages.old.items places.old }
    requires count { length places.old.entries ≡ length pages.old.items }
    ensures taken { IsTakenAway pages.old.items places.old number pages.new.items places.new }
    ensures bounded { Bounded pages.old.items → Bounded pages.new.items }
{
    let place = match places.get(&number) {
        Some(place) => *place,
        None => return,
    };
    let last = pages[pages.len() - 1].number();
    move_place(places, last, place, number);
    pages.swap_remove(place);
}

/// The page with the number `last`, which has a place, gets another one, and the one with a number has none.
fn move_place(places: &mut BTreeMap<u64, usize>, last: u64, place: usize, number: u64)
    requires last { is_some (get nat_cmp places.old last) ≡ true }
    requires there { is_some (get nat_cmp places.old number) ≡ true }
    ensures places { (p : ℕ) → get nat_cmp places.new p
        ≡ (if p == number then None else if p == last then Some place else get nat_cmp places.old p) }
    ensures count { length places.new.entries + 1 ≡ length places.old.entries }
{
    let Ok(_) = places.insert(last, place) else {
        unreachable!()
    };
    places.remove(&number);
}

/// Where a page is not there, octas are 0.
pub fn absent_pages_hold_zeros()
    ensures { (m : Stored) (a : ℕ) → has_page m (a / 4096) ≡ false → octa_at m a ≡ 0 }
{}

/// A store is taken back by the octa that was there; where it began a page, by taking the page away.
pub fn stores_are_taken_back()
    ensures octa { (m : Stored) (a x : ℕ) → stored_at (stored_at (octa_at m) a x) a (octa_at m a) ≡ octa_at m }
    ensures page { (m : Stored) (a x : ℕ) → has_page m (a / 4096) ≡ false
        → without_page (stored_at (octa_at m) a x) (a / 4096) ≡ octa_at m }
    ensures pages { (m : Stored) (p : ℕ) → has_page m p ≡ false
        → pages_without (with_page (has_page m) p) p ≡ has_page m }
{}
