//! What holds of every listing of an object.

ghost use Rattle.std.specs.Prelude.{◌≡◌, ◌<◌, ◌^◌, ◌++◌, ◌∷◌, ℕ, List, Ok};
ghost use Rattle.std.specs.List.Sorted.{IsStrictlyIncreasing};
ghost use Rattle.mx_word.specs.Ranges.{AreBytes};
ghost use Rattle.mx_word.specs.declared.symbols.Symbol.{Symbol};
ghost use Rattle.mx_mem.specs.Memory.{tetra_of};
ghost use Rattle.mx_mmo.specs.Image.{Image};
ghost use Rattle.mx_mmo.specs.declared.items.Item.{Item};
ghost use Rattle.mx_host.specs.HostModel.{HostModel};
ghost use Rattle.mx_load.specs.Objects.{object_loaded};
ghost use Rattle.mx_words.specs.declared.order.Order.{Order};
ghost use Rattle.mx_object.specs.Addresses.{addresses_of, has, items_in, joined};
ghost use Rattle.mx_object.specs.Labels.{nearest, place_of};
ghost use Rattle.mx_object.specs.Listed.{IsAsNear, shown_at};
ghost use Rattle.mx_object.specs.Listing.{listed_of};
ghost use Rattle.mx_object.specs.Runs.{object_counted, object_traced};
ghost use Rattle.mx_run.specs.WildRuns.{MachineKind};

/// An address is listed exactly where an item loads or fixes a tetra there; and addresses ascend, so none is listed twice.
#[tactic(auto, using(crate::proofs::AddressLaws::listed))]
pub fn every_loaded_tetra_is_listed_once()
    ensures all { (items : List Item) (a : ℕ) → has (addresses_of items) a ≡ has (joined 0 items) a }
    ensures once { (items : List Item) → IsStrictlyIncreasing (addresses_of items) }
{}

/// The tetras of a listing are the image: of an object that is not refused, memory has at each address the tetra that the
/// listing shows there, and 0 where the listing shows none.
#[tactic(auto, using(crate::proofs::ListedImages::image))]
pub fn the_listing_is_the_image()
    ensures { (bytes : List ℕ) (m : Image) (symbols : List Symbol) (a : ℕ) → AreBytes bytes →
        object_loaded bytes ≡ Ok (m, symbols) → a < 2 ^ 63 →
        tetra_of (m.memory a) a ≡ shown_at (listed_of m symbols bytes).tetras a }
{}

/// No symbol at or before an address in its segment is nearer than the place that is told of the address.
#[tactic(auto, using(crate::proofs::NearestLaws::near))]
pub fn the_nearest_symbol_is_told()
    ensures { (front later : List Symbol) (s : Symbol) (a : ℕ) →
        IsAsNear (nearest a (front ++ s ∷ later)) (place_of a s) }
{}

/// `count_object` gives the sheet of the steps: each tetra that the object loads has the tally of the steps there, with the
/// one that halts, each part that of the steps at its tetras, and what is told as elsewhere is the tally of the steps at all
/// other addresses. So it is over a ring of registers, and over an unbounded list of them.
#[tactic(auto, using(crate::proofs::CountedSheets::counts))]
pub fn counted_objects_are_those_of_the_steps()
    ensures { (kind : MachineKind) (o : Order) (arguments : List (List ℕ)) (bytes : List ℕ) (m : HostModel) →
        object_counted kind o arguments bytes m ≡ object_traced kind o arguments bytes m }
{}
