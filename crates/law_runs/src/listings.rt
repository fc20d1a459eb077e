//! Laws of objects that are listed: what is written for an object is its listing.

ghost use Rattle.std.specs.Prelude.{◌≡◌, ◌≢◌, ◌<◌, List, ℕ, [], Ok, Err, length};
ghost use Rattle.mx_word.specs.Ranges.{AreBytes};
ghost use Rattle.mx_word.specs.declared.symbols.Symbol.{Symbol};
ghost use Rattle.mx_mmo.specs.Image.{Image};
ghost use Rattle.mx_mmo.specs.Replies.{limit};
ghost use Rattle.mx_mmo.specs.Whole.{object_of};
ghost use Rattle.mx_mmo.specs.declared.faults.MmoFault.{MmoFault};
ghost use Rattle.mx_mmo.specs.declared.items.Item.{Item};
ghost use Rattle.mx_mmo.specs.declared.items.Object.{Object};
ghost use Rattle.mx_load.specs.Objects.{object_loaded};
ghost use Rattle.mx_plan.specs.Counts.{unscheduled};
ghost use Rattle.mx_stab.specs.Reading.{trie_answer};
ghost use Rattle.mx_stab.specs.declared.faults.StabFault.{StabFault};
ghost use Rattle.mx_type.specs.Listing.{AreLines};
ghost use Rattle.mx_files.specs.Typed.{typed, unread, unread_trie};
ghost use Rattle.mx_outcome.specs.declared.outcome.Outcome.{Outcome};
ghost use Rattle.law_runs.specs.Programs.{said};
ghost use Rattle.law_runs.specs.ShownObjects.{CalledListing, HaveSame, IsFaulty, IsWhole, ListedObject, ListsObject};
ghost use Rattle.law_runs.specs.ShownObjects.{ReadObject, ShownObject, listing_answer, shown_answer, text_for};
ghost use Rattle.law_runs.specs.WholeItems.{AreWholeItems};

/// The lines that are written for an object without a fault are its listing, and nothing else is done.
/// Where the bytes have a fault of their own, or the trie has one, that is the outcome, whatever the
/// items mean; for too many bytes no line is written. So two objects with the same listing have the same
/// items and the same trie.
#[tactic(auto, using(crate::proofs::ListedObjects::listed))]
pub fn what_is_written_for_an_object_is_its_listing()
    ensures listing { (o : ReadObject) → IsWhole o.bytes × ListsObject o.bytes o.object }
    ensures only { (bytes : List ℕ) → AreBytes bytes → IsWhole bytes →
        (o : Object) × (object_of bytes ≡ Ok o) × ListsObject bytes o }
    ensures once { (a b : ListedObject) → text_for a.bytes ≡ text_for b.bytes → HaveSame a b }
    ensures reading { (bytes : List ℕ) (fault : MmoFault) → object_of bytes ≡ Err fault →
        (typed bytes).1 ≡ unread fault }
    ensures trie { (bytes : List ℕ) (object : Object) (fault : StabFault) → object_of bytes ≡ Ok object →
        trie_answer object.tail.trie ≡ Err fault → (typed bytes).1 ≡ unread_trie object.tail.place fault }
    ensures long { (bytes : List ℕ) → limit < length bytes → (typed bytes).0 ≡ [] }
{}

/// Where an object is not listed whole, the lines of its whole items are written, those before the fault, each by the
/// table of lines; and no line of a trie.
pub fn whole_items_before_a_fault_are_listed()
    ensures { (bytes : List ℕ) → IsFaulty bytes →
        (items : List Item) × AreWholeItems bytes items × AreLines items (text_for bytes) }
{}

/// What is loaded is listed. A fault of loading is that of listing, unless it is one of what the items mean:
/// too many pages, a place in the stack segment or above it, or a file that was never named.
pub fn objects_are_listed_beside_what_they_mean()
    ensures loaded { (bytes : List ℕ) (m : Image) (symbols : List Symbol) → object_loaded bytes ≡ Ok (m, symbols) →
        IsWhole bytes }
    ensures faults { (bytes : List ℕ) (place fault : ℕ) → object_loaded bytes ≡ Err (place, fault) → fault ≢ 90 →
        fault ≢ 95 → fault ≢ 96 → (typed bytes).1 ≡ Outcome.BadObject place fault }
{}

/// Where no call that the program makes fails and the slots are as at the start, an object that is there is
/// listed: the program answers what the listing comes to, and leaves the host with its lines after standard
/// output, but for the number of calls, the list of those that fail and the message. So a call answers that, or
/// is out of memory.
pub fn objects_that_are_there_are_listed()
    ensures listed { (p : ShownObject) → shown_answer p ≡ said (listing_answer p.bytes (unscheduled p.host)) }
    ensures called { (p : CalledListing) → p.outcome ≡ (typed p.bytes).1 }
{}
