//! What holds of loaded objects, apart from how they are loaded.

ghost use Rattle.std.specs.Prelude.{◌≡◌, ◌<◌, ◌≤◌, ◌++◌, ◌∷◌, [], List, ℕ, length, Ok, Err};
ghost use Rattle.mx_word.specs.declared.symbols.Symbol.{Symbol};
ghost use Rattle.mx_mmo.specs.Image.{Image};
ghost use Rattle.mx_mmo.specs.Meaning.{Loading, Meaningless, meaning, nothing, take_items};
ghost use Rattle.mx_mmo.specs.Replies.{limit};
ghost use Rattle.mx_mmo.specs.Whole.{items_of, object_of};
ghost use Rattle.mx_mmo.specs.declared.items.Object.{Object};
ghost use Rattle.mx_mmo.specs.declared.faults.MmoFault.{MmoFault};
ghost use Rattle.mx_mmo.specs.declared.due.Phase.{Phase};
ghost use Rattle.mx_stab.specs.Reading.{trie_answer};
ghost use Rattle.mx_mmo.specs.declared.items.Item.{Item};
ghost use Rattle.mx_load.specs.Faults.{fault_of, number_of, told};
ghost use Rattle.mx_load.specs.Status.{after, image_in, items_loaded};
ghost use Rattle.mx_load.specs.Objects.{MeansNothing, fault_at, object_loaded, trie_read, with_symbols};

/// What is loaded of the bytes of an object, by reading, meaning and trie apart: an object whose items
/// mean an image is loaded as that image with the symbols of its trie, or refused with the fault of
/// the trie; nothing else is loaded; where all items that are read mean something, the fault is that
/// of reading; and where one of them means nothing, that is the fault, at the place where this item
/// begins, before any fault of reading after it.
#[tactic(auto, using(crate::proofs::Apart::apart))]
pub fn objects_are_loaded_as_they_mean()
    ensures image { (bytes : List ℕ) (object : Object) (m : Image) → object_of bytes ≡ Ok object →
        meaning object.items ≡ Ok m →
        object_loaded bytes ≡ with_symbols m (trie_read object.tail.place (trie_answer object.tail.trie)) }
    ensures only { (bytes : List ℕ) (m : Image) (symbols : List Symbol) → object_loaded bytes ≡ Ok (m, symbols) →
        (object : Object) × (object_of bytes ≡ Ok object) × (meaning object.items ≡ Ok m)
        × (trie_answer object.tail.trie ≡ Ok symbols) }
    ensures reading { (bytes : List ℕ) (s : Loading) (fault : MmoFault) → length bytes ≤ limit →
        object_of bytes ≡ Err fault → take_items (items_of Phase.Start 0 bytes).0 (Ok nothing) ≡ Ok s →
        object_loaded bytes ≡ Err (fault_at fault) }
    ensures long { (bytes : List ℕ) → limit < length bytes →
        object_loaded bytes ≡ Err (fault_at (MmoFault.TooLong limit)) }
    ensures loading { (bytes : List ℕ) (e : Meaningless) → length bytes ≤ limit →
        take_items (items_of Phase.Start 0 bytes).0 (Ok nothing) ≡ Err e →
        (place : ℕ) × MeansNothing bytes place e × (object_loaded bytes ≡ Err (place, number_of (fault_of e))) }
{}

/// Items are loaded one after another: what there is after a list of items and one more is what this
/// item makes of what there was after the list, and the image in it at the end is what the items mean.
pub fn items_are_loaded_in_turn()
    ensures next { (front : List Item) (item : Item) →
        items_loaded (front ++ item ∷ []) ≡ after (items_loaded front) item }
    ensures image { (items : List Item) → image_in (items_loaded items) ≡ told (meaning items) }
{}
