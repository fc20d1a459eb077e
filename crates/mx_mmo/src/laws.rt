//! What holds of objects, apart from how they are read.

ghost use Rattle.std.specs.Prelude.{◌≡◌, ◌≤◌, ◌<◌, ◌++◌, ◌%◌, ◌/◌, ◌^◌, Ok, Some, length, List, ℕ};
ghost use Rattle.mx_mmo.specs.FaultTable.{FaultOf};
ghost use Rattle.mx_mmo.specs.Reading.{first_item};
ghost use Rattle.mx_mmo.specs.Replies.{limit};
ghost use Rattle.mx_mmo.specs.Spelling.{ending, written};
ghost use Rattle.mx_mmo.specs.Valid.{AreBytes, Valid};
ghost use Rattle.mx_mmo.specs.Whole.{AreAt, Left, SpellsObject, extended, items_of, object_fault, object_of, walk};
ghost use Rattle.mx_mmo.specs.Whole.{walk_on};
ghost use Rattle.mx_mmo.specs.declared.due.Phase.{Phase};
ghost use Rattle.mx_mmo.specs.declared.faults.MmoFault.{MmoFault};
ghost use Rattle.mx_mmo.specs.declared.items.Item.{Item};
ghost use Rattle.mx_mmo.specs.declared.items.Object.{Object};

/// What a writer writes of valid items is read again as these items and this trie.
pub fn written_is_read()
    ensures { (items : List Item) (trie : List ℕ) → Valid items → length trie % 4 ≡ 0 →
        length trie / 4 < 2 ^ 16 → length (written items ++ ending trie) ≤ limit →
        object_of (written items ++ ending trie) ≡ Ok (record {
          items = items;
          tail = record { trie = trie; place = length (written items) };
        }) }
{}

/// What is read is in the grammar of objects, and what is in the grammar is read.
pub fn reading_is_the_grammar()
    ensures found { (bytes : List ℕ) (object : Object) → AreBytes bytes →
        object_of bytes ≡ Ok object → SpellsObject bytes object }
    ensures only { (bytes : List ℕ) (object : Object) → SpellsObject bytes object →
        length bytes ≤ limit → object_of bytes ≡ Ok object }
{}

/// The first fault of an object's bytes is the one that the table of faults has for them.
pub fn faults_are_the_table()
    ensures found { (bytes : List ℕ) (f : MmoFault) → AreBytes bytes → length bytes ≤ limit →
        object_fault bytes ≡ Some f → FaultOf bytes f }
    ensures only { (bytes : List ℕ) (f : MmoFault) → AreBytes bytes → length bytes ≤ limit →
        FaultOf bytes f → object_fault bytes ≡ Some f }
{}

/// An item begins where the items before it end.
pub fn items_are_at_their_places()
    ensures { (count : ℕ) (bytes : List ℕ) (items : List Item) (left : Left) → AreBytes bytes →
        walk count Phase.Start 0 bytes ≡ (items, Ok left) → AreAt bytes items left }
{}

/// The items of bytes are the first one and those of the bytes after it; and where more bytes come,
/// the items before stay, and the walk goes on with what was left.
pub fn items_come_in_turn()
    ensures first { (p : Phase) (at : ℕ) (bytes : List ℕ) →
        items_of p at bytes ≡ walk_on items_of p at bytes (first_item p at bytes) }
    ensures more { (p : Phase) (at : ℕ) (front more : List ℕ) →
        items_of p at (front ++ more) ≡ extended (items_of p at front) more }
{}
