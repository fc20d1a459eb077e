//! What holds of tries over lists alone.

ghost use Rattle.std.specs.Prelude.{◌≡◌, ◌↔◌, ◌≤◌, ◌⊎◌, ℕ, List, ◌++◌, length, replicate, None, Ok, Some, IfSome};
ghost use Rattle.std.specs.List.{AllByRecursion};
ghost use Rattle.mx_word.specs.Ranges.{AreBytes};
ghost use Rattle.mx_word.specs.declared.symbols.Symbol.{Symbol};
ghost use Rattle.mx_word.specs.declared.symbols.Value as values;
ghost use Rattle.mx_stab.specs.FaultTable.{FaultOf};
ghost use Rattle.mx_stab.specs.Faults.{place_of};
ghost use Rattle.mx_stab.specs.Grammar.{AreDistinct, IsTrie, SpellsSerial, SpellsValue};
ghost use Rattle.mx_stab.specs.Numbers.{serial_bytes, value_bytes};
ghost use Rattle.mx_word.specs.Symbols.{InByteOrder, IsNamed};
ghost use Rattle.mx_stab.specs.Reading.{trie_answer, trie_fault};
ghost use Rattle.mx_stab.specs.Trie.{trie_of};
ghost use Rattle.mx_stab.specs.declared.faults.StabFault.{StabFault};

/// The trie that is written of symbols, with up to three zeros after it, is one that the grammar
/// gives these symbols.
pub fn writing_is_the_grammar()
    ensures { (ss : List Symbol) (n : ℕ) → InByteOrder ss → AllByRecursion IsNamed ss → n ≤ 3 →
        IsTrie (trie_of ss ++ replicate n 0) ss }
{}

/// Bytes are read as these symbols exactly where the grammar gives them.
pub fn reading_is_the_grammar()
    ensures { (bytes : List ℕ) (symbols : List Symbol) → AreBytes bytes →
        (trie_answer bytes ≡ Ok symbols) ↔ IsTrie bytes symbols }
{}

/// Bytes are a trie exactly where they have no fault.
pub fn a_trie_has_no_fault()
    ensures { (bytes : List ℕ) → AreBytes bytes →
        (trie_fault bytes ≡ None) ↔ ((symbols : List Symbol) × IsTrie bytes symbols) }
{}

/// The fault of bytes is the one that the table of faults has for them. Bytes that are no trie have
/// one, and only one; its place is at most their number.
pub fn faults_are_the_table()
    ensures fault { (bytes : List ℕ) (fault : StabFault) → AreBytes bytes →
        (trie_fault bytes ≡ Some fault) ↔ FaultOf bytes fault }
    ensures some { (bytes : List ℕ) → AreBytes bytes →
        ((ss : List Symbol) × IsTrie bytes ss) ⊎ ((f : StabFault) × FaultOf bytes f) }
    ensures one { (bytes : List ℕ) (fault other : StabFault) → FaultOf bytes fault → FaultOf bytes other →
        fault ≡ other }
    ensures within { (bytes : List ℕ) (fault : StabFault) → FaultOf bytes fault →
        IfSome (place_of fault) (λ at. at ≤ length bytes) }
{}

/// A trie gives one list of symbols.
pub fn a_trie_tells_one_list()
    ensures { (bytes : List ℕ) (symbols others : List Symbol) → IsTrie bytes symbols → IsTrie bytes others →
        symbols ≡ others }
{}

/// What is written of symbols is read as these symbols, also with up to three zeros after it.
pub fn what_is_written_is_read()
    ensures { (ss : List Symbol) (n : ℕ) → InByteOrder ss → AllByRecursion IsNamed ss → n ≤ 3 →
        trie_answer (trie_of ss ++ replicate n 0) ≡ Ok ss }
{}

/// The symbols of a trie have distinct names of 1 to 1,024 bytes.
pub fn names_of_a_trie_are_distinct()
    ensures { (bytes : List ℕ) (symbols : List Symbol) → IsTrie bytes symbols →
        AreDistinct symbols × AllByRecursion IsNamed symbols }
{}

/// No fewer bytes give a value of any kind, and no fewer digits a serial number, than those that are
/// written.
pub fn fewest_bytes_are_written()
    ensures values { (kind : ℕ) (v : values.Value) (bytes : List ℕ) → SpellsValue kind v bytes →
        length (value_bytes v) ≤ length bytes }
    ensures serials { (serial : ℕ) (bytes : List ℕ) → SpellsSerial serial bytes →
        length (serial_bytes serial) ≤ length bytes }
{}
