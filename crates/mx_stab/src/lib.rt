//! Symbol tries of object files.
//!
//! A trie gives the complete names of a program's symbols with their values and serial numbers. A
//! node is a byte m, a left subtrie, a character of one or two bytes, a value with a serial number
//! where a name ends with that character, a middle subtrie of longer names, and a right subtrie
//! (MMIXware, "The symbol table" in MMIXAL).
#![tactic(auto)]

mod due;
mod faults;
mod found;
mod laws;
mod numbers;
mod reading;
mod values;
mod writing;

pub use faults::StabFault;
pub use laws::{
    a_trie_has_no_fault, a_trie_tells_one_list, faults_are_the_table, fewest_bytes_are_written,
    names_of_a_trie_are_distinct, reading_is_the_grammar, what_is_written_is_read,
    writing_is_the_grammar,
};
pub use reading::read;
pub use writing::write;
