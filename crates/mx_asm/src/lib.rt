//! The assembler of MMIXAL: the lines of a source become the items of an object.
#![tactic(auto)]

mod assembler;
mod assembly;
mod ending;
mod faults;
mod fixes;
mod head;
mod labels;
mod laws;
mod lines;
mod meaning_laws;
mod refused;

pub use assembler::Assembler;
pub use faults::AsmFault;
pub use laws::{
    back_labels_are_the_last, entries_are_read, lines_are_taken_in_turn, lines_give_the_front,
    one_pass_gives_the_whole, refusals_have_numbers, sources_are_emitted_or_refused,
};
pub use meaning_laws::{
    items_mean_the_image, lines_are_loaded_where_there_is_room, objects_can_be_written,
    sources_mean_their_images,
};
pub use refused::Refused;
