//! Where the names of a text are defined and used, as an editor is answered.
#![tactic(auto)]

mod labels;
mod marks;
mod uses;

pub use labels::{is_symbol_label, outline};
pub use marks::highlights;
pub use uses::{definition, name_range, range_text, references};
