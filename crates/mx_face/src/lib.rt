//! What every view of a source does over a host: it reads the source, writes a text and a remark, and tells its outcome.
#![tactic(auto)]

mod page;
mod refusal;
mod source;
mod telling;
mod visible;

pub use page::{Page, outcome_of, put_page};
pub use refusal::{add_refusal, add_refusal_members};
pub use source::read_source;
pub use telling::{add_remark, tell};
pub use visible::visible_text;
