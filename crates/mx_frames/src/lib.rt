//! What goes over the wire to an editor: bodies one after another in a stream of bytes, each after a header that says how long it is;
//! and columns, which count units of UTF-16.
#![tactic(auto)]

mod columns;
mod heads;
mod laws;
mod reader;
mod writing;

pub use columns::{column_of, place_of};
pub use laws::{
    columns_ascend_with_their_places, columns_lead_back_to_their_places,
    no_frame_ends_before_the_bytes_that_are_wanted, the_stream_is_the_frames_that_are_read,
    what_is_framed_is_read,
};
pub use reader::{Coming, Frame, Frames, feed, start, wanted};
pub use writing::add_frame;
