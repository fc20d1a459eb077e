//! The words of the Debug Adapter Protocol: requests that come, and the responses and events that are sent, which are numbered.
#![tactic(auto)]

mod arguments;
mod commands;
mod early;
mod launching;
mod needs;
mod outbox;
mod requests;

pub use arguments::{argument, flag_at, integer_at, list_at, number_at, text_at, text_in};
pub use commands::Command;
pub use early::{answer_early, make_done, make_refusal, refuse_unknown, refuse_unlaunched};
pub use launching::{Launch, Unread, Wishes, read_launch, say_unread};
pub use outbox::{Answer, Bodies, Outbox};
pub use requests::{Request, read_message, read_request};
