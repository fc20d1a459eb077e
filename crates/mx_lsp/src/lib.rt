//! The server's answers to the messages of the Language Server Protocol: each is a function of the texts that are open.
#![tactic(auto)]

mod changes;
mod documents;
mod edits;
mod laws;
mod lines;
mod message;
mod notifications;
mod requests;
mod session;

pub use documents::{Document, Documents};
pub use laws::{
    a_notice_answers_no_request, an_answer_carries_the_mark_of_its_request,
    answers_come_in_the_order_of_requests, each_request_gets_one_answer_and_a_notification_none,
    requests_after_shutdown_are_refused, requests_before_initialize_are_refused,
    the_text_of_a_name_is_the_last_that_came,
};
pub use session::{Flow, Session, Stage, answer, new_session, no_header};
