//! The real host, on files of the system.

mod failures;
mod generated;
mod openings;
mod streams;
