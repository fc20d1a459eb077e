//! Watchers that are told traces made by hand, and of runs.

pub(crate) mod once;
mod runs;
mod watchers;
