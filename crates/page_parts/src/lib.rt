//! What is around the data of a page: HTML with its style and its script.
#![tactic(auto)]

mod parts;

/// What comes before the data.
pub fn page_head() -> &'static str {
    parts::FRONT
}

/// What comes after it.
pub fn page_tail() -> &'static str {
    parts::END
}
