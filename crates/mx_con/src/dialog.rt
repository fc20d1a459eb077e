//! What a session remembers from line to line.

/// The address of the octa that was shown last, and how many more bytes of input may be taken.
#[derive(Clone, Copy)]
pub(crate) struct Dialog {
    pub(crate) shown: Option<u64>,
    pub(crate) left: u64,
}
