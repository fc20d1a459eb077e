//! The flags of tetras.

/// What a run does at a tetra: it breaks where the tetra is read, where it is written, or before it is
/// carried out; and it ends after the step that carries it out.
#[derive(Clone, Copy, Debug, PartialEq, Eq)]
pub struct Flags {
    pub r: bool,
    pub w: bool,
    pub x: bool,
    pub t: bool,
}
