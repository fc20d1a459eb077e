//! Steps that are visited, and what is found from them.

mod calls;
mod far;
mod searches;
mod walks;
