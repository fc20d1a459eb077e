//! What a program reaches outside: files and the standard streams, by numbered slots.
//!
//! `Host` is the outside as a trait, and `MemHost` a host that keeps all of it in memory. A host may
//! tell its contents, as a model of files, slots and streams; then each call answers by the rules
//! over that model. Of a host that tells nothing only the count of its faults is known. The calls
//! are what the file traps of MMIX need (MMIXware, MMIX-SIM).
#![tactic(auto)]

mod faults;
mod files;
mod host;
mod mem;
mod slots;

pub use faults::{HostFault, OpenFault};
pub use files::StoredFile;
pub use host::Host;
pub use mem::MemHost;
pub use slots::{Lead, Mode, Slot};
