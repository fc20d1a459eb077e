//! Steps taken back: short programs are stepped up and back, and after each step back all that a machine shows
//! is what it was. The programs are worked out from the rules of MMIXware (LNCS 1750; the part on MMIX).

mod digest;
mod rows;
mod runs;
mod walk;
