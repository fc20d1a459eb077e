//! Records of runs, which lead from nothing along the states of the machine, and back.

mod pictures;
mod walks;
