//! Whole runs of the program over a host in memory and on rings of three sizes: programs, and the corners of the machine.
//! Each row says what it shows; there is nothing but tests here.
#![tactic(auto)]

#[cfg(test)]
mod addresses;
#[cfg(test)]
mod full;
#[cfg(test)]
mod inserted;
#[cfg(test)]
mod jumps;
#[cfg(test)]
mod programs;
#[cfg(test)]
mod stack;
#[cfg(test)]
mod trips;
#[cfg(test)]
mod worked;
