//! Rows of the parts of objects and of the machine: octas and lists; items of objects, symbol tries, memory, what is loaded,
//! listings; whole-number instructions, the register stack, trips, and the special registers. There is nothing but tests
//! here.
#![tactic(auto)]

#[cfg(test)]
mod back;
#[cfg(test)]
mod images;
#[cfg(test)]
mod instructions;
#[cfg(test)]
mod items;
#[cfg(test)]
mod listings;
#[cfg(test)]
mod memory;
#[cfg(test)]
mod octas;
#[cfg(test)]
mod rings;
#[cfg(test)]
mod specials;
#[cfg(test)]
mod tries;
#[cfg(test)]
mod trips;
