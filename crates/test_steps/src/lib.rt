//! A row for each of the 256 codes of the machine: what one step answers, and what it leaves; the start of the machine, and
//! short programs; steps taken back; the host in memory, file traps, flags, and runs by them. There is nothing but tests
//! here. The values are worked out from the rules of MMIXware (LNCS 1750; the part on MMIX), and where these leave a choice,
//! from those of `docs/MACHINE.md`.
#![tactic(auto)]

#[cfg(test)]
mod back;
#[cfg(test)]
mod bits;
#[cfg(test)]
mod branches;
#[cfg(test)]
mod events;
#[cfg(test)]
mod flags;
#[cfg(test)]
mod host;
#[cfg(test)]
mod jumps;
#[cfg(test)]
mod memory;
#[cfg(test)]
mod numbers;
#[cfg(test)]
mod patches;
#[cfg(test)]
mod programs;
#[cfg(test)]
mod row;
#[cfg(test)]
mod runs;
#[cfg(test)]
mod specials;
#[cfg(test)]
mod starts;
#[cfg(test)]
mod stops;
#[cfg(test)]
mod traps;
