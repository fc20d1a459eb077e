//! Tests of runs whose steps are visited: where one is, what the machine and the host then show, and which turns are found; of their
//! records, which lead along the states of the machine and back; of what a debugger shows of them; and of its sessions. What is due is
//! reckoned from the texts of the programs. There is nothing but tests here.
#![tactic(auto)]

#[cfg(test)]
mod adapters;
#[cfg(test)]
mod programs;
#[cfg(test)]
mod recorded;
#[cfg(test)]
mod sessions;
#[cfg(test)]
mod shown;
#[cfg(test)]
mod visited;
