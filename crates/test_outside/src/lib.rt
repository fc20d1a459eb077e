//! What the program has to do with from outside: words of the command line, calls of the host that fail, sessions of the
//! console, reports and watchers, several processors, and the real host. Each row says what it shows; there is nothing
//! but tests here.
#![tactic(auto)]

#[cfg(test)]
mod console;
#[cfg(test)]
mod failing;
#[cfg(test)]
mod multi;
#[cfg(test)]
mod patches;
#[cfg(test)]
mod processors;
#[cfg(test)]
mod real;
#[cfg(test)]
mod reports;
#[cfg(test)]
mod row;
#[cfg(test)]
mod usage;
#[cfg(test)]
mod watch;
