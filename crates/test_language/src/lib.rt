//! Rows of the language and of words: lines, expressions, the tables of operations and symbols, names, statements, and the
//! assembler; the command line, the lines of the console, and what instructions are shown as. There is nothing but tests
//! here.
#![tactic(auto)]

#[cfg(test)]
mod assembler;
#[cfg(test)]
mod commands;
#[cfg(test)]
mod expressions;
#[cfg(test)]
mod faults;
#[cfg(test)]
mod lines;
#[cfg(test)]
mod names;
#[cfg(test)]
mod operations;
#[cfg(test)]
mod orders;
#[cfg(test)]
mod statements;
#[cfg(test)]
mod texts;
