//! Rows of views: sources and objects, and what is listed, warned of, counted and explained of them. There is nothing but tests
//! here.
#![tactic(auto)]

#[cfg(test)]
mod advice;
#[cfg(test)]
mod costs;
#[cfg(test)]
mod count_pages;
#[cfg(test)]
mod data;
#[cfg(test)]
mod explanations;
#[cfg(test)]
mod frames;
#[cfg(test)]
mod object_pages;
#[cfg(test)]
mod objects;
#[cfg(test)]
mod pages;
#[cfg(test)]
mod runs;
#[cfg(test)]
mod search;
#[cfg(test)]
mod sheets;
#[cfg(test)]
mod views;
#[cfg(test)]
mod warning_texts;
#[cfg(test)]
mod warnings;
