//! The break that a line orders.

ghost use Rattle.std.specs.Prelude.{◌≡◌};
ghost use Rattle.mx_places.specs.Orders as spec;

use crate::conditions::parse_condition;
use crate::places::parse_target;
use mx_ask::cut_word;
use mx_book::Book;
use mx_stops::Condition;

/// A break as a line orders it.
#[derive(Clone, Copy)]
pub struct Wanted {
    pub address: u64,
    pub condition: Option<Condition>,
}

/// Why a line orders no break.
#[derive(Clone, Copy)]
pub enum Unwanted {
    Target,
    Condition,
}

/// The condition that is written after the word `if`.
fn condition_after(book: &Book, text: &[u8]) -> Option<Condition>
    ensures { result ≡ spec.condition_after book.now text.now }
{
    let (word, rest) = cut_word(text);
    if word == b"if".as_slice() {
        parse_condition(book, rest)
    } else {
        None
    }
}

/// What follows the place of a break: a condition, or nothing.
fn parse_break_condition(book: &Book, text: &[u8]) -> Result<Option<Condition>, Unwanted>
    ensures { result ≡ spec.wanted_condition book.now text.now }
{
    if text.is_empty() {
        return Ok(None);
    }
    match condition_after(book, text) {
        Some(condition) => Ok(Some(condition)),
        None => Err(Unwanted::Condition),
    }
}

/// The address of a break: where nothing is written, that of the instruction that comes next.
fn parse_break_address(book: &Book, pc: u64, word: &[u8]) -> Result<u64, Unwanted>
    ensures { result ≡ spec.wanted_address book.now pc word.now }
{
    if word.is_empty() {
        return Ok(pc);
    }
    match parse_target(book, word) {
        Some(target) => Ok(target.address),
        None => Err(Unwanted::Target),
    }
}

/// The break that a line orders where an instruction comes next.
#[tactic(auto, unfolding(crate::specs::Orders::wanted_in))]
pub fn parse_break(book: &Book, pc: u64, text: &[u8]) -> Result<Wanted, Unwanted>
    ensures { result ≡ spec.wanted_in book.now pc text.now }
{
    let (word, rest) = cut_word(text);
    let address = match parse_break_address(book, pc, word) {
        Ok(address) => address,
        Err(why) => return Err(why),
    };
    match parse_break_condition(book, rest) {
        Ok(condition) => Ok(Wanted { address, condition }),
        Err(why) => Err(why),
    }
}
