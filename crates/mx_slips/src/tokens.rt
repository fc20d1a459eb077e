//! The tokens of an operand field.

ghost use Rattle.std.specs.Prelude.{◌≡◌, ◌==◌, IfOk, length};
ghost use Rattle.std.specs.List.{position};
ghost use Rattle.mx_word.specs.Kinds as kinds;
ghost use Rattle.mx_line.specs.Bytes.{run};
ghost use Rattle.mx_slips.specs.Tokens as spec;

use crate::pieces::{drop_front, take_front};
use mx_ops::predefined;
use mx_word::{Bytes, NoMemory, Sequence, is_hexadecimal, is_name_byte};
use std::alloc::Global;

/// A string, a character constant, a number, a name or another byte of an operand field: its bytes, how many bytes of the
/// line are before it, and whether it is the name of a predefined symbol.
#[derive(Drop)]
pub struct Token {
    pub from: usize,
    pub text: Bytes,
    pub is_predefined: bool,
}

/// A list of tokens.
pub type Tokens = Sequence<Token>;

/// The place of the first quote of a text.
fn quote_place(text: &[u8]) -> Option<usize>
    ensures { result ≡ position (λ c. c == 34) text.now }
{
    text.iter().position(|b| *b == b'"')
}

/// How many bytes a string has with both quotes, which opens before these bytes.
fn string_length(bytes: &[u8]) -> usize
    ensures { result ≡ spec.string_length bytes.now (position (λ c. c == 34) bytes.now) }
{
    match quote_place(bytes) {
        Some(n) => n + 2,
        None => bytes.len() + 1,
    }
}

/// How many hexadecimal digits are at the front of a text.
pub(crate) fn hexadecimal_count(text: &[u8]) -> usize
    ensures { result ≡ length (run kinds.is_hexadecimal text.now) }
{
    text.iter().take_while(|b| is_hexadecimal(**b)).count()
}

/// How many letters and digits are at the front of a text.
fn name_length(text: &[u8]) -> usize
    ensures { result ≡ length (run kinds.is_name_byte text.now) }
{
    text.iter().take_while(|b| is_name_byte(**b)).count()
}

/// How many bytes the token at the front of a text has.
#[tactic(auto, unfolding(crate::specs::Tokens::token_length))]
fn token_length(text: &[u8]) -> usize
    ensures { result ≡ spec.token_length text.now }
{
    let [b, more @ ..] = text else {
        return 0;
    };
    match *b {
        b'"' => string_length(more),
        b'\'' => 3,
        b'#' => hexadecimal_count(more) + 1,
        b if is_name_byte(b) => name_length(text),
        _ => 1,
    }
}

/// Whether a name is predefined.
fn is_predefined(alloc: Global, name: &[u8]) -> Result<bool, NoMemory>
    ensures { IfOk result (λ is. is ≡ spec.is_predefined name.now) }
{
    let mut full = Bytes::copy(alloc, b":")?;
    full.extend(name)?;
    Ok(predefined(full.as_slice()).is_some())
}

/// The token at the front of a text that reaches to this place of the line.
fn token_at(alloc: Global, end: usize, text: &[u8]) -> Result<Token, NoMemory>
    ensures { IfOk result (λ token. token ≡ spec.token_at end text.now) }
{
    let token = take_front(text, token_length(text));
    Ok(Token {
        from: end.saturating_sub(text.len()),
        text: Bytes::copy(alloc, token)?,
        is_predefined: is_predefined(alloc, token)?,
    })
}

/// The tokens of a text that reaches to this place of the line.
#[tactic(auto, using(crate::proofs::TokenTurns::turns))]
pub(crate) fn tokens_of(alloc: Global, end: usize, text: &[u8]) -> Result<Tokens, NoMemory>
    ensures { IfOk result (λ tokens. tokens ≡ spec.tokens_of end text.now) }
{
    let mut tokens = Tokens::new(alloc);
    let mut rest = text;
    while let [_, more @ ..] = rest {
        let token = token_at(alloc, end, rest)?;
        tokens.push(token)?;
        rest = drop_front(more, token_length(rest).saturating_sub(1));
    }
    Ok(tokens)
}
