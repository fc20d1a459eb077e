//! What the rules look through often: the lines of a source, and the names in its operands.

ghost use Rattle.std.specs.Prelude.{◌≡◌, ◌++◌, IfOk, OnOk};
ghost use Rattle.std.specs.List.{flat_map, list_any};
ghost use Rattle.mx_word.specs.Kinds as kinds;
ghost use Rattle.mx_slips.specs.Surveys as spec;

use crate::sources::{SourceLine, SourceLines, Statement};
use crate::tokens::Token;
use mx_word::{Bytes, NoMemory, Sequence, is_letter};
use std::alloc::Global;

/// A name in the operands of a source: the number of its line, whether PUSHJ has it, and its token.
#[derive(Drop)]
pub struct Use {
    pub line: u32,
    pub is_call: bool,
    pub token: Token,
}

/// A list of names in operands.
pub type Uses = Sequence<Use>;

/// The lines of a source, and the names in their operands.
#[derive(Drop)]
pub struct Survey {
    pub lines: SourceLines,
    pub uses: Uses,
}

/// Whether a text has a letter.
fn has_letter(text: &[u8]) -> bool
    ensures { result ≡ list_any kinds.is_letter text.now }
{
    text.iter().any(|b| is_letter(*b))
}

/// A token of the line with this number, as a name.
fn make_use(alloc: Global, line: u32, is_call: bool, token: &Token) -> Result<Use, NoMemory>
    ensures { IfOk result (λ it. it ≡ spec.use_at line is_call token.now) }
{
    let text = Bytes::copy(alloc, token.text.as_slice())?;
    Ok(Use {
        line,
        is_call,
        token: Token {
            from: token.from,
            text,
            is_predefined: token.is_predefined,
        },
    })
}

/// Adds a token, if it has a letter.
fn add_use(
    alloc: Global,
    uses: &mut Uses,
    line: u32,
    is_call: bool,
    token: &Token,
) -> Result<(), NoMemory>
    ensures { OnOk result (uses.new ≡ uses.old ++ spec.use_in line is_call token.now) }
{
    if has_letter(token.text.as_slice()) {
        uses.push(make_use(alloc, line, is_call, token)?)
    } else {
        Ok(())
    }
}

/// Adds the names among tokens.
fn add_tokens(
    alloc: Global,
    uses: &mut Uses,
    line: u32,
    is_call: bool,
    tokens: &[Token],
) -> Result<(), NoMemory>
    ensures { OnOk result (uses.new ≡ uses.old ++ flat_map (spec.use_in line is_call) tokens.now) }
{
    for token in tokens {
        add_use(alloc, uses, line, is_call, token)?;
    }
    Ok(())
}

/// Whether a statement calls a subroutine by its name.
fn is_pushj(statement: &Statement) -> bool
    ensures { result ≡ spec.is_pushj statement.now }
{
    statement.op.text.as_slice() == b"PUSHJ".as_slice()
}

/// Adds the names of a statement.
fn add_statement(
    alloc: Global,
    uses: &mut Uses,
    line: u32,
    statement: &Statement,
) -> Result<(), NoMemory>
    ensures { OnOk result (uses.new ≡ uses.old ++ spec.uses_by line statement.now) }
{
    let tokens = statement.tokens.as_slice();
    add_tokens(alloc, uses, line, is_pushj(statement), tokens)
}

/// Adds the names of statements.
fn add_statements(
    alloc: Global,
    uses: &mut Uses,
    line: u32,
    statements: &[Statement],
) -> Result<(), NoMemory>
    ensures { OnOk result (uses.new ≡ uses.old ++ flat_map (spec.uses_by line) statements.now) }
{
    for statement in statements {
        add_statement(alloc, uses, line, statement)?;
    }
    Ok(())
}

/// Adds the names of a line.
fn add_line(alloc: Global, uses: &mut Uses, line: &SourceLine) -> Result<(), NoMemory>
    ensures { OnOk result (uses.new ≡ uses.old ++ spec.uses_in line.now) }
{
    add_statements(alloc, uses, line.number, line.statements.as_slice())
}

/// The names of lines.
fn collect_uses(alloc: Global, lines: &[SourceLine]) -> Result<Uses, NoMemory>
    ensures { IfOk result (λ uses. uses ≡ spec.uses_of lines.now) }
{
    let mut uses = Uses::new(alloc);
    for line in lines {
        add_line(alloc, &mut uses, line)?;
    }
    Ok(uses)
}

/// The lines of a source, with the names in their operands.
pub fn survey_lines(alloc: Global, lines: SourceLines) -> Result<Survey, NoMemory>
    ensures { IfOk result (λ survey. survey ≡ spec.survey_of lines) }
{
    let uses = collect_uses(alloc, lines.as_slice())?;
    Ok(Survey { lines, uses })
}
