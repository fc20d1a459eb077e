//! Which statement of a line a fault is about, which of its fields, and which text is marked.

ghost use Rattle.std.specs.Prelude.{◌≡◌, ◌≤◌, IfOk, IfSome, length};
ghost use Rattle.mx_sentences.specs.Places as spec;

use mx_asm::AsmFault;
use mx_marks::{
    Field, Mark, field_mark, find_end_of_cuts, find_only_statement, line_field, statement_field,
    unknown_place,
};
use mx_stmt::StmtFault;
use mx_word::NoMemory;
use std::alloc::Global;

/// The field that a fault is about.
fn field_of(why: AsmFault) -> Option<Field>
    ensures { result ≡ spec.field_of why }
{
    match why {
        AsmFault::Line(why) => line_field(why),
        AsmFault::Stmt(why) => Some(statement_field(why)),
        AsmFault::Name(_) => Some(Field::Label),
        AsmFault::UndefinedSymbol
        | AsmFault::UndefinedLocal
        | AsmFault::FutureRegister
        | AsmFault::FutureTooFar
        | AsmFault::FutureNotMultiple => Some(Field::Operands),
        _ => None,
    }
}

/// Where the faulty statement of a line begins.
pub(crate) fn statement_place(why: AsmFault, line: &[u8]) -> Option<usize>
    ensures place { result ≡ spec.statement_place why line.now }
    ensures within { IfSome result (λ place. place ≤ length line.now) }
{
    match why {
        AsmFault::Line(_) => Some(find_end_of_cuts(line)),
        AsmFault::Stmt(StmtFault::UnknownOpcode) => unknown_place(line),
        _ => find_only_statement(line),
    }
}

/// The mark of a fault in this line of a source, which has this number; nothing where it is not known which statement is meant, and for a
/// fault of the source as a whole.
///
/// Errors: out of memory.
#[tactic(auto, unfolding(crate::specs::Places::mark_of))]
pub(crate) fn mark_of(
    alloc: Global,
    why: AsmFault,
    number: u32,
    source: &[u8],
    line: &[u8],
) -> Result<Option<Mark>, NoMemory>
    ensures { IfOk result (λ mark. mark ≡ spec.mark_of why number source.now line.now) }
{
    let Some(field) = field_of(why) else {
        return Ok(None);
    };
    let Some(place) = statement_place(why, line) else {
        return Ok(None);
    };
    let mark = field_mark(alloc, why.number(), number, source, line, field, place)?;
    Ok(Some(mark))
}
