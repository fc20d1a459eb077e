//! A run that was counted as JSON: its outcome, and its sheet.

ghost use Rattle.std.specs.Prelude.{◌≡◌, ◌++◌, ◌∷◌, [], ◌-◌, OnOk, length, take};
ghost use Rattle.mx_json.specs.Json.{array, further};
ghost use Rattle.face_count.specs.CountJson as spec;

use mx_count::{CountedLine, CountedLines, LineSheet, Tally};
use mx_face::add_refusal;
use mx_files::Refusal;
use mx_json::{add_number, add_number_if, add_string};
use mx_outcome::{Outcome, message};
use mx_word::{Bytes, NoMemory};
use std::alloc::Global;

/// The figures of a line, which are missing where it loads nothing.
#[derive(Clone, Copy)]
pub struct Figures {
    pub away: Option<u64>,
    pub mems: Option<u64>,
    pub oops: Option<u64>,
    pub times: Option<u64>,
}

/// The figures of a line with this tally.
#[tactic(auto, unfolding(crate::specs::CountJson::figures_of))]
fn figures_of(tally: Option<Tally>) -> Figures
    ensures { result ≡ spec.figures_of tally }
{
    match tally {
        None => Figures {
            away: None,
            mems: None,
            oops: None,
            times: None,
        },
        Some(tally) => Figures {
            away: Some(tally.away),
            mems: Some(tally.mems),
            oops: Some(tally.oops),
            times: Some(tally.times),
        },
    }
}

/// Adds a line with these figures.
#[tactic(auto, unfolding(crate::specs::CountJson::figured_line))]
fn add_figured(
    alloc: Global,
    text: &mut Bytes,
    figures: Figures,
    line: &CountedLine,
) -> Result<(), NoMemory>
    ensures { OnOk result (text.new ≡ text.old ++ spec.figured_line figures line.now) }
{
    add_number_if(text, b"{\"away\":", figures.away)?;
    add_number(text, b",\"line\":", u64::from(line.number))?;
    add_number_if(text, b",\"mems\":", figures.mems)?;
    add_number_if(text, b",\"oops\":", figures.oops)?;
    add_string(alloc, text, b",\"text\":", line.text.as_slice())?;
    add_number_if(text, b",\"times\":", figures.times)?;
    text.extend(b"}")
}

/// Adds a line.
#[tactic(auto, unfolding(crate::specs::CountJson::line_json))]
fn add_line(alloc: Global, text: &mut Bytes, line: &CountedLine) -> Result<(), NoMemory>
    ensures { OnOk result (text.new ≡ text.old ++ spec.line_json line.now) }
{
    add_figured(alloc, text, figures_of(line.tally), line)
}

/// Adds further lines.
fn add_more_lines(alloc: Global, text: &mut Bytes, lines: &[CountedLine]) -> Result<(), NoMemory>
    ensures { OnOk result (text.new ≡ text.old ++ further spec.line_json lines.now) }
{
    for line in lines {
        text.extend(b",")?;
        add_line(alloc, text, line)?;
    }
    Ok(())
}

/// Adds a list of lines.
fn add_list(alloc: Global, text: &mut Bytes, lines: &[CountedLine]) -> Result<(), NoMemory>
    ensures { OnOk result (text.new ≡ text.old ++ array spec.line_json lines.now) }
{
    match lines {
        [] => text.extend(b"[]"),
        [line, more @ ..] => {
            text.extend(b"[")?;
            add_line(alloc, text, line)?;
            add_more_lines(alloc, text, more)?;
            text.extend(b"]")
        }
    }
}

/// Adds the lines of a sheet, if there is one.
#[tactic(auto, unfolding(crate::specs::CountJson::lines_json))]
fn add_lines(alloc: Global, text: &mut Bytes, sheet: &Option<LineSheet>) -> Result<(), NoMemory>
    ensures { OnOk result (text.new ≡ text.old ++ spec.lines_json sheet.now) }
{
    match sheet {
        None => text.extend(b"null"),
        Some(sheet) => add_list(alloc, text, sheet.lines.as_slice()),
    }
}

/// Adds the figures of all steps.
#[tactic(auto, unfolding(crate::specs::CountJson::tally_json))]
pub fn add_tally(text: &mut Bytes, tally: Tally) -> Result<(), NoMemory>
    ensures { OnOk result (text.new ≡ text.old ++ spec.tally_json tally) }
{
    add_number(text, b"{\"away\":", tally.away)?;
    add_number(text, b",\"mems\":", tally.mems)?;
    add_number(text, b",\"oops\":", tally.oops)?;
    add_number(text, b",\"times\":", tally.times)?;
    text.extend(b"}")
}

/// Adds the figures of all steps, if there is a sheet.
#[tactic(auto, unfolding(crate::specs::CountJson::total_json))]
fn add_total(text: &mut Bytes, sheet: &Option<LineSheet>) -> Result<(), NoMemory>
    ensures { OnOk result (text.new ≡ text.old ++ spec.total_json sheet.now) }
{
    match sheet {
        None => text.extend(b"null"),
        Some(sheet) => add_tally(text, sheet.total),
    }
}

/// Adds a message without its newline.
#[tactic(auto, unfolding(crate::specs::CountJson::said_json))]
fn add_said(alloc: Global, text: &mut Bytes, said: &[u8]) -> Result<(), NoMemory>
    ensures { OnOk result (text.new ≡ text.old ++ spec.said_json said.now) }
{
    match said {
        [] => text.extend(b"null"),
        [_, ..] => add_string(alloc, text, b"", &said[..said.len() - 1]),
    }
}

/// The name of a message, at the beginning of an object.
#[tactic(auto, unfolding(crate::specs::CountJson::message_name))]
fn message_name() -> &'static [u8]
    ensures { result.now ≡ spec.message_name }
{
    b"{\"message\":"
}

/// Adds the message of an outcome.
#[tactic(auto, unfolding(crate::specs::CountJson::message_json))]
fn add_message(alloc: Global, text: &mut Bytes, outcome: Outcome) -> Result<(), NoMemory>
    ensures { OnOk result (text.new ≡ text.old ++ spec.message_json outcome) }
{
    let said = message(alloc, outcome)?;
    add_said(alloc, text, said.as_slice())
}

/// Adds the status of an outcome.
#[tactic(auto, unfolding(crate::specs::CountJson::status_json))]
fn add_status(text: &mut Bytes, outcome: Outcome) -> Result<(), NoMemory>
    ensures { OnOk result (text.new ≡ text.old ++ spec.status_json outcome) }
{
    add_number(text, b",\"status\":", u64::from(outcome.status()))
}

/// Adds an outcome: the status of the program, and its message.
#[tactic(auto, unfolding(crate::specs::CountJson::outcome_json))]
pub(crate) fn add_outcome(alloc: Global, text: &mut Bytes, outcome: Outcome) -> Result<(), NoMemory>
    ensures { OnOk result (text.new ≡ text.old ++ spec.outcome_json outcome) }
{
    text.extend(message_name())?;
    add_message(alloc, text, outcome)?;
    add_status(text, outcome)?;
    text.extend(b"}")
}

/// Why the source is refused, if that is the outcome.
#[tactic(auto, unfolding(crate::specs::CountJson::refusal_in))]
fn refusal_in(outcome: Outcome) -> Option<Refusal>
    ensures { result ≡ spec.refusal_in outcome }
{
    match outcome {
        Outcome::Refused {
            line,
            fault,
            from_line,
        } => Some(Refusal {
            line,
            fault,
            from_line,
        }),
        _ => None,
    }
}

/// Adds what is in front of the line: it begins at the beginning of a line, also after the output of a program.
#[tactic(auto, unfolding(crate::specs::CountJson::line_front))]
fn add_front(text: &mut Bytes, sheet: &Option<LineSheet>) -> Result<(), NoMemory>
    ensures { OnOk result (text.new ≡ text.old ++ spec.line_front sheet.now) }
{
    match sheet {
        None => Ok(()),
        Some(_) => text.extend(b"\n"),
    }
}

/// Adds why the source is refused, or `null`.
#[tactic(auto, unfolding(crate::specs::CountJson::refused_json))]
fn add_refused(text: &mut Bytes, front: &[u8], outcome: Outcome) -> Result<(), NoMemory>
    ensures { OnOk result (text.new ≡ text.old ++ front.now ++ spec.refused_json outcome) }
{
    add_refusal(text, front, refusal_in(outcome))
}

/// Begins what came of a run that was counted: its lines, and its outcome.
#[tactic(auto, unfolding(crate::specs::CountJson::counted_front))]
fn add_counted_front(
    alloc: Global,
    text: &mut Bytes,
    counted: &CountedLines,
) -> Result<(), NoMemory>
    ensures { OnOk result (text.new ≡ text.old ++ spec.counted_front counted.now) }
{
    add_front(text, &counted.sheet)?;
    text.extend(b"{\"lines\":")?;
    add_lines(alloc, text, &counted.sheet)?;
    text.extend(b",\"outcome\":")?;
    add_outcome(alloc, text, counted.outcome)
}

/// The name of a refusal, after other members.
#[tactic(auto, unfolding(crate::specs::CountJson::refused_name))]
fn refused_key() -> &'static [u8]
    ensures { result.now ≡ spec.refused_name }
{
    b",\"refused\":"
}

/// Ends what came of a run that was counted: its refusal, and the figures of all steps.
#[tactic(auto, unfolding(crate::specs::CountJson::counted_end))]
fn add_counted_end(text: &mut Bytes, counted: &CountedLines) -> Result<(), NoMemory>
    ensures { OnOk result (text.new ≡ text.old ++ spec.counted_end counted.now) }
{
    add_refused(text, refused_key(), counted.outcome)?;
    text.extend(b",\"total\":")?;
    add_total(text, &counted.sheet)?;
    text.extend(b"}\n")
}

/// Adds what came of a run that was counted, as a line.
#[tactic(auto, unfolding(crate::specs::CountJson::counted_json))]
pub fn add_counted(alloc: Global, text: &mut Bytes, counted: &CountedLines) -> Result<(), NoMemory>
    ensures { OnOk result (text.new ≡ text.old ++ spec.counted_json counted.now) }
{
    add_counted_front(alloc, text, counted)?;
    add_counted_end(text, counted)
}
