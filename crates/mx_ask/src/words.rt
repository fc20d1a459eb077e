//! The words of the debugger.

ghost use Rattle.std.specs.Prelude.{◌≡◌};
ghost use Rattle.std.specs.Option.{option_map};
ghost use Rattle.mx_ask.specs.Words as spec;

/// What a word of the debugger asks for.
#[derive(Clone, Copy, PartialEq, Eq)]
pub enum Word {
    /// Run from the start to the first break or watch.
    Run,
    /// Go to the start.
    Start,
    /// Go on by steps.
    Step,
    /// Go back by steps.
    ReverseStep,
    /// Go to a step.
    GoTo,
    /// Go on over a call.
    Next,
    /// Go back over a call.
    ReverseNext,
    /// Go on out of a call.
    Finish,
    /// Go back out of a call.
    ReverseFinish,
    /// Go on to the next break or watch.
    Continue,
    /// Go back to the last break or watch.
    ReverseContinue,
    /// Set a break.
    Break,
    /// Set a watch.
    Watch,
    /// Delete breaks and watches.
    Delete,
    /// Show a value.
    Print,
    /// Show what memory holds.
    Examine,
    /// Go to the step that made a value.
    Who,
    /// Show the calls that have not returned.
    Backtrace,
    /// Show what is known.
    Info,
    /// Show lines of the program.
    List,
    /// Explain words.
    Help,
    /// End the session.
    Quit,
}

/// A word as the table has it: what it asks for, its name, its short form, how it is written, and what it does.
#[derive(Clone, Copy)]
pub struct Row {
    pub word: Word,
    pub name: &'static str,
    pub short: &'static str,
    pub form: &'static str,
    pub help: &'static str,
}

/// Whether a row has this name or short form.
fn has_name(row: &Row, name: &[u8]) -> bool
    ensures { result ≡ spec.fits name.now row.now.name.now row.now.short.now }
{
    row.name.as_bytes() == name || row.short.as_bytes() == name
}

/// The first of rows that has this name or short form.
pub fn find_row<'a>(rows: &'a [Row], name: &[u8]) -> Option<&'a Row>
    ensures { option_map (λ row. row.now) result ≡ spec.row_of name.now rows.now }
{
    rows.iter().find(|row| has_name(row, name))
}

/// The name of a command under another name, by which users of gdb may know it.
pub(crate) fn usual_name(name: &[u8]) -> &[u8] {
    match name {
        b"where" => b"backtrace",
        b"stepi" | b"si" => b"step",
        b"nexti" | b"ni" => b"next",
        b"reverse-stepi" | b"rsi" => b"reverse-step",
        b"reverse-nexti" | b"rni" => b"reverse-next",
        _ => name,
    }
}
