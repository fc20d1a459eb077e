//! The requests of the protocol by their names.

ghost use Rattle.std.specs.Prelude.{◌≡◌, map};
ghost use Rattle.mx_adapter.specs.Commands as spec;
ghost use Rattle.mx_adapter.specs.Commands.{named_by};

/// What a request asks for.
#[derive(Clone, Copy, Debug, PartialEq, Eq)]
pub enum Command {
    Initialize,
    Launch,
    ConfigurationDone,
    SetBreakpoints,
    SetFunctionBreakpoints,
    SetInstructionBreakpoints,
    SetDataBreakpoints,
    SetExceptionBreakpoints,
    DataBreakpointInfo,
    ExceptionInfo,
    Continue,
    Next,
    StepIn,
    StepOut,
    StepBack,
    ReverseContinue,
    Pause,
    Threads,
    StackTrace,
    Scopes,
    Variables,
    Evaluate,
    ReadMemory,
    Disassemble,
    Source,
    LoadedSources,
    Cancel,
    Terminate,
    Disconnect,
    Other,
}

/// A request and its name.
#[derive(Clone, Copy)]
struct Row {
    name: &'static str,
    command: Command,
}

/// The requests by their names.
static COMMANDS: [Row; 29] = [
    Row {
        name: "initialize",
        command: Command::Initialize,
    },
    Row {
        name: "launch",
        command: Command::Launch,
    },
    Row {
        name: "configurationDone",
        command: Command::ConfigurationDone,
    },
    Row {
        name: "setBreakpoints",
        command: Command::SetBreakpoints,
    },
    Row {
        name: "setFunctionBreakpoints",
        command: Command::SetFunctionBreakpoints,
    },
    Row {
        name: "setInstructionBreakpoints",
        command: Command::SetInstructionBreakpoints,
    },
    Row {
        name: "setDataBreakpoints",
        command: Command::SetDataBreakpoints,
    },
    Row {
        name: "setExceptionBreakpoints",
        command: Command::SetExceptionBreakpoints,
    },
    Row {
        name: "dataBreakpointInfo",
        command: Command::DataBreakpointInfo,
    },
    Row {
        name: "exceptionInfo",
        command: Command::ExceptionInfo,
    },
    Row {
        name: "continue",
        command: Command::Continue,
    },
    Row {
        name: "next",
        command: Command::Next,
    },
    Row {
        name: "stepIn",
        command: Command::StepIn,
    },
    Row {
        name: "stepOut",
        command: Command::StepOut,
    },
    Row {
        name: "stepBack",
        command: Command::StepBack,
    },
    Row {
        name: "reverseContinue",
        command: Command::ReverseContinue,
    },
    Row {
        name: "pause",
        command: Command::Pause,
    },
    Row {
        name: "threads",
        command: Command::Threads,
    },
    Row {
        name: "stackTrace",
        command: Command::StackTrace,
    },
    Row {
        name: "scopes",
        command: Command::Scopes,
    },
    Row {
        name: "variables",
        command: Command::Variables,
    },
    Row {
        name: "evaluate",
        command: Command::Evaluate,
    },
    Row {
        name: "readMemory",
        command: Command::ReadMemory,
    },
    Row {
        name: "disassemble",
        command: Command::Disassemble,
    },
    Row {
        name: "source",
        command: Command::Source,
    },
    Row {
        name: "loadedSources",
        command: Command::LoadedSources,
    },
    Row {
        name: "cancel",
        command: Command::Cancel,
    },
    Row {
        name: "terminate",
        command: Command::Terminate,
    },
    Row {
        name: "disconnect",
        command: Command::Disconnect,
    },
];

/// The request of this name among some.
#[tactic(auto, using(crate::proofs::Named::naming))]
fn find_named(rows: &[Row], name: &[u8]) -> Command
    ensures { result ≡ spec.named_in (map named_by rows.now) name.now }
{
    for row in rows {
        if row.name.as_bytes() == name {
            return row.command;
        }
    }
    Command::Other
}

/// The request of this name.
#[tactic(auto, unfolding(crate::specs::Commands::named))]
pub(crate) fn command_named(name: &[u8]) -> Command
    ensures { result ≡ spec.named name.now }
{
    find_named(&COMMANDS, name)
}
