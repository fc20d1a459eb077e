//! The commands, each with the words that follow it. A command or an option more is a row more.

/// What a command does.
#[derive(Clone, Copy)]
pub enum Face {
    /// The listing of a source.
    List,
    /// The faults and the warnings of a source.
    Check,
    /// The lines of an address.
    Where,
    /// A source that is run and counted. Its words are read as those of `mmixware run`: the table has its help alone.
    Count,
    /// What a number or a name means.
    Explain,
    /// A run that is gone through step by step, back and forth. Its words are read as those of `mmixware run`, after its own options.
    Debug,
    /// A program and its run on one page. Its words are read as those of `mmixware run`, after its own options.
    Page,
    /// A server for editors.
    Lsp,
    /// A debug adapter for editors.
    Dap,
}

/// How a word is given: by a name after two dashes, alone or with a value, or by its place, where it may be left out or come often.
#[derive(Clone, Copy)]
pub enum Form {
    Flag(&'static str),
    Value(&'static str),
    One,
    Maybe,
    Many,
}

/// A word of a command, with its text of help.
pub struct Word {
    pub id: &'static str,
    pub form: Form,
    pub help: &'static str,
}

/// A command: its name, its text of help, and its words in their order.
pub struct Row {
    pub face: Face,
    pub name: &'static str,
    pub about: &'static str,
    pub words: &'static [Word],
}

/// The name, the version and the text of help of the program.
pub const NAME: &str = "mmixview";

pub const VERSION: &str = "0.4.0";

pub const ABOUT: &str = "Views of a source in MMIXAL, and of a run of it.";

/// The commands in the order in which help has them.
pub static COMMANDS: [Row; 9] = [
    Row {
        face: Face::List,
        name: "list",
        about: "lists a source or an object: each line with the tetras that it loads, then the symbols",
        words: &[
            Word {
                id: "JSON",
                form: Form::Flag("json"),
                help: "writes one line of JSON in place of the text",
            },
            Word {
                id: "SRC",
                form: Form::One,
                help: "the file of the source, in MMIXAL",
            },
        ],
    },
    Row {
        face: Face::Check,
        name: "check",
        about: "prints the faults of a source, up to 100, and its warnings, each with its line",
        words: &[
            Word {
                id: "JSON",
                form: Form::Flag("json"),
                help: "writes one line of JSON in place of the text",
            },
            Word {
                id: "GNU",
                form: Form::Flag("gnu"),
                help: "writes each fault as SRC:LINE:COLUMN: error: FAULT, for editors",
            },
            Word {
                id: "NO_WARNINGS",
                form: Form::Flag("no-warnings"),
                help: "leaves out warnings of what is legal but probably not intended",
            },
            Word {
                id: "SRC",
                form: Form::One,
                help: "the file of the source, in MMIXAL",
            },
        ],
    },
    Row {
        face: Face::Where,
        name: "where",
        about: "shows which lines load the tetra that holds an address, and this tetra",
        words: &[
            Word {
                id: "JSON",
                form: Form::Flag("json"),
                help: "writes one line of JSON in place of the text",
            },
            Word {
                id: "ADDRESS",
                form: Form::One,
                help: "an address: # and hexadecimal digits, or decimal digits",
            },
            Word {
                id: "SRC",
                form: Form::One,
                help: "the file of the source, in MMIXAL",
            },
        ],
    },
    Row {
        face: Face::Count,
        name: "count",
        about: "runs a source or an object, and shows how often each line was carried out and what that costs",
        words: &[
            Word {
                id: "JSON",
                form: Form::Flag("json"),
                help: "in front of the other options: one line of JSON follows in place of the table",
            },
            Word {
                id: "R",
                form: Form::Value("ring"),
                help: "the ring has R registers, a power of two from 256 to 65536",
            },
            Word {
                id: "N",
                form: Form::Value("steps"),
                help: "at most N steps are made, 1 to 1000000000000",
            },
            Word {
                id: "SRC",
                form: Form::One,
                help: "the file of the source, in MMIXAL",
            },
            Word {
                id: "ARG",
                form: Form::Many,
                help: "what the program is handed",
            },
        ],
    },
    Row {
        face: Face::Explain,
        name: "explain",
        about: "says what a number or a name means: a fault, a warning, a status, an operation, a symbol",
        words: &[Word {
            id: "WORD",
            form: Form::Maybe,
            help: "the number or the name; without it all that is explained is listed",
        }],
    },
    Row {
        face: Face::Debug,
        name: "debug",
        about: "goes through the run of a source or an object step by step, forward and back",
        words: &[
            Word {
                id: "COMMANDS",
                form: Form::Value("command"),
                help: "a file whose lines are answered in place of those of standard input",
            },
            Word {
                id: "INPUT",
                form: Form::Value("input"),
                help: "a file with the standard input of the program",
            },
            Word {
                id: "FILE",
                form: Form::Value("file"),
                help: "a file that the program is to find, read before the run; may be given several times",
            },
            Word {
                id: "R",
                form: Form::Value("ring"),
                help: "the ring has R registers, a power of two from 256 to 65536",
            },
            Word {
                id: "N",
                form: Form::Value("steps"),
                help: "at most N steps are made, 1 to 1000000000000",
            },
            Word {
                id: "SRC",
                form: Form::One,
                help: "the file of the source, in MMIXAL, or of the object",
            },
            Word {
                id: "ARG",
                form: Form::Many,
                help: "what the program is handed",
            },
        ],
    },
    Row {
        face: Face::Page,
        name: "page",
        about: "writes a page with a source or an object and its run, step by step, forward and back",
        words: &[
            Word {
                id: "JSON",
                form: Form::Flag("json"),
                help: "writes the data of the page alone, one line of JSON",
            },
            Word {
                id: "N",
                form: Form::Value("steps"),
                help: "at most N steps are on the page, 1 to 1000000; without it 100000",
            },
            Word {
                id: "R",
                form: Form::Value("ring"),
                help: "the ring has R registers, a power of two from 256 to 65536",
            },
            Word {
                id: "INPUT",
                form: Form::Value("input"),
                help: "a file with the standard input of the program",
            },
            Word {
                id: "FILE",
                form: Form::Value("file"),
                help: "a file that the program is to find; may be given several times",
            },
            Word {
                id: "SRC",
                form: Form::One,
                help: "the file of the source, in MMIXAL, or of the object",
            },
            Word {
                id: "ARG",
                form: Form::Many,
                help: "what the program is handed",
            },
        ],
    },
    Row {
        face: Face::Lsp,
        name: "lsp",
        about: "serves an editor over standard input and output, by the Language Server Protocol",
        words: &[],
    },
    Row {
        face: Face::Dap,
        name: "dap",
        about: "lets an editor go through a run forward and back, by the Debug Adapter Protocol",
        words: &[],
    },
];
