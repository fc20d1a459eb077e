//! The slots of a host.

ghost use Rattle.std.specs.Prelude.{◌≡◌};
ghost use Rattle.mx_host.specs.HostModel as spec;

/// How a slot is opened. In this order the modes are those that Fopen numbers 0 to 4. The text modes read and write
/// bytes as the binary modes do; the place in the file is told and changed only in the binary modes.
#[derive(Clone, Copy, Debug, PartialEq, Eq)]
pub enum Mode {
    /// Mode 0, for reading only.
    TextRead,
    /// Mode 1, for writing only; the file is made or emptied.
    TextWrite,
    /// Mode 2, for reading only.
    BinaryRead,
    /// Mode 3, for writing only; the file is made or emptied.
    BinaryWrite,
    /// Mode 4, for both; the file is made or emptied.
    BinaryReadWrite,
}

impl Mode {
    /// Whether a slot in this mode may be read and not written: TextRead and BinaryRead.
    pub fn is_read_only(self) -> bool
        ensures { result ≡ spec.is_read_only self }
    {
        match self {
            Mode::TextRead | Mode::BinaryRead => true,
            Mode::TextWrite | Mode::BinaryWrite | Mode::BinaryReadWrite => false,
        }
    }

    /// Whether a slot in this mode may be written and not read: TextWrite and BinaryWrite.
    pub fn is_write_only(self) -> bool
        ensures { result ≡ spec.is_write_only self }
    {
        match self {
            Mode::TextWrite | Mode::BinaryWrite => true,
            Mode::TextRead | Mode::BinaryRead | Mode::BinaryReadWrite => false,
        }
    }

    /// Whether the place in a file in this mode is told and changed: BinaryRead, BinaryWrite and BinaryReadWrite.
    pub fn is_binary(self) -> bool
        ensures { result ≡ spec.is_binary self }
    {
        match self {
            Mode::BinaryRead | Mode::BinaryWrite | Mode::BinaryReadWrite => true,
            Mode::TextRead | Mode::TextWrite => false,
        }
    }
}

/// Where an open slot leads: to a standard stream, or to a file.
#[derive(Clone, Copy, PartialEq, Eq)]
pub enum Lead {
    /// To standard input.
    Input,
    /// To standard output.
    Output,
    /// To standard error.
    Errors,
    /// To the file at this place in the list of files.
    File(usize),
}

/// What a slot of a host is, as contracts see it: closed, or open with what it leads to, its mode and its place.
#[derive(Clone, Copy, PartialEq, Eq)]
pub enum Slot {
    /// It is not open.
    Closed,
    /// It is open.
    Open {
        /// Where it leads.
        lead: Lead,
        /// How it was opened.
        mode: Mode,
        /// The place in the file where it reads and writes next, in bytes from the start. It may
        /// be past the end, since the file can be emptied through another slot.
        place: usize,
    },
}
