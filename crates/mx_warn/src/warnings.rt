//! What a warning says.

ghost use Rattle.std.specs.Prelude.{◌≡◌};
ghost use Rattle.mx_warn.specs.Kinds as spec;

use mx_word::{Bytes, Sequence};

/// What is odd about a place of a source.
#[derive(Clone, Copy)]
pub enum Kind {
    /// An operator and an operand follow the blank that ends the operands.
    OperatorAfterBlank,
    /// A string has a backslash before a letter or digit that is an escape in other languages.
    BackslashInString,
    /// A local label `dB` comes before any `dH`.
    NoLabelBefore,
    /// Two lines place a byte.
    PlacedTwice,
    /// GREG makes a register of 0 where a base was meant.
    GregOfZero,
    /// GREG has an address that nothing uses.
    UnusedBase,
    /// Data would be carried out after an instruction.
    DataAfterCode,
    /// A label is never used, and a name that differs from it in the case of letters alone is used and not defined.
    OtherCase,
    /// A subroutine calls another one and does not save rJ.
    LostReturn,
    /// A service is called with another first operand than 0, or with two operands.
    TrapOperands,
    /// JMP jumps to itself.
    EndlessJump,
    /// An instruction is on floating-point numbers.
    FloatInstruction,
    /// A label of wydes or tetras is loaded or stored as an octa.
    NarrowLabel,
}

impl Kind {
    /// The number of the warning.
    pub fn number(self) -> u16
        ensures { result ≡ spec.kind_number self }
    {
        match self {
            Kind::OperatorAfterBlank => 1,
            Kind::BackslashInString => 2,
            Kind::NoLabelBefore => 3,
            Kind::PlacedTwice => 4,
            Kind::GregOfZero => 5,
            Kind::UnusedBase => 6,
            Kind::DataAfterCode => 7,
            Kind::OtherCase => 8,
            Kind::LostReturn => 9,
            Kind::TrapOperands => 10,
            Kind::EndlessJump => 11,
            Kind::FloatInstruction => 12,
            Kind::NarrowLabel => 13,
        }
    }

    /// The short name of the warning.
    #[tactic(auto, unfolding(crate::specs::Kinds::kind_name))]
    pub fn name(self) -> &'static str
        ensures { result.now ≡ spec.kind_name self }
    {
        match self {
            Kind::OperatorAfterBlank => "OperatorAfterBlank",
            Kind::BackslashInString => "BackslashInString",
            Kind::NoLabelBefore => "NoLabelBefore",
            Kind::PlacedTwice => "PlacedTwice",
            Kind::GregOfZero => "GregOfZero",
            Kind::UnusedBase => "UnusedBase",
            Kind::DataAfterCode => "DataAfterCode",
            Kind::OtherCase => "OtherCase",
            Kind::LostReturn => "LostReturn",
            Kind::TrapOperands => "TrapOperands",
            Kind::EndlessJump => "EndlessJump",
            Kind::FloatInstruction => "FloatInstruction",
            Kind::NarrowLabel => "NarrowLabel",
        }
    }

    /// What is odd, and how to fix it.
    #[tactic(auto, unfolding(crate::specs::Kinds::kind_sentence))]
    pub fn sentence(self) -> &'static str
        ensures { result.now ≡ spec.kind_sentence self }
    {
        match self {
            Kind::OperatorAfterBlank => {
                "a blank ends the operands, so the rest of the line is a comment; write the operands without blanks"
            }
            Kind::BackslashInString => {
                "a string has no escapes, so the backslash is a byte of it; write such a byte as a number, as in \"text\",10,0"
            }
            Kind::NoLabelBefore => {
                "no such local label comes before, so this is 0; 1F means the next 1H, and for this line itself write JMP @"
            }
            Kind::PlacedTwice => {
                "an earlier line placed some of these bytes, too, and memory gets the exclusive or; LOC leads elsewhere"
            }
            Kind::GregOfZero => {
                "the register is 0, which is no base for data; GREG @ makes a base for those that follow"
            }
            Kind::UnusedBase => {
                "nothing uses this register, neither by its name nor as a base; leave it out, or put it before the data that it is for"
            }
            Kind::DataAfterCode => {
                "the machine goes on to the next tetra, where data are; TRAP 0,Halt,0 ends the program, and JMP leads around data"
            }
            Kind::OtherCase => {
                "this label is never used, and a name that differs in the case of letters alone is not defined; write both alike"
            }
            Kind::LostReturn => {
                "this may return to the wrong place: a call in the subroutine changed rJ; GET saves rJ before the call, and PUT restores it"
            }
            Kind::TrapOperands => {
                "TRAP takes 0, a service and its handle, as in TRAP 0,Fputs,StdOut; by these operands it calls none, and the run stops"
            }
            Kind::EndlessJump => {
                "this jumps to itself, so the run never gets past it; TRAP 0,Halt,0 ends the program"
            }
            Kind::FloatInstruction => {
                "this machine has no floating-point numbers, so the run stops here; compute with whole numbers"
            }
            Kind::NarrowLabel => {
                "this label has WYDEs or TETRAs, and an octa begins at a multiple of 8 and has 8 bytes; LDW and LDT load them, STW and STT store them"
            }
        }
    }
}

/// A warning: the number of its line, which is counted from 1, what is odd, the text of the line without the newline, how
/// many bytes of the line are before what is odd, how many bytes this has, and the number of another line that the
/// warning is about, or 0.
#[derive(Drop)]
pub struct Warning {
    pub line: u32,
    pub kind: Kind,
    pub text: Bytes,
    pub place: usize,
    pub length: usize,
    pub other: u32,
}

/// A list of warnings.
pub type Warnings = Sequence<Warning>;
