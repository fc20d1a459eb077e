//! What is said of a fault, by its number.

ghost use Rattle.std.specs.Prelude.{◌≡◌};
ghost use Rattle.mx_advice.specs.Rows as spec;

/// A sentence: what comes before the marked text, a noun for this text where it is not known, and what comes after it. Where nothing
/// comes after it, the noun is the whole. And a sentence on how to fix the fault.
#[derive(Clone, Copy)]
pub struct Row {
    pub before: &'static str,
    pub noun: &'static str,
    pub after: &'static str,
    pub help: &'static str,
}

/// A sentence of these parts.
pub(crate) fn parts(
    before: &'static str,
    noun: &'static str,
    after: &'static str,
    help: &'static str,
) -> Row
    ensures { spec.shown result ≡ spec.row before.now noun.now after.now help.now }
{
    Row {
        before,
        noun,
        after,
        help,
    }
}

/// No sentence.
fn no_row() -> Row
    ensures { spec.shown result ≡ spec.no_row }
{
    parts("", "", "", "")
}

/// Where a line cannot be cut.
#[tactic(auto, unfolding(crate::specs::Rows::line_row))]
fn line_row(number: u16) -> Row
    ensures { spec.shown result ≡ spec.line_row number }
{
    match number {
        1 => parts(
            "",
            "The line has more than 4096 bytes.",
            "",
            "Split it into several lines.",
        ),
        2 => parts(
            "The label ",
            "of this statement",
            " is followed by a character that is no blank.",
            "A label has letters, digits, : and _. A statement without a label begins with a blank.",
        ),
        3 => parts(
            "",
            "The label",
            " begins with a digit, and is no local label.",
            "Local labels are 0H to 9H. Other labels begin with a letter.",
        ),
        4 => parts(
            "The operation ",
            "of this statement",
            " is followed by a character that is no blank.",
            "Put a blank after the operation, and one in front: in the first column it is read as a label.",
        ),
        5 => parts(
            "",
            "A string is not closed on its line.",
            "",
            "Close it by a double quote. For a double quote in a text write #22 outside of the string.",
        ),
        6 => parts(
            "",
            "An apostrophe is not followed by one byte and an apostrophe.",
            "",
            "Write a text of several characters in double quotes, and a character beyond ASCII, too: it has more than one byte.",
        ),
        7 => parts(
            "",
            "This word",
            " is read as a label, and no operation follows it.",
            "Put a blank in front of an operation. For a label alone write IS @ after it.",
        ),
        _ => no_row(),
    }
}

/// Where operands cannot be read or valued.
#[tactic(auto, unfolding(crate::specs::Rows::expression_row))]
fn expression_row(number: u16) -> Row
    ensures { spec.shown result ≡ spec.expression_row number }
{
    match number {
        10 => parts(
            "",
            "A part of the operands",
            " does not belong here: an expression has ended, or none can begin so.",
            "Operands contain no blanks. A comma separates two operands, and an operator as + or * two numbers.",
        ),
        11 => parts(
            "",
            "A number is 2^64 or more.",
            "",
            "Take a smaller number: the largest is #ffffffffffffffff.",
        ),
        12 => parts(
            "",
            "The right side of a division is 0.",
            "",
            "Look at the value of the right side of / or %.",
        ),
        13 => parts(
            "",
            "The left side of // is not below the right side.",
            "",
            "x//y makes a fraction below 1. Whole numbers are divided by /.",
        ),
        14 => parts(
            "",
            "A register is in an expression that takes only numbers.",
            "",
            "Only + and - are for registers, as in $1+2.",
        ),
        15 => parts(
            "",
            "The assembler cannot add two registers.",
            "",
            "Add them when the program runs, by ADD.",
        ),
        16 => parts(
            "",
            "The assembler cannot subtract a register from a number.",
            "",
            "Subtract it when the program runs, by SUB or NEG.",
        ),
        17 => parts(
            "",
            "A name",
            " has no value here: no earlier line defines it.",
            "Look for a misspelling. Registers are written with $, as $0. A comment needs operands in front of it.",
        ),
        18 => parts(
            "",
            "More than 255 parentheses are open.",
            "",
            "Give parts of the expression names by IS.",
        ),
        19 => parts(
            "",
            "A string has no characters.",
            "",
            "For a text without bytes write 0.",
        ),
        21 => parts(
            "",
            "There is no such register: they are $0 to $255.",
            "",
            "Take a lower number.",
        ),
        _ => no_row(),
    }
}

/// Where a label cannot be defined.
#[tactic(auto, unfolding(crate::specs::Rows::symbol_row))]
fn symbol_row(number: u16) -> Row
    ensures { spec.shown result ≡ spec.symbol_row number }
{
    match number {
        30 => parts(
            "",
            "The label",
            " is defined already.",
            "Take another name, or a local label as 2H, which can be defined again.",
        ),
        31 => parts(
            "",
            "The label",
            " is a name that MMIXAL defines.",
            "Take another name.",
        ),
        33 => parts(
            "",
            "A name has more than 1024 bytes with its prefix.",
            "",
            "Take a shorter one.",
        ),
        _ => no_row(),
    }
}

/// Where a statement has no encoding.
#[tactic(auto, unfolding(crate::specs::Rows::statement_row))]
fn statement_row(number: u16) -> Row
    ensures { spec.shown result ≡ spec.statement_row number }
{
    match number {
        39 => parts(
            "There is no operation ",
            "of this name",
            ".",
            "Operations are in capitals. A line of comment begins with *, and a ; begins the next statement.",
        ),
        40 => parts(
            "",
            "The operation does not take these operands.",
            "",
            "Count the operands: a blank ends them.",
        ),
        41 => parts(
            "",
            "A number is given where a register is wanted.",
            "",
            "Registers are written with $, as $2.",
        ),
        42 => parts(
            "",
            "A register is given where a number is wanted.",
            "",
            "Only the program that runs knows what a register holds.",
        ),
        43 => parts(
            "",
            "A number does not fit into its place.",
            "",
            "Put a number above 255 into a register: by SET up to 65535, by SETML and INCL above, by NEG below 0.",
        ),
        44 => parts(
            "",
            "No GREG has this address or one up to 255 below it.",
            "",
            "Write GREG @ right in front of the data, after their LOC, and once more for each further 256 bytes.",
        ),
        45 => parts(
            "",
            "The target is too far away.",
            "",
            "Branch around a JMP, or put the address into a register and use GO.",
        ),
        46 => parts(
            "",
            "The distance to the target is no multiple of 4.",
            "",
            "Align the target, as by a TETRA in front of it. For the address of data use LDA and a GREG @.",
        ),
        47 => parts(
            "",
            "GREG has no register left above $31.",
            "",
            "Let addresses that lie near each other share a GREG.",
        ),
        48 => parts(
            "",
            "PREFIX and LOCAL take no label.",
            "",
            "Leave the label out.",
        ),
        49 => parts(
            "",
            "A byte would be placed at #6000000000000000 or above.",
            "",
            "The register stack is the machine's own. Place data below it, as at Data_Segment.",
        ),
        _ => no_row(),
    }
}

/// Where a source cannot be assembled.
#[tactic(auto, unfolding(crate::specs::Rows::source_row))]
fn source_row(number: u16) -> Row
    ensures { spec.shown result ≡ spec.source_row number }
{
    match number {
        80 => parts(
            "",
            "A name",
            " is not defined.",
            "Capitals and small letters differ. A colon is part of a name: Loop: is another label than Loop.",
        ),
        81 => parts(
            "",
            "A local label",
            " refers to a local label further down, and there is none.",
            "For the one further up write B in place of F, as 1B.",
        ),
        82 => parts(
            "",
            "There is no label Main, where a program starts.",
            "",
            "Write Main in front of the first instruction, without a colon. Under a PREFIX it is :Main.",
        ),
        83 => parts(
            "",
            "Main is a register, but a program starts at the address Main.",
            "",
            "Write Main in front of the first instruction, and take another name for the register.",
        ),
        84 => parts(
            "",
            "A label that is used here is made a register further down.",
            "",
            "Define the register before this line.",
        ),
        85 => parts(
            "",
            "The label that is used here is too far away.",
            "",
            "Branch around a JMP, or put the address into a register and use GO.",
        ),
        86 => parts(
            "",
            "The names need more than 65535 tetras in an object.",
            "",
            "Use local labels.",
        ),
        87 => parts(
            "",
            "GREG took a register that LOCAL names.",
            "",
            "Use fewer GREGs, or a lower register.",
        ),
        88 => parts(
            "",
            "The lines up to here have more than 4194304 bytes.",
            "",
            "Cut comments, or make the data when the program runs.",
        ),
        89 => parts(
            "",
            "The distance to the label that is used here is no multiple of 4.",
            "",
            "Align the label, as by a TETRA in front of it. For the address of data use LDA and a GREG @.",
        ),
        90 => parts(
            "",
            "The program places bytes on more than 65536 pages of 4096 bytes.",
            "",
            "Place them closer to each other.",
        ),
        _ => no_row(),
    }
}

/// The sentence on a fault of this number.
pub fn row_of(number: u16) -> Row
    ensures { spec.shown result ≡ spec.row_of number }
{
    if number < 10 {
        line_row(number)
    } else if number < 30 {
        expression_row(number)
    } else if number < 39 {
        symbol_row(number)
    } else if number < 60 {
        statement_row(number)
    } else {
        source_row(number)
    }
}
