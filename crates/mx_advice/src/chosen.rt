//! What is said of a fault, where its number has several sentences.

ghost use Rattle.std.specs.Prelude.{◌≡◌};
ghost use Rattle.mx_advice.specs.Rows as spec;

use crate::rows::{Row, parts};

/// Where there is room for a byte.
#[tactic(auto, unfolding(crate::specs::Rows::byte_row))]
pub fn byte_row() -> Row
    ensures { spec.shown result ≡ spec.byte_row }
{
    parts(
        "",
        "A number",
        " does not fit: a number can be 0 to 255 here.",
        "Put it into a register first: by SET up to 65535, by NEG below 0.",
    )
}

/// Where parentheses do not match.
#[tactic(auto, unfolding(crate::specs::Rows::match_row))]
pub fn match_row() -> Row
    ensures { spec.shown result ≡ spec.match_row }
{
    parts(
        "",
        "The parentheses do not match, or a string is a part of an expression.",
        "",
        "Close each ( by a ). A string is an operand of its own, with commas around it.",
    )
}

/// Where operands end too early.
#[tactic(auto, unfolding(crate::specs::Rows::end_row))]
pub fn end_row() -> Row
    ensures { spec.shown result ≡ spec.end_row }
{
    parts(
        "The operands end after ",
        "their last part",
        ", where more has to follow.",
        "Operands contain no blanks: what follows a blank is a comment.",
    )
}

/// Where a name is defined in a later line only.
#[tactic(auto, unfolding(crate::specs::Rows::later_row))]
pub fn later_row() -> Row
    ensures { spec.shown result ≡ spec.later_row }
{
    parts(
        "",
        "A name",
        " is defined further down, but its value is needed here.",
        "Define it before this line: data, with their GREG, go in front of the code.",
    )
}

/// Where there is room for a wyde.
#[tactic(auto, unfolding(crate::specs::Rows::wyde_row))]
pub fn wyde_row() -> Row
    ensures { spec.shown result ≡ spec.wyde_row }
{
    parts(
        "",
        "A number",
        " does not fit: a number can be 0 to 65535 here.",
        "Take SETML $0,x>>16 and INCL $0,x&#ffff for a large x, and NEG for a negative one.",
    )
}

/// Where a TETRA has it.
#[tactic(auto, unfolding(crate::specs::Rows::tetra_row))]
pub fn tetra_row() -> Row
    ensures { spec.shown result ≡ spec.tetra_row }
{
    parts(
        "",
        "A number",
        " does not fit: a tetra is 0 to 4294967295.",
        "Take OCTA, which has room for all numbers.",
    )
}

/// Where a BYTE has it.
#[tactic(auto, unfolding(crate::specs::Rows::data_byte_row))]
pub fn data_byte_row() -> Row
    ensures { spec.shown result ≡ spec.data_byte_row }
{
    parts(
        "",
        "A number",
        " does not fit: a byte is 0 to 255.",
        "Take WYDE, TETRA or OCTA.",
    )
}

/// Where a WYDE has it.
#[tactic(auto, unfolding(crate::specs::Rows::data_wyde_row))]
pub fn data_wyde_row() -> Row
    ensures { spec.shown result ≡ spec.data_wyde_row }
{
    parts(
        "",
        "A number",
        " does not fit: a wyde is 0 to 65535.",
        "Take TETRA or OCTA.",
    )
}

/// Where LDA has the name of an instruction that is defined in a later line.
#[tactic(auto, unfolding(crate::specs::Rows::later_code_row))]
pub fn later_code_row() -> Row
    ensures { spec.shown result ≡ spec.later_code_row }
{
    parts(
        "",
        "A name",
        " is defined further down, but its value is needed here.",
        "Define it before this line. LDA can give way to GETA, which does not need the value.",
    )
}

/// Where a label is not in the first column.
#[tactic(auto, unfolding(crate::specs::Rows::indented_row))]
pub fn indented_row() -> Row
    ensures { spec.shown result ≡ spec.indented_row }
{
    parts(
        "",
        "This word",
        " is not in the first column, so it is read as an operation.",
        "A label begins in the first column of its line.",
    )
}

/// Where a comment begins with ;.
#[tactic(auto, unfolding(crate::specs::Rows::remark_row))]
pub fn remark_row() -> Row
    ensures { spec.shown result ≡ spec.remark_row }
{
    parts(
        "There is no operation ",
        "of this name",
        ".",
        "A ; begins the next statement. A comment after the operands needs no mark, and a line of comment begins with *.",
    )
}

/// Where a number below 0 is added or subtracted.
#[tactic(auto, unfolding(crate::specs::Rows::sum_row))]
pub fn sum_row() -> Row
    ensures { spec.shown result ≡ spec.sum_row }
{
    parts(
        "",
        "A number",
        " does not fit: a number can be 0 to 255 here.",
        "Take SUB in place of ADD, or ADD in place of SUB, and the number without its minus.",
    )
}

/// Where a label of data is given for a number.
#[tactic(auto, unfolding(crate::specs::Rows::address_row))]
pub fn address_row() -> Row
    ensures { spec.shown result ≡ spec.address_row }
{
    parts(
        "",
        "A number",
        " is an address, which has no room in an instruction.",
        "",
    )
}

/// Where there is no such local label at all.
#[tactic(auto, unfolding(crate::specs::Rows::nowhere_row))]
pub fn nowhere_row() -> Row
    ensures { spec.shown result ≡ spec.nowhere_row }
{
    parts(
        "",
        "A local label",
        " refers to a local label further down, and there is none.",
        "Write its label in front of a later line, as 1H for 1F.",
    )
}

/// Where Main has a colon.
#[tactic(auto, unfolding(crate::specs::Rows::colon_row))]
pub fn colon_row() -> Row
    ensures { spec.shown result ≡ spec.colon_row }
{
    parts(
        "",
        "There is no label Main, where a program starts.",
        "",
        "The label Main: has a colon: remove it.",
    )
}

/// Where another machine has the operation, and this is what MMIX has.
pub fn foreign_row(advice: &'static str) -> Row
    ensures { spec.shown result ≡ spec.foreign_row advice.now }
{
    parts("There is no operation ", "of this name", ".", advice)
}

/// Where a number has a point.
#[tactic(auto, unfolding(crate::specs::Rows::point_row))]
pub fn point_row() -> Row
    ensures { spec.shown result ≡ spec.point_row }
{
    parts(
        "",
        "A part of the operands",
        " does not belong here: a number has no point.",
        "Only whole numbers can be written. Count in smaller units: 15 tenths for 1.5.",
    )
}

/// Where an operand is missing in front of a comma.
#[tactic(auto, unfolding(crate::specs::Rows::comma_row))]
pub fn comma_row() -> Row
    ensures { spec.shown result ≡ spec.comma_row }
{
    parts(
        "",
        "A comma",
        " is not expected here: an operand is missing in front of it.",
        "Write 0 for an operand that is not needed. Operands contain no blanks.",
    )
}

/// Where a hexadecimal number begins as in other languages.
#[tactic(auto, unfolding(crate::specs::Rows::hexadecimal_row))]
pub fn hexadecimal_row() -> Row
    ensures { spec.shown result ≡ spec.hexadecimal_row }
{
    parts(
        "",
        "A part of the operands",
        " does not belong here: the number has ended in front of it.",
        "A hexadecimal number begins with #: write #ff for 0xff.",
    )
}

/// Where an operand is the name of a local label.
#[tactic(auto, unfolding(crate::specs::Rows::ahead_row))]
pub fn ahead_row() -> Row
    ensures { spec.shown result ≡ spec.ahead_row }
{
    parts(
        "",
        "A part of the operands",
        " does not belong here: 2H is written only as a label.",
        "An operand names the next label 2H by 2F, and the last one by 2B.",
    )
}

/// Where a string has ended.
#[tactic(auto, unfolding(crate::specs::Rows::quote_row))]
pub fn quote_row() -> Row
    ensures { spec.shown result ≡ spec.quote_row }
{
    parts(
        "",
        "A part of the operands",
        " does not belong here: a string ends at its next double quote.",
        "For a double quote in a text write #22 outside of the string, as in \"He said \",#22,\"hi\",#22.",
    )
}

/// Where a comment takes the place of operands.
#[tactic(auto, unfolding(crate::specs::Rows::comment_row))]
pub fn comment_row() -> Row
    ensures { spec.shown result ≡ spec.comment_row }
{
    parts(
        "",
        "A part of the operands",
        " is read as an operand, and none can begin so.",
        "Put an operand in front of a comment, as in SWYM 0 // nothing.",
    )
}

/// Where SET has room for a wyde.
#[tactic(auto, unfolding(crate::specs::Rows::set_row))]
pub fn set_row() -> Row
    ensures { spec.shown result ≡ spec.set_row }
{
    parts(
        "",
        "A number",
        " does not fit: a number can be 0 to 65535 here.",
        "",
    )
}

/// Where GETA does not reach an address.
#[tactic(auto, unfolding(crate::specs::Rows::far_row))]
pub fn far_row() -> Row
    ensures { spec.shown result ≡ spec.far_row }
{
    parts("", "The target is too far away for GETA.", "", "")
}

/// Where a label is like Main.
#[tactic(auto, unfolding(crate::specs::Rows::other_main_row))]
pub fn other_main_row() -> Row
    ensures { spec.shown result ≡ spec.other_main_row }
{
    parts(
        "",
        "There is no label Main, where a program starts.",
        "",
        "",
    )
}
