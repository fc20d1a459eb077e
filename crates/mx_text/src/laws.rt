//! What holds of the texts over their definitions alone.

ghost use Rattle.std.specs.Prelude.{◌≡◌, ◌<◌, ◌^◌, ℕ};
ghost use Rattle.std.specs.Str.Parse.{IsNumeral, digits_value};
ghost use Rattle.mx_ops.specs.Opcodes.{opcode_name, operation_of};
ghost use Rattle.mx_ops.specs.declared.op.Op.{Op};
ghost use Rattle.mx_text.specs.Instructions.{instruction_text};
ghost use Rattle.mx_text.specs.Numbers.{decimal_text, hex_digits, hex_text};
ghost use Rattle.mx_text.specs.Reading.{lowest_code, shown_part};

/// The digits of an octa in hexadecimal form are a numeral with the octa as its value.
#[tactic(auto, using(crate::proofs::HexValues::values))]
pub fn hex_digits_count_the_octa()
    ensures numeral { (x : ℕ) → x < 2 ^ 64 → IsNumeral 16 (hex_digits 16 x) }
    ensures value { (x : ℕ) → x < 2 ^ 64 → digits_value 16 (hex_digits 16 x) ≡ x }
{}

/// Different octas have different texts, in hexadecimal form and as signed numbers.
#[tactic(auto, using(crate::proofs::Different::different))]
pub fn texts_of_octas_differ()
    ensures hex { (x y : ℕ) → x < 2 ^ 64 → y < 2 ^ 64 → hex_text x ≡ hex_text y → x ≡ y }
    ensures decimal { (x y : ℕ) → x < 2 ^ 64 → y < 2 ^ 64 → decimal_text x ≡ decimal_text y → x ≡ y }
{}

/// The name that is shown is found as the instruction that it names: its lowest code is the code, or
/// the one before a second code.
#[tactic(auto, using(crate::proofs::LowestCodes::names))]
pub fn names_are_found()
    ensures { (code : ℕ) → code < 256 → operation_of (opcode_name code) ≡ Some (Op.Code (lowest_code code)) }
{}

/// A text at an address gives its instruction: two tetras with the same text are equal, but for a Y
/// that has to be 0 and is not shown.
pub fn texts_tell_their_instruction()
    ensures told { (word other pc : ℕ) → word < 2 ^ 32 → other < 2 ^ 32 → pc < 2 ^ 64 →
        instruction_text word pc ≡ instruction_text other pc → shown_part word ≡ shown_part other }
    ensures hidden { (word pc : ℕ) → word < 2 ^ 32 → instruction_text (shown_part word) pc ≡ instruction_text word pc }
{}
