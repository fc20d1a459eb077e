//! What holds of the table of instructions.

ghost use Rattle.std.specs.Prelude.{◌≡◌, ◌<◌, ◌+◌, ◌*◌, ℕ, [], ◌∷◌, Some, IsTrue, drop, length, map, slice_index_or};
ghost use Rattle.std.specs.List.{Contains};
ghost use Rattle.mx_ops.specs.Opcodes.{IsCodeOf, Row, opcode_rows, own_code, rows_follow};
ghost use Rattle.mx_ops.specs.Predefined.{predefined_value, special_code, special_name, special_registers};

use crate::codes::{
    RA, RB, RBB, RC, RD, RE, RF, RG, RH, RI, RJ, RK, RL, RM, RN, RO, RP, RQ, RR, RS, RT, RTT, RU,
    RV, RW, RWW, RX, RXX, RY, RYY, RZ, RZZ,
};

/// The rows of the table follow one another without a gap from code 0 to code 255. Each name of a
/// row has its codes one after the other: its own one; then, in a row marked I, one with Z as an
/// immediate byte, or in a row marked B, one for a backward address.
pub fn each_name_has_its_codes()
    ensures follow { IsTrue (rows_follow 0 opcode_rows) }
    ensures codes { (row : Row) (i j : ℕ) → Contains opcode_rows row → i < length row.names → j < length row.kinds →
        IsCodeOf (slice_index_or row.names i []) (slice_index_or row.kinds j own_code)
        (row.first + length row.kinds * i + j) }
{}

/// The special registers have the codes from 0 in the order of their names. A code is found by its name without the r, and
/// is the value of the predefined symbol of that name.
pub fn special_registers_have_their_codes()
    ensures names { special_registers ≡ map special_name (RB ∷ RD ∷ RE ∷ RH ∷ RJ ∷ RM ∷ RR ∷ RBB ∷ RC ∷ RN ∷ RO ∷ RS ∷ RI ∷ RT ∷ RTT ∷ RK ∷ RQ ∷ RU ∷ RV ∷ RG ∷ RL ∷ RA ∷ RF ∷ RP ∷ RW ∷ RX ∷ RY ∷ RZ ∷ RWW ∷ RXX ∷ RYY ∷ RZZ ∷ []) }
    ensures found { (code : ℕ) → code < 32 → special_code (drop 1 (special_name code)) ≡ Some code }
    ensures predefined { (code : ℕ) → code < 32 → predefined_value (58 ∷ special_name code) ≡ Some code }
{}
