//! What holds of PUT and of the codes of special registers over their definitions alone.

ghost use Rattle.std.specs.Prelude.{◌≡◌, ◌≤◌, ◌<◌, ◌^◌, ◌∷◌, [], ℕ, map};
ghost use Rattle.mx_ops.specs.Predefined.{special_name, special_registers};
ghost use Rattle.mx_code.specs.Puts.{put_of};
ghost use Rattle.mx_code.specs.SpecialRegisters.{rA, rB, rBB, rC, rD, rE, rF, rG, rH, rI, rJ, rK, rL, rM, rN, rO, rP, rQ, rR, rS, rT, rTT};
ghost use Rattle.mx_code.specs.SpecialRegisters.{rU, rV, rW, rWW, rX, rXX, rY, rYY, rZ, rZZ};
ghost use Rattle.mx_code.specs.declared.put.Put.TheVariants.{Store};

/// PUT never stores more than its value. rA gets 18 bits, rL never grows, and rG gets 32 to 255, and
/// never less than rL.
pub fn stored_values_are_in_bounds()
    ensures value { (code value g l x : ℕ) → put_of code value g l ≡ Store x → x ≤ value }
    ensures status { (value g l x : ℕ) → put_of rA value g l ≡ Store x → x < 2 ^ 18 }
    ensures local { (value g l x : ℕ) → put_of rL value g l ≡ Store x → x ≤ l }
    ensures global_low { (value g l x : ℕ) → put_of rG value g l ≡ Store x → 32 ≤ x }
    ensures global_high { (value g l x : ℕ) → put_of rG value g l ≡ Store x → x ≤ 255 }
    ensures global_local { (value g l x : ℕ) → put_of rG value g l ≡ Store x → l ≤ x }
{}

/// The codes of the machine's special registers are those that their names have in sources.
pub fn special_registers_are_those_of_their_names()
    ensures { special_registers ≡ map special_name (rB ∷ rD ∷ rE ∷ rH ∷ rJ ∷ rM ∷ rR ∷ rBB ∷ rC ∷ rN ∷ rO ∷ rS
        ∷ rI ∷ rT ∷ rTT ∷ rK ∷ rQ ∷ rU ∷ rV ∷ rG ∷ rL ∷ rA ∷ rF ∷ rP ∷ rW ∷ rX ∷ rY ∷ rZ ∷ rWW ∷ rXX ∷ rYY ∷ rZZ ∷ []) }
{}
