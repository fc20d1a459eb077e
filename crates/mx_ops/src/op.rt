//! What an opcode field names.

/// An operation that only the assembler carries out.
#[derive(Clone, Copy, Debug, PartialEq, Eq)]
pub enum Pseudo {
    Is,
    Loc,
    Prefix,
    Greg,
    Local,
    Byte,
    Wyde,
    Tetra,
    Octa,
}

/// What an opcode field names: a pseudo-operation, an instruction by the lowest code of its name, or
/// LDA and SET, whose instruction depends on the operands.
#[derive(Clone, Copy, Debug, PartialEq, Eq)]
pub enum Op {
    Pseudo(Pseudo),
    Code(u8),
    Lda,
    Set,
}

/// Which operands an instruction takes. Below `$X` is a register, `n` a pure number that fits its
/// field, `$Z|n` either of them, and `a` a relative address.
#[derive(Clone, Copy, Debug, PartialEq, Eq)]
pub enum Shape {
    /// `$X,$Y,$Z|n`
    Three,
    /// `$X,$Y,$Z`
    Regs,
    /// `$X,$Z` or `$X,n,$Z`, where n is a rounding mode; the last operand may be `$Z|n` at some codes
    Round,
    /// `$X,$Z|n` or `$X,n,$Z|n`
    Neg,
    /// `$X,a`
    Rel,
    /// `$X,$Y,$Z|n`, `$X,$Y` or `$X` and an address
    Mem,
    /// as `Mem`, with a pure number for `$X`
    MemPure,
    /// `$X,n` with n of 16 bits
    Wyde,
    /// `a`
    Jump,
    /// `n,$Z|n`, where the first n is a special register
    Put,
    /// `$X,n`, where n is a special register
    Get,
    /// `n,n` with the second of 16 bits, or `n` of 24 bits
    Pop,
    /// `n` of 24 bits
    One,
    /// `$X,n`
    Save,
    /// `n,$Z` or `$Z`
    Unsave,
    /// one operand of 24 bits; one of 8 and one of 16; or three of 8, which may be registers
    Free,
}
