//! The names of the instructions, in the order of their codes.

/// The names from #18 to #3f, each with two codes.
#[derive(Clone, Copy)]
pub(crate) enum Arithmetic {
    Mul,
    Mulu,
    Div,
    Divu,
    Add,
    Addu,
    Sub,
    Subu,
    TwoAddu,
    FourAddu,
    EightAddu,
    SixteenAddu,
    Cmp,
    Cmpu,
    Neg,
    Negu,
    Sl,
    Slu,
    Sr,
    Sru,
}

/// The names from #c0 to #df, each with two codes.
#[derive(Clone, Copy)]
pub(crate) enum Bitwise {
    Or,
    Orn,
    Nor,
    Xor,
    And,
    Andn,
    Nand,
    Nxor,
    Bdif,
    Wdif,
    Tdif,
    Odif,
    Mux,
    Sadd,
    Mor,
    Mxor,
}

/// The names from #e0 to #ef without the wyde that they mean, each with four codes: for the high
/// wyde, the medium high, the medium low and the low one.
#[derive(Clone, Copy)]
pub(crate) enum Wyde {
    Set,
    Inc,
    OrIn,
    AndNot,
}

/// The conditions of the branches, in the order of their codes: each has two in a row of sixteen.
#[derive(Clone, Copy)]
pub(crate) enum Condition {
    Negative,
    Zero,
    Positive,
    Odd,
    NotNegative,
    NotZero,
    NotPositive,
    Even,
}

/// The names from #18 on.
pub(crate) static ARITHMETIC: [Arithmetic; 20] = [
    Arithmetic::Mul,
    Arithmetic::Mulu,
    Arithmetic::Div,
    Arithmetic::Divu,
    Arithmetic::Add,
    Arithmetic::Addu,
    Arithmetic::Sub,
    Arithmetic::Subu,
    Arithmetic::TwoAddu,
    Arithmetic::FourAddu,
    Arithmetic::EightAddu,
    Arithmetic::SixteenAddu,
    Arithmetic::Cmp,
    Arithmetic::Cmpu,
    Arithmetic::Neg,
    Arithmetic::Negu,
    Arithmetic::Sl,
    Arithmetic::Slu,
    Arithmetic::Sr,
    Arithmetic::Sru,
];

/// The names from #c0 on.
pub(crate) static BITWISE: [Bitwise; 16] = [
    Bitwise::Or,
    Bitwise::Orn,
    Bitwise::Nor,
    Bitwise::Xor,
    Bitwise::And,
    Bitwise::Andn,
    Bitwise::Nand,
    Bitwise::Nxor,
    Bitwise::Bdif,
    Bitwise::Wdif,
    Bitwise::Tdif,
    Bitwise::Odif,
    Bitwise::Mux,
    Bitwise::Sadd,
    Bitwise::Mor,
    Bitwise::Mxor,
];

/// The names from #e0 on.
pub(crate) static WYDES: [Wyde; 4] = [Wyde::Set, Wyde::Inc, Wyde::OrIn, Wyde::AndNot];

/// The conditions from a multiple of #10 on.
pub(crate) static CONDITIONS: [Condition; 8] = [
    Condition::Negative,
    Condition::Zero,
    Condition::Positive,
    Condition::Odd,
    Condition::NotNegative,
    Condition::NotZero,
    Condition::NotPositive,
    Condition::Even,
];
