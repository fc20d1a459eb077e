//! What the machine does for each code.

use mx_mem::Part;

/// How a load makes an octa of a part of memory: with its sign, without it, or as the high tetra.
#[derive(Clone, Copy)]
pub enum Loading {
    /// The part as a signed number: LDB, LDW, LDT.
    Signed(Part),
    /// The part as it is: LDBU, LDWU, LDTU, and all that load an octa.
    Unsigned(Part),
    /// The tetra as the high half, and 0 below it: LDHT.
    HighTetra,
}

/// What a store stores: the low bytes of $X, with or without a test of the sign; its high tetra; or the
/// byte X as an octa.
#[derive(Clone, Copy)]
pub enum Storing {
    /// The low bytes of $X, with an overflow where they lose its sign: STB, STW, STT.
    Signed(Part),
    /// The low bytes of $X: STBU, STWU, STTU, and all that store the octa $X.
    Unsigned(Part),
    /// The high tetra of $X: STHT.
    HighTetra,
    /// The byte X, from 0 to 255, as an octa: STCO.
    Constant,
}

/// What the machine does for a code.
#[derive(Clone, Copy)]
pub enum Operation {
    /// TRAP.
    Trap,
    /// Those on floating-point numbers, which the machine leaves out.
    Float,
    /// Those on whole numbers: MUL to SRU and OR to MXOR, but for NEG and NEGU.
    Compute,
    /// NEG and NEGU.
    Negate,
    /// SETH to ANDNL, with an immediate wyde.
    Wyde,
    /// BN to PBEV.
    Branch,
    /// CSN to CSEV.
    ConditionalSet,
    /// ZSN to ZSEV.
    ZeroOrSet,
    /// The loads: LDB to LDOU, LDHT and LDUNC.
    Load(Loading),
    /// The stores: STB to STOU, STHT, STCO and STUNC.
    Store(Storing),
    /// CSWAP.
    CompareAndSwap,
    /// What changes nothing that a program sees: PRELD, PREGO, PREST, SYNCD, SYNCID and SWYM.
    Nothing,
    /// LDVTS, which only an operating system may use.
    Privileged,
    /// SYNC.
    Synchronize,
    /// GETA.
    Address,
    /// JMP.
    Jump,
    /// GO.
    Go,
    /// PUSHJ.
    PushJump,
    /// PUSHGO.
    PushGo,
    /// POP.
    Pop,
    /// SAVE.
    Save,
    /// UNSAVE.
    Unsave,
    /// GET.
    Get,
    /// PUT.
    Put,
    /// TRIP.
    Trip,
    /// RESUME.
    Resume,
}
