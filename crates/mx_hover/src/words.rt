//! The words of the language: its operations, and its predefined symbols.

ghost use Rattle.std.specs.Prelude.{◌≡◌, map};
ghost use Rattle.mx_hover.specs.Completions as spec;

/// The pseudo-operations, LDA and SET.
static DIRECTIVES: [&str; 11] = [
    "IS", "LOC", "PREFIX", "GREG", "LOCAL", "BYTE", "WYDE", "TETRA", "OCTA", "LDA", "SET",
];

/// The instructions, in the order of their codes.
static INSTRUCTIONS: [&str; 148] = [
    "TRAP", "FCMP", "FUN", "FEQL", "FADD", "FIX", "FSUB", "FIXU", "FLOT", "FLOTU", "SFLOT",
    "SFLOTU", "FMUL", "FCMPE", "FUNE", "FEQLE", "FDIV", "FSQRT", "FREM", "FINT", "MUL", "MULU",
    "DIV", "DIVU", "ADD", "ADDU", "SUB", "SUBU", "2ADDU", "4ADDU", "8ADDU", "16ADDU", "CMP",
    "CMPU", "NEG", "NEGU", "SL", "SLU", "SR", "SRU", "BN", "BZ", "BP", "BOD", "BNN", "BNZ", "BNP",
    "BEV", "PBN", "PBZ", "PBP", "PBOD", "PBNN", "PBNZ", "PBNP", "PBEV", "CSN", "CSZ", "CSP",
    "CSOD", "CSNN", "CSNZ", "CSNP", "CSEV", "ZSN", "ZSZ", "ZSP", "ZSOD", "ZSNN", "ZSNZ", "ZSNP",
    "ZSEV", "LDB", "LDBU", "LDW", "LDWU", "LDT", "LDTU", "LDO", "LDOU", "LDSF", "LDHT", "CSWAP",
    "LDUNC", "LDVTS", "PRELD", "PREGO", "GO", "STB", "STBU", "STW", "STWU", "STT", "STTU", "STO",
    "STOU", "STSF", "STHT", "STCO", "STUNC", "SYNCD", "PREST", "SYNCID", "PUSHGO", "OR", "ORN",
    "NOR", "XOR", "AND", "ANDN", "NAND", "NXOR", "BDIF", "WDIF", "TDIF", "ODIF", "MUX", "SADD",
    "MOR", "MXOR", "SETH", "SETMH", "SETML", "SETL", "INCH", "INCMH", "INCML", "INCL", "ORH",
    "ORMH", "ORML", "ORL", "ANDNH", "ANDNMH", "ANDNML", "ANDNL", "JMP", "PUSHJ", "GETA", "PUT",
    "POP", "RESUME", "SAVE", "UNSAVE", "SYNC", "SWYM", "GET", "TRIP",
];

/// The predefined symbols, without the colon in front of each.
static PREDEFINED: [&str; 76] = [
    "rB",
    "rD",
    "rE",
    "rH",
    "rJ",
    "rM",
    "rR",
    "rBB",
    "rC",
    "rN",
    "rO",
    "rS",
    "rI",
    "rT",
    "rTT",
    "rK",
    "rQ",
    "rU",
    "rV",
    "rG",
    "rL",
    "rA",
    "rF",
    "rP",
    "rW",
    "rX",
    "rY",
    "rZ",
    "rWW",
    "rXX",
    "rYY",
    "rZZ",
    "D_BIT",
    "V_BIT",
    "W_BIT",
    "I_BIT",
    "O_BIT",
    "U_BIT",
    "Z_BIT",
    "X_BIT",
    "D_Handler",
    "V_Handler",
    "W_Handler",
    "I_Handler",
    "O_Handler",
    "U_Handler",
    "Z_Handler",
    "X_Handler",
    "Data_Segment",
    "Pool_Segment",
    "Stack_Segment",
    "Inf",
    "StdIn",
    "StdOut",
    "StdErr",
    "TextRead",
    "TextWrite",
    "BinaryRead",
    "BinaryWrite",
    "BinaryReadWrite",
    "Halt",
    "Fopen",
    "Fclose",
    "Fread",
    "Fgets",
    "Fgetws",
    "Fwrite",
    "Fputs",
    "Fputws",
    "Fseek",
    "Ftell",
    "ROUND_CURRENT",
    "ROUND_OFF",
    "ROUND_UP",
    "ROUND_DOWN",
    "ROUND_NEAR",
];

/// The pseudo-operations, LDA and SET.
#[tactic(auto, unfolding(crate::specs::Completions::directives, mx_ops::specs::Opcodes::pseudo_operations, mx_ops::specs::Opcodes::chosen_operations))]
pub(crate) fn directives() -> &'static [&'static str]
    ensures { map (λ w. w.now) result.now ≡ spec.directives }
{
    &DIRECTIVES
}

/// The instructions.
#[tactic(auto, unfolding(crate::specs::Completions::instructions, mx_ops::specs::Opcodes::opcode_rows))]
pub(crate) fn instructions() -> &'static [&'static str]
    ensures { map (λ w. w.now) result.now ≡ spec.instructions }
{
    &INSTRUCTIONS
}

/// The predefined symbols.
#[tactic(auto, unfolding(crate::specs::Completions::predefined, mx_ops::specs::Predefined::predefined_names, mx_ops::specs::Predefined::special_registers))]
pub(crate) fn list_predefined_words() -> &'static [&'static str]
    ensures { map (λ w. w.now) result.now ≡ spec.predefined }
{
    &PREDEFINED
}
