//! The table: what other machines and assemblers call an operation, and what MMIX has for it.

/// A name of an operation, and a sentence on what MMIX has.
pub(crate) type Row = (&'static str, &'static str);

pub(crate) static FOREIGN: [Row; 86] = [
    (
        "MOV",
        "SET copies a register or makes a number: SET $0,$1 or SET $0,5.",
    ),
    (
        "MOVE",
        "SET copies a register or makes a number: SET $0,$1 or SET $0,5.",
    ),
    (
        "LDI",
        "SET copies a register or makes a number: SET $0,$1 or SET $0,5.",
    ),
    (
        "LI",
        "SET copies a register or makes a number: SET $0,$1 or SET $0,5.",
    ),
    (
        "MV",
        "SET copies a register or makes a number: SET $0,$1 or SET $0,5.",
    ),
    (
        "RET",
        "POP returns from a subroutine: POP 0,0, or POP 1,0 with a result in $0.",
    ),
    (
        "RETURN",
        "POP returns from a subroutine: POP 0,0, or POP 1,0 with a result in $0.",
    ),
    (
        "RTS",
        "POP returns from a subroutine: POP 0,0, or POP 1,0 with a result in $0.",
    ),
    ("CALL", "PUSHJ calls a subroutine: PUSHJ $2,Sub."),
    ("JSR", "PUSHJ calls a subroutine: PUSHJ $2,Sub."),
    ("JAL", "PUSHJ calls a subroutine: PUSHJ $2,Sub."),
    ("BL", "PUSHJ calls a subroutine: PUSHJ $2,Sub."),
    ("B", "JMP jumps: JMP Label."),
    ("BR", "JMP jumps: JMP Label."),
    ("BRA", "JMP jumps: JMP Label."),
    ("J", "JMP jumps: JMP Label."),
    ("GOTO", "JMP jumps: JMP Label."),
    (
        "BEQ",
        "CMP compares two, and BZ branches if the two are equal: CMP $0,$1,$2; BZ $0,Label.",
    ),
    (
        "JE",
        "CMP compares two, and BZ branches if the two are equal: CMP $0,$1,$2; BZ $0,Label.",
    ),
    (
        "BNE",
        "CMP compares two, and BNZ branches if they differ: CMP $0,$1,$2; BNZ $0,Label.",
    ),
    (
        "JNE",
        "CMP compares two, and BNZ branches if they differ: CMP $0,$1,$2; BNZ $0,Label.",
    ),
    (
        "BGT",
        "CMP compares two, and BP branches if the first is greater: CMP $0,$1,$2; BP $0,Label.",
    ),
    (
        "JG",
        "CMP compares two, and BP branches if the first is greater: CMP $0,$1,$2; BP $0,Label.",
    ),
    (
        "BLT",
        "CMP compares two, and BN branches if the first is less: CMP $0,$1,$2; BN $0,Label.",
    ),
    (
        "JL",
        "CMP compares two, and BN branches if the first is less: CMP $0,$1,$2; BN $0,Label.",
    ),
    (
        "BLE",
        "CMP compares two, and BNP branches if the first is not greater: CMP $0,$1,$2; BNP $0,Label.",
    ),
    (
        "JLE",
        "CMP compares two, and BNP branches if the first is not greater: CMP $0,$1,$2; BNP $0,Label.",
    ),
    (
        "BGE",
        "CMP compares two, and BNN branches if the first is not less: CMP $0,$1,$2; BNN $0,Label.",
    ),
    (
        "JGE",
        "CMP compares two, and BNN branches if the first is not less: CMP $0,$1,$2; BNN $0,Label.",
    ),
    ("JZ", "BZ branches if a register is 0: BZ $0,Label."),
    ("BEQZ", "BZ branches if a register is 0: BZ $0,Label."),
    ("JNZ", "BNZ branches if a register is not 0: BNZ $0,Label."),
    ("BNEZ", "BNZ branches if a register is not 0: BNZ $0,Label."),
    (
        "LD",
        "LDO loads an octa, LDT a tetra, LDW a wyde and LDB a byte: LDO $0,$1,0.",
    ),
    (
        "LOAD",
        "LDO loads an octa, LDT a tetra, LDW a wyde and LDB a byte: LDO $0,$1,0.",
    ),
    (
        "LDR",
        "LDO loads an octa, LDT a tetra, LDW a wyde and LDB a byte: LDO $0,$1,0.",
    ),
    (
        "LW",
        "LDT loads a tetra, which has 32 bits, and LDO an octa: LDT $0,$1,0.",
    ),
    (
        "LB",
        "LDB loads a byte, and LDBU one without a sign: LDB $0,$1,0.",
    ),
    (
        "LEA",
        "LDA puts the address of a label into a register: LDA $0,Label.",
    ),
    (
        "LA",
        "LDA puts the address of a label into a register: LDA $0,Label.",
    ),
    (
        "ADR",
        "LDA puts the address of a label into a register: LDA $0,Label.",
    ),
    (
        "ST",
        "STO stores an octa, STT a tetra, STW a wyde and STB a byte: STO $0,$1,0.",
    ),
    (
        "STORE",
        "STO stores an octa, STT a tetra, STW a wyde and STB a byte: STO $0,$1,0.",
    ),
    (
        "STR",
        "STO stores an octa, STT a tetra, STW a wyde and STB a byte: STO $0,$1,0.",
    ),
    (
        "SW",
        "STT stores a tetra, which has 32 bits, and STO an octa: STT $0,$1,0.",
    ),
    ("SB", "STB stores a byte: STB $0,$1,0."),
    ("HALT", "TRAP 0,Halt,0 ends the program."),
    ("HLT", "TRAP 0,Halt,0 ends the program."),
    ("EXIT", "TRAP 0,Halt,0 ends the program."),
    ("STOP", "TRAP 0,Halt,0 ends the program."),
    (
        "INC",
        "ADD adds 1 to a register: ADD $0,$0,1. INCL does so, too: INCL $0,1.",
    ),
    ("DEC", "SUB subtracts 1 from a register: SUB $0,$0,1."),
    (
        "PUSH",
        "STO stores on a stack of your own: SUB $254,$254,8; STO $0,$254,0. PUSHJ keeps registers by itself.",
    ),
    ("NOP", "SWYM does nothing."),
    (
        "SHL",
        "SL shifts to the left, and SLU does so without overflow: SL $0,$1,2.",
    ),
    (
        "LSL",
        "SL shifts to the left, and SLU does so without overflow: SL $0,$1,2.",
    ),
    (
        "SAL",
        "SL shifts to the left, and SLU does so without overflow: SL $0,$1,2.",
    ),
    (
        "SLL",
        "SL shifts to the left, and SLU does so without overflow: SL $0,$1,2.",
    ),
    (
        "SHR",
        "SRU shifts to the right, and zeros come in: SRU $0,$1,2.",
    ),
    (
        "LSR",
        "SRU shifts to the right, and zeros come in: SRU $0,$1,2.",
    ),
    (
        "SRL",
        "SRU shifts to the right, and zeros come in: SRU $0,$1,2.",
    ),
    (
        "SAR",
        "SR shifts to the right and keeps the sign: SR $0,$1,2.",
    ),
    (
        "ASR",
        "SR shifts to the right and keeps the sign: SR $0,$1,2.",
    ),
    (
        "SRA",
        "SR shifts to the right and keeps the sign: SR $0,$1,2.",
    ),
    ("NOT", "NOR with 0 turns each bit round: NOR $0,$1,0."),
    (
        "MOD",
        "DIV leaves the remainder in rR: DIV $0,$1,$2; GET $0,rR.",
    ),
    (
        "REM",
        "DIV leaves the remainder in rR: DIV $0,$1,$2; GET $0,rR.",
    ),
    (
        "INT",
        "TRAP calls a service: TRAP 0,Fputs,StdOut, or TRAP 0,Halt,0.",
    ),
    (
        "SYSCALL",
        "TRAP calls a service: TRAP 0,Fputs,StdOut, or TRAP 0,Halt,0.",
    ),
    (
        "ECALL",
        "TRAP calls a service: TRAP 0,Fputs,StdOut, or TRAP 0,Halt,0.",
    ),
    (
        "SVC",
        "TRAP calls a service: TRAP 0,Fputs,StdOut, or TRAP 0,Halt,0.",
    ),
    (
        "PRINT",
        "TRAP 0,Fputs,StdOut prints the text whose address is in $255.",
    ),
    (
        "PUTS",
        "TRAP 0,Fputs,StdOut prints the text whose address is in $255.",
    ),
    (
        "PRINTF",
        "TRAP 0,Fputs,StdOut prints the text whose address is in $255.",
    ),
    (
        "EQU",
        "IS gives a name a value: count IS $1, or size IS 100.",
    ),
    (
        "ORG",
        "LOC says where the next bytes go: LOC #100, or LOC Data_Segment.",
    ),
    (
        "ORIG",
        "LOC says where the next bytes go: LOC #100, or LOC Data_Segment.",
    ),
    ("DB", "BYTE places bytes and texts: BYTE \"text\",0."),
    ("DEFB", "BYTE places bytes and texts: BYTE \"text\",0."),
    ("ASCII", "BYTE places bytes and texts: BYTE \"text\",0."),
    ("ASCIZ", "BYTE places bytes and texts: BYTE \"text\",0."),
    (
        "DW",
        "BYTE, WYDE, TETRA and OCTA place data of 1, 2, 4 and 8 bytes: OCTA 5.",
    ),
    (
        "DD",
        "BYTE, WYDE, TETRA and OCTA place data of 1, 2, 4 and 8 bytes: OCTA 5.",
    ),
    (
        "DQ",
        "BYTE, WYDE, TETRA and OCTA place data of 1, 2, 4 and 8 bytes: OCTA 5.",
    ),
    (
        "WORD",
        "BYTE, WYDE, TETRA and OCTA place data of 1, 2, 4 and 8 bytes: OCTA 5.",
    ),
    (
        "DCD",
        "BYTE, WYDE, TETRA and OCTA place data of 1, 2, 4 and 8 bytes: OCTA 5.",
    ),
];
