//! The names of faults, of the reasons of a stop, and of the kinds of faulty words.

ghost use Rattle.std.specs.Prelude.{◌≡◌};
ghost use Rattle.mx_outcome.specs.Names as spec;

/// The name of a fault or of the reason of a stop, by its number; other numbers have the empty text.
pub fn fault_name(number: u16) -> &'static str
    ensures { result.now ≡ spec.fault_name_of number }
{
    if number < 10 {
        line_name(number)
    } else if number < 30 {
        expression_name(number)
    } else if number < 39 {
        symbol_name(number)
    } else if number < 60 {
        statement_name(number)
    } else if number < 70 {
        object_name(number)
    } else if number < 80 {
        trie_name(number)
    } else if number < 90 {
        source_name(number)
    } else if number < 100 {
        load_name(number)
    } else if number < 110 {
        stack_name(number)
    } else if number < 121 {
        stop_name(number)
    } else if number < 130 {
        trap_name(number)
    } else {
        back_name(number)
    }
}

/// The name of a kind of faulty words; other kinds have the empty text.
pub fn usage_name(number: u16) -> &'static str
    ensures { result.now ≡ spec.usage_name_of number }
{
    match number {
        1 => "NoCommand",
        2 => "UnknownCommand",
        3 => "UnknownOption",
        4 => "MissingValue",
        5 => "BadNumber",
        6 => "BadRing",
        7 => "MissingFile",
        8 => "TooMany",
        10 => "Conflict",
        _ => "",
    }
}

/// Where a line cannot be cut.
fn line_name(number: u16) -> &'static str
    ensures { result.now ≡ spec.line_name number }
{
    match number {
        1 => "TooLong",
        2 => "BadLabel",
        3 => "BadLocal",
        4 => "BadOpcode",
        5 => "OpenString",
        6 => "OpenChar",
        7 => "NoOpcode",
        _ => "",
    }
}

/// Where an operand list cannot be read or valued.
fn expression_name(number: u16) -> &'static str
    ensures { result.now ≡ spec.expression_name number }
{
    match number {
        10 => "Syntax",
        11 => "TooWide",
        12 => "DivZero",
        13 => "FractionTooBig",
        14 => "PureOnly",
        15 => "TwoRegisters",
        16 => "RegisterFromPure",
        17 => "Future",
        18 => "TooDeep",
        19 => "EmptyString",
        21 => "RegisterNumber",
        _ => "",
    }
}

/// Where a symbol cannot be defined or completed.
fn symbol_name(number: u16) -> &'static str
    ensures { result.now ≡ spec.symbol_name number }
{
    match number {
        30 => "Twice",
        31 => "Predefined",
        33 => "NameTooLong",
        _ => "",
    }
}

/// Where a statement has no encoding.
fn statement_name(number: u16) -> &'static str
    ensures { result.now ≡ spec.statement_name number }
{
    match number {
        39 => "UnknownOpcode",
        40 => "Operands",
        41 => "NotRegister",
        42 => "NotPure",
        43 => "Fit",
        44 => "NoBase",
        45 => "TooFar",
        46 => "NotMultiple",
        47 => "TooManyGregs",
        48 => "LabelNotAllowed",
        49 => "BadPlace",
        _ => "",
    }
}

/// Where bytes are no object.
fn object_name(number: u16) -> &'static str
    ensures { result.now ≡ spec.object_name number }
{
    match number {
        60 => "NotTetras",
        61 => "NoPre",
        62 => "BadLop",
        63 => "BadFields",
        64 => "Truncated",
        65 => "TooLong",
        _ => "",
    }
}

/// Where bytes are no symbol trie.
fn trie_name(number: u16) -> &'static str
    ensures { result.now ≡ spec.trie_name number }
{
    match number {
        70 => "Truncated",
        71 => "Padding",
        72 => "Wide",
        73 => "Twice",
        74 => "TooLong",
        76 => "BadSerial",
        _ => "",
    }
}

/// Where a source cannot be assembled.
fn source_name(number: u16) -> &'static str
    ensures { result.now ≡ spec.source_name number }
{
    match number {
        80 => "UndefinedSymbol",
        81 => "UndefinedLocal",
        82 => "MainUndefined",
        83 => "MainRegister",
        84 => "FutureRegister",
        85 => "FutureTooFar",
        86 => "SymbolsTooMany",
        87 => "LocalAboveGlobals",
        88 => "SourceTooLong",
        89 => "FutureNotMultiple",
        _ => "",
    }
}

/// Where an object cannot be loaded.
fn load_name(number: u16) -> &'static str
    ensures { result.now ≡ spec.load_name number }
{
    match number {
        90 => "PagesFull",
        95 => "BadPlace",
        96 => "NoFile",
        _ => "",
    }
}

/// Where the register stack refuses.
fn stack_name(number: u16) -> &'static str
    ensures { result.now ≡ spec.stack_name number }
{
    match number {
        100 => "StackFull",
        101 => "Underflow",
        102 => "BadFrame",
        _ => "",
    }
}

/// Where an instruction stops.
fn stop_name(number: u16) -> &'static str
    ensures { result.now ≡ spec.stop_name number }
{
    match number {
        110 => "Float",
        111 => "Illegal",
        112 => "Privileged",
        113 => "Negative",
        114 => "StackFull",
        115 => "Underflow",
        116 => "BadFrame",
        117 => "UnhandledTrip",
        118 => "PagesFull",
        120 => "ResumeInsert",
        _ => "",
    }
}

/// Where a file trap stops.
fn trap_name(number: u16) -> &'static str
    ensures { result.now ≡ spec.trap_name number }
{
    match number {
        121 => "WideTrap",
        122 => "TransferTooLarge",
        123 => "TrapPagesFull",
        124 => "UnknownTrap",
        _ => "",
    }
}

/// Where no step can be taken back.
fn back_name(number: u16) -> &'static str
    ensures { result.now ≡ spec.back_name number }
{
    match number {
        140 => "NothingKept",
        _ => "",
    }
}
