//! Sources that are refused.

use crate::rows::{Due, comes_from, due_done, due_refused, file};
use std::alloc::Global;
use std::test::Fail;

/// Whether `run hello.mms` comes to what is due of a source.
fn gives(alloc: Global, source: &str, due: Due) -> Result<bool, Fail> {
    comes_from(
        alloc,
        file("hello.mms", source.as_bytes()),
        &["run", "hello.mms"],
        due,
    )
}

/// A program that halts at once.
const HALTS: &str = "Main TRAP 0,0,0\n";

/// Sources that are refused: the line, the number of the fault, the line of the reference, and the message.
static REFUSED: [(&str, u32, u16, u32, &[u8]); 17] = [
    // no line, and no line with the label Main: the last line is named
    ("", 1, 82, 0, b"line 1: 82 MainUndefined\n"),
    ("\n\n BYTE 1\n", 3, 82, 0, b"line 3: 82 MainUndefined\n"),
    ("Main IS $1", 1, 83, 0, b"line 1: 83 MainRegister\n"),
    // the first reference to a name that is never defined
    (
        "Main SWYM\n SWYM\n JMP x\n SWYM\n JMP x",
        3,
        80,
        0,
        b"line 3: 80 UndefinedSymbol\n",
    ),
    ("Main JMP 1F", 1, 81, 0, b"line 1: 81 UndefinedLocal\n"),
    // a reference that waits for a register, and for a place that is no multiple of 4 away
    (
        "Main JMP x\nx IS $1",
        2,
        84,
        1,
        b"line 2: 84 FutureRegister from line 1\n",
    ),
    (
        "Main JMP x\n BYTE 1\nx BYTE 2",
        3,
        89,
        1,
        b"line 3: 89 FutureNotMultiple from line 1\n",
    ),
    // the complete name of Halt is p:Halt
    (
        " PREFIX p:\n:Main TRAP 0,Halt,0",
        2,
        17,
        0,
        b"line 2: 17 Future\n",
    ),
    ("Halt IS 0", 1, 31, 0, b"line 1: 31 Predefined\n"),
    ("x IS 1\nx IS 2", 2, 30, 0, b"line 2: 30 Twice\n"),
    ("2X SWYM", 1, 3, 0, b"line 1: 3 BadLocal\n"),
    ("a", 1, 7, 0, b"line 1: 7 NoOpcode\n"),
    (" FROB", 1, 39, 0, b"line 1: 39 UnknownOpcode\n"),
    (" BYTE 256", 1, 43, 0, b"line 1: 43 Fit\n"),
    // a global register at most 255 above its value reaches an address
    (
        " LOC Data_Segment\n GREG @\n LOC #100\nMain LDO $0,Data_Segment+256",
        4,
        44,
        0,
        b"line 4: 44 NoBase\n",
    ),
    // LOCAL names a register that is global at the end
    (
        "Main LOCAL $254\n GREG 1",
        1,
        48,
        0,
        b"line 1: 48 LabelNotAllowed\n",
    ),
    (
        " LOCAL $254\n GREG 1\nMain SWYM",
        3,
        87,
        0,
        b"line 3: 87 LocalAboveGlobals\n",
    ),
];

#[test]
fn refusals_name_the_first_faulty_line(rt: HostRuntime) -> Result<(), Fail> {
    for (source, line, fault, from_line, told) in &REFUSED {
        let due = due_refused(*line, *fault, *from_line, told);
        assert!(rt; gives(rt.alloc(), source, due)?, "{source}");
    }
    Ok(())
}

/// Appends a text this many times.
fn push_times(source: &mut String, text: &str, count: u32) -> Result<(), Fail> {
    for _time in 0..count {
        source.push_str(text)?;
    }
    Ok(())
}

/// What is before a text, the text and how often it is there, what follows it, and the refusal, if there
/// is one: the line, the number of the fault, and the message.
type Limit = (
    &'static str,
    &'static str,
    u32,
    &'static str,
    Option<(u32, u16, &'static [u8])>,
);

static LIMITS: [Limit; 10] = [
    // a line of 4,096 bytes, and one of 4,097
    (HALTS, "*", 4096, "", None),
    (HALTS, "*", 4097, "", Some((2, 1, b"line 2: 1 TooLong\n"))),
    // 256 open parentheses
    (
        "Main BYTE ",
        "(",
        256,
        "1",
        Some((1, 18, b"line 1: 18 TooDeep\n")),
    ),
    // a name with its prefix `:` has at most 1,024 bytes
    (HALTS, "k", 1023, " IS 1", None),
    (
        HALTS,
        "k",
        1024,
        " IS 1",
        Some((2, 33, b"line 2: 33 NameTooLong\n")),
    ),
    // the registers from $254 down to $32 are 223
    (HALTS, " GREG 0\n", 223, "", None),
    (
        HALTS,
        " GREG 0\n",
        224,
        "",
        Some((225, 47, b"line 225: 47 TooManyGregs\n")),
    ),
    // the last byte below the register stack, and the one after it
    (
        " LOC #5fffffffffffffff\n",
        " BYTE 1",
        1,
        ",1",
        Some((2, 49, b"line 2: 49 BadPlace\n")),
    ),
    // a byte on each page; that on page 65,537 is refused at its line, before the end
    (
        "",
        " LOC @+4095\n BYTE 1\n",
        65537,
        "",
        Some((131_074, 90, b"line 131074: 90 PagesFull\n")),
    ),
    // 2^22 bytes of lines and a last newline, which belongs to no line, are not too many
    (HALTS, "\n", (1 << 22) - 15, "", None),
];

/// Whether a limit is kept.
fn is_kept(alloc: Global, limit: &Limit) -> Result<bool, Fail> {
    let (before, text, count, following, over) = limit;
    let mut source = String::from_str(alloc, before)?;
    push_times(&mut source, text, *count)?;
    source.push_str(following)?;
    let due = match over {
        None => due_done(0, b""),
        Some((line, fault, told)) => due_refused(*line, *fault, 0, told),
    };
    gives(alloc, source.as_str(), due)
}

#[test]
fn limits_of_a_source(rt: HostRuntime) -> Result<(), Fail> {
    for limit in &LIMITS {
        assert!(rt;
            is_kept(rt.alloc(), limit)?,
            "{} times {}",
            limit.2,
            limit.1
        );
    }
    Ok(())
}

/// A source of 2^22 bytes and one more, which has a fault of its own.
fn too_long(alloc: Global) -> Result<String, Fail> {
    let mut source = String::from_str(alloc, HALTS)?;
    push_times(&mut source, "\n", (1 << 22) - 15)?;
    source.push_str("a")?;
    Ok(source)
}

#[test]
fn one_line_too_far(rt: HostRuntime) -> Result<(), Fail> {
    let source = too_long(rt.alloc())?;
    // it comes before its own fault
    let due = due_refused(4_194_291, 88, 0, b"line 4194291: 88 SourceTooLong\n");
    assert!(rt; gives(rt.alloc(), source.as_str(), due)?);
    Ok(())
}

/// A letter for each number below 26.
fn letter(number: u32) -> char {
    char::from(b'a'.wrapping_add((number % 26) as u8))
}

/// Appends a name of three letters, another one for each number below 676.
fn push_name(source: &mut String, number: u32) -> Result<(), Fail> {
    source.push('L')?;
    source.push(letter(number / 26))?;
    source.push(letter(number))?;
    Ok(())
}

/// A program, and this many names that end alike.
fn with_names(alloc: Global, names: u32, end: &str) -> Result<String, Fail> {
    let mut source = String::from_str(alloc, HALTS)?;
    for number in 0..names {
        push_name(&mut source, number)?;
        source.push_str(end)?;
        source.push_str(" IS 0\n")?;
    }
    Ok(source)
}

/// Whether a source with this many names that end in a thousand letters comes to what is due.
fn names_give(alloc: Global, names: u32, due: Due) -> Result<bool, Fail> {
    let mut end = String::new(alloc);
    push_times(&mut end, "x", 1000)?;
    let source = with_names(alloc, names, end.as_str())?;
    gives(alloc, source.as_str(), due)
}

#[test]
fn symbols_of_an_object(rt: HostRuntime) -> Result<(), Fail> {
    // each name takes 2,000 bytes of the trie for its last 1,000, and 12 more at most; there are 262,140
    assert!(rt; names_give(rt.alloc(), 130, due_done(0, b""))?);
    let many = due_refused(141, 86, 0, b"line 141: 86 SymbolsTooMany\n");
    assert!(rt; names_give(rt.alloc(), 140, many)?);
    Ok(())
}

/// A source in which each label waits for the next, and all of them wait for the last.
fn labels_in_a_row(alloc: Global) -> Result<String, Fail> {
    let mut source = String::from_str(alloc, "Main JMP Laa\n")?;
    for number in 0..675u32 {
        push_name(&mut source, number)?;
        source.push_str(" JMP ")?;
        push_name(&mut source, number + 1)?;
        source.push_str("\n BZ $0,Lzz\n")?;
    }
    source.push_str("Lzz TRAP 0,Halt,0")?;
    Ok(source)
}

#[test]
fn labels_wait_for_one_another(rt: HostRuntime) -> Result<(), Fail> {
    let source = labels_in_a_row(rt.alloc())?;
    assert!(rt; gives(rt.alloc(), source.as_str(), due_done(0, b""))?);
    Ok(())
}
