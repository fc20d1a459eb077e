//! The words of the command line, names and statuses.

use crate::row::check_outcome;
use mx_top::{Outcome, fault_name, usage_name};
use mx_words::WordsFault;
use std::test::Fail;
use test_rows::{Due, FIRST, file};

/// Words, the kind of the fault, the place of the word, and the message.
static FAULTY: [(&[&str], u16, usize, &[u8]); 11] = [
    (&[], 1, 0, b"usage fault 1 NoCommand at word 0\n"),
    (&["go"], 2, 0, b"usage fault 2 UnknownCommand at word 0\n"),
    (
        &["run", "-x", "a.mms"],
        3,
        1,
        b"usage fault 3 UnknownOption at word 1\n",
    ),
    (
        &["run", "--steps"],
        4,
        2,
        b"usage fault 4 MissingValue at word 2\n",
    ),
    (&["gen", "0"], 5, 1, b"usage fault 5 BadNumber at word 1\n"),
    (
        &["run", "--ring", "300", "a.mms"],
        6,
        2,
        b"usage fault 6 BadRing at word 2\n",
    ),
    (
        &["run", "--ring", "131072", "a.mms"],
        6,
        2,
        b"usage fault 6 BadRing at word 2\n",
    ),
    (
        &["asm", "a.mms"],
        7,
        2,
        b"usage fault 7 MissingFile at word 2\n",
    ),
    (
        &["asm", "a", "b", "c"],
        8,
        3,
        b"usage fault 8 TooMany at word 3\n",
    ),
    (
        &["sim", "--steps", "10000000000001", "a"],
        5,
        2,
        b"usage fault 5 BadNumber at word 2\n",
    ),
    (
        &["type", "a", "b"],
        8,
        2,
        b"usage fault 8 TooMany at word 2\n",
    ),
];

#[test]
fn faulty_words(rt: HostRuntime) -> Result<(), Fail> {
    for (all, kind, word, errors) in &FAULTY {
        let fault = WordsFault {
            kind: *kind,
            word: *word,
        };
        let due = Due {
            outcome: Outcome::Usage(fault),
            output: b"",
            errors,
        };
        let given = file("a.mms", FIRST.as_bytes());
        check_outcome(rt.alloc(), given, all, due, *kind)?;
    }
    Ok(())
}

/// Words that name a file that is not there.
static MISSING: [&[&str]; 4] = [
    &["run", "none.mms"],
    &["sim", "none.mmo"],
    &["type", "none.mmo"],
    &["asm", "none.mms", "none.mmo"],
];

#[test]
fn missing_files(rt: HostRuntime) -> Result<(), Fail> {
    for all in &MISSING {
        let due = Due {
            outcome: Outcome::NoFile,
            output: b"",
            errors: b"no file\n",
        };
        check_outcome(rt.alloc(), file("a.mms", b""), all, due, *all)?;
    }
    Ok(())
}

/// All numbers of faults and of reasons of a stop, in order, and their names.
static NAMES: [(u16, &str); 75] = [
    (1, "TooLong"),
    (2, "BadLabel"),
    (3, "BadLocal"),
    (4, "BadOpcode"),
    (5, "OpenString"),
    (6, "OpenChar"),
    (7, "NoOpcode"),
    (10, "Syntax"),
    (11, "TooWide"),
    (12, "DivZero"),
    (13, "FractionTooBig"),
    (14, "PureOnly"),
    (15, "TwoRegisters"),
    (16, "RegisterFromPure"),
    (17, "Future"),
    (18, "TooDeep"),
    (19, "EmptyString"),
    (21, "RegisterNumber"),
    (30, "Twice"),
    (31, "Predefined"),
    (33, "NameTooLong"),
    (39, "UnknownOpcode"),
    (40, "Operands"),
    (41, "NotRegister"),
    (42, "NotPure"),
    (43, "Fit"),
    (44, "NoBase"),
    (45, "TooFar"),
    (46, "NotMultiple"),
    (47, "TooManyGregs"),
    (48, "LabelNotAllowed"),
    (49, "BadPlace"),
    (60, "NotTetras"),
    (61, "NoPre"),
    (62, "BadLop"),
    (63, "BadFields"),
    (64, "Truncated"),
    (65, "TooLong"),
    (70, "Truncated"),
    (71, "Padding"),
    (72, "Wide"),
    (73, "Twice"),
    (74, "TooLong"),
    (76, "BadSerial"),
    (80, "UndefinedSymbol"),
    (81, "UndefinedLocal"),
    (82, "MainUndefined"),
    (83, "MainRegister"),
    (84, "FutureRegister"),
    (85, "FutureTooFar"),
    (86, "SymbolsTooMany"),
    (87, "LocalAboveGlobals"),
    (88, "SourceTooLong"),
    (89, "FutureNotMultiple"),
    (90, "PagesFull"),
    (95, "BadPlace"),
    (96, "NoFile"),
    (100, "StackFull"),
    (101, "Underflow"),
    (102, "BadFrame"),
    (110, "Float"),
    (111, "Illegal"),
    (112, "Privileged"),
    (113, "Negative"),
    (114, "StackFull"),
    (115, "Underflow"),
    (116, "BadFrame"),
    (117, "UnhandledTrip"),
    (118, "PagesFull"),
    (120, "ResumeInsert"),
    (121, "WideTrap"),
    (122, "TransferTooLarge"),
    (123, "TrapPagesFull"),
    (124, "UnknownTrap"),
    (140, "NothingKept"),
];

/// All kinds of faulty words, in order, and their names.
static KINDS: [(u16, &str); 9] = [
    (1, "NoCommand"),
    (2, "UnknownCommand"),
    (3, "UnknownOption"),
    (4, "MissingValue"),
    (5, "BadNumber"),
    (6, "BadRing"),
    (7, "MissingFile"),
    (8, "TooMany"),
    (10, "Conflict"),
];

/// Outcomes, and the statuses with which the program ends.
static STATUSES: [(Outcome, u8); 6] = [
    (Outcome::Done(3), 3),
    (Outcome::Quit, 0),
    (
        Outcome::BadObject {
            place: 8,
            fault: 62,
        },
        65,
    ),
    (Outcome::StepsSpent { steps: 10 }, 75),
    (Outcome::ConsoleLimit, 76),
    (Outcome::OutOfMemory, 71),
];

/// The name that a table in order of its numbers has for a number: the empty text where it has no row.
fn name_in(table: &[(u16, &'static str)], number: u16) -> &'static str {
    match table.binary_search_by_key(&number, |row| row.0) {
        Ok(at) => table[at].1,
        Err(_) => "",
    }
}

/// The first number, of all that there are, whose name is not that of the table.
fn first_misnamed() -> Option<u16> {
    (0..=u16::MAX).find(|number| fault_name(*number) != name_in(&NAMES, *number))
}

/// The first kind, of all that there are, whose name is not that of the table.
fn first_misnamed_kind() -> Option<u16> {
    (0..=u16::MAX).find(|kind| usage_name(*kind) != name_in(&KINDS, *kind))
}

/// The first outcome, by the status that is due, that has another status.
fn first_other_status() -> Option<u8> {
    for (outcome, status) in &STATUSES {
        if outcome.status() != *status {
            return Some(*status);
        }
    }
    None
}

#[test]
fn names_and_statuses(rt: HostRuntime) {
    assert_eq!(rt; (first_misnamed(), first_misnamed_kind()), (None, None));
    assert_eq!(rt; first_other_status(), None);
}
