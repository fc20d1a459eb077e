//! What is shown of a state.

use crate::programs::TEXT;
use mx_ask::Unit;
use mx_book::{Book, Thing};
use mx_core::Machine;
use mx_pieces::add_ring;
use mx_replay::Replay;
use mx_run::End;
use mx_tell::{
    Call, add_backtrace, add_break_row, add_end, add_instructions, add_lines, add_memory,
    add_shown, add_symbols, add_watch_row, add_watched, first_line_around,
};
use mx_text::Form;
use mx_word::{Bytes, NoMemory, Sequence};
use std::alloc::Global;

/// What is shown.
#[derive(Clone, Copy)]
enum What {
    Memory(u64, Unit),
    Ring,
    Calls,
    Symbols,
    Break,
    Watch,
    Watched,
    Lines,
    Instructions,
    Ended(End),
    Shown(Thing, Option<Form>),
}

/// What is shown, and how, at step 4, in `Sub`.
static SHOWN: [(What, &str); 17] = [
    (
        What::Memory(2, Unit::Octa),
        "#2000000000000000 <Text>:        #05620aff00000000 #0000000000000000
",
    ),
    (
        What::Memory(5, Unit::Tetra),
        "#2000000000000000 <Text>:        #05620aff #00000000 #00000000 #00000000
#2000000000000010 <Text+16>:     #00000000
",
    ),
    (
        What::Memory(3, Unit::Wyde),
        "#2000000000000000 <Text>:        #0562 #0aff #0000
",
    ),
    (
        What::Memory(2, Unit::Byte),
        "#2000000000000000 <Text>:        #05 #62
",
    ),
    (
        What::Memory(1, Unit::Text),
        "#2000000000000000 <Text>:        \"\\x05b\\n\\xff\"
",
    ),
    (
        What::Ring,
        "ring of 8: 0 local (L), 4 hidden (h), 0 hidden in memory
    0  hhhh....
",
    ),
    (
        What::Calls,
        "#0  Sub in Sub (3, #2000000000000000 <Text>) at s.mms:12
#1  Main+12 at s.mms:10
",
    ),
    (
        What::Symbols,
        "Main                #100                s.mms:7
N                   #12c
Sub                 #114                s.mms:12
Text                #2000000000000000   s.mms:5
k                   $1
",
    ),
    (
        What::Break,
        "1    break  s.mms:9  Main+8  if k == 3
",
    ),
    (
        What::Watch,
        "12   watch  M8[#2000000000000000] (Text)
",
    ),
    (
        What::Watched,
        "watch 2: $1 (k) = -1  (was 999999999999)
",
    ),
    (
        What::Lines,
        "       7  Main SET k,5
       8   LDO $2,Text
       9   STB k,Text
      10   PUSHJ $3,Sub
      11   TRAP 0,Halt,0
=>    12  Sub POP 0,0
",
    ),
    (
        What::Instructions,
        "   #10c <Main+12>:              PUSHJ $3,Sub
   #110 <Main+16>:              TRAP 0,Halt,0
=> #114 <Sub>:                  POP 0,0
   #118 <Sub+4>:                TRAP 0,0,0
   #11c <Sub+8>:                TRAP 0,0,0
   #120 <Sub+12>:               TRAP 0,0,0
   #124 <Sub+16>:               TRAP 0,0,0
   #128 <Sub+20>:               TRAP 0,0,0
   #12c <Sub+24>:               TRAP 0,0,0
   #130 <Sub+28>:               TRAP 0,0,0
",
    ),
    (
        What::Ended(End::Halted(7)),
        "halted with status 7
",
    ),
    (
        What::Ended(End::Stopped {
            pc: 0x104,
            reason: 113,
        }),
        "stopped at s.mms:8  Main+4: 113 Negative, an address is 2^63 or more; look at the register with the address
",
    ),
    (
        What::Shown(Thing::Special(4), None),
        "rJ = #110 <Main+16>
",
    ),
    (
        What::Shown(Thing::Octa(TEXT + 3), Some(Form::Hex)),
        "M8[#2000000000000000] (Text) = #05620aff00000000  (the octa that has #2000000000000003)
",
    ),
];

/// Adds the call of `Sub`, as if it had two arguments.
fn add_call(alloc: Global, text: &mut Bytes, book: &Book) -> Result<(), NoMemory> {
    let mut arguments = Sequence::new(alloc);
    arguments.push(3)?;
    arguments.push(TEXT)?;
    let mut calls = Sequence::new(alloc);
    calls.push(Call {
        call: 0x10c,
        target: 0x114,
        arguments: Some(arguments),
    })?;
    add_backtrace(text, book, calls.as_slice(), 0x114)
}

/// Adds what is shown of the state.
fn add_state(
    alloc: Global,
    text: &mut Bytes,
    book: &Book,
    machine: &Machine,
    what: What,
) -> Result<(), NoMemory> {
    match what {
        What::Memory(count, unit) => {
            add_memory(alloc, text, book, machine, TEXT, count, unit)?;
            Ok(())
        }
        What::Ring => add_ring(text, machine, 8),
        What::Shown(thing, form) => add_shown(text, book, machine, thing, form),
        What::Instructions => {
            add_instructions(text, book, machine, 0x10c, machine.pc())?;
            Ok(())
        }
        _ => add_known(alloc, text, book, what),
    }
}

/// Adds what is shown of the program.
fn add_known(alloc: Global, text: &mut Bytes, book: &Book, what: What) -> Result<(), NoMemory> {
    match what {
        What::Calls => add_call(alloc, text, book),
        What::Symbols => add_symbols(text, book),
        What::Break => add_break_row(text, book, 1, 0x108, b"k == 3"),
        What::Watch => add_watch_row(text, book, 12, Thing::Octa(TEXT), b""),
        What::Watched => {
            let old = 999_999_999_999;
            add_watched(text, book, 2, Thing::Register(1), Some(old), u64::MAX, b"")
        }
        What::Lines => {
            add_lines(text, book, first_line_around(12), 0x114)?;
            Ok(())
        }
        What::Ended(end) => add_end(text, book, end),
        _ => Ok(()),
    }
}

/// Whether this is shown so.
fn shows(alloc: Global, book: &Book, machine: &Machine, what: What, due: &str) -> bool {
    let mut text = Bytes::new(alloc);
    add_state(alloc, &mut text, book, machine, what).is_ok() && text.as_slice() == due.as_bytes()
}

/// The number of the first row that is shown otherwise.
fn wrong_row(alloc: Global, book: &Book, machine: &Machine) -> Option<usize> {
    for (number, (what, due)) in SHOWN.iter().enumerate() {
        if !shows(alloc, book, machine, *what, due) {
            return Some(number);
        }
    }
    None
}

/// The same of the state after step 4, to which the run is taken.
pub fn find_state_mismatch(alloc: Global, book: &Book, replay: &mut Replay) -> Option<usize> {
    match replay.go_to(4) {
        Ok(_) => wrong_row(alloc, book, replay.machine()),
        Err(_) => Some(SHOWN.len()),
    }
}
