//! One step of a machine, and what is due of it.
//!
//! The calls that take rows fail at the first one that does not come to what is due of it, and name its
//! tetra. Most rows have the operands X = 9, Y = 2 and Z = 3. Ten registers are local before the step.

use mx_core::{Machine, Reason, SetFault, Step, Touch, Trace};
use mx_load::Loader;
use mx_ring::RingSize;
use mx_start::start;
use mx_word::{Bytes, Symbols};
use std::alloc::Global;
use std::test::Fail;

/// The instruction of a row is here, and the next one after it.
pub const AT: u64 = 0x1000_0004;

pub const NEXT: u64 = 0x1000_0008;

/// The first of the two octas of data.
pub const DATA: u64 = 0x2000_0000_0000_0000;

/// The first octa of Stack_Segment.
pub const BASE: u64 = 0x6000_0000_0000_0000;

/// What $255 has before the step.
pub const TOP: u64 = 0x7654;

/// Special registers by their codes.
pub const RB: u8 = 0;

pub const RH: u8 = 3;

pub const RJ: u8 = 4;

pub const RM: u8 = 5;

pub const RR: u8 = 6;

pub const RN: u8 = 9;

pub const RO: u8 = 10;

pub const RS: u8 = 11;

pub const RA: u8 = 21;

pub const RP: u8 = 23;

pub const RW: u8 = 24;

pub const RX: u8 = 25;

pub const RY: u8 = 26;

pub const RZ: u8 = 27;

/// What the special registers have before the step that may get a value, but for rA, which has 0.
static SPECIALS: [(u8, u64); 18] = [
    (0, 0xb00),
    (1, 2),
    (2, 0xe00),
    (3, 0x100),
    (4, 0x3000),
    (5, 0xffff_0000_ff00_0f0f),
    (6, 0x600),
    (7, 0xbb00),
    (22, 0xf00),
    (23, 0xa00),
    (24, 0x3000_0006),
    (25, 0x8000_0000_0000_0000),
    (26, 0x1a00),
    (27, 0x1b00),
    (28, 0x1c00),
    (29, 0x1d00),
    (30, 0x1e00),
    (31, 0x1f00),
];

/// What a machine has before the step.
#[derive(Clone, Copy)]
pub struct Given {
    /// The tetra before the instruction, which is performed when all else is set, and the instruction.
    pub first: u32,
    pub word: u32,
    /// The registers $9, $2 and $3.
    pub x: u64,
    pub y: u64,
    pub z: u64,
    /// A special register, and what it has.
    pub special: (u8, u64),
    /// The two octas of data.
    pub octas: (u64, u64),
    /// The tetra at the handlers of TRIP, of divisions by zero and of overflows.
    pub handler: u32,
}

/// SWYM in front and at the handlers, and data whose parts are all negative.
pub const PLAIN: Given = Given {
    first: 0xfd00_0000,
    word: 0xfd00_0000,
    x: 0,
    y: 0,
    z: 0,
    special: (RA, 0),
    octas: (0x8182_8384_8586_8788, 0x91a2_b3c4_d5e6_f708),
    handler: 0xfd00_0000,
};

/// What is due of a step that goes on: its trace, and what the machine has then.
#[derive(Clone, Copy)]
pub struct Due {
    pub dest: Option<u8>,
    pub reads: Option<Touch>,
    pub writes: Option<Touch>,
    pub next: u64,
    /// A register, and what it has.
    pub register: (u8, u64),
    /// Two special registers, and what they have.
    pub special: (u8, u64),
    pub other: (u8, u64),
    /// An octa of memory, and what it has.
    pub octa: (u64, u64),
    /// The number of local registers.
    pub l: u8,
}

/// Nothing but to go on: no destination, no touch of memory, no event.
pub const GOES_ON: Due = Due {
    dest: None,
    reads: None,
    writes: None,
    next: NEXT,
    register: (255, TOP),
    special: (RA, 0),
    other: (RN, 0x0100_0000_0000_0000),
    octa: (DATA, 0x8182_8384_8586_8788),
    l: 10,
};

/// The same, where the destination is $9, which gets a value.
pub fn due_value(value: u64) -> Due {
    Due {
        dest: Some(9),
        register: (9, value),
        ..GOES_ON
    }
}

/// A machine with arguments and a ring of this many registers, before any step.
pub fn start_with(alloc: Global, registers: u32, args: &[Bytes]) -> Result<Machine, Fail> {
    let Some(size) = RingSize::of(registers) else {
        return Err(Fail::new("no size of a ring"));
    };
    if args.is_empty() {
        return Err(Fail::new("no argument"));
    }
    let image = Loader::new(alloc).finish(Symbols::new(alloc))?;
    Ok(start(alloc, image, args, size)?)
}

/// The same with the argument `p`.
pub fn start_one(alloc: Global, registers: u32) -> Result<Machine, Fail> {
    start_with(alloc, registers, &[Bytes::copy(alloc, b"p")?])
}

/// Gives special registers values, by their codes.
fn set_specials(machine: &mut Machine, specials: &[(u8, u64)]) -> Result<(), SetFault> {
    for (code, value) in specials {
        if *code >= 32 {
            return Err(SetFault::NotAllowed);
        }
        machine.set_special(*code, *value)?;
    }
    Ok(())
}

/// Gives registers values.
fn set_registers(machine: &mut Machine, registers: &[(u8, u64)]) -> Result<(), SetFault> {
    for (k, value) in registers {
        machine.set_register(*k, *value)?;
    }
    Ok(())
}

/// Stores octas at their addresses.
pub fn set_octas(machine: &mut Machine, octas: &[(u64, u64)]) -> Result<(), SetFault> {
    for (at, octa) in octas {
        if *at >= 1 << 63 {
            return Err(SetFault::NotAllowed);
        }
        machine.set_octa(*at, *octa)?;
    }
    Ok(())
}

/// The registers of a machine get what is given.
fn prepare_registers(machine: &mut Machine, given: &Given) -> Result<(), SetFault> {
    let registers = [(9, given.x), (2, given.y), (3, given.z), (255, TOP)];
    set_specials(machine, &SPECIALS)?;
    set_specials(machine, &[given.special])?;
    set_registers(machine, &registers)
}

/// The memory of a machine gets what is given.
fn prepare_memory(machine: &mut Machine, given: &Given) -> Result<(), SetFault> {
    let handler = (given.handler as u64) << 32;
    let octas = [
        (0, handler),
        (0x10, handler),
        (0x20, handler),
        (DATA, given.octas.0),
        (DATA + 8, given.octas.1),
        (AT - 4, ((given.first as u64) << 32) | given.word as u64),
    ];
    set_octas(machine, &octas)
}

/// A machine that has what is given, before its step.
fn machine(alloc: Global, given: &Given) -> Result<Machine, Fail> {
    let mut machine = start_one(alloc, 256)?;
    prepare_registers(&mut machine, given)?;
    prepare_memory(&mut machine, given)?;
    machine.set_pc(AT - 4);
    machine.advance();
    Ok(machine)
}

/// Whether a special register, by its code, has a value.
pub fn has_special(machine: &Machine, (code, value): (u8, u64)) -> bool {
    code < 32 && machine.special(code) == value
}

/// Whether memory has an octa at an address.
pub fn has_octa(machine: &Machine, (at, value): (u64, u64)) -> bool {
    at < 1 << 63 && machine.octa(at) == value
}

/// Whether a machine has all that is due.
fn has_all(machine: &Machine, due: &Due) -> bool {
    machine.pc() == due.next
        && machine.register(due.register.0) == due.register.1
        && has_special(machine, due.special)
        && has_special(machine, due.other)
        && has_octa(machine, due.octa)
        && machine.l() == due.l
}

/// Whether the step answers this, and the machine has what is due then.
fn makes(alloc: Global, given: &Given, answer: Step, due: &Due) -> Result<bool, Fail> {
    let mut machine = machine(alloc, given)?;
    Ok(machine.step() == answer && has_all(&machine, due))
}

/// Fails, and names the tetra and the special register that were given, where they do not come to what is due.
fn see(given: &Given, is_due: bool) -> Result<(), Fail> {
    if is_due {
        return Ok(());
    }
    let (code, value) = given.special;
    Err(Fail::new(format_args!(
        "tetra {:#010x}, special register {code}: {value:#x}",
        given.word
    )))
}

/// Checks that the step goes on, and comes to what is due.
pub fn check_goes_on(alloc: Global, given: &Given, due: &Due) -> Result<(), Fail> {
    let trace = Trace {
        pc: AT,
        word: given.word,
        dest: due.dest,
        reads: due.reads,
        writes: due.writes,
        next: due.next,
    };
    see(given, makes(alloc, given, Step::Went(trace), due)?)
}

/// Checks that the step answers this without going on, and leaves the machine as it was.
pub fn check_answer(alloc: Global, given: &Given, answer: Step) -> Result<(), Fail> {
    let due = Due {
        next: AT,
        special: given.special,
        octa: (DATA, given.octas.0),
        ..GOES_ON
    };
    see(given, makes(alloc, given, answer, &due)?)
}

/// Rows of what goes on with nothing but a value for $9: the tetra and the value.
pub fn all_set(alloc: Global, given: &Given, rows: &[(u32, u64)]) -> Result<(), Fail> {
    for (word, value) in rows {
        let given = Given {
            word: *word,
            ..*given
        };
        check_goes_on(alloc, &given, &due_value(*value))?;
    }
    Ok(())
}

/// Rows of what gives $9 a value and may set a special register: the tetra, y and z, the value, and a
/// special register with what it has then.
pub type Computed = (u32, u64, u64, u64, (u8, u64));

pub fn all_compute(alloc: Global, given: &Given, rows: &[Computed]) -> Result<(), Fail> {
    for row in rows {
        let (word, y, z, value, special) = *row;
        let due = Due {
            special,
            ..due_value(value)
        };
        check_goes_on(
            alloc,
            &Given {
                word,
                y,
                z,
                ..*given
            },
            &due,
        )?;
    }
    Ok(())
}

/// Rows of what touches no memory: the tetra, its destination, the next address, a register and a special
/// register with what they have then, and how many registers are local then.
pub type Going = (u32, Option<u8>, u64, (u8, u64), (u8, u64), u8);

pub fn all_go(alloc: Global, given: &Given, rows: &[Going]) -> Result<(), Fail> {
    for row in rows {
        let (word, dest, next, register, special, l) = *row;
        let due = Due {
            dest,
            next,
            register,
            special,
            l,
            ..GOES_ON
        };
        check_goes_on(alloc, &Given { word, ..*given }, &due)?;
    }
    Ok(())
}

/// Rows of what does nothing but to go on: the tetras.
pub fn all_idle(alloc: Global, given: &Given, words: &[u32]) -> Result<(), Fail> {
    for word in words {
        let given = Given {
            word: *word,
            ..*given
        };
        check_goes_on(alloc, &given, &GOES_ON)?;
    }
    Ok(())
}

/// Rows of what stops for a reason, with the machine as it was: the tetras.
pub fn all_stop(alloc: Global, given: &Given, words: &[u32], reason: Reason) -> Result<(), Fail> {
    for word in words {
        let given = Given {
            word: *word,
            ..*given
        };
        check_answer(alloc, &given, Step::Stopped(reason))?;
    }
    Ok(())
}
