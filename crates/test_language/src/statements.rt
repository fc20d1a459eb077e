//! Worked rows: statements, and what they come to.

mod rows;

ghost use Rattle.std.specs.Prelude.{◌≡◌, ◌≤◌};
ghost use Rattle.mx_names.specs.Gregs.{lowest_of};

use mx_line::next_statement;
use mx_names::{Gregs, NameFault, Names};
use mx_ops::{Op, Shape, find, shape_of};
use mx_stmt::{Effect, Env, Label, Placed, StmtFault, encode, read_statement};
use mx_word::{Awaited, Value, Wait, WaitKind, tetra_of};
use rows::{
    EFFECTS, ENDS, FAULTY, FORMS, NEAREST, Outline, PREFIXED, PSEUDO_OPERATIONS, REFERENCES,
    Referring, Target,
};
use std::alloc::Global;
use std::process::Abort;

/// What the first statement of a line comes to at a place, or the number of its fault; 0 where there
/// is no memory or no statement.
fn placed(
    alloc: Global,
    names: &Names,
    gregs: &Gregs,
    at: u64,
    text: &[u8],
) -> Result<Placed, u16> {
    let cut = match next_statement(text, 0) {
        Ok(Some(cut)) => cut,
        Ok(None) => return Err(0),
        Err(fault) => return Err(fault.number()),
    };
    let statement = match read_statement(alloc, text, &cut, 1) {
        Ok(statement) => statement,
        Err(fault) => return Err(fault.number()),
    };
    let env = Env {
        alloc,
        names,
        at,
        gregs,
    };
    match encode(&statement, &env) {
        Ok(placed) => Ok(placed),
        Err(fault) => Err(fault.number()),
    }
}

/// The names after a prefix, where the last 2H was at 4.
fn names_after(alloc: Global, prefix: &str) -> Result<Names, NameFault> {
    let mut names = Names::new(alloc)?;
    names.set_prefix(prefix.as_bytes())?;
    names.define_local(2, Value::Pure(4));
    Ok(names)
}

/// What the first statement of a line comes to at a place after a prefix, or the number of its fault.
fn placed_after(
    alloc: Global,
    prefix: &str,
    gregs: &Gregs,
    at: u64,
    text: &str,
) -> Result<Placed, u16> {
    match names_after(alloc, prefix) {
        Ok(names) => placed(alloc, &names, gregs, at, text.as_bytes()),
        Err(fault) => Err(fault.number()),
    }
}

/// The tetra that is alone in these bytes.
fn tetra(bytes: &[u8]) -> Result<u32, u16> {
    match bytes {
        [a, b, c, d] => Ok(tetra_of([*a, *b, *c, *d])),
        _ => Err(0),
    }
}

/// The tetra of an instruction at a place after a prefix, or the number of its fault.
fn word(alloc: Global, prefix: &str, gregs: &Gregs, at: u64, text: &str) -> Result<u32, u16> {
    let placed = placed_after(alloc, prefix, gregs, at, text)?;
    tetra(placed.bytes.as_slice())
}

/// $254 has the value #2000000000000000, and $253 the value 0.
fn two_gregs() -> Gregs {
    let mut gregs = Gregs::new();
    gregs.set(254, 0x2000_0000_0000_0000);
    gregs.set(253, 0);
    gregs
}

/// Checks that statements at a place after a prefix come to these tetras, or have these faults.
fn words_are(
    rt: &impl Abort,
    alloc: Global,
    prefix: &str,
    gregs: &Gregs,
    at: u64,
    rows: &[(&str, Result<u32, u16>)],
) {
    for (line, want) in rows {
        assert_eq!(rt; word(alloc, prefix, gregs, at, line), *want, "{line}");
    }
}

#[test]
fn forms_of_operands(rt: HostRuntime) {
    words_are(&rt, rt.alloc(), ":", &two_gregs(), 0xff, &FORMS);
}

#[test]
fn first_faults(rt: HostRuntime) {
    let at = 0x6000_0000_0000_0000;
    words_are(&rt, rt.alloc(), ":", &two_gregs(), at, &FAULTY);
}

#[test]
fn predefined_symbols_after_a_prefix(rt: HostRuntime) {
    words_are(&rt, rt.alloc(), ":p:", &Gregs::new(), 0, &PREFIXED);
}

/// $254 has the value 8, and $253 the value -4.
fn near_gregs() -> Gregs {
    let mut gregs = Gregs::new();
    gregs.set(254, 8);
    gregs.set(253, 0xffff_ffff_ffff_fffc);
    gregs
}

#[test]
fn nearest_bases(rt: HostRuntime) {
    words_are(&rt, rt.alloc(), ":", &near_gregs(), 0, &NEAREST);
}

/// What a statement at #101 comes to, or the number of its fault.
fn outline(alloc: Global, gregs: &Gregs, text: &str) -> Result<Outline, u16> {
    let placed = placed_after(alloc, ":", gregs, 0x101, text)?;
    Ok((
        placed.start,
        placed.bytes.as_slice().len(),
        placed.label,
        placed.after,
    ))
}

#[test]
fn pseudo_operations(rt: HostRuntime) {
    let gregs = two_gregs();
    for (line, want) in &PSEUDO_OPERATIONS {
        assert_eq!(rt; outline(rt.alloc(), &gregs, line), *want, "{line}");
    }
}

/// Whether a reference waits for this name or local label.
fn waits_for(who: &Awaited, want: &Target) -> bool {
    match (who, want) {
        (Awaited::Name(full), Target::Name(name)) => full.as_slice() == name.as_bytes(),
        (Awaited::Local(label), Target::Local(digit)) => label == digit,
        _ => false,
    }
}

/// Whether these references, in this order, are what a statement waits for.
fn waits_are(waits: &[Wait], want: &[(Target, u64, WaitKind)]) -> bool {
    if waits.len() != want.len() {
        return false;
    }
    for (wait, (target, at, kind)) in waits.iter().zip(want) {
        if !waits_for(&wait.who, target) || wait.at != *at || wait.kind != *kind {
            return false;
        }
    }
    true
}

/// Whether the statement of a row comes to its bytes, and whether it waits for its references.
fn comes_to(alloc: Global, row: &Referring) -> Result<(bool, bool), u16> {
    let (at, text, bytes, waits) = row;
    let placed = placed_after(alloc, ":", &Gregs::new(), *at, text)?;
    Ok((
        placed.bytes.as_slice() == *bytes,
        waits_are(placed.waits.as_slice(), waits),
    ))
}

#[test]
fn references(rt: HostRuntime) {
    for row in &REFERENCES {
        assert_eq!(rt; comes_to(rt.alloc(), row), Ok((true, true)), "{}", row.1);
    }
}

/// An effect by its kind and a number: of a prefix its length, of a register its own.
fn told(effect: &Effect) -> (&'static str, usize) {
    match effect {
        Effect::Plain => ("plain", 0),
        Effect::Prefix(full) => ("prefix", full.as_slice().len()),
        Effect::Greg { reg, .. } => ("greg", usize::from(*reg)),
        Effect::Local(reg) => ("local", usize::from(*reg)),
    }
}

/// The effect of a statement after the prefix `:p:`, or the number of its fault.
fn effect_of(alloc: Global, text: &str) -> Result<(&'static str, usize), u16> {
    let placed = placed_after(alloc, ":p:", &Gregs::new(), 0, text)?;
    Ok(told(&placed.effect))
}

#[test]
fn effects_of_statements(rt: HostRuntime) {
    for (line, kind, number) in &EFFECTS {
        assert_eq!(rt; effect_of(rt.alloc(), line), Ok((*kind, *number)), "{line}");
    }
}

/// The start of a statement and the place after it, or the number of its fault.
fn places(alloc: Global, at: u64, text: &str) -> Result<(u64, u64), u16> {
    let placed = placed_after(alloc, ":", &Gregs::new(), at, text)?;
    Ok((placed.start, placed.after))
}

#[test]
fn ends_of_the_addresses(rt: HostRuntime) {
    for (at, line, want) in &ENDS {
        assert_eq!(rt; places(rt.alloc(), *at, line), *want, "{line} at {at}");
    }
}

/// Operands that the shape of a code takes, with the first code of its name or the second.
fn operands_of(shape: Shape, second: bool) -> &'static str {
    match (shape, second) {
        (Shape::Three | Shape::Regs | Shape::Mem, false) => "$1,$2,$3",
        (Shape::Three | Shape::Regs | Shape::Mem, true) => "$1,$2,3",
        (Shape::Round | Shape::Neg, false) => "$1,2,$3",
        (Shape::Round | Shape::Neg, true) => "$1,2,3",
        (Shape::Rel, false) => "$1,@+4",
        (Shape::Rel, true) => "$1,@-4",
        (Shape::MemPure, false) => "1,$2,$3",
        (Shape::MemPure, true) => "1,$2,3",
        (Shape::Jump, false) => "@+4",
        (Shape::Jump, true) => "@-4",
        (Shape::Put, false) => "4,$5",
        (Shape::Put, true) => "4,5",
        (Shape::Wyde | Shape::Get | Shape::Save, _) => "$1,2",
        (Shape::Unsave, _) => "0,$1",
        (Shape::Pop | Shape::One | Shape::Free, _) => "1",
    }
}

/// The lowest code of the instruction of this name.
fn lowest_code(name: &str) -> Option<u8> {
    match find(name.as_bytes()) {
        Some(Op::Code(code)) => Some(code),
        _ => None,
    }
}

/// A statement of an operation and operands, with ample memory.
fn line_of(alloc: Global, operation: &str, operands: &str) -> Option<String> {
    format!(in alloc; " {operation} {operands}").ok()
}

/// The code of an instruction with the name of a code and operands for it, or the number of a fault.
fn code_of(alloc: Global, code: u8) -> Result<u32, u16> {
    let operation = mx_ops::name(code);
    let operands = operands_of(shape_of(code), lowest_code(operation) != Some(code));
    match line_of(alloc, operation, operands) {
        Some(line) => Ok(word(alloc, ":", &Gregs::new(), 0x100, line.as_str())? >> 24),
        None => Err(0),
    }
}

#[test]
fn each_code(rt: HostRuntime) {
    // each code by its name and operands that ask for it
    for code in 0..=255 {
        assert_eq!(rt;
            code_of(rt.alloc(), code),
            Ok(u32::from(code)),
            "code {code}"
        );
    }
}

/// The label of a GREG with these registers, or the number of its fault.
fn greg(alloc: Global, gregs: &Gregs, text: &str) -> Result<Option<Value>, u16> {
    let placed = placed_after(alloc, ":", gregs, 0, text)?;
    Ok(placed.label)
}

/// $G to $254 have their numbers as values.
fn numbered_gregs(g: u8) -> Gregs
    requires { 32 ≤ g }
    ensures { lowest_of result ≡ g }
{
    let mut gregs = Gregs::new();
    for reg in (g..255).rev() {
        gregs.set(reg, u64::from(reg));
    }
    gregs
}

/// A label, or the number of a fault.
type Labelled = Result<Option<Value>, u16>;

/// The label of the last register; then, with the lowest one, that of one more and of one that is there.
fn last_registers(alloc: Global) -> (Labelled, u8, Labelled, Labelled) {
    let mut gregs = numbered_gregs(33);
    let last = greg(alloc, &gregs, "x GREG 0");
    gregs.set(32, 0);
    (
        last,
        gregs.lowest(),
        greg(alloc, &gregs, "x GREG 0"),
        greg(alloc, &gregs, "x GREG 33"),
    )
}

#[test]
fn registers_run_out(rt: HostRuntime) {
    let last = Ok(Some(Value::Reg(32)));
    let same = Ok(Some(Value::Reg(33)));
    assert_eq!(rt; last_registers(rt.alloc()), (last, 32, Err(47), same));
}

/// Whether the label of the first statement of line 7 is 2H, its line, its operation, and how many
/// operands it has.
fn read(alloc: Global, text: &[u8]) -> Option<(bool, u32, Op, usize)> {
    let Ok(Some(cut)) = next_statement(text, 0) else {
        return None;
    };
    let statement = read_statement(alloc, text, &cut, 7).ok()?;
    Some((
        matches!(statement.label, Some(Label::Local(2))),
        statement.line,
        statement.op,
        statement.operands.as_slice().len(),
    ))
}

#[test]
fn statements_read(rt: HostRuntime) {
    assert_eq!(rt;
        (
            read(rt.alloc(), b"2H LDA $1,2"),
            StmtFault::OutOfMemory.number()
        ),
        (Some((true, 7, Op::Lda, 2)), 0)
    );
}
