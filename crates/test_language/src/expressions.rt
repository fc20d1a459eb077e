//! Values and faults from outside.

ghost use Rattle.std.specs.Prelude.{Ok, Err, None, Some, length, nat_lt, if◌then◌else◌};
ghost use Rattle.mx_word.specs.declared.symbols.Value.{Value};
ghost use Rattle.mx_expr.specs.declared.faults.ExprFault.{ExprFault};

use mx_expr::{Expr, ExprFault, Exprs, Known, parse_list, value};
use mx_word::NoMemory;
use mx_word::Value::{self, Pure, Reg};
use std::alloc::{AllocError, Global};
use std::process::Abort;

/// Symbols of at most three bytes are `$9`, of four are not known, and longer ones are too long.
/// `dB` is d, and the place is 256.
struct Few;

impl Known for Few {
    ghost symbols = { λ k name. if nat_lt (length name) 4 then Ok (Some (Value.Reg 9))
        else if nat_lt (length name) 5 then Ok None else Err ExprFault.NameTooLong };

    ghost backs = { λ k d. Value.Pure d };

    ghost at = { λ k. 256 };

    fn symbol(&self, name: &[u8]) -> Result<Option<Value>, ExprFault> {
        if name.len() < 4 {
            Ok(Some(Value::Reg(9)))
        } else if name.len() < 5 {
            Ok(None)
        } else {
            Err(ExprFault::NameTooLong)
        }
    }

    fn back(&self, d: u8) -> Value {
        Value::Pure(u64::from(d))
    }

    fn place(&self) -> u64 {
        256
    }
}

/// How many operands a field has, and the value of the last one or the number of its fault; none and the
/// number of the field's own fault where that is refused.
fn told(alloc: Global, field: &str) -> (usize, Result<Value, u16>) {
    match parse_list(alloc, field.as_bytes()) {
        Err(fault) => (0, Err(fault.number())),
        Ok(list) => match list.as_slice() {
            [] => (0, Err(0)),
            [.., last] => match value(alloc, last, &Few) {
                Ok(value) => (list.as_slice().len(), Ok(value)),
                Err(fault) => (list.as_slice().len(), Err(fault.number())),
            },
        },
    }
}

/// Checks that fields have this many operands, and that the last one has this value or fault.
fn fields_are(rt: &impl Abort, alloc: Global, count: usize, rows: &[(&str, Result<Value, u16>)]) {
    for (field, want) in rows {
        assert_eq!(rt; told(alloc, field), (count, *want), "{field}");
    }
}

/// Fields of one operand, and its pure value.
static VALUES: [(&str, Result<Value, u16>); 40] = [
    ("", Ok(Pure(0))),
    ("1+2*3", Ok(Pure(7))),
    ("1//3", Ok(Pure(0x5555_5555_5555_5555))),
    ("7//8", Ok(Pure(0xe000_0000_0000_0000))),
    ("-1>>60", Ok(Pure(15))),
    ("-2>>1", Ok(Pure(0x7fff_ffff_ffff_ffff))),
    ("~1*2", Ok(Pure(0xffff_ffff_ffff_fffc))),
    ("2*3+4<<1", Ok(Pure(14))),
    ("10-3-4", Ok(Pure(3))),
    ("100/10/5", Ok(Pure(2))),
    ("2*3%4", Ok(Pure(2))),
    ("6/4//3", Ok(Pure(0x5555_5555_5555_5555))),
    ("(1+2)*3", Ok(Pure(9))),
    ("6&3", Ok(Pure(2))),
    ("6|3", Ok(Pure(7))),
    ("6^3", Ok(Pure(5))),
    ("6|3&1", Ok(Pure(7))),
    ("6^2|1", Ok(Pure(5))),
    ("1<<63", Ok(Pure(0x8000_0000_0000_0000))),
    ("1<<64", Ok(Pure(0))),
    ("1>>64", Ok(Pure(0))),
    ("0-1+2", Ok(Pure(1))),
    ("1--1", Ok(Pure(2))),
    ("+5", Ok(Pure(5))),
    ("$5-$2", Ok(Pure(3))),
    ("$2-$5+4", Ok(Pure(1))),
    ("18446744073709551615", Ok(Pure(0xffff_ffff_ffff_ffff))),
    ("#FfFfFfFfFfFfFfFf", Ok(Pure(0xffff_ffff_ffff_ffff))),
    ("007", Ok(Pure(7))),
    ("#2B", Ok(Pure(0x2b))),
    ("#1f", Ok(Pure(31))),
    ("'''", Ok(Pure(39))),
    ("'\"'", Ok(Pure(34))),
    ("','", Ok(Pure(44))),
    ("' '", Ok(Pure(32))),
    ("';'+1", Ok(Pure(60))),
    ("2B", Ok(Pure(2))),
    ("0B-1", Ok(Pure(0xffff_ffff_ffff_ffff))),
    ("@", Ok(Pure(256))),
    ("@+4*2", Ok(Pure(264))),
];

#[test]
fn values(rt: HostRuntime) {
    fields_are(&rt, rt.alloc(), 1, &VALUES);
}

/// Fields of one operand, and the register that it is: modulo 2^64 first, then the range; symbols have
/// letters, digits, `:` and `_`.
static REGISTERS: [(&str, Result<Value, u16>); 10] = [
    ("$5+(0-1)", Ok(Reg(4))),
    ("$5+1", Ok(Reg(6))),
    ("3+$4", Ok(Reg(7))),
    ("$5-1", Ok(Reg(4))),
    ("+$7", Ok(Reg(7))),
    ("$255", Ok(Reg(255))),
    ("$1B", Ok(Reg(1))),
    ("a2B", Ok(Reg(9))),
    (":_9", Ok(Reg(9))),
    ("a+1-1", Ok(Reg(9))),
];

#[test]
fn registers(rt: HostRuntime) {
    fields_are(&rt, rt.alloc(), 1, &REGISTERS);
}

/// Fields whose last operand has no value, and the number of its fault.
static FAULTS: [(&str, Result<Value, u16>); 23] = [
    ("1/0", Err(12)),
    ("1%0", Err(12)),
    ("3//3", Err(13)),
    ("1//0", Err(13)),
    ("$1*2", Err(14)),
    ("$1/0", Err(14)),
    ("$1//0", Err(14)),
    ("-$1", Err(14)),
    ("$$1", Err(14)),
    ("$1+$2", Err(15)),
    ("7-$2", Err(16)),
    ("abcd", Err(17)),
    ("1F", Err(17)),
    ("$256", Err(21)),
    ("$0-1", Err(21)),
    ("$255+1", Err(21)),
    ("abcde", Err(33)),
    // the left side, the right side, the operator
    ("abcd+1/0", Err(17)),
    ("1/0+abcd", Err(12)),
    ("abcde+1F", Err(33)),
    ("1/0*$1", Err(12)),
    ("$1*(3//3)", Err(13)),
    ("1+2*(7-$2)", Err(16)),
];

#[test]
fn faults_of_values(rt: HostRuntime) {
    fields_are(&rt, rt.alloc(), 1, &FAULTS);
}

/// Fields that are refused, and the number of the fault.
static REFUSALS: [(&str, Result<Value, u16>); 35] = [
    ("1,,2", Err(10)),
    (",", Err(10)),
    ("1,", Err(10)),
    ("12B", Err(10)),
    ("2Bx", Err(10)),
    ("2BF", Err(10)),
    ("1+", Err(10)),
    ("(1", Err(10)),
    ("1)", Err(10)),
    ("()", Err(10)),
    ("(1,2)", Err(10)),
    ("1 2", Err(10)),
    ("1<2", Err(10)),
    ("1///2", Err(10)),
    ("#", Err(10)),
    ("#g", Err(10)),
    ("'a", Err(10)),
    ("'ab'", Err(10)),
    ("\"ab", Err(10)),
    ("\"ab\"c", Err(10)),
    ("1+\"a\"", Err(10)),
    ("(\"a\")", Err(10)),
    ("18446744073709551616", Err(11)),
    ("#10000000000000000", Err(11)),
    // another fault to the right, and one to the left
    ("18446744073709551616B", Err(11)),
    ("1/18446744073709551616,,", Err(11)),
    ("1,,18446744073709551616", Err(10)),
    ("'18446744073709551616", Err(10)),
    ("\"\"", Err(19)),
    ("1,\"\"", Err(19)),
    ("\"\",,", Err(19)),
    (",\"\"", Err(10)),
    ("1\"\"", Err(10)),
    ("\"\",18446744073709551616", Err(19)),
    ("18446744073709551616,\"\"", Err(11)),
];

#[test]
fn refusals(rt: HostRuntime) {
    fields_are(&rt, rt.alloc(), 0, &REFUSALS);
}

/// Fields with strings, how many operands they have, and the value of the last one: each byte is an
/// operand, also a comma, an apostrophe and a blank.
static STRINGS: [(&str, usize, u64); 4] = [
    ("\"ab\"", 2, 98),
    ("1,\",' \"", 4, 32),
    ("\"a\",\"bc\",2", 4, 2),
    ("1,2,3", 3, 3),
];

#[test]
fn strings(rt: HostRuntime) {
    for (field, count, n) in &STRINGS {
        assert_eq!(rt; told(rt.alloc(), field), (*count, Ok(Pure(*n))), "{field}");
    }
}

/// A piece this many times, another text, a last piece this many times, and what is told of that field.
type Deep = (
    usize,
    &'static str,
    &'static str,
    &'static str,
    (usize, Result<Value, u16>),
);

/// The field of a row.
fn field(alloc: Global, row: &Deep) -> Result<String, AllocError> {
    let (count, first, middle, last, _) = row;
    let mut text = first.repeat(alloc, *count)?;
    text.push_str(middle)?;
    text.push_str(last.repeat(alloc, *count)?.as_str())?;
    Ok(text)
}

/// What is told of the field of a row, with ample memory.
fn told_of(alloc: Global, row: &Deep) -> Option<(usize, Result<Value, u16>)> {
    match field(alloc, row) {
        Ok(text) => Some(told(alloc, text.as_str())),
        Err(_) => None,
    }
}

/// Long chains of unary operators, and of binary ones to the left; the most parentheses, and one more.
static DEEP: [Deep; 12] = [
    (4095, "-", "1", "", (1, Ok(Pure(u64::MAX)))),
    (1_000_000, "-", "1", "", (1, Ok(Pure(1)))),
    (2047, "", "1", "+1", (1, Ok(Pure(2048)))),
    (500_000, "1*", "1", "", (1, Ok(Pure(1)))),
    (255, "1+2*(", "1", ")", (1, Ok(Pure(u64::MAX)))),
    (255, "-(", "1", ")", (1, Ok(Pure(u64::MAX)))),
    // the 256th open parenthesis, with a fault to its right, with one to its left, and not open
    (256, "(", "1", ")", (0, Err(18))),
    (256, "(", "", "", (0, Err(18))),
    (256, "(", ",", "", (0, Err(18))),
    (255, "(", ")", "", (0, Err(10))),
    (256, "", ")", "(", (0, Err(10))),
    (300, "(1)+", "1", "", (1, Ok(Pure(301)))),
];

#[test]
fn deep_fields(rt: HostRuntime) {
    for row in &DEEP {
        let (count, first, ..) = row;
        assert_eq!(rt; told_of(rt.alloc(), row), Some(row.4), "{count} {first}");
    }
}

/// How many expressions a list has to which one is pushed.
fn pushed(alloc: Global) -> Result<usize, NoMemory> {
    let mut list = Exprs::new(alloc);
    list.push(Expr::Ahead(1))?;
    Ok(list.as_slice().len())
}

#[test]
fn lists(rt: HostRuntime) {
    assert_eq!(rt; pushed(rt.alloc()), Ok(1));
}
