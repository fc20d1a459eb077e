//! Faces over the host in memory: the status, and what is written to standard output and standard error. The forms are those of
//! docs/mmixview.1, and of the GNU coding standards; escapes are those of RFC 8259. The object is the first one of docs/OBJECTS.md, and
//! what is shown of it is that of docs/C.md.

use face_check::{Form, check};
use face_source::{find_lines, list, read_address, refuse_address};
use mx_host::MemHost;
use mx_outcome::Outcome;
use std::alloc::Global;

/// What is asked for of a source or an object.
#[derive(Clone, Copy)]
enum Asked {
    List(bool),
    Check(Form),
    /// The faults without warnings.
    Faults(Form),
    Where(bool, &'static str),
}

/// What comes of the source in the file of this name, where the host has it, or an object, in `a.mms`.
struct Row {
    shows: &'static str,
    asked: Asked,
    name: &'static str,
    source: &'static [u8],
    status: u8,
    output: &'static str,
    errors: &'static str,
}

/// An object that prints a text.
const PRINTS: &[u8] =
    b"\x98\x09\x01\x01\x00\x00\x00\x00\x98\x06\x00\x01.mms\x98\x01\x00\x01\x00\x00\x01\x00\x98\x07\x00\x02hi\n\x00\xf5\xff\xff\xff\x00\x00\x07\x01\x00\x00\x00\x00\x98\x0a\x00\xff\x00\x00\x00\x00\x00\x00\x01\x04\x98\x0b\x00\x00 :0M a i\x02n\x01\x04\x82 T e x\x02t\x01\x00\x81\x98\x0c\x00\x06";

/// An object that ends before its globals.
const CUT: &[u8] =
    b"\x98\x09\x01\x01\x00\x00\x00\x00\x98\x01\x00\x01\x00\x00\x01\x00\x00\x00\x00\x00";

static ROWS: [Row; 22] = [
    Row {
        shows: "a listing as JSON",
        asked: Asked::List(true),
        name: "a.mms",
        source: b" LOC #100\nMain TRAP 0,Halt,0\n",
        status: 0,
        output: "{\"accepted\":true,\"lines\":[{\"cells\":[],\"line\":1,\"text\":\" LOC #100\"},{\"cells\":[{\"address\":\"#0000000000000100\",\"tetra\":\"00000000\"}],\"line\":2,\"text\":\"Main TRAP 0,Halt,0\"}],\"refused\":null,\"symbols\":[{\"name\":\":Main\",\"serial\":1,\"value\":\"#0000000000000100\"}]}\n",
        errors: "",
    },
    Row {
        shows: "escapes, bytes that are no UTF-8, and a register",
        asked: Asked::List(true),
        name: "a.mms",
        source: b"*\t\"\\\x01\xff\nx IS $7\n",
        status: 65,
        output: "{\"accepted\":false,\"lines\":[{\"bytes\":\"2a09225c01ff\",\"cells\":[],\"line\":1,\"text\":\"*\\t\\\"\\\\\\u0001\u{fffd}\"},{\"cells\":[],\"line\":2,\"text\":\"x IS $7\"}],\"refused\":{\"fault\":82,\"from_line\":null,\"line\":2,\"name\":\"MainUndefined\"},\"symbols\":[]}\n",
        errors: "line 2: 82 MainUndefined\n",
    },
    Row {
        shows: "a register as the value of a symbol",
        asked: Asked::List(true),
        name: "a.mms",
        source: b"x IS $7\nMain SWYM\n",
        status: 0,
        output: "{\"accepted\":true,\"lines\":[{\"cells\":[],\"line\":1,\"text\":\"x IS $7\"},{\"cells\":[{\"address\":\"#0000000000000000\",\"tetra\":\"fd000000\"}],\"line\":2,\"text\":\"Main SWYM\"}],\"refused\":null,\"symbols\":[{\"name\":\":Main\",\"serial\":2,\"value\":\"#0000000000000000\"},{\"name\":\":x\",\"serial\":1,\"value\":\"$7\"}]}\n",
        errors: "",
    },
    Row {
        shows: "a source that is not there",
        asked: Asked::List(false),
        name: "b.mms",
        source: b"",
        status: 66,
        output: "",
        errors: "no file\n",
    },
    Row {
        shows: "no fault",
        asked: Asked::Check(Form::Text),
        name: "a.mms",
        source: b" LOC #100\nMain TRAP 0,Halt,0\n",
        status: 0,
        output: "",
        errors: "",
    },
    Row {
        shows: "no fault as JSON",
        asked: Asked::Check(Form::Json),
        name: "a.mms",
        source: b" LOC #100\nMain TRAP 0,Halt,0\n",
        status: 0,
        output: "{\"faults\":[],\"more\":false}\n",
        errors: "",
    },
    Row {
        shows: "a fault as JSON",
        asked: Asked::Check(Form::Json),
        name: "a.mms",
        source: b" LOC #100\nMain TRAP 0,Halt,0\n FOO 1\n",
        status: 65,
        output: "{\"faults\":[{\"caret\":2,\"fault\":39,\"from_line\":null,\"line\":3,\"name\":\"UnknownOpcode\",\"text\":\" FOO 1\",\"at\":3,\"length\":3,\"what\":\"There is no operation `FOO`.\",\"meant\":\"\",\"help\":\"Operations are in capitals. A line of comment begins with *, and a ; begins the next statement.\"}],\"more\":false}\n",
        errors: "",
    },
    Row {
        shows: "a fault as a line for editors",
        asked: Asked::Check(Form::Gnu),
        name: "a.mms",
        source: b" LOC #100\nMain TRAP 0,Halt,0\n FOO 1\n",
        status: 65,
        output: "a.mms:3:2: error: 39 UnknownOpcode: There is no operation `FOO`. Operations are in capitals. A line of comment begins with *, and a ; begins the next statement.\n",
        errors: "",
    },
    Row {
        shows: "a fault of the source as a whole has no column",
        asked: Asked::Check(Form::Gnu),
        name: "a.mms",
        source: b" SWYM 0\n",
        status: 65,
        output: "a.mms:1: error: 82 MainUndefined: There is no label Main, where a program starts. Write Main in front of the first instruction, without a colon. Under a PREFIX it is :Main.\n",
        errors: "",
    },
    Row {
        shows: "a warning",
        asked: Asked::Check(Form::Text),
        name: "a.mms",
        source: b" LOC #100\nMain SWYM 0\nf\xc3\xbc SET $255,0\nText BYTE 1\n",
        status: 0,
        output: "line 3: warning 7 DataAfterCode\n    f\u{fc} SET $255,0\n       ^\n    the machine goes on to the next tetra, where data are; TRAP 0,Halt,0 ends the program, and JMP leads around data (line 4)\n",
        errors: "",
    },
    Row {
        shows: "a warning as a line for editors, with its column in characters",
        asked: Asked::Check(Form::Gnu),
        name: "a.mms",
        source: b" LOC #100\nMain SWYM 0\nf\xc3\xbc SET $255,0\nText BYTE 1\n",
        status: 0,
        output: "a.mms:3:4: warning: 7 DataAfterCode: the machine goes on to the next tetra, where data are; TRAP 0,Halt,0 ends the program, and JMP leads around data (line 4)\n",
        errors: "",
    },
    Row {
        shows: "a warning as JSON, with its caret in bytes",
        asked: Asked::Check(Form::Json),
        name: "a.mms",
        source: b" LOC #100\nMain SWYM 0\nf\xc3\xbc SET $255,0\nText BYTE 1\n",
        status: 0,
        output: "{\"faults\":[],\"more\":false,\"warnings\":[{\"line\":3,\"warning\":7,\"name\":\"DataAfterCode\",\"text\":\"f\u{fc} SET $255,0\",\"caret\":5,\"length\":3,\"other\":4,\"what\":\"the machine goes on to the next tetra, where data are; TRAP 0,Halt,0 ends the program, and JMP leads around data\"}]}\n",
        errors: "",
    },
    Row {
        shows: "a warning after a fault",
        asked: Asked::Check(Form::Text),
        name: "a.mms",
        source: b" FOO 1\nMain BYTE \"a\\n\"\n",
        status: 65,
        output: "line 1: 39 UnknownOpcode\n     FOO 1\n     ^~~\n    There is no operation `FOO`.\n    Operations are in capitals. A line of comment begins with *, and a ; begins the next statement.\nline 2: warning 2 BackslashInString\n    Main BYTE \"a\\n\"\n              ^\n    a string has no escapes, so the backslash is a byte of it; write such a byte as a number, as in \"text\",10,0\n",
        errors: "",
    },
    Row {
        shows: "a warning of no other line as JSON, with escapes",
        asked: Asked::Check(Form::Json),
        name: "a.mms",
        source: b"Main BYTE \"a\\n\"\n",
        status: 0,
        output: "{\"faults\":[],\"more\":false,\"warnings\":[{\"line\":1,\"warning\":2,\"name\":\"BackslashInString\",\"text\":\"Main BYTE \\\"a\\\\n\\\"\",\"caret\":11,\"length\":5,\"other\":null,\"what\":\"a string has no escapes, so the backslash is a byte of it; write such a byte as a number, as in \\\"text\\\",10,0\"}]}\n",
        errors: "",
    },
    Row {
        shows: "no warning is asked for",
        asked: Asked::Faults(Form::Text),
        name: "a.mms",
        source: b" LOC #100\nMain SWYM 0\nf\xc3\xbc SET $255,0\nText BYTE 1\n",
        status: 0,
        output: "",
        errors: "",
    },
    Row {
        shows: "no warning is asked for among lines for editors",
        asked: Asked::Faults(Form::Gnu),
        name: "a.mms",
        source: b" LOC #100\nMain SWYM 0\nf\xc3\xbc SET $255,0\nText BYTE 1\n",
        status: 0,
        output: "",
        errors: "",
    },
    Row {
        shows: "no warning is asked for in JSON",
        asked: Asked::Faults(Form::Json),
        name: "a.mms",
        source: b" LOC #100\nMain SWYM 0\nf\xc3\xbc SET $255,0\nText BYTE 1\n",
        status: 0,
        output: "{\"faults\":[],\"more\":false}\n",
        errors: "",
    },
    Row {
        shows: "the line of an address",
        asked: Asked::Where(false, "#103"),
        name: "a.mms",
        source: b" LOC #100\nMain TRAP 0,Halt,0\n",
        status: 0,
        output: "#0000000000000100: 00000000      2: Main TRAP 0,Halt,0\n",
        errors: "",
    },
    Row {
        shows: "an address without a line",
        asked: Asked::Where(false, "260"),
        name: "a.mms",
        source: b" LOC #100\nMain TRAP 0,Halt,0\n",
        status: 0,
        output: "",
        errors: "no line has the address #0000000000000104\n",
    },
    Row {
        shows: "an address without a line, as JSON",
        asked: Asked::Where(true, "260"),
        name: "a.mms",
        source: b" LOC #100\nMain TRAP 0,Halt,0\n",
        status: 0,
        output: "{\"address\":\"#0000000000000104\",\"lines\":[],\"refused\":null}\n",
        errors: "no line has the address #0000000000000104\n",
    },
    Row {
        shows: "the line of an address of a refused source",
        asked: Asked::Where(true, "256"),
        name: "a.mms",
        source: b" LOC #100\nMain TRAP 0,Halt,0\n FOO 1\n",
        status: 65,
        output: "{\"address\":\"#0000000000000100\",\"lines\":[{\"cells\":[{\"address\":\"#0000000000000100\",\"tetra\":\"00000000\"}],\"line\":2,\"text\":\"Main TRAP 0,Halt,0\"}],\"refused\":{\"fault\":39,\"from_line\":null,\"line\":3,\"name\":\"UnknownOpcode\"}}\n",
        errors: "line 3: 39 UnknownOpcode\n",
    },
    Row {
        shows: "an address has no sign",
        asked: Asked::Where(false, "+256"),
        name: "a.mms",
        source: b" LOC #100\nMain TRAP 0,Halt,0\n",
        status: 64,
        output: "",
        errors: "error: an address is # and hexadecimal digits, or decimal digits\n",
    },
];

static OBJECTS: [Row; 9] = [
    Row {
        shows: "the listing of an object",
        asked: Asked::List(false),
        name: "a.mms",
        source: PRINTS,
        status: 0,
        output: "Text:
#0000000000000100: 68690a00      2: CSNN $105,$10,$0
Main:
#0000000000000104: f5ffffff      3: GETA $255,#0000000000000100
#0000000000000108: 00000701      4: TRAP 0,7,1
#000000000000010c: 00000000      5: TRAP 0,0,0

symbol :Main #0000000000000104 2
symbol :Text #0000000000000100 1
",
        errors: "",
    },
    Row {
        shows: "the tetra of an address",
        asked: Asked::Where(false, "#106"),
        name: "a.mms",
        source: PRINTS,
        status: 0,
        output: "Main+2:\n#0000000000000104: f5ffffff      3: GETA $255,#0000000000000100\n",
        errors: "",
    },
    Row {
        shows: "an address without a tetra",
        asked: Asked::Where(false, "#110"),
        name: "a.mms",
        source: PRINTS,
        status: 0,
        output: "",
        errors: "no tetra has the address #0000000000000110\n",
    },
    Row {
        shows: "a refused object is told as by sim",
        asked: Asked::List(false),
        name: "a.mms",
        source: CUT,
        status: 65,
        output: "",
        errors: "byte 20: 64 Truncated\n",
    },
    Row {
        shows: "so it is where an address is asked for",
        asked: Asked::Where(false, "#100"),
        name: "a.mms",
        source: CUT,
        status: 65,
        output: "",
        errors: "byte 20: 64 Truncated\n",
    },
    Row {
        shows: "an object is no source",
        asked: Asked::Check(Form::Text),
        name: "a.mms",
        source: PRINTS,
        status: 65,
        output: "this is an object, and no source: mmixview list shows it, and mmixware sim runs it\n",
        errors: "",
    },
    Row {
        shows: "a file of two bytes for each character is no text",
        asked: Asked::Check(Form::Text),
        name: "a.mms",
        source: b"M\0a\0i\0n\0",
        status: 65,
        output: "this is no text, for it has a byte 0: save a source as UTF-8\n",
        errors: "",
    },
    Row {
        shows: "a control character by its number, and a tab",
        asked: Asked::List(false),
        name: "a.mms",
        source: b"*\t\x1b[2J\x7f\nMain SWYM 0\n",
        status: 0,
        output: "                                 1: *\t\\x1b[2J\\x7f\n#0000000000000000: fd000000      2: Main SWYM 0\n\nsymbol :Main #0000000000000000 1\n",
        errors: "",
    },
    Row {
        shows: "an object is not written as JSON",
        asked: Asked::List(true),
        name: "a.mms",
        source: PRINTS,
        status: 64,
        output: "",
        errors: "error: --json is for sources\n",
    },
];

/// A host with this source.
fn host(alloc: Global, source: &[u8]) -> Option<MemHost> {
    let mut host = MemHost::new(alloc, Vec::new(alloc), Vec::new(alloc)).ok()?;
    host.put_file(b"a.mms", Vec::from_slice(alloc, source).ok()?)
        .ok()?;
    Some(host)
}

/// What comes of what is asked for.
fn outcome(alloc: Global, host: &mut MemHost, asked: Asked, name: &[u8]) -> Outcome {
    match asked {
        Asked::List(is_json) => list(alloc, host, is_json, name),
        Asked::Check(form) => check(alloc, host, form, false, name),
        Asked::Faults(form) => check(alloc, host, form, true, name),
        Asked::Where(is_json, word) => match read_address(word) {
            Some(address) => find_lines(alloc, host, is_json, address, name),
            None => refuse_address(host),
        },
    }
}

/// Whether a row is as it says.
fn is_so(alloc: Global, row: &Row) -> Option<bool> {
    let mut host = host(alloc, row.source)?;
    let outcome = outcome(alloc, &mut host, row.asked, row.name.as_bytes());
    Some(
        outcome.status() == row.status
            && host.output() == row.output.as_bytes()
            && host.errors() == row.errors.as_bytes(),
    )
}

/// The first row that is not as it says.
fn find_page_mismatch(alloc: Global, rows: &'static [Row]) -> Option<&'static str> {
    for row in rows {
        if is_so(alloc, row) != Some(true) {
            return Some(row.shows);
        }
    }
    None
}

#[test]
fn faces_over_a_host(rt: HostRuntime) {
    assert_eq!(rt; find_page_mismatch(rt.alloc(), &ROWS), None);
}

#[test]
fn objects_over_a_host(rt: HostRuntime) {
    assert_eq!(rt; find_page_mismatch(rt.alloc(), &OBJECTS), None);
}
