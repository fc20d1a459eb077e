//! What `count` writes of objects, over the host in memory: the status, and standard output and standard error. The steps are those
//! that the program makes by hand, and the costs those of the book's table (TAOCP 1, Fascicle 1).

use crate::objects::{CUT, JUMPS, PRINTS, bytes_of};
use face_count::count;
use mx_host::MemHost;
use mx_word::Bytes;
use std::alloc::Global;

/// An object of the rows on objects.
#[derive(Clone, Copy)]
enum Object {
    Prints,
    Jumps,
    Cut,
}

/// What comes of words after `count`, where the host has an object in `a.mmo`.
struct Row {
    shows: &'static str,
    words: &'static [&'static str],
    object: Object,
    status: u8,
    output: &'static str,
    errors: &'static str,
}

static PRINTED: Row = Row {
    shows: "a table after the output, and the status of the program",
    words: &["a.mmo"],
    object: Object::Prints,
    status: 3,
    output: "hi

--------------------------------------------------------
      times       away       oops       mems
          3          0         11          0 Main:
          1          0          1          0  #0000000000000104: f5ffffff      3: GETA $255,#0000000000000100
          1          0          5          0  #0000000000000108: 00000701      4: TRAP 0,7,1
          1          0          5          0  #000000000000010c: 00000000      5: TRAP 0,0,0
          0          0          0          0  elsewhere
          3          0         11          0  all steps
",
    errors: "",
};

static SPENT: Row = Row {
    shows: "steps that are spent",
    words: &["--steps", "1", "a.mmo"],
    object: Object::Prints,
    status: 75,
    output: "
--------------------------------------------------------
      times       away       oops       mems
          1          0          1          0 Main:
          1          0          1          0  #0000000000000104: f5ffffff      3: GETA $255,#0000000000000100
          0          0          0          0  elsewhere
          1          0          1          0  all steps
",
    errors: "1 steps spent\n",
};

static JUMPED: Row = Row {
    shows: "as JSON each tetra, with its labels and its part, and the steps elsewhere",
    words: &["--json", "a.mmo"],
    object: Object::Jumps,
    status: 0,
    output: "
{\"elsewhere\":{\"away\":0,\"mems\":0,\"oops\":5,\"times\":1},\"outcome\":{\"message\":null,\"status\":0},\"tetras\":[{\"address\":\"#0000000000000100\",\"away\":1,\"labels\":[],\"line\":null,\"mems\":0,\"oops\":1,\"part\":null,\"tetra\":\"f0000040\",\"text\":\"JMP #0000000000000200\",\"times\":1},{\"address\":\"#0000000000000180\",\"away\":0,\"labels\":[{\"address\":\"#0000000000000182\",\"name\":\":Text\"}],\"line\":null,\"mems\":0,\"oops\":0,\"part\":{\"away\":0,\"mems\":0,\"oops\":0,\"times\":0},\"tetra\":\"01020304\",\"text\":\"FCMP $2,$3,$4\",\"times\":0}],\"total\":{\"away\":1,\"mems\":0,\"oops\":6,\"times\":2}}
",
    errors: "",
};

static REFUSED: Row = Row {
    shows: "a refused object has no table",
    words: &["a.mmo"],
    object: Object::Cut,
    status: 65,
    output: "",
    errors: "byte 20: 64 Truncated\n",
};

static REFUSED_JSON: Row = Row {
    shows: "a refused object as JSON, which nothing precedes",
    words: &["--json", "a.mmo"],
    object: Object::Cut,
    status: 65,
    output: "{\"elsewhere\":null,\"outcome\":{\"message\":\"byte 20: 64 Truncated\",\"status\":65},\"tetras\":null,\"total\":null}\n",
    errors: "byte 20: 64 Truncated\n",
};

/// The bytes of an object.
fn object_of(alloc: Global, object: Object) -> Option<Bytes> {
    match object {
        Object::Prints => bytes_of(alloc, &PRINTS, None),
        Object::Jumps => bytes_of(alloc, &JUMPS, Some(0x980c_0004)),
        Object::Cut => bytes_of(alloc, &CUT, None),
    }
}

/// A host with this object.
fn host(alloc: Global, object: &Bytes) -> Option<MemHost> {
    let mut host = MemHost::new(alloc, Vec::new(alloc), Vec::new(alloc)).ok()?;
    let bytes = Vec::from_slice(alloc, object.as_slice()).ok()?;
    host.put_file(b"a.mmo", bytes).ok()?;
    Some(host)
}

/// The status that words come to.
fn status(alloc: Global, host: &mut MemHost, words: &[&str]) -> Option<u8> {
    let mut all = Vec::new(alloc);
    for word in words {
        all.push(String::from_str(alloc, word).ok()?).ok()?;
    }
    Some(count(alloc, host, all.as_slice()).status())
}

/// Whether a row is as it says.
fn is_so(alloc: Global, row: &Row) -> Option<bool> {
    let object = object_of(alloc, row.object)?;
    let mut host = host(alloc, &object)?;
    let status = status(alloc, &mut host, row.words)?;
    Some(
        status == row.status
            && host.output() == row.output.as_bytes()
            && host.errors() == row.errors.as_bytes(),
    )
}

/// What a row shows, if it is not as it says.
fn wrong(alloc: Global, row: &'static Row) -> Option<&'static str> {
    match is_so(alloc, row) {
        Some(true) => None,
        _ => Some(row.shows),
    }
}

#[test]
fn tables_of_objects(rt: HostRuntime) {
    assert_eq!(rt;
        (wrong(rt.alloc(), &PRINTED), wrong(rt.alloc(), &SPENT)),
        (None, None)
    );
}

#[test]
fn objects_as_json(rt: HostRuntime) {
    assert_eq!(rt; wrong(rt.alloc(), &JUMPED), None);
}

#[test]
fn refused_objects(rt: HostRuntime) {
    assert_eq!(rt;
        (
            wrong(rt.alloc(), &REFUSED),
            wrong(rt.alloc(), &REFUSED_JSON)
        ),
        (None, None)
    );
}
