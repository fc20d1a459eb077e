//! The flags of tetras: what is set, and what is found then.

use mx_run::{FlagMap, Flags};

pub(crate) const NONE: Flags = Flags {
    r: false,
    w: false,
    x: false,
    t: false,
};

pub(crate) const EXECUTE: Flags = Flags {
    r: false,
    w: false,
    x: true,
    t: false,
};

const READ_AND_WRITE: Flags = Flags {
    r: true,
    w: true,
    x: false,
    t: false,
};

/// An address, the flags that are set there, and the least tetra from #104 on that then has flags.
static SET: [(u64, Flags, Option<(u64, Flags)>); 6] = [
    // below #104
    (0x100, EXECUTE, None),
    // an address within a tetra means its tetra
    (0x20b, READ_AND_WRITE, Some((0x208, READ_AND_WRITE))),
    // the tetra's own address counts
    (0x104, EXECUTE, Some((0x104, EXECUTE))),
    // new flags are in place of the old ones
    (0x107, READ_AND_WRITE, Some((0x104, READ_AND_WRITE))),
    // a tetra whose flags are taken away is passed over
    (0x104, NONE, Some((0x208, READ_AND_WRITE))),
    (0x208, NONE, None),
];

#[test]
fn sets_and_finds_flags(rt: HostRuntime) {
    let mut flags = FlagMap::new(rt.alloc());
    for (a, set, found) in &SET {
        flags.set_flags(*a, *set).expect(&rt, "memory");
        // #101 lies within a tetra, and is not its own address
        assert_eq!(rt;
            (
                flags.flags(*a),
                flags.next_flagged(0x104),
                flags.next_flagged(0x101)
            ),
            (*set, *found, *found),
            "after {a}"
        );
    }
    assert_eq!(rt; (flags.flags(0x103), flags.flags(0x104)), (EXECUTE, NONE));
}
