//! Values from outside: tetras of published programs, and sums done by hand.

use mx_mem::{MemFault, Memory, Part, Space, SpaceFault};
use std::alloc::Global;
use std::process::Abort;

/// What is joined, and what the octa there and the count of pages are afterwards.
static JOINED: [(u64, u32, u64, u32); 11] = [
    // two bytes 1 and 3 at one address make 2
    (0, 0x0100_0000, 0x0100_0000_0000_0000, 1),
    (0, 0x0300_0000, 0x0200_0000_0000_0000, 1),
    // an address within a tetra means its tetra; the low half
    (7, 0x0000_0701, 0x0200_0000_0000_0701, 1),
    // a program at #100
    (0x100, 0x8fff_0100, 0x8fff_0100_0000_0000, 1),
    (0x104, 0x0000_0701, 0x8fff_0100_0000_0701, 1),
    (0x10b, 0xf4ff_0003, 0xf4ff_0003_0000_0000, 1),
    // a tetra of 0 makes its page and no octa
    (0x2000_0000_0000_0000, 0, 0, 2),
    // the last byte of a page and the first of the next
    (0x1fff, 0x0000_00ff, 0x0000_0000_0000_00ff, 3),
    (0x2000, 0xff00_0000, 0xff00_0000_0000_0000, 4),
    // joined twice, nothing is left but the page
    (0x2000, 0xff00_0000, 0, 4),
    // the last address
    (0x7fff_ffff_ffff_ffff, 0xffff_ffff, 0x0000_0000_ffff_ffff, 5),
];

/// Where to look from, and the octa that is found.
static NEXT: [(u64, Option<(u64, u64)>); 7] = [
    (0, Some((0, 0x0200_0000_0000_0701))),
    // the octa's own address counts
    (1, Some((0x100, 0x8fff_0100_0000_0701))),
    (0x100, Some((0x100, 0x8fff_0100_0000_0701))),
    (0x101, Some((0x108, 0xf4ff_0003_0000_0000))),
    (0x109, Some((0x1ff8, 0xff))),
    // over an octa that became 0 and a page of zeros
    (0x1ff9, Some((0x7fff_ffff_ffff_fff8, 0xffff_ffff))),
    (0x7fff_ffff_ffff_fff9, None),
];

/// What part is stored, and what the octa there and the count of pages are afterwards.
static STORED: [(u64, Part, u64, u64, u32); 9] = [
    // STB of 384 stores its low byte
    (
        0x2000_0000_0000_0001,
        Part::Byte,
        384,
        0x0080_0000_0000_0000,
        1,
    ),
    // bytes 0 and 7 of an octa
    (0x100, Part::Byte, 0x11, 0x1100_0000_0000_0000, 2),
    (0x107, Part::Byte, 0x22, 0x1100_0000_0000_0022, 2),
    // a wyde, a tetra and an octa at odd addresses
    (0x103, Part::Wyde, 0xa_3344, 0x1100_3344_0000_0022, 2),
    (0x105, Part::Tetra, 0xb_5566_7788, 0x1100_3344_5566_7788, 2),
    (0x101, Part::Octa, u64::MAX, u64::MAX, 2),
    (0x102, Part::Byte, 0, 0xffff_00ff_ffff_ffff, 2),
    // a store of 0 makes its page
    (0x3000, Part::Octa, 0, 0, 3),
    // the last byte there is
    (0x7fff_ffff_ffff_ffff, Part::Byte, 1, 1, 4),
];

/// What the octa at an address and the count of pages are once a tetra is joined there.
fn joined(memory: &mut Memory, a: u64, t: u32) -> Option<(u64, u32)> {
    if a >= 1 << 63 {
        return None;
    }
    memory.xor_tetra(a, t).ok()?;
    Some((memory.load(a), memory.pages()))
}

/// What the octa at an address and the count of pages are once a part is stored there.
fn stored(memory: &mut Memory, a: u64, part: Part, x: u64) -> Option<(u64, u32)> {
    if a >= 1 << 63 {
        return None;
    }
    memory.store_part(a, part, x).ok()?;
    Some((memory.load(a), memory.pages()))
}

/// The octa that is found from an address on.
fn found(memory: &Memory, from: u64) -> Result<Option<(u64, u64)>, SpaceFault> {
    if from >= 1 << 63 {
        return Err(SpaceFault::Negative);
    }
    Ok(memory.next_nonzero(from))
}

/// The octa at an address, the count of pages, and the first octa that is not 0.
type Seen = (u64, u32, Option<(u64, u64)>);

/// What is seen of a memory, with the octa at an address below 2^63.
fn seen(memory: &Memory, a: u64) -> Option<Seen> {
    if a >= 1 << 63 {
        return None;
    }
    Some((memory.load(a), memory.pages(), memory.next_nonzero(0)))
}

/// The first address at which a row is joined otherwise, if there is one.
fn joined_otherwise(memory: &mut Memory) -> Option<u64> {
    for (a, t, octa, pages) in &JOINED {
        if joined(memory, *a, *t) != Some((*octa, *pages)) {
            return Some(*a);
        }
    }
    None
}

/// The first address from which another octa is found, if there is one.
fn found_otherwise(memory: &Memory) -> Option<u64> {
    for (from, next) in &NEXT {
        if found(memory, *from) != Ok(*next) {
            return Some(*from);
        }
    }
    None
}

#[test]
fn joins_tetras(rt: HostRuntime) {
    let mut memory = Memory::new(rt.alloc());
    assert_eq!(rt; seen(&memory, 0), Some((0, 0, None)));
    assert_eq!(rt;
        (joined_otherwise(&mut memory), found_otherwise(&memory)),
        (None, None)
    );
    // a fetch from within the low half
    assert_eq!(rt; (memory.tetra(0x106), memory.byte(0x107)), (0x0701, 0x01));
}

#[test]
fn stores_parts(rt: HostRuntime) {
    let mut memory = Memory::new(rt.alloc());
    for (a, part, x, octa, pages) in &STORED {
        assert_eq!(rt;
            stored(&mut memory, *a, *part, *x),
            Some((*octa, *pages)),
            "at {a}"
        );
    }
}

/// Puts a byte at an address, and gives what is there then.
fn put_and_read<S: Space>(space: &mut S, a: u64, b: u8) -> Result<(u8, u64), SpaceFault> {
    space.put_byte(a, b)?;
    Ok((space.byte_at(a)?, space.octa_at(a)?))
}

/// Where a byte is put, the byte, and what is there then.
static PUT: [(u64, u8, Result<(u8, u64), SpaceFault>); 3] = [
    (0x6000_0000_0000_0006, 0xab, Ok((0xab, 0xab00))),
    ((1 << 63) - 1, 7, Ok((7, 7))),
    (1 << 63, 7, Err(SpaceFault::Negative)),
];

#[test]
fn is_a_space(rt: HostRuntime) {
    let mut memory = Memory::new(rt.alloc());
    for (a, b, answer) in &PUT {
        assert_eq!(rt; put_and_read(&mut memory, *a, *b), *answer, "at {a}");
    }
    assert_eq!(rt; memory.pages(), 2);
}

/// A memory with as many pages as there may be, all of zeros.
fn full(alloc: Global) -> Result<Memory, MemFault> {
    let mut memory = Memory::new(alloc);
    for page in 0..65536 {
        memory.store(page * 4096 + 5, 0)?;
    }
    Ok(memory)
}

/// What a memory answers where an octa and a byte are stored on a page that is not there.
fn stored_beyond(memory: &mut Memory) -> (Result<(), MemFault>, Result<(), SpaceFault>) {
    (memory.store(1 << 62, 1), memory.put_byte(1 << 62, 1))
}

/// Whether a full memory refuses those stores, and is as before.
fn refuses_beyond(memory: &mut Memory) -> bool {
    stored_beyond(memory) == (Err(MemFault::PagesFull), Err(SpaceFault::PagesFull))
        && seen(memory, 1 << 62) == Some((0, 65536, None))
}

/// Whether a page that is there is not refused, and its octa is found over all pages of zeros.
fn joins_on_a_page(memory: &mut Memory) -> bool {
    joined(memory, 65535 * 4096 + 4, 1) == Some((1, 65536))
        && seen(memory, 0) == Some((0, 65536, Some((65535 * 4096, 1))))
}

/// What a full memory does of both.
fn full_does(alloc: Global) -> Result<(bool, bool), MemFault> {
    let mut memory = full(alloc)?;
    Ok((refuses_beyond(&mut memory), joins_on_a_page(&mut memory)))
}

#[test]
fn refuses_one_page_too_many(rt: HostRuntime) {
    assert_eq!(rt; full_does(rt.alloc()), Ok((true, true)));
    assert_eq!(rt;
        (MemFault::PagesFull.number(), MemFault::OutOfMemory.number()),
        (90, 0)
    );
}

/// Three octas of 1, 2 and 3 on pages of their own, the first of which is that of the last instruction.
fn three_pages(rt: &impl Abort, memory: &mut Memory) {
    memory.store(0x100, 1).expect(rt, "memory");
    memory.store(0x2000_0000_0000_0008, 2).expect(rt, "memory");
    memory.store(0x7fff_ffff_ffff_fff8, 3).expect(rt, "memory");
    let _tetra = memory.tetra(0x104);
    memory.keep_code();
}

/// What the three octas are, which of the pages are there, and how many.
fn three(memory: &Memory) -> ([u64; 3], [bool; 3], u32) {
    (
        [
            memory.load(0x100),
            memory.load(0x2000_0000_0000_0008),
            memory.load(0x7fff_ffff_ffff_fff8),
        ],
        [
            memory.has_page(0x1ff),
            memory.has_page(0x2000_0000_0000_0fff),
            memory.has_page(0x7fff_ffff_ffff_f000),
        ],
        memory.pages(),
    )
}

/// What is left once the page of an address below 2^63 is taken away.
fn left(memory: &mut Memory, a: u64) -> Option<([u64; 3], [bool; 3], u32)> {
    if a >= 1 << 63 {
        return None;
    }
    memory.drop_page(a);
    Some(three(memory))
}

#[test]
fn drops_pages(rt: HostRuntime) {
    let mut memory = Memory::new(rt.alloc());
    three_pages(&rt, &mut memory);
    assert_eq!(rt;
        (three(&memory), memory.near_tetra(0x104)),
        (([1, 2, 3], [true; 3], 3), Some(1))
    );
    // the first page goes, and the last one is in its place
    assert_eq!(rt;
        left(&mut memory, 0xfff),
        Some(([0, 2, 3], [false, true, true], 2))
    );
    assert_eq!(rt; (memory.near_tetra(0x104), memory.tetra(0x104)), (None, 0));
    // a page that is not there
    assert_eq!(rt;
        left(&mut memory, 0x4000_0000_0000_0000),
        Some(([0, 2, 3], [false, true, true], 2))
    );
    assert_eq!(rt;
        left(&mut memory, 0x7fff_ffff_ffff_ffff),
        Some(([0, 2, 0], [false, true, false], 1))
    );
    assert_eq!(rt;
        left(&mut memory, 0x2000_0000_0000_0000),
        Some(([0; 3], [false; 3], 0))
    );
}
