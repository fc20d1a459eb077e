//! Small programs, and processors that are about to begin them. The tetras are worked out by hand.

ghost use Rattle.std.specs.Prelude.{◌≡◌, ◌≤◌};
ghost use Rattle.mx_multi.specs.Joint.{processor_count};

use mx_host::MemHost;
use mx_load::{Image, Loader};
use mx_mmo::{Item, Octas};
use mx_multi::Multi;
use mx_ring::RingSize;
use mx_word::Symbols;
use std::alloc::Global;
use std::process::Abort;

/// The first address of Data_Segment, which is in $254.
pub const DATA: u64 = 0x2000_0000_0000_0000;

/// A program: its tetras from #100 on, and the address of Main.
pub type Program = (&'static [u32], u64);

/// Adds 1 to the octa at Data_Segment: LDO $3; PUT rP,$3; ADDU $4,$3,1; CSWAP $4, and BZ $4 back to the first where another
/// was faster; TRAP 0,Halt,0.
pub static COUNTS: Program = (
    &[
        0x8d03_fe00,
        0xf617_0003,
        0x2304_0301,
        0x9504_fe00,
        0x4304_fffc,
        0,
    ],
    0x100,
);

/// BNZ $1 past FADD, which this machine does not have, to JMP to itself.
pub static STOPS: Program = (&[0x4a01_0002, 0x0400_0000, 0xf000_0000], 0x100);

/// SLU $2,$1,3; STO $1,$254,$2; TRAP 0,Halt,0: each has an octa of its own.
pub static STORES: Program = (&[0x3b02_0103, 0xac01_fe02, 0], 0x100);

/// SET $255,$0; TRAP 0,Halt,0.
pub static TELLS_COUNT: Program = (&[0xc1ff_0000, 0], 0x100);

/// SETH $2,#6000; STO $1,$2,0; LDO $255,$2,0; TRAP 0,Halt,0: the first octa of the stack area.
pub static IN_AREA: Program = (&[0xe002_6000, 0xad01_0200, 0x8dff_0200, 0], 0x100);

/// BNZ $1 to the last one; GETA $3 of the last one; STT $2,$3,0, which makes it TRAP 0,Halt,0; TRAP 0,Halt,0; JMP to itself.
pub static CHANGES: Program = (
    &[0x4a01_0004, 0xf403_0003, 0xa902_0300, 0, 0xf000_0000],
    0x100,
);

/// The text of two letters and a newline; Main is GETA $255 of it; TRAP 0,Fputs,StdOut; TRAP 0,Halt,0.
pub static PRINTS: Program = (&[0x6869_0a00, 0xf5ff_ffff, 0x0000_0701, 0], 0x104);

/// At #100 the octas of a Fopen of the file `f` for writing, and the texts `x` and `y`; Main, at #124, is BNZ $1 past
/// GETA $255 of those octas and TRAP 0,Fopen,3, which are for processor 0; GETA $2 of the texts; 8ADDU $255,$1,$2;
/// TRAP 0,Fputs,3; TRAP 0,Halt,0.
pub static WRITES: Program = (
    &[
        0,
        0x120,
        0,
        1,
        0x7800_0000,
        0,
        0x7900_0000,
        0,
        0x6600_0000,
        0x4a01_0003,
        0xf5ff_fff6,
        0x0000_0103,
        0xf502_fff8,
        0x2cff_0102,
        0x0000_0703,
        0,
    ],
    0x124,
);

/// The image of a program.
fn image(rt: &impl Abort, alloc: Global, program: &Program) -> Image {
    let mut loader = Loader::new(alloc);
    loader.take(&Item::Loc(0x100)).expect(rt, "memory");
    for tetra in program.0 {
        loader.take(&Item::Load(*tetra)).expect(rt, "memory");
    }
    let mut values = Octas::new(alloc);
    values.push(DATA).expect(rt, "memory");
    values.push(program.1).expect(rt, "memory");
    loader
        .take(&Item::Post { g: 254, values })
        .expect(rt, "memory");
    loader.finish(Symbols::new(alloc)).expect(rt, "an image")
}

/// This many processors about to begin a program, with rings of this many registers.
pub fn processors(rt: &impl Abort, alloc: Global, program: &Program, count: u8, ring: u32) -> Multi
    requires least { 1 ≤ count }
    requires most { count ≤ 8 }
    ensures { processor_count result ≡ count }
{
    let size = RingSize::of(ring).expect(rt, "a power of two");
    Multi::start(alloc, image(rt, alloc, program), count, size).expect(rt, "memory")
}

/// A host without input and files.
pub fn host(rt: &impl Abort, alloc: Global) -> MemHost {
    MemHost::new(alloc, Vec::new(alloc), Vec::new(alloc)).expect(rt, "memory")
}
