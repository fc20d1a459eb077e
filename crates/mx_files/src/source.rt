//! The file that holds a source or an object, as it is read.

ghost use Rattle.std.specs.Prelude.{◌≡◌, [], Err, IfErr, false, length};
ghost use Rattle.mx_host.specs.Keeping.{Answers, KeepsOutput};
ghost use Rattle.mx_word.specs.Results.{map_ok};
ghost use Rattle.mx_files.specs.Failing.{PartFailsOnlyBy};
ghost use Rattle.mx_files.specs.Clauses.{DoesPart};
ghost use Rattle.mx_files.specs.FilePlans as plans;
ghost use Rattle.mx_files.specs.Source as spec;

use crate::pieces::close_file;
use mx_host::{Host, HostFault, Mode, OpenFault};
use mx_outcome::Outcome;
use mx_plan::{open, read};
use mx_word::Bytes;
use std::alloc::Global;

/// The slot of the tool's input file.
const INPUT_SLOT: u16 = 256;

/// A source is read in at most this many pieces: more than 2^22 bytes.
pub const SOURCE_PIECES: u32 = 1025;

/// An object is read in at most this many pieces: more than 2^26 bytes.
pub const OBJECT_PIECES: u32 = 16385;

/// Reads one piece to the end of what was got, and says whether it was a whole one.
#[tactic(auto, using(mx_plan::proofs::Plans::plans, mx_plan::proofs::Plans::needs), unfolding(crate::specs::FilePlans::read_piece))]
fn one_piece<H: Host>(host: &mut H, got: &mut Bytes, piece: &mut [u8]) -> Result<bool, Outcome>
    requires { length piece.old ≡ 4096 }
    ensures { DoesPart H.told H.faults host.old host.new
        (map_ok (λ whole. (got.new, whole)) result) (plans.read_piece got.old) }
{
    match read(host, INPUT_SLOT, piece) {
        Ok(count) => {
            got.extend(&piece[..count])?;
            Ok(count == 4096)
        }
        Err(HostFault::OutOfMemory) => Err(Outcome::OutOfMemory),
        Err(HostFault::Failed) => Err(Outcome::HostFault),
        Err(HostFault::Misused) => Err(Outcome::HostFault),
    }
}

/// Reads the input file in pieces up to a shorter one, at most this many.
fn pieces<H: Host>(alloc: Global, host: &mut H, most: u32) -> Result<Bytes, Outcome>
    ensures { DoesPart H.told H.faults host.old host.new result (plans.read_pieces most []) }
{
    let mut got = Bytes::new(alloc);
    let mut piece = [0u8; 4096];
    for turn in 0..most {
        match one_piece(host, &mut got, &mut piece) {
            Ok(true) => {}
            Ok(false) => return Ok(got),
            Err(outcome) => return Err(outcome),
        }
    }
    Ok(got)
}

/// Reads the input file, which is open, and closes it.
fn read_open<H: Host>(alloc: Global, host: &mut H, most: u32) -> Result<Bytes, Outcome>
    ensures { DoesPart H.told H.faults host.old host.new result (plans.read_open most) }
{
    let bytes = pieces(alloc, host, most)?;
    close_file(host, INPUT_SLOT)?;
    Ok(bytes)
}

/// Opens the file of this name as the input file.
#[tactic(auto, using(mx_plan::proofs::Plans::plans), unfolding(crate::specs::FilePlans::open_input))]
fn open_input<H: Host>(host: &mut H, name: &[u8]) -> Result<(), Outcome>
    ensures { DoesPart H.told H.faults host.old host.new result (plans.open_input name.now) }
{
    match open(host, INPUT_SLOT, name, Mode::BinaryRead) {
        Ok(()) => Ok(()),
        Err(OpenFault::Absent) => Err(Outcome::NoFile),
        Err(OpenFault::Failed) => Err(Outcome::HostFault),
        Err(OpenFault::OutOfMemory) => Err(Outcome::OutOfMemory),
    }
}

/// Opens, reads and closes a file.
fn whole_file<H: Host>(
    alloc: Global,
    host: &mut H,
    name: &[u8],
    most: u32,
) -> Result<Bytes, Outcome>
    ensures { DoesPart H.told H.faults host.old host.new result (plans.file_plan most name.now) }
{
    open_input(host, name)?;
    read_open(alloc, host, most)
}

/// Reads the file of this name, in at most this many pieces of 4,096 bytes. Where there is no memory, the calls made by
/// then stay: the pieces that were read are read, and the file stays open.
pub fn read_file<H: Host>(
    alloc: Global,
    host: &mut H,
    name: &[u8],
    most: u32,
) -> Result<Bytes, Outcome>
    ensures works { DoesPart H.told H.faults host.old host.new result (plans.file_plan most name.now) }
    ensures told { Answers (H.told host.old) (H.told host.new) (Err Outcome.OutOfMemory) result
        (λ m. spec.file_bytes most name.now m) }
    ensures output { KeepsOutput (H.told host.old) (H.told host.new) }
    ensures causes { PartFailsOnlyBy H.told H.faults host.old host.new result }
{
    whole_file(alloc, host, name, most)
}
