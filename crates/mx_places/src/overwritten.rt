//! An instruction that the program itself has changed.

ghost use Rattle.std.specs.Prelude.{◌≡◌};

use mx_replay::Replay;
use mx_stops::{Place, value_at};
use mx_text::{add_decimal, tetra_hex};
use mx_word::{Bytes, NoMemory};

/// The tetra that an address has in the octa that holds it.
fn tetra_in(octa: u64, a: u64) -> u32 {
    if a % 8 < 4 {
        (octa >> 32) as u32
    } else {
        (octa % (1 << 32)) as u32
    }
}

/// Adds that the program changed the instruction that comes next, if it did.
pub fn add_overwritten(out: &mut Bytes, replay: &mut Replay) -> Result<(), NoMemory>
    ensures { replay.new ≡ replay.old }
{
    let pc = replay.machine().pc();
    let place = Place::Octa(pc);
    let now = tetra_in(value_at(replay.machine(), place), pc);
    if now == tetra_in(replay.first_value(place)?, pc) {
        return Ok(());
    }
    out.extend(b"the program changed the instruction here")?;
    if let Some(k) = replay.find_maker(place)? {
        out.extend(b" at step ")?;
        add_decimal(out, k.saturating_sub(1))?;
    }
    out.extend(b"; it is now #")?;
    out.extend(&tetra_hex(now))?;
    out.extend(b"\n")
}
