//! The words that show values.

ghost use Rattle.std.specs.Prelude.{◌≡◌};

use crate::known::Known;
use crate::session::{Again, Session};
use crate::setting::add_stops;
use crate::telling::add_said;
use mx_ask::{Unit, add_unnamed};
use mx_pieces::add_ring;
use mx_places::{MEMORY_END, parse_examined, parse_examined_units};
use mx_replay::Replay;
use mx_tell::{MOST_UNITS, add_memory, add_output, add_registers, add_symbols};
use mx_word::{Bytes, NoMemory};

/// Obeys `info output`.
fn show_output(out: &mut Bytes, replay: &Replay) -> Result<(), NoMemory> {
    let host = replay.host();
    if host.output().is_empty() && host.errors().is_empty() {
        return add_said(out, b"nothing has been written yet");
    }
    add_output(out, host.output())?;
    add_output(out, host.errors())
}

/// Obeys `info`.
pub(crate) fn info(
    out: &mut Bytes,
    replay: &Replay,
    known: &Known,
    rest: &[u8],
) -> Result<(), NoMemory> {
    match rest {
        b"breaks" | b"break" | b"breakpoints" | b"b" => add_stops(out, known, replay.machine()),
        b"output" | b"o" => show_output(out, replay),
        b"registers" | b"r" => add_registers(out, &known.book, replay.machine(), false),
        b"registers all" | b"r all" => add_registers(out, &known.book, replay.machine(), true),
        b"ring" => add_ring(out, replay.machine(), known.ring),
        b"symbols" | b"s" => add_symbols(out, &known.book),
        _ => add_said(
            out,
            b"? info takes breaks, output, registers, registers all, ring or symbols",
        ),
    }
}

impl Session {
    /// Shows this many units of memory from an address.
    fn examine(
        &mut self,
        from: u64,
        count: u64,
        unit: Unit,
        out: &mut Bytes,
    ) -> Result<(), NoMemory>
        ensures { self.new ≡ self.old }
    {
        let machine = self.replay.machine();
        let alloc = self.known.alloc;
        let next = add_memory(alloc, out, &self.known.book, machine, from, count, unit)?;
        if count > MOST_UNITS {
            add_said(out, b"at most 1024")?;
        }
        self.again = Again {
            examined: next,
            count,
            unit,
            ..self.again
        };
        Ok(())
    }

    /// Obeys `x`.
    pub(crate) fn obey_examine(
        &mut self,
        letters: &[u8],
        rest: &[u8],
        out: &mut Bytes,
    ) -> Result<(), NoMemory>
        ensures { self.new ≡ self.old }
    {
        let Some((count, unit)) = parse_examined_units(letters) else {
            return add_said(out, b"? no such units: x/NU, where U is o, d, t, w, b or s");
        };
        let machine = self.replay.machine();
        match parse_examined(&self.known.book, machine, self.again.examined, rest) {
            Some(from) => self.examine(from, count, unit, out),
            None => add_unnamed(
                out,
                rest,
                b"? no memory there: give NAME[+N], $K[+N] or #ADDRESS",
            ),
        }
    }

    /// Shows the units after those that were shown.
    pub(crate) fn examine_more(&mut self, out: &mut Bytes) -> Result<(), NoMemory>
        ensures { self.new ≡ self.old }
    {
        let again = self.again;
        if again.examined < MEMORY_END {
            self.examine(again.examined, again.count, again.unit, out)
        } else {
            add_said(out, b"? no memory there")
        }
    }
}
