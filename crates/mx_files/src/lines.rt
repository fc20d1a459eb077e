//! Lines on the tool's standard output.

ghost use Rattle.mx_files.specs.Clauses.{DoesPart};
ghost use Rattle.mx_files.specs.FilePlans as plans;

use crate::pieces::put_piece;
use mx_host::Host;
use mx_outcome::Outcome;

/// The slot of the tool's standard output.
const OUTPUT_SLOT: u16 = 259;

/// Writes a line by one write, which ends the work if it is not done.
pub fn write_line<H: Host>(host: &mut H, line: &[u8]) -> Result<(), Outcome>
    ensures { DoesPart H.told H.faults host.old host.new result (plans.line_plan line.now) }
{
    put_piece(host, OUTPUT_SLOT, line)
}
