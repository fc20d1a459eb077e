//! Steps with a mark, searched for turn after turn.

ghost use Rattle.std.specs.Prelude.{◌≡◌, ◌≤◌, IfOk};
ghost use Rattle.mx_replay.specs.Keeping.{AreSteps};
ghost use Rattle.mx_replay.specs.Marks.{mark_of};
ghost use Rattle.mx_replay.specs.Searches.{FindsNext, IsLastAfter};
ghost use Rattle.mx_replay.specs.Visits.{IsStep};
ghost use Rattle.mx_replay.specs.declared.program.Program.{Program};

use crate::kept::Kept;
use crate::marks::Sought;
use crate::turns::turn_marked;
use crate::visit::{Visit, has_more};
use mx_word::NoMemory;
use std::alloc::Global;

/// Goes on to the next step that has a mark, or as far as step `until`, and keeps steps on the way. Out of memory the visit
/// is at no step of the run.
pub(crate) fn find_next(
    alloc: Global,
    visit: &mut Visit,
    kept: &mut Kept,
    sought: Sought<'_>,
    until: u64,
) -> Result<Option<u64>, NoMemory>
    ensures found { IfOk result (λ found.
        (p : Program) → IsStep p visit.old → FindsNext p (mark_of sought.entry) until visit.old visit.new found) }
    ensures kept { (p : Program) → IsStep p visit.old → AreSteps p kept.old → AreSteps p kept.new }
{
    while has_more(visit, until) {
        if turn_marked(alloc, visit, sought)? {
            return Ok(Some(visit.at));
        }
        kept.keep(visit);
    }
    Ok(None)
}

/// The last step that has a mark, after the one that is visited, and up to step `until`. Out of memory the visit is at no
/// step of the run.
pub(crate) fn find_last(
    alloc: Global,
    visit: &mut Visit,
    sought: Sought<'_>,
    until: u64,
) -> Result<Option<u64>, NoMemory>
    ensures { IfOk result (λ found. (p : Program) → IsStep p visit.old → visit.old.at ≤ until
        → IsLastAfter p (mark_of sought.entry) visit.old.at until found) }
{
    let mut last = None;
    while has_more(visit, until) {
        if turn_marked(alloc, visit, sought)? {
            last = Some(visit.at);
        }
    }
    Ok(last)
}
