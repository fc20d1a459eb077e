//! A program that is launched.

ghost use Rattle.std.specs.Prelude.{◌≡◌};

use crate::breaks::Mark;
use crate::driving::step_at;
use crate::outputs::Told;
use mx_adapter::Wishes;
use mx_debug::Session as Debugged;
use mx_panes::Scene;
use mx_replay::Frame;
use mx_run::End;
use mx_word::{Bytes, Sequence};
use std::alloc::Global;

/// A break or a watch that the editor has set, by its number, and the request that has set it.
#[derive(Clone, Copy)]
pub(crate) struct Marked {
    pub(crate) number: u32,
    pub(crate) mark: Mark,
}

/// The calls that have not returned at a step.
#[derive(Drop)]
pub(crate) struct Calls {
    pub(crate) at: u64,
    pub(crate) frames: Sequence<Frame>,
}

/// A program with its run, the path under which the editor knows it, what was told of its output, and whether the editor was told that
/// the run is done.
#[derive(Drop)]
pub(crate) struct Loaded {
    pub(crate) alloc: Global,
    pub(crate) debugged: Debugged,
    pub(crate) path: Bytes,
    pub(crate) wishes: Wishes,
    pub(crate) told: Told,
    pub(crate) marks: Sequence<Marked>,
    pub(crate) calls: Option<Calls>,
    pub(crate) is_done: bool,
}

impl Loaded {
    /// A program at its start.
    pub(crate) fn new(alloc: Global, debugged: Debugged, path: Bytes, wishes: Wishes) -> Loaded {
        Loaded {
            alloc,
            debugged,
            path,
            wishes,
            told: Told {
                output: 0,
                errors: 0,
            },
            marks: Sequence::new(alloc),
            calls: None,
            is_done: false,
        }
    }

    /// The step that is shown, as the editor is shown it.
    pub(crate) fn scene(&self) -> Scene<'_> {
        Scene {
            alloc: self.alloc,
            book: &self.debugged.known.book,
            machine: self.debugged.replay.machine(),
            path: self.path.as_slice(),
        }
    }

    /// The step that is shown.
    pub(crate) fn step_number(&self) -> u64
        ensures { result ≡ self.now.debugged.at }
    {
        step_at(&self.debugged)
    }

    /// How the run has ended at the step that is shown, or that it goes on.
    pub(crate) fn end(&self) -> End {
        self.debugged.replay.end()
    }

    /// Whether the run has ended at the step that is shown.
    pub(crate) fn has_ended(&self) -> bool {
        !matches!(self.end(), End::Spent)
    }
}
