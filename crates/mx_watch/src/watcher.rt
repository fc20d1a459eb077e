//! What a watcher is.

ghost use Rattle.std.specs.Prelude.{◌≡◌, [], ◌∷◌, IfOk, OnOk, OnErr};
ghost use Rattle.mx_watch.specs.Watching.{Watching, later, wish_if};

use mx_core::Trace;
use mx_word::{Bytes, NoMemory};

/// Whether a watcher goes on after a trace: it is told more, or nothing more.
#[derive(Clone, Copy)]
pub enum Wish {
    More,
    Full,
}

/// A watcher of a run. It is told the traces of the steps, each once and in order, up to the one at which it
/// is full. Its meaning says what its report will be after the traces that it is still told, and whether
/// it will have said by then that it is full.
pub trait Watcher: Drop {
    ghost meaning: { Self → Watching };

    /// Tells it a trace. It answers `Full` exactly where it is full after that one.
    ///
    /// Errors: out of memory; then nothing changed.
    fn tell(&mut self, t: &Trace) -> Result<Wish, NoMemory>
        ensures wish { IfOk result (λ w. w ≡ wish_if ((meaning self.old).full (t.now ∷ []))) }
        ensures ok { OnOk result (meaning self.new ≡ later t.now (meaning self.old)) }
        ensures err { OnErr result (meaning self.new ≡ meaning self.old) };

    /// Its report on what it was told so far.
    ///
    /// Errors: out of memory.
    fn summary(&self) -> Result<Bytes, NoMemory>
        ensures { IfOk result (λ b. b ≡ (meaning self.now).text []) };
}

/// What a watcher says, by whether it is full.
pub(crate) fn wish_of(full: bool) -> Wish
    ensures { result ≡ wish_if full }
{
    if full { Wish::Full } else { Wish::More }
}
