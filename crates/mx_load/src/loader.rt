//! Loading items one after another.

ghost use Rattle.std.specs.Prelude.{◌≡◌, ◌≢◌, Ok, Err, IfOk, IfErr};
ghost use Rattle.mx_mmo.specs.Meaning.{nothing};
ghost use Rattle.mx_mmo.specs.Valid.{Fits};
ghost use Rattle.mx_word.specs.Results.{map_ok};
ghost use Rattle.mx_load.specs.Kept.{image_of};
ghost use Rattle.mx_load.specs.Status.{status, after, answer, image_in};

use crate::progress::Progress;
use crate::{Image, LoadFault};
use mx_mmo::Item;
use mx_word::Symbols;
use std::alloc::Global;
use std::marker::Model;

/// Takes the items of an object one after another, and gives the image that they set up.
///
/// After a fault, out of memory among them, each call answers that fault again.
#[derive(Drop)]
pub struct Loader {
    progress: Progress,
    fault: Option<LoadFault>,
}

impl Model for Loader {
    ghost use Rattle.mx_load.specs.Status.{Held};

    ghost Value = { Held };

    ghost view = { λ l. record { progress = l.progress; fault = l.fault } };
}

impl Loader {
    /// A loader that took no item. It takes no memory.
    #[tactic(auto, unfolding(crate::specs::Status::status))]
    pub fn new(alloc: Global) -> Loader
        ensures { status result ≡ Ok nothing }
    {
        Loader {
            progress: Progress::new(alloc),
            fault: None,
        }
    }

    /// Takes the next item of an object. Its numbers fit their fields, as those of each item that a reader gives
    /// do.
    ///
    /// Errors: `PagesFull`, `BadPlace` and `NoFile` where the items so far have no meaning for that reason; out
    /// of memory; the fault that was answered before.
    #[tactic(auto, unfolding(crate::specs::Status::status))]
    pub fn take(&mut self, item: &Item) -> Result<(), LoadFault>
        requires { Fits item.now }
        ensures meaning { result ≢ Err LoadFault.OutOfMemory →
            status self.new ≡ after (status self.old) item.now }
        ensures answer { result ≡ answer (status self.new) }
        ensures fault_again { IfErr (status self.old) (λ fault. status self.new ≡ Err fault) }
    {
        if let Some(fault) = self.fault {
            return Err(fault);
        }
        match self.progress.take(item) {
            Ok(()) => Ok(()),
            Err(fault) => {
                self.fault = Some(fault);
                Err(fault)
            }
        }
    }

    /// The image that the items set up, with these symbols.
    ///
    /// Errors: the fault that `take` answered.
    #[tactic(auto, unfolding(crate::specs::Status::status))]
    pub fn finish(self, symbols: Symbols) -> Result<Image, LoadFault>
        ensures meaning { map_ok image_of result ≡ image_in (status self) }
        ensures symbols { IfOk result (λ image. image.symbols ≡ symbols) }
    {
        match self.fault {
            Some(fault) => Err(fault),
            None => Ok(self.progress.image.with_symbols(symbols)),
        }
    }
}
