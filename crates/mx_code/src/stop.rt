//! Why an instruction is not carried out.

ghost use Rattle.std.specs.Prelude.{◌≡◌};
ghost use Rattle.mx_code.specs.Told.{answer_in};

use crate::reason::Reason;

/// Why an instruction is not carried out: it stops the machine, or there is no memory for it.
#[derive(Clone, Copy)]
pub enum Stop {
    /// The machine stops, in the state before the instruction.
    Stopped(Reason),
    /// There is no memory for a page or for the register stack.
    OutOfMemory,
}

/// What a call answers, in two bytes: it comes back in registers, where the `Result` would be in
/// memory.
#[derive(Clone, Copy)]
pub enum Told {
    /// `Ok`: the instruction was carried out.
    Made,
    /// `Stop::Stopped`.
    Stopped(Reason),
    /// `Stop::OutOfMemory`.
    OutOfMemory,
}

impl Told {
    /// An answer as it is told.
    #[inline(always)]
    pub fn from_result(answer: Result<(), Stop>) -> Told
        ensures { answer_in result ≡ answer }
    {
        match answer {
            Ok(()) => Told::Made,
            Err(Stop::Stopped(reason)) => Told::Stopped(reason),
            Err(Stop::OutOfMemory) => Told::OutOfMemory,
        }
    }

    /// The answer that is told.
    #[inline(always)]
    pub fn into_result(self) -> Result<(), Stop>
        ensures { result ≡ answer_in self }
    {
        match self {
            Told::Made => Ok(()),
            Told::Stopped(reason) => Err(Stop::Stopped(reason)),
            Told::OutOfMemory => Err(Stop::OutOfMemory),
        }
    }
}
