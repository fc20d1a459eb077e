//! What a line of the console asks for.

use mx_text::Form;

/// What a line shows or changes. A number is None where it is 2^64 or more.
#[derive(Clone, Copy, Debug, PartialEq, Eq)]
pub enum Subject {
    /// `$n`: the register of this number.
    Register(Option<u64>),
    /// `gn`: the same, where it is global.
    Global(Option<u64>),
    /// `rNAME`: the special register with this code; None where no register has the name.
    Special(Option<u8>),
    /// `Mx`: the octa that holds this address.
    Memory(u64),
}

/// Where a run breaks at a tetra: `r` after a step that read it, `w` after one that wrote it, and `x` before it is
/// carried out.
#[derive(Clone, Copy, Debug, PartialEq, Eq)]
pub struct Breaks {
    pub r: bool,
    pub w: bool,
    pub x: bool,
}

/// What a line asks for. A number is None where it is not in range: n from 0 to 2^64 - 1, and -n from
/// -2^63 to 0.
#[derive(Clone, Copy, Debug, PartialEq, Eq)]
pub enum Command {
    /// The empty line, or `n`: one step.
    Step,
    /// `c`: go on.
    Continue,
    /// `q`: the end of the session.
    Quit,
    /// `s`: the line on the state.
    State,
    /// What a subject has, in a form.
    Show(Subject, Form),
    /// `=v`: a subject gets a value.
    Change(Subject, Option<u64>),
    /// `+n`: the n octas after the one that was shown last.
    ShowMore(Option<u64>, Form),
    /// `@x`: the address of the next instruction.
    GoTo(u64),
    /// `b` with letters: the breaks at the tetra that holds an address.
    Break(Breaks, u64),
    /// `tx`: each step that carries out the tetra at this address is traced from now on.
    Trace(u64),
    /// `ux`: the steps that carry out the tetra at this address are traced no more.
    Untrace(u64),
    /// `B`: all tetras with flags.
    Flags,
}
