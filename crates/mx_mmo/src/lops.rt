//! The lopcodes.

ghost use Rattle.std.specs.Prelude.{◌≡◌};
ghost use Rattle.mx_mmo.specs.Reading as spec;

/// What a tetra that begins with #98 says, by its second byte.
#[derive(Clone, Copy, Debug, PartialEq, Eq)]
pub(crate) enum Lop {
    /// The next tetra is loaded, whatever it is.
    Quote,
    /// Lambda becomes an address.
    Loc,
    /// Lambda grows.
    Skip,
    /// Lambda is joined, as an octa, at an address.
    Fixo,
    /// A number is joined this many tetras before lambda.
    Fixr,
    /// A tetra is joined at a distance that it gives.
    Fixrx,
    /// A source file is selected.
    File,
    /// The line of the source.
    Line,
    /// Data of another program.
    Spec,
    /// The beginning of an object.
    Pre,
    /// The global registers, which end the items that set up memory.
    Post,
    /// The beginning of the symbol trie.
    Stab,
    /// The end of an object.
    End,
}

/// The lopcode of a code byte; nothing for a code above #0c.
pub(crate) fn lop_of(code: u8) -> Option<Lop>
    ensures { result ≡ spec.lop_of code }
{
    match code {
        0 => Some(Lop::Quote),
        1 => Some(Lop::Loc),
        2 => Some(Lop::Skip),
        3 => Some(Lop::Fixo),
        4 => Some(Lop::Fixr),
        5 => Some(Lop::Fixrx),
        6 => Some(Lop::File),
        7 => Some(Lop::Line),
        8 => Some(Lop::Spec),
        9 => Some(Lop::Pre),
        10 => Some(Lop::Post),
        11 => Some(Lop::Stab),
        12 => Some(Lop::End),
        _ => None,
    }
}
