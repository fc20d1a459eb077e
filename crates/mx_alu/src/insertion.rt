//! What RESUME 0 comes to.

ghost use Rattle.std.specs.Prelude.{◌≡◌, ◌<◌, ◌^◌};
ghost use Rattle.mx_alu.specs.Insertions as spec;

/// How an inserted instruction is performed: as if it were at its address; with rY and rZ as its
/// operands; or not itself, but its register X gets rZ.
#[derive(Clone, Copy, Debug, PartialEq, Eq)]
pub enum Kind {
    Again,
    Continue,
    Set,
}

/// What RESUME 0 comes to: it goes to an address; it performs an inserted instruction, with its kind,
/// the address at which it counts, and its tetra; it is illegal; or it is left out.
#[derive(Clone, Copy, Debug, PartialEq, Eq)]
pub enum Insert {
    Back(u64),
    Perform { kind: Kind, at: u64, word: u32 },
    Illegal,
    LeftOut,
}

/// The code of TRAP.
const TRAP: u8 = 0x00;

/// The code of RESUME.
const RESUME: u8 = 0xf9;

/// What RESUME 0 comes to where rX is rx, rW is rw, and rL and rG are l and g. With the top bit of rX set it goes to
/// rW, lowered to a multiple of 4. Else it performs the low tetra of rX, one tetra before that address modulo 2^64;
/// the top byte of rX is 0, 1 or 2 for the kinds in their order.
///
/// It is illegal with another top byte; to insert RESUME; to continue a code that has operands of its own, which are
/// #40 to #5f (branches), #80 to #bf (loads and stores, and among them GO, PUSHGO, PRELD, PREGO, PREST, SYNCD and
/// SYNCID) and #f0 to #ff; and to continue or set with an X that is neither local nor global. What is then left out:
/// TRAP again or continued, and a register set with bits 40 to 47 of rX not all 0.
pub fn inserted(rx: u64, rw: u64, l: u8, g: u8) -> Insert
    ensures { result ≡ spec.insertion rx rw l g }
{
    if rx >= 1 << 63 {
        return Insert::Back(tetra_address(rw));
    }
    let word = (rx & 0xffff_ffff) as u32;
    match kind_of(rx) {
        None => Insert::Illegal,
        Some(kind) if is_illegal(kind, word, l, g) => Insert::Illegal,
        Some(kind) if is_left_out(kind, word, rx) => Insert::LeftOut,
        Some(kind) => Insert::Perform {
            kind,
            at: insertion_place(rw),
            word,
        },
    }
}

/// What the top byte of rX asks for.
fn kind_of(rx: u64) -> Option<Kind>
    ensures { result ≡ spec.kind_of rx }
{
    match rx >> 56 {
        0 => Some(Kind::Again),
        1 => Some(Kind::Continue),
        2 => Some(Kind::Set),
        _ => None,
    }
}

/// The address of the tetra that holds the byte at an address.
fn tetra_address(a: u64) -> u64
    ensures { result ≡ spec.tetra_address a }
{
    a - a % 4
}

/// The place at which an inserted instruction counts: one tetra before the one at rW,
/// modulo 2^64.
fn insertion_place(rw: u64) -> u64
    ensures { result ≡ spec.insertion_place rw }
{
    tetra_address(rw).wrapping_sub(4)
}

/// Whether the insertion of a tetra is illegal.
fn is_illegal(kind: Kind, word: u32, l: u8, g: u8) -> bool
    ensures { result ≡ spec.is_illegal kind word l g }
{
    let code = code_in(word);
    match kind {
        Kind::Again => code == RESUME,
        Kind::Continue => code == RESUME || has_own_operands(code) || is_marginal(x_in(word), l, g),
        Kind::Set => code == RESUME || is_marginal(x_in(word), l, g),
    }
}

/// Whether it is left out: a trap is not performed again, and no register is set with events.
fn is_left_out(kind: Kind, word: u32, rx: u64) -> bool
    ensures { result ≡ spec.is_left_out kind word (spec.event_byte rx) }
{
    match kind {
        Kind::Again | Kind::Continue => code_in(word) == TRAP,
        Kind::Set => rx >> 40 & 0xff != 0,
    }
}

/// The code of a tetra.
fn code_in(word: u32) -> u8
    ensures { result ≡ spec.code_in word }
{
    (word >> 24) as u8
}

/// The byte X of a tetra.
fn x_in(word: u32) -> u8
    ensures { result ≡ spec.x_in word }
{
    (word >> 16 & 0xff) as u8
}

/// Whether rY and rZ can't be the operands of a code: branches, loads and stores, and from #f0 on.
fn has_own_operands(code: u8) -> bool
    ensures { result ≡ spec.has_own_operands code }
{
    matches!(code, 0x40..=0x5f | 0x80..=0xbf | 0xf0..)
}

/// Whether $x is neither local nor global.
fn is_marginal(x: u8, l: u8, g: u8) -> bool
    ensures { result ≡ spec.is_marginal x l g }
{
    l <= x && x < g
}
