//! The source that `gen` makes, and the line that tells what came of it.

ghost use Rattle.std.specs.Prelude.{◌≡◌, ◌≤◌, ◌<◌, ◌+◌, ◌++◌, ◌^◌, OnOk, IfOk};
ghost use Rattle.mx_gen.specs.Generator as spec;

use mx_text::add_decimal;
use mx_word::{Bytes, NoMemory};
use std::alloc::Global;

/// The number after another of those that seem random.
fn next_random(x: u64) -> u64
    ensures { result ≡ spec.next_random x }
{
    x.wrapping_mul(6364136223846793005)
        .wrapping_add(1442695040888963407)
}

/// Adds block i, whose number seems random.
fn add_block(text: &mut Bytes, i: u64, x: u64) -> Result<(), NoMemory>
    requires { i < 2 ^ 63 }
    ensures { OnOk result (text.new ≡ text.old ++ spec.block_with i (spec.depth x) (spec.increment x)) }
{
    text.extend(b"B")?;
    add_decimal(text, i)?;
    text.extend(b" SETL $2,")?;
    add_decimal(text, x >> 55)?;
    text.extend(b"\n PUSHJ $1,Rec\n ADDU $0,$0,$1\n BOD $0,B")?;
    add_decimal(text, i + 1)?;
    text.extend(b"\n INCL $0,")?;
    add_decimal(text, x % 65536)?;
    text.extend(b"\n")
}

/// Adds the blocks.
#[tactic(auto, using(crate::proofs::Generated::blocking))]
fn add_blocks(text: &mut Bytes, n: u64) -> Result<(), NoMemory>
    requires { n ≤ 10000 }
    ensures { OnOk result (text.new ≡ text.old ++ spec.blocks n) }
{
    let mut x = 0u64;
    for turn in 0..n {
        x = next_random(x);
        add_block(text, turn + 1, x)?;
    }
    Ok(())
}

/// The source with this many blocks.
#[tactic(auto, unfolding(mx_gen::specs::Generator::generated))]
pub fn generate_source(alloc: Global, n: u64) -> Result<Bytes, NoMemory>
    requires { n ≤ 10000 }
    ensures { IfOk result (λ text. text ≡ spec.generated n) }
{
    let mut text = Bytes::copy(alloc, b" LOC #100\nMain SETL $0,0\n")?;
    add_blocks(&mut text, n)?;
    text.extend(b"B")?;
    add_decimal(&mut text, n + 1)?;
    text.extend(b" SET $255,$0\n TRAP 0,Halt,0\n")?;
    text.extend(
        b"Rec BZ $0,1F\n GET $1,rJ\n SUBU $3,$0,1\n PUSHJ $2,Rec\n ADDU $0,$0,$2\n PUT rJ,$1\n POP 1,0\n1H POP 1,0\n",
    )?;
    Ok(text)
}

/// The line that tells the blocks, the bytes of the source, the steps that were made, and $255 at the
/// end.
pub fn format_summary(
    alloc: Global,
    blocks: u64,
    size: u64,
    steps: u64,
    sum: u64,
) -> Result<Bytes, NoMemory>
    ensures { IfOk result (λ text. text ≡ spec.summary blocks size steps sum) }
{
    let mut text = Bytes::copy(alloc, b"blocks ")?;
    add_decimal(&mut text, blocks)?;
    text.extend(b" bytes ")?;
    add_decimal(&mut text, size)?;
    text.extend(b" steps ")?;
    add_decimal(&mut text, steps)?;
    text.extend(b" sum ")?;
    add_decimal(&mut text, sum)?;
    text.extend(b"\n")?;
    Ok(text)
}
