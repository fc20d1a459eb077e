//! Lines that the assembler takes, and the end of a source, where only memory that runs out is an error.

ghost use Rattle.std.specs.Prelude.{◌≡◌, ◌≢◌, [], IfOk, OnOk};
ghost use Rattle.std.specs.Result.{is_ok};
ghost use Rattle.mx_asm.specs.Faults.{no_memory};
ghost use Rattle.mx_asm.specs.OnePass.{end_following, line_following};

use mx_asm::{AsmFault, Assembler, Refused};
use mx_mmo::Items;
use mx_word::{Bytes, NoMemory};
use std::alloc::Global;

/// A refusal, unless there was no memory.
pub fn separate_no_memory(refused: Refused) -> Result<Refused, NoMemory>
    ensures value { IfOk result (λ told. told ≡ refused) }
    ensures memory { OnOk result (refused ≢ no_memory) }
{
    match refused.fault {
        AsmFault::OutOfMemory => Err(NoMemory),
        _ => Ok(refused),
    }
}

/// Takes a line, and says whether it was taken and not refused.
pub fn take_line(
    assembler: &mut Assembler,
    items: &mut Items,
    line: &[u8],
) -> Result<bool, NoMemory>
    ensures taken { OnOk result ((items.new, assembler.new) ≡ line_following items.old assembler.old line.now) }
    ensures open { IfOk result (λ is. is ≡ is_ok assembler.new) }
{
    match assembler.line(line, items) {
        Ok(()) => Ok(true),
        Err(refused) => {
            separate_no_memory(refused)?;
            Ok(false)
        }
    }
}

/// The end of a source: its trie or its refusal.
pub fn finish_source(
    alloc: Global,
    assembler: &mut Assembler,
) -> Result<Result<Bytes, Refused>, NoMemory>
    ensures { IfOk result (λ ended. ended ≡ (end_following [] assembler.old).1) }
{
    let mut items = Items::new(alloc);
    match assembler.finish(&mut items) {
        Ok(trie) => Ok(Ok(trie)),
        Err(refused) => Ok(Err(separate_no_memory(refused)?)),
    }
}
