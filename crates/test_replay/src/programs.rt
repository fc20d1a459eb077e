//! Programs that are visited, recorded and shown.

ghost use Rattle.std.specs.Prelude.{◌<◌, ◌≤◌, IfSome, length};
ghost use Rattle.mx_replay.specs.Programs.{NamesFile};

use mx_begin::Form;
use mx_host::StoredFile;
use mx_replay::{Program, Replay};
use mx_word::{Bytes, Sequence};
use mx_words::{Order, read};
use std::alloc::Global;

/// Three times a byte is read and printed. Turn 1 is SET. Of the loop number i, from 0, LDA is turn 2 + 6i, Fread 3 + 6i, LDA
/// 4 + 6i, Fputs 5 + 6i, SUB 6 + 6i and PBNZ 7 + 6i. The last SET is turn 20, and Halt 21.
pub static ECHOES: &str = " LOC Data_Segment
 GREG @
Letter BYTE 0,0
Where OCTA Letter,1
 LOC #100
Main SET $1,3
Loop LDA $255,Where
 TRAP 0,Fread,StdIn
 LDA $255,Letter
 TRAP 0,Fputs,StdOut
 SUB $1,$1,1
 PBNZ $1,Loop
 SET $255,7
 TRAP 0,Halt,0
";

/// The address of `Letter`, and of `Where`.
pub const LETTER: u64 = 0x2000_0000_0000_0000;

pub const WHERE: u64 = 0x2000_0000_0000_0008;

/// The numbers 4, 3, 2 and 1 are summed up. Turn 1 is SET. Of the loop number i, from 0, LDO is turn 2 + 5i, ADD 3 + 5i, STO
/// 4 + 5i, SUB 5 + 5i and PBNZ 6 + 5i. Turn 22 is not carried out: FADD stops the machine.
pub static SUMS: &str = " LOC Data_Segment
 GREG @
Sum OCTA 0
 LOC #100
Main SET $0,4
Loop LDO $1,Sum
 ADD $1,$1,$0
 STO $1,Sum
 SUB $0,$0,1
 PBNZ $0,Loop
 FADD $0,$0,$0
";

/// The address of `Sum`.
pub const SUM: u64 = 0x2000_0000_0000_0000;

/// A call within a call. Turn 1 is SET, and 2 the call of `Outer`, at #110: GET is turn 3, and 4 the call of `Inner`, at #120: SET
/// is turn 5, and POP 6. In `Outer` PUT is turn 7, and POP 8. SET is turn 9, and Halt 10. Each call hides two octas: `$0` and the
/// number of registers.
pub static CALLS: &str = " LOC #100
Main SET $0,1
 PUSHJ $1,Outer
 SET $0,2
 TRAP 0,Halt,0
Outer GET $0,rJ
 PUSHJ $1,Inner
 PUT rJ,$0
 POP 0,0
Inner SET $0,5
 POP 0,0
";

/// It counts without an end: turn 1 is SET, 2 is ADD, 3 is JMP, and so on. At step k, from 1, `$1` has half of k.
pub static COUNTS: &str = " LOC #100
Main SET $1,0
Loop ADD $1,$1,1
 JMP Loop
";

/// Step 1 is after SET, 2 after LDO, 3 after STB, 4 after PUSHJ, 5 after POP, and 6 after Halt.
pub static SAMPLE: &str = "k IS $1
N IS 300
 LOC Data_Segment
 GREG @
Text BYTE \"ab\",#a,#ff,0
 LOC #100
Main SET k,5
 LDO $2,Text
 STB k,Text
 PUSHJ $3,Sub
 TRAP 0,Halt,0
Sub POP 0,0
";

/// The address of `Text`.
pub const TEXT: u64 = 0x2000_0000_0000_0000;

/// A recursion 70 calls deep, which spills registers.
pub static DEEP: &str = " LOC #100
Main SET $2,70
 PUSHJ $1,Down
 TRAP 0,Halt,0
Down BZ $0,Done
 GET $1,rJ
 SET $2,$0
 SUB $4,$0,1
 PUSHJ $3,Down
 ADD $0,$3,$2
 PUT rJ,$1
Done POP 1,0
";

/// Frames are saved and come back, locals are cut, registers become global, and octas of the stack area are written.
pub static FRAMES: &str = " LOC #100
Main SET $3,7
 PUT rG,253
 SET $253,5
 SAVE $255,0
 SET $0,$255
 SET $1,9
 STO $1,$0,0
 LDO $1,$0,0
 SUB $0,$0,8
 STO $1,$0,0
 PUT rL,1
 SETH $2,#6000
 LDO $4,$2,0
 STO $4,$2,24
 SAVE $254,0
 SET $5,1
 UNSAVE 0,$254
 TRAP 0,Halt,0
";

/// A trip whose handler goes on by RESUME, and octas on pages that stores begin.
pub static TRIPS: &str = " LOC #0
 PUSHJ $255,Handler
 PUT rJ,$255
 GET $255,rB
 RESUME
 LOC #100
Main SETH $0,#4000
 INCL $0,#4000
 SET $1,1
 STB $1,$0,5
 TRIP 1,2,3
 SET $2,3
 TRAP 0,Halt,0
Handler SETH $0,#4000
 INCL $0,#6000
 STO $0,$0,0
 POP 0,0
";

/// The words `run p.mms`.
fn words(alloc: Global) -> Option<Vec<String>> {
    let mut words = Vec::new(alloc);
    words.push(String::from_str(alloc, "run").ok()?).ok()?;
    words.push(String::from_str(alloc, "p.mms").ok()?).ok()?;
    Some(words)
}

/// The file `p.mms` with this source.
fn files(alloc: Global, source: &str) -> Option<Sequence<StoredFile>> {
    let mut files = Sequence::new(alloc);
    let name = Bytes::copy(alloc, b"p.mms").ok()?;
    let bytes = Bytes::copy(alloc, source.as_bytes()).ok()?;
    files.push(StoredFile { name, bytes }).ok()?;
    Some(files)
}

/// The program of a source that words order.
fn ordered(
    alloc: Global,
    words: Vec<String>,
    order: Order,
    source: &str,
    input: &str,
) -> Option<Program>
    requires file { order.file < length words.items }
    requires rest { order.rest ≤ length words.items }
    ensures { IfSome result NamesFile }
{
    let files = files(alloc, source)?;
    Some(Program {
        words: Sequence::from_vec(words),
        order,
        form: Form::Source,
        input: Bytes::copy(alloc, input.as_bytes()).ok()?,
        files,
    })
}

/// The program of a source with this input.
pub fn program(alloc: Global, source: &str, input: &str) -> Option<Program>
    ensures { IfSome result NamesFile }
{
    let words = words(alloc)?;
    let order = read(words.as_slice()).ok()?;
    if order.file < words.len() && order.rest <= words.len() {
        ordered(alloc, words, order, source, input)
    } else {
        None
    }
}

/// The run of a source with this input, at its start.
pub fn replay(alloc: Global, source: &str, input: &str) -> Option<Replay> {
    Replay::begin(alloc, program(alloc, source, input)?).ok()
}
