//! Registers that are followed through calls, and an instruction that the program changes.

use crate::sessions::{Row, find_mismatch};

/// `Sub` gives its `$1` and its `$0` values, and returns none. Turn 1 is SET, 2 SET, 3 PUSHJ, 4 SET, 5 SET, 6 POP, 7 ADD, and 8 Halt.
static APART: &str = " LOC #100
Main SET $0,3
 SET $1,9
 PUSHJ $2,Sub
 ADD $255,$0,$1
 TRAP 0,Halt,0
Sub SET $1,5
 SET $0,3
 POP 0,0
";

/// `Sub` adds 3 to its argument and returns it in place of `$1`. The turns are those of `APART`.
static RETURNED: &str = " LOC #100
Main SET $0,3
 SET $2,4
 PUSHJ $1,Sub
 ADD $255,$0,$1
 TRAP 0,Halt,0
Sub SET $1,7
 ADD $0,$0,3
 POP 1,0
";

/// Turn 4 stores an instruction in place of that at `Here`, which is carried out by turn 6.
static CHANGED: &str = " LOC Data_Segment
 GREG @
New SET $1,7
 LOC #100
Main LDT $2,New
 GETA $3,Here
 SET $1,5
 STTU $2,$3,0
 SWYM 0
Here SET $1,6
 TRAP 0,Halt,0
";

static START: &str = "step 0  sum.mms:2  Main  SET $0,3
at the start
";

static CHANGED_START: &str = "step 0  sum.mms:5  Main  LDT $2,New
at the start
";

static APART_ROWS: [Row; 2] = [
    Row {
        lines: "c\nwho $1\nc\nwho $0\nwho $0\n",
        answer: "step 8  sum.mms:6  Main+16  TRAP 0,Halt,0
halted with status 12
step 1  sum.mms:3  Main+4  SET $1,9
$0 = 3  (was 1)
makes $1 = 9  (was #4000000000000008)
step 8  sum.mms:6  Main+16  TRAP 0,Halt,0
halted with status 12
step 0  sum.mms:2  Main  SET $0,3
at the start
makes $0 = 3  (was 1)
$0 has not changed since the start
",
    },
    Row {
        lines: "watch $0\nc\nc\ninfo break\n",
        answer: "1    watch  $0
step 1  sum.mms:3  Main+4  SET $1,9
$0 = 3  (was 1)
watch 1: $0 = 3  (was 1)
step 8  sum.mms:6  Main+16  TRAP 0,Halt,0
halted with status 12
1    watch  $0
",
    },
];

static RETURNED_ROWS: [Row; 3] = [
    Row {
        lines: "b Sub\nr\nwho $0\nc\nfinish\nwho $1\n",
        answer: "1    break  sum.mms:7  Sub
step 3  sum.mms:7  Sub  SET $1,7
$0 = 4
rJ = #10c <Main+12>  (was #0)
break 1
step 1  sum.mms:3  Main+4  SET $2,4
$0 = 3  (was 1)
makes $0 = 4  (was 0), here $2
step 3  sum.mms:7  Sub  SET $1,7
$0 = 4
rJ = #10c <Main+12>  (was #0)
break 1
step 6  sum.mms:5  Main+12  ADD $255,$0,$1
$1 = 7
step 5  sum.mms:9  Sub+8  POP 1,0
$0 = 7  (was 4)
makes $1 = 7, of an outer call
",
    },
    Row {
        lines: "g 3\nwatch $1\nc\nc\nstart\n",
        answer: "step 3  sum.mms:7  Sub  SET $1,7
$0 = 4
rJ = #10c <Main+12>  (was #0)
1    watch  $1
step 4  sum.mms:8  Sub+4  ADD $0,$0,3
$1 = 7  (was 0)
watch 1: $1 = 7  (was 0)
step 6  sum.mms:5  Main+12  ADD $255,$0,$1
$1 = 7
watch 1: $1 = 0  (was 7), here $3
step 0  sum.mms:2  Main  SET $0,3
at the start
",
    },
    Row {
        lines: "p Main+4\np M8[#100]\np M4[Main+8]\np M2[#100]\np M1[#101]\np M#104\nx/2t $0+259\nx/2d Main\nb Main+8\n",
        answer: "260
M8[#100] (Main) = #e3000003e3020004
M4[#108] (Main+8) = -234815485
M2[#100] (Main) = -7424
M1[#101] (Main+1) = 0
M8[#100] (Main) = #e3000003e3020004  (the octa that has #104)
#104 <Main+4>:                   #e3020004 #f2010003
#100 <Main>:                     -2089670210406449148 -1008524828115795967
1    break  sum.mms:4  Main+8
",
    },
];

static CHANGED_ROWS: [Row; 1] = [Row {
    lines: "g 5\ns\n",
    answer: "step 5  sum.mms:10  Here  SET $1,6
the program changed the instruction here at step 3; it is now #e3010007
step 6  sum.mms:11  Here+4  TRAP 0,Halt,0
$1 = 7  (was 5)
",
}];

#[test]
fn registers_are_followed_through_calls(rt: HostRuntime) {
    assert_eq!(rt; find_mismatch(rt.alloc(), APART, START, &APART_ROWS), None);
    assert_eq!(rt;
        find_mismatch(rt.alloc(), RETURNED, START, &RETURNED_ROWS),
        None
    );
}

#[test]
fn changed_instructions_are_told(rt: HostRuntime) {
    assert_eq!(rt;
        find_mismatch(rt.alloc(), CHANGED, CHANGED_START, &CHANGED_ROWS),
        None
    );
}
