//! Calls that are gone over, out of and back to.

use crate::programs::CALLS;
use crate::sessions::{CALLS_START, Row, find_mismatch};

static ROWS: [Row; 11] = [
    Row {
        lines: "f\nrf\n",
        answer: "not inside a call
not inside a call
",
    },
    Row {
        lines: "s\nn\n\n\n",
        answer: "step 1  sum.mms:3  Main+4  PUSHJ $1,Outer
$0 = 1  (as before)
step 8  sum.mms:4  Main+8  SET $0,2
step 9  sum.mms:5  Main+12  TRAP 0,Halt,0
$0 = 2  (was 1)
step 10  sum.mms:5  Main+12  TRAP 0,Halt,0
halted with status 0
",
    },
    Row {
        lines: "g 3\nf\n",
        answer: "step 3  sum.mms:7  Outer+4  PUSHJ $1,Inner
$0 = 264  (was 0)
step 8  sum.mms:4  Main+8  SET $0,2
",
    },
    Row {
        lines: "g 5\nf\n",
        answer: "step 5  sum.mms:11  Inner+4  POP 0,0
$0 = 5  (was 0)
step 6  sum.mms:8  Outer+8  PUT rJ,$0
",
    },
    Row {
        lines: "g 5\nrf\nrf\n",
        answer: "step 5  sum.mms:11  Inner+4  POP 0,0
$0 = 5  (was 0)
step 3  sum.mms:7  Outer+4  PUSHJ $1,Inner
$0 = 264  (was 0)
step 1  sum.mms:3  Main+4  PUSHJ $1,Outer
$0 = 1  (as before)
",
    },
    Row {
        lines: "g 8\nrn\n\n",
        answer: "step 8  sum.mms:4  Main+8  SET $0,2
step 1  sum.mms:3  Main+4  PUSHJ $1,Outer
$0 = 1  (as before)
step 0  sum.mms:2  Main  SET $0,1
at the start
",
    },
    Row {
        lines: "g 3\nn\nrn\n",
        answer: "step 3  sum.mms:7  Outer+4  PUSHJ $1,Inner
$0 = 264  (was 0)
step 6  sum.mms:8  Outer+8  PUT rJ,$0
step 3  sum.mms:7  Outer+4  PUSHJ $1,Inner
$0 = 264  (was 0)
",
    },
    Row {
        lines: "b Inner\ns\nn\nn\nrn\n",
        answer: "1    break  sum.mms:10  Inner
step 1  sum.mms:3  Main+4  PUSHJ $1,Outer
$0 = 1  (as before)
step 4  sum.mms:10  Inner  SET $0,5
rJ = #118 <Outer+8>  (was #108 <Main+8>)
break 1
step 5  sum.mms:11  Inner+4  POP 0,0
$0 = 5  (was 0)
step 4  sum.mms:10  Inner  SET $0,5
rJ = #118 <Outer+8>  (was #108 <Main+8>)
break 1
",
    },
    Row {
        lines: "b Inner\ng 3\nf\nf\n",
        answer: "1    break  sum.mms:10  Inner
step 3  sum.mms:7  Outer+4  PUSHJ $1,Inner
$0 = 264  (was 0)
step 4  sum.mms:10  Inner  SET $0,5
rJ = #118 <Outer+8>  (was #108 <Main+8>)
break 1
step 6  sum.mms:8  Outer+8  PUT rJ,$0
",
    },
    Row {
        lines: "g 5\nbt\n",
        answer: "step 5  sum.mms:11  Inner+4  POP 0,0
$0 = 5  (was 0)
#0  Inner+4 in Inner () at sum.mms:11
#1  Outer+4 in Outer () at sum.mms:7
#2  Main+4 at sum.mms:3
",
    },
    Row {
        lines: "bt\n",
        answer: "#0  Main at sum.mms:2
",
    },
];

#[test]
fn calls_are_gone_over_and_out_of(rt: HostRuntime) {
    assert_eq!(rt; find_mismatch(rt.alloc(), CALLS, CALLS_START, &ROWS), None);
}
