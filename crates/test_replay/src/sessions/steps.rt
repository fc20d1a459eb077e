//! Steps, back and forth, and what stops a run.

use crate::sessions::{Row, SUM, SUM_START, find_mismatch};

static STEPS: [Row; 14] = [
    Row {
        lines: "s\n",
        answer: "step 1  sum.mms:9  Main+4  SET sum,0
$1 (k) = 3  (was #4000000000000008)
",
    },
    Row {
        lines: "step 3\n\n",
        answer: "step 3  sum.mms:11  Loop+4  STO sum,Total
$2 (sum) = 3  (was 0)
step 6  sum.mms:10  Loop  ADD sum,sum,k
",
    },
    Row {
        lines: "s\ns 0\n",
        answer: "step 1  sum.mms:9  Main+4  SET sum,0
$1 (k) = 3  (was #4000000000000008)
step 1  sum.mms:9  Main+4  SET sum,0
$1 (k) = 3  (was #4000000000000008)
",
    },
    Row {
        lines: "s x\nstep 1 2\n",
        answer: "? not a number of steps
? not a number of steps
",
    },
    Row {
        lines: "rs\n",
        answer: "step 0  sum.mms:8  Main  SET k,3
at the start
",
    },
    Row {
        lines: "s 5\nrs 2\n\n\n",
        answer: "step 5  sum.mms:13  Loop+12  PBP k,Loop
$1 (k) = 2  (was 3)
step 3  sum.mms:11  Loop+4  STO sum,Total
$2 (sum) = 3  (was 0)
step 1  sum.mms:9  Main+4  SET sum,0
$1 (k) = 3  (was #4000000000000008)
step 0  sum.mms:8  Main  SET k,3
at the start
",
    },
    Row {
        lines: "g 15\ns\nrs\n",
        answer: "step 15  sum.mms:15  Loop+20  TRAP 0,Fputs,StdOut
$255 = #2000000000000008 <Text>  (was 256)
done
step 16  sum.mms:16  Loop+24  SET $4,sum
$255 = 5  (was #2000000000000008 <Text>)
output taken back: 5 bytes
step 15  sum.mms:15  Loop+20  TRAP 0,Fputs,StdOut
$255 = #2000000000000008 <Text>  (was 256)
",
    },
    Row {
        lines: "g 100\ns\nrs\n",
        answer: "done
step 24  sum.mms:19  Loop+36  TRAP 0,Halt,0
halted with status 12
step 24  sum.mms:19  Loop+36  TRAP 0,Halt,0
halted with status 12
step 23  sum.mms:19  Loop+36  TRAP 0,Halt,0
$255 = 12  (was 5)
",
    },
    Row {
        lines: "g K\ng\n",
        answer: "? goto takes the number of a step
? goto takes the number of a step
",
    },
    Row {
        lines: "g 4\n\n",
        answer: "step 4  sum.mms:12  Loop+8  SUB k,k,1
M8[#2000000000000000] (Total) = 3  (was 0)
",
    },
    Row {
        lines: "n\n\n",
        answer: "step 1  sum.mms:9  Main+4  SET sum,0
$1 (k) = 3  (was #4000000000000008)
step 2  sum.mms:10  Loop  ADD sum,sum,k
$2 (sum) = 0  (as before)
",
    },
    Row {
        lines: "c\nrc\n",
        answer: "done
step 24  sum.mms:19  Loop+36  TRAP 0,Halt,0
halted with status 12
output taken back: 5 bytes
step 0  sum.mms:8  Main  SET k,3
at the start
",
    },
    Row {
        lines: "q\ns\n",
        answer: "",
    },
    Row {
        lines: "\ns\r\n",
        answer: "step 1  sum.mms:9  Main+4  SET sum,0
$1 (k) = 3  (was #4000000000000008)
",
    },
];

static STOPS: [Row; 12] = [
    Row {
        lines: "break Loop\nc\nc\nc\nc\nrc\n\n",
        answer: "1    break  sum.mms:10  Loop
step 2  sum.mms:10  Loop  ADD sum,sum,k
$2 (sum) = 0  (as before)
break 1
step 6  sum.mms:10  Loop  ADD sum,sum,k
break 1
step 10  sum.mms:10  Loop  ADD sum,sum,k
break 1
done
step 24  sum.mms:19  Loop+36  TRAP 0,Halt,0
halted with status 12
output taken back: 5 bytes
step 10  sum.mms:10  Loop  ADD sum,sum,k
break 1
step 6  sum.mms:10  Loop  ADD sum,sum,k
break 1
",
    },
    Row {
        lines: "b 1\nb 99\nb #110\nb\n",
        answer: "1    break  sum.mms:8  Main
? no such place: give a label, LABEL+N, a line with an instruction, or #ADDRESS
2    break  sum.mms:12  Loop+8
3    break  sum.mms:8  Main
",
    },
    Row {
        lines: "b Loop if k == 1\nc\n",
        answer: "1    break  sum.mms:10  Loop  if $1 (k) == 1
step 10  sum.mms:10  Loop  ADD sum,sum,k
break 1
",
    },
    Row {
        lines: "b 13 if sum>=5\nc\nrc\n",
        answer: "1    break  sum.mms:13  Loop+12  if $2 (sum) >= 5
step 9  sum.mms:13  Loop+12  PBP k,Loop
$1 (k) = 1  (was 2)
break 1
step 0  sum.mms:8  Main  SET k,3
at the start
",
    },
    Row {
        lines: "b Loop if k < -1\nc\n",
        answer: "1    break  sum.mms:10  Loop  if $1 (k) < -1
done
step 24  sum.mms:19  Loop+36  TRAP 0,Halt,0
halted with status 12
",
    },
    Row {
        lines: "b Loop if k\nb Loop when\nb Loop if $1 <> 2\n",
        answer: "? a condition is written: if VALUE OP N, where OP is ==, !=, <, <=, > or >=
? a condition is written: if VALUE OP N, where OP is ==, !=, <, <=, > or >=
? a condition is written: if VALUE OP N, where OP is ==, !=, <, <=, > or >=
",
    },
    Row {
        lines: "watch Total\nc\n\nrc\n",
        answer: "1    watch  M8[#2000000000000000] (Total)
step 4  sum.mms:12  Loop+8  SUB k,k,1
M8[#2000000000000000] (Total) = 3  (was 0)
watch 1: M8[#2000000000000000] (Total) = 3  (was 0)
step 8  sum.mms:12  Loop+8  SUB k,k,1
M8[#2000000000000000] (Total) = 5  (was 3)
watch 1: M8[#2000000000000000] (Total) = 5  (was 3)
step 4  sum.mms:12  Loop+8  SUB k,k,1
M8[#2000000000000000] (Total) = 3  (was 0)
watch 1: M8[#2000000000000000] (Total) = 3  (was 0)
",
    },
    Row {
        lines: "wa k\nb 13\nc\nc\n",
        answer: "1    watch  $1 (k)
2    break  sum.mms:13  Loop+12
step 1  sum.mms:9  Main+4  SET sum,0
$1 (k) = 3  (was #4000000000000008)
watch 1: $1 (k) = 3  (was #4000000000000008)
step 5  sum.mms:13  Loop+12  PBP k,Loop
$1 (k) = 2  (was 3)
watch 1: $1 (k) = 2  (was 3)
break 2
",
    },
    Row {
        lines: "wa $300\nwa\n",
        answer: "? no such place: give NAME[+N], $K, rX or M8[ADDRESS]
? no such place: give NAME[+N], $K, rX or M8[ADDRESS]
",
    },
    Row {
        lines: "b Loop\nwa k\ni b\nd 1\ni b\nd\ninfo breaks\n",
        answer: "1    break  sum.mms:10  Loop
2    watch  $1 (k)
1    break  sum.mms:10  Loop
2    watch  $1 (k)
deleted
2    watch  $1 (k)
all deleted
no breaks and no watches
",
    },
    Row {
        lines: "d 1\nd x\n",
        answer: "? no break or watch has this number
? delete takes the number of a break or watch, or nothing
",
    },
    Row {
        lines: "b Loop\nn\nn\nd 1\nb 1\n",
        answer: "1    break  sum.mms:10  Loop
step 1  sum.mms:9  Main+4  SET sum,0
$1 (k) = 3  (was #4000000000000008)
step 2  sum.mms:10  Loop  ADD sum,sum,k
$2 (sum) = 0  (as before)
break 1
deleted
2    break  sum.mms:8  Main
",
    },
];

#[test]
fn steps_are_gone_to(rt: HostRuntime) {
    assert_eq!(rt; find_mismatch(rt.alloc(), SUM, SUM_START, &STEPS), None);
}

#[test]
fn breaks_and_watches_stop_a_run(rt: HostRuntime) {
    assert_eq!(rt; find_mismatch(rt.alloc(), SUM, SUM_START, &STOPS), None);
}
