//! What is shown of a step.

use crate::sessions::{Row, SUM, SUM_START, find_mismatch};

static VALUES: [Row; 17] = [
    Row {
        lines: "g 18\nbt\n",
        answer: "done
step 18  sum.mms:20  Twice  GET $1,rJ
$0 = 6
rJ = #128 <Loop+32>  (was #0)
#0  Twice in Twice (6) at sum.mms:20
#1  Loop+28 at sum.mms:17
",
    },
    Row {
        lines: "g 16\nwho sum\nwho sum\nw sum\nw sum\n",
        answer: "done
step 16  sum.mms:16  Loop+24  SET $4,sum
$255 = 5  (was #2000000000000008 <Text>)
output taken back: 5 bytes
step 10  sum.mms:10  Loop  ADD sum,sum,k
makes $2 (sum) = 6  (was 5)
step 6  sum.mms:10  Loop  ADD sum,sum,k
makes $2 (sum) = 5  (was 3)
step 2  sum.mms:10  Loop  ADD sum,sum,k
$2 (sum) = 0  (as before)
makes $2 (sum) = 3  (was 0)
$2 (sum) has not changed since the start
",
    },
    Row {
        lines: "who $5\nwho Total\nwho Nope\n",
        answer: "$5 has not changed since the start
M8[#2000000000000000] (Total) has not changed since the start
? no symbol Nope
",
    },
    Row {
        lines: "g 8\nwho Total\np Total\n",
        answer: "step 8  sum.mms:12  Loop+8  SUB k,k,1
M8[#2000000000000000] (Total) = 5  (was 3)
step 7  sum.mms:11  Loop+4  STO sum,Total
$2 (sum) = 5  (was 3)
makes M8[#2000000000000000] (Total) = 5  (was 3)
M8[#2000000000000000] (Total) = 3
",
    },
    Row {
        lines: "g 7\np sum\np/x sum\np/d sum\np/t Text\np $2\n\n",
        answer: "step 7  sum.mms:11  Loop+4  STO sum,Total
$2 (sum) = 5  (was 3)
$2 (sum) = 5
$2 (sum) = #0000000000000005
$2 (sum) = 5
M8[#2000000000000008] (Text) = \"done....\"
$2 (sum) = 5
",
    },
    Row {
        lines: "p rL\np M#2000000000000008\np 7\n",
        answer: "rL = 2
M8[#2000000000000008] (Text) = #646f6e650a000000
7
",
    },
    Row {
        lines: "p/q sum\np Nope\np\n",
        answer: "? no such form: /d is decimal, /x hexadecimal, /t text
? no symbol Nope
? give NAME[+N], $K[+N], rX, M8[ADDRESS] or a number
",
    },
    Row {
        lines: "g 8\nx Total\nx/2t Total\nx/5b Text\nx/s Text\n",
        answer: "step 8  sum.mms:12  Loop+8  SUB k,k,1
M8[#2000000000000000] (Total) = 5  (was 3)
#2000000000000000 <Total>:       #0000000000000005
#2000000000000000 <Total>:       #00000000 #00000005
#2000000000000008 <Text>:        #64 #6f #6e #65 #0a
#2000000000000008 <Text>:        \"done\\n\"
",
    },
    Row {
        lines: "x/4b Text\n\n",
        answer: "#2000000000000008 <Text>:        #64 #6f #6e #65
#200000000000000c <Text+4>:      #0a #00 #00 #00
",
    },
    Row {
        lines: "x $254\nx/9z Text\nx Nope\nx #8000000000000000\n",
        answer: "#2000000000000000 <Total>:       #0000000000000000
? no such units: x/NU, where U is o, d, t, w, b or s
? no symbol Nope
? no memory there: give NAME[+N], $K[+N] or #ADDRESS
",
    },
    Row {
        lines: "info output\ng 16\ni o\ni\n",
        answer: "nothing has been written yet
done
step 16  sum.mms:16  Loop+24  SET $4,sum
$255 = 5  (was #2000000000000008 <Text>)
done
? info takes breaks, output, registers, registers all, ring or symbols
",
    },
    Row {
        lines: "info symbols\n",
        answer: "Loop                #108                sum.mms:10
Main                #100                sum.mms:8
Text                #2000000000000008   sum.mms:4
Total               #2000000000000000   sum.mms:3
Twice               #130                sum.mms:20
k                   $1
sum                 $2
",
    },
    Row {
        lines: "info ring\n",
        answer: "ring of 256: 2 local (L), 0 hidden (h), 0 hidden in memory
    0  LL..............................................................
   64  ................................................................
  128  ................................................................
  192  ................................................................
",
    },
    Row {
        lines: "l 20\n\nl 999\nl Nope\n",
        answer: "      15        TRAP  0,Fputs,StdOut
      16        SET   $4,sum
      17        PUSHJ $3,Twice
      18        SET   $255,$3
      19        TRAP  0,Halt,0
      20  Twice GET   $1,rJ
      21        ADD   $0,$0,$0
      22        PUT   rJ,$1
      23        POP   1,0
? no more lines
? no more lines
? no symbol Nope
",
    },
    Row {
        lines: "s\nl\n",
        answer: "step 1  sum.mms:9  Main+4  SET sum,0
$1 (k) = 3  (was #4000000000000008)
       4  Text  BYTE  \"done\",10,0
       5        LOC   #100
       6  k     IS    $1
       7  sum   IS    $2
       8  Main  SET   k,3
=>     9        SET   sum,0
      10  Loop  ADD   sum,sum,k
      11        STO   sum,Total
      12        SUB   k,k,1
      13        PBP   k,Loop
",
    },
    Row {
        lines: "help step\nh rs\nh foo\n",
        answer: "step [N]
short s
makes one step, or N of them
reverse-step [N]
short rs
takes one step back, or N of them
? no such command: foo (help lists all)
",
    },
    Row {
        lines: "re\nfoo bar\ncont\n",
        answer: "? several commands begin like this: reverse-step reverse-next reverse-finish reverse-continue
? no such command: foo (help lists all)
done
step 24  sum.mms:19  Loop+36  TRAP 0,Halt,0
halted with status 12
",
    },
];

#[test]
fn values_lines_and_words_are_shown(rt: HostRuntime) {
    assert_eq!(rt; find_mismatch(rt.alloc(), SUM, SUM_START, &VALUES), None);
}
