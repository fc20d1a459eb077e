//! The texts that the program answers by itself.

use std::process::ExitCode;

/// What `--help` prints.
static HELP: &str = "\
An assembler for MMIXAL and a simulator for MMIX.

usage: mmixware run [--ring R] [--steps N] [-i] [--dump] [--report] [--last J]
                    SRC [ARG ...]
       mmixware sim [--ring R] [--steps N] [-i] [--dump] [--report] [--last J]
                    OBJ [ARG ...]
       mmixware asm SRC OBJ
       mmixware gen [--ring R] N
       mmixware type OBJ
       mmixware multi [--ring R] [--steps N] [--dump] SCHED OBJ

  run          assembles the source in the file SRC and runs it
  sim          runs the object file OBJ
  asm          assembles the source in the file SRC into the object file OBJ
  gen          generates a program of N blocks (1 to 10000), runs it, and prints
               its size, its steps and its sum
  type         lists the object file OBJ line by line
  multi        runs the object file OBJ on up to eight processors, which take
               turns in the order of the bytes of the file SCHED

  --ring R     the registers of the ring: a power of two from 256 to 65536
               (256 if not given)
  --steps N    how many steps are made at most: 1 to 10^12 (10^9 if not given)
  -i           the console: commands from standard input
  --dump       writes registers and memory to standard output at the end
  --report     writes to standard error at the end how often each instruction
               ran, at how many addresses, and the first 100 writes to the data
               segment; not with -i
  --last J     takes back up to J of the last steps (1 to 1024) where the program
               was stopped or all steps were made, and writes a line for each
               state that comes back; not with -i or --report

Options come before the file and may be repeated; the last one counts.

exit status: that of the program (the low byte of $255 at Halt), and
   0  done, or the console was left
  64  the words are no command
  65  the source, the object or the schedule is refused
  66  the file is missing
  70  the program was stopped
  71  out of memory
  74  a file or a stream failed
  75  all steps were made
  76  the console took 2^32 bytes

       mmixware --help
       mmixware --version
";

/// What `--version` prints.
const VERSION: &str = "mmixware 0.4.0\n";

/// The text that the program answers by itself, if these are words for one: no words ask for help, too.
pub fn find_own_text(words: &[String]) -> Option<&'static str> {
    match words {
        [] => Some(HELP),
        [word] => match word.as_str() {
            "--help" | "-h" | "help" => Some(HELP),
            "--version" => Some(VERSION),
            _ => None,
        },
        _ => None,
    }
}

/// The status of a write to standard output that fails.
const WRITE_FAULT: u8 = 74;

/// Prints a text to standard output.
pub fn print_text(rt: &impl Print, text: &str) -> ExitCode {
    match rt.print(text) {
        Ok(()) => ExitCode::from(0),
        Err(_) => ExitCode::from(WRITE_FAULT),
    }
}
