//! The statuses that both programs end with.

use mx_explain::{Entry, Topic};

/// Exit statuses.
pub(crate) static STATUSES: [Entry; 9] = [
    (
        Topic::Status(0),
        "Done",
        "The command did what it was asked to do. A program that halts ends with the\n\
        low byte of its register $255 as the status, and 0 says by custom that all\n\
        went well. So any status may be the program's own. If it is not, a line on\n\
        standard error, or after check on standard output, says why.",
        "Main SET $255,0; TRAP 0,Halt,0",
        "",
    ),
    (
        Topic::Status(64),
        "Usage",
        "The words of the command line are faulty, and nothing was done. The message\n\
        has the number and the name of a kind, which mmixview explain explains, and\n\
        the number of the word, from 0. Where mmixview has read the words, it begins\n\
        with error: and says in words what is wrong.",
        "mmixware go",
        "mmixware run hello.mms",
    ),
    (
        Topic::Status(65),
        "Refused",
        "The source, the object or the schedule is refused, and nothing has run. The\n\
        message has the line of the source or the byte of the object, and the number\n\
        and the name of the fault, which mmixview explain explains. All faults of a\n\
        source are shown by mmixview check.",
        "Main JMP Later",
        "Main JMP Later;Later TRAP 0,Halt,0",
    ),
    (
        Topic::Status(66),
        "NoFile",
        "The file is missing. Look at its name, and at the folder that you are in.\n\
        Options come before the file; a word after it is for the program.",
        "mmixware run nothing.mms",
        "mmixware run hello.mms",
    ),
    (
        Topic::Status(70),
        "Stopped",
        "The program was stopped at an instruction that the machine cannot carry out.\n\
        The message has its address, and the number and the name of the reason,\n\
        which mmixview explain explains. The line of the source is found by mmixview\n\
        where, and mmixview debug goes there and back, step by step.",
        "Main POP 0,0",
        "Main TRAP 0,Halt,0",
    ),
    (
        Topic::Status(71),
        "OutOfMemory",
        "There was no memory for the command, or for what the program stores. A\n\
        program may use 65,536 pages of 4,096 bytes, which are 256 MiB. If the\n\
        system allows less, raise its limit; or the program stores without end.",
        "a loop that stores without end, under a limit of memory",
        "let the loop end, or raise the limit",
    ),
    (
        Topic::Status(74),
        "HostFault",
        "The system refused a call on the file of the command, or on a stream that\n\
        the command itself reads or writes. The file may be a folder, or one that\n\
        you may not read; the disk may be full; or nobody reads the pipe any more.\n\
        It is never a file that the program opens: there the program gets -1.",
        "mmixware run examples",
        "mmixware run examples/hello.mms",
    ),
    (
        Topic::Status(75),
        "StepsSpent",
        "The run made all its steps, 1,000,000,000 or as many as --steps says, and\n\
        did not halt. It needs more steps, or has a loop that does not end: mmixware\n\
        run --last 10 shows where it was, and mmixview count how often each line\n\
        ran.",
        "Main JMP Main",
        "Main TRAP 0,Halt,0",
    ),
    (
        Topic::Status(76),
        "ConsoleLimit",
        "The console took 2^32 bytes of its input and wanted one more. The input has\n\
        no end, or no line of it ends the session. The line q does.",
        "yes | mmixware run -i hello.mms",
        "echo q | mmixware run -i hello.mms",
    ),
];
