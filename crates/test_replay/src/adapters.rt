//! Sessions of the debug adapter over the host in memory: requests, and what is sent.

use crate::sessions::SUM;
use face_dap::serve;
use mx_frames::add_frame;
use mx_host::MemHost;
use mx_outcome::Outcome;
use mx_word::Bytes;
use std::alloc::Global;

/// Requests after `initialize`, and texts that are in what is sent, one after another.
struct Row {
    requests: &'static [&'static str],
    sent: &'static [&'static str],
}

/// The first request.
const INITIALIZE: &str =
    "{\"seq\":1,\"type\":\"request\",\"command\":\"initialize\",\"arguments\":{\"adapterID\":\"mmix\"}}";

/// A launch of `sum.mms` that stops at the start, and the request after it.
const LAUNCH: &str =
    "{\"seq\":2,\"type\":\"request\",\"command\":\"launch\",\"arguments\":{\"program\":\"sum.mms\",\"stopOnEntry\":true}}";

const CONFIGURED: &str = "{\"seq\":3,\"type\":\"request\",\"command\":\"configurationDone\"}";

/// The frames of requests.
fn stream(alloc: Global, requests: &[&str]) -> Option<Vec<u8>> {
    let mut stream = Bytes::new(alloc);
    add_frame(&mut stream, INITIALIZE.as_bytes()).ok()?;
    for request in requests {
        add_frame(&mut stream, request.as_bytes()).ok()?;
    }
    Some(stream.into_vec())
}

/// A host with `sum.mms`, a source `bad.mms` that is refused, and requests as standard input.
fn host(alloc: Global, requests: &[&str]) -> Option<MemHost> {
    let mut host = MemHost::new(alloc, stream(alloc, requests)?, Vec::new(alloc)).ok()?;
    let source = Vec::from_slice(alloc, SUM.as_bytes()).ok()?;
    host.put_file(b"sum.mms", source).ok()?;
    let faulty = Vec::from_slice(alloc, b"Main SWYM x\n FOO 1\n").ok()?;
    host.put_file(b"bad.mms", faulty).ok()?;
    Some(host)
}

/// What follows a piece of a text, if the text has it.
fn after<'a>(text: &'a [u8], piece: &[u8]) -> Option<&'a [u8]> {
    for at in 0..text.len() {
        if let Some(after) = text[at..].strip_prefix(piece) {
            return Some(after);
        }
    }
    None
}

/// The first of some pieces that a text does not have after those before it.
fn find_missing(text: &[u8], pieces: &'static [&'static str]) -> Option<&'static str> {
    let mut rest = text;
    for piece in pieces {
        match after(rest, piece.as_bytes()) {
            Some(more) => rest = more,
            None => return Some(piece),
        }
    }
    None
}

/// What a row lacks.
fn lack(alloc: Global, row: &Row) -> Option<&'static str> {
    let Some(mut host) = host(alloc, row.requests) else {
        return Some("a host");
    };
    match serve(alloc, &mut host) {
        Outcome::Done(_) => find_missing(host.output(), row.sent),
        _ => Some("an end"),
    }
}

/// What the first row lacks that lacks something.
fn find_lack(alloc: Global, rows: &'static [Row]) -> Option<&'static str> {
    for row in rows {
        if let Some(lacks) = lack(alloc, row) {
            return Some(lacks);
        }
    }
    None
}

static ROWS: [Row; 9] = [
    Row {
        requests: &[
            LAUNCH,
            CONFIGURED,
            "{\"seq\":4,\"type\":\"request\",\"command\":\"stepIn\",\"arguments\":{\"threadId\":1}}",
            "{\"seq\":5,\"type\":\"request\",\"command\":\"stepBack\",\"arguments\":{\"threadId\":1}}",
            "{\"seq\":6,\"type\":\"request\",\"command\":\"disconnect\"}",
        ],
        sent: &[
            "{\"seq\":1,\"type\":\"response\",\"request_seq\":1,\"success\":true,\"command\":\"initialize\",\"body\":{\"supports",
            "{\"seq\":2,\"type\":\"response\",\"request_seq\":2,\"success\":true,\"command\":\"launch\"}",
            "{\"seq\":3,\"type\":\"event\",\"event\":\"initialized\"}",
            "{\"seq\":4,\"type\":\"response\",\"request_seq\":3,\"success\":true,\"command\":\"configurationDone\"}",
            "{\"seq\":5,\"type\":\"event\",\"event\":\"stopped\",\"body\":{\"reason\":\"entry\",\"description\":\"step 0\"",
            "{\"seq\":6,\"type\":\"response\",\"request_seq\":4,\"success\":true,\"command\":\"stepIn\"",
            "{\"seq\":7,\"type\":\"event\",\"event\":\"stopped\",\"body\":{\"reason\":\"step\",\"description\":\"step 1\"",
            "\"reason\":\"entry\",\"description\":\"step 0\"",
            "{\"seq\":10,\"type\":\"response\",\"request_seq\":6,\"success\":true,\"command\":\"disconnect\"}",
        ],
    },
    Row {
        requests: &[
            LAUNCH,
            "{\"seq\":3,\"type\":\"request\",\"command\":\"setBreakpoints\",\"arguments\":{\"source\":{\"path\":\"/home/a/sum.mms\"},\"breakpoints\":[{\"line\":4},{\"line\":10,\"condition\":\"k == 1\"},{\"line\":30},{\"line\":8,\"condition\":\"k\"}]}}",
            CONFIGURED,
            "{\"seq\":4,\"type\":\"request\",\"command\":\"continue\",\"arguments\":{\"threadId\":1}}",
            "{\"seq\":5,\"type\":\"request\",\"command\":\"continue\",\"arguments\":{\"threadId\":1}}",
            "{\"seq\":6,\"type\":\"request\",\"command\":\"reverseContinue\",\"arguments\":{\"threadId\":1}}",
            "{\"seq\":7,\"type\":\"request\",\"command\":\"disconnect\"}",
        ],
        sent: &[
            "{\"id\":1,\"verified\":true,\"source\":{\"name\":\"sum.mms\",\"path\":\"sum.mms\"},\"line\":8",
            "{\"id\":2,\"verified\":true,\"source\":{\"name\":\"sum.mms\",\"path\":\"sum.mms\"},\"line\":10",
            "{\"verified\":false,\"message\":\"no line from here on loads an instruction\",\"line\":30}",
            "{\"verified\":false,\"message\":\"no condition",
            "\"reason\":\"breakpoint\",\"description\":\"step 10\"",
            "\"category\":\"stdout\",\"output\":\"done\\n\"",
            "\"reason\":\"end\",\"description\":\"step 24\"",
            "output taken back to step 10: 5 bytes",
            "\"reason\":\"breakpoint\",\"description\":\"step 10\"",
        ],
    },
    Row {
        requests: &[
            LAUNCH,
            "{\"seq\":3,\"type\":\"request\",\"command\":\"setFunctionBreakpoints\",\"arguments\":{\"breakpoints\":[{\"name\":\"Twice\"},{\"name\":\"Nowhere\"}]}}",
            "{\"seq\":4,\"type\":\"request\",\"command\":\"configurationDone\"}",
            "{\"seq\":5,\"type\":\"request\",\"command\":\"continue\",\"arguments\":{\"threadId\":1}}",
            "{\"seq\":6,\"type\":\"request\",\"command\":\"stackTrace\",\"arguments\":{\"threadId\":1}}",
            "{\"seq\":7,\"type\":\"request\",\"command\":\"scopes\",\"arguments\":{\"frameId\":2}}",
            "{\"seq\":8,\"type\":\"request\",\"command\":\"variables\",\"arguments\":{\"variablesReference\":17}}",
            "{\"seq\":9,\"type\":\"request\",\"command\":\"stepOut\",\"arguments\":{\"threadId\":1}}",
            "{\"seq\":10,\"type\":\"request\",\"command\":\"disconnect\"}",
        ],
        sent: &[
            "\"verified\":true",
            "{\"verified\":false,\"message\":\"there is no such label\"}",
            "\"reason\":\"function breakpoint\",\"description\":\"step 18\"",
            "{\"id\":1,\"name\":\"Twice\"",
            "\"line\":20",
            "{\"id\":2,\"name\":\"Loop+28\"",
            "\"line\":17",
            "\"totalFrames\":2",
            "\"name\":\"Locals\",\"presentationHint\":\"locals\",\"variablesReference\":17",
            "{\"name\":\"$2 (sum)\",\"value\":\"6  #0000000000000006\"",
            "\"reason\":\"step\",\"description\":\"step 22\"",
        ],
    },
    Row {
        requests: &[
            LAUNCH,
            "{\"seq\":3,\"type\":\"request\",\"command\":\"dataBreakpointInfo\",\"arguments\":{\"name\":\"Total\"}}",
            "{\"seq\":4,\"type\":\"request\",\"command\":\"setDataBreakpoints\",\"arguments\":{\"breakpoints\":[{\"dataId\":\"M#2000000000000000\",\"accessType\":\"write\"}]}}",
            CONFIGURED,
            "{\"seq\":5,\"type\":\"request\",\"command\":\"continue\",\"arguments\":{\"threadId\":1}}",
            "{\"seq\":6,\"type\":\"request\",\"command\":\"readMemory\",\"arguments\":{\"memoryReference\":\"0x2000000000000000\",\"count\":9}}",
            "{\"seq\":7,\"type\":\"request\",\"command\":\"evaluate\",\"arguments\":{\"expression\":\"sum\",\"context\":\"hover\"}}",
            "{\"seq\":8,\"type\":\"request\",\"command\":\"evaluate\",\"arguments\":{\"expression\":\"goto 15\",\"context\":\"repl\"}}",
            "{\"seq\":9,\"type\":\"request\",\"command\":\"disassemble\",\"arguments\":{\"memoryReference\":\"Main\",\"instructionOffset\":-1,\"instructionCount\":2}}",
            "{\"seq\":10,\"type\":\"request\",\"command\":\"disconnect\"}",
        ],
        sent: &[
            "{\"dataId\":\"M#2000000000000000\"",
            "{\"id\":1,\"verified\":true}",
            "\"reason\":\"data breakpoint\",\"description\":\"step 4\"",
            "{\"address\":\"0x2000000000000000\",\"data\":\"AAAAAAAAAANk\"}",
            "{\"result\":\"3  #0000000000000003\"",
            "{\"result\":\"step 15  sum.mms:15",
            "\"reason\":\"goto\",\"description\":\"step 15\"",
            "{\"address\":\"0x00000000000000fc\"",
            "{\"address\":\"0x0000000000000100\",\"instructionBytes\":\"e3 01 00 03\",\"instruction\":\"SETL $1,3\",\"symbol\":\"Main\"",
        ],
    },
    Row {
        requests: &[
            "{\"seq\":2,\"type\":\"request\",\"command\":\"launch\",\"arguments\":{\"program\":\"bad.mms\"}}",
            "{\"seq\":3,\"type\":\"request\",\"command\":\"launch\",\"arguments\":{\"program\":\"none.mms\"}}",
            "{\"seq\":4,\"type\":\"request\",\"command\":\"launch\",\"arguments\":{\"program\":\"sum.mms\",\"args\":1}}",
            "{\"seq\":5,\"type\":\"request\",\"command\":\"stackTrace\"}",
            "{\"seq\":6,\"type\":\"request\",\"command\":\"fly\"}",
            "{\"seq\":7,\"type\":\"event\",\"event\":\"x\"}",
            "{\"seq\":8",
        ],
        sent: &[
            "\"category\":\"stderr\",\"output\":\"",
            "FOO",
            "\"request_seq\":2,\"success\":false,\"command\":\"launch\"",
            "\"event\":\"terminated\"",
            "\"request_seq\":3,\"success\":false,\"command\":\"launch\"",
            "\"request_seq\":4,\"success\":false,\"command\":\"launch\",\"message\":\"args is no list of texts\"",
            "\"request_seq\":5,\"success\":false,\"command\":\"stackTrace\",\"message\":\"no program is launched\"",
            "\"request_seq\":6,\"success\":false,\"command\":\"fly\",\"message\":\"there is no such request\"",
            "\"output\":\"this is no JSON\\n\"",
        ],
    },
    Row {
        requests: &[
            "{\"seq\":2,\"type\":\"request\",\"command\":\"launch\",\"arguments\":{\"program\":\"sum.mms\",\"noDebug\":true}}",
            CONFIGURED,
            "{\"seq\":4,\"type\":\"request\",\"command\":\"disconnect\"}",
        ],
        sent: &[
            "\"category\":\"stdout\",\"output\":\"done\\n\"",
            "{\"exitCode\":12}",
            "\"event\":\"terminated\"",
        ],
    },
    Row {
        requests: &[
            LAUNCH,
            CONFIGURED,
            "{\"seq\":4,\"type\":\"request\",\"command\":\"continue\"}",
            "{\"seq\":5,\"type\":\"request\",\"command\":\"next\",\"arguments\":{\"threadId\":\"one\"}}",
            "{\"seq\":6,\"type\":\"request\",\"command\":\"stackTrace\",\"arguments\":{\"levels\":1}}",
            "{\"seq\":7,\"type\":\"request\",\"command\":\"scopes\",\"arguments\":{}}",
            "{\"seq\":8,\"type\":\"request\",\"command\":\"variables\",\"arguments\":{}}",
            "{\"seq\":9,\"type\":\"request\",\"command\":\"evaluate\",\"arguments\":{\"context\":\"hover\"}}",
            "{\"seq\":10,\"type\":\"request\",\"command\":\"readMemory\",\"arguments\":{\"memoryReference\":\"0x100\"}}",
            "{\"seq\":11,\"type\":\"request\",\"command\":\"readMemory\",\"arguments\":{\"count\":8}}",
            "{\"seq\":12,\"type\":\"request\",\"command\":\"disassemble\",\"arguments\":{\"memoryReference\":\"0x100\"}}",
            "{\"seq\":13,\"type\":\"request\",\"command\":\"setBreakpoints\",\"arguments\":{\"breakpoints\":[{\"line\":9}]}}",
            "{\"seq\":14,\"type\":\"request\",\"command\":\"setBreakpoints\",\"arguments\":{\"source\":{\"path\":\"sum.mms\"},\"breakpoints\":[{\"line\":9},{}]}}",
            "{\"seq\":15,\"type\":\"request\",\"command\":\"setFunctionBreakpoints\",\"arguments\":{}}",
            "{\"seq\":16,\"type\":\"request\",\"command\":\"setFunctionBreakpoints\",\"arguments\":{\"breakpoints\":[{\"condition\":\"k == 1\"}]}}",
            "{\"seq\":17,\"type\":\"request\",\"command\":\"setInstructionBreakpoints\",\"arguments\":{\"breakpoints\":[{\"offset\":4}]}}",
            "{\"seq\":18,\"type\":\"request\",\"command\":\"setDataBreakpoints\",\"arguments\":{\"breakpoints\":[{\"accessType\":\"write\"}]}}",
            "{\"seq\":19,\"type\":\"request\",\"command\":\"setExceptionBreakpoints\",\"arguments\":{}}",
            "{\"seq\":20,\"type\":\"request\",\"command\":\"dataBreakpointInfo\",\"arguments\":{}}",
            "{\"seq\":21,\"type\":\"request\",\"command\":\"source\",\"arguments\":{}}",
            "{\"seq\":22,\"type\":\"request\",\"command\":\"continue\",\"arguments\":{\"threadId\":1}}",
        ],
        sent: &[
            "\"event\":\"stopped\"",
            "\"request_seq\":4,\"success\":false,\"command\":\"continue\",\"message\":\"threadId",
            "\"request_seq\":5,\"success\":false,\"command\":\"next\",\"message\":\"threadId",
            "\"request_seq\":6,\"success\":false,\"command\":\"stackTrace\",\"message\":\"threadId",
            "\"request_seq\":7,\"success\":false,\"command\":\"scopes\",\"message\":\"frameId",
            "\"request_seq\":8,\"success\":false,\"command\":\"variables\",\"message\":\"variablesReference",
            "\"request_seq\":9,\"success\":false,\"command\":\"evaluate\",\"message\":\"expression",
            "\"request_seq\":10,\"success\":false,\"command\":\"readMemory\",\"message\":\"count",
            "\"request_seq\":11,\"success\":false,\"command\":\"readMemory\",\"message\":\"memoryReference",
            "\"request_seq\":12,\"success\":false,\"command\":\"disassemble\",\"message\":\"instructionCount",
            "\"request_seq\":13,\"success\":false,\"command\":\"setBreakpoints\",\"message\":\"source",
            "\"request_seq\":14,\"success\":false,\"command\":\"setBreakpoints\",\"message\":\"breakpoints[1].line",
            "\"request_seq\":15,\"success\":false,\"command\":\"setFunctionBreakpoints\",\"message\":\"breakpoints",
            "\"request_seq\":16,\"success\":false,\"command\":\"setFunctionBreakpoints\",\"message\":\"breakpoints[0].name",
            "\"request_seq\":17,\"success\":false,\"command\":\"setInstructionBreakpoints\",\"message\":\"breakpoints[0].instructionReference",
            "\"request_seq\":18,\"success\":false,\"command\":\"setDataBreakpoints\",\"message\":\"breakpoints[0].dataId",
            "\"request_seq\":19,\"success\":false,\"command\":\"setExceptionBreakpoints\",\"message\":\"filters",
            "\"request_seq\":20,\"success\":false,\"command\":\"dataBreakpointInfo\",\"message\":\"name",
            "\"request_seq\":21,\"success\":false,\"command\":\"source\",\"message\":\"sourceReference",
            "\"request_seq\":22,\"success\":true",
            "\"reason\":\"end\",\"description\":\"step 24\"",
        ],
    },
    Row {
        requests: &[
            "{\"seq\":2,\"type\":\"request\",\"command\":\"initialize\",\"arguments\":{}}",
            "{\"seq\":3,\"type\":\"request\",\"command\":\"configurationDone\"}",
            "{\"seq\":4,\"type\":\"request\",\"command\":\"pause\",\"arguments\":{\"threadId\":1}}",
            "{\"seq\":5,\"type\":\"request\",\"command\":\"threads\"}",
        ],
        sent: &[
            "\"request_seq\":2,\"success\":false,\"command\":\"initialize\",\"message\":\"adapterID",
            "\"request_seq\":3,\"success\":false,\"command\":\"configurationDone\",\"message\":\"no program is launched",
            "\"request_seq\":4,\"success\":false,\"command\":\"pause\",\"message\":\"no program is launched",
            "\"request_seq\":5,\"success\":true",
        ],
    },
    Row {
        requests: &[
            "{}",
            "[]",
            "{\"seq\":4,\"type\":\"response\",\"request_seq\":1,\"success\":true,\"command\":\"threads\"}",
            "{\"seq\":5,\"type\":\"request\",\"command\":\"threads\"}",
            "{\"seq\":6,\"type\":\"request\",\"command\":\"disconnect\"}",
        ],
        sent: &[
            "{\"seq\":2,\"type\":\"event\",\"event\":\"output\",",
            "\"output\":\"this is no request\\n\"",
            "{\"seq\":3,\"type\":\"event\",\"event\":\"output\",",
            "{\"seq\":4,\"type\":\"event\",\"event\":\"output\",",
            "{\"seq\":5,\"type\":\"response\",\"request_seq\":5,\"success\":true",
            "{\"seq\":6,\"type\":\"response\",\"request_seq\":6,\"success\":true",
        ],
    },
];

#[test]
fn requests_are_answered(rt: HostRuntime) {
    assert_eq!(rt; find_lack(rt.alloc(), &ROWS), None);
}
