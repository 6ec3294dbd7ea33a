//! Programs, each traced as it is and as its rewritten form: what is printed, worked out by hand from the instructions, from
//! the pieces, the joins and the stub. And what a trace refuses.

use super::files::{CODE, EXIT, Head, file_of, full_of_headers};
use super::rewriting::{DATA, LARGE_CODE, MANY_HEADERS, NO_HEADER};
use super::{NONE, Reply, answer};
use mv_base::Status;
use std::alloc::Global;
use std::test::Fail;

/// A file, which is the code behind a head, or alone; a log, and the words of a trace. Then the report's lines of calls, registers
/// and flags, and the last two of the file and of its rewritten form, which are empty where that isn't traced.
#[derive(Clone, Copy)]
struct Row {
    head: Option<Head>,
    code: &'static [u8],
    log: &'static str,
    words: &'static str,
    state: &'static str,
    end: &'static str,
    rewritten: &'static str,
}

/// Registers and flags of which only ESP isn't as at the start of all.
pub(super) const AT_REST: &str =
    "regs 00000000 00000000 00000000 00000000 bfffefe0 00000000 00000000 00000000\nflags 00000202\n";

/// Maps the whole file, of 90 bytes.
const WHOLE_FILE: Head = Head {
    entry: CODE,
    count: 1,
    headers: &[[1, 0, 0x0804_8000, 0x5a, 0x5a, 5]],
};

/// Maps eight bytes at 0x08048074, and one on another page.
const TWO_RUNS: Head = Head {
    entry: 0x0804_8074,
    count: 2,
    headers: &[
        [1, 0x74, 0x0804_8074, 8, 8, 5],
        [1, 0x7c, 0x0805_007c, 1, 1, 5],
    ],
};

/// Maps 12 bytes of code at 0x08048074, and the first page of the stack.
const STACK: Head = Head {
    entry: 0x0804_8074,
    count: 2,
    headers: &[
        [1, 0x74, 0x0804_8074, 12, 12, 5],
        [1, 0, 0xbff0_0000, 0, 0x1000, 6],
    ],
};

/// Maps the same code, and as many bytes of zeros as may be mapped in all.
const MUCH: Head = Head {
    entry: 0x0804_8074,
    count: 2,
    headers: &[
        [1, 0x74, 0x0804_8074, 12, 12, 5],
        [1, 0, 0x1000_0000, 0, 0x0400_0000, 6],
    ],
};

/// The headers of a compiler: code at 0x08048094, a note, and the stack's marks.
const COMPILED: Head = Head {
    entry: 0x0804_8094,
    count: 3,
    headers: &[
        [1, 0x94, 0x0804_8094, 28, 28, 5],
        [4, 0, 0, 0, 0, 4],
        [0x6474_e551, 0, 0, 0, 0, 6],
    ],
};

/// Maps 64 bytes of code, and behind them a counter of 8 bytes and 64 private bytes, which may be written.
const COUNTER: Head = Head {
    entry: 0x0804_8074,
    count: 2,
    headers: &[
        [1, 0x74, 0x0804_8074, 64, 64, 5],
        [1, 0xb4, 0x0805_00b4, 8, 72, 6],
    ],
};

/// `stc`, `mov ecx,5`, the 46 bytes that count one more, `mov eax` from the counter's low word, `mov edx` from its high one and
/// `hlt`; then the counter, which wraps in nine steps, and goes from 5 to 6 in seven.
static COUNTERS: [Row; 2] = [
    Row {
        head: Some(COUNTER),
        code: b"\xf9\xb9\x05\0\0\0\x89\x0d\xbc\0\x05\x08\x8b\x0d\xb4\0\x05\x08\x8d\x49\x01\x89\x0d\xb4\0\x05\x08\xe3\x02\xeb\x0f\x8b\x0d\xb8\0\x05\x08\x8d\x49\x01\x89\x0d\xb8\0\x05\x08\x8b\x0d\xbc\0\x05\x08\xa1\xb4\0\x05\x08\x8b\x15\xb8\0\x05\x08\xf4\xff\xff\xff\xff\xff\xff\xff\xff",
        log: "log 1\n",
        words: "trace a l 100",
        state: "regs 00000000 00000005 00000000 00000000 bfffefe0 00000000 00000000 00000000\nflags 00000203\n",
        end: "end trap protection\nsteps 13\n",
        rewritten: "",
    },
    Row {
        head: Some(COUNTER),
        code: b"\xf9\xb9\x05\0\0\0\x89\x0d\xbc\0\x05\x08\x8b\x0d\xb4\0\x05\x08\x8d\x49\x01\x89\x0d\xb4\0\x05\x08\xe3\x02\xeb\x0f\x8b\x0d\xb8\0\x05\x08\x8d\x49\x01\x89\x0d\xb8\0\x05\x08\x8b\x0d\xbc\0\x05\x08\xa1\xb4\0\x05\x08\x8b\x15\xb8\0\x05\x08\xf4\x05\0\0\0\0\0\0\0",
        log: "log 1\n",
        words: "trace a l 100",
        state: "regs 00000006 00000005 00000000 00000000 bfffefe0 00000000 00000000 00000000\nflags 00000203\n",
        end: "end trap protection\nsteps 11\n",
        rewritten: "",
    },
];

/// Programs that use no table of addresses.
static DIRECT: [Row; 12] = [
    Row {
        head: None,
        code: EXIT,
        log: "log 1\ngone\n",
        words: "trace a l 100",
        state: "call 00000001 00000007 00000000 00000000 00000000 00000000 00000000\nregs 00000001 00000000 00000000 00000007 bfffefe0 00000000 00000000 00000000\nflags 00000202\n",
        end: "end gone\nsteps 2\n",
        rewritten: "end gone\nsteps 2\n",
    },
    // a jump into its own second byte, `inc eax`
    Row {
        head: None,
        code: b"\xeb\xff\xc0",
        log: "log 1\n",
        words: "trace a l 10",
        state: "regs 00000001 00000000 00000000 00000000 bfffefe0 00000000 00000000 00000000\nflags 00000202\n",
        end: "end trap fetch 08048057\nsteps 2\n",
        rewritten: "end trap fetch 08048057\nsteps 3\n",
    },
    // JECXZ at 0, LOOP from 0, LOOP from 1
    Row {
        head: None,
        code: b"\xf9\xe3\x01\xf4\xe2\x01\xf4\xb9\x01\0\0\0\xe2\x01\xf4\xcc",
        log: "log 1\n",
        words: "trace a l 100",
        state: "regs 00000000 00000000 00000000 00000000 bfffefe0 00000000 00000000 00000000\nflags 00000203\n",
        end: "end trap protection\nsteps 5\n",
        rewritten: "end trap protection\nsteps 8\n",
    },
    // `rep movsd` that faults in its third iteration
    Row {
        head: None,
        code: b"\xbe\x54\x80\x04\x08\xbf\xf8\xef\xff\xbf\xb9\x04\0\0\0\xf3\xa5",
        log: "log 1\n",
        words: "trace a l 100",
        state: "regs 00000000 00000002 00000000 00000000 bfffefe0 00000000 0804805c bffff000\nflags 00000202\n",
        end: "end trap write bffff000\nsteps 3\n",
        rewritten: "end trap write bffff000\nsteps 3\n",
    },
    // an instruction that is cut, and one outside the profile
    Row {
        head: None,
        code: b"\xb8\x01",
        log: "log 1\n",
        words: "trace a l 10",
        state: AT_REST,
        end: "end outside\nsteps 0\n",
        rewritten: "end trap fetch 08048054\nsteps 0\n",
    },
    Row {
        head: None,
        code: b"\xf3\x0f\xbc\xc1\xf4",
        log: "log 1\n",
        words: "trace a l 10",
        state: AT_REST,
        end: "end outside\nsteps 0\n",
        rewritten: "end trap fetch 08048054\nsteps 0\n",
    },
    // a jump to address 0
    Row {
        head: None,
        code: b"\xe9\xa7\x7f\xfb\xf7",
        log: "log 1\n",
        words: "trace a l 100",
        state: AT_REST,
        end: "end trap fetch 00000000\nsteps 1\n",
        rewritten: "end trap fetch 00000000\nsteps 1\n",
    },
    // the program reads its own entry
    Row {
        head: Some(WHOLE_FILE),
        code: b"\xa1\x18\x80\x04\x08\xf4",
        log: "log 1\n",
        words: "trace a l 100",
        state: "regs 08048054 00000000 00000000 00000000 bfffefe0 00000000 00000000 00000000\nflags 00000202\n",
        end: "end trap protection\nsteps 1\n",
        rewritten: "end trap protection\nsteps 2\n",
    },
    // POPFD with TF
    Row {
        head: None,
        code: b"\x68\0\x01\0\0\x9d",
        log: "log 1\n",
        words: "trace a l 100",
        state: "regs 00000000 00000000 00000000 00000000 bfffefdc 00000000 00000000 00000000\nflags 00000202\n",
        end: "end outside\nsteps 1\n",
        rewritten: "end outside\nsteps 1\n",
    },
    // an entry that may not be executed
    Row {
        head: Some(DATA),
        code: EXIT,
        log: "log 1\n",
        words: "trace a l 100",
        state: AT_REST,
        end: "end trap fetch 08048054\nsteps 0\n",
        rewritten: "end trap fetch 08048054\nsteps 0\n",
    },
    // the stack is taken
    Row {
        head: Some(STACK),
        code: EXIT,
        log: "log 1\n",
        words: "trace a l 100",
        state: "regs 00000000 00000000 00000000 00000000 00000000 00000000 00000000 00000000\nflags 00000202\n",
        end: "end nostack\nsteps 0\n",
        rewritten: "",
    },
    // more code than is rewritten
    Row {
        head: Some(LARGE_CODE),
        code: EXIT,
        log: "log 1\n",
        words: "trace a l 100",
        state: "regs 00000001 00000000 00000000 00000007 bfffefe0 00000000 00000000 00000000\nflags 00000202\n",
        end: "end noanswer\nsteps 2\n",
        rewritten: "",
    },
];

/// `int 0x80` and `hlt`, with several logs.
static SYSTEM_CALLS: [Row; 4] = [
    Row {
        head: None,
        code: b"\xcd\x80\xf4",
        log: "log 1\n",
        words: "trace a l 100",
        state: AT_REST,
        end: "end noanswer\nsteps 0\n",
        rewritten: "end noanswer\nsteps 0\n",
    },
    Row {
        head: None,
        code: b"\xcd\x80\xf4",
        log: "log 1\nret 00000000\nmap 40000000 00001000 x -\n",
        words: "trace a l 100",
        state: AT_REST,
        end: "end outside\nsteps 0\n",
        rewritten: "end outside\nsteps 0\n",
    },
    Row {
        head: None,
        code: b"\xcd\x80\xf4",
        log: "log 1\nret 00000000\nwrite 40000000 00\n",
        words: "trace a l 100",
        state: AT_REST,
        end: "end badanswer\nsteps 0\n",
        rewritten: "end badanswer\nsteps 0\n",
    },
    Row {
        head: None,
        code: b"\xcd\x80\xf4",
        log: "log 1\nret ffffffff\n",
        words: "trace a l 100",
        state: "call 00000000 00000000 00000000 00000000 00000000 00000000 00000000\nregs ffffffff 00000000 00000000 00000000 bfffefe0 00000000 00000000 00000000\nflags 00000202\n",
        end: "end trap protection\nsteps 1\n",
        rewritten: "end trap protection\nsteps 1\n",
    },
];

/// Programs that go through the table of addresses.
static INDIRECT: [Row; 8] = [
    // a call whose callee reads its return address
    Row {
        head: None,
        code: b"\xe8\x02\0\0\0\xf4\x90\x8b\x1c\x24\xc3",
        log: "log 1\n",
        words: "trace a l 100",
        state: "regs 00000000 00000000 00000000 08048059 bfffefe0 00000000 00000000 00000000\nflags 00000202\n",
        end: "end trap protection\nsteps 3\n",
        rewritten: "end trap protection\nsteps 33\n",
    },
    // `call esp`, and a call that takes its target before the push
    Row {
        head: None,
        code: b"\xff\xd4",
        log: "log 1\n",
        words: "trace a l 100",
        state: "regs 00000000 00000000 00000000 00000000 bfffefdc 00000000 00000000 00000000\nflags 00000202\n",
        end: "end trap fetch bfffefe0\nsteps 1\n",
        rewritten: "end trap fetch bfffefe0\nsteps 25\n",
    },
    Row {
        head: None,
        code: b"\xff\x54\x24\x04",
        log: "log 1\narg 61\n",
        words: "trace a l 100",
        state: "regs 00000000 00000000 00000000 00000000 bfffefdc 00000000 00000000 00000000\nflags 00000202\n",
        end: "end trap fetch bfffeffe\nsteps 1\n",
        rewritten: "end trap fetch bfffeffe\nsteps 25\n",
    },
    // `ret 8` with flags set
    Row {
        head: None,
        code: b"\xb0\x7f\x04\x01\xf9\xfd\x68\x62\x80\x04\x08\xc2\x08\0\xf4",
        log: "log 1\n",
        words: "trace a l 100",
        state: "regs 00000080 00000000 00000000 00000000 bfffefe8 00000000 00000000 00000000\nflags 00000e93\n",
        end: "end trap protection\nsteps 6\n",
        rewritten: "end trap protection\nsteps 36\n",
    },
    // a jump to the second run
    Row {
        head: Some(TWO_RUNS),
        code: b"\x68\x7c\0\x05\x08\xff\x24\x24\xf4",
        log: "log 1\n",
        words: "trace a l 100",
        state: "regs 00000000 00000000 00000000 00000000 bfffefdc 00000000 00000000 00000000\nflags 00000202\n",
        end: "end trap protection\nsteps 2\n",
        rewritten: "end trap protection\nsteps 38\n",
    },
    Row {
        head: None,
        code: b"\xff\xe4",
        log: "log 1\n",
        words: "trace a l 100",
        state: AT_REST,
        end: "end trap fetch bfffefe0\nsteps 1\n",
        rewritten: "end trap fetch bfffefe0\nsteps 24\n",
    },
    // ID is kept through a lookup
    Row {
        head: None,
        code: b"\x68\0\0\x20\0\x9d\x68\x60\x80\x04\x08\xc3\xf4",
        log: "log 1\n",
        words: "trace a l 100",
        state: "regs 00000000 00000000 00000000 00000000 bfffefe0 00000000 00000000 00000000\nflags 00200202\n",
        end: "end trap protection\nsteps 4\n",
        rewritten: "end trap protection\nsteps 33\n",
    },
    Row {
        head: Some(COMPILED),
        code: b"\xf3\x0f\x1e\xfb\xe8\x0c\0\0\0\xb8\x01\0\0\0\xcd\x80\x0f\x1f\x44\0\0\xbb\x2a\0\0\0\xf3\xc3",
        log: "log 1\ngone\n",
        words: "trace a l 100",
        state: "call 00000001 0000002a 00000000 00000000 00000000 00000000 00000000\nregs 00000001 00000000 00000000 0000002a bfffefe0 00000000 00000000 00000000\nflags 00000202\n",
        end: "end gone\nsteps 5\n",
        rewritten: "end gone\nsteps 35\n",
    },
];

/// GS, descriptors and CPUID.
static SEGMENTS: [Row; 7] = [
    // a descriptor of an answer, `mov eax,0x33`, `mov gs,ax`, and a read of the program's first bytes through GS
    Row {
        head: None,
        code: b"\xcd\x80\xb8\x33\0\0\0\x8e\xe8\x65\xa1\x14\0\0\0\xf4",
        log: "log 1\nret 00000000\ndesc 00000006 08048040\n",
        words: "trace a l 100",
        state: "call 00000000 00000000 00000000 00000000 00000000 00000000 00000000\nregs 33b880cd 00000000 00000000 00000000 bfffefe0 00000000 00000000 00000000\nflags 00000202\n",
        end: "end trap protection\nsteps 4\n",
        rewritten: "end trap protection\nsteps 4\n",
    },
    // a read and a jump through GS without a base
    Row {
        head: None,
        code: b"\x65\xa1\0\0\0\0",
        log: "log 1\n",
        words: "trace a l 100",
        state: AT_REST,
        end: "end trap protection\nsteps 0\n",
        rewritten: "end trap protection\nsteps 0\n",
    },
    Row {
        head: None,
        code: b"\x65\xff\x25\0\0\0\0",
        log: "log 1\n",
        words: "trace a l 100",
        state: AT_REST,
        end: "end trap protection\nsteps 0\n",
        rewritten: "end trap protection\nsteps 1\n",
    },
    // `cpuid`, with an answer of its own, without one, and with a system call's
    Row {
        head: None,
        code: b"\x0f\xa2\xf4",
        log: "log 1\ncpuid 00000001 00000002 00000003 00000004\n",
        words: "trace a l 100",
        state: "regs 00000001 00000003 00000004 00000002 bfffefe0 00000000 00000000 00000000\nflags 00000202\n",
        end: "end trap protection\nsteps 1\n",
        rewritten: "end trap protection\nsteps 1\n",
    },
    Row {
        head: None,
        code: b"\x0f\xa2\xf4",
        log: "log 1\n",
        words: "trace a l 100",
        state: AT_REST,
        end: "end noanswer\nsteps 0\n",
        rewritten: "end noanswer\nsteps 0\n",
    },
    Row {
        head: None,
        code: b"\x0f\xa2\xf4",
        log: "log 1\nret 00000000\n",
        words: "trace a l 100",
        state: AT_REST,
        end: "end badanswer\nsteps 0\n",
        rewritten: "end badanswer\nsteps 0\n",
    },
    // a selector of a table that isn't there
    Row {
        head: None,
        code: b"\xb8\x34\0\0\0\x8e\xe8",
        log: "log 1\n",
        words: "trace a l 100",
        state: "regs 00000034 00000000 00000000 00000000 bfffefe0 00000000 00000000 00000000\nflags 00000202\n",
        end: "end trap protection\nsteps 1\n",
        rewritten: "end trap protection\nsteps 1\n",
    },
];

/// Whether an answer is that of a trace with these lines of the state and of the end.
fn is_report(answer: &Reply, state: &str, end: &str) -> bool {
    let text = answer.text.as_slice();
    answer.is_kept
        && answer.status == Status::Done
        && text.starts_with(state.as_bytes())
        && text.get(state.len()..) == Some(end.as_bytes())
}

/// Whether a file's trace, by these words over this log, has these lines.
pub(super) fn is_traced(
    alloc: Global,
    words: &str,
    file: &[u8],
    log: &str,
    lines: (&str, &str),
) -> Result<bool, Fail> {
    let answer = answer(alloc, words, &[("a", file), ("l", log.as_bytes())], NONE)?;
    Ok(is_report(&answer, lines.0, lines.1))
}

/// Whether the rewritten form of a file has these lines. Such words rewrite it, and print such a line last.
pub(super) fn is_followed(
    alloc: Global,
    rewrite: (&str, &str),
    trace: (&str, &str),
    file: &[u8],
    lines: (&str, &str),
) -> Result<bool, Fail> {
    let answer = answer(alloc, rewrite.0, &[("a", file)], NONE)?;
    let is_done = answer.is_kept
        && answer.status == Status::Done
        && answer.text.ends_with(rewrite.1.as_bytes());
    let (words, log) = trace;
    Ok(is_done && is_traced(alloc, words, answer.written.as_slice(), log, lines)?)
}

/// Whether a row's file, and its rewritten form, have its lines.
fn is_met(alloc: Global, row: &Row) -> Result<bool, Fail> {
    let file = match row.head {
        Some(head) => head.file(alloc, row.code)?,
        None => file_of(alloc, row.code)?,
    };
    if !is_traced(alloc, row.words, &file, row.log, (row.state, row.end))? {
        return Ok(false);
    }
    if row.rewritten.is_empty() {
        return Ok(true);
    }
    let rewrite = ("rewrite a b", "");
    let lines = (row.state, row.rewritten);
    is_followed(alloc, rewrite, (row.words, row.log), &file, lines)
}

/// The first row that isn't met.
fn first_wrong(alloc: Global, rows: &[Row]) -> Result<Option<usize>, Fail> {
    for (number, row) in rows.iter().enumerate() {
        if !is_met(alloc, row)? {
            return Ok(Some(number));
        }
    }
    Ok(None)
}

#[test]
fn programs_are_traced(rt: HostRuntime) -> Result<(), Fail> {
    assert_eq!(rt; first_wrong(rt.alloc(), &DIRECT)?, None);
    assert_eq!(rt; first_wrong(rt.alloc(), &COUNTERS)?, None);
    Ok(())
}

#[test]
fn indirect_transfers_are_traced(rt: HostRuntime) -> Result<(), Fail> {
    assert_eq!(rt; first_wrong(rt.alloc(), &INDIRECT)?, None);
    Ok(())
}

#[test]
fn answers_are_traced(rt: HostRuntime) -> Result<(), Fail> {
    assert_eq!(rt; first_wrong(rt.alloc(), &SYSTEM_CALLS)?, None);
    assert_eq!(rt; first_wrong(rt.alloc(), &SEGMENTS)?, None);
    Ok(())
}

#[test]
fn more_headers_than_are_rewritten_are_traced(rt: HostRuntime) -> Result<(), Fail> {
    let full = full_of_headers(rt.alloc())?;
    let lines = (AT_REST, "end trap protection\nsteps 0\n");
    assert!(rt; is_traced(rt.alloc(), "trace a l 100", &full, "log 1\n", lines)?);
    Ok(())
}

/// Headers with `EXIT` behind them, a log, and what a trace is refused with. An image is judged before a log.
static REFUSED: [(Option<Head>, &str, Status, &str); 5] = [
    (
        None,
        "log 1\nret 00000000\nwrit 40000000 00\n",
        Status::BadLog,
        "multiverse: bad log: line 3\n",
    ),
    (None, "", Status::BadLog, "multiverse: bad log: line 1\n"),
    (
        Some(NO_HEADER),
        "",
        Status::BadImage,
        "multiverse: bad image: HeadersOutside\n",
    ),
    (
        Some(MANY_HEADERS),
        "",
        Status::BadImage,
        "multiverse: bad image: HeaderCount\n",
    ),
    (
        Some(MUCH),
        "log 1\n",
        Status::TooLarge,
        "multiverse: too large: mapped 68161536\n",
    ),
];

/// Whether a trace is refused so.
fn is_refused(
    alloc: Global,
    words: &str,
    files: super::Files<'_>,
    status: Status,
    text: &str,
) -> Result<bool, Fail> {
    Ok(answer(alloc, words, files, NONE)?.is(status, text, b""))
}

#[test]
fn traces_are_refused(rt: HostRuntime) -> Result<(), Fail> {
    let alloc = rt.alloc();
    let words = "trace a l 100";
    for (head, log, status, text) in &REFUSED {
        let file = match head {
            Some(head) => head.file(alloc, EXIT)?,
            None => file_of(alloc, EXIT)?,
        };
        let files: [(&str, &[u8]); 2] = [("a", &file), ("l", log.as_bytes())];
        assert!(rt; is_refused(alloc, words, &files, *status, text)?, "{text}");
    }
    let files: [(&str, &[u8]); 2] = [("a", b"no image"), ("l", b"")];
    let text = "multiverse: bad image: ShortHeader\n";
    assert!(rt; is_refused(alloc, words, &files, Status::BadImage, text)?);
    Ok(())
}

#[test]
fn logs_are_read_before_images_are_judged(rt: HostRuntime) -> Result<(), Fail> {
    let files: [(&str, &[u8]); 2] = [("a", b"no image"), ("l", b"no log")];
    let text = "multiverse: cannot read c\n";
    for words in ["trace a c 0", "trace c d 0"] {
        assert!(rt; is_refused(rt.alloc(), words, &files, Status::ReadFault, text)?);
    }
    Ok(())
}
