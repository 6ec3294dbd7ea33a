//! Programs that fault inside the pieces of calls, jumps and returns, and programs with counters: what both files' traces
//! print, worked out by hand from the instructions, the pieces and the counter.

use super::files::file_of;
use super::traces::{AT_REST, is_followed, is_traced};
use std::alloc::Global;
use std::test::Fail;

/// Registers and flags that are all as at the start, but for ESP, which is 0.
const NO_STACK: &str =
    "regs 00000000 00000000 00000000 00000000 00000000 00000000 00000000 00000000\nflags 00000202\n";

/// `mov esp,0` and a call.
const CALL: &[u8] = b"\xbc\0\0\0\0\xe8\0\0\0\0";

/// Code; words that rewrite it, and the last line that they print; registers and flags; and the last two lines of the trace of
/// the file. Then the lines of the counters and the last two of the trace of its rewritten form.
#[derive(Clone, Copy)]
struct Row {
    code: &'static [u8],
    words: &'static str,
    last: &'static str,
    counts: &'static str,
    state: &'static str,
    end: &'static str,
    rewritten: &'static str,
}

/// A row without counters whose file has no stack.
fn no_stack(code: &'static [u8], end: &'static str, rewritten: &'static str) -> Row {
    Row {
        code,
        words: "rewrite a b",
        last: "counters 0\n",
        counts: "",
        state: NO_STACK,
        end,
        rewritten,
    }
}

/// Instructions that fault: a call through address 0, and with ESP 0 calls, returns and a jump.
fn faults() -> [Row; 6] {
    [
        Row {
            state: AT_REST,
            ..no_stack(
                b"\xff\x15\0\0\0\0",
                "end trap read 00000000\nsteps 0\n",
                "end trap read 00000000\nsteps 1\n",
            )
        },
        no_stack(
            CALL,
            "end trap write fffffffc\nsteps 1\n",
            "end trap write fffffffc\nsteps 1\n",
        ),
        no_stack(
            b"\xbc\0\0\0\0\xff\xd0",
            "end trap write fffffffc\nsteps 1\n",
            "end trap write fffffffc\nsteps 5\n",
        ),
        no_stack(
            b"\xbc\0\0\0\0\xc3",
            "end trap read 00000000\nsteps 1\n",
            "end trap read 00000000\nsteps 1\n",
        ),
        no_stack(
            b"\xbc\0\0\0\0\xc2\x08\0",
            "end trap read 00000000\nsteps 1\n",
            "end trap read 00000000\nsteps 1\n",
        ),
        no_stack(
            b"\xbc\0\0\0\0\xff\xe0",
            "end trap fetch 00000000\nsteps 2\n",
            "end trap fetch 00000000\nsteps 25\n",
        ),
    ]
}

/// `inc eax` twice and `hlt`.
const TWO_INC: Row = Row {
    code: b"\x40\x40\xf4",
    words: "rewrite a b --count=at:08048055",
    last: "counters 1\n",
    counts: "count 08048055 1\n",
    state: "regs 00000002 00000000 00000000 00000000 bfffefe0 00000000 00000000 00000000\nflags 00000202\n",
    end: "end trap protection\nsteps 2\n",
    rewritten: "end trap protection\nsteps 9\n",
};

fn counted() -> [Row; 5] {
    [
        Row {
            code: b"\xf7\xf1",
            words: "rewrite a b --count=all",
            counts: "count 08048054 1\n",
            state: AT_REST,
            end: "end trap divide\nsteps 0\n",
            rewritten: "end trap divide\nsteps 7\n",
            ..TWO_INC
        },
        Row {
            code: b"\xcc",
            words: "rewrite a b --count=all",
            counts: "count 08048054 1\n",
            state: AT_REST,
            end: "end trap breakpoint\nsteps 0\n",
            rewritten: "end trap breakpoint\nsteps 7\n",
            ..TWO_INC
        },
        TWO_INC,
        // no instruction lies at the address
        Row {
            words: "rewrite a b --count=at:08048057",
            last: "counters 0\n",
            counts: "",
            rewritten: "end trap protection\nsteps 2\n",
            ..TWO_INC
        },
        Row {
            words: "rewrite a b --count=all",
            last: "counters 9\n",
            counts: "count 08048054 1\ncount 08048059 1\n",
            ..no_stack(
                CALL,
                "end trap write fffffffc\nsteps 1\n",
                "end trap write fffffffc\nsteps 15\n",
            )
        },
    ]
}

/// Branches and loops with two counters: `dec ecx` from 3 until it is 0, and a branch of which both ways lead to one address.
fn edges() -> [Row; 2] {
    [
        Row {
            code: b"\xb9\x03\0\0\0\x49\x75\xfd\xf4",
            words: "rewrite a b --edges=at:0804805a",
            last: "counters 2\n",
            counts: "taken 0804805a 2\nnottaken 0804805a 1\n",
            state: "regs 00000000 00000000 00000000 00000000 bfffefe0 00000000 00000000 00000000\nflags 00000246\n",
            end: "end trap protection\nsteps 7\n",
            rewritten: "end trap protection\nsteps 31\n",
        },
        Row {
            code: b"\x74\0\xf4",
            words: "rewrite a b --edges=all",
            last: "counters 2\n",
            counts: "nottaken 08048054 1\n",
            state: AT_REST,
            end: "end trap protection\nsteps 1\n",
            rewritten: "end trap protection\nsteps 9\n",
        },
    ]
}

/// Whether a row's code, and its rewritten form, have its lines.
fn is_met(alloc: Global, row: &Row) -> Result<bool, Fail> {
    let file = file_of(alloc, row.code)?;
    let mut state = String::from_str(alloc, row.counts)?;
    state.push_str(row.state)?;
    let trace = ("trace a l 100", "log 1\n");
    let lines = (state.as_str(), row.rewritten);
    Ok(
        is_traced(alloc, trace.0, &file, trace.1, (row.state, row.end))?
            && is_followed(alloc, (row.words, row.last), trace, &file, lines)?,
    )
}

#[test]
fn faults_and_counters(rt: HostRuntime) -> Result<(), Fail> {
    let (faults, counted, edges) = (faults(), counted(), edges());
    for rows in [faults.as_slice(), counted.as_slice(), edges.as_slice()] {
        for row in rows {
            assert!(rt; is_met(rt.alloc(), row)?, "{:?} {}", row.code, row.words);
        }
    }
    Ok(())
}
