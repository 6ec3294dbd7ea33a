//! Logs at their bounds and just past them, and their texts.

use mv_base::Bytes;
use std::alloc::Global;
use std::test::Fail;
use syscall_log::{
    Answer, AnswerList, Args, Effect, Effects, Log, LogFault, Mode, read_log, write_log,
};

/// Whether as many arguments of one length, each byte the same, are those of a log.
fn are_arguments(alloc: Global, count: usize, len: usize, byte: u8) -> Result<bool, Fail> {
    let mut args = Vec::new(alloc);
    for _ in 0..count {
        args.push(Bytes::new(vec![in alloc; byte; len]?))?;
    }
    let answers = AnswerList::new(Vec::new(alloc));
    Ok(Log::new(Args::new(args), answers).is_some())
}

#[test]
fn bounds_arguments(rt: HostRuntime) -> Result<(), Fail> {
    let rows = [
        (1_024, 63, 1, true),
        (1_024, 64, 1, false),
        (1_025, 0, 1, false),
        (1, 65_535, 255, true),
        (1, 1, 0, false),
    ];
    for (count, len, byte, log) in rows {
        assert_eq!(rt; are_arguments(rt.alloc(), count, len, byte)?, log);
    }
    Ok(())
}

/// An effect, without memory of its own.
#[derive(Clone, Copy)]
enum Row {
    Unmap {
        lo: u32,
        len: u32,
    },
    Write {
        lo: u32,
        bytes: &'static [u8],
    },
    Map {
        lo: u32,
        len: u32,
        bytes: &'static [u8],
    },
}

fn effect_of(alloc: Global, row: Row) -> Result<Effect, Fail> {
    Ok(match row {
        Row::Unmap { lo, len } => Effect::Unmap { lo, len },
        Row::Write { lo, bytes } => Effect::Write {
            lo,
            bytes: Bytes::new(Vec::from_slice(alloc, bytes)?),
        },
        Row::Map { lo, len, bytes } => Effect::Map {
            lo,
            len,
            mode: Mode::Exec,
            bytes: Bytes::new(Vec::from_slice(alloc, bytes)?),
        },
    })
}

/// Whether an answer with at most one effect is a log's before so many of `Gone`.
fn are_answers(alloc: Global, row: Option<Row>, gone: usize) -> Result<bool, Fail> {
    let mut answers = Vec::new(alloc);
    if let Some(row) = row {
        let effect = effect_of(alloc, row)?;
        answers.push(Answer::Ret {
            eax: 0,
            effects: Effects::new(vec![in alloc; effect]?),
        })?;
    }
    for _ in 0..gone {
        answers.push(Answer::Gone)?;
    }
    let args = Args::new(Vec::new(alloc));
    Ok(Log::new(args, AnswerList::new(answers)).is_some())
}

#[test]
fn bounds_answers(rt: HostRuntime) -> Result<(), Fail> {
    let unmap = |lo, len| Some(Row::Unmap { lo, len });
    let rows = [
        (unmap(0xFFFF_E000, 0x1000), 1, true),
        (unmap(0xFFFF_E001, 0x1000), 1, false),
        (unmap(0, 0), 1, false),
        (Some(Row::Write { lo: 0, bytes: &[] }), 1, false),
        (
            Some(Row::Map {
                lo: 0,
                len: 1,
                bytes: &[1, 2],
            }),
            1,
            false,
        ),
        (None, 2, false),
    ];
    for (row, gone, log) in rows {
        assert_eq!(rt; are_answers(rt.alloc(), row, gone)?, log);
    }
    Ok(())
}

/// The faulty line of a text; 0 where the text is a log's, which is then written again.
fn faulty_line(alloc: Global, text: &[u8]) -> Result<u64, Fail> {
    match read_log(alloc, text) {
        Ok(log) => {
            let mut written = Vec::new(alloc);
            write_log(&log, &mut written)?;
            Ok(if written.as_slice() == text {
                0
            } else {
                u64::MAX
            })
        }
        Err(LogFault::Line(line)) => Ok(line),
        Err(LogFault::NoMemory) => Err(Fail::from(LogFault::NoMemory)),
    }
}

/// Texts, and their faulty lines.
static TEXTS: [(&[u8], u64); 13] = [
    (b"", 1),
    (b"log 1\narg 61\n", 0),
    (b"log 1\nret ffffffff\n", 0),
    (b"log 1\nret 00000000\nwrite 40000000 00\n", 0),
    (b"log 1\nret 00000000\nwrit 40000000 00\n", 3),
    (b"log 1\nret 00000000\nmap 40000000 00001000 x -\n", 0),
    (
        b"log 1\nret 00000000\ndesc 00000001 00000000\ndesc 00001fff ffffffff\n",
        0,
    ),
    (
        b"log 1\ncpuid 00000001 00000002 00000003 ffffffff\nret 00000000\n",
        0,
    ),
    (b"log 1\nret 00000000\ndesc 00000000 00000000\n", 3),
    (b"log 1\nret 00000000\ndesc 00002000 00000000\n", 3),
    (
        b"log 1\ncpuid 00000001 00000002 00000003 00000004\ndesc 00000006 00000000\n",
        3,
    ),
    (b"log 1\ngone\ndesc 00000006 00000000\n", 3),
    (b"log 1\ncpuid 00000001 00000002 00000003\n", 2),
];

/// The faulty lines of the fronts of a text.
static FRONTS: [u64; 14] = [1, 1, 1, 1, 1, 1, 0, 2, 2, 2, 2, 2, 2, 0];

#[test]
fn names_the_faulty_line(rt: HostRuntime) -> Result<(), Fail> {
    for (text, line) in &TEXTS {
        assert_eq!(rt; faulty_line(rt.alloc(), text)?, *line);
    }
    let text = b"log 1\narg 61\n";
    for (n, line) in FRONTS.iter().enumerate() {
        assert_eq!(rt; faulty_line(rt.alloc(), &text[..n])?, *line);
    }
    Ok(())
}
