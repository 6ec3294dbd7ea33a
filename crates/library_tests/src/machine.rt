//! Small programs, each run until it stops or for a hundred steps, with ample memory.

ghost use Rattle.std.specs.Prelude.{◌≡◌, ◌≤◌, length};
ghost use Rattle.x86_machine.specs.Stepping.{HasRoom};

use crate::files::{CODE, code, file_of};
use elf32_read::read_image;
use std::alloc::Global;
use std::test::Fail;
use syscall_log::{Log, read_log};
use x86_machine::{Answers, Kind, Machine, Outcome};

/// The steps that a machine completes, at most a hundred, and what the next one gives.
fn run(machine: &mut Machine, log: &Log) -> (u32, Outcome)
    requires room { length log.now.answers ≤ machine.old.calls.spare }
    requires descs { HasRoom machine.old log.now 0 }
{
    let mut answers = Answers { log, next: 0 };
    for done in 0..100 {
        match machine.step(&mut answers) {
            Outcome::Next => {}
            outcome => return (done, outcome),
        }
    }
    (100, Outcome::Next)
}

/// How a program ends: the steps that are completed, what the next one gives, the registers, the flags as PUSHFD stores them,
/// GS with its base, the number of calls and the first one's words, and the first descriptor.
#[derive(Clone, Copy)]
struct End {
    steps: u32,
    outcome: Outcome,
    regs: [u32; 8],
    flags: u32,
    gs: (u16, Option<u32>),
    calls: (usize, Option<[u32; 7]>),
    desc: Option<(u32, u32)>,
}

/// How a machine ended that has completed these steps.
fn end_of(machine: &Machine, steps: u32, outcome: Outcome) -> End {
    let calls = machine.calls.as_slice();
    End {
        steps,
        outcome,
        regs: machine.regs,
        flags: machine.flags.image(),
        gs: (machine.gs, machine.gs_base),
        calls: (calls.len(), calls.first().map(|call| call.words)),
        desc: machine.descs.as_slice().first().copied(),
    }
}

/// The file of a program.
fn program(alloc: Global, bytes: &[u8]) -> Result<Vec<u8>, Fail> {
    let len = u32::try_from(bytes.len()).ok().ok_or("a length")?;
    Ok(file_of(alloc, CODE, &[code(0x54, CODE, len)], bytes)?)
}

/// How the program of a file ends over a log, where there is memory.
fn ended_over(alloc: Global, file: &[u8], log: &Log) -> Option<End> {
    let image = read_image(alloc, file).ok()?;
    let mut machine = Machine::start(alloc, &image, file, log).ok()?;
    let (steps, outcome) = run(&mut machine, log);
    Some(end_of(&machine, steps, outcome))
}

/// How a program ends with the log that this text spells.
fn ended(alloc: Global, bytes: &[u8], text: &[u8]) -> Result<End, Fail> {
    let log = read_log(alloc, text)?;
    let file = program(alloc, bytes)?;
    Ok(ended_over(alloc, &file, &log).ok_or("a machine")?)
}

/// A program, the text of a log, the steps, the outcome, EAX, EBX, ECX, ESP and the flags as PUSHFD stores them.
type Row = (&'static [u8], &'static [u8], u32, Outcome, [u32; 4], u32);

/// A log without answers.
const NO_ANSWER: &[u8] = b"log 1\n";

/// The outcome at `hlt`.
const PROTECTION: Outcome = Outcome::Trap(Kind::Protection, 0);

/// ESP at the start.
const TOP: u32 = 0xBFFF_EFE0;

static ALONE: [Row; 16] = [
    // mov al,0x7f; add al,1: signed overflow
    (
        b"\xB0\x7F\x04\x01\xF4",
        NO_ANSWER,
        2,
        PROTECTION,
        [0x80, 0, 0, TOP],
        0xA92,
    ),
    // popfd of an image with TF
    (
        b"\x68\x00\x01\x00\x00\x9D",
        NO_ANSWER,
        1,
        Outcome::Outside,
        [0, 0, 0, 0xBFFF_EFDC],
        0x202,
    ),
    // popfd of an image with ID, then a return
    (
        b"\x68\x00\x00\x20\x00\x9D\x68\x60\x80\x04\x08\xC3\xF4",
        NO_ANSWER,
        4,
        PROTECTION,
        [0, 0, 0, TOP],
        0x20_0202,
    ),
    // a jump into its own second byte, inc eax
    (
        b"\xEB\xFF\xC0",
        NO_ANSWER,
        2,
        Outcome::Trap(Kind::FetchFault, 0x0804_8057),
        [1, 0, 0, TOP],
        0x202,
    ),
    // a call whose callee reads its return address
    (
        b"\xE8\x02\x00\x00\x00\xF4\x90\x8B\x1C\x24\xC3",
        NO_ANSWER,
        3,
        PROTECTION,
        [0, 0x0804_8059, 0, TOP],
        0x202,
    ),
    // call esp
    (
        b"\xFF\xD4",
        NO_ANSWER,
        1,
        Outcome::Trap(Kind::FetchFault, TOP),
        [0, 0, 0, 0xBFFF_EFDC],
        0x202,
    ),
    // ret 8 with CF, AF, SF, DF and OF set
    (
        b"\xB0\x7F\x04\x01\xF9\xFD\x68\x62\x80\x04\x08\xC2\x08\x00\xF4",
        NO_ANSWER,
        6,
        PROTECTION,
        [0x80, 0, 0, 0xBFFF_EFE8],
        0xE93,
    ),
    // jecxz at 0, loop from 0 to ffffffff, loop from 1 to 0
    (
        b"\xF9\xE3\x01\xF4\xE2\x01\xF4\xB9\x01\x00\x00\x00\xE2\x01\xF4\xCC",
        NO_ANSWER,
        5,
        PROTECTION,
        [0, 0, 0, TOP],
        0x203,
    ),
    // int3
    (
        b"\xCC",
        NO_ANSWER,
        0,
        Outcome::Trap(Kind::Breakpoint, 0),
        [0, 0, 0, TOP],
        0x202,
    ),
    // rep movsd faults in its third iteration
    (
        MOVES,
        NO_ANSWER,
        3,
        Outcome::Trap(Kind::WriteFault, 0xBFFF_F000),
        [0, 0, 2, TOP],
        0x202,
    ),
    // an instruction cut by the code's end
    (
        b"\xB8\x01",
        NO_ANSWER,
        0,
        Outcome::Outside,
        [0, 0, 0, TOP],
        0x202,
    ),
    // a division by 0; ud2; a system call without an answer
    (
        b"\xF7\xF1",
        NO_ANSWER,
        0,
        Outcome::Trap(Kind::Divide, 0),
        [0, 0, 0, TOP],
        0x202,
    ),
    (
        b"\x0F\x0B",
        NO_ANSWER,
        0,
        Outcome::Trap(Kind::Invalid, 0),
        [0, 0, 0, TOP],
        0x202,
    ),
    (CALL, NO_ANSWER, 0, Outcome::NoAnswer, [0, 0, 0, TOP], 0x202),
    // gs gets the selector 0x34, whose low bits are no user's; a read through gs without a base
    (
        b"\xB8\x34\x00\x00\x00\x8E\xE8",
        NO_ANSWER,
        1,
        PROTECTION,
        [0x34, 0, 0, TOP],
        0x202,
    ),
    (
        b"\x65\xA1\x00\x00\x00\x00",
        NO_ANSWER,
        0,
        PROTECTION,
        [0, 0, 0, TOP],
        0x202,
    ),
];

/// mov esi,0x08048054; mov edi,0xbfffeff8; mov ecx,4; rep movsd
const MOVES: &[u8] = b"\xBE\x54\x80\x04\x08\xBF\xF8\xEF\xFF\xBF\xB9\x04\x00\x00\x00\xF3\xA5";

/// int 0x80; hlt
const CALL: &[u8] = b"\xCD\x80\xF4";

/// cpuid; hlt
const IDENTIFY: &[u8] = b"\x0F\xA2\xF4";

/// int 0x80; mov eax,0x33; mov gs,ax; int 0x80, which gives the descriptor another base; mov eax,gs:[0x14]; hlt
const THROUGH_GS: &[u8] =
    b"\xCD\x80\xB8\x33\x00\x00\x00\x8E\xE8\xCD\x80\x65\xA1\x14\x00\x00\x00\xF4";

const DESCRIPTORS: &[u8] =
    b"log 1\nret 00000000\ndesc 00000006 08048040\nret 00000000\ndesc 00000006 00000000\n";

/// mov eax,1; mov ebx,7; int 0x80
const EXIT: &[u8] = b"\xB8\x01\x00\x00\x00\xBB\x07\x00\x00\x00\xCD\x80";

const IDENTIFIED: &[u8] = b"log 1\ncpuid 00000001 00000002 00000003 00000004\n";

static ANSWERED: [Row; 10] = [
    // an answer that maps executable bytes, and one that writes where nothing is mapped
    (
        CALL,
        b"log 1\nret 00000000\nmap 40000000 00001000 x -\n",
        0,
        Outcome::Outside,
        [0, 0, 0, TOP],
        0x202,
    ),
    (
        CALL,
        b"log 1\nret 00000000\nwrite 40000000 00\n",
        0,
        Outcome::BadAnswer,
        [0, 0, 0, TOP],
        0x202,
    ),
    // one answer that maps a page, writes to it and takes its upper half away; then mov al,[0x40000001] and
    // mov al,[0x40000800]
    (
        b"\xCD\x80\xA0\x01\x00\x00\x40\xA0\x00\x08\x00\x40",
        b"log 1\nret 00000100\nmap 40000000 00001000 w 0102\nwrite 40000001 09\nunmap 40000800 00000800\n",
        2,
        Outcome::Trap(Kind::ReadFault, 0x4000_0800),
        [0x109, 0, 0, TOP],
        0x202,
    ),
    (
        CALL,
        b"log 1\nret ffffffff\n",
        1,
        PROTECTION,
        [0xFFFF_FFFF, 0, 0, TOP],
        0x202,
    ),
    (
        EXIT,
        b"log 1\ngone\n",
        2,
        Outcome::Gone,
        [1, 7, 0, TOP],
        0x202,
    ),
    (
        THROUGH_GS,
        DESCRIPTORS,
        5,
        PROTECTION,
        [0x33B8_80CD, 0, 0, TOP],
        0x202,
    ),
    // cpuid and int 0x80, each with an answer of the other
    (IDENTIFY, IDENTIFIED, 1, PROTECTION, [1, 2, 3, TOP], 0x202),
    (
        IDENTIFY,
        b"log 1\nret 00000000\n",
        0,
        Outcome::BadAnswer,
        [0, 0, 0, TOP],
        0x202,
    ),
    (
        b"\xCD\x80",
        IDENTIFIED,
        0,
        Outcome::BadAnswer,
        [0, 0, 0, TOP],
        0x202,
    ),
    // all pages but those of the stack and of the code
    (
        b"\xCD\x80",
        b"log 1\nret 00000000\nmap 10000000 03eff001 r -\n",
        0,
        Outcome::TooLarge(67_112_960),
        [0, 0, 0, TOP],
        0x202,
    ),
];

#[test]
fn steps_and_stops(rt: HostRuntime) -> Result<(), Fail> {
    for rows in [ALONE.as_slice(), ANSWERED.as_slice()] {
        for (code, log, steps, outcome, regs, flags) in rows {
            let end = ended(rt.alloc(), code, log)?;
            let [eax, ecx, _, ebx, esp, _, _, _] = end.regs;
            assert_eq!(rt; (end.steps, end.outcome), (*steps, *outcome));
            assert_eq!(rt; [eax, ebx, ecx, esp], *regs);
            assert_eq!(rt; end.flags, *flags);
        }
    }
    Ok(())
}

#[test]
fn keeps_iterations_calls_and_descriptors(rt: HostRuntime) -> Result<(), Fail> {
    let alloc = rt.alloc();
    let [_, ecx, _, _, _, _, esi, edi] = ended(alloc, MOVES, NO_ANSWER)?.regs;
    assert_eq!(rt; (ecx, esi, edi), (2, 0x0804_805C, 0xBFFF_F000));

    let identified = ended(alloc, IDENTIFY, IDENTIFIED)?;
    assert_eq!(rt; (identified.regs[2], identified.calls.0), (4, 0));

    let answered = ended(alloc, CALL, b"log 1\nret ffffffff\n")?;
    assert_eq!(rt; answered.calls.0, 1);

    let gone = ended(alloc, EXIT, b"log 1\ngone\n")?;
    assert_eq!(rt; gone.calls, (1, Some([1, 7, 0, 0, 0, 0, 0])));

    let based = ended(alloc, THROUGH_GS, DESCRIPTORS)?;
    assert_eq!(rt; based.gs, (0x33, Some(0x0804_8040)));
    assert_eq!(rt; based.desc, Some((6, 0)));
    Ok(())
}

/// How a file's machine ends, run from the entry once more with the memory of another file.
fn ended_anew(alloc: Global, first: &[u8], second: &[u8], log: &Log) -> Option<End> {
    let image = read_image(alloc, first).ok()?;
    let mut machine = Machine::start(alloc, &image, first, log).ok()?;
    run(&mut machine, log);
    let image = read_image(alloc, second).ok()?;
    let Machine {
        memory,
        calls,
        descs,
        ..
    } = Machine::start(alloc, &image, second, log).ok()?;
    machine.memory = memory;
    machine.calls = calls;
    machine.descs = descs;
    machine.eip = CODE;
    let (steps, outcome) = run(&mut machine, log);
    Some(end_of(&machine, steps, outcome))
}

#[test]
fn runs_the_bytes_that_stand_there_now(rt: HostRuntime) -> Result<(), Fail> {
    let alloc = rt.alloc();
    let log = read_log(alloc, NO_ANSWER)?;
    // mov al,1; hlt, and then mov al,2; nop; hlt at the same addresses
    let first = program(alloc, b"\xB0\x01\xF4")?;
    let second = program(alloc, b"\xB0\x02\x90\xF4")?;
    let end = ended_anew(alloc, &first, &second, &log).ok_or("a machine")?;
    assert_eq!(rt; (end.steps, end.outcome), (2, PROTECTION));
    assert_eq!(rt; end.regs[0], 2);
    Ok(())
}
