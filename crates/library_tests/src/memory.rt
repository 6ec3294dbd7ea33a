//! Images that are loaded or too large, the stack, accesses and effects, each with ample memory.

use crate::files::{EXIT, code, file_of, zeros};
use elf32_read::read_image;
use proc_image::{EffectFault, LoadFault, Memory, StackFault, load};
use std::alloc::Global;
use std::test::Fail;
use syscall_log::{Answer, Effect, Log, read_log};
use x86_insn::Width;

/// Where the code of an image stands.
const START: u32 = 0x0804_8074;

/// The address and the size of a page of zeros.
const PAGE: (u32, u32) = (0x1000_0000, 0x1000);

/// A file of code and of zeros.
fn file(alloc: Global, (address, size): (u32, u32)) -> Result<Vec<u8>, Fail> {
    let headers = [code(0x74, START, 12), zeros(address, size)];
    Ok(file_of(alloc, START, &headers, EXIT)?)
}

/// The memory of a file.
fn loaded(alloc: Global, file: &[u8]) -> Result<Memory, LoadFault> {
    match read_image(alloc, file) {
        Ok(image) => load(alloc, &image, file),
        Err(_) => Err(LoadFault::NoMemory),
    }
}

#[test]
fn counts_pages_with_those_of_the_stack(rt: HostRuntime) -> Result<(), Fail> {
    let sizes = [(0x0400_0000, 68_161_536), (0x03F0_0000, 67_112_960)];
    for (size, mapped) in sizes {
        let file = file(rt.alloc(), (0x1000_0000, size))?;
        let fault = loaded(rt.alloc(), &file).err();
        assert_eq!(rt; fault, Some(LoadFault::TooLarge(mapped)));
    }
    Ok(())
}

/// What is done with a memory: a read, a write, a question whether so many bytes can be written, one for the code from an
/// address on, the start of a stack, and an effect, by its number.
#[derive(Clone, Copy)]
enum Act {
    Read(u32, Width),
    Write(u32, Width, u32),
    Ask(u32, u32),
    Code(u32),
    Stack,
    Effect(usize),
}

/// What comes of it: nothing more, a value, an address, how many bytes of code there are and the first three, or a fault.
#[derive(Clone, Copy, Debug, PartialEq, Eq)]
enum Got {
    Done,
    Value(u32),
    At(u32),
    Code(usize, [u8; 3]),
    NoStack(StackFault),
    Refused(EffectFault),
    NoEffect,
}

/// The effects of a log's first answer.
fn effects(log: &Log) -> &[Effect] {
    match log.answers.as_slice().first() {
        Some(Answer::Ret { effects, .. }) => effects.as_slice(),
        _ => &[],
    }
}

/// Applies an effect of a log.
fn apply(memory: &mut Memory, log: &Log, number: usize) -> Got {
    match effects(log).get(number) {
        Some(effect) if effect.keeps_bounds() => match memory.apply(effect) {
            Ok(()) => Got::Done,
            Err(fault) => Got::Refused(fault),
        },
        _ => Got::NoEffect,
    }
}

/// Does one act.
fn does(memory: &mut Memory, log: &Log, act: Act) -> Got {
    match act {
        Act::Read(at, width) => memory.read(at, width).map_or_else(Got::At, Got::Value),
        Act::Write(at, width, n) => match memory.write(at, width, n) {
            Ok(()) => Got::Done,
            Err(at) => Got::At(at),
        },
        Act::Ask(at, len) => memory.write_fault(at, len).map_or(Got::Done, Got::At),
        Act::Code(at) => {
            let mut code = [0xFF; 15];
            let len = memory.exec_bytes(at, &mut code);
            Got::Code(len, [code[0], code[1], code[2]])
        }
        Act::Stack => memory
            .start_stack(log)
            .map_or_else(Got::NoStack, Got::Value),
        Act::Effect(number) => apply(memory, log, number),
    }
}

/// The number of the first act of which something else comes than is wanted, over the memory of an image with zeros at this
/// address and of this size, and the log that a text spells.
fn first_wrong(
    alloc: Global,
    zeros: (u32, u32),
    text: &[u8],
    acts: &[(Act, Got)],
) -> Result<Option<usize>, Fail> {
    let log = read_log(alloc, text)?;
    let file = file(alloc, zeros)?;
    let mut memory = loaded(alloc, &file)?;
    for (number, (act, wanted)) in acts.iter().enumerate() {
        if does(&mut memory, &log, *act) != *wanted {
            return Ok(Some(number));
        }
    }
    Ok(None)
}

/// A log without arguments and answers.
const NOTHING: &[u8] = b"log 1\n";

const LOADED: [(Act, Got); 6] = [
    (Act::Read(START, Width::D), Got::Value(0x0000_01B8)),
    (Act::Read(0x0804_807E, Width::W), Got::Value(0x80CD)),
    (Act::Read(0x0804_807F, Width::W), Got::At(0x0804_8080)),
    (Act::Read(0x1000_0FFC, Width::D), Got::Value(0)),
    (Act::Code(0x0804_807E), Got::Code(2, [0xCD, 0x80, 0xFF])),
    (Act::Code(0x1000_0000), Got::Code(0, [0xFF; 3])),
];

/// Over zeros that go on for a byte of a second page. A write lands whole or not at all.
const WRITES: [(Act, Got); 6] = [
    (
        Act::Write(0x1000_0FFE, Width::D, 0x1122_3344),
        Got::At(0x1000_1001),
    ),
    (Act::Read(0x1000_0FFE, Width::W), Got::Value(0)),
    (Act::Write(0x1000_0FFD, Width::D, 0x1122_3344), Got::Done),
    (Act::Read(0x1000_0FFF, Width::W), Got::Value(0x1122)),
    (Act::Write(START, Width::B, 0), Got::At(START)),
    (Act::Write(0xFFFF_FFFF, Width::W, 0), Got::At(0xFFFF_FFFF)),
];

/// With the arguments "a" and "".
const STACK: [(Act, Got); 9] = [
    (Act::Stack, Got::Value(0xBFFF_EFE0)),
    (Act::Read(0xBFFF_EFE0, Width::D), Got::Value(2)),
    (Act::Read(0xBFFF_EFE4, Width::D), Got::Value(0xBFFF_EFFD)),
    (Act::Read(0xBFFF_EFE8, Width::D), Got::Value(0xBFFF_EFFF)),
    (Act::Read(0xBFFF_EFEC, Width::D), Got::Value(0)),
    (Act::Read(0xBFFF_EFFC, Width::D), Got::Value(0x0000_6100)),
    (Act::Read(0xBFFF_EFFD, Width::D), Got::At(0xBFFF_F000)),
    (Act::Ask(0xBFEF_EFFF, 2), Got::At(0xBFEF_EFFF)),
    (Act::Ask(0xBFEF_F000, 0x10_0000), Got::Done),
];

/// Where a page of zeros stands in the stack's way.
const TAKEN: [(Act, Got); 2] = [
    (Act::Stack, Got::NoStack(StackFault::Taken)),
    (Act::Read(0xBFEF_F000, Width::B), Got::At(0xBFEF_F000)),
];

/// The effects of an answer, by their numbers.
const EFFECTS: &[u8] = b"log 1
ret 00000000
map 40000000 00001000 x -
map 08048000 00001000 w -
write 40000000 00
map 40000000 04000000 w -
map 40000000 00001001 w 0708
map 40000001 00000001 r -
write 40000000 0102
write 40000000 09
unmap 40000fff 00000003
unmap 40000002 00000002
desc 00000006 40000000
";

const APPLIED: [(Act, Got); 13] = [
    (Act::Effect(0), Got::Refused(EffectFault::Executable)),
    (Act::Effect(1), Got::Refused(EffectFault::Executable)),
    (
        Act::Effect(2),
        Got::Refused(EffectFault::NotMapped(0x4000_0000)),
    ),
    (
        Act::Effect(3),
        Got::Refused(EffectFault::TooLarge(67_117_056)),
    ),
    (Act::Effect(4), Got::Done),
    (Act::Effect(5), Got::Done),
    (
        Act::Effect(6),
        Got::Refused(EffectFault::NotWritable(0x4000_0001)),
    ),
    (Act::Effect(7), Got::Done),
    (
        Act::Effect(8),
        Got::Refused(EffectFault::NotMapped(0x4000_1001)),
    ),
    (Act::Effect(9), Got::Done),
    (Act::Effect(10), Got::Done),
    (Act::Read(0x4000_0000, Width::W), Got::Value(9)),
    (Act::Read(0x4000_0000, Width::D), Got::At(0x4000_0002)),
];

#[test]
fn reads_writes_and_takes_a_stack(rt: HostRuntime) -> Result<(), Fail> {
    let alloc = rt.alloc();
    let arguments = b"log 1\narg 61\narg -\n".as_slice();
    let rows: [((u32, u32), &[u8], &[(Act, Got)]); 5] = [
        (PAGE, NOTHING, &LOADED),
        ((0x1000_0000, 0x1001), NOTHING, &WRITES),
        (PAGE, arguments, &STACK),
        ((0xBFF0_0000, 0x1000), NOTHING, &TAKEN),
        (PAGE, EFFECTS, &APPLIED),
    ];
    for (zeros, text, acts) in rows {
        assert_eq!(rt; first_wrong(alloc, zeros, text, acts)?, None);
    }
    Ok(())
}
