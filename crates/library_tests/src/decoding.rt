//! Padding, prefixes, the limit of 15 bytes, GS and CPUID: what bytes spell, by its text.

use insn_text::text;
use std::alloc::Global;
use std::test::Fail;
use x86_decode::{Decoded, decode};

/// Bytes, the text of the instruction that they begin with, and its length; or `SHORT` or `UNKNOWN`, and 0.
type Row = (&'static [u8], &'static str, u8);

/// More bytes could spell an instruction.
const SHORT: &str = "short";

/// None is spelled, whatever follows.
const UNKNOWN: &str = "unknown";

/// Whether bytes are read as a row says.
fn is_read(alloc: Global, bytes: &[u8], wanted: &str, wanted_len: u8) -> Result<bool, Fail> {
    let mut found = Vec::new(alloc);
    let len = match decode(bytes) {
        Decoded::Insn { insn, len } => {
            text(&insn, 0, &mut found)?;
            len
        }
        Decoded::Short => {
            found.extend_from_slice(SHORT.as_bytes())?;
            0
        }
        Decoded::Unknown => {
            found.extend_from_slice(UNKNOWN.as_bytes())?;
            0
        }
    };
    Ok(len == wanted_len && found.as_slice() == wanted.as_bytes())
}

/// The padding that assemblers write, by length.
static PADDING: [Row; 13] = [
    (&[0x90], "nop", 1),
    (&[0x66, 0x90], "nop", 2),
    (&[0x0F, 0x1F, 0x00], "nop", 3),
    (&[0x8D, 0x76, 0x00], "lea esi,[esi]", 3),
    (&[0x0F, 0x1F, 0x40, 0x00], "nop", 4),
    (&[0x8D, 0x74, 0x26, 0x00], "lea esi,[esi]", 4),
    (&[0x66, 0x0F, 0x1F, 0x44, 0x00, 0x00], "nop", 6),
    (&[0x8D, 0xB6, 0, 0, 0, 0], "lea esi,[esi]", 6),
    (&[0x0F, 0x1F, 0x80, 0, 0, 0, 0], "nop", 7),
    (&[0x2E, 0x8D, 0xB4, 0x26, 0, 0, 0, 0], "lea esi,[esi]", 8),
    (&[0x66, 0x0F, 0x1F, 0x84, 0, 0, 0, 0, 0], "nop", 9),
    (&[0x66, 0x2E, 0x0F, 0x1F, 0x84, 0, 0, 0, 0, 0], "nop", 10),
    (
        &[0x66, 0x66, 0x2E, 0x0F, 0x1F, 0x84, 0, 0, 0, 0, 0],
        "nop",
        11,
    ),
];

static PREFIXES: [Row; 16] = [
    (&[], SHORT, 0),
    (&[0x26; 14], SHORT, 0),
    (&[0xF3], SHORT, 0),
    (&[0xF3, 0x0F, 0x1E], SHORT, 0),
    (&[0x26; 15], UNKNOWN, 0),
    (&[0xF2, 0x90], UNKNOWN, 0),
    (&[0xF0, 0x01, 0xC0], UNKNOWN, 0),
    (&[0xF0, 0x39, 0x00], UNKNOWN, 0),
    (&[0x66, 0x88, 0x00], UNKNOWN, 0),
    (&[0x26, 0x2E, 0x90], UNKNOWN, 0),
    (&[0x07], UNKNOWN, 0),
    (&[0xF6, 0xC8, 0x00], UNKNOWN, 0),
    (&[0xF0, 0xF0, 0x01, 0x00], "lock add dword [eax],eax", 4),
    (&[0xF3, 0x90], "pause", 2),
    (&[0xF3, 0xC3], "ret", 2),
    (&[0xF3, 0x0F, 0x1E, 0xFB], "endbr32", 4),
];

/// The prefix 65, MOV to and from GS, and CPUID.
static GS: [Row; 16] = [
    (&[0x65, 0xA1, 0, 0, 0, 0], "mov eax,dword gs:[0x0]", 6),
    (&[0x65, 0x8B, 0x08], "mov ecx,dword gs:[eax]", 3),
    (&[0x65, 0x65, 0x8B, 0x00], "mov eax,dword gs:[eax]", 4),
    (&[0x8B, 0x00], "mov eax,dword [eax]", 2),
    (&[0x65, 0x8D, 0x00], UNKNOWN, 0),
    (&[0x65, 0x0F, 0x1F, 0x00], UNKNOWN, 0),
    (&[0x65, 0x8B, 0xC0], UNKNOWN, 0),
    (&[0x65, 0xF3, 0xA4], UNKNOWN, 0),
    (&[0x65, 0xF3], UNKNOWN, 0),
    (&[0x65], SHORT, 0),
    (&[0x26, 0x65, 0x8B, 0x00], UNKNOWN, 0),
    (&[0x8E, 0xE8], "mov gs,ax", 2),
    (&[0x66, 0x8E, 0xE8], "mov gs,ax", 3),
    (&[0x8C, 0xE8], "mov eax,gs", 2),
    (&[0x66, 0x8C, 0x28], "mov word [eax],gs", 3),
    (&[0x0F, 0xA2], "cpuid", 2),
];

#[test]
fn reads_padding_prefixes_and_gs(rt: HostRuntime) -> Result<(), Fail> {
    for rows in [PADDING.as_slice(), PREFIXES.as_slice(), GS.as_slice()] {
        for (bytes, text, len) in rows {
            assert!(rt; is_read(rt.alloc(), bytes, text, *len)?, "{bytes:?}");
        }
    }
    Ok(())
}

/// Behind twelve prefixes, which leave room for LOCK and the shortest form that takes it. Thirteen don't.
static LONG: [Row; 5] = [
    (&[0xF0], SHORT, 0),
    (&[0x26, 0xF0], UNKNOWN, 0),
    (&[0xF0, 0x01, 0x00], "lock add dword [eax],eax", 15),
    (&[0x26, 0x26, 0x90], "nop", 15),
    (&[0x26, 0x26, 0x26, 0x90], UNKNOWN, 0),
];

#[test]
fn reads_at_most_15_bytes(rt: HostRuntime) -> Result<(), Fail> {
    for (end, text, len) in &LONG {
        let mut bytes = vec![in rt.alloc(); 0x26; 12]?;
        bytes.extend_from_slice(end)?;
        assert!(rt; is_read(rt.alloc(), &bytes, text, *len)?, "{end:?}");
    }
    Ok(())
}
