//! Images that are read, each fault once, the two limits, and runs that touch, stand apart or aren't there.

use crate::files::{CODE, EXIT, Header, code, file_of, zeros};
use elf32_read::{ImageFault, ReadImage, admit, read_image, runs};
use std::alloc::Global;
use std::test::Fail;

/// Code behind one header.
fn one() -> [Header; 1] {
    [code(0x54, CODE, 12)]
}

/// The same code behind two headers, the second for a page of zeros.
fn two() -> [Header; 2] {
    [code(0x74, 0x0804_8074, 12), zeros(0x1000_0000, 0x1000)]
}

/// A file with other bytes at some places.
fn edited(alloc: Global, headers: &[Header], edits: &[(usize, u8)]) -> Result<Vec<u8>, Fail> {
    let entry = if headers.len() == 1 {
        CODE
    } else {
        0x0804_8074
    };
    let mut file = file_of(alloc, entry, headers, EXIT)?;
    for (place, byte) in edits {
        if let Some(old) = file.get_mut(*place) {
            *old = *byte;
        }
    }
    Ok(file)
}

/// The fault for which a file isn't read; `None` where it is.
fn fault_of(alloc: Global, file: &[u8]) -> Option<ImageFault> {
    match read_image(alloc, file) {
        Err(ReadImage::Bad(fault)) => Some(fault),
        _ => None,
    }
}

/// Edits of the file with two headers, and the first fault.
const FAULTS: [([(usize, u8); 2], ImageFault); 20] = [
    ([(0, 0), (4, 2)], ImageFault::NotElf),
    ([(4, 2), (18, 62)], ImageFault::NotElf32Little),
    ([(5, 2), (18, 62)], ImageFault::NotElf32Little),
    ([(18, 62), (16, 3)], ImageFault::NotI386),
    ([(16, 3), (6, 0)], ImageFault::NotExecutable),
    ([(6, 0), (40, 64)], ImageFault::BadVersion),
    ([(42, 56), (44, 0)], ImageFault::BadSizes),
    ([(44, 0), (28, 255)], ImageFault::HeaderCount),
    ([(44, 65), (28, 255)], ImageFault::HeaderCount),
    ([(28, 255), (52, 3)], ImageFault::HeadersOutside),
    ([(52, 3), (108, 7)], ImageFault::Interpreter(0)),
    ([(84, 2), (84, 2)], ImageFault::Dynamic(1)),
    ([(68, 13), (84, 3)], ImageFault::FileRange(0)),
    ([(72, 11), (76, 7)], ImageFault::MemorySmaller(0)),
    ([(95, 255), (107, 1)], ImageFault::AddressRange(1)),
    ([(108, 0), (95, 0)], ImageFault::NoPermission(1)),
    ([(76, 7), (84, 3)], ImageFault::WritableCode(0)),
    ([(60, 0x75), (95, 0)], ImageFault::NotCongruent(0)),
    ([(95, 0), (95, 0)], ImageFault::SharedPage(1)),
    ([(52, 0), (84, 0)], ImageFault::NoLoad),
];

#[test]
fn names_the_first_fault(rt: HostRuntime) -> Result<(), Fail> {
    let alloc = rt.alloc();
    for (edits, fault) in &FAULTS {
        let file = edited(alloc, &two(), edits)?;
        assert_eq!(rt; fault_of(alloc, &file), Some(*fault));
    }
    assert_eq!(rt; fault_of(alloc, &[]), Some(ImageFault::ShortHeader));
    let file = edited(alloc, &one(), &[])?;
    let front = file.get(..60).ok_or("a front")?;
    assert_eq!(rt; fault_of(alloc, front), Some(ImageFault::HeadersOutside));
    let file = edited(alloc, &two(), &[])?;
    assert_eq!(rt; fault_of(alloc, &file), None);
    Ok(())
}

/// What an image has: its entry, how many headers and segments, and whether it is within the limits.
type Outline = (u32, usize, usize, Result<(), ImageFault>);

fn outline(alloc: Global, file: &[u8]) -> Result<Outline, Fail> {
    let image = read_image(alloc, file)?;
    Ok((
        image.entry,
        image.headers.len(),
        image.segments.len(),
        admit(&image),
    ))
}

#[test]
fn keeps_to_the_limits(rt: HostRuntime) -> Result<(), Fail> {
    let alloc = rt.alloc();
    // a byte more than the most code, and the most
    let rows: [(&[(usize, u8)], Result<(), ImageFault>); 3] = [
        (&[], Ok(())),
        (&[(72, 1), (75, 1)], Err(ImageFault::CodeTooLarge)),
        (&[(72, 0), (75, 1)], Ok(())),
    ];
    for (edits, admitted) in rows {
        let file = edited(alloc, &one(), edits)?;
        assert_eq!(rt; outline(alloc, &file)?, (CODE, 1, 1, admitted));
    }
    let mut file = edited(alloc, &one(), &[(44, 62)])?;
    file.resize(52 + 32 * 62, 0)?;
    let full = Err(ImageFault::HeadersFull);
    assert_eq!(rt; outline(alloc, &file)?, (CODE, 62, 1, full));
    Ok(())
}

/// How many runs a file has; of the first two the first address and the number of bytes.
type Places = (usize, [(u32, usize); 2]);

#[tactic(auto, using(elf32_read::specs::Limits::limit_law))]
fn places(alloc: Global, file: &[u8]) -> Result<Places, Fail> {
    let image = read_image(alloc, file)?;
    admit(&image)?;
    let found = runs(alloc, &image, file)?;
    let mut places = [(0, 0); 2];
    for (place, run) in places.iter_mut().zip(&found) {
        *place = (run.lo, run.bytes.len());
    }
    Ok((found.len(), places))
}

#[test]
fn joins_runs_that_touch(rt: HostRuntime) -> Result<(), Fail> {
    let alloc = rt.alloc();
    let first = |len| Header {
        size: len,
        ..code(0x74, 0x0804_8074, 12)
    };
    let second = Header {
        len: 4,
        flags: 5,
        ..zeros(0x0804_9000, 0x1000)
    };
    // the second segment may be executed; the first goes up to it, or to one byte before it
    let rows: [(&[Header], Places); 4] = [
        (&two(), (1, [(0x0804_8074, 12), (0, 0)])),
        (
            &[first(0xF8C), second],
            (1, [(0x0804_8074, 0x1F8C), (0, 0)]),
        ),
        (
            &[first(0xF8B), second],
            (2, [(0x0804_8074, 0xF8B), (0x0804_9000, 0x1000)]),
        ),
        (
            &[Header {
                flags: 4,
                ..code(0x54, CODE, 12)
            }],
            (0, [(0, 0); 2]),
        ),
    ];
    for (headers, wanted) in rows {
        let file = edited(alloc, headers, &[])?;
        assert_eq!(rt; places(alloc, &file)?, wanted);
    }
    Ok(())
}
