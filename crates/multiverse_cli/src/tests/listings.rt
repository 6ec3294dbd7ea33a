//! Listings and samples: what is printed and stored, and what cuts them off.

use super::files::{EXIT, file_of};
use super::{Failing, NONE, answer_to};
use mv_base::Status;
use std::test::Fail;

/// The sites of `EXIT`, whose last byte and whose 07 begin no instruction.
const LISTED: &str = "08048054 b801000000 mov eax,0x1
08048055 0100 add dword [eax],eax
08048056 0000 add byte [eax],al
08048057 0000 add byte [eax],al
08048058 00bb07000000 add byte [ebx+0x7],bh
08048059 bb07000000 mov ebx,0x7
0804805b 0000 add byte [eax],al
0804805c 0000 add byte [eax],al
0804805d 00cd add ch,cl
0804805e cd80 int 0x80
";

/// Code, and what is listed of its file or of another. The second is a jump into its own second byte.
static LISTINGS: [(&[u8], &str, Status, &str); 4] = [
    (EXIT, "list a", Status::Done, LISTED),
    (
        b"\xeb\xff\xc0",
        "list a",
        Status::Done,
        "08048054 ebff jmp 0x8048055\n08048055 ffc0 inc eax\n",
    ),
    (
        EXIT,
        "list b",
        Status::BadImage,
        "multiverse: bad image: ShortHeader\n",
    ),
    (
        EXIT,
        "list c",
        Status::ReadFault,
        "multiverse: cannot read c\n",
    ),
];

#[test]
fn sites_are_listed(rt: HostRuntime) -> Result<(), Fail> {
    for (code, words, status, text) in &LISTINGS {
        let image = file_of(rt.alloc(), code)?;
        let answer = answer_to(rt.alloc(), words, &image, NONE)?;
        assert!(rt; answer.is(*status, text, b"old"), "{words}");
    }
    Ok(())
}

/// 1,024 lines of 16 bytes fill a piece; the others stand in a second one.
#[test]
fn listing_is_cut_off_where_the_sink_fails(rt: HostRuntime) -> Result<(), Fail> {
    let code = vec![in rt.alloc(); 0x90u8; 1_200]?;
    let nops = file_of(rt.alloc(), &code)?;
    let rows = [
        (0, Status::Done, 19_200),
        (1, Status::SinkFault, 0),
        (2, Status::SinkFault, 16_384),
    ];
    for (print, status, len) in rows {
        let failing = Failing { print, ..NONE };
        let answer = answer_to(rt.alloc(), "list a", &nops, failing)?;
        assert_eq!(rt; (answer.status, answer.text.len()), (status, len));
    }
    Ok(())
}

/// The number of the call of `put` and of the sink that fails, the answer, the text, and how many bytes `b` has then.
static SAMPLES: [(u64, u64, Status, &str, usize); 3] = [
    (
        0,
        0,
        Status::Done,
        "sites 3\ninput 88\noutput 24576\n",
        24_576,
    ),
    (1, 0, Status::WriteFault, "multiverse: cannot write b\n", 3),
    (0, 1, Status::SinkFault, "", 24_576),
];

#[test]
fn sample_is_rewritten(rt: HostRuntime) -> Result<(), Fail> {
    let image = file_of(rt.alloc(), b"\x3c\x47\xd1\xaa")?;
    for (put, print, status, text, len) in &SAMPLES {
        let failing = Failing {
            get: 0,
            put: *put,
            print: *print,
        };
        let answer = answer_to(rt.alloc(), "sample 0 4 b", &image, failing)?;
        let written = answer.written.as_slice();
        assert!(rt; answer.is(*status, text, written), "{text}");
        assert_eq!(rt; written.len(), *len);
        // the image stands in its output
        let held = written.get(0x1000..0x1058).unwrap_or(&image);
        assert!(rt; held == image.as_slice());
    }
    Ok(())
}
