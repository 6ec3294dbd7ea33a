//! What no clause says: that the calls succeed where there is memory, and a table word by word.

use crate::table::{Table, table_len};
use elf32_read::Run;
use mv_base::{Bytes, u32_at};
use std::test::Fail;

#[test]
fn a_run_of_1025_addresses_has_two_groups(rt: HostRuntime) -> Result<(), Fail> {
    let alloc = rt.alloc();
    let bytes = Bytes::new(vec![in alloc; 0; 1025]?);
    let runs = [Run {
        lo: 0x0804_8054,
        bytes,
    }];
    assert_eq!(rt; table_len(&runs, &[0x0804_8059]), 8200);

    let pairs = [
        (0x0804_8054, 0x0010_0000),
        (0x0804_8059, 0x0010_0020),
        (0x0804_805E, 0x0010_0040),
    ];
    let table = Table::build(alloc, &runs, &pairs, 0x0010_1000)?;
    assert_eq!(rt; table.entry(0x0804_8059), Some(0x0010_0020));
    assert_eq!(rt; table.entry(0x0804_8055), None);
    assert_eq!(rt; table.entry(0), None);
    assert_eq!(rt; table.dirs(), [0x0010_2000].as_slice());

    let words = table.bytes();
    assert_eq!(rt; words.len(), 8200);
    assert_eq!(rt; u32_at(words, 4096), Some(0x0010_2008));
    assert_eq!(rt; u32_at(words, 4100), Some(0x0010_1000));
    assert_eq!(rt; u32_at(words, 4104), Some(0x0010_0000));
    assert_eq!(rt; u32_at(words, 4124), Some(0x0010_0020));
    Ok(())
}
