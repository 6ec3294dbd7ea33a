//! What no clause says: that the calls succeed where there is memory, and what reaches the system.

use crate::{
    FileStore, Got, MemSink, MemStore, Sink, SinkFault, StdSink, Store, StoreFault, put_decimal,
    put_hex8, u32_at,
};
use std::fs;
use std::test::Fail;

#[test]
fn numbers_are_read_and_written(rt: HostRuntime) -> Result<(), Fail> {
    let mut text = Vec::new(rt.alloc());
    put_hex8(0x0804_80ab, &mut text)?;
    put_decimal(18_446_744_073_709_551_615, &mut text)?;
    assert_eq!(rt; text.as_slice(), b"080480ab18446744073709551615".as_slice());
    assert_eq!(rt; u32_at(&[9, 0x78, 0x56, 0x34, 0x12], 1), Some(0x1234_5678));
    Ok(())
}

#[test]
fn memory_store_keeps_names(rt: HostRuntime) -> Result<(), Fail> {
    let alloc = rt.alloc();
    let none = Vec::new(alloc);
    let second = vec![in alloc; 2u64]?;
    let mut store = MemStore::new(alloc, second, none)?;
    store.add("a", b"one")?;
    assert_eq!(rt; store.put("b", b"two"), Ok(()));
    assert!(rt;
        store
            .file("a")
            .is_some_and(|held| held == b"one".as_slice())
    );

    let mut to = Vec::new(alloc);
    assert_eq!(rt; store.get("b", 3, &mut to), Ok(Got::Whole));
    assert_eq!(rt; to.as_slice(), b"two".as_slice());
    assert_eq!(rt;
        store.get("b", 3, &mut Vec::new(alloc)),
        Err(StoreFault::Failed)
    );
    assert_eq!(rt; store.get("b", 2, &mut Vec::new(alloc)), Ok(Got::TooLong));
    assert_eq!(rt;
        store.get("c", 2, &mut Vec::new(alloc)),
        Err(StoreFault::Failed)
    );

    Ok(())
}

#[test]
fn memory_store_fails_where_told(rt: HostRuntime) -> Result<(), Fail> {
    let alloc = rt.alloc();
    let none = Vec::new(alloc);
    let second = vec![in alloc; 2u64]?;
    let mut store = MemStore::new(alloc, none, second)?;
    assert_eq!(rt; store.put("a", b"1"), Ok(()));
    assert_eq!(rt; store.put("a", b"2"), Err(StoreFault::Failed));
    assert!(rt; store.file("a").is_some_and(|held| held == b"1".as_slice()));
    Ok(())
}

#[test]
fn memory_sink_keeps_bytes(rt: HostRuntime) -> Result<(), Fail> {
    let alloc = rt.alloc();
    let mut sink = MemSink::new(alloc, vec![in alloc; 2u64]?)?;
    assert_eq!(rt; sink.put(b"one "), Ok(()));
    assert_eq!(rt; sink.put(b"two "), Err(SinkFault::Failed));
    assert_eq!(rt; sink.put(b"three"), Ok(()));
    assert_eq!(rt; sink.bytes(), b"one three".as_slice());
    Ok(())
}

#[test]
fn files_are_written_and_read(rt: HostRuntime) -> Result<(), Fail> {
    let alloc = rt.alloc();
    let path = "mv_base_file_store_test.bin";
    let bytes = vec![in alloc; 0x5au8; 70_000]?;
    let mut store = FileStore::new(alloc, &rt);
    assert_eq!(rt; store.put(path, bytes.as_slice()), Ok(()));
    let mut to = Vec::new(alloc);
    assert_eq!(rt; store.get(path, 70_000, &mut to), Ok(Got::Whole));
    assert!(rt; to.as_slice() == bytes.as_slice());
    assert_eq!(rt;
        store.get(path, 69_999, &mut Vec::new(alloc)),
        Ok(Got::TooLong)
    );
    fs::remove_file(&rt, path)?;
    assert_eq!(rt;
        store.get(path, 9, &mut Vec::new(alloc)),
        Err(StoreFault::Failed)
    );
    assert_eq!(rt;
        store.put("no such folder/file", b""),
        Err(StoreFault::Failed)
    );
    // a read that fails is no end of the file, and a write that fails is no success
    assert_eq!(rt;
        store.get("/", 9, &mut Vec::new(alloc)),
        Err(StoreFault::Failed)
    );
    assert_eq!(rt; store.put("/dev/full", b"a"), Err(StoreFault::Failed));
    Ok(())
}

#[test]
fn standard_output_takes_bytes(rt: HostRuntime) {
    let mut sink = StdSink::new(&rt);
    assert_eq!(rt; sink.put(b"a line\n"), Ok(()));
}
