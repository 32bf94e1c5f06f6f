//! Files in memory: each opening and each read failing in turn, and files that are no texts.

use crate::files::{FileError, ReadError, read_file, read_files};
use device_mem::host::MemHost;
use std::alloc::{AllocError, Global};
use std::test::Fail;

/// A host with two files.
fn host_of(alloc: Global, second: &[u8]) -> Result<MemHost, AllocError> {
    let mut host = MemHost::new(alloc);
    host.put_script("a", b"first")?;
    host.put_script("b", second)?;
    Ok(host)
}

fn names_of(alloc: Global) -> Result<Vec<String>, AllocError> {
    let mut names = Vec::new(alloc);
    for name in ["a", "b"] {
        names.push(String::from_str(alloc, name)?)?;
    }
    Ok(names)
}

#[test]
fn reads_files(rt: HostRuntime) -> Result<(), Fail> {
    let mut host = host_of(rt.alloc(), b"second")?;
    let mut sources = Vec::new(rt.alloc());
    let read = read_file(rt.alloc(), &mut host, "b", &mut sources);
    assert!(rt; read.is_ok());
    if let Ok(text) = read {
        assert_eq!(rt; text.as_slice(), b"second".as_slice());
    }
    assert_eq!(rt; sources.len(), 1);
    let names = names_of(rt.alloc())?;
    let read = read_files(rt.alloc(), &mut host, names.as_slice(), &mut sources);
    assert!(rt; read.is_ok());
    if let Ok(texts) = read {
        let wanted: [&[u8]; 2] = [b"first", b"second"];
        assert_eq!(rt; texts.len(), 2);
        for (text, bytes) in texts.as_slice().iter().zip(wanted) {
            assert_eq!(rt; text.as_slice(), bytes);
        }
    }
    assert_eq!(rt; sources.len(), 3);
    Ok(())
}

#[test]
fn cannot_read(rt: HostRuntime) -> Result<(), Fail> {
    let names = names_of(rt.alloc())?;
    // Each opening fails; each file's first read, and its last one, which would tell the end.
    for failing in 0..6u64 {
        let mut host = host_of(rt.alloc(), b"second")?;
        let file = failing / 3;
        if failing % 3 == 0 {
            host.fail_at(&[file])?;
        } else {
            let name = if file == 0 { "a" } else { "b" };
            host.fail_reads(name, &[failing % 3 - 1])?;
        }
        let mut sources = Vec::new(rt.alloc());
        let error = read_files(rt.alloc(), &mut host, names.as_slice(), &mut sources).err();
        let wanted = FileError {
            file: file as usize,
            why: ReadError::Failed,
        };
        assert_eq!(rt; error, Some(wanted));
    }
    Ok(())
}

#[test]
fn refuses_files(rt: HostRuntime) -> Result<(), Fail> {
    let names = names_of(rt.alloc())?;
    let mut long = Vec::new(rt.alloc());
    long.resize(1_048_577, b' ')?;
    let cases: [(&[u8], ReadError); 2] = [
        (long.as_slice(), ReadError::TooLong),
        (b"SELECT\xff", ReadError::NotText),
    ];
    for (second, why) in cases {
        let mut host = host_of(rt.alloc(), second)?;
        let mut sources = Vec::new(rt.alloc());
        let error = read_files(rt.alloc(), &mut host, names.as_slice(), &mut sources).err();
        assert_eq!(rt; error, Some(FileError { file: 1, why }));
        assert_eq!(rt; sources.len(), 2);
    }
    Ok(())
}
