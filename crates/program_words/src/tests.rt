//! Words of the form, and others.

use crate::words::read_words;
use std::alloc::{AllocError, Global};
use std::test::Fail;

fn owned(alloc: Global, words: &[&str]) -> Result<Vec<String>, AllocError> {
    let mut strings = Vec::new(alloc);
    for word in words {
        strings.push(String::from_str(alloc, word)?)?;
    }
    Ok(strings)
}

#[test]
fn reads_words(rt: HostRuntime) -> Result<(), Fail> {
    let cases: [&[&str]; 2] = [
        &["step", "demo", "plan", "s1.sql"],
        &["step", "demo", "plan", "s1.sql", "s2.sql", "s-3"],
    ];
    for words in cases {
        let strings = owned(rt.alloc(), words)?;
        let read = read_words(strings.as_slice());
        assert!(rt; read.is_some());
        if let Some(read) = read {
            assert_eq!(rt; read.database, "demo");
            assert_eq!(rt; read.plan, "plan");
            assert_eq!(rt; read.scripts.len() + 3, words.len());
            for (script, word) in read.scripts.iter().zip(words.iter().skip(3)) {
                assert_eq!(rt; script.as_str(), *word);
            }
        }
    }
    Ok(())
}

#[test]
fn refuses_words(rt: HostRuntime) -> Result<(), Fail> {
    let cases: [&[&str]; 8] = [
        &[],
        &["step", "demo"],
        &["step", "demo", "plan"],
        &["run", "demo", "plan", "s1.sql"],
        &["step", "", "plan", "s1.sql"],
        &["step", "demo", "-plan", "s1.sql"],
        &["step", "demo", "plan", "s1.sql", ""],
        &["step", "demo", "plan", "s1.sql", "--frames=40"],
    ];
    for words in cases {
        let strings = owned(rt.alloc(), words)?;
        assert!(rt; read_words(strings.as_slice()).is_none());
    }
    Ok(())
}
