//! The words of the command line, as a system gives them.

use crate::tests::scene::{NOTHING, call_with, texts};
use crate::{MemWords, Status, SystemWords, given_words};
use std::env::{Env, FillError};
use std::test::Fail;
use umem_base::{NoMemory, Text};

// A system that gives these words, the first of which is the program's name, and has no variables.
#[derive(Drop)]
struct Given {
    words: Vec<Text>,
}

impl Env for Given {
    fn arg(&self, i: usize, buf: &mut [u8]) -> Result<usize, FillError> {
        let Some(word) = self.words.get(i) else {
            return Err(FillError::NotPresent);
        };
        let bytes = word.as_slice();
        if bytes.len() > buf.len() {
            return Err(FillError::TooLong);
        }
        buf[..bytes.len()].copy_from_slice(bytes);
        Ok(bytes.len())
    }

    fn var(&self, _: &str, _: &mut [u8]) -> Result<usize, FillError> {
        Err(FillError::NotPresent)
    }

    fn var_at(&self, _: usize, _: &mut [u8]) -> Result<usize, FillError> {
        Err(FillError::NotPresent)
    }
}

// A word of 1,000 bytes takes three tries.
#[test]
fn takes_words_of_any_bytes(rt: HostRuntime) -> Result<(), Fail> {
    let alloc = rt.alloc();
    let long = [b'x'; 1000];
    let words = [b"\xff".as_slice(), b"", &long, b"first\xff.umem"];
    let system = Given {
        words: texts(alloc, &words)?,
    };
    let given = given_words(&SystemWords::new(&system), alloc)?;
    assert_eq!(rt; given.len(), 3);
    assert_eq!(rt; given[0].as_slice(), b"".as_slice());
    assert_eq!(rt; given[1].as_slice(), long.as_slice());
    assert_eq!(rt; given[2].as_slice(), b"first\xff.umem".as_slice());
    // The same words from memory, which has no name of a program before them.
    let again = given_words(&MemWords { words: given }, alloc)?;
    assert_eq!(rt; again.len(), 3);
    assert_eq!(rt; again[2].as_slice(), b"first\xff.umem".as_slice());
    Ok(())
}

#[test]
fn takes_no_word_where_there_is_none(rt: HostRuntime) -> Result<(), Fail> {
    let alloc = rt.alloc();
    let given = given_words(
        &MemWords {
            words: Vec::new(alloc),
        },
        alloc,
    )?;
    assert!(rt; given.is_empty());
    let words = Vec::new(alloc);
    let given = given_words(&SystemWords::new(&Given { words }), alloc)?;
    assert!(rt; given.is_empty());
    Ok(())
}

#[test]
fn ends_without_memory_for_the_words(rt: HostRuntime) -> Result<(), Fail> {
    let outcome = call_with(&rt, rt.alloc(), Err(NoMemory), b"", NOTHING)?;
    assert_eq!(rt; outcome.number, Status::NoMemory.code());
    assert_eq!(rt; outcome.out.bytes(), b"".as_slice());
    assert_eq!(rt; outcome.err.bytes(), b"".as_slice());
    Ok(())
}
