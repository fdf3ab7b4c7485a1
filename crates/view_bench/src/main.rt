//! What `bench/views.sh` times: what is asked of views over a core that is read from a file.
#![tactic(auto)]

mod asked;
mod viewed;

use crate::asked::asked_often;
use std::{env, io};
use umem_base::{DiskFolder, Text, read_file};

/// How many bytes the file may have.
const MOST_BYTES: usize = 268_435_456;

fn main(rt: HostRuntime) -> io::Result<()> {
    let mut files = DiskFolder::new(&rt);
    let mut bytes = Vec::new(rt.alloc());
    for word in env::args(&rt)?.skip(1) {
        if bytes.is_empty() {
            if let Ok(name) = Text::from_slice(rt.alloc(), word.as_bytes()) {
                if let Ok(read) = read_file(rt.alloc(), &mut files, &name, MOST_BYTES) {
                    bytes = read;
                }
            }
        } else {
            println!(rt; "{word} {}", asked_often(rt.alloc(), &bytes, word.as_str()))?;
        }
    }
    Ok(())
}
