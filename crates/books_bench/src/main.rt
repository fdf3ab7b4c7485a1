//! What `bench/books.sh` times: calls that are made by the commits of books, and places that are found to fit.
#![tactic(auto)]

mod calls;
mod places;

use crate::calls::{make_often, read_calls};
use crate::places::{make_slabs, picture_often};
use std::{env, io};
use umem_base::NoMemory;

/// How often the words that end in `ten` do what they name.
const TIMES: u32 = 10;

fn main(rt: HostRuntime) -> io::Result<()> {
    for word in env::args(&rt)?.skip(1) {
        let alloc = rt.alloc();
        let done = match word.as_str() {
            "read" => read_calls(alloc),
            "calls" => make_often(alloc, 1),
            "calls_ten" => make_often(alloc, TIMES),
            "slabs" => make_slabs(alloc),
            "picture" => picture_often(alloc, 1),
            "picture_ten" => picture_often(alloc, TIMES),
            _ => Ok(0),
        };
        match done {
            Ok(count) => println!(rt; "{word} {count}")?,
            Err(NoMemory) => println!(rt; "{word} no memory")?,
        }
    }
    Ok(())
}
