//! What `bench/script.sh` times: scripts that are read, written and drawn.
#![tactic(auto)]

use script::laws::plans_have_their_caches;
use script::{MOST_CALLS_1, MOST_CALLS_2, make_script, read_script, script_text};
use std::alloc::Global;
use std::{env, io};
use umem_base::{NoMemory, Text, put_decimal};

/// How often the words that end in `ten` do what they name.
const TIMES: u32 = 10;

fn main(rt: HostRuntime) -> io::Result<()> {
    for word in env::args(&rt)?.skip(1) {
        let alloc = rt.alloc();
        let done = match word.as_str() {
            "bytes" => long_bytes(alloc),
            "drawn_bytes" => drawn_bytes(alloc),
            "read" => read_often(alloc, 1),
            "read_ten" => read_often(alloc, TIMES),
            "write" => write_often(alloc, 1),
            "write_ten" => write_often(alloc, TIMES),
            "make" => make_often(alloc, 1),
            "make_ten" => make_often(alloc, TIMES),
            _ => 0,
        };
        println!(rt; "{word} {done}")?;
    }
    Ok(())
}

/// A script of version 2 with as many calls as there may be, each with two frames: some 4 MiB.
fn long_script(alloc: Global) -> Result<Text, NoMemory> {
    let mut text = Text::from_slice(alloc, b"umem 2 cpus 4 threads 4\nphase\n")?;
    for call in 0..MOST_CALLS_2 {
        put_call(&mut text, call)?;
    }
    Ok(text)
}

fn put_call(text: &mut Text, call: u32) -> Result<(), NoMemory> {
    if call % 2 == 0 {
        text.push_slice(b"0 alloc $")?;
    } else {
        text.push_slice(b"0 free $")?;
    }
    put_decimal(text, u64::from(call / 2 % 512), 0)?;
    text.push_slice(b" 24 @ 401200,401000\n")
}

/// How many bytes the long script has.
fn long_bytes(alloc: Global) -> usize {
    match long_script(alloc) {
        Ok(text) => text.as_slice().len(),
        Err(NoMemory) => 0,
    }
}

/// How many bytes the text of the longest drawn script has.
fn drawn_bytes(alloc: Global) -> usize {
    plans_have_their_caches();
    let Ok(script) = make_script(alloc, 0, MOST_CALLS_1) else {
        return 0;
    };
    match script_text(alloc, &script) {
        Ok(text) => text.as_slice().len(),
        Err(NoMemory) => 0,
    }
}

/// Reads the long script so many times, and tells how often it was one.
fn read_often(alloc: Global, times: u32) -> usize {
    let Ok(text) = long_script(alloc) else {
        return 0;
    };
    let mut done = 0;
    for time in 0..times {
        if read_script(alloc, text.as_slice()).is_err() {
            return done;
        }
        done = time as usize + 1;
    }
    done
}

/// Writes the long script so many times, and tells how often it could.
fn write_often(alloc: Global, times: u32) -> usize {
    plans_have_their_caches();
    let Ok(text) = long_script(alloc) else {
        return 0;
    };
    let Ok(script) = read_script(alloc, text.as_slice()) else {
        return 0;
    };
    let mut done = 0;
    for time in 0..times {
        if script_text(alloc, &script).is_err() {
            return done;
        }
        done = time as usize + 1;
    }
    done
}

/// Draws the longest script so many times, and tells how often it could.
fn make_often(alloc: Global, times: u32) -> usize {
    let mut done = 0;
    for time in 0..times {
        if make_script(alloc, 0, MOST_CALLS_1).is_err() {
            return done;
        }
        done = time as usize + 1;
    }
    done
}
