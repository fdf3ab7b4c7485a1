//! Which buffers are reached from the roots.

ghost use Rattle.std.specs.Prelude.{◌≡◌, ◌<◌};

use crate::cores::changes::{row, sides};
use crate::cores::sample::core_bytes;
use crate::cores::samples::{CYCLE, MIXED, PLAIN, SESSION, TWO_THREADS};
use crate::cores::scene::{Sample, put_address, store, view_of};
use crate::fault::SampleFault;
use findleaks::{Classes, classes};
use heap_view::{Buffer, View};
use std::alloc::Global;
use std::marker::Brand;
use std::process::Abort;
use std::sync::ledger::{Blank, Ledger};
use std::test::Fail;
use umem_base::{NoMemory, Sequence, Steps, Text, read_hex};

// What words are stored where, and the buffers that are reached then.
const OF_PLAIN: &str = ":
1000=100000 : 100000
1000=100001 : 100000
1000=100017 : 100000
1000=100018 :
1000=fffff :
1000=100030 1008=100030 : 100030
1ff8=100060 : 100060
2000=100060 : 100060
2ff8=100060 : 100060
1000=101000 : 101000
1000=102004 : 101000
1000=102005 :
1000=103013 : 103000
1000=103014 :
1000=1000f0 :
1000=1000f0 1000f0=100000 :
1000=100000 100000=1000f0 1000f0=100030 : 100000
1000=100030 100030=100030 : 100030
100030=100030 :
1000=100000 100000=100030 100030=100060 : 100000 100030 100060
1000=100000 100010=100030 : 100000 100030
1000=100000 100018=100030 : 100000
100000=100030 100030=100000 :
1000=100000 100000=100030 100030=100000 : 100000 100030
1000=100030 100030=100060 100060=100030 : 100030 100060
1000=1000c0 1000c0=101800 101ff8=100090 : 100090 1000c0 101000
1000=101000 101ff8=100000 : 100000 101000
1000=101000 102000=100000 : 101000
1000=103000 103008=100000 : 100000 103000
1000=103000 103010=100000 : 103000";

// A buffer whose four neighbours were freed, and a large one: a word that points into free chunks keeps nothing.
const OF_MIXED: &str = ":
1000=100030 100030=100000 :
2000=102250 102250=103000 :
2000=100000 100000=103000 : 100000 103000";

const OF_CYCLE: &str = ": 100060
1000=100047 : 100000 100030 100060
1020=0 :
1030=1000a7 : 100060 100090";

const OF_SESSION: &str = ": 102000
1008=100060 : 100060 102000
1010=101000 : 101000 102000";

const OF_THREADS: &str = ": 100030
2008=100000 : 100000 100030
3008=0 :";

const PLAIN_CORE: Sample = Sample {
    text: PLAIN,
    header: 84,
    pages: 4,
};

const MIXED_CORE: Sample = Sample {
    text: MIXED,
    header: 84,
    pages: 4,
};

const CYCLE_CORE: Sample = Sample {
    text: CYCLE,
    header: 72,
    pages: 1,
};

const SESSION_CORE: Sample = Sample {
    text: SESSION,
    header: 72,
    pages: 3,
};

const THREADS_CORE: Sample = Sample {
    text: TWO_THREADS,
    header: 84,
    pages: 1,
};

/// The two classes of buffers, by a counter of its own.
fn counted_classes<L: Ledger>(alloc: Global, view: &View, blank: Blank) -> Result<Classes, NoMemory>
    requires name { blank.name ≡ L.name }
    requires parts { blank.parts ≡ L.parts }
    requires some { 0 < L.parts }
{
    let mut steps = Steps::<L>::new(blank);
    classes(alloc, view, &mut steps)
}

fn classes_of(alloc: Global, view: &View) -> Result<Classes, NoMemory> {
    counted_classes::<Brand>(alloc, view, Blank::new(1))
}

/// Stores words, each of which is named by its address and its value.
fn point(bytes: &mut [u8], sample: &Sample, words: &str) -> Result<(), SampleFault> {
    for word in words.split_whitespace() {
        let (address, value) = sides(word)?;
        let value = read_hex(value.as_bytes())?;
        store(
            bytes,
            sample,
            read_hex(address.as_bytes())?,
            &value.to_le_bytes(),
        )?;
    }
    Ok(())
}

/// The view of a sample in which these words are stored.
fn view_with(alloc: Global, sample: &Sample, words: &str) -> Result<Option<View>, SampleFault> {
    let mut bytes = core_bytes(alloc, sample.text)?;
    point(&mut bytes, sample, words)?;
    Ok(view_of(alloc, &bytes))
}

/// The addresses of buffers, each behind a space.
fn addresses(alloc: Global, buffers: &Sequence<Buffer>) -> Result<Text, NoMemory> {
    let mut out = Text::new(alloc);
    for buffer in buffers.as_slice() {
        put_address(&mut out, buffer.address)?;
    }
    Ok(out)
}

/// Tells whether these are the reached buffers, and all others leaked.
fn are_reached(alloc: Global, view: &View, want: &str) -> Result<bool, SampleFault> {
    let classes = classes_of(alloc, view)?;
    let told = addresses(alloc, &classes.reached)?;
    let reached = classes.reached.as_slice().len();
    let leaked = classes.leaked.as_slice().len();
    Ok(
        told.as_slice().trim_ascii() == want.as_bytes()
            && view.buffers().len().checked_sub(reached) == Some(leaked),
    )
}

fn are_told(rt: &impl Abort, alloc: Global, sample: &Sample, table: &str) -> Result<(), Fail> {
    for line in table.lines() {
        let (words, want) = row(line)?;
        let view = view_with(alloc, sample, words)?.ok_or("a view")?;
        assert!(rt; are_reached(alloc, &view, want)?, "{line}");
    }
    Ok(())
}

#[test]
fn follows_words(rt: HostRuntime) -> Result<(), Fail> {
    are_told(&rt, rt.alloc(), &PLAIN_CORE, OF_PLAIN)
}

#[test]
fn follows_words_of_sessions(rt: HostRuntime) -> Result<(), Fail> {
    are_told(&rt, rt.alloc(), &MIXED_CORE, OF_MIXED)?;
    are_told(&rt, rt.alloc(), &CYCLE_CORE, OF_CYCLE)?;
    are_told(&rt, rt.alloc(), &SESSION_CORE, OF_SESSION)?;
    are_told(&rt, rt.alloc(), &THREADS_CORE, OF_THREADS)
}
