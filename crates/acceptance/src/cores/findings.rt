//! What is damaged in sample cores.

use crate::cores::changes::{changed, row};
use crate::cores::sample::core_bytes;
use crate::cores::samples::{CONSTRUCTED, GUARDED, HALF_USED, RETURNED, SESSION};
use crate::cores::scene::{Sample, overwrite, put_address, view_of};
use crate::fault::SampleFault;
use buftag::{Finding, State};
use heap_view::View;
use std::alloc::Global;
use std::process::Abort;
use std::test::Fail;
use umem_base::{NoMemory, Text, put_decimal};
use verify::{Line, findings};

// What bytes are stored where, and the findings then: address, state, cache and rule.
const OF_GUARDED: &str = ":
100000=00112233 :
100018=41 : 100000 allocated 2 guard
100044=41 : 100030 allocated 2 guard
100048=41 : 100030 allocated 2 redzone
100019=41 : 100000 allocated 2 redzone
10001c=b10f : 100000 allocated 2 sizecode
10001c=8418 : 100000 allocated 2 sizecode
10001c=00 : 100000 allocated 2 sizecode
10001c=ac10 : 100000 allocated 2 guard
100020=40 : 100000 allocated 2 tag
100028=00 : 100000 allocated 2 tag
100018=00 10001c=00 100028=00 : 100000 allocated 2 tag
100018=00 10001c=00 : 100000 allocated 2 sizecode
100044=41 100048=41 : 100030 allocated 2 guard
100060=00 : 100060 free 2 content 0
100077=00 : 100060 free 2 content 16
100078=00 : 100060 free 2 redzone
100080=00 : 100060 free 2 tag
100088=00 : 100060 free 2 tag
100078=00 100080=00 : 100060 free 2 redzone
100068=41 100078=00 100080=00 : 100060 free 2 content 8
100018=00 100060=00 100098=00 : 100000 allocated 2 guard 100060 free 2 content 0 100090 free 2 content 8
101020=00 : 101008 allocated 2 guard
100018=00 101038=00 : 100000 allocated 2 guard 101038 free 2 content 0
100ff0=41 :
101000=41 :";

const OF_SESSION: &str = ": 102000 allocated 4 guard
102028=bb :
1000a8=00 : 100060 allocated 32 redzone 102000 allocated 4 guard
1000ac=00 : 100060 allocated 32 redzone 102000 allocated 4 guard
1000a8=00 1000b8=00 : 100060 allocated 32 tag 102000 allocated 4 guard
100047=41 : 100000 free 32 content 64 102000 allocated 4 guard
101063=ff : 102000 allocated 4 guard
101064=ff : 101000 allocated 10 guard 102000 allocated 4 guard";

const OF_HALF: &str = ":
100010=00 :
100000=00 : 100000 free 32 unconstructed 0
10000f=00 : 100000 free 32 unconstructed 15
100020=00 : 100020 free 32 unconstructed 0
100ff0=00 100000=00 100001=00 : 100000 free 32 unconstructed 0 100ff0 free 32 unconstructed 0";

const OF_OBJECT: &str = ": 100000 free 32 unconstructed 3
100003=a5 :
100013=00 : 100000 free 32 unconstructed 3 100010 free 32 unconstructed 3";

// The same where objects have 12 bytes of their 16.
const OF_SHORT_OBJECT: &str = ": 100000 free 32 unconstructed 3
100003=a5 10000c=00 :
100003=a5 10000b=00 10000c=00 : 100000 free 32 unconstructed 11";

const SHORTER: &str = "9844=0c";

const NO_CONSTRUCTOR: &str = "9856=0001";

const GUARDED_CORE: Sample = Sample {
    text: GUARDED,
    header: 84,
    pages: 2,
};

const SESSION_CORE: Sample = Sample {
    text: SESSION,
    header: 72,
    pages: 3,
};

const OBJECT_CORE: Sample = Sample {
    text: CONSTRUCTED,
    header: 84,
    pages: 1,
};

const HALF_CORE: Sample = Sample {
    text: HALF_USED,
    header: 84,
    pages: 1,
};

const RETURNED_CORE: Sample = Sample {
    text: RETURNED,
    header: 84,
    pages: 1,
};

fn state_word(state: State) -> &'static [u8] {
    match state {
        State::Allocated => b" allocated ",
        State::Free => b" free ",
    }
}

/// The word of a rule, and its offset where it has one.
fn rule_word(finding: Finding) -> (&'static [u8], Option<u32>) {
    match finding {
        Finding::Content(offset) => (b" content ", Some(offset)),
        Finding::Redzone => (b" redzone", None),
        Finding::SizeCode => (b" sizecode", None),
        Finding::GuardByte => (b" guard", None),
        Finding::BadTag => (b" tag", None),
        Finding::Unconstructed(offset) => (b" unconstructed ", Some(offset)),
    }
}

fn put_rule(out: &mut Text, finding: Finding) -> Result<(), NoMemory> {
    let (word, offset) = rule_word(finding);
    out.push_slice(word)?;
    match offset {
        Some(offset) => put_decimal(out, u64::from(offset), 0),
        None => Ok(()),
    }
}

fn put_finding(out: &mut Text, line: &Line) -> Result<(), NoMemory> {
    put_address(out, line.address)?;
    out.push_slice(state_word(line.state))?;
    put_decimal(out, u64::from(line.cache), 0)?;
    put_rule(out, line.finding)
}

/// All findings, each behind a space.
fn told(alloc: Global, view: &View) -> Result<Text, NoMemory> {
    let mut out = Text::new(alloc);
    for line in findings(alloc, view)?.iter() {
        put_finding(&mut out, line)?;
    }
    Ok(out)
}

/// The view of bytes in which these pieces are stored.
fn view_with(
    alloc: Global,
    bytes: &Vec<u8>,
    sample: &Sample,
    words: &str,
) -> Result<Option<View>, SampleFault> {
    let mut bytes = bytes.clone()?;
    overwrite(&mut bytes, sample, words)?;
    Ok(view_of(alloc, &bytes))
}

/// Compares the findings after each row's stores, in a core that is changed at some offsets before.
fn are_found(
    rt: &impl Abort,
    alloc: Global,
    sample: &Sample,
    changes: &str,
    table: &str,
) -> Result<(), Fail> {
    let bytes = changed(&core_bytes(alloc, sample.text)?, changes)?;
    for line in table.lines() {
        let (words, want) = row(line)?;
        let view = view_with(alloc, &bytes, sample, words)?.ok_or("a view")?;
        let said = told(alloc, &view)?;
        assert!(rt; said.as_slice().trim_ascii() == want.as_bytes(), "{line}");
    }
    Ok(())
}

#[test]
fn finds_what_was_overwritten(rt: HostRuntime) -> Result<(), Fail> {
    are_found(&rt, rt.alloc(), &GUARDED_CORE, "", OF_GUARDED)?;
    are_found(&rt, rt.alloc(), &SESSION_CORE, "", OF_SESSION)
}

#[test]
fn finds_what_is_not_as_constructed(rt: HostRuntime) -> Result<(), Fail> {
    are_found(&rt, rt.alloc(), &OBJECT_CORE, "", OF_OBJECT)?;
    are_found(&rt, rt.alloc(), &OBJECT_CORE, SHORTER, OF_SHORT_OBJECT)?;
    are_found(&rt, rt.alloc(), &OBJECT_CORE, NO_CONSTRUCTOR, ":")?;
    are_found(&rt, rt.alloc(), &HALF_CORE, "", OF_HALF)?;
    are_found(&rt, rt.alloc(), &RETURNED_CORE, "", ":")
}
