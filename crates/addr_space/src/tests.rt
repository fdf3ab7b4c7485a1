use super::*;
use std::test::Fail;

/// Two adjacent runs, a gap of one page, a run behind it, and the last page below 2 ^ 32.
fn four_runs(rt: &HostRuntime) -> Result<Space, MapFault> {
    let mut space = Space::new(rt.alloc());
    space.map(0x10_1000, 1)?;
    space.map(0x10_0000, 1)?;
    space.map(0x10_3000, 2)?;
    space.map(0xffff_f000, 1)?;
    Ok(space)
}

#[derive(Clone, Copy)]
struct Case {
    at: u64,
    stored: Result<(), Unmapped>,
}

const CASES: [Case; 10] = [
    Case {
        at: 0x10_0000,
        stored: Ok(()),
    },
    // Over the end of the first run into the second.
    Case {
        at: 0x10_0ffc,
        stored: Ok(()),
    },
    Case {
        at: 0x10_1ff8,
        stored: Ok(()),
    },
    // Into the gap, in it, and out of it.
    Case {
        at: 0x10_1ff9,
        stored: Err(Unmapped),
    },
    Case {
        at: 0x10_2800,
        stored: Err(Unmapped),
    },
    Case {
        at: 0x10_2ffc,
        stored: Err(Unmapped),
    },
    Case {
        at: 0x10_3ffd,
        stored: Ok(()),
    },
    Case {
        at: 0xffff_fff8,
        stored: Ok(()),
    },
    Case {
        at: 0xffff_fff9,
        stored: Err(Unmapped),
    },
    Case {
        at: 0xffff_ffff_ffff_fffc,
        stored: Err(Unmapped),
    },
];

#[test]
fn words_cross_runs(rt: HostRuntime) -> Result<(), Fail> {
    let mut space = four_runs(&rt)?;
    for case in &CASES {
        let word = 0x0102_0304_0506_0708;
        assert_eq!(rt; space.store_word(case.at, word), case.stored);
        assert_eq!(rt; space.load_word(case.at), case.stored.map(|_| word));
        assert_eq!(rt; space.store_word(case.at, 0), case.stored);
    }
    Ok(())
}

#[test]
fn maps_and_unmaps(rt: HostRuntime) -> Result<(), Fail> {
    let mut space = four_runs(&rt)?;
    assert_eq!(rt; space.map(0x10_1000, 2), Err(MapFault::Overlap));
    assert_eq!(rt; space.map(0x0f_f000, 2), Err(MapFault::Overlap));
    assert_eq!(rt; space.map(0x10_2000, 1), Ok(()));
    assert_eq!(rt; space.store_bytes(0x10_1ffe, b"word"), Ok(()));
    assert_eq!(rt; space.store_byte(0x10_2002, b'!'), Ok(()));
    let front = space.bytes_of(0x10_1ffe, 2).ok_or("not in a run")?;
    assert_eq!(rt; front, b"wo".as_slice());
    let back = space.bytes_of(0x10_2000, 4).ok_or("not in a run")?;
    assert_eq!(rt; back, b"rd!\0".as_slice());
    assert!(rt; space.bytes_of(0x10_1ffe, 4).is_none());
    assert!(rt; space.bytes_of(0x10_1ffe, 0).is_none());
    Ok(())
}

#[test]
fn fills_and_lends(rt: HostRuntime) -> Result<(), Fail> {
    let mut space = four_runs(&rt)?;
    assert!(rt; space.is_in_run(0x10_3ff8, 16));
    assert!(rt; !space.is_in_run(0x10_0ff8, 16));
    assert!(rt; !space.is_in_run(0x10_3ff8, 0));
    if space.is_in_run(0x10_3ff8, 16) {
        space.fill(0x10_3ff8, 2, 0x0102_0304_0506_0708);
    }
    assert_eq!(rt; space.load_word(0x10_4000), Ok(0x0102_0304_0506_0708));
    assert_eq!(rt; space.load_word(0x10_4008), Ok(0));
    if space.is_in_run(0x10_3ff8, 2) {
        space.bytes_mut_in_run(0x10_3ff8, 2).copy_from_slice(b"ab");
    }
    assert_eq!(rt; space.bytes_of(0x10_3ff8, 3), Some(b"ab\x06".as_slice()));
    Ok(())
}

#[test]
fn lends_or_refuses(rt: HostRuntime) -> Result<(), Fail> {
    let mut space = four_runs(&rt)?;
    let part = space.bytes_mut(0x10_3ff8, 2).ok_or("not in a run")?;
    part.copy_from_slice(b"ab");
    assert_eq!(rt; space.bytes_of(0x10_3ff8, 3), Some(b"ab\0".as_slice()));
    assert!(rt; space.bytes_mut(0x10_3ff8, 0).is_none());
    // Over the end of the first run into the second, and into the gap.
    assert!(rt; space.bytes_mut(0x10_0ff8, 16).is_none());
    assert!(rt; space.bytes_mut(0x10_1ff8, 16).is_none());
    Ok(())
}

#[test]
fn forgets_an_unmapped_run(rt: HostRuntime) -> Result<(), Fail> {
    let mut space = Space::new(rt.alloc());
    space.map(0x10_0000, 2)?;
    space.unmap(0x10_0000, 2);
    assert_eq!(rt; space.load_word(0x10_0000), Err(Unmapped));
    Ok(())
}
