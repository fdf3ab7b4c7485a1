use super::*;
use slab_layer::{Round, Slabs, rounds_from};
use std::test::Fail;

#[derive(Clone, Copy)]
enum Step {
    Alloc(Option<u32>),
    /// A round that is freed, and whether it is kept.
    Free(u32, bool),
    TakeAny(Option<u32>),
}

/// Magazines of two rounds.
const STEPS: [Step; 15] = [
    Step::Alloc(None),
    Step::TakeAny(None),
    Step::Free(1, true),
    Step::Free(2, true),
    Step::Free(3, true),
    Step::Free(4, true),
    Step::Free(5, false),
    // Out of the loaded magazine, and then the two are exchanged.
    Step::Alloc(Some(4)),
    Step::Alloc(Some(3)),
    Step::Alloc(Some(2)),
    Step::Free(6, true),
    Step::Free(7, true),
    Step::TakeAny(Some(7)),
    Step::TakeAny(Some(6)),
    Step::TakeAny(Some(1)),
];

#[test]
fn keeps_what_it_gets(rt: HostRuntime) -> Result<(), Fail> {
    let mut cpu = CpuCache::new(rt.alloc(), 2)?;
    for step in &STEPS {
        match *step {
            Step::Alloc(Some(chunk)) => assert_eq!(rt; cpu.alloc(), Need::Got(Round::new(chunk))),
            Step::Alloc(None) => assert_eq!(rt; cpu.alloc(), Need::WantFull),
            Step::Free(chunk, true) => assert_eq!(rt; cpu.free(Round::new(chunk)), Room::Kept),
            Step::Free(chunk, false) => {
                assert_eq!(rt;
                    cpu.free(Round::new(chunk)),
                    Room::WantEmpty(Round::new(chunk))
                );
            }
            Step::TakeAny(chunk) => {
                assert_eq!(rt; cpu.take_any().map(|round| round.chunk()), chunk);
            }
        }
    }
    Ok(())
}

#[test]
fn drains_into_the_slabs(rt: HostRuntime) -> Result<(), Fail> {
    let mut slabs = Slabs::new(rt.alloc(), 0);
    slabs.make_room(3)?;
    slabs.add_slab(0x10_0000, rounds_from(rt.alloc(), 0, 3)?);
    let mut cpu = CpuCache::new(rt.alloc(), 2)?;
    for _ in 0..3 {
        if let Some(round) = slabs.take() {
            assert_eq!(rt; cpu.free(round), Room::Kept);
        }
    }
    assert_eq!(rt; slabs.take(), None);
    // A round of no slab is given up.
    assert_eq!(rt; cpu.free(Round::new(9)), Room::Kept);
    cpu.drain_into(&mut slabs);
    assert_eq!(rt; cpu.loaded().as_slice().len(), 0);
    assert_eq!(rt; cpu.previous().as_slice().len(), 0);
    assert_eq!(rt; slabs.list(0x10_0000).map(|list| list.len()), Some(3));
    Ok(())
}
