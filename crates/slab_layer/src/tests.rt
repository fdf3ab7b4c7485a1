use super::*;
use std::test::Fail;

#[derive(Clone, Copy)]
enum Step {
    /// A slab at a base, with the first of its chunks and how many there are.
    Add(u64, u32, u32),
    Take(Option<u32>),
    /// A round that is put, and whether its slab takes it.
    Put(u32, bool),
    /// The base of the slab that is dropped, and the first of its rounds.
    Drop(Option<(u64, u32)>),
    /// The length of the list at a base.
    List(u64, Option<usize>),
}

const STEPS: [Step; 28] = [
    Step::Take(None),
    Step::Put(4, false),
    Step::Add(0x10_1000, 0, 3),
    Step::Add(0x10_0000, 5, 2),
    Step::Take(Some(0)),
    Step::Take(Some(1)),
    // Of no slab, and in a list already.
    Step::Put(3, false),
    Step::Put(7, false),
    Step::Put(6, false),
    Step::Put(1, true),
    Step::Put(1, false),
    Step::List(0x10_1000, Some(2)),
    Step::List(0x10_2000, None),
    Step::Drop(Some((0x10_0000, 5))),
    Step::Drop(None),
    Step::Put(5, false),
    Step::Put(0, true),
    Step::Take(Some(0)),
    Step::Take(Some(1)),
    Step::Take(Some(2)),
    Step::Take(None),
    Step::List(0x10_1000, Some(0)),
    // In place of the slab with a chunk in common, and of the one at the same base.
    Step::Add(0x10_4000, 2, 4),
    Step::List(0x10_1000, None),
    Step::Add(0x10_4000, 9, 1),
    Step::Take(Some(9)),
    Step::Put(9, true),
    Step::Drop(Some((0x10_4000, 9))),
];

#[test]
fn gives_the_lowest_round(rt: HostRuntime) -> Result<(), Fail> {
    let mut slabs = Slabs::new(rt.alloc(), 2);
    assert_eq!(rt; slabs.cache(), 2);
    for step in &STEPS {
        match *step {
            Step::Add(base, first, count) => {
                assert!(rt; count > 0 && first < 16 && count < 16);
                slabs.make_room(count)?;
                slabs.add_slab(base, rounds_from(rt.alloc(), first, count)?);
            }
            Step::Take(chunk) => {
                assert_eq!(rt; slabs.take().map(|round| round.chunk()), chunk);
            }
            Step::Put(chunk, is_taken) => {
                assert_eq!(rt; slabs.put(Round::new(chunk)).is_ok(), is_taken);
            }
            Step::Drop(slab) => {
                let dropped = slabs.drop_empty();
                assert_eq!(rt; dropped.is_some(), slab.is_some());
                if let (Some(dropped), Some((base, first))) = (dropped, slab) {
                    assert_eq!(rt; dropped.base, base);
                    assert_eq!(rt;
                        dropped.rounds.as_slice().first().map(Round::chunk),
                        Some(first)
                    );
                }
            }
            Step::List(base, length) => {
                assert_eq!(rt; slabs.list(base).map(|list| list.len()), length);
            }
        }
    }
    Ok(())
}
