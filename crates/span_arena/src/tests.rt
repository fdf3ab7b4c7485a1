use super::*;
use std::test::Fail;
use umem_base::Span;

#[derive(Clone, Copy)]
enum Step {
    Take(u64, Option<u64>),
    GiveBack(u64, Result<u64, NotASpan>),
}

const STEPS: [Step; 17] = [
    Step::Take(3, Some(0x10_0000)),
    Step::Take(2, Some(0x10_3000)),
    Step::Take(1, Some(0x10_5000)),
    Step::Take(3, None),
    Step::Take(2, Some(0x10_6000)),
    // Full.
    Step::Take(1, None),
    // The second page of a span.
    Step::GiveBack(0x10_4000, Err(NotASpan)),
    Step::GiveBack(0x10_3000, Ok(2)),
    Step::GiveBack(0x10_3000, Err(NotASpan)),
    Step::GiveBack(0x10_0000, Ok(3)),
    Step::GiveBack(0x10_6000, Ok(2)),
    // Gaps of five and of two pages.
    Step::Take(2, Some(0x10_0000)),
    Step::Take(4, None),
    Step::Take(3, Some(0x10_2000)),
    Step::Take(2, Some(0x10_6000)),
    Step::Take(1, None),
    Step::GiveBack(0x10_8000, Err(NotASpan)),
];

#[test]
fn takes_the_lowest_run(rt: HostRuntime) -> Result<(), Fail> {
    let mut arena = Arena::new(rt.alloc(), 0x10_0000, 8);
    for step in &STEPS {
        match *step {
            Step::Take(pages, base) => {
                assert!(rt; pages > 0);
                assert_eq!(rt; arena.take(pages)?, base);
            }
            Step::GiveBack(base, pages) => assert_eq!(rt; arena.give_back(base), pages),
        }
    }
    let taken = [
        Span {
            base: 0x10_0000,
            pages: 2,
        },
        Span {
            base: 0x10_2000,
            pages: 3,
        },
        Span {
            base: 0x10_5000,
            pages: 1,
        },
        Span {
            base: 0x10_6000,
            pages: 2,
        },
    ];
    assert_eq!(rt; arena.spans(), taken.as_slice());
    Ok(())
}

#[test]
fn reaches_the_last_page(rt: HostRuntime) -> Result<(), Fail> {
    let mut arena = Arena::new(rt.alloc(), 0xffff_e000, 2);
    assert_eq!(rt; arena.take(1)?, Some(0xffff_e000));
    assert_eq!(rt; arena.take(u64::MAX)?, None);
    assert_eq!(rt; arena.take(1)?, Some(0xffff_f000));
    assert_eq!(rt; arena.take(1)?, None);
    Ok(())
}
