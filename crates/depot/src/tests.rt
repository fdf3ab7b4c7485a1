use super::*;
use magazine::{CpuCache, Need, Room};
use slab_layer::{Round, Slabs, rounds_from};
use std::test::Fail;

/// The rounds with the numbers from `first` on stand in the list, so many of them.
fn has_numbers(list: &[Round], first: u32, count: usize) -> bool {
    list.len() == count
        && list
            .iter()
            .zip(first..)
            .all(|(round, number)| round.chunk() == number)
}

fn allocate(cpu: &mut CpuCache, depot: &mut Depot, slabs: &mut Slabs) -> Option<Round> {
    if let Need::Got(round) = cpu.alloc() {
        return Some(round);
    }
    if depot.trade_for_full(cpu)
        && let Need::Got(round) = cpu.alloc()
    {
        return Some(round);
    }
    slabs.take()
}

fn free(cpu: &mut CpuCache, depot: &mut Depot, slabs: &mut Slabs, round: Round) -> bool {
    let Room::WantEmpty(round) = cpu.free(round) else {
        return true;
    };
    if depot.trade_for_empty(cpu) {
        return cpu.free(round) == Room::Kept;
    }
    slabs.put(round).is_ok()
}

/// 32 allocations and 32 frees of a class of 85 chunks to a slab and magazines of 15 rounds.
#[test]
fn frees_go_round(rt: HostRuntime) -> Result<(), Fail> {
    let mut slabs = Slabs::new(rt.alloc(), 2);
    let mut depot = Depot::new(rt.alloc(), 15)?;
    let mut cpu = CpuCache::new(rt.alloc(), 15)?;
    slabs.make_room(85)?;
    slabs.add_slab(0x10_0000, rounds_from(rt.alloc(), 0, 85)?);
    for chunk in 0..32 {
        let round = allocate(&mut cpu, &mut depot, &mut slabs);
        assert_eq!(rt; round, Some(Round::new(chunk)));
    }
    for chunk in 0..32 {
        assert!(rt; free(&mut cpu, &mut depot, &mut slabs, Round::new(chunk)));
    }
    assert_eq!(rt; depot.full().len(), 1);
    assert!(rt; has_numbers(depot.full()[0].as_slice(), 0, 15));
    assert!(rt; has_numbers(cpu.previous().as_slice(), 15, 15));
    assert!(rt; has_numbers(cpu.loaded().as_slice(), 30, 2));
    let list = slabs.list(0x10_0000).ok_or("no slab")?;
    assert!(rt; has_numbers(list, 32, 53));
    // The newest round of the loaded magazine.
    let next = allocate(&mut cpu, &mut depot, &mut slabs);
    assert_eq!(rt; next, Some(Round::new(31)));
    depot.drain_into(&mut slabs);
    assert_eq!(rt; depot.full().len(), 0);
    let list = slabs.list(0x10_0000).ok_or("no slab")?;
    assert_eq!(rt; list.len(), 68);
    Ok(())
}

#[test]
fn refuses_other_sizes(rt: HostRuntime) -> Result<(), Fail> {
    let mut depot = Depot::new(rt.alloc(), 3)?;
    let mut cpu = CpuCache::new(rt.alloc(), 1)?;
    assert_eq!(rt; cpu.free(Round::new(1)), Room::Kept);
    assert_eq!(rt; cpu.free(Round::new(2)), Room::Kept);
    assert!(rt; !depot.trade_for_empty(&mut cpu));
    assert_eq!(rt; cpu.take_any(), Some(Round::new(2)));
    Ok(())
}
