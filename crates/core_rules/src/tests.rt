use super::*;
use case_table::CLASS_COUNT;
use std::test::Fail;

#[test]
fn makes_each_piece(rt: HostRuntime) -> Result<(), Fail> {
    let grows = vec![in rt.alloc(); 7; CLASS_COUNT as usize]?;
    let caches = cache_items(rt.alloc(), &[], &grows)?;
    assert_eq!(rt; caches.len(), 32);
    assert_eq!(rt;
        caches[31].def.name.as_slice(),
        b"umem_alloc_4096".as_slice()
    );
    assert_eq!(rt; caches[31].grows, 7);
    let places = empty_places(rt.alloc(), 2, 32)?;
    assert_eq!(rt; places.len(), 64);
    assert_eq!(rt; (places[33].cpu, places[33].cache), (1, 1));
    let depots = empty_depots(rt.alloc(), 32)?;
    assert_eq!(rt; depots.len(), 32);
    Ok(())
}
