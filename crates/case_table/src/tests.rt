ghost use Rattle.std.specs.Prelude.{◌≡◌, ◌≤◌, [], ◌∷◌, ◌++◌, ◌↔◌, drop, length, IsTrue, IfOk, IfErr, OnOk};
ghost use Rattle.case_table.specs.Record.{StandAt, numbers_at, spelling};

use super::*;
use std::alloc::AllocError;
use std::test::Fail;
use umem_base::NoMemory;

const BYTES: [u8; 11] = [5, 1, 2, 1, 0, 0, 0, 0, 0, 0, 0];

#[derive(Clone, Copy, Debug, PartialEq, Eq)]
struct Item {
    kind: u8,
    count: u16,
    place: u64,
}

/// The item at a place does not fit.
#[derive(Clone, Copy, Debug, PartialEq, Eq)]
struct CutItem(usize);

impl From<Short> for CutItem {
    ghost from_gives = { λ short cut. cut.0 ≡ short.at };

    fn from(short: Short) -> CutItem {
        CutItem(short.at)
    }
}

fn item_layout() -> Layout<3>
    ensures { result ≡ 1 ∷ 2 ∷ 8 ∷ [] }
{
    Layout::new([1, 2, 8]).unwrap()
}

fn put_item(out: &mut Vec<u8>, item: &Item) -> Result<(), NoMemory>
    ensures { OnOk result (out.new.items ≡ out.old.items
        ++ spelling (1 ∷ 2 ∷ 8 ∷ []) (item.now.kind ∷ item.now.count ∷ item.now.place ∷ [])) }
{
    let layout = item_layout();
    put_fields!(layout, out => item.kind, item.count, item.place)
}

fn take_item(bytes: &[u8], at: usize) -> Result<Item, CutItem>
    requires { at ≤ length bytes.now }
    ensures numbers { IfOk result (λ item. item.kind ∷ item.count ∷ item.place ∷ []
        ≡ numbers_at (1 ∷ 2 ∷ 8 ∷ []) (drop at bytes.now)) }
    ensures stand { IfOk result (λ item. StandAt (1 ∷ 2 ∷ 8 ∷ []) bytes.now at
        (item.kind ∷ item.count ∷ item.place ∷ [])) }
    ensures place { IfErr result (λ cut. cut.0 ≡ at) }
{
    let layout = item_layout();
    take_fields!(layout, bytes, at => kind, count, place);
    Ok(Item {
        kind: kind as u8,
        count: count as u16,
        place,
    })
}

#[test]
fn records(rt: HostRuntime) -> Result<(), Fail> {
    assert_eq!(rt; item_layout().length(), 11);
    assert!(rt; Layout::<1>::new([3]).is_none());
    let mut out = Vec::new(rt.alloc());
    let item = Item {
        kind: 5,
        count: 513,
        place: 1,
    };
    put_item(&mut out, &item)?;
    assert_eq!(rt; out.as_slice(), BYTES.as_slice());
    for (bytes, at, taken) in [
        (BYTES.as_slice(), 0, Ok(item)),
        (&BYTES[..10], 0, Err(CutItem(0))),
        (BYTES.as_slice(), 4, Err(CutItem(4))),
    ] {
        assert_eq!(rt; take_item(bytes, at), taken);
    }
    Ok(())
}

const STATE: u32 = 1;

#[test]
fn first_hits(rt: HostRuntime) {
    let cases = Cases {
        rows: [Rule { state: 1, fact: 2 }, Rule { state: 3, fact: 4 }],
    };
    for (state, facts, row) in [(1, 6, Some(0)), (2, 6, Some(1)), (2, 2, None)] {
        assert_eq!(rt; cases.first_hit(state, facts), row);
    }
    assert_eq!(rt;
        check_rows!(cases, STATE; 2 => BYTES.is_empty(), 4 => BYTES[0] == 5),
        Some(1)
    );
}

#[test]
fn classes(rt: HostRuntime) {
    for (size, class) in [
        (0, None),
        (1, Some(0)),
        (8, Some(0)),
        (20, Some(2)),
        (24, Some(2)),
        (40, Some(4)),
        (100, Some(10)),
        (247, Some(15)),
        (4096, Some(31)),
        (4097, None),
    ] {
        assert_eq!(rt; class_of(size), class);
    }
}

#[test]
fn class_sizes(rt: HostRuntime) {
    for (first, sizes) in [
        (0, [8, 16, 24, 32]),
        (4, [40, 48, 56, 64]),
        (8, [80, 96, 112, 128]),
        (12, [160, 192, 224, 256]),
        (16, [320, 384, 448, 512]),
        (20, [640, 768, 896, 1024]),
        (24, [1280, 1536, 1792, 2048]),
        (28, [2560, 3072, 3584, 4096]),
    ] {
        let row = [
            class_size(first),
            class_size(first + 1),
            class_size(first + 2),
            class_size(first + 3),
        ];
        assert_eq!(rt; row, sizes);
    }
}

#[test]
fn shapes(rt: HostRuntime) {
    for (size, align, may) in [
        (1, 8, true),
        (4096, 64, true),
        (72, 16, true),
        (0, 8, false),
        (4097, 8, false),
        (24, 4, false),
        (24, 128, false),
    ] {
        assert_eq!(rt; is_cache_shape(size, align), may);
    }
}

#[test]
fn geometries(rt: HostRuntime) {
    let small = geometry(24, 8, true);
    assert_eq!(rt;
        (small.chunk, small.rounds, small.pages, small.magazine),
        (48, 85, 1, 15)
    );
    assert_eq!(rt; colour(8, small.leftover, 1), 8);
    let large = geometry(4096, 8, true);
    assert_eq!(rt;
        (large.chunk, large.rounds, large.pages, large.magazine),
        (4120, 8, 9, 3)
    );
    let conn = geometry(72, 16, true);
    assert_eq!(rt; (conn.content, conn.chunk, conn.rounds), (72, 96, 42));
    assert_eq!(rt; geometry(24, 8, false).chunk, 24);
}

#[test]
fn names(rt: HostRuntime) {
    for (name, may, reserved) in [
        (b"conn".as_slice(), true, false),
        (b"a_b9".as_slice(), true, false),
        (b"".as_slice(), false, false),
        (b"9a".as_slice(), false, false),
        (b"_a".as_slice(), false, false),
        (b"Conn".as_slice(), false, false),
        (b"co-nn".as_slice(), false, false),
        (b"abcdefghijklmnopqrstuvwxyz01234".as_slice(), true, false),
        (b"abcdefghijklmnopqrstuvwxyz012345".as_slice(), false, false),
        (b"umem_alloc_".as_slice(), true, true),
        (b"umem_alloc".as_slice(), true, false),
        (b"umem_oversize".as_slice(), true, true),
        (b"umem_oversized".as_slice(), true, false),
    ] {
        assert_eq!(rt;
            (is_cache_name(name), is_reserved_name(name)),
            (may, reserved)
        );
    }
}

fn copied(def: &CacheDef) -> Result<CacheDef, AllocError>
    ensures { IfOk result (λ copy. copy ≡ def.now) }
{
    def.clone()
}

fn are_same(left: &CacheDef, right: &CacheDef) -> bool
    ensures { IsTrue result ↔ (left.now ≡ right.now) }
{
    left == right
}

#[test]
fn class_defs(rt: HostRuntime) -> Result<(), Fail> {
    for (class, name, size) in [
        (0, b"umem_alloc_8".as_slice(), 8),
        (2, b"umem_alloc_24".as_slice(), 24),
        (31, b"umem_alloc_4096".as_slice(), 4096),
    ] {
        let def = class_def(rt.alloc(), class)?;
        assert_eq!(rt; def.name.as_slice(), name);
        assert_eq!(rt; (def.size, def.align, def.ctor), (size, 8, None));
        let mut copy = copied(&def)?;
        assert!(rt; are_same(&copy, &def));
        copy.ctor = Some(0);
        assert!(rt; !are_same(&copy, &def));
    }
    Ok(())
}

#[test]
fn addresses(rt: HostRuntime) {
    for (cache, address) in [(0, 0x3000_0000), (2, 0x3000_0800), (32, 0x3000_8000)] {
        assert_eq!(rt; cache_address(cache), address);
        assert_eq!(rt; cache_at(address), Some(cache));
    }
    for (chunk, address) in [(0, 0x4000_0000), (42, 0x4000_0a80), (85, 0x4000_1540)] {
        assert_eq!(rt; bufctl_address(chunk), address);
        assert_eq!(rt; bufctl_chunk(address), Some(chunk));
    }
    for address in [5, 0x2fff_fc00, 0x3000_0001] {
        assert_eq!(rt; cache_at(address), None);
    }
}

#[test]
fn limits(rt: HostRuntime) {
    let limits = [
        CLASS_COUNT,
        MOST_DECLARED,
        MOST_CACHES,
        MOST_CACHE_BYTES,
        MOST_CPUS,
        MOST_THREADS,
    ];
    assert_eq!(rt; limits, [32, 64, 96, 4096, 16, 32]);
}
