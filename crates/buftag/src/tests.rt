use super::*;
use case_table::class_of;
use std::test::Fail;

/// A state that is written, and bytes that then stand at an offset.
#[derive(Clone, Copy)]
struct Case {
    class: u32,
    bufctl: u64,
    /// The requested size, or none for a free chunk.
    requested: Option<u32>,
    zero: bool,
    at: u16,
    bytes: &'static [u8],
}

const CASES: [Case; 12] = [
    // 24 bytes allocated: content, redzone word, bufctl word and bxstat.
    Case {
        class: 2,
        bufctl: 0x4000_0000,
        requested: Some(24),
        zero: false,
        at: 0,
        bytes: b"\xfe\xca\xdd\xba\xfe\xca\xdd\xba\xfe\xca\xdd\xba\xfe\xca\xdd\xba\xfe\xca\xdd\xba\xfe\xca\xdd\xba",
    },
    Case {
        class: 2,
        bufctl: 0x4000_0000,
        requested: Some(24),
        zero: false,
        at: 24,
        bytes: b"\xbb\xfa\xed\xfe\x89\x17\0\0\0\0\0\x40\0\0\0\0\xed\xc8\x10\xe1\0\0\0\0",
    },
    // Its neighbour, which is free.
    Case {
        class: 2,
        bufctl: 0x4000_0040,
        requested: None,
        zero: false,
        at: 0,
        bytes: b"\xef\xbe\xad\xde\xef\xbe\xad\xde\xef\xbe\xad\xde\xef\xbe\xad\xde\xef\xbe\xad\xde\xef\xbe\xad\xde",
    },
    Case {
        class: 2,
        bufctl: 0x4000_0040,
        requested: None,
        zero: false,
        at: 24,
        bytes: b"\xce\xfa\xed\xfe\xce\xfa\xed\xfe\x40\0\0\x40\0\0\0\0\xae\xf4\xee\xb4\0\0\0\0",
    },
    // Freed.
    Case {
        class: 2,
        bufctl: 0x4000_0000,
        requested: None,
        zero: false,
        at: 40,
        bytes: b"\xee\xf4\xee\xb4\0\0\0\0",
    },
    // 20 bytes of the same class.
    Case {
        class: 2,
        bufctl: 0x4000_0000,
        requested: Some(20),
        zero: false,
        at: 20,
        bytes: b"\xbb\xca\xdd\xba\xce\xfa\xed\xfe\x9d\x13\0\0",
    },
    Case {
        class: 2,
        bufctl: 0x4000_0000,
        requested: Some(20),
        zero: true,
        at: 0,
        bytes: b"\0\0\0\0\0\0\0\0\0\0\0\0\0\0\0\0\0\0\0\0\xbb\xca\xdd\xba\xce\xfa\xed\xfe",
    },
    Case {
        class: 2,
        bufctl: 0x4000_0000,
        requested: Some(24),
        zero: true,
        at: 16,
        bytes: b"\0\0\0\0\0\0\0\0\xbb\xfa\xed\xfe\x89\x17\0\0",
    },
    // The largest class.
    Case {
        class: 31,
        bufctl: 0x4000_0000,
        requested: Some(4096),
        zero: false,
        at: 4092,
        bytes: b"\xfe\xca\xdd\xba\xbb\xfa\xed\xfe\x01\xb0\x0f\0\0\0\0\x40",
    },
    Case {
        class: 31,
        bufctl: 0x4000_0000,
        requested: None,
        zero: false,
        at: 4092,
        bytes: b"\xef\xbe\xad\xde\xce\xfa\xed\xfe\xce\xfa\xed\xfe",
    },
    // The smallest size.
    Case {
        class: 0,
        bufctl: 0x4000_0000,
        requested: Some(1),
        zero: true,
        at: 0,
        bytes: b"\0\xbb\xdd\xba\xfe\xca\xdd\xba\xce\xfa\xed\xfe\xfc\0\0\0",
    },
    Case {
        class: 0,
        bufctl: 0x4000_0000,
        requested: Some(8),
        zero: false,
        at: 8,
        bytes: b"\xbb\xfa\xed\xfe\xd9\x07\0\0",
    },
];

#[test]
fn writes_both_states(rt: HostRuntime) -> Result<(), Fail> {
    for case in &CASES {
        assert!(rt; case.class < 32);
        let shape = Shape::of_class(case.class, case.bufctl);
        let mut chunk = vec![in rt.alloc(); 0; shape.content as usize + 24]?;
        if let Some(requested) = case.requested {
            assert_eq!(rt; class_of(u64::from(requested)), Some(case.class));
            write_alloc(&mut chunk, &shape, requested, case.zero);
        } else {
            write_free(&mut chunk, &shape);
        }
        for (k, byte) in case.bytes.iter().enumerate() {
            assert_eq!(rt; chunk.get(usize::from(case.at) + k), Some(byte));
        }
    }
    Ok(())
}

/// Which chunk is written to: one of the class of 24 bytes with a requested size, one of a declared cache of
/// 20 bytes, or a free one of the class.
#[derive(Clone, Copy)]
enum Chunk {
    OfClass(u32),
    Declared,
    Free,
}

/// Bytes that are stored in a chunk, and what is found afterwards.
#[derive(Clone, Copy)]
struct Damage {
    chunk: Chunk,
    stores: &'static [(u16, u8)],
    finding: Option<Finding>,
}

const DAMAGES: [Damage; 29] = [
    // Nothing that counts.
    Damage {
        chunk: Chunk::OfClass(20),
        stores: &[(0, 1), (19, 1), (21, 1), (23, 1)],
        finding: None,
    },
    Damage {
        chunk: Chunk::Declared,
        stores: &[(0, 1), (20, 1), (23, 1)],
        finding: None,
    },
    Damage {
        chunk: Chunk::Free,
        stores: &[(8, 0xef)],
        finding: None,
    },
    // Each rule of a size class alone, with the guard byte in the content and in the redzone word.
    Damage {
        chunk: Chunk::OfClass(20),
        stores: &[(32, 1)],
        finding: Some(Finding::BadTag),
    },
    Damage {
        chunk: Chunk::OfClass(20),
        stores: &[(47, 1)],
        finding: Some(Finding::BadTag),
    },
    Damage {
        chunk: Chunk::OfClass(20),
        stores: &[(29, 0x14)],
        finding: Some(Finding::SizeCode),
    },
    // The code of 40 bytes, which another class serves, and of 0 bytes.
    Damage {
        chunk: Chunk::OfClass(20),
        stores: &[(28, 0x39), (29, 0x27)],
        finding: Some(Finding::SizeCode),
    },
    Damage {
        chunk: Chunk::OfClass(20),
        stores: &[(28, 1), (29, 0)],
        finding: Some(Finding::SizeCode),
    },
    Damage {
        chunk: Chunk::OfClass(20),
        stores: &[(20, 0xba)],
        finding: Some(Finding::GuardByte),
    },
    Damage {
        chunk: Chunk::OfClass(24),
        stores: &[(24, 0xce)],
        finding: Some(Finding::GuardByte),
    },
    Damage {
        chunk: Chunk::OfClass(20),
        stores: &[(24, 0x41)],
        finding: Some(Finding::Redzone),
    },
    Damage {
        chunk: Chunk::OfClass(24),
        stores: &[(25, 0x41)],
        finding: Some(Finding::Redzone),
    },
    // Pairs of a size class.
    Damage {
        chunk: Chunk::OfClass(20),
        stores: &[(32, 1), (29, 0x14)],
        finding: Some(Finding::BadTag),
    },
    Damage {
        chunk: Chunk::OfClass(20),
        stores: &[(40, 1), (20, 0)],
        finding: Some(Finding::BadTag),
    },
    Damage {
        chunk: Chunk::OfClass(20),
        stores: &[(40, 1), (27, 0)],
        finding: Some(Finding::BadTag),
    },
    Damage {
        chunk: Chunk::OfClass(20),
        stores: &[(31, 1), (24, 0)],
        finding: Some(Finding::SizeCode),
    },
    Damage {
        chunk: Chunk::OfClass(20),
        stores: &[(20, 1), (24, 0)],
        finding: Some(Finding::GuardByte),
    },
    Damage {
        chunk: Chunk::OfClass(24),
        stores: &[(24, 1), (27, 0)],
        finding: Some(Finding::GuardByte),
    },
    // A declared cache: each rule, and both.
    Damage {
        chunk: Chunk::Declared,
        stores: &[(39, 1)],
        finding: Some(Finding::BadTag),
    },
    Damage {
        chunk: Chunk::Declared,
        stores: &[(24, 0xbb)],
        finding: Some(Finding::Redzone),
    },
    Damage {
        chunk: Chunk::Declared,
        stores: &[(31, 0)],
        finding: Some(Finding::Redzone),
    },
    Damage {
        chunk: Chunk::Declared,
        stores: &[(31, 0), (39, 1)],
        finding: Some(Finding::BadTag),
    },
    // A free chunk: each rule, the first of two words, and each pair.
    Damage {
        chunk: Chunk::Free,
        stores: &[(8, 0x41)],
        finding: Some(Finding::Content(8)),
    },
    Damage {
        chunk: Chunk::Free,
        stores: &[(23, 0x41), (15, 0x41)],
        finding: Some(Finding::Content(8)),
    },
    Damage {
        chunk: Chunk::Free,
        stores: &[(31, 0x41)],
        finding: Some(Finding::Redzone),
    },
    Damage {
        chunk: Chunk::Free,
        stores: &[(40, 0)],
        finding: Some(Finding::BadTag),
    },
    Damage {
        chunk: Chunk::Free,
        stores: &[(24, 0), (16, 0)],
        finding: Some(Finding::Content(16)),
    },
    Damage {
        chunk: Chunk::Free,
        stores: &[(40, 0), (0, 0)],
        finding: Some(Finding::Content(0)),
    },
    Damage {
        chunk: Chunk::Free,
        stores: &[(40, 0), (28, 0)],
        finding: Some(Finding::Redzone),
    },
];

#[test]
fn finds_the_first_broken_rule(rt: HostRuntime) -> Result<(), Fail> {
    for damage in &DAMAGES {
        let class = Shape::of_class(2, 0x4000_0000);
        let declared = Shape::of_cache(20, 0x4000_0000);
        let (shape, state) = match damage.chunk {
            Chunk::OfClass(_) => (class, State::Allocated),
            Chunk::Declared => (declared, State::Allocated),
            Chunk::Free => (class, State::Free),
        };
        let mut chunk = vec![in rt.alloc(); 0; 48]?;
        assert_eq!(rt; class.content, 24);
        assert_eq!(rt; declared.content, 24);
        match damage.chunk {
            Chunk::OfClass(requested) => {
                assert_eq!(rt; class_of(u64::from(requested)), Some(2));
                write_alloc(&mut chunk, &class, requested, false);
            }
            Chunk::Declared => write_alloc(&mut chunk, &declared, 20, true),
            Chunk::Free => write_free(&mut chunk, &class),
        }
        for (offset, byte) in damage.stores {
            if let Some(slot) = chunk.get_mut(usize::from(*offset)) {
                *slot = *byte;
            }
        }
        assert_eq!(rt; chunk.len(), shape.content as usize + 24);
        assert_eq!(rt; first_broken(&chunk, &shape, state), damage.finding);
    }
    Ok(())
}

#[test]
fn codes(rt: HostRuntime) {
    for (size, code) in [
        (0, 1),
        (20, 5021),
        (24, 6025),
        (247, 61998),
        (4096, 1_028_097),
    ] {
        assert_eq!(rt; decode_size(code), Some(size));
    }
    for code in [0, 2, 251, 253, 1_028_348, u32::MAX] {
        assert_eq!(rt; decode_size(code), None);
    }
    assert_eq!(rt; encode_size(24), 6025);
}

#[test]
fn finds_the_first_unconstructed_byte(rt: HostRuntime) {
    for (bytes, value, at) in [
        (b"".as_slice(), 0xa5, None),
        (b"\xa5\xa5\xa5", 0xa5, None),
        (b"\xa5\xa5\xa5\0\xa5\xa5\xa5\xa5\xa5", 0xa5, Some(3)),
        (b"\0\0\0\0\0\0\0\0\x01", 0, Some(8)),
        (b"\x01\0\0\x01", 0, Some(0)),
    ] {
        assert_eq!(rt; first_unconstructed(bytes, value), at);
    }
}
