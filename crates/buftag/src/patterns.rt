//! The numbers of umem_debug(3MALLOC) that stand in chunks, in the 64-bit layout of this project.

/// Each word of a free chunk's content.
pub const FREE_WORD: u64 = 0xdead_beef_dead_beef;

/// Each word of an allocated chunk's content until it is written to.
pub const FRESH_WORD: u64 = 0xbadd_cafe_badd_cafe;

/// Half of the redzone word.
pub const REDZONE_HALF: u32 = 0xfeed_face;

/// The redzone word where it tells no size.
pub const REDZONE_WORD: u64 = 0xfeed_face_feed_face;

/// The byte behind the requested size.
pub const GUARD_BYTE: u8 = 0xbb;

/// By what bxstat of an allocated chunk differs from the bufctl word.
pub const ALLOCATED_MARK: u64 = 0xa110_c8ed;

/// By what bxstat of a free chunk differs from the bufctl word.
pub const FREE_MARK: u64 = 0xf4ee_f4ee;

/// By what a requested size is multiplied to give its code, which is one more.
pub const SIZE_FACTOR: u32 = 251;
