//! Cores, each a text for `core_bytes`. They are written from the format; no program made them.

/// Version 1, with guards: one request of 24 bytes was answered, and a root word holds its address.
pub const ONE_BUFFER: &str = "text UMEMCORE
u32 1 4 15 256 1 32 1 0 0 0 0 0 0 85
u64 2
u64 0 0x100000
zeros 4080
classes 0 2 0
classes 2 3 1
classes 3 32 0
u64 0x100000
u32 2 0 0 84
rising 1 85
zeros 384
repeat 6 fecaddba
u32 0xfeedfabb 6025
u64 0x40000000 0xe110c8ed
free 1 85 24
zeros 16";

/// The same after that buffer was freed: its chunk stands in the loaded magazine.
pub const ONE_FREED: &str = "text UMEMCORE
u32 1 4 15 256 1 32 1 0 0 0 0 0 0 85
u64 3
zeros 4096
classes 0 2 0
classes 2 3 1
classes 3 32 0
u64 0x100000
u32 2 0 0 84
rising 1 85
zeros 16
u32 1 0 0
zeros 360
free 0 85 24
zeros 16";

/// Version 1, without a flag, of a heap that has done nothing.
pub const NEW_FIRST: &str = "text UMEMCORE
u32 1 0 15 256 1 32 0 0 0 0 0 0 0 0
u64 0
zeros 4096
classes 0 32 0
zeros 384";

/// The same in version 2, of one thread.
pub const NEW_SECOND: &str = "text UMEMCORE
u32 2 0 15 256 1 32 0 0 0 0 0 0 0 0
u64 0
u32 1 0 0
zeros 8192
classes 0 32 0 256
zeros 384";

/// Version 1, with two large buffers, of 4,097 and of 8,192 bytes, side by side.
pub const TWO_LARGE: &str = "text UMEMCORE
u32 1 0 15 256 1 32 0 2 0 0 0 0 0 0
u64 2
zeros 4096
classes 0 32 0
u64 0x100000 4097 0x102000 8192
zeros 384
zeros 16384";

/// Version 2, with something in each section.
pub const FULL: &str = "text UMEMCORE
u32 2 7 2 4 1 34 2 1 2 4 2 4 2 200
u64 50
u32 1 4 2
zeros 8192
classes 0 32 1 256
cache conn 72 16 1 165
cache temp 8 8 0 256
# slabs
u64 0x100000
u32 2 0 0 2 3 4
u64 0x101000
u32 32 16 85 1 90
# a large buffer
u64 0x102000 5000
# magazines
zeros 16
u32 1 1 1 2
zeros 248
# depots
zeros 128
u32 1
rising 91 106
u32 0
# audits
u32 0 0 1 0 1
u64 0x401000
u32 5 31 2 0 2
u64 0x401000 0x401005
# transactions
u32 1 0 0 0 0x100000 0 1 0 1
u64 0x401000
u32 2 0 31 5 0x1000f0 0 2 0 0
# fails
u32 0 2 24 0 3 0 31 32 72 0 4 0
# saved contents
u32 5 0 5 2
text AB
u32 6 0 6 0
zeros 16384";

/// Version 1, with all flags, two CPUs and a transaction log: a session that leaves two leaks, a buffer whose guard
/// byte was overwritten, and a freed one.
pub const SESSION: &str = "text UMEMCORE
u32 1 7 15 256 2 33 3 0 4 356 5 0 0 136
u64 13
zeros 32
u64 0x102000
zeros 4056
classes 0 4 0
classes 4 5 1
classes 5 10 0
classes 10 11 1
classes 11 32 0
cache conn 72 16 1
# slabs
u64 0x100000
u32 32 0 0 40
rising 2 42
u64 0x101000
u32 10 0 42 29
rising 43 72
u64 0x102000
u32 4 0 72 63
rising 73 136
# magazines and depots
zeros 256
u32 1 0 0
zeros 396
# audits
u32 0 0 12 0 1
u64 0x401280
u32 1 0 2 0 2
u64 0x401200 0x401000
u32 42 0 4 0 2
u64 0x401300 0x401000
u32 72 0 6 0 2
u64 0x401310 0x401000
# transactions
u32 1 0 0 0 0x100000 0 1 0 2
u64 0x401200 0x401000
u32 1 0 0 1 0x100060 0 2 0 2
u64 0x401200 0x401000
u32 1 0 0 42 0x101000 0 4 0 2
u64 0x401300 0x401000
u32 1 0 0 72 0x102000 0 6 0 2
u64 0x401310 0x401000
u32 2 0 0 0 0x100000 0 12 0 1
u64 0x401280
# buffers of 72 bytes
free 0 1 72
repeat 18 fecaddba
u64 0xfeedfacefeedface 0x40000040 0xe110c8ad
free 2 42 72
zeros 64
# buffers of 112 bytes
repeat 25 fecaddba
hex bbcaddba
repeat 2 fecaddba
u32 0xfeedface 25101
u64 0x40000a80 0xe110c26d
free 43 72 112
zeros 16
# buffers of 40 bytes
zeros 40
u32 0xfeedfa00 10041
u64 0x40001200 0xe110daed
free 73 136 40";

/// Version 1, with guards: four buffers of 24 bytes, of which two point to each other, one to its own last byte, and
/// one past its end. Root words point to the last byte of the third and past the end of the fourth.
pub const CYCLE: &str = "text UMEMCORE
u32 1 4 15 256 1 32 1 0 0 0 0 0 0 85
u64 15
zeros 32
u64 0x100077 0 0x1000a8
zeros 4040
classes 0 2 0
classes 2 3 1
classes 3 32 0
u64 0x100000
u32 2 0 0 81
rising 4 85
zeros 384
u64 0x100030
repeat 4 fecaddba
u32 0xfeedfabb 6025
u64 0x40000000 0xe110c8ed
u64 0x100000
repeat 4 fecaddba
u32 0xfeedfabb 6025
u64 0x40000040 0xe110c8ad
u64 0x100077
repeat 4 fecaddba
u32 0xfeedfabb 6025
u64 0x40000080 0xe110c86d
u64 0x1000a8
repeat 4 fecaddba
u32 0xfeedfabb 6025
u64 0x400000c0 0xe110c82d
free 4 85 24
zeros 16";

/// Version 2, with guards and two threads: each has a buffer of 24 bytes, and only the second one still holds its own.
pub const TWO_THREADS: &str = "text UMEMCORE
u32 2 4 15 256 1 32 1 0 0 0 0 0 0 85
u64 4
u32 2 0 0
zeros 8200
u64 0x100030
zeros 4080
classes 0 2 0 256
classes 2 3 1 256
classes 3 32 0 256
u64 0x100000
u32 2 0 0 83
rising 2 85
zeros 384
repeat 6 fecaddba
u32 0xfeedfabb 6025
u64 0x40000000 0xe110c8ed
repeat 6 fecaddba
u32 0xfeedfabb 6025
u64 0x40000040 0xe110c8ad
free 2 85 24
zeros 16";

/// Version 2, with guards: a slab of the class of 24 bytes whose chunks 1 to 4 are free, one of a declared cache of
/// 72 bytes whose chunk 90 and a full magazine are, and a large buffer of 5,000 bytes.
pub const MIXED: &str = "text UMEMCORE
u32 2 4 15 256 1 33 2 1 0 0 0 0 0 200
u64 50
u32 1 0 0
zeros 8192
classes 0 32 1 256
cache conn 72 16 1 256
u64 0x100000
u32 2 0 0 2 3 4
u64 0x102000
u32 32 16 85 1 90
u64 0x103000 5000
# magazines
zeros 16
u32 1 1 1 2
zeros 240
# depots
zeros 128
u32 1
rising 91 106
zeros 16384";

/// Version 2, with guards: five allocated chunks of 24 bytes from 100000 on, 48 bytes apart, with free ones behind
/// them, a large buffer of 4,101 bytes at 101000, and a chunk of 20 bytes at 103000. No word points anywhere.
pub const PLAIN: &str = "text UMEMCORE
u32 2 4 15 256 1 33 2 1 0 0 0 0 0 170
u64 9
u32 1 0 0
zeros 8192
classes 0 32 1 256
cache odd 20 8 1 256
u64 0x100000
u32 2 0 0 80
rising 5 85
u64 0x103000
u32 32 0 85 84
rising 86 170
u64 0x101000 4101
zeros 396
zeros 16384";

/// Version 2, with guards: a slab of the class of 24 bytes whose chunks 0 and 1 are allocated, for requests of 24 and
/// of 20 bytes, and one of the next colour whose chunk 85 is.
pub const GUARDED: &str = "text UMEMCORE
u32 2 4 15 256 1 32 2 0 0 0 0 0 0 170
u64 9
u32 1 0 0
zeros 8192
classes 0 32 1 256
u64 0x100000
u32 2 0 0 83
rising 2 85
u64 0x101000
u32 2 8 85 84
rising 86 170
zeros 384
repeat 6 fecaddba
u32 0xfeedfabb 6025
u64 0x40000000 0xe110c8ed
repeat 5 fecaddba
hex bbcaddba
u32 0xfeedface 5021
u64 0x40000040 0xe110c8ad
free 2 85 24
zeros 24
repeat 6 fecaddba
u32 0xfeedfabb 6025
u64 0x40001540 0xe110ddad
free 86 170 24
zeros 8";

/// Version 2, without guards: a slab of a declared cache whose constructor writes a5. Chunk 0 is free in the loaded
/// magazine, with 00 as its fourth byte, and the others are free in the list.
pub const CONSTRUCTED: &str = "text UMEMCORE
u32 2 0 15 256 1 33 1 0 0 0 0 0 0 256
u64 5
u32 1 0 0
zeros 16
u64 0x100000
zeros 8168
classes 0 32 0 256
cache conn 16 8 1 165
u64 0x100000
u32 32 0 0 255
rising 1 256
zeros 256
u32 1 0 0
zeros 132
hex a5a5a500
repeat 4092 a5";

/// The same cache with each byte constructed; chunk 1 is allocated.
pub const HALF_USED: &str = "text UMEMCORE
u32 2 0 15 256 1 33 1 0 0 0 0 0 0 256
u64 5
u32 1 0 0
zeros 8192
classes 0 32 0 256
cache conn 16 8 1 165
u64 0x100000
u32 32 0 0 255 0
rising 2 256
zeros 396
repeat 4096 a5";

/// Version 2, with audits: groups on both sides of each threshold, stacks that differ in the last frame or go on, a
/// free chunk with an audit, and an allocated one without.
pub const CROWD: &str = "text UMEMCORE
u32 2 5 15 256 1 33 4 0 207 0 0 0 0 600
u64 20
u32 1 0 0
zeros 8192
classes 0 32 1 256
cache odd 4095 8 1 256
u64 0x100000
u32 0 0 0 0
u64 0x101000
u32 0 0 128 54
rising 202 256
u64 0x102000
u32 32 0 256 5
rising 259 264
u64 0x10b000
u32 31 0 264 6
rising 266 272
zeros 396
audits 0 99 1 2
audits 99 199 1 3
audits 199 200 9 1
audits 200 201 9
audits 201 202 8 7
audits 250 251 4
audits 256 258 5
audits 264 266 5
zeros 81920";

/// Version 2, with audits: nothing but two bytes that were saved at time 4 from chunk 0.
pub const SAVED: &str = "text UMEMCORE
u32 2 5 15 256 1 32 0 0 0 0 0 0 0 1
u64 5
u32 1 1 1
zeros 8192
classes 0 32 0 256
zeros 384
u64 4
u32 0 2
text AB";

/// Version 1, with guards: 32 buffers of 24 bytes were handed out, and freed in their order. The first fifteen stand in
/// the depot, the next in the previous magazine, the last two in the loaded one.
pub const ALL_FREED: &str = "text UMEMCORE
u32 1 4 15 256 1 32 1 0 0 0 0 0 0 85
u64 65
zeros 4096
classes 0 2 0
classes 2 3 1
classes 3 32 0
u64 0x100000
u32 2 0 0 53
rising 32 85
zeros 16
u32 2 30 31 15
rising 15 30
zeros 240
u32 1
rising 0 15
zeros 116
free 0 85 24
zeros 16";

/// Version 1, with guards: two CPUs, each of which has freed a buffer of 24 bytes.
pub const TWO_CPUS: &str = "text UMEMCORE
u32 1 4 15 256 2 32 1 0 0 0 0 0 0 85
u64 5
zeros 4096
classes 0 2 0
classes 2 3 1
classes 3 32 0
u64 0x100000
u32 2 0 0 83
rising 2 85
zeros 16
u32 1 0 0
zeros 248
u32 1 1 0
zeros 360
free 0 85 24
zeros 16";

/// Version 2, with all flags, without a slab, and with the most of all that takes none: frames, contents, CPUs, caches,
/// threads and the records of each log.
pub const LARGEST: &str = "text UMEMCORE
u32 2 7 32 4096 16 96 0 0 0 1048576 0 2796202 0 0
u64 0
u32 32 2796202 0
zeros 135168
classes 0 32 0 256
caches 32 96 8 8 0 256
zeros 12672";

/// Version 2, with as many slabs as the arena has pages, up to their first page, which is missing.
pub const ALL_SLABS: &str = "text UMEMCORE
u32 2 0 15 256 1 32 4096 0 0 0 0 0 0 2097152
u64 0
u32 1 0 0
zeros 8192
classes 0 32 0 256
slabs 0 4096 0 512
zeros 384";

/// Version 2, with audits: two buffers of 8 bytes, and one of 16 that takes as many bytes.
pub const TIES: &str = "text UMEMCORE
u32 2 5 15 256 1 32 2 0 3 0 0 0 0 230
u64 20
u32 1 0 0
zeros 8192
classes 0 32 1 256
slabs 0 1 0 128
u64 0x101000
u32 1 0 128 101
rising 129 230
zeros 384
audits 0 2 7
audits 128 129 3
zeros 8192";

/// Version 2, with all flags and a contents log: a buffer of 24 bytes was written to and freed, and what it held was
/// saved.
pub const CONTENTS: &str = "text UMEMCORE
u32 2 7 15 256 1 32 1 0 1 0 0 0 0 85
u64 4
u32 1 3 1
zeros 8192
classes 0 2 0 256
classes 2 3 1 256
classes 3 32 0 256
u64 0x100000
u32 2 0 0 84
rising 1 85
zeros 16
u32 1 0 0
zeros 360
u32 0 0 3 0 0
u64 3
u32 0 24
hex 4142ddba
repeat 5 fecaddba
free 0 85 24
zeros 16";

/// Version 2, with guards: an object of a declared cache with a constructor was written to and freed.
pub const RETURNED: &str = "text UMEMCORE
u32 2 4 15 256 1 33 1 0 0 0 0 0 0 102
u64 5
u32 1 0 0
zeros 16
u64 0x100000
zeros 8168
classes 0 32 0 256
cache conn 16 8 1 165
u64 0x100000
u32 32 0 0 101
rising 1 102
zeros 256
u32 1 0 0
zeros 132
free 0 102 16
zeros 16";
