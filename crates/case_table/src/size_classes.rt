ghost use Rattle.std.specs.Prelude.{◌≡◌, ◌<◌, ◌↔◌, ◌⊎◌, IfSome, IsNone, length, nat_le, position};
ghost use Rattle.case_table.specs.Sizes.{class_for, size_of, IsLeastClass};

use crate::limits::{CLASS_COUNT, MOST_CACHE_BYTES};

/// The sizes of the classes in bytes, by class number.
pub const SIZE_TABLE: [u32; 32] = [
    8, 16, 24, 32, 40, 48, 56, 64, 80, 96, 112, 128, 160, 192, 224, 256, 320, 384, 448, 512, 640,
    768, 896, 1024, 1280, 1536, 1792, 2048, 2560, 3072, 3584, 4096,
];

/// What the addresses of a class's buffers are multiples of.
pub const CLASS_ALIGN: u32 = 8;

/// The size of a class in bytes.
pub fn class_size(class: u32) -> u32
    requires { class < CLASS_COUNT }
    ensures { result ≡ size_of class }
{
    SIZE_TABLE[class as usize]
}

/// The number of the smallest size class that holds `size` bytes, as umem_alloc(3MALLOC) takes it. The
/// sizes are this project's own.
pub fn class_of(size: u64) -> Option<u32>
    ensures value { result ≡ class_for size }
    ensures least { IfSome result (IsLeastClass size) }
    ensures none { IsNone result ↔ ((size ≡ 0) ⊎ (MOST_CACHE_BYTES < size)) }
{
    if size == 0 {
        return None;
    }
    let class = first_that_holds(&SIZE_TABLE, size)?;
    Some(class as u32)
}

fn first_that_holds(sizes: &[u32], size: u64) -> Option<usize>
    ensures value { result ≡ position (nat_le size) sizes.now }
    ensures within { IfSome result (λ i. i < length sizes.now) }
{
    sizes.iter().position(|held| size <= u64::from(*held))
}
