use case_table::SIZE_TABLE;

/// What the tag of a chunk depends on: the cache's size and the content in bytes, the address of the
/// chunk's bufctl, and the number of the size class, which a declared cache has not.
#[derive(Clone, Copy, Debug, PartialEq, Eq)]
pub struct Shape {
    pub size: u32,
    pub content: u32,
    pub bufctl: u64,
    pub class: Option<u32>,
}

impl Shape {
    ghost use Rattle.std.specs.Prelude.{◌≡◌, ◌<◌, ◌≤◌};
    ghost use Rattle.case_table.specs.declared.limits.TheConstants.{CLASS_COUNT, MOST_CACHE_BYTES};
    ghost use Rattle.buftag.specs.Shape.{IsShape, shape_of_cache, shape_of_class};

    /// The shape of a chunk of a size class.
    pub fn of_class(class: u32, bufctl: u64) -> Shape
        requires { class < CLASS_COUNT }
        ensures value { result ≡ shape_of_class class bufctl }
        ensures sound { IsShape result }
    {
        let size = SIZE_TABLE[class as usize];
        Shape {
            size,
            content: size,
            bufctl,
            class: Some(class),
        }
    }

    /// The shape of a chunk of a declared cache.
    pub fn of_cache(size: u32, bufctl: u64) -> Shape
        requires some { 0 < size }
        requires small { size ≤ MOST_CACHE_BYTES }
        ensures value { result ≡ shape_of_cache size bufctl }
        ensures sound { IsShape result }
    {
        Shape {
            size,
            content: size.next_multiple_of(8),
            bufctl,
            class: None,
        }
    }
}
