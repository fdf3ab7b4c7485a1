/// The numbers of a cache as they stand in a core. A constructor of 256 stands for none.
#[derive(Clone, Copy)]
pub struct CacheNumbers {
    pub size: u32,
    pub align: u32,
    pub grows: u32,
    pub ctor: u32,
}
