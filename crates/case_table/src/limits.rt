//! How many of each a heap may have, which scripts and cores keep to. The numbers are this project's own.

/// The size classes, which are the caches numbered from 0.
pub const CLASS_COUNT: u32 = 32;

/// The caches that may be declared beside the classes, numbered behind them.
pub const MOST_DECLARED: u32 = 64;

/// The classes and the declared caches together.
pub const MOST_CACHES: u32 = CLASS_COUNT + MOST_DECLARED;

/// The bytes of the largest buffer that a cache serves.
pub const MOST_CACHE_BYTES: u32 = 4096;

pub const MOST_CPUS: u32 = 16;

pub const MOST_THREADS: u32 = 32;
