//! Magazines, and the two of them that a CPU has for a cache.
#![tactic(auto)]

mod cpu_cache;
mod magazine;
mod need;
mod room;

pub use cpu_cache::CpuCache;
pub use magazine::Magazine;
pub use need::Need;
pub use room::Room;

#[cfg(test)]
mod tests;
