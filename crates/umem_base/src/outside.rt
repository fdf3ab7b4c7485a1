//! What lies outside of the program, as traits with a meaning.
//!
//! A device tells what it holds where it can, and counts its faults. No call answers `Failed` but where a
//! count rose in it, and code that is generic over these traits can't raise one: so an answer for a fault
//! is never of a program's own making.

mod failed;
mod folder;
mod gate;
mod sink;
mod source;

pub use failed::Failed;
pub use folder::Folder;
pub use gate::{Gate, NoGate};
pub use sink::Sink;
pub use source::Source;
