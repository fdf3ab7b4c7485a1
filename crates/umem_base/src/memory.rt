//! A source, a sink and a folder in memory. Which of their calls fail is planned when they are made, by numbers
//! from 0; such a call only counts. The memory is taken before: reading and writing take none.

mod fault_plan;
mod file;
mod folder;
mod open;
mod sink;
mod source;
mod table;

pub use folder::MemFolder;
pub use sink::MemSink;
pub use source::MemSource;
