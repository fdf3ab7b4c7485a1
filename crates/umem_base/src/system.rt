//! The real streams and files, as thin adapters. They are the trusted edge: no clause says what a real
//! stream or file holds. A fault is counted in 64 bits, and a count that is full stands still.

mod disk_folder;
mod open_file;
mod std_sink;
mod std_source;

pub use disk_folder::DiskFolder;
pub use open_file::OpenFile;
pub use std_sink::StdSink;
pub use std_source::StdSource;
