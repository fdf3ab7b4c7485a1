//! What every other crate stands on: text, numbers, bounded lists, and the outside as traits with a
//! meaning and a count of faults.
#![tactic(auto)]

mod arena;
mod bad_number;
mod bounded_vec;
mod cut;
pub mod laws;
mod lines;
mod memory;
mod no_memory;
mod number;
mod outside;
mod pages;
mod pieces;
mod read_all_error;
mod read_file_error;
mod roots;
mod sequence;
mod span;
mod steps;
mod system;
mod text;
mod transfer;
mod words;
mod write_file_error;

pub use arena::{ARENA_BASE, FIRST_ARENA_PAGES, LATER_ARENA_PAGES, arena_pages};
pub use bad_number::BadNumber;
pub use bounded_vec::{BoundedVec, Stack};
pub use cut::split_once;
pub use lines::{is_blank, split_line, split_word};
pub use memory::{MemFolder, MemSink, MemSource};
pub use no_memory::NoMemory;
pub use number::{put_decimal, put_hex, read_decimal, read_hex};
pub use outside::{Failed, Folder, Gate, NoGate, Sink, Source};
pub use pages::{PAGE_BYTES, pages_for};
pub use read_all_error::ReadAll;
pub use read_file_error::ReadFile;
pub use roots::{LAST_SLOT, OWN_ROOTS, ROOT_WORDS, SHARED_ROOT, own_root};
pub use sequence::Sequence;
pub use span::Span;
pub use steps::Steps;
pub use system::{DiskFolder, OpenFile, StdSink, StdSource};
pub use text::Text;
pub use transfer::{WriteFault, read_all, read_file, write_file, write_whole};
pub use words::fill_words;
pub use write_file_error::WriteFile;

#[cfg(test)]
mod tests;
