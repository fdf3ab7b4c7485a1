//! What a core tells of a heap: its buffers by address, the state of each chunk, and what stands at an address.
#![tactic(auto)]

mod buffer;
mod build;
mod hit;
pub mod laws;
mod look_up;
mod numbers;
mod search;
mod view;
mod whatis;

pub use buffer::Buffer;
pub use build::geometry_in;
pub use hit::Hit;
pub use view::View;
pub use whatis::whatis_text;
