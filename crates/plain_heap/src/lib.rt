//! Histories of a plain allocator: their entries and texts, the buffers that live, and which histories are
//! legal and answer a script.
#![tactic(auto)]

mod entry;
mod held;
mod history;
pub mod laws;
mod live;
pub mod live_laws;
mod reply;
mod reports;
mod text;

pub use entry::{Body, Entry};
pub use held::Held;
pub use history::History;
pub use live::Live;
pub use reply::{Reply, Report};
pub use reports::report_of;
pub use text::transcript;
