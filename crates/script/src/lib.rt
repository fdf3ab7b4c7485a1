//! Allocation scripts of both versions: what they say, how they are read, and how they are written.
#![tactic(auto)]

mod arguments;
mod both;
mod calls;
mod declared;
mod draft;
mod fault;
mod fields;
mod header_line;
mod later_lines;
pub mod laws;
mod limits;
mod line_bytes;
mod line_fault;
mod make;
mod op_named;
mod operation;
mod phases;
mod plan_text;
mod put_words;
mod read;
mod reasons;
mod text_word;
mod tree;

pub use fault::ScriptFault;
pub use limits::{
    FIRST_OWN_SLOT, MOST_BYTES, MOST_CALLS_1, MOST_CALLS_2, MOST_FRAMES, MOST_OFFSET, MOST_PHASES,
    MOST_STORED, most_calls,
};
pub use make::make_script;
pub use operation::{Op, OpName};
pub use plan_text::{put_caches, put_op, script_text};
pub use read::read_script;
pub use reasons::Reason;
pub use tree::{Header, Phase, Script, Step};
