ghost use Rattle.std.specs.Prelude.{◌≤◌, vec_capacity};

use crate::text::Text;

/// A file of a folder in memory, with room for `room` bytes after it is created.
#[derive(Debug, Drop)]
pub(crate) struct File {
    pub(crate) name: Text,
    pub(crate) bytes: Vec<u8>,
    pub(crate) room: usize,
    ghost room_taken: { room ≤ vec_capacity bytes },
}
