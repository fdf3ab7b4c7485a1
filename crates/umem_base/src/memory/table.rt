ghost use Rattle.std.specs.Prelude.{◌≡◌, ◌<◌, [], ◌∷◌, ◌++◌, length, Some, None, IfSome, OnOk, OnErr, MatchOption, slice_get};
ghost use Rattle.std.specs.Bool.{OnTrue, OnFalse};
ghost use Rattle.umem_base.specs.Files.{files_of};
ghost use Rattle.umem_base.specs.MemFolder.{IsFirstAt, file_named, ChangesAt, HasRoomAt};

use super::file::File;
use crate::no_memory::NoMemory;
use crate::text::Text;
use std::alloc::Global;
use std::marker::Model;

/// Files by their places, the newest first. Of several files of one name the first counts.
#[derive(Debug, Drop)]
pub(crate) struct Table {
    files: Vec<File>,
}

impl Model for Table {
    ghost use Rattle.std.specs.Prelude.{List};
    ghost use Rattle.umem_base.specs.MemFolder.{MemoryFile};

    ghost Value = { List MemoryFile };

    ghost use Rattle.umem_base.specs.Files.{files_of};

    ghost view = { λ t. files_of t.files.items };
}

impl Table {
    pub(crate) fn new(alloc: Global) -> Table
        ensures { result ≡ [] }
    {
        Table {
            files: Vec::new(alloc),
        }
    }

    pub(crate) fn add(&mut self, name: &Text, bytes: &[u8], room: usize) -> Result<(), NoMemory>
        ensures ok { OnOk result
            (self.new ≡ record { name = name.now; bytes = bytes.now; room = room } ∷ self.old) }
        ensures err { OnErr result (self.new ≡ self.old) }
    {
        let alloc = *self.files.allocator();
        let name = Text::from_slice(alloc, name.as_slice())?;
        let mut stored = Vec::with_capacity(alloc, room.max(bytes.len()))?;
        stored.extend_from_slice(bytes)?;
        let file = File {
            name,
            bytes: stored,
            room,
        };
        self.files.insert(0, file)?;
        Ok(())
    }

    /// The place of the first file of that name.
    pub(crate) fn position(&self, name: &Text) -> Option<usize>
        ensures first { MatchOption result (file_named self.now name.now ≡ None) (IsFirstAt self.now name.now) }
    {
        place_of(&self.files, name)
    }

    pub(crate) fn bytes_at(&self, place: usize) -> &[u8]
        requires { place < length self.now }
        ensures { IfSome (slice_get self.now place) (λ file. result.now ≡ file.bytes) }
    {
        &self.files[place].bytes
    }

    pub(crate) fn empty_at(&mut self, place: usize)
        requires { place < length self.old }
        ensures { ChangesAt self.old self.new place (λ _. []) }
    {
        let file = &mut self.files[place];
        file.bytes.clear();
    }

    /// Appends to a file, where there is room for all of the bytes.
    pub(crate) fn append_at(&mut self, place: usize, bytes: &[u8]) -> bool
        requires { place < length self.old }
        ensures fits { HasRoomAt self.old place (length bytes.now) result }
        ensures appended { OnTrue result (ChangesAt self.old self.new place (λ old. old ++ bytes.now)) }
        ensures kept { OnFalse result (self.new ≡ self.old) }
    {
        let file = &mut self.files[place];
        if bytes.len() > file.room.saturating_sub(file.bytes.len()) {
            return false;
        }
        file.bytes.extend_from_slice(bytes).unwrap();
        true
    }
}

fn place_of(files: &[File], name: &Text) -> Option<usize>
    ensures { MatchOption result (file_named (files_of files.now) name.now ≡ None)
        (IsFirstAt (files_of files.now) name.now) }
{
    for (place, file) in files.iter().enumerate() {
        if file.name.as_slice() == name.as_slice() {
            return Some(place);
        }
    }
    None
}
