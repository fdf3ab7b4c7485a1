ghost use Rattle.std.specs.Prelude.{◌≡◌, ◌+◌, ◌*◌, ◌^◌, ◌<◌, ◌≤◌, [], IfOk, length, take};
ghost use Rattle.umem_options.specs.declared.limits.TheConstants.{MOST_CONTENTS};
ghost use Rattle.heap_books.specs.Journal.{with_act, with_saved};

use heap_logs::Act;
use std::alloc::Global;
use std::marker::Model;
use trans_log::{Saved, SavedLog};
use umem_base::{BoundedVec, NoMemory};
use umem_options::MOST_CONTENTS;

/// What is kept beside the tables of a run for its audits and logs: the act of each entry, and the contents log. All
/// memory is taken at the start. Contracts see both, and the bytes of the chunk that is freed next.
#[derive(Drop)]
pub struct Journal {
    acts: BoundedVec<Option<Act>>,
    saved: SavedLog,
    piece: Vec<u8>,
}

impl Model for Journal {
    ghost use Rattle.heap_books.specs.Journal.{Journal};

    ghost Value = { Journal };

    ghost view = { λ j. record { acts = j.acts; saved = j.saved; piece = j.piece.items } };
}

impl Journal {
    /// Nothing is kept yet, and there is room for three entries a call. The contents log keeps `capacity` buffers, of
    /// each at most `count` bytes.
    pub fn start(alloc: Global, calls: u32, capacity: u32, count: u32) -> Result<Journal, NoMemory>
        requires { 3 * calls < 2 ^ 32 }
        ensures acts { IfOk result (λ j. (j.acts.items ≡ []) × (j.acts.spare ≡ 3 * calls)) }
        ensures saved { IfOk result (λ j. j.saved ≡ record { capacity = capacity; count = count; items = [] }) }
        ensures piece { IfOk result (λ j. length j.piece ≡ MOST_CONTENTS) }
    {
        let acts = BoundedVec::with_room(alloc, 3 * calls)?;
        let saved = SavedLog::new(alloc, capacity, count)?;
        let piece = vec![in alloc; 0; MOST_CONTENTS as usize]?;
        Ok(Journal { acts, saved, piece })
    }

    /// The acts of all entries.
    pub fn acts(&self) -> &[Option<Act>]
        ensures { result.now ≡ self.now.acts.items }
    {
        self.acts.as_slice()
    }

    /// The contents log, oldest first.
    pub fn saved(&self, alloc: Global) -> Result<Vec<Saved>, NoMemory>
        ensures { IfOk result (λ items. items.items ≡ self.now.saved.items) }
    {
        self.saved.entries(alloc)
    }

    /// Enters a call with its act, behind so many inner entries. It takes no memory.
    pub fn enter(&mut self, inner: usize, act: Option<Act>)
        requires { inner + 1 ≤ self.old.acts.spare }
        ensures { self.new ≡ with_act self.old inner act }
    {
        for _ in 0..inner {
            self.acts.push(None);
        }
        self.acts.push(act);
    }

    /// Notes the bytes of a chunk that may be freed next. It takes no memory.
    pub fn note(&mut self, bytes: &[u8])
        requires { length bytes.now ≤ length self.old.piece }
        ensures noted { take (length bytes.now) self.new.piece ≡ bytes.now }
        ensures others { self.new ≡ record self.old { piece = self.new.piece } }
        ensures room { length self.new.piece ≡ length self.old.piece }
    {
        put_front(&mut self.piece, bytes);
    }

    /// Enters a freed buffer with the first bytes that were noted of it in the contents log. It takes no memory.
    pub fn save(&mut self, time: u64, chunk: u32, count: usize)
        requires noted { count ≤ length self.old.piece }
        requires few { count ≤ self.old.saved.count }
        ensures { self.new ≡ with_saved self.old time chunk count }
    {
        self.saved.enter(time, chunk, &self.piece[..count]);
    }
}

// Puts bytes over the first ones of a list.
fn put_front(room: &mut [u8], bytes: &[u8])
    requires { length bytes.now ≤ length room.old }
    ensures front { take (length bytes.now) room.new ≡ bytes.now }
    ensures length { length room.new ≡ length room.old }
{
    room[..bytes.len()].copy_from_slice(bytes);
}
