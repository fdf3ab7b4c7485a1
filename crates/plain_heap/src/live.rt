ghost use Rattle.std.specs.Prelude.{◌≡◌, ◌+◌, ◌<◌, IfOk, Some, None, IsSome};
ghost use Rattle.std.specs.FinMap as map;
ghost use Rattle.plain_heap.specs.Frees.{IsFreeOp, judgement, refusal_of};
ghost use Rattle.plain_heap.specs.Live.{live_at};
ghost use Rattle.plain_heap.specs.Replies.{refusal_by_cache, refusal_by_size};

use crate::held::Held;
use crate::reply::Reply;
use case_table::CLASS_COUNT;
use script::Op;
use std::alloc::Global;
use std::collections::HashMap;
use std::marker::Model;
use umem_base::NoMemory;

/// The buffers that were handed out, by their addresses, with room that was taken at the start. Contracts
/// see, for each address that was ever handed out, what lives there, if anything does; and the spare, the
/// number of allocations that there is still room for.
#[derive(Drop)]
pub struct Live {
    buffers: HashMap<u64, Option<Held>>,
    spare: usize,
}

impl Model for Live {
    ghost use Rattle.std.specs.Prelude.{◌≤◌};
    ghost use Rattle.std.specs.FinMap as map;
    ghost use Rattle.std.specs.HashMap as hash_map;
    ghost use Rattle.plain_heap.specs.Live.{Live, live_code};

    ghost Value = { Live };

    ghost coded = { live_code };

    ghost view = { λ l. record { buffers = map.from_entries l.buffers.entries; spare = l.spare } };

    ghost invariant = { λ l. l.spare ≤ hash_map.spare l.buffers };
}

impl Live {
    /// Nothing was handed out, and there is room for `count` allocations.
    pub fn with_room(alloc: Global, count: u32) -> Result<Live, NoMemory>
        ensures empty { IfOk result (λ l. l.buffers ≡ map.empty) }
        ensures spare { IfOk result (λ l. l.spare ≡ count) }
    {
        let spare = count as usize;
        let buffers = HashMap::with_capacity(alloc, spare)?;
        Ok(Live { buffers, spare })
    }

    /// Adds a buffer. It takes no memory.
    pub fn allocated(&mut self, address: u64, size: u32, cache: Option<u32>)
        requires room { 0 < self.old.spare }
        requires fresh { live_at self.old.buffers address ≡ None }
        ensures buffers { self.new.buffers
            ≡ map.insert self.old.buffers address (Some (record { size = size; cache = cache })) }
        ensures spare { self.new.spare + 1 ≡ self.old.spare }
    {
        let added: Result<_, _> = self.buffers.insert(address, Some(Held { size, cache }));
        added.unwrap();
        self.spare -= 1;
    }

    /// Removes a live buffer. It takes no memory.
    pub fn freed(&mut self, address: u64)
        requires { IsSome (live_at self.old.buffers address) }
        ensures buffers { self.new.buffers ≡ map.insert self.old.buffers address None }
        ensures spare { self.new.spare ≡ self.old.spare }
    {
        if let Some(buffer) = self.buffers.get_mut(&address) {
            *buffer = None;
        }
    }

    /// The live buffer at an address.
    pub fn held(&self, address: u64) -> Option<Held>
        ensures { result ≡ live_at self.now.buffers address }
    {
        self.buffer(address).flatten()
    }

    // What lives at an address, if it was handed out.
    fn buffer(&self, address: u64) -> Option<Option<Held>>
        ensures { result ≡ map.get self.now.buffers address }
    {
        self.buffers.get(&address).copied()
    }

    /// The answer to a `free` or a `cache_free` of a slot's word, by whether the chunk there has a finding: the first
    /// of umem_free(3MALLOC)'s misuses that applies. Nothing changes.
    pub fn judge(&self, op: &Op, word: u64, finding: bool) -> Reply
        requires { IsFreeOp op.now }
        ensures { result ≡ judgement self.now.buffers op.now word finding }
    {
        if word == 0 {
            return Reply::Null;
        }
        let held = match self.buffer(word) {
            None => return Reply::BadAddr,
            Some(None) => return Reply::Dup,
            Some(Some(held)) => held,
        };
        match refusal(op, &held) {
            Some(reply) => reply,
            None if finding => Reply::Redzone,
            None => Reply::Ok,
        }
    }
}

// Why a free does not give the live buffer back, if it does not.
fn refusal(op: &Op, held: &Held) -> Option<Reply>
    requires { IsFreeOp op.now }
    ensures { result ≡ refusal_of op.now held.now }
{
    match op {
        Op::Free { size, .. } => refusal_by_size(*size, held),
        Op::CacheFree { cache, .. } => refusal_by_cache(*cache, held),
        _ => unreachable!(),
    }
}

fn refusal_by_size(size: u32, held: &Held) -> Option<Reply>
    ensures { result ≡ refusal_by_size size held.now }
{
    if held.cache.is_some_and(|cache| cache >= CLASS_COUNT) {
        Some(Reply::BadCache)
    } else if held.size != size {
        Some(Reply::BadSize)
    } else {
        None
    }
}

fn refusal_by_cache(cache: u32, held: &Held) -> Option<Reply>
    ensures { result ≡ refusal_by_cache cache held.now }
{
    if held.cache != Some(cache) {
        Some(Reply::BadCache)
    } else {
        None
    }
}
