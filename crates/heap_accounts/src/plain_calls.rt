ghost use Rattle.std.specs.Prelude.{◌≡◌};
ghost use Rattle.plain_heap.specs.Replies.{load_answer};
ghost use Rattle.plain_heap.specs.State.{after_word, word_of_slot};
ghost use Rattle.heap_memory.specs.Pages.{HasSlot};
ghost use Rattle.heap_memory.specs.States.{Becomes, ForEachState};
ghost use Rattle.heap_accounts.specs.Kinds.{is_plain_call};
ghost use Rattle.heap_accounts.specs.Plain.{AnswersNothing, PlainlyMakes};
ghost use Rattle.heap_accounts.specs.Slots.{HasSlotsOf, StoresSome};
ghost use Rattle.heap_accounts.specs.Tables.{IsKnown, PerformsKind};

use crate::tables::Tables;
use heap_memory::Memory;
use heap_memory::laws::slots_are_mapped;
use heap_slabs::laws::tables_look_at_slabs;
use plain_heap::Reply;
use script::Op;

/// Makes a call of a thread that hands nothing out and gives nothing back; `None` for other calls.
pub fn plain(tables: &mut Tables, thread: u32, op: &Op) -> Option<Reply>
    requires { IsKnown tables.old thread op.now }
    ensures { PerformsKind is_plain_call tables.old tables.new thread op.now result }
{
    // Laws that say why the slots are mapped, and why the table of slabs stays.
    slots_are_mapped();
    tables_look_at_slabs();
    make_plain(&mut tables.memory, thread, op)
}

/// Makes a call of a thread that hands nothing out and gives nothing back, and answers it; `None` for other calls, and
/// then nothing changed.
fn make_plain(memory: &mut Memory, thread: u32, op: &Op) -> Option<Reply>
    requires slots { HasSlotsOf memory.old thread op.now }
    requires stored { StoresSome op.now }
    ensures { PlainlyMakes memory.old memory.new thread op.now result }
{
    let reply = match op {
        Op::Alloc { slot, size } => nothing(memory, thread, *slot, *size)?,
        Op::Zalloc { slot, size } => nothing(memory, thread, *slot, *size)?,
        Op::Copy { to, from } => {
            let word = memory.slot(thread, *from);
            memory.put_slot(thread, *to, word);
            Reply::Ok
        }
        Op::Clear { slot } => {
            memory.put_slot(thread, *slot, 0);
            Reply::Ok
        }
        Op::Store {
            slot,
            offset,
            bytes,
        } => {
            let word = memory.slot(thread, *slot);
            memory.store(word, *offset, bytes.as_slice())
        }
        Op::Link {
            slot,
            offset,
            value,
        } => {
            let word = memory.slot(thread, *slot);
            let linked = memory.slot(thread, *value);
            memory.link(word, *offset, linked)
        }
        Op::Load { to, slot, offset } => load(memory, thread, *to, *slot, *offset),
        Op::Free { .. } | Op::CacheAlloc { .. } | Op::CacheFree { .. } | Op::Reap => return None,
    };
    Some(reply)
}

/// Answers an allocation of no bytes; `None` where it asks for some.
fn nothing(memory: &mut Memory, thread: u32, slot: u32, size: u32) -> Option<Reply>
    requires { HasSlot memory.old thread slot }
    ensures { AnswersNothing memory.old memory.new thread slot size result }
{
    if size != 0 {
        return None;
    }
    memory.put_slot(thread, slot, 0);
    Some(Reply::Null)
}

/// Loads a word into a slot.
fn load(memory: &mut Memory, thread: u32, to: u32, slot: u32, offset: u32) -> Reply
    requires to { HasSlot memory.old thread to }
    requires from { HasSlot memory.old thread slot }
    ensures reply { ForEachState (λ setting state.
        result ≡ load_answer setting state (word_of_slot state thread slot) offset) memory.old }
    ensures after { Becomes (λ setting state. after_word state thread to result) memory.old memory.new }
{
    let word = memory.slot(thread, slot);
    let reply = memory.load(word, offset);
    if let Reply::Word(loaded) = reply {
        memory.put_slot(thread, to, loaded);
    }
    reply
}
