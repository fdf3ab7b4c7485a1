ghost use Rattle.std.specs.Prelude.{◌≡◌, ◌+◌, ◌*◌, ◌/◌, ◌<◌, ◌≤◌, OnOk, Some, Contains, drop, length, slice_get};
ghost use Rattle.std.specs.List.{sum_by};
ghost use Rattle.byteorder.specs.Endian.{little_number};
ghost use Rattle.heap_view.specs.Buffers.{buffers_of};
ghost use Rattle.heap_view.specs.Memory.{own_words, root_words, word_count, words_in};
ghost use Rattle.heap_view.specs.Points.{place_of_word};
ghost use Rattle.findleaks.specs.Found.{IsConsistent, marked_sum, with_word, with_words};
ghost use Rattle.findleaks.specs.Follow.{IsSearched, IsSoundStart, words_of_index};

use crate::found::Found;
use byteorder::{ByteOrder, LittleEndian};
use heap_view::{Buffer, View};
use std::marker::Brand;
use std::sync::ledger::{Blank, Ledger};
use umem_base::{NoMemory, Steps};

/// The index of the allocated buffer that the word points to. The blank makes a counter of its own for comparisons.
fn place_counted<L: Ledger>(view: &View, word: u64, blank: Blank) -> Option<usize>
    requires name { blank.name ≡ L.name }
    requires parts { blank.parts ≡ L.parts }
    requires some { 0 < L.parts }
    ensures { result ≡ place_of_word word (buffers_of view.now) }
{
    let mut comparisons = Steps::<L>::new(blank);
    view.buffer_at(word, &mut comparisons)
}

/// The same, where comparisons are counted for nobody.
fn place_of(view: &View, word: u64) -> Option<usize>
    ensures { result ≡ place_of_word word (buffers_of view.now) }
{
    place_counted::<Brand>(view, word, Blank::new(1))
}

/// Looks up a word, which is one step, and marks the buffer that it points to.
fn follow_word<L: Ledger>(
    view: &View,
    word: u64,
    found: &mut Found,
    steps: &mut Steps<L>,
) -> Result<(), NoMemory>
    requires { IsConsistent (length (buffers_of view.now)) found.old }
    ensures found { OnOk result (found.new ≡ with_word (buffers_of view.now) found.old word) }
    ensures consistent { OnOk result (IsConsistent (length (buffers_of view.now)) found.new) }
    ensures step { steps.new ≡ steps.old + 1 }
{
    steps.tick();
    match place_of(view, word) {
        Some(index) => found.mark(index),
        None => Ok(()),
    }
}

/// Looks up words.
fn follow_words<L: Ledger>(
    view: &View,
    words: &[u64],
    found: &mut Found,
    steps: &mut Steps<L>,
) -> Result<(), NoMemory>
    requires { IsConsistent (length (buffers_of view.now)) found.old }
    ensures found { OnOk result (found.new ≡ with_words (buffers_of view.now) found.old words.now) }
    ensures consistent { OnOk result (IsConsistent (length (buffers_of view.now)) found.new) }
    ensures looked_up { OnOk result (steps.new ≡ steps.old + length words.now) }
    ensures bound { steps.new ≤ steps.old + length words.now }
{
    for word in words {
        follow_word(view, *word, found, steps)?;
    }
    Ok(())
}

/// Looks up the words of the threads' own segments.
fn follow_own<L: Ledger>(
    view: &View,
    found: &mut Found,
    steps: &mut Steps<L>,
) -> Result<(), NoMemory>
    requires { IsConsistent (length (buffers_of view.now)) found.old }
    ensures found { OnOk result
        (found.new ≡ with_words (buffers_of view.now) found.old (own_words view.now.own)) }
    ensures consistent { OnOk result (IsConsistent (length (buffers_of view.now)) found.new) }
    ensures looked_up { OnOk result (steps.new ≡ steps.old + length (own_words view.now.own)) }
    ensures bound { steps.new ≤ steps.old + length (own_words view.now.own) }
{
    for own in view.core().own.as_slice() {
        follow_words(view, own.words.as_slice(), found, steps)?;
    }
    Ok(())
}

/// Looks up the words of all root segments.
pub fn follow_roots<L: Ledger>(
    view: &View,
    found: &mut Found,
    steps: &mut Steps<L>,
) -> Result<(), NoMemory>
    requires { IsConsistent (length (buffers_of view.now)) found.old }
    ensures found { OnOk result (found.new ≡ with_words (buffers_of view.now) found.old (root_words view.now)) }
    ensures consistent { OnOk result (IsConsistent (length (buffers_of view.now)) found.new) }
    ensures looked_up { OnOk result (steps.new ≡ steps.old + length (root_words view.now)) }
    ensures bound { steps.new ≤ steps.old + length (root_words view.now) }
{
    follow_words(view, view.core().root.as_slice(), found, steps)?;
    follow_own(view, found, steps)
}

/// The word of that index.
fn word_at(bytes: &[u8], index: usize) -> u64
    requires { 8 * index + 8 ≤ length bytes.now }
    ensures { result ≡ little_number 8 (drop (8 * index) bytes.now) }
{
    LittleEndian::read_u64(&bytes[8 * index..])
}

/// Looks up the whole words of a buffer, from its start on.
fn follow_buffer<L: Ledger>(
    view: &View,
    buffer: &Buffer,
    found: &mut Found,
    steps: &mut Steps<L>,
) -> Result<(), NoMemory>
    requires consistent { IsConsistent (length (buffers_of view.now)) found.old }
    requires allocated { Contains (buffers_of view.now) buffer.now }
    ensures found { OnOk result
        (found.new ≡ with_words (buffers_of view.now) found.old (words_in view.now buffer.now)) }
    ensures consistent { OnOk result (IsConsistent (length (buffers_of view.now)) found.new) }
    ensures looked_up { OnOk result (steps.new ≡ steps.old + word_count buffer.now) }
    ensures bound { steps.new ≤ steps.old + word_count buffer.now }
{
    // What a view knows of its core: a buffer has its bytes there.
    let _ = view.core();
    let bytes = view.bytes_from(buffer.address);
    for index in 0..(buffer.size / 8) as usize {
        follow_word(view, word_at(bytes, index), found, steps)?;
    }
    Ok(())
}

fn buffer_of(view: &View, index: usize) -> Buffer
    requires { index < length (buffers_of view.now) }
    ensures { slice_get (buffers_of view.now) index ≡ Some result }
{
    view.buffers()[index]
}

/// Looks up the words of each buffer that was found, of those too that are found on the way.
pub fn spread<L: Ledger>(
    view: &View,
    found: &mut Found,
    steps: &mut Steps<L>,
) -> Result<(), NoMemory>
    requires consistent { IsConsistent (length (buffers_of view.now)) found.old }
    requires sound { IsSoundStart view.now found.old }
    ensures found { OnOk result (IsSearched view.now found.old found.new (length found.new.order)) }
    ensures looked_up { OnOk result
        (steps.new ≡ steps.old + marked_sum (words_of_index (buffers_of view.now)) found.new.marks) }
    ensures bound { steps.new ≤ steps.old + sum_by word_count (buffers_of view.now) }
{
    let mut next = 0;
    while next < found.len() {
        let buffer = buffer_of(view, found.at(next));
        follow_buffer(view, &buffer, found, steps)?;
        next += 1;
    }
    Ok(())
}
