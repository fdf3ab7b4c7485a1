ghost use Rattle.script.specs.Grammar.{stack_in};
ghost use Rattle.umem_base.specs.Lines.{words_of};
ghost use Rattle.script.specs.Reading.{Gives, SplitsOne, SplitsStack, SplitsThree, SplitsTwo, frames_of, stack_fault, told_stack};

use crate::fields::read_frames;
use crate::line_fault::LineFault;
use std::alloc::Global;
use umem_base::{Stack, split_word};

/// The word of the frames, if there is one, where nothing but a stack stands.
pub(crate) fn split_stack(line: &[u8]) -> Option<Option<&[u8]>>
    ensures { SplitsStack result (words_of line.now) }
{
    let Some((sign, rest)) = split_word(line) else {
        return Some(None);
    };
    let Some((frames, rest)) = split_word(rest) else {
        return None;
    };
    if sign != b"@".as_slice() || split_word(rest).is_some() {
        return None;
    }
    Some(Some(frames))
}

/// The one word and the word of the frames, where nothing but an argument and a stack stands.
pub(crate) fn split_one(line: &[u8]) -> Option<(&[u8], Option<&[u8]>)>
    ensures { SplitsOne result (words_of line.now) }
{
    let Some((word, rest)) = split_word(line) else {
        return None;
    };
    let Some(frames) = split_stack(rest) else {
        return None;
    };
    Some((word, frames))
}

/// The same for two arguments.
pub(crate) fn split_two(line: &[u8]) -> Option<(&[u8], &[u8], Option<&[u8]>)>
    ensures { SplitsTwo result (words_of line.now) }
{
    let Some((first, rest)) = split_word(line) else {
        return None;
    };
    let Some((second, frames)) = split_one(rest) else {
        return None;
    };
    Some((first, second, frames))
}

/// The same for three arguments.
pub(crate) fn split_three(line: &[u8]) -> Option<(&[u8], &[u8], &[u8], Option<&[u8]>)>
    ensures { SplitsThree result (words_of line.now) }
{
    let Some((first, rest)) = split_word(line) else {
        return None;
    };
    let Some((second, third, frames)) = split_two(rest) else {
        return None;
    };
    Some((first, second, third, frames))
}

/// Reads the frames of a stack, if there is one.
pub(crate) fn read_stack(alloc: Global, frames: Option<&[u8]>) -> Result<Stack, LineFault>
    ensures { let words = told_stack frames.entry in Gives frames_of result (stack_fault words) (stack_in words) }
{
    match frames {
        Some(word) => read_frames(alloc, word),
        None => Ok(Stack::from_vec(Vec::new(alloc))),
    }
}
