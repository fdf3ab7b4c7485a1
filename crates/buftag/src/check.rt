ghost use Rattle.std.specs.Prelude.{◌≡◌, ◌+◌, ◌≤◌, length, position};
ghost use Rattle.buftag.specs.Findings.{decides, facts_of, finding, tag_half, has_bad_guard, has_bad_low_half, has_bad_tag, kind_of, rows, told_size, tag_word, wrong_word};
ghost use Rattle.buftag.specs.Rows.{finding_of_bit, kind_bit};
ghost use Rattle.buftag.specs.Shape.{IsChunk, IsShape};

use crate::fact::Fact;
use crate::facts::Facts;
use crate::finding::Finding;
use crate::kind::Kind;
use crate::patterns::{FREE_WORD, GUARD_BYTE, REDZONE_HALF, REDZONE_WORD};
use crate::shape::Shape;
use crate::size_code::decode_size;
use crate::state::State;
use byteorder::{ByteOrder, LittleEndian};
use case_table::{Cases, Rule, check_rows, class_of};

// A constant can call no function, so a rule with the bits of its names is written by a macro.
macro_rules! rule {
    ($kind:ident, $fact:ident) => {
        Rule {
            state: Kind::$kind as u32,
            fact: Fact::$fact as u32,
        }
    };
}

// Which chunks a rule is about, and what breaks it. The first that holds decides.
const RULES: Cases<9> = Cases {
    rows: [
        rule!(OfClass, Tag),
        rule!(OfClass, Code),
        rule!(OfClass, Guard),
        rule!(OfClass, Low),
        rule!(Declared, Tag),
        rule!(Declared, Word),
        rule!(Unused, Pattern),
        rule!(Unused, Word),
        rule!(Unused, Tag),
    ],
};

/// The first rule that the bytes of a chunk break in a state, or `None` where they break none. The rules
/// are those of umem_debug(3MALLOC), their order is this project's own.
pub fn first_broken(bytes: &[u8], shape: &Shape, state: State) -> Option<Finding>
    requires shape { IsShape shape.now }
    requires chunk { IsChunk bytes.now shape.now }
    ensures { result ≡ finding bytes.now shape.now state }
{
    let wrong = wrong_word(bytes, shape);
    let facts = facts_of(bytes, shape, state, wrong);
    let row = first_row(kind_of(shape, state), &facts)?;
    Some(finding_of(RULES.rows[row].fact, wrong))
}

/// What a fact is called. A wrong word of a content is told by its offset.
fn finding_of(fact: u32, wrong: Option<u32>) -> Finding
    ensures { result ≡ finding_of_bit fact wrong }
{
    if fact == Fact::Tag as u32 {
        Finding::BadTag
    } else if fact == Fact::Code as u32 {
        Finding::SizeCode
    } else if fact == Fact::Guard as u32 {
        Finding::GuardByte
    } else if fact == Fact::Pattern as u32 {
        Finding::Content(wrong.unwrap_or(0))
    } else {
        Finding::Redzone
    }
}

/// The number of the first row that decides.
fn first_row(kind: Kind, facts: &Facts) -> Option<usize>
    ensures { result ≡ position (decides kind facts.now) rows }
{
    check_rows!(RULES, bit_of(kind);
        Fact::Tag as u32 => facts.tag,
        Fact::Code as u32 => facts.code,
        Fact::Guard as u32 => facts.guard,
        Fact::Low as u32 => facts.low,
        Fact::Word as u32 => facts.word,
        Fact::Pattern as u32 => facts.pattern,
    )
}

fn bit_of(kind: Kind) -> u32
    ensures { result ≡ kind_bit kind }
{
    kind as u32
}

fn kind_of(shape: &Shape, state: State) -> Kind
    ensures { result ≡ kind_of shape.now state }
{
    match state {
        State::Allocated if shape.class.is_some() => Kind::OfClass,
        State::Allocated => Kind::Declared,
        State::Free => Kind::Unused,
    }
}

fn facts_of(bytes: &[u8], shape: &Shape, state: State, wrong: Option<u32>) -> Facts
    requires shape { IsShape shape.now }
    requires chunk { IsChunk bytes.now shape.now }
    requires wrong { wrong ≡ wrong_word bytes.now shape.now }
    ensures { result ≡ facts_of bytes.now shape.now state }
{
    let size = told_size(bytes, shape);
    Facts {
        tag: has_bad_tag(bytes, shape, state),
        code: size.is_none(),
        guard: has_bad_guard(bytes, shape, size),
        low: has_bad_low_half(bytes, shape, size),
        word: tag_word(bytes, shape.content as usize) != REDZONE_WORD,
        pattern: wrong.is_some(),
    }
}

fn tag_word(bytes: &[u8], at: usize) -> u64
    requires { at + 8 ≤ length bytes.now }
    ensures { result ≡ tag_word bytes.now at }
{
    LittleEndian::read_u64(&bytes[at..])
}

fn tag_half(bytes: &[u8], at: usize) -> u32
    requires { at + 4 ≤ length bytes.now }
    ensures { result ≡ tag_half bytes.now at }
{
    LittleEndian::read_u32(&bytes[at..])
}

/// The size that the upper half of the redzone word tells, if the chunk's class serves it.
fn told_size(bytes: &[u8], shape: &Shape) -> Option<u32>
    requires { IsChunk bytes.now shape.now }
    ensures { result ≡ told_size bytes.now shape.now }
{
    let size = decode_size(tag_half(bytes, shape.content as usize + 4))?;
    (class_of(u64::from(size)) == shape.class).then_some(size)
}

/// The offset of the first word of the content that is not the pattern of free chunks.
fn wrong_word(bytes: &[u8], shape: &Shape) -> Option<u32>
    requires { IsChunk bytes.now shape.now }
    ensures { result ≡ wrong_word bytes.now shape.now }
{
    for index in 0..shape.content / 8 {
        let offset = 8 * index;
        if tag_word(bytes, offset as usize) != FREE_WORD {
            return Some(offset);
        }
    }
    None
}

fn has_bad_tag(bytes: &[u8], shape: &Shape, state: State) -> bool
    requires { IsChunk bytes.now shape.now }
    ensures { result ≡ has_bad_tag bytes.now shape.now state }
{
    let bufctl = shape.content as usize + 8;
    tag_word(bytes, bufctl) != shape.bufctl
        || tag_word(bytes, bufctl + 8) != shape.bufctl ^ state.mark()
}

/// Whether the byte behind the size that the tag tells is not the guard byte.
fn has_bad_guard(bytes: &[u8], shape: &Shape, size: Option<u32>) -> bool
    requires shape { IsShape shape.now }
    requires chunk { IsChunk bytes.now shape.now }
    requires told { size ≡ told_size bytes.now shape.now }
    ensures { result ≡ has_bad_guard bytes.now shape.now }
{
    match size {
        Some(size) => bytes[size as usize] != GUARD_BYTE,
        None => false,
    }
}

/// Whether the lower half of the redzone word is wrong, but for the guard byte where it stands there.
fn has_bad_low_half(bytes: &[u8], shape: &Shape, size: Option<u32>) -> bool
    requires chunk { IsChunk bytes.now shape.now }
    requires told { size ≡ told_size bytes.now shape.now }
    ensures { result ≡ has_bad_low_half bytes.now shape.now }
{
    let low = tag_half(bytes, shape.content as usize);
    if size == Some(shape.content) {
        low / 256 != REDZONE_HALF / 256
    } else {
        low != REDZONE_HALF
    }
}
