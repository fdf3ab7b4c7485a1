ghost use Rattle.std.specs.Prelude.{◌≡◌, ◌<◌, ◌≤◌, ◌^◌, ◌∷◌, [], nat_eq, length, map, position, IfOk, IfSome};
ghost use Rattle.std.specs.List.{list_all};
ghost use Rattle.std.specs.Cmp.Lexicographic.{pointwise};
ghost use Rattle.case_table.specs.CacheName.{class_name};
ghost use Rattle.case_table.specs.Geometry.{IsCacheShape};
ghost use Rattle.core_format.specs.Caches.{cache_bytes, cache_item_at, cache_numbers_at, cache_item_of, ctor_of, first_numbers_at, is_align_of, is_ctor_of, is_guarded, is_name_behind, is_new_name, is_size_of, is_unused, is_zero, later_numbers_at, number_rules, padded_length, shape_of, shapes_of};
ghost use Rattle.core_format.specs.Items.{items_at};
ghost use Rattle.core_format.specs.Sections.{ReadsItem, caches_in};
ghost use Rattle.core_format.specs.Reader.{ReadsAs};

use crate::cache_numbers::CacheNumbers;
use crate::cache_shape::CacheShape;
use crate::core_fault::CoreFault;
use crate::fault::Fault;
use crate::header::Header;
use crate::items::CacheItem;
use crate::limits::NO_CTOR;
use crate::read_header::has_bit;
use crate::reader::{Reader, rule};
use case_table::{
    CLASS_ALIGN, CLASS_COUNT, CacheDef, Layout, MOST_CACHE_BYTES, class_size, geometry,
    is_cache_name, is_reserved_name, put_class_name, take_fields,
};
use std::alloc::Global;
use umem_base::{NoMemory, Text};
use umem_options::DebugFlags;

fn first_layout() -> Layout<3>
    ensures { result ≡ 4 ∷ 4 ∷ 4 ∷ [] }
{
    Layout::new([4, 4, 4]).unwrap()
}

#[tactic(auto, unfolding(crate::specs::Caches::first_numbers_at))]
fn first_numbers(reader: &mut Reader) -> Result<CacheNumbers, CoreFault>
    ensures { ReadsItem result reader.new (first_numbers_at reader.old) }
{
    let start = reader.at();
    take_fields!(reader, &first_layout(), start => size, align, grows);
    Ok(CacheNumbers {
        size: size as u32,
        align: align as u32,
        grows: grows as u32,
        ctor: NO_CTOR,
    })
}

fn later_layout() -> Layout<4>
    ensures { result ≡ 4 ∷ 4 ∷ 4 ∷ 4 ∷ [] }
{
    Layout::new([4, 4, 4, 4]).unwrap()
}

#[tactic(auto, unfolding(crate::specs::Caches::later_numbers_at))]
fn later_numbers(reader: &mut Reader) -> Result<CacheNumbers, CoreFault>
    ensures { ReadsItem result reader.new (later_numbers_at reader.old) }
{
    let start = reader.at();
    take_fields!(reader, &later_layout(), start => size, align, grows, ctor);
    Ok(CacheNumbers {
        size: size as u32,
        align: align as u32,
        grows: grows as u32,
        ctor: ctor as u32,
    })
}

fn cache_numbers(reader: &mut Reader, header: &Header) -> Result<CacheNumbers, CoreFault>
    ensures { ReadsItem result reader.new (cache_numbers_at header.now reader.old) }
{
    if header.version == 1 {
        first_numbers(reader)
    } else {
        later_numbers(reader)
    }
}

fn cache_bytes(header: &Header) -> usize
    ensures { result ≡ cache_bytes header.now }
{
    if header.version == 1 { 44 } else { 48 }
}

/// How many bytes of a field stand before the first zero.
fn padded_length(field: &[u8]) -> usize
    ensures value { result ≡ padded_length field.now }
    ensures within { result ≤ length field.now }
{
    let zero = first_zero(field);
    zero.unwrap_or(field.len())
}

fn first_zero(field: &[u8]) -> Option<usize>
    ensures value { result ≡ position is_zero field.now }
    ensures within { IfSome result (λ i. i < length field.now) }
{
    field.iter().position(|byte| *byte == 0)
}

fn are_zeros(bytes: &[u8]) -> bool
    ensures { result ≡ list_all is_zero bytes.now }
{
    bytes.iter().all(|byte| *byte == 0)
}

fn has_name(item: &CacheItem, name: &[u8]) -> bool
    ensures { result ≡ pointwise nat_eq item.now.def.name name.now }
{
    item.def.name.as_slice() == name
}

/// Tells whether no cache has the name.
fn is_unused(caches: &[CacheItem], name: &[u8]) -> bool
    ensures { result ≡ is_unused caches.now name.now }
{
    caches.iter().all(|item| !has_name(item, name))
}

fn is_new_name(caches: &[CacheItem], name: &[u8]) -> bool
    ensures { result ≡ is_new_name caches.now name.now }
{
    is_cache_name(name) && !is_reserved_name(name) && is_unused(caches, name)
}

fn is_class_name(alloc: Global, class: u32, name: &[u8]) -> Result<bool, NoMemory>
    requires { class < CLASS_COUNT }
    ensures { IfOk result (λ same. same ≡ pointwise nat_eq name.now (class_name class)) }
{
    let mut text = Text::new(alloc);
    put_class_name(&mut text, class)?;
    Ok(name == text.as_slice())
}

fn is_name_behind(alloc: Global, caches: &[CacheItem], name: &[u8]) -> Result<bool, NoMemory>
    ensures { IfOk result (λ allowed. allowed ≡ is_name_behind caches.now name.now) }
{
    if caches.len() < CLASS_COUNT as usize {
        is_class_name(alloc, caches.len() as u32, name)
    } else {
        Ok(is_new_name(caches, name))
    }
}

fn is_size_of(cache: u32, size: u32) -> bool
    ensures { result ≡ is_size_of cache size }
{
    if cache < CLASS_COUNT {
        size == class_size(cache)
    } else {
        1 <= size && size <= MOST_CACHE_BYTES
    }
}

fn is_align_of(cache: u32, align: u32) -> bool
    ensures { result ≡ is_align_of cache align }
{
    if cache < CLASS_COUNT {
        align == CLASS_ALIGN
    } else {
        matches!(align, 8 | 16 | 32 | 64)
    }
}

fn is_ctor_of(cache: u32, ctor: u32) -> bool
    ensures { result ≡ is_ctor_of cache ctor }
{
    if cache < CLASS_COUNT {
        ctor == NO_CTOR
    } else {
        ctor <= NO_CTOR
    }
}

/// The rules of a cache's numbers.
#[tactic(auto, unfolding(crate::specs::Caches::number_rules))]
fn check_numbers(cache: u32, numbers: &CacheNumbers, start: usize) -> Result<(), CoreFault>
    requires { start < 2 ^ 63 }
    ensures { ReadsAs (λ _. tt) result (number_rules cache numbers.now start) }
{
    rule(is_size_of(cache, numbers.size), start + 32, Fault::BadCache)?;
    rule(
        is_align_of(cache, numbers.align),
        start + 36,
        Fault::BadCache,
    )?;
    rule(is_ctor_of(cache, numbers.ctor), start + 44, Fault::BadCache)
}

fn cache_item_of(name: Text, numbers: &CacheNumbers) -> CacheItem
    ensures { result ≡ cache_item_of name numbers.now }
{
    CacheItem {
        def: CacheDef {
            name,
            size: numbers.size,
            align: numbers.align,
            ctor: u8::try_from(numbers.ctor).ok(),
        },
        grows: numbers.grows,
    }
}

#[tactic(auto, unfolding(crate::specs::Caches::cache_item_at))]
fn cache(
    alloc: Global,
    reader: &mut Reader,
    header: &Header,
    before: &[CacheItem],
) -> Result<CacheItem, CoreFault>
    requires { length before.now < 2 ^ 32 }
    ensures read { ReadsItem result reader.new (cache_item_at header.now before.now reader.old) }
    ensures shape { IfOk result (λ item. IsCacheShape item.def.size item.def.align) }
{
    let start = reader.at();
    reader.room(cache_bytes(header))?;
    let field = reader.take_slice(32)?;
    let numbers = cache_numbers(reader, header)?;
    let (name, padding) = field.split_at(padded_length(field));
    rule(are_zeros(padding), start, Fault::BadCache)?;
    rule(is_name_behind(alloc, before, name)?, start, Fault::BadCache)?;
    check_numbers(before.len() as u32, &numbers, start)?;
    Ok(cache_item_of(Text::from_slice(alloc, name)?, &numbers))
}

/// What the slabs of a cache are like.
fn shape_of(item: &CacheItem, guards: bool) -> CacheShape
    requires { IsCacheShape item.now.def.size item.now.def.align }
    ensures { result ≡ shape_of guards item.now }
{
    let geometry = geometry(item.def.size, item.def.align, guards);
    CacheShape {
        align: item.def.align,
        chunk: geometry.chunk,
        pages: geometry.pages,
        rounds: geometry.rounds,
        leftover: geometry.leftover,
        magazine: geometry.magazine,
    }
}

fn is_guarded(header: &Header) -> bool
    ensures { result ≡ is_guarded header.now }
{
    has_bit(header.flags, DebugFlags::GUARDS)
}

/// The caches, and what their slabs are like.
pub fn caches(
    alloc: Global,
    reader: &mut Reader,
    header: &Header,
) -> Result<(Vec<CacheItem>, Vec<CacheShape>), CoreFault>
    ensures read { ReadsAs (λ r. (r.0.items, reader.new)) result (caches_in header.now reader.old) }
    ensures shapes { IfOk result (λ r. r.1.items ≡ shapes_of header.now r.0.items) }
{
    let guards = is_guarded(header);
    let mut caches = Vec::new(alloc);
    let mut shapes = Vec::new(alloc);
    for _ in 0..header.caches {
        let item = cache(alloc, reader, header, &caches)?;
        shapes.push(shape_of(&item, guards))?;
        caches.push(item)?;
    }
    Ok((caches, shapes))
}
