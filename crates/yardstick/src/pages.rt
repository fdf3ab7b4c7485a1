//! Which pages are free, and which addresses are mapped.

ghost use Rattle.std.specs.Prelude.{◌≡◌, ◌<◌, ◌^◌};
ghost use Rattle.std.specs.List.{list_any};
ghost use Rattle.plain_heap.specs.Bytes.{is_within};
ghost use Rattle.plain_heap.specs.Setting.{is_in_root};
ghost use Rattle.plain_heap.specs.State.{is_in_span, is_mapped, is_mapped_range, is_taken, span_of_slab};
ghost use Rattle.yardstick.specs.Kept.{state_kept};
ghost use Rattle.yardstick.specs.Tests.{has_run, is_free_page, is_free_run, is_in_large_buffer};

use crate::bytes::offset_in;
use crate::caches::geometry_of;
use crate::kept::Kept;
use crate::live_buffer::LiveBuffer;
use crate::setting::Setting;
use crate::slab::HeapSlab;
use script::Header;
use umem_base::{ARENA_BASE, OWN_ROOTS, PAGE_BYTES, SHARED_ROOT, arena_pages, pages_for};

fn is_among(base: u64, count: u64, address: u128) -> bool
    ensures { result ≡ is_within base count address }
{
    offset_in(u128::from(base), count, address).is_some()
}

/// An address is in a page of a slab.
fn is_in_slab(setting: &Setting, slab: &HeapSlab, address: u128) -> bool
    ensures { result ≡ is_in_span address (span_of_slab setting.now slab.now) }
{
    let pages = geometry_of(setting, slab.cache()).pages;
    is_among(slab.base(), PAGE_BYTES * u64::from(pages), address)
}

/// An address is in a page of a large buffer, if the buffer is one.
fn is_in_large_buffer(buffer: &LiveBuffer, address: u128) -> bool
    ensures { result ≡ is_in_large_buffer address buffer.now }
{
    let held = buffer.held();
    let count = PAGE_BYTES * pages_for(u64::from(held.size));
    held.cache.is_none() && is_among(buffer.address(), count, address)
}

fn is_in_any_large(live: &[LiveBuffer], address: u128) -> bool
    ensures { result ≡ list_any (is_in_large_buffer address) live.now }
{
    live.iter()
        .any(|buffer| is_in_large_buffer(buffer, address))
}

fn is_in_any_slab(setting: &Setting, slabs: &[HeapSlab], address: u128) -> bool
    ensures { result ≡ list_any (λ slab. is_in_span address (span_of_slab setting.now slab)) slabs.now }
{
    slabs.iter().any(|slab| is_in_slab(setting, slab, address))
}

/// An address is in a page of a slab or of a live large buffer.
fn is_taken(setting: &Setting, kept: &Kept, address: u128) -> bool
    ensures { result ≡ is_taken setting.now (state_kept setting.now kept.now) address }
{
    is_in_any_slab(setting, &kept.slabs, address) || is_in_any_large(&kept.live, address)
}

fn is_in_root(header: &Header, address: u128) -> bool
    ensures { result ≡ is_in_root header.now address }
{
    is_among(SHARED_ROOT, PAGE_BYTES, address)
        || header.version == 2
            && is_among(OWN_ROOTS, PAGE_BYTES * u64::from(header.threads), address)
}

/// An address is in a root page, or in a page of a slab or of a live large buffer.
pub fn is_mapped(setting: &Setting, kept: &Kept, address: u128) -> bool
    ensures { result ≡ is_mapped setting.now (state_kept setting.now kept.now) address }
{
    is_in_root(setting.header(), address) || is_taken(setting, kept, address)
}

/// Each of so many addresses is mapped.
pub fn is_mapped_range(setting: &Setting, kept: &Kept, at: u128, count: usize) -> bool
    requires { at < 2 ^ 65 }
    ensures { result ≡ is_mapped_range setting.now (state_kept setting.now kept.now) at count }
{
    (0..count).all(|k| is_mapped(setting, kept, at + k as u128))
}

/// A page of the arena begins there that is in no slab and no live large buffer.
fn is_free_page(setting: &Setting, kept: &Kept, address: u128) -> bool
    requires { address < 2 ^ 65 }
    ensures { result ≡ is_free_page setting.now (state_kept setting.now kept.now) address }
{
    let end = ARENA_BASE + PAGE_BYTES * arena_pages(setting.header().version);
    address % u128::from(PAGE_BYTES) == 0
        && address >= u128::from(ARENA_BASE)
        && address + u128::from(PAGE_BYTES) <= u128::from(end)
        && !is_taken(setting, kept, address)
}

/// The run of so many pages from a base on is free.
pub fn is_free_run(setting: &Setting, kept: &Kept, pages: u64, base: u64) -> bool
    requires { pages < 2 ^ 32 }
    ensures { result ≡ is_free_run setting.now (state_kept setting.now kept.now) pages base }
{
    (0..pages).all(|k| is_free_page(setting, kept, u128::from(base) + u128::from(PAGE_BYTES * k)))
}

/// A run of so many pages is free.
pub fn has_run(setting: &Setting, kept: &Kept, pages: u64) -> bool
    requires { pages < 2 ^ 32 }
    ensures { result ≡ has_run setting.now (state_kept setting.now kept.now) pages }
{
    (0..arena_pages(setting.header().version)).any(|k| is_free_run(
        setting,
        kept,
        pages,
        ARENA_BASE + PAGE_BYTES * k,
    ))
}
