ghost use Rattle.std.specs.Prelude.{◌≡◌, ◌<◌, None};
ghost use Rattle.case_table.specs.Geometry.{IsCacheShape, IsSlabGeometry};
ghost use Rattle.case_table.specs.Sizes.{size_of};
ghost use Rattle.buftag.specs.Shape.{IsShape};
ghost use Rattle.plain_heap.specs.Setting.{cache_def_in, def_of, geometry_in, shape_in};

use crate::setting::Setting;
use buftag::Shape;
use case_table::{
    CLASS_ALIGN, CLASS_COUNT, CacheDef, Geometry, bufctl_address, class_size, geometry,
};

/// What counts of a cache here: the size of its buffers, what their addresses are multiples of, and the byte that a
/// constructor leaves in them, where there is one.
#[derive(Clone, Copy)]
pub struct CacheRule {
    pub size: u32,
    pub align: u32,
    pub ctor: Option<u8>,
}

fn rule_of_class(class: u32) -> CacheRule
    requires { class < CLASS_COUNT }
    ensures size { result.size ≡ size_of class }
    ensures align { result.align ≡ CLASS_ALIGN }
    ensures ctor { result.ctor ≡ None }
{
    CacheRule {
        size: class_size(class),
        align: CLASS_ALIGN,
        ctor: None,
    }
}

/// The cache of a number. What no cache has as its number is taken for the first class, as `def_of` has it.
fn rule_of(caches: &[CacheDef], cache: u32) -> CacheRule
    ensures size { result.size ≡ (def_of caches.now cache).size }
    ensures align { result.align ≡ (def_of caches.now cache).align }
    ensures ctor { result.ctor ≡ (def_of caches.now cache).ctor }
{
    if cache < CLASS_COUNT {
        return rule_of_class(cache);
    }
    match caches.get((cache - CLASS_COUNT) as usize) {
        Some(def) => CacheRule {
            size: def.size,
            align: def.align,
            ctor: def.ctor,
        },
        None => rule_of_class(0),
    }
}

/// The cache of a number in a setting.
pub fn rule_in(setting: &Setting, cache: u32) -> CacheRule
    ensures size { result.size ≡ (cache_def_in setting.now cache).size }
    ensures align { result.align ≡ (cache_def_in setting.now cache).align }
    ensures ctor { result.ctor ≡ (cache_def_in setting.now cache).ctor }
    ensures sound { IsCacheShape result.size result.align }
{
    rule_of(setting.header().caches.as_slice(), cache)
}

/// The quantities of a cache's slabs.
pub fn geometry_of(setting: &Setting, cache: u32) -> Geometry
    ensures value { result ≡ geometry_in setting.now cache }
    ensures sound { let def = cache_def_in setting.now cache in
        IsSlabGeometry def.size def.align setting.now.guards result }
{
    let rule = rule_in(setting, cache);
    geometry(rule.size, rule.align, setting.guards())
}

/// What the tag of a chunk of a cache depends on, by the chunk's number.
pub fn shape_of(setting: &Setting, cache: u32, number: u32) -> Shape
    ensures value { result ≡ shape_in setting.now cache number }
    ensures sound { IsShape result }
{
    let bufctl = bufctl_address(number);
    if cache < CLASS_COUNT {
        Shape::of_class(cache, bufctl)
    } else {
        Shape::of_cache(rule_in(setting, cache).size, bufctl)
    }
}
