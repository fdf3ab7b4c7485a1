//! What the definitions of this crate give, for contracts that speak of them and call nothing here.

ghost use Rattle.std.specs.Prelude.{◌≡◌, ℕ, ◌-◌, ◌^◌, ◌<◌, ◌≤◌, Bool, List, ◌++◌, length, sum, take, drop, Some, None, All, IsSome, IsTrue};
ghost use Rattle.case_table.specs.declared.rule.Rule.{Rule};
ghost use Rattle.case_table.specs.Addresses.{bufctl_address, bufctl_chunk, cache_address, cache_at};
ghost use Rattle.case_table.specs.CacheName.{class_name, is_cache_name, is_reserved_name};
ghost use Rattle.case_table.specs.Cases.{IsFirstHit};
ghost use Rattle.case_table.specs.Constants.{AreBasesOfAddresses, AreLimitsOfCaches, AreNumbersOfSlabs};
ghost use Rattle.case_table.specs.Geometry.{IsCacheShape, IsSlabGeometry, KeepsChunksApart, content_of, geometry_of};
ghost use Rattle.case_table.specs.Record.{Fit, StandAt, numbers_at, spelling};
ghost use Rattle.case_table.specs.Sizes.{IsLeastClass, class_for, class_sizes, size_of};

use crate::cache_name::{MOST_NAME_BYTES, OVERSIZE_NAME};
use crate::limits::{CLASS_COUNT, MOST_CACHE_BYTES};
use crate::size_classes::CLASS_ALIGN;

/// A record has as many bytes as its widths say.
pub fn records_have_their_length()
    ensures { (widths values : List ℕ) → Fit widths values → length (spelling widths values) ≡ sum widths }
{}

/// Values stand where their record was put, whatever goes before and behind.
pub fn records_stand_where_put()
    ensures { (before widths values behind : List ℕ) → Fit widths values
        → StandAt widths (before ++ spelling widths values ++ behind) (length before) values }
{}

/// The bytes at a place are those of one list of values at most.
pub fn records_are_known_by_their_bytes()
    ensures { (widths bytes : List ℕ) (at : ℕ) (xs ys : List ℕ)
        → StandAt widths bytes at xs → StandAt widths bytes at ys → xs ≡ ys }
{}

/// A list that begins with a record begins with no other of the same widths.
pub fn records_are_known_by_their_front()
    ensures values { (widths xs ys more rest : List ℕ) → Fit widths xs → Fit widths ys
        → spelling widths xs ++ more ≡ spelling widths ys ++ rest → xs ≡ ys }
    ensures behind { (widths xs ys more rest : List ℕ) → Fit widths xs → Fit widths ys
        → spelling widths xs ++ more ≡ spelling widths ys ++ rest → more ≡ rest }
{}

/// Numbers at the front of bytes are spelled as those bytes, and a spelling has the numbers at its front.
pub fn numbers_are_spelled_as_their_bytes()
    ensures spelled { (widths bytes : List ℕ) → All (λ byte. byte < 256) bytes → sum widths ≤ length bytes
        → spelling widths (numbers_at widths bytes) ≡ take (sum widths) bytes }
    ensures fit { (widths bytes : List ℕ) → All (λ byte. byte < 256) bytes → Fit widths (numbers_at widths bytes) }
    ensures back { (widths values behind : List ℕ) → Fit widths values
        → numbers_at widths (spelling widths values ++ behind) ≡ values }
{}

/// There is a number for each width, and where there are bytes enough, they stand at the place.
pub fn numbers_stand_where_read()
    ensures count { (widths bytes : List ℕ) → length (numbers_at widths bytes) ≡ length widths }
    ensures stand { (widths bytes : List ℕ) (at : ℕ) → All (λ byte. byte < 256) bytes
        → sum widths ≤ length bytes - at → StandAt widths bytes at (numbers_at widths (drop at bytes)) }
{}

/// A table has one first row that hits.
pub fn tables_have_one_first_hit()
    ensures { (state facts : ℕ) (rows : List Rule) (i j : ℕ)
        → IsFirstHit state facts rows i → IsFirstHit state facts rows j → i ≡ j }
{}

/// The class of a size is the least one that holds it.
pub fn classes_are_the_least()
    ensures least { (size class : ℕ) → class_for size ≡ Some class → IsLeastClass size class }
    ensures class { (size class : ℕ) → IsLeastClass size class → class_for size ≡ Some class }
{}

/// Which sizes have a class.
pub fn classes_serve_small_sizes()
    ensures small { (size : ℕ) → 0 < size → size ≤ MOST_CACHE_BYTES → IsSome (class_for size) }
    ensures large { (size : ℕ) → MOST_CACHE_BYTES < size → class_for size ≡ None }
{}

/// A class's own size is served by it, and the sizes rise.
pub fn classes_serve_their_own_sizes()
    ensures own { (class : ℕ) → class < CLASS_COUNT → class_for (size_of class) ≡ Some class }
    ensures rise { (lower upper : ℕ) → lower < upper → upper < CLASS_COUNT → size_of lower < size_of upper }
{}

/// A class is a cache of whole words that are multiples of eight.
pub fn classes_are_caches()
    ensures shape { (class : ℕ) → class < CLASS_COUNT → IsCacheShape (size_of class) CLASS_ALIGN }
    ensures content { (class : ℕ) → class < CLASS_COUNT → content_of (size_of class) ≡ size_of class }
{}

/// What a class is called may be a cache's name, is reserved, and is told from the other classes.
pub fn classes_are_known_by_their_names()
    ensures formed { (class : ℕ) → class < CLASS_COUNT → IsTrue (is_cache_name (class_name class)) }
    ensures reserved { (class : ℕ) → IsTrue (is_reserved_name (class_name class)) }
    ensures apart { (i j : ℕ) → i < CLASS_COUNT → j < CLASS_COUNT → class_name i ≡ class_name j → i ≡ j }
{}

/// What large buffers are told under may be a cache's name, and is reserved.
pub fn oversize_is_reserved()
    ensures formed { IsTrue (is_cache_name OVERSIZE_NAME.now) }
    ensures reserved { IsTrue (is_reserved_name OVERSIZE_NAME.now) }
{}

/// A cache's name has from one byte to the most, each from the digit 0 to the letter z.
pub fn names_are_short_words()
    ensures some { (name : List ℕ) → IsTrue (is_cache_name name) → 0 < length name }
    ensures short { (name : List ℕ) → IsTrue (is_cache_name name) → length name ≤ MOST_NAME_BYTES }
    ensures word { (name : List ℕ) → IsTrue (is_cache_name name) → All (λ byte. (48 ≤ byte) × (byte ≤ 122)) name }
{}

/// A cache is found by its address, and a found one has it. No two caches have one address.
pub fn caches_are_known_by_their_addresses()
    ensures own { (cache : ℕ) → cache < 2 ^ 32 → cache_at (cache_address cache) ≡ Some cache }
    ensures only { (address cache : ℕ) → cache_at address ≡ Some cache → cache_address cache ≡ address }
    ensures apart { (i j : ℕ) → cache_address i ≡ cache_address j → i ≡ j }
{}

/// A chunk is found by the address of its bufctl, and a found one has it. No two bufctls have one address.
pub fn bufctls_are_known_by_their_addresses()
    ensures own { (chunk : ℕ) → chunk < 2 ^ 32 → bufctl_chunk (bufctl_address chunk) ≡ Some chunk }
    ensures only { (address chunk : ℕ) → bufctl_chunk address ≡ Some chunk → bufctl_address chunk ≡ address }
    ensures apart { (i j : ℕ) → bufctl_address i ≡ bufctl_address j → i ≡ j }
{}

/// What holds of every geometry of a cache.
pub fn geometries_are_sound()
    ensures { (size align : ℕ) (guards : Bool) → IsCacheShape size align
        → IsSlabGeometry size align guards (geometry_of size align guards) }
{}

/// The chunks of a slab of any colour stand in the slab, at their alignment and apart.
pub fn chunks_stand_in_their_slab()
    ensures { (size align : ℕ) (guards : Bool) (made : ℕ) → IsCacheShape size align
        → KeepsChunksApart align made (geometry_of size align guards) }
{}

/// The limits of caches, how a slab is cut, and where caches and bufctls have their addresses, as numbers: code and
/// definitions share the constants, so nothing else here would refuse another value.
pub fn caches_have_their_numbers()
    ensures limits { AreLimitsOfCaches }
    ensures slabs { AreNumbersOfSlabs }
    ensures addresses { AreBasesOfAddresses }
{}
