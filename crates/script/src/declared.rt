ghost use Rattle.std.specs.Prelude.{◌≡◌, ◌+◌, ◌<◌, ◌^◌, [], ◌∷◌, ◌++◌, length, OnOk, OnErr};
ghost use Rattle.std.specs.Option.{option_map};
ghost use Rattle.script.specs.Fields.{declared_number};

use case_table::{CLASS_COUNT, CacheDef};
use std::alloc::Global;
use std::collections::HashMap;
use std::marker::Model;
use umem_base::NoMemory;

/// The caches that lines declare, with the number of each by its name.
#[derive(Drop)]
pub(crate) struct Declared<'a> {
    caches: Vec<CacheDef>,
    numbers: HashMap<&'a [u8], u32>,
}

impl<'a> Model for Declared<'a> {
    ghost use Rattle.std.specs.Prelude.{◌≡◌, ℕ, List};
    ghost use Rattle.std.specs.HashMap.{get_by};
    ghost use Rattle.std.specs.Str.{bytes_eq};
    ghost use Rattle.case_table.specs.declared.cache_def.CacheDef.{CacheDef};
    ghost use Rattle.script.specs.Fields.{declared_number};

    ghost Value = { List CacheDef };

    ghost view = { λ d. d.caches.items };

    ghost invariant = { λ d. (name : List ℕ) →
        get_by (λ key. bytes_eq name key.now) d.numbers ≡ declared_number d.caches.items name };
}

impl<'a> Declared<'a> {
    /// No caches. It takes no memory.
    pub(crate) fn new(alloc: Global) -> Declared<'a>
        ensures { result ≡ [] }
    {
        Declared {
            caches: Vec::new(alloc),
            numbers: HashMap::new(alloc),
        }
    }

    pub(crate) fn len(&self) -> usize
        ensures { result ≡ length self.now }
    {
        self.caches.len()
    }

    /// The number of the cache that is declared under the name.
    pub(crate) fn number_of(&self, name: &[u8]) -> Option<u32>
        ensures { result ≡ declared_number self.now name.now }
    {
        self.numbers.get(name).copied()
    }

    /// Declares a cache under a name that none has. On refusal all is as before.
    pub(crate) fn push(&mut self, name: &'a [u8], def: CacheDef) -> Result<(), NoMemory>
        requires named { def.name ≡ name.now }
        requires unlike { declared_number self.old name.now ≡ None }
        requires fits { length self.old < 2 ^ 31 }
        ensures ok { OnOk result (self.new ≡ self.old ++ def ∷ []) }
        ensures err { OnErr result (self.new ≡ self.old) }
    {
        let number = CLASS_COUNT + self.caches.len() as u32;
        self.caches.reserve(1)?;
        self.numbers.insert(name, number)?;
        self.caches.push(def).unwrap();
        Ok(())
    }

    /// The caches. It takes no memory.
    pub(crate) fn into_vec(self) -> Vec<CacheDef>
        ensures { result.items ≡ self.entry }
    {
        self.caches
    }
}
