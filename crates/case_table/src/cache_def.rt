ghost use Rattle.std.specs.Prelude.{◌≡◌, ◌<◌, IfOk};
ghost use Rattle.case_table.specs.CacheDef.{class_def};

use crate::cache_name::put_class_name;
use crate::limits::CLASS_COUNT;
use crate::size_classes::{CLASS_ALIGN, class_size};
use std::alloc::Global;
use umem_base::{NoMemory, Text};

/// A cache as it is declared: its name, the size of its buffers in bytes, what their addresses are
/// multiples of, and the byte that a constructor writes over a buffer, where there is one.
#[derive(Clone, Debug, Drop, PartialEq, Eq)]
pub struct CacheDef {
    pub name: Text,
    pub size: u32,
    pub align: u32,
    pub ctor: Option<u8>,
}

/// The cache of a size class.
pub fn class_def(alloc: Global, class: u32) -> Result<CacheDef, NoMemory>
    requires { class < CLASS_COUNT }
    ensures { IfOk result (λ def. def ≡ class_def class) }
{
    let mut name = Text::new(alloc);
    put_class_name(&mut name, class)?;
    Ok(CacheDef {
        name,
        size: class_size(class),
        align: CLASS_ALIGN,
        ctor: None,
    })
}
