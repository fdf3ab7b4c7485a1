/// What a command is called; a walk is called by its walker too.
#[derive(Clone, Copy)]
pub(crate) enum Name {
    UmemCache,
    UmemVerify,
    UmemLog,
    UmemContents,
    Umausers,
    Whatis,
    Findleaks,
    WalkUmem,
    WalkFreemem,
}
