use super::*;
use std::test::Fail;
use umem_base::Text;

#[test]
fn prints_the_line_behind_what_stands(rt: HostRuntime) -> Result<(), Fail> {
    let mut out = Text::from_slice(rt.alloc(), b"phase\n")?;
    let summary = Summary {
        allocs: 12,
        frees: 9,
        live: 3,
        bytes: 18_446_744_073_709_551_615,
        grows: 0,
    };
    put_summary(&mut out, &summary)?;
    assert_eq!(rt;
        out.as_slice(),
        b"phase\n# summary allocs 12 frees 9 live 3 bytes 18446744073709551615 grows 0\n".as_slice()
    );
    Ok(())
}
