use super::*;
use script::read_script;
use std::test::Fail as Failed;
use umem_options::{read_debug, read_logging};

const SCRIPT: &[u8] = b"umem 1 cpus 1 threads 2
phase
0 clear $1 @ 401000
1 copy $2 $3
phase
phase
1 clear $4
1 alloc $5 0
";

/// Before the first call the first call of each thread is due, and no other is.
#[test]
fn only_the_first_calls_are_due_at_the_start(rt: HostRuntime) -> Result<(), Failed> {
    let alloc = rt.alloc();
    let script = read_script(alloc, SCRIPT).ok().ok_or("a script")?;
    let options = read_debug(b"guards");
    let logging = read_logging(b"");
    let ledger = Ledger::start(alloc, &script, &options, &logging)?;
    assert!(rt; ledger.is_run(&script, &options, &logging));
    for (thread, call, is_due) in [
        (0, 0, true),
        (0, 1, false),
        (1, 0, true),
        (1, 1, false),
        (2, 0, false),
    ] {
        assert_eq!(rt; ledger.due(thread, call).is_some(), is_due);
        assert_eq!(rt; ledger.next(thread).is_some(), thread < 2);
        assert_eq!(rt; ledger.calls_made(thread), 0);
    }
    Ok(())
}
