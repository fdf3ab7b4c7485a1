use super::*;
use std::alloc::Global;
use std::process::Abort;
use std::test::Fail;
use umem_base::Text;

/// A job with whether its options have guards, and the size of its fail log.
#[derive(Clone, Copy, PartialEq, Eq, Debug)]
enum Asked<'a> {
    Run(&'a [u8], Option<&'a [u8]>, bool, u64),
    Mdb(&'a [u8]),
    Make(u64, u32, bool, u64),
}

fn numbers_of(job: &Job) -> Asked<'_> {
    match job {
        Job::Run(job) => Asked::Run(
            job.script.as_slice(),
            job.core.as_ref().map(|core: &Text| core.as_slice()),
            job.options.has_guards(),
            job.logging.fail,
        ),
        Job::Mdb(job) => Asked::Mdb(job.core.as_slice()),
        Job::Make(job) => Asked::Make(
            job.seed,
            job.ops,
            job.options.has_guards(),
            job.logging.fail,
        ),
    }
}

/// The words of a line: one space stands between two.
fn words_of(alloc: Global, line: &str) -> Result<Vec<String>, Fail> {
    let mut words = Vec::new(alloc);
    for word in line.split(' ') {
        words.push(String::from_str(alloc, word)?)?;
    }
    Ok(words)
}

fn ask(
    rt: &impl Abort,
    alloc: Global,
    line: &str,
    wanted: Option<Asked<'static>>,
) -> Result<(), Fail> {
    let words = words_of(alloc, line)?;
    let job = read_words(alloc, &words)?;
    assert_eq!(rt;
        job.as_ref().map(|job: &Job| numbers_of(job)),
        wanted,
        "{line}"
    );
    Ok(())
}

fn ask_run(
    rt: &impl Abort,
    alloc: Global,
    line: &str,
    script: &'static [u8],
    core: Option<&'static [u8]>,
) -> Result<(), Fail> {
    ask(rt, alloc, line, Some(Asked::Run(script, core, false, 0)))
}

#[test]
fn runs(rt: HostRuntime) -> Result<(), Fail> {
    let alloc = rt.alloc();
    for (line, script, core) in [
        ("run a", b"a".as_slice(), None),
        ("run a --core c", b"a", Some(b"c".as_slice())),
        ("--core c run a", b"a", Some(b"c")),
        ("run --core=c a", b"a", Some(b"c")),
        ("run a --core=", b"a", Some(b"")),
        ("run a --core ", b"a", Some(b"")),
        ("run a --core=b=c", b"a", Some(b"b=c")),
        ("run a --core -", b"a", Some(b"-")),
        ("run a --core=-x", b"a", Some(b"-x")),
        ("run a --debug x --logging=", b"a", None),
        ("-- run a", b"a", None),
        ("run -- --core", b"--core", None),
        ("run --core c -- --core", b"--core", Some(b"c")),
        ("run -- --", b"--", None),
        ("run a --", b"a", None),
        ("run -", b"-", None),
        ("run ", b"", None),
        ("run help", b"help", None),
    ] {
        ask_run(&rt, alloc, line, script, core)?;
    }
    Ok(())
}

#[test]
fn other_jobs(rt: HostRuntime) -> Result<(), Fail> {
    let alloc = rt.alloc();
    for (line, job) in [
        (
            "run a --debug guards --logging fail=1k",
            Asked::Run(b"a".as_slice(), None, true, 1024),
        ),
        ("mdb c", Asked::Mdb(b"c")),
        ("mdb -- -c", Asked::Mdb(b"-c")),
        ("make --seed 0 --ops 1", Asked::Make(0, 1, false, 0)),
        (
            "--logging=fail make --ops=0 --debug default --seed=7",
            Asked::Make(7, 0, true, 65_536),
        ),
        (
            "make --seed 18446744073709551615 --ops 65536",
            Asked::Make(u64::MAX, 65_536, false, 0),
        ),
    ] {
        ask(&rt, alloc, line, Some(job))?;
    }
    Ok(())
}

#[test]
fn no_commands(rt: HostRuntime) -> Result<(), Fail> {
    let alloc = rt.alloc();
    for line in [
        "",
        " a",
        "run",
        "RUN a",
        "ru a",
        "run a b",
        "run -- a --core",
        "run a --core",
        "run a --core --",
        "run a --core -x",
        "run a --core c --core d",
        "run a --debug x --debug=x",
        "run a --co c",
        "run a -core c",
        "run a --=c",
        "run a --order o",
        "run a --seed 1",
        "run a --ops 1",
        "mdb",
        "mdb c --core c",
        "mdb c --debug ",
        "mdb c --logging ",
        "mdb c --seed 1",
        "mdb c --ops 1",
    ] {
        ask(&rt, alloc, line, None)?;
    }
    Ok(())
}

#[test]
fn no_scripts_are_made(rt: HostRuntime) -> Result<(), Fail> {
    let alloc = rt.alloc();
    for line in [
        "make",
        "make --seed 1",
        "make --ops 1",
        "make a --seed 1 --ops 1",
        "make --seed 1 --ops 1 --core c",
        "make --seed 1 --ops 65537",
        "make --seed 18446744073709551616 --ops 1",
        "make --seed 00 --ops 1",
        "make --seed 1 --ops 01",
        "make --seed +1 --ops 1",
        "make --seed -1 --ops 1",
        "make --seed 1x --ops 1",
        "make --seed= --ops 1",
        "make --seed 1 --ops ",
    ] {
        ask(&rt, alloc, line, None)?;
    }
    Ok(())
}

#[test]
fn no_help(rt: HostRuntime) -> Result<(), Fail> {
    let alloc = rt.alloc();
    for line in [
        "help",
        "help run",
        "--help",
        "-h",
        "run a --help",
        "run -h a",
        "--version",
        "-V",
        "mdb c -V",
        "mdb --version c",
    ] {
        ask(&rt, alloc, line, None)?;
    }
    Ok(())
}

#[test]
fn no_words(rt: HostRuntime) -> Result<(), Fail> {
    let alloc = rt.alloc();
    let words: Vec<String> = Vec::new(alloc);
    assert!(rt; read_words(alloc, &words)?.is_none());
    Ok(())
}
