use super::*;
use bitflags::Flags;
use std::process::Abort;

const K: u64 = 1024;

fn debug(rt: &impl Abort, text: &[u8], bits: u8, frames: u32, contents: u32) {
    let options = read_debug(text);
    assert_eq!(rt; options.flags.bits(), bits, "{text:?}");
    assert_eq!(rt; options.frames, frames, "{text:?}");
    assert_eq!(rt; options.contents, contents, "{text:?}");
}

#[test]
fn debug_texts(rt: HostRuntime) {
    debug(&rt, b"", 0, 15, 256);
    debug(&rt, b"audit=x,foo", 5, 15, 256);
    debug(&rt, b"audit=33,contents=4097", 7, 32, 4096);
    debug(&rt, b"default", 7, 15, 256);
    debug(&rt, b"default=1", 0, 15, 256);
    debug(&rt, b"guards=1", 0, 15, 256);
    debug(&rt, b"guards", 4, 15, 256);
    debug(&rt, b"audit", 5, 15, 256);
    debug(&rt, b"audit=", 5, 15, 256);
    debug(&rt, b"audit=0", 5, 0, 256);
    debug(&rt, b"audit=0032", 5, 32, 256);
    debug(&rt, b"AUDIT", 0, 15, 256);
    debug(&rt, b" guards", 0, 15, 256);
    debug(&rt, b",,", 0, 15, 256);
    debug(&rt, b"audit=99999999999999999999", 5, 32, 256);
    debug(&rt, b"contents=99999999999999999999x", 2, 15, 256);
    debug(&rt, b"audit=3,default", 7, 15, 256);
    debug(&rt, b"default,audit=3", 7, 3, 256);
    debug(&rt, b"audit=3,audit=x", 5, 15, 256);
    debug(&rt, b"contents=9,contents=7,guards", 6, 15, 7);
}

fn logging(rt: &impl Abort, text: &[u8], transaction: u64, contents: u64, fail: u64) {
    let logging = read_logging(text);
    assert_eq!(rt; logging.transaction, transaction, "{text:?}");
    assert_eq!(rt; logging.contents, contents, "{text:?}");
    assert_eq!(rt; logging.fail, fail, "{text:?}");
}

#[test]
fn logging_texts(rt: HostRuntime) {
    logging(&rt, b"", 0, 0, 0);
    logging(&rt, b"transaction=0,contents=1Q", 0, 0, 0);
    logging(&rt, b"transaction=65537k,fail=64M", 0, 0, 65536 * K);
    logging(&rt, b"transaction,contents,fail", 64 * K, 64 * K, 64 * K);
    logging(&rt, b"fail=1k", 0, 0, K);
    logging(&rt, b"fail=1kk", 0, 0, 0);
    logging(&rt, b"fail=k", 0, 0, 0);
    logging(&rt, b"fail=", 0, 0, 0);
    logging(&rt, b"FAIL=1k", 0, 0, 0);
    logging(&rt, b"transaction=64M", 65536 * K, 0, 0);
    logging(&rt, b"transaction=67108864", 65536 * K, 0, 0);
    logging(&rt, b"transaction=67108865", 0, 0, 0);
    logging(&rt, b"transaction=0t,fail=1g", 0, 0, 0);
    logging(&rt, b"fail=99999999999999999999", 0, 0, 0);
    logging(&rt, b"fail=18014398509481985K", 0, 0, 0);
    logging(&rt, b"fail=1k,fail", 0, 0, 64 * K);
    logging(&rt, b"fail,fail=1m", 0, 0, K * K);
    logging(&rt, b"contents=3,contents=x", 0, 0, 0);
}

fn records(
    rt: &impl Abort,
    debug: &[u8],
    logging: &[u8],
    transactions: u32,
    contents: u32,
    fails: u32,
) {
    let logging = read_logging(logging);
    let options = read_debug(debug);
    assert_eq!(rt; transaction_records(&logging, &options), transactions);
    assert_eq!(rt; contents_records(&logging, &options), contents);
    assert_eq!(rt; fail_records(&logging), fails);
}

#[test]
fn capacities(rt: HostRuntime) {
    records(&rt, b"default", b"transaction", 356, 0, 0);
    records(&rt, b"guards", b"transaction", 0, 0, 0);
    records(&rt, b"guards", b"fail", 0, 0, 2730);
    records(&rt, b"audit=x,foo", b"transaction=0,contents=1Q", 0, 0, 0);
    records(
        &rt,
        b"audit=33,contents=4097",
        b"transaction=65537k,fail=64M",
        0,
        0,
        2_796_202,
    );
    records(&rt, b"audit=0", b"transaction=64M", 1_048_576, 0, 0);
    // Of each freed buffer 256 bytes are kept, or as many as the option says.
    records(&rt, b"default", b"contents=1k", 0, 3, 0);
    records(&rt, b"audit", b"contents=1k", 0, 3, 0);
    records(&rt, b"audit,contents=0", b"contents=1k", 0, 42, 0);
    records(&rt, b"audit,contents=4096", b"contents=64m", 0, 16_288, 0);
    records(&rt, b"audit,contents=0", b"contents=64m", 0, 2_796_202, 0);
    records(&rt, b"contents,guards", b"contents=1k", 0, 0, 0);
}
