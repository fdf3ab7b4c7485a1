ghost use Rattle.std.specs.Prelude.{◌≡◌};
ghost use Rattle.umem_base.specs.Lines.{words_of};
ghost use Rattle.dcmd.specs.CommandNames.{name_among, plain_names, walk_names};
ghost use Rattle.dcmd.specs.CommandParts.{ReadsName, SplitsParts};
ghost use Rattle.dcmd.specs.Commands.{address_in, alone, command_at, command_of, digits_of, ended, first_named, named, users_at, users_in, whatis_at};
ghost use Rattle.dcmd.specs.declared.fault.DcmdFault.TheVariants.{UnknownWalker};

use crate::dcmd::Dcmd;
use crate::fault::DcmdFault;
use crate::name::Name;
use umem_base::{read_hex, split_word};

/// The command that a line is, or the first fault that it has, in the order of `DcmdFault`. It takes no memory.
pub fn read_dcmd(line: &[u8]) -> Result<Dcmd, DcmdFault>
    ensures { result ≡ command_of line.now }
{
    let Some((before, behind)) = split_parts(line) else {
        return Err(DcmdFault::Unknown);
    };
    let (name, rest) = read_name(behind)?;
    let address = read_address(before)?;
    command_at(name, address, rest)
}

// What stands before and behind the first two colons.
fn split_parts(line: &[u8]) -> Option<(&[u8], &[u8])>
    ensures { SplitsParts result line.now }
{
    for place in 0..line.len() {
        if line[place..].starts_with(b"::") {
            return Some((&line[..place], &line[place + 2..]));
        }
    }
    None
}

fn read_name(behind: &[u8]) -> Result<(Name, &[u8]), DcmdFault>
    ensures { ReadsName result (named (words_of behind.now)) }
{
    let Some((word, rest)) = split_word(behind) else {
        return Err(DcmdFault::Unknown);
    };
    if word == b"walk".as_slice() {
        return read_walk(rest);
    }
    match plain_name(word) {
        Some(name) => Ok((name, rest)),
        None => Err(DcmdFault::Unknown),
    }
}

fn read_walk(behind: &[u8]) -> Result<(Name, &[u8]), DcmdFault>
    ensures { ReadsName result (first_named walk_names UnknownWalker (words_of behind.now)) }
{
    let Some((word, rest)) = split_word(behind) else {
        return Err(DcmdFault::UnknownWalker);
    };
    match walk_name(word) {
        Some(name) => Ok((name, rest)),
        None => Err(DcmdFault::UnknownWalker),
    }
}

fn plain_name(word: &[u8]) -> Option<Name>
    ensures { result ≡ name_among plain_names word.now }
{
    if word == b"umem_cache".as_slice() {
        return Some(Name::UmemCache);
    }
    if word == b"umem_verify".as_slice() {
        return Some(Name::UmemVerify);
    }
    if word == b"umem_log".as_slice() {
        return Some(Name::UmemLog);
    }
    if word == b"umem_contents".as_slice() {
        return Some(Name::UmemContents);
    }
    if word == b"umausers".as_slice() {
        return Some(Name::Umausers);
    }
    if word == b"whatis".as_slice() {
        return Some(Name::Whatis);
    }
    if word == b"findleaks".as_slice() {
        return Some(Name::Findleaks);
    }
    None
}

fn walk_name(word: &[u8]) -> Option<Name>
    ensures { result ≡ name_among walk_names word.now }
{
    if word == b"umem".as_slice() {
        return Some(Name::WalkUmem);
    }
    if word == b"freemem".as_slice() {
        return Some(Name::WalkFreemem);
    }
    None
}

// The address before the colons, if anything stands there.
fn read_address(before: &[u8]) -> Result<Option<u64>, DcmdFault>
    ensures { result ≡ address_in (words_of before.now) }
{
    let Some((word, rest)) = split_word(before) else {
        return Ok(None);
    };
    if split_word(rest).is_some() {
        return Err(DcmdFault::BadNumber);
    }
    match read_hex(digits_of(word)) {
        Ok(address) => Ok(Some(address)),
        Err(_) => Err(DcmdFault::BadNumber),
    }
}

fn digits_of(word: &[u8]) -> &[u8]
    ensures { result.now ≡ digits_of word.now }
{
    if word.starts_with(b"0x") {
        return &word[2..];
    }
    word
}

fn command_at(name: Name, address: Option<u64>, rest: &[u8]) -> Result<Dcmd, DcmdFault>
    ensures { result ≡ command_at name address (words_of rest.now) }
{
    match name {
        Name::UmemCache => alone(Dcmd::UmemCache, address, rest),
        Name::UmemVerify => alone(Dcmd::UmemVerify, address, rest),
        Name::UmemLog => alone(Dcmd::UmemLog, address, rest),
        Name::UmemContents => alone(Dcmd::UmemContents, address, rest),
        Name::Umausers => users_at(address, rest),
        Name::Whatis => whatis_at(address, rest),
        Name::Findleaks => alone(Dcmd::Findleaks, address, rest),
        Name::WalkUmem => ended(Dcmd::WalkUmem { cache: address }, rest),
        Name::WalkFreemem => ended(Dcmd::WalkFreemem { cache: address }, rest),
    }
}

fn ended(dcmd: Dcmd, rest: &[u8]) -> Result<Dcmd, DcmdFault>
    ensures { result ≡ ended dcmd (words_of rest.now) }
{
    match split_word(rest) {
        None => Ok(dcmd),
        Some(_) => Err(DcmdFault::ExtraWords),
    }
}

fn alone(dcmd: Dcmd, address: Option<u64>, rest: &[u8]) -> Result<Dcmd, DcmdFault>
    ensures { result ≡ alone dcmd address (words_of rest.now) }
{
    match address {
        None => ended(dcmd, rest),
        Some(_) => Err(DcmdFault::TakesNoAddress),
    }
}

fn users_at(address: Option<u64>, rest: &[u8]) -> Result<Dcmd, DcmdFault>
    ensures { result ≡ users_at address (words_of rest.now) }
{
    match address {
        None => users_in(rest),
        Some(_) => Err(DcmdFault::TakesNoAddress),
    }
}

fn users_in(rest: &[u8]) -> Result<Dcmd, DcmdFault>
    ensures { result ≡ users_in (words_of rest.now) }
{
    let Some((word, rest)) = split_word(rest) else {
        return Ok(Dcmd::Umausers { every: false });
    };
    if word == b"-e".as_slice() {
        return ended(Dcmd::Umausers { every: true }, rest);
    }
    Err(DcmdFault::ExtraWords)
}

fn whatis_at(address: Option<u64>, rest: &[u8]) -> Result<Dcmd, DcmdFault>
    ensures { result ≡ whatis_at address (words_of rest.now) }
{
    match address {
        None => Err(DcmdFault::NeedsAddress),
        Some(address) => ended(Dcmd::Whatis { address }, rest),
    }
}
