ghost use Rattle.std.specs.Prelude.{◌≡◌, ◌++◌, IfOk, OnOk, decimal};
ghost use Rattle.std.specs.List.{flat_map};
ghost use Rattle.script.specs.OpWords.{op_words};
ghost use Rattle.script.specs.PlanText.{HasCache, spaced};
ghost use Rattle.plain_heap.specs.Setting.{IsCache, def_of};
ghost use Rattle.plain_heap.specs.Texts.{HasItsCache, HaveTheirCaches, report_text, reply_text, body_text, entry_text, counts_text, slab_text, guards_end, first_line, head_text, last_line, transcript_text};

use crate::entry::{Body, Entry};
use crate::history::History;
use crate::reply::{Reply, Report};
use case_table::{CLASS_COUNT, CacheDef, put_class_name};
use script::{Header, put_caches, put_op};
use std::alloc::Global;
use umem_base::{NoMemory, Text, put_decimal, put_hex};

impl Entry {
    /// The entry's line, with its end.
    pub fn text(&self, alloc: Global, header: &Header) -> Result<Text, NoMemory>
        requires { HasItsCache header.now.caches self.now.body }
        ensures { IfOk result (λ text. text ≡ entry_text header.now.caches self.now) }
    {
        let mut out = Text::new(alloc);
        put_entry(&mut out, header.caches.as_slice(), self)?;
        Ok(out)
    }
}

/// The whole text of a history: a first line, a line for each declared cache, one for each entry, and a last line.
pub fn transcript(
    alloc: Global,
    header: &Header,
    guards: bool,
    history: &History,
) -> Result<Text, NoMemory>
    requires { HaveTheirCaches header.now.caches history.now.items }
    ensures { IfOk result (λ text. text ≡ transcript_text header.now guards history.now.items) }
{
    let mut out = Text::new(alloc);
    put_head(&mut out, header, guards)?;
    put_entries(&mut out, header.caches.as_slice(), history.as_slice())?;
    put_last_line(&mut out, history.as_slice())?;
    Ok(out)
}

fn put_head(out: &mut Text, header: &Header, guards: bool) -> Result<(), NoMemory>
    ensures { OnOk result (out.new ≡ out.old ++ head_text header.now guards) }
{
    put_first_line(out, header, guards)?;
    put_caches(out, header.caches.as_slice())
}

fn put_first_line(out: &mut Text, header: &Header, guards: bool) -> Result<(), NoMemory>
    ensures { OnOk result (out.new ≡ out.old ++ first_line header.now guards) }
{
    put_counts(out, header)?;
    put_guards(out, guards)?;
    Ok(())
}

fn put_counts(out: &mut Text, header: &Header) -> Result<(), NoMemory>
    ensures { OnOk result (out.new ≡ out.old ++ counts_text header.now) }
{
    out.push_slice(b"transcript ")?;
    put_number(out, header.version)?;
    out.push_slice(b" cpus ")?;
    put_number(out, header.cpus)?;
    out.push_slice(b" threads ")?;
    put_number(out, header.threads)?;
    Ok(())
}

fn put_last_line(out: &mut Text, entries: &[Entry]) -> Result<(), NoMemory>
    ensures { OnOk result (out.new ≡ out.old ++ last_line entries.now) }
{
    out.push_slice(b"end ")?;
    put_decimal(out, entries.len() as u64, 0)?;
    out.push_slice(b"\n")?;
    Ok(())
}

fn put_guards(out: &mut Text, guards: bool) -> Result<(), NoMemory>
    ensures { OnOk result (out.new ≡ out.old ++ guards_end guards) }
{
    out.push_slice(b" guards ")?;
    out.push_slice(if guards {
        b"on".as_slice()
    } else {
        b"off".as_slice()
    })?;
    out.push_slice(b"\n")?;
    Ok(())
}

fn put_entries(out: &mut Text, caches: &[CacheDef], entries: &[Entry]) -> Result<(), NoMemory>
    requires { HaveTheirCaches caches.now entries.now }
    ensures { OnOk result (out.new ≡ out.old ++ flat_map (entry_text caches.now) entries.now) }
{
    for entry in entries {
        put_entry(out, caches, entry)?;
    }
    Ok(())
}

fn put_entry(out: &mut Text, caches: &[CacheDef], entry: &Entry) -> Result<(), NoMemory>
    requires { HasItsCache caches.now entry.now.body }
    ensures { OnOk result (out.new ≡ out.old ++ entry_text caches.now entry.now) }
{
    put_number(out, entry.number)?;
    out.push_slice(b" ")?;
    put_number(out, entry.thread)?;
    out.push_slice(b" ")?;
    put_body(out, caches, &entry.body)?;
    out.push_slice(b"\n")?;
    Ok(())
}

fn put_body(out: &mut Text, caches: &[CacheDef], body: &Body) -> Result<(), NoMemory>
    requires { HasItsCache caches.now body.now }
    ensures { OnOk result (out.new ≡ out.old ++ body_text caches.now body.now) }
{
    match body {
        Body::Call { op, reply, .. } => {
            put_op(out, caches, op)?;
            out.push_slice(b" -> ")?;
            put_reply(out, reply)?;
            Ok(())
        }
        Body::Grow { cache, base } => put_slab(out, b"grow", caches, *cache, *base),
        Body::Shrink { cache, base } => put_slab(out, b"shrink", caches, *cache, *base),
    }
}

fn put_slab(
    out: &mut Text,
    word: &[u8],
    caches: &[CacheDef],
    cache: u32,
    base: u64,
) -> Result<(), NoMemory>
    requires { IsCache caches.now cache }
    ensures { OnOk result (out.new ≡ out.old ++ slab_text word.now caches.now cache base) }
{
    out.push_slice(word)?;
    out.push_slice(b" ")?;
    put_cache_name(out, caches, cache)?;
    out.push_slice(b" ")?;
    put_hex(out, base, 0)?;
    out.push_slice(b" -> ok")?;
    Ok(())
}

fn put_cache_name(out: &mut Text, caches: &[CacheDef], cache: u32) -> Result<(), NoMemory>
    requires { IsCache caches.now cache }
    ensures { OnOk result (out.new ≡ out.old ++ (def_of caches.now cache).name) }
{
    if cache < CLASS_COUNT {
        put_class_name(out, cache)
    } else {
        let def = &caches[(cache - CLASS_COUNT) as usize];
        out.push_slice(def.name.as_slice())
    }
}

fn put_reply(out: &mut Text, reply: &Reply) -> Result<(), NoMemory>
    ensures { OnOk result (out.new ≡ out.old ++ reply_text reply.now) }
{
    match reply {
        Reply::Ok => out.push_slice(b"ok"),
        Reply::Null => out.push_slice(b"null"),
        Reply::NoSpace => out.push_slice(b"nospace"),
        Reply::At { address, report } => {
            out.push_slice(b"ok ")?;
            put_hex(out, *address, 0)?;
            put_report(out, report)
        }
        Reply::Dup => out.push_slice(b"dup"),
        Reply::BadAddr => out.push_slice(b"badaddr"),
        Reply::BadCache => out.push_slice(b"badcache"),
        Reply::BadSize => out.push_slice(b"badsize"),
        Reply::Redzone => out.push_slice(b"redzone"),
        Reply::Fault => out.push_slice(b"fault"),
        Reply::Word(value) => {
            out.push_slice(b"word ")?;
            put_hex(out, *value, 0)
        }
    }
}

fn put_report(out: &mut Text, report: &Report) -> Result<(), NoMemory>
    ensures { OnOk result (out.new ≡ out.old ++ report_text report.now) }
{
    match report {
        Report::Clean => Ok(()),
        Report::Modified(offset) => {
            out.push_slice(b" modified ")?;
            put_number(out, *offset)
        }
        Report::Redzone => out.push_slice(b" redzone"),
    }
}

fn put_number(out: &mut Text, number: u32) -> Result<(), NoMemory>
    ensures { OnOk result (out.new ≡ out.old ++ decimal number) }
{
    put_decimal(out, u64::from(number), 0)
}
