ghost use Rattle.std.specs.Prelude.{◌≡◌, ◌<◌, [], IfOk};
ghost use Rattle.core_format.specs.Header.{HasFewCaches};
ghost use Rattle.core_format.specs.Cores.{MeetsTheRules, core_of, core_of_parts, front_at, middle_at, records_in};
ghost use Rattle.core_format.specs.Caches.{shapes_of};
ghost use Rattle.core_format.specs.Sections.{ReadsItem};
ghost use Rattle.core_format.specs.Reader.{ReadsAs};

use crate::cache_shape::CacheShape;
use crate::core_fault::CoreFault;
use crate::fault::Fault;
use crate::header::{Header, SecondHeader};
use crate::items::{CpuPlace, DepotItem, LargeItem, SlabItem};
use crate::parts::{Front, Middle, Records};
use crate::read_caches::caches;
use crate::read_header::headers;
use crate::read_large::large_buffers;
use crate::read_logs::{audits, fails, saved_items, transactions};
use crate::read_magazines::{cpu_places, depots};
use crate::read_pages::pages;
use crate::read_segments::{own_roots, segment};
use crate::read_slabs::slabs;
use crate::reader::{Reader, rule};
use crate::slab_table::SlabTable;
use crate::whole::Core;
use bitflags::Flags;
use std::alloc::Global;
use umem_base::Sequence;
use umem_options::DebugFlags;

#[tactic(auto, unfolding(crate::specs::Cores::front_at))]
fn front(alloc: Global, reader: &mut Reader) -> Result<(Front, Vec<CacheShape>), CoreFault>
    ensures read { ReadsAs (λ front. (front.0, reader.new)) result (front_at reader.old) }
    ensures shapes { IfOk result (λ front. front.1.items ≡ shapes_of front.0.header front.0.caches) }
    ensures few { IfOk result (λ front. HasFewCaches front.0.header) }
{
    let (header, second) = headers(reader)?;
    let root = segment(alloc, reader)?;
    let own = own_roots(alloc, reader, second.threads)?;
    let (caches, shapes) = caches(alloc, reader, &header)?;
    let front = Front {
        header,
        second,
        root: Sequence::new(root),
        own: Sequence::new(own),
        caches: Sequence::new(caches),
    };
    Ok((front, shapes))
}

#[tactic(auto, unfolding(crate::specs::Cores::middle_at))]
fn middle(
    alloc: Global,
    reader: &mut Reader,
    header: &Header,
    shapes: Vec<CacheShape>,
) -> Result<Middle, CoreFault>
    requires { HasFewCaches header.now }
    ensures { ReadsItem result reader.new (middle_at header.now shapes.items reader.old) }
{
    let table = slabs(alloc, reader, header, shapes)?;
    let large = large_buffers(alloc, reader, header, &table)?;
    let count = header.cpus * header.caches;
    let (cpu_places, seen) = cpu_places(alloc, reader, &table, count, header.caches)?;
    let depots = depots(alloc, reader, &table, seen, header.caches)?;
    Ok(Middle {
        table,
        large: Sequence::new(large),
        cpu_places: Sequence::new(cpu_places),
        depots: Sequence::new(depots),
    })
}

#[tactic(auto, unfolding(crate::specs::Cores::records_at))]
fn records(
    alloc: Global,
    reader: &mut Reader,
    header: &Header,
    second: &SecondHeader,
    table: &SlabTable,
) -> Result<Records, CoreFault>
    ensures { ReadsItem result reader.new (records_in header.now second.now table.now reader.old) }
{
    let audits = audits(alloc, reader, header, table)?;
    let trans = transactions(alloc, reader, header)?;
    let fails = fails(alloc, reader, header)?;
    let saved = saved_items(alloc, reader, header, second.saved)?;
    Ok(Records {
        audits: Sequence::new(audits),
        trans: Sequence::new(trans),
        fails: Sequence::new(fails),
        saved: Sequence::new(saved),
    })
}

fn flags_of(header: &Header) -> DebugFlags
    requires { header.now.flags < 256 }
    ensures { result ≡ record { 0 = header.now.flags } }
{
    DebugFlags::from_bits_retain(header.flags as u8)
}

/// The core that the sections tell.
fn core_of_parts(
    front: Front,
    large: Sequence<LargeItem>,
    slabs: Sequence<SlabItem>,
    cpu_places: Sequence<CpuPlace>,
    depots: Sequence<DepotItem>,
    records: Records,
) -> Core
    requires { front.header.flags < 256 }
    ensures { result ≡ core_of_parts front cpu_places depots records slabs large }
{
    let header = front.header;
    Core {
        version: header.version,
        flags: flags_of(&header),
        frames: header.frames,
        contents: header.contents,
        cpus: header.cpus,
        trans_capacity: header.trans_capacity,
        fail_capacity: header.fail_capacity,
        contents_capacity: front.second.contents_capacity,
        next_chunk: header.next_chunk,
        entries: header.entries,
        root: front.root,
        own: front.own,
        caches: front.caches,
        slabs,
        large,
        cpu_places,
        depots,
        audits: records.audits,
        trans: records.trans,
        fails: records.fails,
        saved: records.saved,
    }
}

/// The core that the bytes are, or the first rule that they break, with the offset of the field that breaks
/// it. The format is this project's own.
#[tactic(auto, unfolding(crate::specs::Cores::core_of))]
pub fn read_core(alloc: Global, bytes: &[u8]) -> Result<Core, CoreFault>
    ensures read { ReadsAs (λ core. core) result (core_of bytes.now) }
    ensures meets { IfOk result (λ core. MeetsTheRules core) }
{
    let mut reader = Reader::new(bytes);
    let (front, shapes) = front(alloc, &mut reader)?;
    let middle = middle(alloc, &mut reader, &front.header, shapes)?;
    let Middle {
        table,
        large,
        cpu_places,
        depots,
    } = middle;
    let records = records(alloc, &mut reader, &front.header, &front.second, &table)?;
    let (shapes, slabs) = table.into_parts();
    let (slabs, large) = pages(alloc, &mut reader, &shapes, slabs, large.as_slice())?;
    rule(reader.left() == 0, reader.at(), Fault::TrailingBytes)?;
    let slabs = Sequence::new(slabs);
    let large = Sequence::new(large);
    Ok(core_of_parts(front, large, slabs, cpu_places, depots, records))
}
