//! The parts of a batch, one for each region that it touches.
ghost use Rattle.std.specs.Prelude.{◌≡◌, length, map, nat_lt, true, IfOk};
ghost use Rattle.salus_types.specs.Volume.{regions};
ghost use Rattle.std.specs.List.{list_all};
ghost use Rattle.volume_model.specs.Contents.{Batch as AnyBatch};
ghost use Rattle.client_window.specs.Written.{Leaves};
ghost use Rattle.client_window.specs.Parting.{header_for, part_for, parts_for, topped};
ghost use Rattle.client_window.specs.Untagged.{with_roots};

use crate::written::{LastWrites, writes_in};
use merkle_volume::Tops;
use salus_hash::Digest;
use salus_types::{Digests, Geometry, Header, NoMemory, Numbers, Record, TryClone};
use std::alloc::Global;

/// The header for one region, from the one that all parts of the batch share.
fn header_for(
    alloc: Global,
    shared: &Header,
    region: u16,
    previous: u64,
    root: Digest,
) -> Result<Header, NoMemory>
    ensures { IfOk result (λ header. header ≡ header_for shared.now region previous root) }
{
    let mut header = shared.try_clone(alloc)?;
    header.region = region;
    header.previous = previous;
    header.root = root;
    Ok(header)
}

/// The part for one region.
fn part_for(
    alloc: Global,
    geometry: &Geometry,
    last: &LastWrites<'_>,
    header: Header,
) -> Result<Record, NoMemory>
    ensures { IfOk result (λ part. (batch : AnyBatch) → Leaves batch last.now.entries → part ≡ part_for geometry.now batch header) }
{
    let writes = writes_in(alloc, geometry, last, header.region)?;
    Ok(Record {
        header,
        writes,
        run: None,
        tag: Digest::from_bytes([0; 32]),
    })
}

/// The parts for the regions that the batch touches, by region. The header that they share has the numbers after the
/// batch; `numbers` are those before it, and `roots` those of the touched regions after it.
pub fn parts_for(
    alloc: Global,
    geometry: &Geometry,
    last: &LastWrites<'_>,
    shared: &Header,
    numbers: &Numbers,
    roots: &Digests,
) -> Result<Vec<Record>, NoMemory>
    requires numbers { length numbers.now ≡ regions geometry.now }
    requires touched { list_all (λ g. nat_lt g (regions geometry.now)) shared.now.touched ≡ true }
    requires roots { length roots.now ≡ length shared.now.touched }
    ensures { IfOk result (λ parts. (batch : AnyBatch) → Leaves batch last.now.entries → parts.items ≡ parts_for geometry.now batch shared.now numbers.now shared.now.touched roots.now) }
{
    let touched = shared.touched.as_slice();
    let mut parts = Vec::with_capacity(alloc, touched.len())?;
    'regions: for (region, root) in touched.iter().zip(roots.as_slice()) {
        let previous = numbers.as_slice()[*region as usize];
        let header = header_for(alloc, shared, *region, previous, *root)?;
        parts.push(part_for(alloc, geometry, last, header)?)?;
    }
    Ok(parts)
}

/// Puts the new roots of the touched regions in their places.
pub fn put_roots(tops: &mut Tops, touched: &[u16], roots: &[Digest])
    requires touched { list_all (λ g. nat_lt g (length tops.old)) touched.now ≡ true }
    ensures { tops.new ≡ with_roots touched.now roots.now tops.old }
{
    'regions: for (region, root) in touched.iter().zip(roots) {
        tops.set_region(*region, root);
    }
}

/// Puts the top into each part.
pub fn put_top(parts: &mut [Record], top: Digest)
    ensures { parts.new ≡ map (topped top) parts.old }
{
    'parts: for part in parts.iter_mut() {
        part.header.top = top;
    }
}
