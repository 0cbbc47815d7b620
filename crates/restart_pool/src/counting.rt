//! Which records and bases count.
ghost use Rattle.std.specs.Prelude.{◌≡◌, ◌&&◌, ◌==◌, ◌^◌, nat_lt, nat_le, length, map, None, IfOk, IfSome, IsTrue, bytes_eq};
ghost use Rattle.std.specs.List.{list_all};
ghost use Rattle.salus_types.specs.Volume.{regions, region_blocks};
ghost use Rattle.merkle_region.specs.Tree.{root_of};
ghost use Rattle.client_tag.specs.Ranges.{IsRecord};
ghost use Rattle.holding_model.specs.Fitting.{ascends_from, has_shape, record_fits, writes_fit};
ghost use Rattle.volume_model.specs.Recovering.{base_counts, header_fits, record_counts};
ghost use Rattle.restart_pool.specs.Kept.{HasRoot};

use client_tag::is_genuine;
use merkle_region::root;
use salus_hash::HmacKey;
use salus_types::{Base, Bytes, Geometry, Header, NoMemory, PlaceWrite, Record, same_blocks};
use std::alloc::Global;

/// The greatest number that a record may have.
const MOST: u64 = 1 << 63;

fn all_below(regions: &[u16], count: u32) -> bool
    ensures { result ≡ list_all (λ g. nat_lt g count) regions.now }
{
    regions.iter().all(|g| u32::from(*g) < count)
}

fn all_small(numbers: &[u64]) -> bool
    ensures { result ≡ list_all (λ f. nat_le f (2 ^ 63)) numbers.now }
{
    numbers.iter().all(|f| *f <= MOST)
}

#[tactic(auto, unfolding(volume_model::specs::Recovering::header_fits))]
fn header_fits(geometry: &Geometry, header: &Header) -> bool
    ensures { result ≡ header_fits geometry.now header.now }
{
    let count = geometry.regions();
    u32::from(header.region) < count
        && all_below(header.touched.as_slice(), count)
        && u32::from(header.leader_before) < count
        && header.fronts.len() == count as usize
        && all_small(header.fronts.as_slice())
        && header.seq <= MOST
}

/// Whether the places ascend.
fn ascends(writes: &[PlaceWrite]) -> bool
    ensures { result ≡ ascends_from 0 (map (λ w. w.place) writes.now) }
{
    let mut low = 0;
    'writes: for write in writes {
        let place = u32::from(write.place);
        if place < low {
            return false;
        }
        low = place + 1;
    }
    true
}

fn each_fits(writes: &[PlaceWrite], places: u32, size: u32) -> bool
    ensures { result ≡ list_all (λ w. nat_lt w.place places && (length w.bytes == size)) writes.now }
{
    writes.iter().all(|w| u32::from(w.place) < places && w.bytes.len() == size as usize)
}

#[tactic(auto, unfolding(holding_model::specs::Fitting::record_fits))]
fn record_fits(geometry: &Geometry, rec: &Record) -> bool
    requires { rec.now.run ≡ None }
    ensures { result ≡ record_fits geometry.now rec.now }
{
    let writes = rec.writes.as_slice();
    ascends(writes) && each_fits(writes, geometry.region_blocks(), geometry.block_size())
}

fn each_sized(blocks: &[Bytes], size: u32) -> bool
    ensures { result ≡ list_all (λ x. length x == size) blocks.now }
{
    blocks.iter().all(|block| block.len() == size as usize)
}

#[tactic(auto, unfolding(holding_model::specs::Fitting::has_shape))]
fn has_shape(geometry: &Geometry, blocks: &[Bytes]) -> bool
    ensures { result ≡ has_shape geometry.now blocks.now }
{
    blocks.len() == geometry.region_blocks() as usize && each_sized(blocks, geometry.block_size())
}

/// Whether the record counts: it is genuine, and its numbers and its content fit the volume.
pub fn record_counts(
    alloc: Global,
    geometry: &Geometry,
    key: &HmacKey,
    rec: &Record,
) -> Result<bool, NoMemory>
    requires { IsRecord rec.now }
    ensures { IfOk result (λ yes. yes ≡ record_counts geometry.now key.now rec.now) }
{
    if !header_fits(geometry, &rec.header) || !record_fits(geometry, rec) {
        return Ok(false);
    }
    is_genuine(alloc, key, rec)
}

/// Whether the base has a block for each place, and its record's root: its blocks are hashed.
fn has_root(geometry: &Geometry, base: &Base) -> bool
    ensures { result ≡ has_shape geometry.now base.now.blocks && bytes_eq (root_of geometry.now.height base.now.blocks) base.now.rec.header.root }
{
    let blocks = base.blocks.as_slice();
    has_shape(geometry, blocks) && root(geometry.height(), blocks) == base.rec.header.root
}

/// Whether the base has the blocks of the other one, and its record names the same root.
fn is_like(base: &Base, other: &Base) -> bool
    ensures { IsTrue result → (base.now.blocks ≡ other.now.blocks) × (base.now.rec.header.root ≡ other.now.rec.header.root) }
{
    base.rec.header.root == other.rec.header.root && same_blocks(&base.blocks, &other.blocks)
}

/// Whether the base has a block for each place, and its record's root. Blocks that equal those of a base that has it aren't
/// hashed again.
fn has_root_by(geometry: &Geometry, base: &Base, kept: Option<&Base>) -> bool
    requires { IfSome kept (λ other. HasRoot geometry.now other.now) }
    ensures { result ≡ has_shape geometry.now base.now.blocks && bytes_eq (root_of geometry.now.height base.now.blocks) base.now.rec.header.root }
{
    match kept {
        Some(other) => is_like(base, other) || has_root(geometry, base),
        None => has_root(geometry, base),
    }
}

/// Whether the base counts: its record does, and its blocks have that record's root. Blocks that equal those of a base that
/// has it aren't hashed again.
pub fn base_counts(
    alloc: Global,
    geometry: &Geometry,
    key: &HmacKey,
    base: &Base,
    kept: Option<&Base>,
) -> Result<bool, NoMemory>
    requires record { IsRecord base.now.rec }
    requires kept { IfSome kept (λ other. HasRoot geometry.now other.now) }
    ensures { IfOk result (λ yes. yes ≡ base_counts geometry.now key.now base.now) }
{
    if !record_counts(alloc, geometry, key, &base.rec)? {
        return Ok(false);
    }
    Ok(has_root_by(geometry, base, kept))
}
