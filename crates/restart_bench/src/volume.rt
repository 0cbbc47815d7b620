//! A volume of 16 regions of 256 blocks of 256 bytes, and 16 batches that each write one block in each region.
ghost use Rattle.std.specs.Prelude.{◌≡◌, ◌<◌, IfOk};
ghost use Rattle.client_tag.specs.Ranges.{IsHeader, IsRecord};

use merkle_region::Tree;
use merkle_volume::top;
use salus_hash::Digest;
use salus_types::{Blocks, Header, Items, NoMemory, PlaceWrite, Record};
use std::alloc::Global;

/// How many batches there are.
pub const BATCHES: u32 = 16;

/// The bytes of a block, which differ from one place, region and batch to the next.
fn block_bytes(place: u16, region: u16, batch: u64) -> [u8; 256] {
    let mut bytes = [0; 256];
    bytes[0] = (place % 256) as u8;
    bytes[1] = (region % 256) as u8;
    bytes[2] = (batch % 256) as u8;
    bytes
}

/// The blocks of a region before the batches.
fn blocks(alloc: Global, region: u16) -> Result<Blocks, NoMemory> {
    let mut blocks = Items::new(alloc);
    for place in 0..256 {
        blocks.push(Items::from_slice(alloc, &block_bytes(place, region, 0))?)?;
    }
    Ok(blocks)
}

/// The trees of all regions before the batches.
pub fn trees(alloc: Global) -> Result<Vec<Tree>, NoMemory> {
    let mut trees = Vec::new(alloc);
    for region in 0..16 {
        let blocks = blocks(alloc, region)?;
        if blocks.len() == 256 {
            trees.push(Tree::build(alloc, 8, blocks)?)?;
        }
    }
    Ok(trees)
}

/// Writes a batch's block of each region.
pub fn write(alloc: Global, trees: &mut Vec<Tree>, batch: u64) -> Result<(), NoMemory> {
    for (region, tree) in trees.iter_mut().enumerate() {
        let place = (batch % 32 * 7) as u16;
        let bytes = Items::from_slice(alloc, &block_bytes(place, (region % 16) as u16, batch))?;
        if tree.blocks().len() > place as usize {
            tree.set(u32::from(place), bytes);
        }
    }
    Ok(())
}

/// The roots of all regions as they are.
pub fn roots(alloc: Global, trees: &[Tree]) -> Result<Vec<Digest>, NoMemory> {
    let mut roots = Vec::new(alloc);
    for tree in trees {
        roots.push(tree.root())?;
    }
    Ok(roots)
}

/// The top over the roots; that of no roots is never asked for.
pub fn top_of(roots: &[Digest]) -> Digest {
    if roots.is_empty() {
        Digest::from_bytes([0; 32])
    } else {
        top(roots)
    }
}

fn header(
    alloc: Global,
    seq: u64,
    region: u16,
    root: Digest,
    top: Digest,
) -> Result<Header, NoMemory>
    ensures { IfOk result IsHeader }
{
    Ok(Header {
        version: 1,
        session: 1,
        seq,
        region,
        previous: seq.saturating_sub(1),
        leader_before: 0,
        fronts: Items::from_slice(alloc, &[seq; 16])?,
        touched: Items::from_slice(
            alloc,
            &[0, 1, 2, 3, 4, 5, 6, 7, 8, 9, 10, 11, 12, 13, 14, 15],
        )?,
        root,
        top,
    })
}

/// The record of a base, not sealed yet.
pub fn base_record(
    alloc: Global,
    region: u16,
    root: Digest,
    top: Digest,
) -> Result<Record, NoMemory>
    ensures { IfOk result IsRecord }
{
    Ok(Record {
        header: header(alloc, 0, region, root, top)?,
        writes: Items::new(alloc),
        run: None,
        tag: Digest::from_bytes([0; 32]),
    })
}

/// The part of a batch in a region, not sealed yet.
pub fn part(
    alloc: Global,
    batch: u64,
    region: u16,
    root: Digest,
    top: Digest,
) -> Result<Record, NoMemory>
    ensures { IfOk result IsRecord }
{
    let place = (batch % 32 * 7) as u16;
    let mut writes = Items::new(alloc);
    writes.push(PlaceWrite {
        place,
        bytes: Items::from_slice(alloc, &block_bytes(place, region, batch))?,
    })?;
    Ok(Record {
        header: header(alloc, batch, region, root, top)?,
        writes,
        run: None,
        tag: Digest::from_bytes([0; 32]),
    })
}
