ghost use Rattle.std.specs.Prelude.{◌≡◌, ◌∷◌, ◌<◌, ◌≤◌, ◌^◌, [], false, length, replicate, None, IfOk, IfErr, IsTrue, OnOk, MatchResult};
ghost use Rattle.std.specs.List.{range_with_len};
ghost use Rattle.salus_types.specs.Volume.{regions, region_blocks};
ghost use Rattle.merkle_region.specs.Tree.{root_of};
ghost use Rattle.client_tag.specs.Ranges.{AreBlocks, IsHeader, IsRecord, IsBase};
ghost use Rattle.client_tag.specs.Tags.{sealed};
ghost use Rattle.disk_model.specs.Disk.{Now, EachImage};
ghost use Rattle.disk_model.specs.Failures.{is_unharmed};
ghost use Rattle.disk_model.specs.Told.{content_of};
ghost use Rattle.datanode_log.specs.Causes.{IsCaused, KeepsSure};
ghost use Rattle.datanode_store.specs.Causes.{is_device, says_device, IsOutside};
ghost use Rattle.datanode_store.specs.Live.{MeansLive};
ghost use Rattle.holding_model.specs.Holding.{OfBase, ToSession, held_after, nothing_held};
ghost use Rattle.volume_model.specs.Parts.{base_header as header_of, whole_base};
ghost use Rattle.run_rules.specs.Running.{new_session};
ghost use Rattle.disk_node.specs.Opened.{opened_with};

use crate::loading::want;
use client_tag::seal;
use datanode_checkpoint::Checkpoint;
use datanode_log::Refused;
use datanode_store::StoreError;
use disk_model::{Disk, MemDisk};
use merkle_volume::top;
use salus_hash::{Digest, HmacKey, leaf_digest, node_digest};
use salus_types::{Base, Blocks, Geometry, Header, Items, NoMemory, Record};
use std::alloc::Global;

// The root over 2^height blocks that are all this one. Neighbours are equal, so one digest is taken a level.
fn root_of_equal(height: u32, block: &[u8]) -> Digest
    ensures { result ≡ root_of height (replicate (2 ^ height) block.now) }
{
    if height == 0 {
        return leaf_digest(block);
    }
    let half = root_of_equal(height - 1, block);
    node_digest(&half, &half)
}

// A region's blocks, all zero.
fn zero_blocks(alloc: Global, geometry: &Geometry) -> Result<Blocks, NoMemory>
    ensures blocks { IfOk result (λ blocks. blocks ≡ replicate (region_blocks geometry.now) (replicate geometry.now.block 0)) }
    ensures ranges { IfOk result AreBlocks }
    ensures some { IfOk result (λ blocks. 0 < length blocks) }
{
    let count = geometry.region_blocks();
    let size = geometry.block_size() as usize;
    let mut blocks = Vec::new(alloc);
    'zeros: for _ in 0..count {
        blocks.push(Items::from_vec(vec![in alloc; 0u8; size]?))?;
    }
    Ok(Items::from_vec(blocks))
}

// The numbers of so many regions.
#[tactic(auto, using(crate::proofs::Uniform::range_more))]
fn region_numbers(alloc: Global, count: u16) -> Result<Vec<u16>, NoMemory>
    ensures { IfOk result (λ numbers. numbers.items ≡ range_with_len 0 count) }
{
    let mut numbers = Vec::new(alloc);
    'regions: for g in 0..count {
        numbers.push(g)?;
    }
    Ok(numbers)
}

// What the base of a region says in session 1, before any batch: each region has the same root.
fn base_header(
    alloc: Global,
    geometry: &Geometry,
    region: u16,
    root: Digest,
) -> Result<Header, NoMemory>
    requires root { root ≡ root_of geometry.now.height (replicate (region_blocks geometry.now) (replicate geometry.now.block 0)) }
    requires region { region < regions geometry.now }
    ensures header { IfOk result (λ header. header ≡ header_of geometry.now (new_session geometry.now) region) }
    ensures ranges { IfOk result IsHeader }
{
    let count = geometry.regions();
    let roots = vec![in alloc; root; count as usize]?;
    Ok(Header {
        version: 1,
        session: 1,
        seq: 0,
        region,
        previous: 0,
        leader_before: 0,
        fronts: Items::from_vec(vec![in alloc; 0u64; count as usize]?),
        touched: Items::from_vec(region_numbers(alloc, count as u16)?),
        root,
        top: top(roots.as_slice()),
    })
}

// Puts the client's tag on a record with that header, without writes.
fn sealed_record(alloc: Global, key: &HmacKey, header: Header) -> Result<Record, NoMemory>
    requires { IsHeader header }
    ensures sealed { IfOk result (λ rec. rec ≡ sealed key.now (record { header = header; writes = []; run = None; tag = replicate 32 0 })) }
    ensures ranges { IfOk result IsRecord }
{
    let mut rec = Record {
        header,
        writes: Items::new(alloc),
        run: None,
        tag: Digest::from_bytes([0u8; 32]),
    };
    seal(alloc, key, &mut rec)?;
    Ok(rec)
}

/// The base with which session 1 begins in a region, sealed, with its blocks, all zero.
pub fn first_base(
    alloc: Global,
    geometry: &Geometry,
    key: &HmacKey,
    region: u16,
) -> Result<Base, NoMemory>
    requires { region < regions geometry.now }
    ensures base { IfOk result (λ base. base ≡ whole_base geometry.now key.now (new_session geometry.now) region) }
    ensures ranges { IfOk result IsBase }
    ensures some { IfOk result (λ base. 0 < length base.blocks) }
{
    let blocks = zero_blocks(alloc, geometry)?;
    let root = root_of_equal(geometry.height(), blocks.as_slice()[0].as_slice());
    let header = base_header(alloc, geometry, region, root)?;
    let rec = sealed_record(alloc, key, header)?;
    Ok(Base { rec, blocks })
}

/// A new disk, formatted, that holds nothing.
pub fn empty_disk(alloc: Global) -> Result<MemDisk, NoMemory>
    ensures means { IfOk result (λ disk. MeansLive nothing_held (content_of disk)) }
    ensures unharmed { IfOk result (λ disk. IsTrue (is_unharmed disk.failures)) }
{
    let mut disk = MemDisk::new(alloc, Vec::new(alloc));
    match Checkpoint::format(&mut disk) {
        Ok(()) => Ok(disk),
        Err(error) => Err(want(error)),
    }
}

// Stores a base, and opens session 1.
fn open_with<D: Disk>(checkpoint: &mut Checkpoint<D>, base: &Base) -> Result<(), StoreError>
    requires working { checkpoint.old.store.log.failed ≡ false }
    requires ranges { IsBase base.now }
    requires some { 0 < length base.now.blocks }
    ensures durable { OnOk result (Now (D.history checkpoint.new.store.log.disk.disk) (λ now. EachImage now (MeansLive (held_after (held_after checkpoint.old.store.held (OfBase base.now)) (ToSession 1))))) }
    ensures untold { D.history checkpoint.old.store.log.disk.disk ≡ [] → D.history checkpoint.new.store.log.disk.disk ≡ [] }
    ensures only { IfErr result IsOutside }
    ensures cause { IsCaused (D.faults checkpoint.old.store.log.disk.disk) (D.faults checkpoint.new.store.log.disk.disk) (says_device result) }
    ensures sure { KeepsSure (D.is_sure checkpoint.old.store.log.disk.disk) (D.is_sure checkpoint.new.store.log.disk.disk) (says_device result) }
{
    match checkpoint.add_base(base) {
        Ok(()) => {}
        Err(error) => return Err(error),
    }
    match checkpoint.switch(1) {
        Ok(()) => Ok(()),
        Err(error) => Err(error),
    }
}

/// Formats an empty disk: it holds that base then, in session 1. After an error it is handed back, and may hold a part of it.
pub fn prepare<D: Disk>(
    alloc: Global,
    mut disk: D,
    base: &Base,
) -> Result<D, Refused<D, StoreError>>
    requires ranges { IsBase base.now }
    requires some { 0 < length base.now.blocks }
    requires empty { Now (D.history disk) (λ now. now.seen ≡ []) }
    ensures means { IfOk result (λ made. Now (D.history made) (λ now. EachImage now (MeansLive (opened_with base.now)))) }
    ensures only { IfErr result (λ refused. Now (D.history refused.disk) (λ now. IsOutside refused.error)) }
    ensures cause { MatchResult result (λ made. D.faults made ≡ D.faults disk) (λ refused. IsCaused (D.faults disk) (D.faults refused.disk) (is_device refused.error)) }
    ensures sure { MatchResult result (λ made. KeepsSure (D.is_sure disk) (D.is_sure made) false) (λ refused. KeepsSure (D.is_sure disk) (D.is_sure refused.disk) (is_device refused.error)) }
{
    match Checkpoint::format(&mut disk) {
        Ok(()) => {}
        Err(error) => return Err(Refused { disk, error }),
    }
    match Checkpoint::load(alloc, disk) {
        Ok(mut checkpoint) => match open_with(&mut checkpoint, base) {
            Ok(()) => Ok(checkpoint.into_disk()),
            Err(error) => Err(Refused {
                disk: checkpoint.into_disk(),
                error,
            }),
        },
        Err(refused) => Err(refused),
    }
}
