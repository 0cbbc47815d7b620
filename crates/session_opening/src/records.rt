//! The records with which a session starts: one for each region, with the client's tag.
ghost use Rattle.std.specs.Prelude.{◌≡◌, [], length, map, replicate, None, IfOk};
ghost use Rattle.salus_types.specs.Volume.{regions};
ghost use Rattle.client_tag.specs.Ranges.{IsHeader};
ghost use Rattle.client_tag.specs.Tags.{sealed};
ghost use Rattle.volume_model.specs.Contents.{all_regions};
ghost use Rattle.merkle_volume.specs.Top.{top_of};
ghost use Rattle.session_opening.specs.Basing.{base_by, header_by, AreBases};

use crate::regions::all_regions;
use client_tag::seal;
use merkle_volume::top;
use salus_hash::{Digest, HmacKey};
use salus_types::{Geometry, Header, Items, NoMemory, Record, Records};
use std::alloc::Global;

/// The header of a region's base: the session starts with so many batches, and with these digests.
fn base_header(
    alloc: Global,
    geometry: &Geometry,
    session: u64,
    seq: u64,
    region: u16,
    root: Digest,
    top: Digest,
) -> Result<Header, NoMemory>
    ensures { IfOk result (λ header. header ≡ header_by geometry.now session seq region root top) }
{
    let count = geometry.regions() as usize;
    Ok(Header {
        version: 1,
        session,
        seq,
        region,
        previous: 0,
        leader_before: 0,
        fronts: Items::from_vec(vec![in alloc; seq; count]?),
        touched: all_regions(alloc, geometry)?,
        root,
        top,
    })
}

/// The record with that header, which writes nothing.
fn base_record(alloc: Global, key: &HmacKey, header: Header) -> Result<Record, NoMemory>
    requires { IsHeader header }
    ensures { IfOk result (λ rec. rec ≡ sealed key.now (record { header = header; writes = []; run = None; tag = replicate 32 0 })) }
{
    let mut rec = Record {
        header,
        writes: Items::new(alloc),
        run: None,
        tag: Digest::from_bytes([0; 32]),
    };
    seal(alloc, key, &mut rec)?;
    Ok(rec)
}

/// The bases' records by region, from the root of each region.
pub fn base_records(
    alloc: Global,
    key: &HmacKey,
    geometry: &Geometry,
    session: u64,
    seq: u64,
    roots: &[Digest],
) -> Result<Records, NoMemory>
    requires { length roots.now ≡ regions geometry.now }
    ensures value { IfOk result (λ records. records ≡ map (base_by geometry.now key.now session seq roots.now) (all_regions geometry.now)) }
    ensures spelled { IfOk result (AreBases geometry.now) }
{
    let count = geometry.regions() as u16;
    let top = top(roots);
    let mut records = Items::new(alloc);
    'regions: for region in 0..count {
        let root = roots[region as usize];
        let header = base_header(alloc, geometry, session, seq, region, root, top)?;
        records.push(base_record(alloc, key, header)?)?;
    }
    Ok(records)
}
