//! What each server of a region replies to a client that gathers: a base, and a part of each batch.
ghost use Rattle.std.specs.Prelude.{◌≡◌, length, ◌^◌};
ghost use Rattle.client_tag.specs.Ranges.{IsRecord};

use crate::volume::{BATCHES, base_record, part, roots, top_of, trees, write};
use client_tag::{payload, seal, write_record};
use merkle_region::{Tree, root};
use salus_codec::{put_bytes, put_u16, put_u32, put_u64};
use salus_hash::HmacKey;
use salus_message::Kind;
use salus_types::{Blocks, Bytes, Items, NoMemory, Record, TryClone};
use std::alloc::Global;

/// The reply of each server of a region, and what is hashed of it.
#[derive(Drop)]
pub struct Reply {
    /// A message `Gathered`.
    pub bytes: Vec<u8>,
    /// The blocks of the base.
    pub blocks: Blocks,
    /// The bytes of each record without its tag.
    pub payloads: Vec<Vec<u8>>,
}

/// Adds a record to the reply.
fn add_record(alloc: Global, reply: &mut Reply, rec: &Record) -> Result<(), NoMemory>
    requires { IsRecord rec.now }
{
    reply.payloads.push(payload(alloc, rec)?)?;
    write_record(rec, &mut reply.bytes)
}

/// What a reply to the opening of session 2 begins with, of a server that serves session 1 and has one base.
fn front(alloc: Global) -> Result<Vec<u8>, NoMemory> {
    let mut bytes = Vec::with_capacity(alloc, 100_000)?;
    bytes.push(Kind::Gathered.byte())?;
    put_u64(&mut bytes, 2)?;
    put_u64(&mut bytes, 1)?;
    put_u32(&mut bytes, 1)?;
    Ok(bytes)
}

/// Adds each block's bytes.
fn put_each(bytes: &mut Vec<u8>, blocks: &[Bytes]) -> Result<(), NoMemory> {
    for block in blocks {
        put_bytes(bytes, block.as_slice())?;
    }
    Ok(())
}

/// Adds the blocks of a base, and how many parts follow.
fn put_blocks(bytes: &mut Vec<u8>, blocks: &[Bytes]) -> Result<(), NoMemory> {
    put_u32(bytes, 256)?;
    put_u16(bytes, 256)?;
    put_each(bytes, blocks)?;
    put_u32(bytes, BATCHES)
}

/// The blocks of the tree.
fn copy_of(alloc: Global, tree: &Tree) -> Result<Blocks, NoMemory> {
    let mut blocks = Items::new(alloc);
    for block in tree.blocks() {
        blocks.push(block.try_clone(alloc)?)?;
    }
    Ok(blocks)
}

/// The reply before its parts.
fn begin(alloc: Global, rec: &Record, tree: &Tree) -> Result<Reply, NoMemory>
    requires { IsRecord rec.now }
{
    let mut reply = Reply {
        bytes: front(alloc)?,
        blocks: copy_of(alloc, tree)?,
        payloads: Vec::new(alloc),
    };
    add_record(alloc, &mut reply, rec)?;
    put_blocks(&mut reply.bytes, reply.blocks.as_slice())?;
    Ok(reply)
}

/// The replies before their parts.
fn begin_all(alloc: Global, key: &HmacKey, trees: &[Tree]) -> Result<Vec<Reply>, NoMemory> {
    let roots = roots(alloc, trees)?;
    let top = top_of(roots.as_slice());
    let mut replies = Vec::new(alloc);
    for (region, tree) in trees.iter().enumerate() {
        let mut rec = base_record(alloc, (region % 16) as u16, tree.root(), top)?;
        seal(alloc, key, &mut rec)?;
        replies.push(begin(alloc, &rec, tree)?)?;
    }
    Ok(replies)
}

/// Adds a batch's parts.
fn add_parts(
    alloc: Global,
    key: &HmacKey,
    trees: &[Tree],
    batch: u64,
    replies: &mut Vec<Reply>,
) -> Result<(), NoMemory> {
    let roots = roots(alloc, trees)?;
    let top = top_of(roots.as_slice());
    for (region, reply) in replies.iter_mut().enumerate() {
        if let Some(root) = roots.get(region) {
            let mut rec = part(alloc, batch, (region % 16) as u16, *root, top)?;
            seal(alloc, key, &mut rec)?;
            add_record(alloc, reply, &rec)?;
        }
    }
    Ok(())
}

/// The reply of each region's servers.
pub fn replies(alloc: Global, key: &HmacKey) -> Result<Vec<Reply>, NoMemory> {
    let mut trees = trees(alloc)?;
    let mut replies = begin_all(alloc, key, trees.as_slice())?;
    for batch in 1..u64::from(BATCHES) + 1 {
        write(alloc, &mut trees, batch)?;
        add_parts(alloc, key, trees.as_slice(), batch, &mut replies)?;
    }
    Ok(replies)
}

/// Hashes once what a server's reply holds: a byte that the hashes are mixed to.
fn hash_one(key: &HmacKey, reply: &Reply) -> u8 {
    let mut mixed = 0;
    for text in reply.payloads.as_slice() {
        mixed ^= key.hmac(text.as_slice()).as_bytes()[0];
    }
    let blocks = reply.blocks.as_slice();
    if blocks.len() == 256 {
        mixed ^= root(8, blocks).as_bytes()[0];
    }
    mixed
}

/// Hashes once what the replies of three servers of each region hold.
pub fn hash_all(key: &HmacKey, replies: &[Reply]) -> u8 {
    let mut mixed = 0;
    for reply in replies {
        for _ in 0..3 {
            mixed ^= hash_one(key, reply);
        }
    }
    mixed
}
