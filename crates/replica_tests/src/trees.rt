//! Kept trees and kept tops: the worked examples, and many changes against the plain functions. Digests were computed
//! by another program, after RFC 6962's rule and with the byte 02 in a volume's tree.
ghost use Rattle.std.specs.Prelude.{◌≡◌, ◌<◌, ◌≤◌, ◌^◌, length, IfSome};

use merkle_region::{Tree, path_of, root};
use merkle_volume::{Tops, top};
use salus_hash::{Digest, leaf_digest};
use salus_types::{Blocks, Bytes, Items, NoMemory};
use std::alloc::Global;

// The root over the blocks 00, 00, 05 and 00.
const CHANGED: [u8; 32] = [
    0xdd, 0x29, 0xc4, 0x07, 0xf2, 0x69, 0x3a, 0xd5, 0x41, 0x38, 0xd6, 0x50, 0x5f, 0x28, 0xd1, 0x55,
    0x80, 0x03, 0x75, 0x71, 0xdf, 0x92, 0x70, 0xad, 0xeb, 0x4a, 0xe3, 0x08, 0xb5, 0xad, 0xbf, 0x58,
];
// The leaf of the block 00, and the digest of two of them.
const ZERO: [u8; 32] = [
    0x96, 0xa2, 0x96, 0xd2, 0x24, 0xf2, 0x85, 0xc6, 0x7b, 0xee, 0x93, 0xc3, 0x0f, 0x8a, 0x30, 0x91,
    0x57, 0xf0, 0xda, 0xa3, 0x5d, 0xc5, 0xb8, 0x7e, 0x41, 0x0b, 0x78, 0x63, 0x0a, 0x09, 0xcf, 0xc7,
];

const ZEROS: [u8; 32] = [
    0x0d, 0xe2, 0x41, 0x80, 0xad, 0xa4, 0xc9, 0x5d, 0xb7, 0x89, 0x86, 0xda, 0x3e, 0x57, 0x0e, 0xa7,
    0xa8, 0x29, 0x6a, 0xfc, 0x9c, 0xfc, 0x7b, 0x04, 0xb9, 0x76, 0xcb, 0xaa, 0x5b, 0xb4, 0xea, 0x89,
];
// The leaf of the block 09.
const NINE: [u8; 32] = [
    0xc8, 0x74, 0x79, 0xcd, 0x65, 0x6e, 0x7e, 0x3a, 0xd6, 0xbd, 0x8d, 0xb4, 0x02, 0xe8, 0x02, 0x7d,
    0xf4, 0x54, 0xb2, 0xb0, 0xc4, 0x2f, 0xf2, 0x9e, 0x09, 0x34, 0x58, 0xbe, 0xb9, 0x8a, 0x23, 0xd4,
];
// The tops over the leaves of the first 4 and of the first 16 bytes, and over those 16 with that of 00 for region 11.
const TOP_OF_4: [u8; 32] = [
    0x0f, 0x27, 0x64, 0x45, 0x8b, 0xb2, 0x56, 0x2f, 0x5b, 0x25, 0x47, 0xcc, 0xc7, 0x4f, 0x68, 0xbc,
    0xf7, 0x0b, 0x56, 0x79, 0xfb, 0x5e, 0x97, 0x7e, 0x62, 0x6a, 0xb6, 0x27, 0x35, 0x80, 0x3b, 0xc2,
];

const TOP_OF_16: [u8; 32] = [
    0xc1, 0x76, 0xc0, 0xe5, 0xeb, 0xf3, 0x3e, 0x5e, 0xd9, 0xce, 0x43, 0xb8, 0x5a, 0xa4, 0x7b, 0x1e,
    0x0c, 0x69, 0x90, 0x4b, 0xf8, 0x32, 0x29, 0xdf, 0x32, 0x5f, 0xe8, 0x53, 0xaf, 0x59, 0x8e, 0xdf,
];

const TOP_CHANGED: [u8; 32] = [
    0xa0, 0x01, 0x09, 0x4e, 0x73, 0x96, 0x9a, 0xa4, 0x49, 0x71, 0xb2, 0xff, 0x15, 0x6f, 0x40, 0x44,
    0xd8, 0x81, 0xd5, 0x9f, 0x7d, 0x62, 0x41, 0x67, 0x2e, 0xe7, 0x8f, 0x44, 0xf1, 0x0a, 0x7e, 0x5f,
];

fn block_of(alloc: Global, byte: u8) -> Result<Bytes, NoMemory> {
    Items::from_slice(alloc, [byte].as_slice())
}

/// Blocks of one byte each.
fn blocks_of(alloc: Global, bytes: &[u8]) -> Result<Blocks, NoMemory> {
    let mut blocks = Vec::new(alloc);
    for byte in bytes {
        blocks.push(block_of(alloc, *byte)?)?;
    }
    Ok(Items::from_vec(blocks))
}

/// The tree over blocks of one byte each, if so many fit.
fn tree_of(alloc: Global, height: u32, bytes: &[u8]) -> Option<Tree>
    requires { height ≤ 6 }
    ensures { IfSome result (λ tree. tree.height ≡ height) }
{
    match blocks_of(alloc, bytes) {
        Ok(blocks) if blocks.len() == 2usize.pow(height) => Tree::build(alloc, height, blocks).ok(),
        _ => None,
    }
}

/// Puts a block of that byte, and says whether it took the place of one of the other.
fn replaces(alloc: Global, tree: &mut Tree, place: u32, byte: u8, was: u8) -> bool
    requires { place < 2 ^ tree.old.height }
    ensures { tree.new.height ≡ tree.old.height }
{
    match block_of(alloc, byte) {
        Ok(block) => {
            let replaced = tree.set(place, block);
            replaced.as_slice() == [was].as_slice()
                && tree.block(place).as_slice() == [byte].as_slice()
        }
        Err(NoMemory) => false,
    }
}

/// Whether the path of a place consists of these digests.
fn has_path(alloc: Global, tree: &Tree, place: u32, beside: &[Digest]) -> bool
    requires { place < 2 ^ tree.now.height }
{
    match tree.path(alloc, place) {
        Ok(path) => path.as_slice() == beside,
        Err(NoMemory) => false,
    }
}

/// The tree over four blocks of the byte 00, with 05 put in the place of the third.
fn one_of_four(alloc: Global) -> bool {
    let beside = [Digest::from_bytes(ZERO), Digest::from_bytes(ZEROS)];
    match tree_of(alloc, 2, [0, 0, 0, 0].as_slice()) {
        Some(mut tree) => {
            replaces(alloc, &mut tree, 2, 5, 0)
                && tree.root() == Digest::from_bytes(CHANGED)
                && has_path(alloc, &tree, 2, beside.as_slice())
        }
        None => false,
    }
}

/// The tree over one block, with 09 put in its place.
fn one_alone(alloc: Global) -> bool {
    let beside = [Digest::from_bytes(ZERO)];
    match tree_of(alloc, 0, [0].as_slice()) {
        Some(mut tree) => {
            has_path(alloc, &tree, 0, &beside[..0])
                && tree.root() == Digest::from_bytes(ZERO)
                && replaces(alloc, &mut tree, 0, 9, 0)
                && tree.root() == Digest::from_bytes(NINE)
                && tree.height() == 0
        }
        None => false,
    }
}

fn next(dice: u32) -> u32 {
    dice.wrapping_mul(1_664_525).wrapping_add(1_013_904_223)
}

/// Puts a block, and compares root and path with those of the plain functions over the blocks as they are.
fn keeps_pace(alloc: Global, tree: &mut Tree, dice: u32) -> Result<bool, NoMemory> {
    let count = tree.blocks().len() as u32;
    if count == 0 {
        return Ok(false);
    }
    let place = (dice >> 8) % count;
    let byte = ((dice >> 28) % 3) as u8;
    let _ = tree.set(place, block_of(alloc, byte)?);
    let height = tree.height();
    let whole = root(height, tree.blocks());
    let plain = path_of(alloc, height, tree.blocks(), place)?;
    let path = tree.path(alloc, place)?;
    Ok(
        tree.block(place).as_slice() == [byte].as_slice()
            && tree.root() == whole
            && path.as_slice() == plain.as_slice(),
    )
}

/// Blocks of one byte each, in runs of equal ones.
fn runs(alloc: Global, count: usize) -> Result<Blocks, NoMemory> {
    let mut blocks = Vec::new(alloc);
    let mut dice = 7;
    let mut byte = 0;
    for _ in 0..count {
        dice = next(dice);
        if dice >> 30 == 0 {
            byte = ((dice >> 20) % 3) as u8;
        }
        blocks.push(block_of(alloc, byte)?)?;
    }
    Ok(Items::from_vec(blocks))
}

/// Builds a tree over runs of equal blocks, and changes it so many times.
fn changes(alloc: Global, height: u32, times: u32) -> Result<bool, NoMemory>
    requires { height ≤ 6 }
{
    let blocks = runs(alloc, 2usize.pow(height))?;
    if blocks.len() != 2usize.pow(height) {
        return Ok(false);
    }
    let plain = root(height, blocks.as_slice());
    let mut tree = Tree::build(alloc, height, blocks)?;
    let mut good = tree.root() == plain;
    let mut dice = height;
    for _ in 0..times {
        dice = next(dice);
        good = keeps_pace(alloc, &mut tree, dice)? && good;
    }
    Ok(good)
}

fn changes_keep_pace(alloc: Global) -> Option<u32> {
    for height in 0u32..7 {
        if !matches!(changes(alloc, height, 60), Ok(true)) {
            return Some(height);
        }
    }
    None
}

/// The leaves of the first 16 bytes.
fn sixteen() -> [Digest; 16] {
    let mut roots = [Digest::from_bytes(ZERO); 16];
    for i in 0u8..16 {
        roots[i as usize] = leaf_digest([i].as_slice());
    }
    roots
}

/// Whether the kept top is the plain one, before and after each region's root was changed in turn.
fn tops_keep_pace(roots: &[Digest]) -> bool
    requires some { 1 ≤ length roots.now }
    requires few { length roots.now ≤ 16 }
{
    let mut tops = Tops::new(roots);
    let mut good = tops.top() == top(roots);
    for g in 0..roots.len() {
        if g < tops.roots().len() && !tops.roots().is_empty() {
            let digest = leaf_digest([g as u8, 1].as_slice());
            tops.set_region(g as u16, &digest);
            good = good && tops.roots()[g] == digest && !tops.roots().is_empty();
        }
        if !tops.roots().is_empty() {
            good = good && tops.top() == top(tops.roots());
        }
    }
    good && tops.roots().len() == roots.len()
}

/// Whether the top of these roots is so, kept or not.
fn has_top(roots: &[Digest], digest: [u8; 32]) -> bool
    requires some { 1 ≤ length roots.now }
    requires few { length roots.now ≤ 16 }
{
    top(roots) == Digest::from_bytes(digest) && Tops::new(roots).top() == Digest::from_bytes(digest)
}

/// Whether the top is so once the root of region 11 is that of a block of 00.
fn changes_top(roots: &[Digest; 16]) -> bool {
    let mut tops = Tops::new(roots.as_slice());
    tops.set_region(11, &Digest::from_bytes(ZERO));
    tops.top() == Digest::from_bytes(TOP_CHANGED)
}

fn tops_hold(roots: &[Digest; 16]) -> bool {
    has_top(&roots[..1], ZERO)
        && has_top(&roots[..4], TOP_OF_4)
        && has_top(&roots[..16], TOP_OF_16)
        && changes_top(roots)
}

/// The first number of regions whose tops don't keep pace.
fn wrong_tops(roots: &[Digest; 16]) -> Option<usize> {
    for count in [1usize, 2, 4, 8, 16] {
        if !tops_keep_pace(&roots[..count]) {
            return Some(count);
        }
    }
    None
}

#[test]
fn trees_and_tops(rt: HostRuntime) {
    assert!(rt; one_of_four(rt.alloc()), "one block of four");
    assert!(rt; one_alone(rt.alloc()), "one block alone");
    assert_eq!(rt; changes_keep_pace(rt.alloc()), None);
    let roots = sixteen();
    assert!(rt; tops_hold(&roots), "tops of worked examples");
    assert_eq!(rt; wrong_tops(&roots), None);
}
