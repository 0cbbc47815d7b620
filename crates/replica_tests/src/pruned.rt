//! Pruned trees: the example of two blocks, paths that share their upper parts, and rounds of changes against the root
//! of the changed blocks. The digests are another program's, from the rule of RFC 6962, section 2.1.
ghost use Rattle.std.specs.Prelude.{◌≡◌, ◌<◌, length, IfOk};

use merkle_pruned::{GraftError, Pruned};
use merkle_region::{path_of, root};
use salus_hash::{Digest, leaf_digest, node_digest};
use salus_types::{Bytes, Items, NoMemory, Path};
use std::alloc::Global;
use std::test::*;

/// Whether the text is the digest in hexadecimal.
fn is_hex(text: &[u8], digest: &Digest) -> bool {
    let mut bytes = [0u8; 32];
    hex::decode_to_slice(text, &mut bytes).is_ok() && Digest::from_bytes(bytes) == *digest
}

fn block_of(alloc: Global, byte: u8) -> Result<Bytes, NoMemory> {
    let mut block = Items::new(alloc);
    block.push(byte)?;
    Ok(block)
}

/// So many blocks of one byte each, their place.
fn counted(alloc: Global, count: u8) -> Result<Vec<Bytes>, NoMemory> {
    let mut blocks = Vec::new(alloc);
    for byte in 0..count {
        blocks.push(block_of(alloc, byte)?)?;
    }
    Ok(blocks)
}

/// A path of one digest, the leaf of a block of that byte.
fn path_beside(alloc: Global, byte: u8) -> Result<Path, NoMemory>
    ensures { IfOk result (λ path. length path ≡ 1) }
{
    let mut path = Items::new(alloc);
    path.push(leaf_digest(&[byte]))?;
    Ok(path)
}

fn held_of_two() -> &'static [u8] {
    b"90eeb2c4a04ec33ee4dd2677593331910e4203db4fcc120a6cdb95b13cfe83f0"
}

fn got_of_two() -> &'static [u8] {
    b"1128b2c470edfae583bfc13f9aab8b2fd7aa48248d01826296ae6dd72ca070eb"
}

fn new_of_two() -> &'static [u8] {
    b"8d7517cc24cf5099560fe06363ab79ee8b6346800a71b59799a2604cc9e62f55"
}

/// Whether the graft of a path that leads elsewhere answers with both digests, and changes nothing.
fn differs(alloc: Global, tree: &mut Pruned, held: Digest) -> Result<bool, NoMemory>
    requires { tree.old.height ≡ 1 }
    ensures { tree.new.height ≡ 1 }
{
    let wrong = path_beside(alloc, 7)?;
    let both = match &tree.graft(alloc, 0, &leaf_digest(&[5]), &wrong) {
        Err(GraftError::Differs { held: root, got }) => {
            *root == held && is_hex(got_of_two(), got)
        }
        Err(GraftError::NoMemory) | Ok(()) => false,
    };
    Ok(both && !tree.is_open(0) && tree.root() == held)
}

/// Grafts the right path, and puts 09 in place of 05.
fn grafts(alloc: Global, tree: &mut Pruned) -> bool
    requires { tree.old.height ≡ 1 }
{
    let Ok(right) = path_beside(alloc, 6) else {
        return false;
    };
    match tree.graft(alloc, 0, &leaf_digest(&[5]), &right) {
        Ok(()) => {
            tree.set_leaf(0, leaf_digest(&[9]));
            tree.is_open(0) && tree.is_open(1) && is_hex(new_of_two(), &tree.root())
        }
        Err(_) => false,
    }
}

/// Blocks 05 and 06: a path that leads elsewhere, the right one, and 09 in place of 05.
fn two_blocks(alloc: Global) -> bool {
    let held = node_digest(&leaf_digest(&[5]), &leaf_digest(&[6]));
    let mut tree = Pruned::from_root(held, 1);
    is_hex(held_of_two(), &held)
        && matches!(differs(alloc, &mut tree, held), Ok(true))
        && grafts(alloc, &mut tree)
}

/// Grafts a path of three digests. In the second way it is taken as verified.
fn graft_along(
    alloc: Global,
    tree: &mut Pruned,
    place: u32,
    leaf: Digest,
    path: &Path,
    verified: bool,
) -> bool
    requires height { tree.old.height ≡ 3 }
    requires within { place < 8 }
    ensures { tree.new.height ≡ 3 }
{
    if path.len() != 3 {
        return false;
    }
    let is_done = if verified {
        tree.graft_verified(alloc, place, &leaf, path).is_ok()
    } else {
        tree.graft(alloc, place, &leaf, path).is_ok()
    };
    is_done && tree.is_open(place)
}

/// Grafts the path of a place, as the blocks have it.
fn graft_path(
    alloc: Global,
    tree: &mut Pruned,
    blocks: &[Bytes],
    place: u32,
    verified: bool,
) -> bool {
    if tree.height() != 3 || blocks.len() != 8 || place >= 8 {
        return false;
    }
    let leaf = leaf_digest(blocks[place as usize].as_slice());
    match path_of(alloc, 3, blocks, place) {
        Ok(path) => graft_along(alloc, tree, place, leaf, &path, verified),
        Err(NoMemory) => false,
    }
}

/// Puts a block of one byte at a place, in the tree and in the blocks.
fn set_block(
    alloc: Global,
    tree: &mut Pruned,
    blocks: &mut Vec<Bytes>,
    place: u32,
    byte: u8,
) -> bool {
    if tree.height() != 3 || blocks.len() != 8 || place >= 8 || !tree.is_open(place) {
        return false;
    }
    match block_of(alloc, byte) {
        Ok(block) => {
            tree.set_leaf(place, leaf_digest(block.as_slice()));
            blocks[place as usize] = block;
            true
        }
        Err(NoMemory) => false,
    }
}

fn graft_each(
    alloc: Global,
    tree: &mut Pruned,
    blocks: &[Bytes],
    writes: &[u8],
    verified: bool,
) -> bool {
    for write in writes.chunks(2) {
        match write {
            [place, _] if graft_path(alloc, tree, blocks, *place as u32, verified) => {}
            _ => return false,
        }
    }
    true
}

/// The writes, each a place and a byte: all paths, then all leaves.
fn write_all(
    alloc: Global,
    tree: &mut Pruned,
    blocks: &mut Vec<Bytes>,
    writes: &[u8],
    verified: bool,
) -> bool {
    if !graft_each(alloc, tree, blocks.as_slice(), writes, verified) {
        return false;
    }
    for write in writes.chunks(2) {
        match write {
            [place, byte] if set_block(alloc, tree, blocks, *place as u32, *byte) => {}
            _ => return false,
        }
    }
    true
}

/// In each row four writes, each a place and a byte, and the root after them, over eight blocks that begin as their
/// places.
fn rows() -> &'static [u8] {
    b"0494027602730242189d0363e24219ff5b3081930e4b5518fbde9cd55a5f2055daffd3a32f5d8770\
      016d040f0640008de7bac2991d3737d4fb424ba1b0e7dfdc49614bae20890db33f74e31542f12b69\
      022b04e6064704b65b22a36c80fcd0fc0e7a5fa584a430e2cc5c6cf1e376dc00cc804537a014eb39\
      03f906ba06a001b1dab3fb7b3b856b518cbb8a77c979ca41dfc352f1acab601a460898f63be62084\
      04e502e1075a0467df86c8e6bfee3c7c7a5a02ff6b504d6bad55d0684435e5f47716dfbfd34b74e9\
      02b604be078604ca3834e6609596ebd344a7e499f09c58d70a4d72fb0b8be6458de246f1eb1c7034\
      02fb037803bb0225865a235ed2d0ee85a3bc97aa677d42e5ae807bd3f02aef694d55b01941a032e4\
      06ed060106160348f646231f744140ce9d75e642d361d8975fa42bfef707028751658d269919d307\
      07e30451068005678dec50898199db53a5969e4693af252934271bc5e0500f1e39aed10ebc6bf6a4\
      054603fe031500b7c4a7a012e272b0512c359b717a84a7ecb7086a02a94269fbaa09f914b50c2583\
      055d046202390355aa0e68d44b505339d67c35b7ea33a2c60bc5924d2a215b9f955a0d960e097078\
      01db00e1052f00407395b69aec87ab5e269cdb49e22fa35a0acbd76c54b0b105d3bd212125cfb02b"
}

/// The row's writes, and whether the root is then the row's.
fn row_holds(
    alloc: Global,
    tree: &mut Pruned,
    blocks: &mut Vec<Bytes>,
    text: &[u8],
    verified: bool,
) -> bool {
    let mut row = [0u8; 40];
    if hex::decode_to_slice(text, &mut row).is_err()
        || !write_all(alloc, tree, blocks, &row[..8], verified)
    {
        return false;
    }
    let read = tree.root();
    tree.prune_all();
    read.as_bytes().as_slice() == &row[8..] && tree.root() == read && !tree.is_open(0)
}

/// The first row that doesn't hold. Every second one takes its paths as verified.
fn wrong_in(alloc: Global, tree: &mut Pruned, blocks: &mut Vec<Bytes>) -> Option<&'static [u8]> {
    let mut verified = false;
    for row in rows().chunks(80) {
        if !row_holds(alloc, tree, blocks, row, verified) {
            return Some(row);
        }
        verified = !verified;
    }
    None
}

/// The root of eight blocks.
fn root_of(blocks: &[Bytes]) -> Option<Digest> {
    if blocks.len() == 8 {
        Some(root(3, blocks))
    } else {
        None
    }
}

fn wrong_row(alloc: Global, blocks: &mut Vec<Bytes>) -> Option<&'static [u8]> {
    match root_of(blocks.as_slice()) {
        Some(top) => wrong_in(alloc, &mut Pruned::from_root(top, 3), blocks),
        None => Some(b""),
    }
}

fn wrong_root(alloc: Global) -> Option<&'static [u8]> {
    match counted(alloc, 8) {
        Ok(mut blocks) => wrong_row(alloc, &mut blocks),
        Err(NoMemory) => Some(b""),
    }
}

/// Which of eight leaves are open, from the first on.
fn open_leaves(tree: &Pruned) -> [bool; 8] {
    let mut open = [false; 8];
    for place in 0..8u32 {
        open[place as usize] = tree.is_open(place);
    }
    open
}

/// Whether the leaves are open that have a 1.
fn are_open(tree: &Pruned, marks: &[u8; 8]) -> bool {
    let open = open_leaves(tree);
    for place in 0..8 {
        if open[place] != (marks[place] == b'1') {
            return false;
        }
    }
    true
}

/// What is open after the paths of places 5 and 7, which share their last digests, and after place 0 besides.
fn share(alloc: Global, tree: &mut Pruned, blocks: &[Bytes]) -> bool {
    are_open(tree, b"00000000")
        && graft_path(alloc, tree, blocks, 5, false)
        && are_open(tree, b"00001100")
        && graft_path(alloc, tree, blocks, 7, false)
        && are_open(tree, b"00001111")
        && graft_path(alloc, tree, blocks, 0, true)
        && are_open(tree, b"11001111")
}

fn are_shared(alloc: Global, blocks: &[Bytes]) -> bool {
    let Some(top) = root_of(blocks) else {
        return false;
    };
    let mut tree = Pruned::from_root(top, 3);
    share(alloc, &mut tree, blocks) && tree.settle() == top && tree.root() == top
}

fn shared(alloc: Global) -> bool {
    match counted(alloc, 8) {
        Ok(blocks) => are_shared(alloc, blocks.as_slice()),
        Err(NoMemory) => false,
    }
}

#[test]
fn pruned_trees(rt: HostRuntime) {
    assert!(rt; two_blocks(rt.alloc()), "a tree of two blocks");
    assert_eq!(rt; wrong_root(rt.alloc()), None);
    assert!(rt; shared(rt.alloc()), "paths that share their upper parts");
}
