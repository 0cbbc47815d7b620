//! Times the trees of regions, each beside the hashes that it takes: 100,000 blocks put into a kept tree of 256 blocks
//! of 256 bytes; 200 kept trees built over 1,024 equal blocks of 1,024 bytes, each of another byte; and about 100,000
//! blocks changed in a pruned tree of 256 blocks, each by a graft, a leaf that is set, and pruning; and 100,000 records
//! of one write applied to a view of 256 blocks. What came out goes to standard output, the times to standard error.
#![tactic(auto)]

ghost use Rattle.std.specs.Prelude.{◌≡◌, ◌<◌, ◌==◌, length, IfOk, IsTrue};
ghost use Rattle.std.specs.List.{list_all};
ghost use Rattle.holding_model.specs.Fitting.{has_shape, record_fits};

use merkle_pruned::Pruned;
use merkle_region::Tree;
use region_view::RegionView;
use salus_hash::{Digest, leaf_digest, node_digest};
use salus_types::{
    Base, Blocks, Bytes, Geometry, Header, Items, NoMemory, Path, PlaceWrite, Record, Records,
    Writes,
};
use std::alloc::Global;
use std::io;
use std::rt::Runtime;
use std::time::{Duration, Instant};

const SETS: u32 = 100_000;

const BUILDS: u32 = 200;
/// How often each of the 256 places is grafted.
const GRAFTS: u32 = 391;

/// Records are made and applied in so many rounds, of 1,000 each.
const ROUNDS: u32 = 100;

fn block_of(alloc: Global, byte: u8, size: usize) -> Result<Bytes, NoMemory> {
    Ok(Items::from_vec(vec![in alloc; byte; size]?))
}

/// So many equal blocks.
fn blocks_of(alloc: Global, byte: u8, size: usize, count: usize) -> Result<Blocks, NoMemory>
    ensures { IfOk result (λ blocks. length blocks ≡ count) }
{
    let mut blocks = Vec::with_capacity(alloc, count)?;
    'each: while blocks.len() < count {
        blocks.push(block_of(alloc, byte, size)?)?;
    }
    Ok(Items::from_vec(blocks))
}

/// Writes a number over the first four bytes of a block.
fn write_number(block: &mut Bytes, number: u32) {
    if block.len() >= 4 {
        let [a, b, c, d] = number.to_be_bytes();
        block.set(0, a);
        block.set(1, b);
        block.set(2, c);
        block.set(3, d);
    }
}

/// Puts a block into the tree again and again, each time another one at another place; the block that was replaced is
/// the next.
fn put_blocks(tree: &mut Tree, first: Bytes) -> Bytes
    requires { tree.old.height ≡ 8 }
{
    let mut block = first;
    'sets: for number in 0..SETS {
        write_number(&mut block, number);
        block = tree.set(number * 97 % 256, block);
    }
    block
}

/// The hashes of one path: the block's, and one for each level.
fn hash_path(block: &[u8], levels: u32) -> Digest {
    let first = leaf_digest(block);
    let mut digest = first;
    for _ in 0..levels {
        digest = node_digest(&digest, &first);
    }
    digest
}

/// The same hashes as those of `times` blocks that are put, each of another block.
fn hash_paths(block: &mut Bytes, levels: u32, times: u32) -> u8 {
    let mut seen = 0;
    for number in 0..times {
        write_number(block, number);
        seen ^= first_byte(&hash_path(block.as_slice(), levels));
    }
    seen
}

fn first_byte(digest: &Digest) -> u8 {
    let [first, ..] = digest.as_bytes();
    *first
}

fn print_time(rt: &impl Runtime, name: &str, time: Duration) -> io::Result<()> {
    let nanos = time.as_nanos();
    eprintln!(rt; "{name}: {nanos} ns")
}

fn time_sets(rt: &impl Runtime, alloc: Global) -> io::Result<()> {
    let Ok(blocks) = blocks_of(alloc, 7, 256, 256) else {
        return Ok(());
    };
    let (Ok(mut tree), Ok(mut block)) = (Tree::build(alloc, 8, blocks), block_of(alloc, 9, 256))
    else {
        return Ok(());
    };
    let start = Instant::now(rt)?;
    block = put_blocks(&mut tree, block);
    print_time(rt, "sets", start.elapsed(rt)?)?;
    println!(rt; "after {SETS} sets: {}", first_byte(&tree.root()))?;
    let start = Instant::now(rt)?;
    let seen = hash_paths(&mut block, 8, SETS);
    print_time(rt, "set hashes", start.elapsed(rt)?)?;
    println!(rt; "their hashes: {seen}")
}

/// How many blocks equal the one before.
fn equal_neighbours(blocks: &[Bytes]) -> u32 {
    let mut count: u32 = 0;
    for i in 1..blocks.len() {
        if blocks[i] == blocks[i - 1] {
            count = count.saturating_add(1);
        }
    }
    count
}

/// What it took to build a tree, and to look through its blocks for equal neighbours; and what came out.
#[derive(Drop)]
struct Built {
    build: Duration,
    look: Duration,
    first: u8,
    equal: u32,
}

const NOTHING: Built = Built {
    build: Duration::ZERO,
    look: Duration::ZERO,
    first: 0,
    equal: 0,
};

/// Builds a tree over 1,024 blocks of 1,024 bytes, all of them equal to this byte. The making of the blocks isn't timed.
fn time_build(rt: &impl Runtime, alloc: Global, byte: u8) -> io::Result<Built> {
    let Ok(blocks) = blocks_of(alloc, byte, 1024, 1024) else {
        return Ok(NOTHING);
    };
    let start = Instant::now(rt)?;
    let Ok(tree) = Tree::build(alloc, 10, blocks) else {
        return Ok(NOTHING);
    };
    let build = start.elapsed(rt)?;
    let start = Instant::now(rt)?;
    let equal = equal_neighbours(tree.blocks());
    Ok(Built {
        build,
        look: start.elapsed(rt)?,
        first: first_byte(&tree.root()),
        equal,
    })
}

fn time_builds(rt: &impl Runtime, alloc: Global) -> io::Result<()> {
    let mut build = Duration::ZERO;
    let mut look = Duration::ZERO;
    let mut seen = 0;
    let mut equal: u32 = 0;
    for number in 0..BUILDS {
        let built = time_build(rt, alloc, number as u8)?;
        build = build.saturating_add(built.build);
        look = look.saturating_add(built.look);
        seen ^= built.first;
        equal = equal.saturating_add(built.equal);
    }
    print_time(rt, "builds", build)?;
    print_time(rt, "build looks", look)?;
    println!(rt; "after {BUILDS} builds: {seen}, {equal} equal neighbours")?;
    let Ok(mut block) = block_of(alloc, 0, 1024) else {
        return Ok(());
    };
    let start = Instant::now(rt)?;
    let seen = hash_paths(&mut block, 10, BUILDS);
    print_time(rt, "build hashes", start.elapsed(rt)?)?;
    println!(rt; "their hashes: {seen}")
}

/// Changes the block at a place again and again: its path is grafted, its leaf set, and the tree pruned. Whether each
/// graft was Ok.
fn graft_at(alloc: Global, pruned: &mut Pruned, place: u32, path: &Path, block: &mut Bytes) -> bool
    requires height { pruned.old.height ≡ 8 }
    requires within { place < 256 }
    requires levels { length path.now ≡ 8 }
    ensures { pruned.new.height ≡ 8 }
{
    let mut leaf = leaf_digest(block.as_slice());
    let mut good = true;
    'grafts: for number in 0..GRAFTS {
        match pruned.graft(alloc, place, &leaf, path) {
            Ok(()) => {
                write_number(block, number + 1);
                leaf = leaf_digest(block.as_slice());
                pruned.set_leaf(place, leaf);
                pruned.prune_all();
            }
            Err(_) => good = false,
        }
    }
    good
}

/// The same hashes: a leaf, and two paths, for each graft.
fn hash_grafts(block: &mut Bytes) -> u8 {
    let mut seen = 0;
    for number in 0..256 * GRAFTS {
        write_number(block, number);
        seen ^= first_byte(&hash_path(block.as_slice(), 16));
    }
    seen
}
/// Grafts at each place in turn, and then puts the last block into the tree too, which gives the next place's path.
fn graft_all(rt: &impl Runtime, alloc: Global, mut tree: Tree) -> io::Result<()>
    requires { tree.height ≡ 8 }
{
    let mut pruned = Pruned::from_root(tree.root(), 8);
    let mut total = Duration::ZERO;
    let mut good = true;
    'places: for place in 0u32..256 {
        let (Ok(path), Ok(mut block)) = (tree.path(alloc, place), block_of(alloc, 7, 256)) else {
            return Ok(());
        };
        if path.len() != 8 {
            return Ok(());
        }
        let start = Instant::now(rt)?;
        good = graft_at(alloc, &mut pruned, place, &path, &mut block) && good;
        total = total.saturating_add(start.elapsed(rt)?);
        let _ = tree.set(place, block);
    }
    print_time(rt, "grafts", total)?;
    let same = pruned.root() == tree.root();
    println!(rt;
        "after {} grafts: {}, {good}, {same}",
        256 * GRAFTS,
        first_byte(&pruned.root())
    )
}

fn time_grafts(rt: &impl Runtime, alloc: Global) -> io::Result<()> {
    let Ok(blocks) = blocks_of(alloc, 7, 256, 256) else {
        return Ok(());
    };
    let (Ok(tree), Ok(mut block)) = (Tree::build(alloc, 8, blocks), block_of(alloc, 7, 256)) else {
        return Ok(());
    };
    graft_all(rt, alloc, tree)?;
    let start = Instant::now(rt)?;
    let seen = hash_grafts(&mut block);
    print_time(rt, "graft hashes", start.elapsed(rt)?)?;
    println!(rt; "their hashes: {seen}")
}

fn header_of(alloc: Global, seq: u64, root: Digest) -> Header {
    Header {
        version: 1,
        session: 1,
        seq,
        region: 0,
        previous: 0,
        leader_before: 0,
        fronts: Items::new(alloc),
        touched: Items::new(alloc),
        root,
        top: root,
    }
}

/// A record that writes this block at a place and names that root.
fn part_of(alloc: Global, seq: u64, root: Digest, write: PlaceWrite) -> Result<Record, NoMemory> {
    let mut writes: Writes = Items::new(alloc);
    writes.push(write)?;
    Ok(Record {
        header: header_of(alloc, seq, root),
        writes,
        run: None,
        tag: root,
    })
}

/// 1,000 records of one write each, with the roots that the tree then has.
fn round_of(alloc: Global, tree: &mut Tree, round: u32) -> Result<Records, NoMemory>
    requires { tree.old.height ≡ 8 }
    ensures { tree.new.height ≡ 8 }
{
    let mut records = Vec::with_capacity(alloc, 1000)?;
    'records: for i in 0u32..1000 {
        let number = round.saturating_mul(1000).saturating_add(i);
        let place = number % 256 * 97 % 256;
        let mut block = block_of(alloc, 9, 256)?;
        write_number(&mut block, number);
        let bytes = Items::from_slice(alloc, block.as_slice())?;
        let _ = tree.set(place, block);
        let write = PlaceWrite {
            place: place as u16,
            bytes,
        };
        records.push(part_of(alloc, u64::from(number) + 1, tree.root(), write)?)?;
    }
    Ok(Items::from_vec(records))
}

/// Whether the record has one write, which fits.
#[tactic(auto, unfolding(holding_model::specs::Fitting::record_fits, holding_model::specs::Fitting::ascends_from))]
fn is_one_write(geometry: &Geometry, rec: &Record) -> bool
    ensures { IsTrue result → IsTrue (record_fits geometry.now rec.now) }
{
    if rec.run.is_some() {
        return false;
    }
    match rec.writes.as_slice() {
        [write] => {
            u32::from(write.place) < geometry.region_blocks()
                && write.bytes.len() == geometry.block_size() as usize
        }
        _ => false,
    }
}

/// Applies the records; how many of them were applied.
fn apply_all(alloc: Global, view: &mut RegionView, records: &[Record]) -> u32 {
    let mut applied: u32 = 0;
    for rec in records {
        if is_one_write(view.geometry(), rec) && view.apply(alloc, rec).is_ok() {
            applied = applied.saturating_add(1);
        }
    }
    applied
}

fn each_sized(blocks: &[Bytes], size: u32) -> bool
    ensures { result ≡ list_all (λ x. length x == size) blocks.now }
{
    blocks.iter().all(|block| block.len() == size as usize)
}

#[tactic(auto, unfolding(holding_model::specs::Fitting::has_shape))]
fn has_shape(geometry: &Geometry, blocks: &[Bytes]) -> bool
    ensures { result ≡ has_shape geometry.now blocks.now }
{
    blocks.len() == geometry.region_blocks() as usize && each_sized(blocks, geometry.block_size())
}

/// The view of a region of 256 equal blocks of 256 bytes.
fn first_view(alloc: Global) -> Result<Option<RegionView>, NoMemory> {
    let Ok(geometry) = Geometry::new(0, 8, 256, 1) else {
        return Ok(None);
    };
    let zero = leaf_digest(b"");
    let base = Base {
        rec: Record {
            header: header_of(alloc, 0, zero),
            writes: Items::new(alloc),
            run: None,
            tag: zero,
        },
        blocks: blocks_of(alloc, 7, 256, 256)?,
    };
    if !has_shape(&geometry, base.blocks.as_slice()) {
        return Ok(None);
    }
    Ok(Some(RegionView::new(alloc, &geometry, &base)?))
}

/// Applies records round by round. The making of the records isn't timed.
fn apply_rounds(
    rt: &impl Runtime,
    alloc: Global,
    mut view: RegionView,
    mut tree: Tree,
) -> io::Result<()>
    requires { tree.height ≡ 8 }
{
    let mut total = Duration::ZERO;
    let mut applied: u32 = 0;
    'rounds: for round in 0..ROUNDS {
        let Ok(records) = round_of(alloc, &mut tree, round) else {
            return Ok(());
        };
        let start = Instant::now(rt)?;
        let more = apply_all(alloc, &mut view, records.as_slice());
        total = total.saturating_add(start.elapsed(rt)?);
        applied = applied.saturating_add(more);
    }
    print_time(rt, "applies", total)?;
    let same = view.root() == tree.root();
    println!(rt;
        "after {applied} applies: {}, number {}, {same}",
        first_byte(&view.root()),
        view.number()
    )
}

fn time_applies(rt: &impl Runtime, alloc: Global) -> io::Result<()> {
    let (Ok(Some(view)), Ok(blocks)) = (first_view(alloc), blocks_of(alloc, 7, 256, 256)) else {
        return Ok(());
    };
    let (Ok(tree), Ok(mut block)) = (Tree::build(alloc, 8, blocks), block_of(alloc, 9, 256)) else {
        return Ok(());
    };
    apply_rounds(rt, alloc, view, tree)?;
    let start = Instant::now(rt)?;
    let seen = hash_paths(&mut block, 8, SETS);
    print_time(rt, "apply hashes", start.elapsed(rt)?)?;
    println!(rt; "their hashes: {seen}")
}

fn main(rt: HostRuntime) -> io::Result<()> {
    time_sets(&rt, rt.alloc())?;
    time_builds(&rt, rt.alloc())?;
    time_grafts(&rt, rt.alloc())?;
    time_applies(&rt, rt.alloc())
}
