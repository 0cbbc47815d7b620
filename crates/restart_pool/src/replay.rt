//! The blocks after a chain's parts, with their root at each link: hashed along paths.
ghost use Rattle.std.specs.Prelude.{◌≡◌, ◌&&◌, ◌==◌, nat_lt, IfOk, OnOk, IsTrue, None, Some, option_map, option_copied, slice_get, slice_set, true, IfSome};
ghost use Rattle.holding_model.specs.Fitting.{blocks_after, blocks_written, has_content, has_shape};
ghost use Rattle.volume_model.specs.Recovering.{base_end, is_link};
ghost use Rattle.merkle_region.specs.Tree.{IsAmong};
ghost use Rattle.restart_pool.specs.Following.{after_found, along, follow, whole_at};
ghost use Rattle.restart_pool.specs.Kept.{HasRoot};

use merkle_region::Tree;
use salus_hash::Digest;
use salus_types::{Base, Blocks, Geometry, NoMemory, PlaceWrite, Record, TryClone};
use std::alloc::Global;

/// A region's blocks and their root.
#[derive(Drop)]
pub struct Whole {
    pub root: Digest,
    pub blocks: Blocks,
}

/// Puts a block into the tree, if its place is in the region. After an error the tree is used no more.
fn put_write(alloc: Global, tree: &mut Tree, write: &PlaceWrite) -> Result<(), NoMemory>
    ensures height { tree.new.height ≡ tree.old.height }
    ensures blocks { OnOk result (tree.new.blocks ≡ slice_set tree.old.blocks write.now.place write.now.bytes) }
{
    if (write.place as usize) < tree.blocks().len() {
        tree.set(u32::from(write.place), write.bytes.try_clone(alloc)?);
    }
    Ok(())
}

/// Puts a part's blocks into the tree. After an error the tree is used no more.
fn put_writes(alloc: Global, tree: &mut Tree, writes: &[PlaceWrite]) -> Result<(), NoMemory>
    ensures height { tree.new.height ≡ tree.old.height }
    ensures blocks { OnOk result (tree.new.blocks ≡ blocks_written tree.old.blocks writes.now) }
{
    'writes: for write in writes {
        put_write(alloc, tree, write)?;
    }
    Ok(())
}

/// The blocks of a base with their root, which its record names.
fn whole_of(alloc: Global, base: &Base) -> Result<Whole, NoMemory>
    ensures { IfOk result (λ whole. (whole.root ≡ base.now.rec.header.root) × (whole.blocks ≡ base.now.blocks)) }
{
    Ok(Whole {
        root: base.rec.header.root,
        blocks: base.blocks.try_clone(alloc)?,
    })
}

/// Whether the part can link to a chain that goes up to `at`.
fn may_follow(at: u64, rec: &Record) -> bool
    requires { rec.now.run ≡ None }
    ensures { result ≡ (rec.now.header.previous == at) && nat_lt rec.now.header.previous rec.now.header.seq && has_content rec.now.writes rec.now.run }
{
    rec.header.previous == at && rec.header.previous < rec.header.seq && !rec.writes.is_empty()
}

/// Whether the part links to a chain that goes up to `at` with the blocks of the tree. Where it does, the tree is that
/// of the blocks after the part; otherwise, and after an error, it is used no more.
fn link(
    alloc: Global,
    geometry: &Geometry,
    tree: &mut Tree,
    at: u64,
    rec: &Record,
) -> Result<bool, NoMemory>
    requires height { tree.old.height ≡ geometry.now.height }
    requires plain { rec.now.run ≡ None }
    ensures height { tree.new.height ≡ tree.old.height }
    ensures value { IfOk result (λ yes. yes ≡ is_link geometry.now (record { at = at; blocks = tree.old.blocks }) rec.now) }
    ensures after { IfOk result (λ yes. IsTrue yes → tree.new.blocks ≡ blocks_after geometry.now tree.old.blocks rec.now) }
{
    if !may_follow(at, rec) {
        return Ok(false);
    }
    put_writes(alloc, tree, rec.writes.as_slice())?;
    Ok(tree.root() == rec.header.root)
}

/// The part at this place.
fn part_at(parts: &[Record], place: usize) -> Option<&Record>
    ensures { option_copied result ≡ slice_get parts.now place }
{
    parts.get(place)
}

/// Goes on with the part, if there is one: the number then reached. None where it doesn't link; then, and after an error,
/// the tree is used no more.
fn follow_part(
    alloc: Global,
    geometry: &Geometry,
    tree: &mut Tree,
    at: u64,
    part: Option<&Record>,
) -> Result<Option<u64>, NoMemory>
    requires height { tree.old.height ≡ geometry.now.height }
    requires plain { IfSome part (λ rec. rec.now.run ≡ None) }
    ensures height { tree.new.height ≡ tree.old.height }
    ensures value { IfOk result (λ next. option_map (λ n. record { at = n; blocks = tree.new.blocks }) next ≡ after_found geometry.now (record { at = at; blocks = tree.old.blocks }) (option_copied part.entry)) }
{
    match part {
        None => Ok(Some(at)),
        Some(rec) => {
            if link(alloc, geometry, tree, at, rec)? {
                Ok(Some(rec.header.seq))
            } else {
                Ok(None)
            }
        }
    }
}

/// The blocks, with their root, of the chain that begins with this base and goes on with the parts at these places:
/// None exactly where one of them doesn't link to the one before.
fn replay(
    alloc: Global,
    geometry: &Geometry,
    base: &Base,
    parts: &[Record],
    later: &[usize],
) -> Result<Option<Whole>, NoMemory>
    requires shaped { has_shape geometry.now base.now.blocks ≡ true }
    requires plain { (rec : Record) → IsAmong rec parts.now → rec.run ≡ None }
    ensures { IfOk result (λ whole. whole ≡ option_map (whole_at geometry.now) (follow geometry.now (base_end base.now) (along parts.now later.now))) }
{
    let blocks = base.blocks.try_clone(alloc)?;
    let mut tree = Tree::build(alloc, geometry.height(), blocks)?;
    let mut at = base.rec.header.seq;
    'links: for place in later {
        match follow_part(alloc, geometry, &mut tree, at, part_at(parts, *place))? {
            Some(next) => at = next,
            None => return Ok(None),
        }
    }
    Ok(Some(Whole {
        root: tree.root(),
        blocks: tree.into_blocks(),
    }))
}

/// The same of a base that has its record's root: the blocks of the base alone aren't hashed again.
pub fn whole_after(
    alloc: Global,
    geometry: &Geometry,
    base: &Base,
    parts: &[Record],
    later: &[usize],
) -> Result<Option<Whole>, NoMemory>
    requires rooted { HasRoot geometry.now base.now }
    requires plain { (rec : Record) → IsAmong rec parts.now → rec.run ≡ None }
    ensures { IfOk result (λ whole. whole ≡ option_map (whole_at geometry.now) (follow geometry.now (base_end base.now) (along parts.now later.now))) }
{
    if later.is_empty() {
        return Ok(Some(whole_of(alloc, base)?));
    }
    replay(alloc, geometry, base, parts, later)
}
