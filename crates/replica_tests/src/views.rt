//! Views: each row is a record that is applied, or refused for its root. What is expected is computed over a plain list
//! of blocks: what each place holds after a row, and the root and the paths of that list by the plain functions.
ghost use Rattle.std.specs.Prelude.{◌≡◌, ◌^◌, ◌<◌, length};
ghost use Rattle.salus_types.specs.Volume.{region_blocks};

use crate::fitting::{has_shape, record_fits};
use merkle_region::{path_of, root};
use region_view::{ApplyError, RegionView, ViewAnswer};
use salus_hash::{Digest, leaf_digest};
use salus_types::{
    Base, Blocks, Bytes, Geometry, Header, Items, NoMemory, Path, PlaceWrite, Record, Trim,
    TryClone, Writes,
};
use std::alloc::Global;
use std::test::*;

/// What a record does, read from a row of nine bytes: its writes, each by the digits of a place and of the byte that the
/// block consists of, or two dots; its run, by the digits of its place and log, or two dots; and whether it names the root
/// of the blocks after it.
#[derive(Drop)]
struct Row<'a> {
    writes: &'a [u8],
    run: Option<Trim>,
    names_root: bool,
}

fn digit(byte: u8) -> u8 {
    byte.saturating_sub(b'0')
}

fn run_of(place: u8, log: u8) -> Option<Trim> {
    if place == b'.' {
        return None;
    }
    Some(Trim {
        place: u16::from(digit(place)),
        log: digit(log),
    })
}

fn row_of<'a>(text: &'a [u8]) -> Row<'a> {
    match text {
        [mark, writes @ .., place, log] => Row {
            writes,
            run: run_of(*place, *log),
            names_root: *mark == b'y',
        },
        _ => Row {
            writes: text,
            run: None,
            names_root: true,
        },
    }
}

/// The place and the byte of a write.
fn write_of(text: &[u8]) -> Option<(u16, u8)> {
    match text {
        [b'.', ..] => None,
        [place, byte] => Some((u16::from(digit(*place)), digit(*byte))),
        _ => None,
    }
}

/// A block of two bytes.
fn block_of(alloc: Global, byte: u8) -> Result<Bytes, NoMemory> {
    Items::from_slice(alloc, [byte, byte].as_slice())
}

/// Blocks of the bytes 1, 2 and so on.
fn first_blocks(alloc: Global, count: u16) -> Result<Blocks, NoMemory> {
    let mut blocks = Vec::new(alloc);
    for place in 0..count {
        blocks.push(block_of(alloc, (place % 255) as u8 + 1)?)?;
    }
    Ok(Items::from_vec(blocks))
}

fn writes_of(alloc: Global, row: &Row) -> Result<Writes, NoMemory> {
    let mut writes: Writes = Items::new(alloc);
    for text in row.writes.chunks(2) {
        if let Some((place, byte)) = write_of(text) {
            let bytes = block_of(alloc, byte)?;
            writes.push(PlaceWrite { place, bytes })?;
        }
    }
    Ok(writes)
}

fn record_of(alloc: Global, seq: u64, root: Digest, row: &Row) -> Result<Record, NoMemory> {
    let writes = writes_of(alloc, row)?;
    Ok(Record {
        header: Header {
            version: 1,
            session: 1,
            seq,
            region: 0,
            previous: 0,
            leader_before: 0,
            fronts: Items::new(alloc),
            touched: Items::new(alloc),
            root,
            top: root,
        },
        writes,
        run: row.run,
        tag: root,
    })
}

/// Whether the place is one of the 2^log places from the run's on.
fn is_in_run(run: Option<Trim>, place: u16) -> bool {
    match run {
        Some(run) => run.log < 16 && place >> run.log == run.place >> run.log,
        None => false,
    }
}

/// The block at a place after a row: zero in its run, else what the row writes there, else the block before.
fn block_after(alloc: Global, before: &Bytes, place: u16, row: &Row) -> Result<Bytes, NoMemory> {
    if is_in_run(row.run, place) {
        return block_of(alloc, 0);
    }
    for text in row.writes.chunks(2) {
        if let Some((at, byte)) = write_of(text) {
            if at == place {
                return block_of(alloc, byte);
            }
        }
    }
    before.try_clone(alloc)
}

fn blocks_after(alloc: Global, before: &[Bytes], row: &Row) -> Result<Blocks, NoMemory> {
    let mut after = Vec::new(alloc);
    let mut place = 0u16;
    for block in before {
        after.push(block_after(alloc, block, place, row)?)?;
        place = place.saturating_add(1);
    }
    Ok(Items::from_vec(after))
}

fn is_answer(answer: &ViewAnswer, block: &Bytes, path: &Path, number: u64) -> bool {
    answer.bytes == *block && answer.path == *path && answer.at == number
}

/// Whether the answer for a place is the plain list's block with its path, as of the view's number.
fn answers(alloc: Global, view: &RegionView, plain: &[Bytes], place: u16) -> bool
    requires within { place < region_blocks view.now.shape }
    requires count { length plain.now ≡ 2 ^ view.now.shape.height }
{
    let block = &plain[place as usize];
    let made = view.answer(alloc, place);
    let path = path_of(alloc, view.geometry().height(), plain, place as u32);
    match (&made, &path) {
        (Ok(answer), Ok(path)) => {
            view.block(place) == block && is_answer(answer, block, path, view.number())
        }
        _ => false,
    }
}

/// Whether the view has that number and the blocks of the plain list, with their root and their answers.
fn agrees(alloc: Global, view: &RegionView, plain: &[Bytes], number: u64) -> bool {
    if !has_shape(view.geometry(), plain) {
        return false;
    }
    let mut good = view.number() == number
        && view.blocks() == plain
        && view.root() == root(view.geometry().height(), plain);
    let count = view.geometry().region_blocks() as u16;
    'places: for place in 0..count {
        good = answers(alloc, view, plain, place) && good;
    }
    good
}

/// The root that the row's record names.
fn named_root(row: &Row, reached: Digest) -> Digest {
    if row.names_root {
        reached
    } else {
        leaf_digest(b"another")
    }
}

/// Whether the record was applied where it names the root that its blocks have, and else refused with both roots.
fn is_expected(applied: Result<(), ApplyError>, held: Digest, got: Digest) -> bool {
    match applied {
        Ok(()) => held == got,
        Err(error) => held != got && error == ApplyError::RootDiffers { held, got },
    }
}

/// Applies the record, and says whether what came is what is expected.
fn applies_record(
    alloc: Global,
    view: &mut RegionView,
    rec: &Record,
    held: Digest,
    got: Digest,
) -> bool {
    record_fits(view.geometry(), rec) && is_expected(view.apply(alloc, rec), held, got)
}

/// Applies the record of a row, after which the blocks should be these.
fn applies(alloc: Global, view: &mut RegionView, after: &[Bytes], seq: u64, row: &Row) -> bool {
    if !has_shape(view.geometry(), after) {
        return false;
    }
    let got = root(view.geometry().height(), after);
    let held = named_root(row, got);
    match record_of(alloc, seq, held, row) {
        Ok(rec) => applies_record(alloc, view, &rec, held, got),
        Err(NoMemory) => false,
    }
}

/// Applies a row to the view and to the plain list, which is as it was where the row is refused. Whether what came is
/// what is expected.
fn keeps_pace(
    alloc: Global,
    view: &mut RegionView,
    plain: &mut Blocks,
    seq: u64,
    row: &Row,
) -> bool {
    let before = view.number();
    let number = if row.names_root { seq } else { before };
    match blocks_after(alloc, plain.as_slice(), row) {
        Ok(after) => {
            let is_applied = applies(alloc, view, after.as_slice(), seq, row);
            if row.names_root {
                *plain = after;
            }
            is_applied && agrees(alloc, view, plain.as_slice(), number)
        }
        Err(NoMemory) => false,
    }
}

/// The first row that doesn't come out as expected of a view with number 7 and these blocks, counted from 1; 0 where the
/// view isn't so.
fn wrong_in(alloc: Global, view: &mut RegionView, plain: &mut Blocks, rows: &[u8]) -> Option<u64> {
    if !agrees(alloc, view, plain.as_slice(), 7) {
        return Some(0);
    }
    let mut count = 0u64;
    for row in rows.chunks(9) {
        count = count.saturating_add(1);
        let seq = count.saturating_mul(3).saturating_add(7);
        if !keeps_pace(alloc, view, plain, seq, &row_of(row)) {
            return Some(count);
        }
    }
    None
}

fn wrong_after(alloc: Global, view: &mut RegionView, rows: &[u8]) -> Option<u64> {
    match first_blocks(alloc, view.geometry().region_blocks() as u16) {
        Ok(mut plain) => wrong_in(alloc, view, &mut plain, rows),
        Err(NoMemory) => Some(0),
    }
}

/// A base of number 7.
fn base_of(alloc: Global, geometry: &Geometry) -> Result<Base, NoMemory> {
    let blocks = first_blocks(alloc, geometry.region_blocks() as u16)?;
    let rec = record_of(alloc, 7, leaf_digest(b""), &row_of(b"y......"))?;
    Ok(Base { rec, blocks })
}

/// The view of the base, if it fits.
fn view_of(alloc: Global, geometry: &Geometry, base: &Base) -> Option<RegionView> {
    if has_shape(geometry, base.blocks.as_slice()) {
        RegionView::new(alloc, geometry, base).ok()
    } else {
        None
    }
}

fn first_view(alloc: Global, geometry: &Geometry) -> Option<RegionView> {
    match base_of(alloc, geometry) {
        Ok(base) => view_of(alloc, geometry, &base),
        Err(NoMemory) => None,
    }
}

/// Applies the rows one after another to the view of a base. The first row that doesn't come out as expected.
fn first_wrong(alloc: Global, height: u64, rows: &[u8]) -> Option<u64> {
    let Ok(geometry) = Geometry::new(0, height, 2, 1) else {
        return Some(0);
    };
    match first_view(alloc, &geometry) {
        Some(mut view) => wrong_after(alloc, &mut view, rows),
        None => Some(0),
    }
}

/// For a region of eight blocks.
fn for_eight() -> &'static [u8] {
    b"y2A......y013273..n193867..n38......y38......n......42y......42y......50n5667..41y5667..41\
        n........y........n......03y71......y......03"
}

/// For a region of one block.
fn for_one() -> &'static [u8] {
    b"n05......y05......n......00y......00"
}

#[test]
fn views_keep_pace(rt: HostRuntime) {
    for (height, rows) in [(3, for_eight()), (0, for_one())] {
        let wrong = first_wrong(rt.alloc(), height, rows);
        assert_eq!(rt; wrong, None, "height {height}");
    }
}
