ghost use Rattle.std.specs.Prelude.{◌≡◌, ◌≤◌, ◌<◌, ◌==◌, ◌↔◌, length, filter, IsTrue};
ghost use Rattle.std.specs.List.{list_all};
ghost use Rattle.client_tag.specs.Spelling.{size_of};
ghost use Rattle.holding_model.specs.Changing.{is_open_base};
ghost use Rattle.datanode_checkpoint.specs.Folds.{CanBeFolded, part_fits, base_fits};

use salus_types::{Base, Blocks, Held, PlaceWrite, Record};

// How long each block is; 0 where there is none.
fn size_of(blocks: &Blocks) -> usize
    ensures { result ≡ size_of blocks.now }
{
    match blocks.as_slice() {
        [] => 0,
        [block, ..] => block.len(),
    }
}

// Whether the block of each write is so long.
fn have_size(writes: &[PlaceWrite], size: usize) -> bool
    ensures { result ≡ list_all (λ w. length w.bytes == size) writes.now }
{
    writes.iter().all(|write| write.bytes.len() == size)
}

// Whether the part is of another session, or has blocks of this length.
fn part_fits(session: u64, size: usize, rec: &Record) -> bool
    ensures { result ≡ part_fits session size rec.now }
{
    rec.header.session != session || have_size(rec.writes.as_slice(), size)
}

// Whether the parts of the open session have blocks of this length.
fn parts_fit(held: &Held, size: usize) -> bool
    ensures { result ≡ list_all (λ rec. part_fits held.now.session size rec) held.now.parts }
{
    let session = held.session;
    held.parts
        .as_slice()
        .iter()
        .all(|rec| part_fits(session, size, rec))
}

// Whether the base is of another session, or the parts of the open session have blocks as long as its own.
fn base_fits(held: &Held, base: &Base) -> bool
    ensures { result ≡ base_fits held.now base.now }
{
    base.rec.header.session != held.session || parts_fit(held, size_of(&base.blocks))
}

// Whether that is so of each base.
fn bases_fit(held: &Held) -> bool
    ensures { result ≡ list_all (λ base. base_fits held.now base) held.now.bases }
{
    held.bases
        .as_slice()
        .iter()
        .all(|base| base_fits(held, base))
}

// How many bases the open session has.
fn count_open(held: &Held) -> usize
    ensures { result ≡ length (filter (λ base. is_open_base held.now base) held.now.bases) }
{
    let mut count = 0;
    'bases: for base in held.bases.as_slice() {
        if base.rec.header.session == held.session {
            count += 1;
        }
    }
    count
}

/// Whether the open session has one base, and parts with blocks of its blocks' length.
pub fn can_fold(held: &Held) -> bool
    ensures { IsTrue result ↔ CanBeFolded held.now }
{
    count_open(held) == 1 && bases_fit(held)
}
