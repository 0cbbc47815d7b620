ghost use Rattle.std.specs.Prelude.{◌≡◌, ◌==◌, ◌&&◌, filter, find, length, nat_le, if◌then◌else◌, IfErr, IfOk, IfSome, IsTrue, OnErr, OnOk, Option};
ghost use Rattle.std.specs.Option.{option_copied};
ghost use Rattle.std.specs.List.{list_all};
ghost use Rattle.holding_model.specs.Fitting.{has_content, has_shape};
ghost use Rattle.volume_model.specs.Recovering.{is_of};
ghost use Rattle.replica_rules.specs.Views.{has_right_shape};
ghost use Rattle.replica_rules.specs.Nodes.{begun_with, stands_for};
ghost use Rattle.open_session.specs.Opening.{IsTried, IsTriedAll, IsTriedNext, is_whole_of, open_base_of};

use region_replica::has_right_shape;
use region_view::{ApplyError, RegionView};
use salus_types::{Base, Bytes, Geometry, NoMemory, Record, TryClone};
use std::alloc::Global;

fn all_sized(blocks: &[Bytes], size: u32) -> bool
    ensures { result ≡ list_all (λ x. length x == size) blocks.now }
{
    blocks.iter().all(|block| block.len() == size as usize)
}

/// Whether there is one block for each place, each of the volume's length.
#[tactic(auto, unfolding(holding_model::specs::Fitting::has_shape))]
fn has_shape(geometry: &Geometry, blocks: &[Bytes]) -> bool
    ensures { result ≡ has_shape geometry.now blocks.now }
{
    blocks.len() == geometry.region_blocks() as usize && all_sized(blocks, geometry.block_size())
}

/// Whether a base counts for a session in a region: it is of both, and has a block for each place.
fn stands_for(geometry: &Geometry, region: u16, session: u64, base: &Base) -> bool
    ensures { result ≡ stands_for geometry.now region session base.now }
{
    base.rec.header.session == session
        && base.rec.header.region == region
        && has_shape(geometry, base.blocks.as_slice())
}

/// The first base that counts for a session.
fn find_base<'a>(
    geometry: &Geometry,
    region: u16,
    session: u64,
    bases: &'a [Base],
) -> Option<&'a Base>
    ensures { option_copied result ≡ find (λ base. stands_for geometry.now region session base) bases.now }
{
    bases
        .iter()
        .find(|base| stands_for(geometry, region, session, base))
}

/// The first base that counts for a session; session 0 has none.
pub fn open_base<'a>(
    geometry: &Geometry,
    region: u16,
    session: u64,
    bases: &'a [Base],
) -> Option<&'a Base>
    ensures { option_copied result ≡ open_base_of geometry.now region session bases.now }
{
    if session == 0 {
        return None;
    }
    find_base(geometry, region, session, bases)
}

/// The number with which a session began, where its base tells it: a base that was folded has the content of a part.
pub fn begun_with(base: &Base) -> Option<u64>
    ensures { result ≡ begun_with base.now }
{
    if base.rec.writes.is_empty() != base.rec.run.is_none() {
        None
    } else {
        Some(base.rec.header.seq)
    }
}

/// Whether the part is of the session, and goes on from the view's number.
fn can_follow(geometry: &Geometry, region: u16, session: u64, number: u64, rec: &Record) -> bool
    ensures { result ≡ (rec.now.header.session == session) && (rec.now.header.region == region) && has_right_shape geometry.now region rec.now && (rec.now.header.previous == number) }
{
    rec.header.session == session
        && rec.header.region == region
        && has_right_shape(geometry, region, rec)
        && rec.header.previous == number
}

/// Applies a part, where it is of the session and goes on from the view: whether it does.
fn try_part(
    alloc: Global,
    view: &mut RegionView,
    region: u16,
    session: u64,
    rec: &Record,
) -> Result<bool, NoMemory>
    ensures shape { view.new.shape ≡ view.old.shape }
    ensures tried { IfOk result (IsTried region session view.old rec.now view.new) }
{
    let geometry = *view.geometry();
    if !can_follow(&geometry, region, session, view.number(), rec) {
        return Ok(false);
    }
    match view.apply(alloc, rec) {
        Ok(()) => Ok(true),
        Err(ApplyError::RootDiffers { .. }) => Ok(false),
        Err(ApplyError::NoMemory) => Err(NoMemory),
    }
}

/// Applies a part, where it is of the session and goes on from the view, and then adds a copy of it.
fn try_next(
    alloc: Global,
    view: &mut RegionView,
    region: u16,
    session: u64,
    rec: &Record,
    tried: &mut Vec<Record>,
) -> Result<(), NoMemory>
    ensures shape { view.new.shape ≡ view.old.shape }
    ensures tried { OnOk result (IsTriedNext region session view.old rec.now view.new tried.old.items tried.new.items) }
{
    let follows = try_part(alloc, view, region, session, rec)?;
    if !follows {
        return Ok(());
    }
    let copy = rec.try_clone(alloc)?;
    tried.push(copy)?;
    Ok(())
}

/// Applies the parts of a session, in the order held, that go on from the view: copies of them.
pub fn try_all(
    alloc: Global,
    view: &mut RegionView,
    region: u16,
    session: u64,
    parts: &[Record],
) -> Result<Vec<Record>, NoMemory>
    ensures shape { view.new.shape ≡ view.old.shape }
    ensures tried { IfOk result (λ tried. IsTriedAll region session view.old parts.now view.new tried.items) }
{
    let mut tried = Vec::new(alloc);
    'parts: for rec in parts {
        try_next(alloc, view, region, session, rec, &mut tried)?;
    }
    Ok(tried)
}

/// How many parts are of a session.
fn count_parts(session: u64, parts: &[Record]) -> usize
    ensures { result ≡ length (filter (λ rec. rec.header.session == session) parts.now) }
{
    parts
        .iter()
        .filter(|rec| rec.header.session == session)
        .count()
}

/// How many bases are of a session.
fn count_bases(session: u64, bases: &[Base]) -> usize
    ensures { result ≡ length (filter (λ base. base.rec.header.session == session) bases.now) }
{
    bases
        .iter()
        .filter(|base| base.rec.header.session == session)
        .count()
}

/// Whether these parts are all that are held of a session, and it has one base.
pub fn is_whole(session: u64, tried: &[Record], bases: &[Base], parts: &[Record]) -> bool
    ensures { result ≡ is_whole_of session (length tried.now) bases.now parts.now }
{
    tried.len() == count_parts(session, parts) && count_bases(session, bases) == 1
}
