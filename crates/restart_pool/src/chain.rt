//! The chains of a session in a region that go up to a number. They are followed from that number down: where no two
//! records share it, one part at most leads there, and so on from the part before, until a base is reached.
ghost use Rattle.std.specs.Prelude.{◌≡◌, ◌<◌, ◌∷◌, ◌++◌, ℕ, Bool, true, IsTrue, ◌↔◌, ◌&&◌, ◌==◌, nat_lt, length, map, slice_get, IfOk, OnOk, IfSome, MatchOption, Some, None, [], option_copied};
ghost use Rattle.salus_types.specs.declared.records.Record.{Record};
ghost use Rattle.holding_model.specs.Fitting.{has_content};
ghost use Rattle.merkle_region.specs.Tree.{IsAmong};
ghost use Rattle.volume_model.specs.Recovering.{is_of};
ghost use Rattle.restart_pool.specs.Following.{seen, IsLane, NoneStarts, NoneFollows, IsEndAt, later_of, Begins, NotBegun, SomeBegins, NoneBegins, IsTried, AddsOne, AddsLonger, AreLonger};

use crate::index::NumberIndex;
use crate::replay::{Whole, whole_after};
use salus_types::{Base, Geometry, Header, NoMemory, Record, same_record};
use std::alloc::Global;

/// What may form the chains of a session in a region.
#[derive(Clone, Copy, Drop)]
pub struct Lane<'a> {
    pub geometry: Geometry,
    pub session: u64,
    pub region: u16,
    pub bases: &'a [Base],
    pub parts: &'a [Record],
    /// The numbers of the parts.
    pub index: &'a NumberIndex,
}

/// A way down: the number that it has reached, and the places of the parts that lead on from there.
#[derive(Drop)]
pub struct Way {
    pub at: u64,
    pub later: Vec<usize>,
}

fn is_of(session: u64, region: u16, header: &Header) -> bool
    ensures { result ≡ is_of session region header.now }
{
    header.session == session && header.region == region
}

/// The way one part further down.
fn longer_way(alloc: Global, way: &Way, at: u64, place: usize) -> Result<Way, NoMemory>
    ensures { IfOk result (λ longer. (longer.at ≡ at) × (longer.later.items ≡ place ∷ way.now.later.items)) }
{
    let mut later = Vec::with_capacity(alloc, way.later.len() + 1)?;
    later.push(place)?;
    later.extend_from_slice(&way.later)?;
    Ok(Way { at, later })
}

/// The blocks of the chain that begins with this base at the end of the way, if there is one.
fn whole_from(alloc: Global, lane: &Lane, base: &Base, way: &Way) -> Result<Option<Whole>, NoMemory>
    requires lane { IsLane lane.now }
    requires among { IsAmong base.now lane.now.bases.now }
    ensures { IfOk result (λ found. MatchOption found (NotBegun (seen lane.now) way.now base.now) (Begins (seen lane.now) way.now)) }
{
    let header = &base.rec.header;
    if !is_of(lane.session, lane.region, header) {
        return Ok(None);
    }
    if header.seq != way.at {
        return Ok(None);
    }
    whole_after(
        alloc,
        &lane.geometry,
        base,
        lane.parts,
        way.later.as_slice(),
    )
}

/// The blocks of a chain that begins at the end of the way, if there is one.
fn whole_way(alloc: Global, lane: &Lane, way: &Way) -> Result<Option<Whole>, NoMemory>
    requires { IsLane lane.now }
    ensures { IfOk result (λ found. MatchOption found (NoneStarts (seen lane.now) way.now.at (later_of (seen lane.now) way.now)) (Begins (seen lane.now) way.now)) }
{
    'bases: for base in lane.bases {
        if let Some(whole) = whole_from(alloc, lane, base, way)? {
            return Ok(Some(whole));
        }
    }
    Ok(None)
}

/// The blocks of a chain that begins at the end of one of the ways, if there is one.
fn any_whole(alloc: Global, lane: &Lane, ways: &[Way]) -> Result<Option<Whole>, NoMemory>
    requires { IsLane lane.now }
    ensures { IfOk result (λ found. MatchOption found (NoneBegins (seen lane.now) ways.now) (SomeBegins (seen lane.now) ways.now)) }
{
    'ways: for way in ways {
        if let Some(whole) = whole_way(alloc, lane, way)? {
            return Ok(Some(whole));
        }
    }
    Ok(None)
}

/// Whether a part of this session and region can be a link of a chain.
fn may_link(lane: &Lane, rec: &Record) -> bool
    requires { rec.now.run ≡ None }
    ensures { result ≡ is_of lane.now.session lane.now.region rec.now.header && nat_lt rec.now.header.previous rec.now.header.seq && has_content rec.now.writes rec.now.run }
{
    let header = &rec.header;
    is_of(lane.session, lane.region, header)
        && header.previous < header.seq
        && !rec.writes.is_empty()
}

/// Whether the part is the one that was tried before.
fn was_tried(rec: &Record, tried: Option<&Record>) -> bool
    ensures { IsTrue result → option_copied tried.entry ≡ Some rec.now }
{
    match tried {
        Some(other) => same_record(rec, other),
        None => false,
    }
}

/// Adds the way one part further down, by the part at this place, which isn't tried again if it equals the one tried
/// before it. Gives the part now tried.
fn add_one<'a>(
    alloc: Global,
    lane: &Lane<'a>,
    way: &Way,
    place: usize,
    tried: Option<&'a Record>,
    longer: &mut Vec<Way>,
) -> Result<Option<&'a Record>, NoMemory>
    requires lane { IsLane lane.now }
    requires within { place < length lane.now.parts.now }
    requires here { (rec : Record) → slice_get lane.now.parts.now place ≡ Some rec → rec.header.seq ≡ way.now.at }
    requires tried { IsTried (seen lane.now) way.now longer.old.items (option_copied tried) }
    ensures { IfOk result (λ next. (rec : Record) → slice_get lane.now.parts.now place ≡ Some rec → AddsOne (seen lane.now) way.now rec longer.old.items longer.new.items (option_copied next)) }
{
    let rec = &lane.parts[place];
    if !may_link(lane, rec) {
        return Ok(tried);
    }
    if was_tried(rec, tried) {
        return Ok(tried);
    }
    longer.push(longer_way(alloc, way, rec.header.previous, place)?)?;
    Ok(Some(rec))
}

/// Adds the ways one part further down.
fn add_longer(alloc: Global, lane: &Lane, way: &Way, longer: &mut Vec<Way>) -> Result<(), NoMemory>
    requires { IsLane lane.now }
    ensures { OnOk result (AddsLonger (seen lane.now) way.now longer.old.items longer.new.items) }
{
    let mut tried = None;
    let mut next = lane.index.last(way.at);
    'places: while let Some(place) = next {
        tried = add_one(alloc, lane, way, place, tried, longer)?;
        next = lane.index.before(place);
    }
    Ok(())
}

/// All ways one part further down.
fn longer_ways(alloc: Global, lane: &Lane, ways: &[Way]) -> Result<Vec<Way>, NoMemory>
    requires { IsLane lane.now }
    ensures { IfOk result (λ longer. AreLonger (seen lane.now) ways.now longer.items) }
{
    let mut longer = Vec::new(alloc);
    'ways: for way in ways {
        add_longer(alloc, lane, way, &mut longer)?;
    }
    Ok(longer)
}

/// The blocks of a chain that goes up to exactly the number `x`: None exactly where there is no such chain.
pub fn chain_to(alloc: Global, lane: &Lane, x: u64) -> Result<Option<Whole>, NoMemory>
    requires { IsLane lane.now }
    ensures { IfOk result (λ found. MatchOption found (NoneFollows (seen lane.now) x []) (IsEndAt (seen lane.now) x)) }
{
    let mut ways = vec![in alloc;
        Way {
            at: x,
            later: Vec::new(alloc)
        },
    ]?;
    'down: while !ways.is_empty() {
        if let Some(whole) = any_whole(alloc, lane, ways.as_slice())? {
            return Ok(Some(whole));
        }
        ways = longer_ways(alloc, lane, ways.as_slice())?;
    }
    Ok(None)
}
