ghost use Rattle.std.specs.Prelude.{◌≡◌, ◌++◌, [], Bool, Option, None, IfOk, OnOk, if◌then◌else◌, ℕ};
ghost use Rattle.client_tag.specs.Ranges.{IsRecord};
ghost use Rattle.pipelined_commit.specs.Standing.{SamePlace};
ghost use Rattle.open_session.specs.Kept.{KeepsRecords, StaysOwn, kept_of};
ghost use Rattle.open_session.specs.Applying.{AreNewest, CanBeTaken, IsStored};
ghost use Rattle.open_session.specs.Turning.{IsTurn, by_answer};
ghost use Rattle.open_session.specs.Voting.{ballots};

use crate::ballot::{Ballot, post_ballot, post_votes};
use crate::same::is_held;
use crate::turns::{hold_all, take_turns};
use pipelined_commit::Leader;
use region_replica::{PartAnswer, RegionReplica};
use salus_types::{Geometry, NoMemory, Out, Record};
use std::alloc::Global;

/// Adds a part that was applied, and behind it the kept parts that are applied after it; each is noted and voted for. It tells
/// how many were added.
fn add_all(
    alloc: Global,
    geometry: &Geometry,
    replica: &mut RegionReplica,
    leader: &mut Leader,
    parts: &mut Vec<Record>,
    outs: &mut Vec<Out>,
    first: Record,
) -> Result<usize, NoMemory>
    requires shape { replica.old.shape ≡ geometry.now }
    requires region { leader.old.region ≡ replica.old.region }
    requires first { CanBeTaken replica.old first }
    requires records { KeepsRecords replica.old }
    ensures stays { StaysOwn replica.old replica.new }
    ensures led { SamePlace leader.old leader.new }
    ensures stored { IfOk result (IsStored replica.old first replica.new leader.old leader.new parts.old.items parts.new.items outs.old.items outs.new.items) }
{
    let _regions = geometry.regions(); // at most 16
    let mut taken = take_turns(alloc, replica, first)?;
    let count = taken.len();
    hold_all(leader, taken.as_slice());
    post_votes(alloc, outs, geometry, taken.as_slice())?;
    parts.append(&mut taken)?;
    Ok(count)
}

/// Votes again for a part, where it is held.
fn vote_again(
    alloc: Global,
    geometry: &Geometry,
    outs: &mut Vec<Out>,
    ballot: Ballot,
    held: bool,
) -> Result<usize, NoMemory>
    ensures none { IfOk result (λ count. count ≡ 0) }
    ensures outs { OnOk result (outs.new.items ≡ outs.old.items ++ (if held then ballots geometry.now ballot else [])) }
{
    if held {
        post_ballot(alloc, outs, geometry, ballot)?;
    }
    Ok(0)
}

/// Takes a part: it is added in its turn, and so are the kept parts that follow; one that is held already is voted for again.
/// It tells how many were added.
pub fn take_in(
    alloc: Global,
    geometry: &Geometry,
    replica: &mut RegionReplica,
    leader: &mut Leader,
    parts: &mut Vec<Record>,
    outs: &mut Vec<Out>,
    rec: Record,
) -> Result<usize, NoMemory>
    requires shape { replica.old.shape ≡ geometry.now }
    requires region { leader.old.region ≡ replica.old.region }
    requires rec { IsRecord rec }
    requires records { KeepsRecords replica.old }
    requires outs { outs.old.items ≡ [] }
    ensures stays { StaysOwn replica.old replica.new }
    ensures led { SamePlace leader.old leader.new }
    ensures turn { (begun : Option ℕ) (whole : Bool) → IfOk result (λ n. IsTurn (by_answer geometry.now replica.old.region rec) (kept_of replica.old leader.old parts.old.items begun whole) (kept_of replica.new leader.new parts.new.items begun whole) (record { outs = outs.new.items; added = n; fold = None })) }
    ensures newest { IfOk result (AreNewest replica.old parts.new.items) }
{
    let ballot = Ballot::of(&rec);
    let held = is_held(parts.as_slice(), &rec);
    match replica.take_part(alloc, rec)? {
        PartAnswer::Next(rec) => add_all(alloc, geometry, replica, leader, parts, outs, rec),
        PartAnswer::Known => vote_again(alloc, geometry, outs, ballot, held),
        PartAnswer::Foreign => Ok(0),
        PartAnswer::Early => Ok(0),
        PartAnswer::Full => Ok(0),
        PartAnswer::Differs { .. } => Ok(0),
    }
}
