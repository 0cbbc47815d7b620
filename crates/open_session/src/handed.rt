ghost use Rattle.std.specs.Prelude.{◌≡◌, ◌<◌, ◌==◌, ◌&&◌, [], List, ℕ, Bool, Option, None, IfOk};
ghost use Rattle.salus_types.specs.Volume.{regions};
ghost use Rattle.salus_types.specs.declared.records.Record.{Record as AnyRecord};
ghost use Rattle.client_tag.specs.Ranges.{IsRecord};
ghost use Rattle.replica_rules.specs.Rules.{by_claim, by_part, by_vote};
ghost use Rattle.region_replica.specs.Serving.{Serving};
ghost use Rattle.pipelined_commit.specs.Standing.{SamePlace};
ghost use Rattle.open_session.specs.Kept.{KeepsRecords, StaysOwn, kept_of};
ghost use Rattle.open_session.specs.Applying.{AreNewest};
ghost use Rattle.open_session.specs.Turning.{IsTurn};

use crate::answers::answer_due;
use crate::claims::claim_all;
use crate::folding::fold;
use crate::parts::take_in;
use crate::turn::Turn;
use pipelined_commit::Leader;
use region_replica::RegionReplica;
use salus_message::{Committed, Prepared};
use salus_types::{Geometry, Items, NoMemory, NodeName, Out, Record};
use std::alloc::Global;

/// Whether a vote is of the session and of the sender's region.
fn counts_vote(session: u64, from: NodeName, vote: &Prepared) -> bool
    ensures { result ≡ (vote.now.session == session) && (vote.now.region == from.region) }
{
    vote.session == session && vote.region == from.region
}

/// Whether a claim is of the session.
fn counts_claim(session: u64, claim: &Committed) -> bool
    ensures { result ≡ (claim.now.session == session) }
{
    claim.session == session
}

/// Takes the vote of a node, and claims what can be claimed then: the messages.
pub fn take_vote(
    alloc: Global,
    geometry: &Geometry,
    session: u64,
    leader: &mut Leader,
    from: NodeName,
    vote: &Prepared,
) -> Result<Vec<Out>, NoMemory>
    requires shape { leader.old.shape ≡ geometry.now }
    requires region { from.region < regions geometry.now }
    requires replica { from.replica < geometry.now.replicas }
    ensures place { SamePlace leader.old leader.new }
    ensures turn { (s : Serving) (parts : List AnyRecord) (begun : Option ℕ) (whole : Bool) → s.replica.session ≡ session → IfOk result (λ outs. IsTurn (by_vote geometry.now from vote.now) (kept_of s leader.old parts begun whole) (kept_of s leader.new parts begun whole) (record { outs = outs.items; added = 0; fold = None })) }
{
    let mut outs = Vec::new(alloc);
    if !counts_vote(session, from, vote) {
        return Ok(outs);
    }
    leader.vote(from, vote.seq, vote.root);
    claim_all(alloc, &mut outs, geometry, session, leader)?;
    Ok(outs)
}

/// Takes the claim of a node, claims what can be claimed then, and takes out the parts that can be folded: the messages, and
/// the number up to which those parts are.
pub fn take_claim(
    alloc: Global,
    geometry: &Geometry,
    session: u64,
    whole: bool,
    leader: &mut Leader,
    parts: &mut Vec<Record>,
    from: NodeName,
    claim: &Committed,
) -> Result<(Vec<Out>, Option<u64>), NoMemory>
    requires shape { leader.old.shape ≡ geometry.now }
    requires region { from.region < regions geometry.now }
    requires replica { from.replica < geometry.now.replicas }
    ensures place { SamePlace leader.old leader.new }
    ensures turn { (s : Serving) (begun : Option ℕ) → s.replica.session ≡ session → IfOk result (λ told. IsTurn (by_claim geometry.now from claim.now) (kept_of s leader.old parts.old.items begun whole) (kept_of s leader.new parts.new.items begun whole) (record { outs = told.0.items; added = 0; fold = told.1 })) }
{
    let mut outs = Vec::new(alloc);
    if !counts_claim(session, claim) {
        return Ok((outs, None));
    }
    leader.claim(from, claim.front);
    claim_all(alloc, &mut outs, geometry, session, leader)?;
    let folded = fold(whole, leader, parts);
    Ok((outs, folded))
}

/// Takes a part from the client, answers the asks that are due then, and claims what can be claimed.
pub fn hand_part(
    alloc: Global,
    geometry: &Geometry,
    session: u64,
    replica: &mut RegionReplica,
    leader: &mut Leader,
    parts: &mut Vec<Record>,
    rec: Record,
) -> Result<Turn, NoMemory>
    requires shape { replica.old.shape ≡ geometry.now }
    requires session { replica.old.replica.session ≡ session }
    requires led_shape { leader.old.shape ≡ geometry.now }
    requires led_region { leader.old.region ≡ replica.old.region }
    requires rec { IsRecord rec }
    requires records { KeepsRecords replica.old }
    ensures stays { StaysOwn replica.old replica.new }
    ensures led { SamePlace leader.old leader.new }
    ensures turn { (begun : Option ℕ) (whole : Bool) → IfOk result (IsTurn (by_part geometry.now replica.old.region rec) (kept_of replica.old leader.old parts.old.items begun whole) (kept_of replica.new leader.new parts.new.items begun whole)) }
    ensures newest { IfOk result (λ turn. AreNewest replica.old parts.new.items turn.added) }
{
    let mut outs = Vec::new(alloc);
    let added = take_in(alloc, geometry, replica, leader, parts, &mut outs, rec)?;
    answer_due(alloc, &mut outs, replica)?;
    claim_all(alloc, &mut outs, geometry, session, leader)?;
    Ok(Turn {
        outs: Items::from_vec(outs),
        added,
        fold: None,
    })
}
