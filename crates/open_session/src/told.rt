ghost use Rattle.std.specs.Prelude.{◌≡◌, ◌==◌, ◌&&◌, ◌++◌, ◌∷◌, [], Bool, List, None, Option, if◌then◌else◌, ℕ, IfOk, OnOk};
ghost use Rattle.salus_types.specs.declared.records.Record.{Record as AnyRecord};
ghost use Rattle.replica_rules.specs.Rules.{by_ask, by_dump, by_tick, is_at_start};
ghost use Rattle.pipelined_commit.specs.Standing.{KeptLeader};
ghost use Rattle.open_session.specs.Kept.{KeptSession, StaysOwn, kept_of};
ghost use Rattle.open_session.specs.Claiming.{claims_out};
ghost use Rattle.open_session.specs.Asking.{dump_out};
ghost use Rattle.open_session.specs.Turning.{IsTurn};

use crate::answers::{post_answer, take_ask};
use crate::ballot::post_votes_above;
use crate::claims::post_claims;
use pipelined_commit::Leader;
use posting::encode_dumped;
use region_replica::RegionReplica;
use region_view::RegionView;
use salus_message::{Ask, Dump};
use salus_types::{Geometry, Items, NoMemory, Out, Record, Sender};
use std::alloc::Global;

/// Takes an ask: the message that answers it, where it can be answered at once.
pub fn ask_outs(alloc: Global, replica: &mut RegionReplica, ask: Ask) -> Result<Vec<Out>, NoMemory>
    ensures stays { StaysOwn replica.old replica.new }
    ensures turn { (leader : KeptLeader) (parts : List AnyRecord) (begun : Option ℕ) (whole : Bool) → IfOk result (λ outs. IsTurn (by_ask replica.old.shape replica.old.region ask) (kept_of replica.old leader parts begun whole) (kept_of replica.new leader parts begun whole) (record { outs = outs.items; added = 0; fold = None })) }
{
    let mut outs = Vec::new(alloc);
    match take_ask(alloc, replica, ask)? {
        None => Ok(outs),
        Some(answer) => {
            post_answer(alloc, &mut outs, answer)?;
            Ok(outs)
        }
    }
}

/// Whether the blocks of that session and that region are asked for.
fn is_dumped(session: u64, region: u16, dump: &Dump) -> bool
    ensures { result ≡ (dump.now.session == session) && (dump.now.region == region) }
{
    dump.session == session && dump.region == region
}

/// Posts the region's blocks to the client.
fn post_dump(
    alloc: Global,
    outs: &mut Vec<Out>,
    region: u16,
    session: u64,
    view: &RegionView,
) -> Result<(), NoMemory>
    ensures { OnOk result (outs.new.items ≡ outs.old.items ++ dump_out session region view.now.view ∷ []) }
{
    let geometry = view.geometry(); // at most 1,024 blocks of at most 4,096 bytes
    let _size = geometry.block_size();
    let _height = geometry.height();
    let bytes = encode_dumped(alloc, session, region, view.number(), view.blocks())?;
    outs.push(Out {
        to: Sender::Client,
        bytes: Items::from_vec(bytes),
    })?;
    Ok(())
}

/// The message with the region's blocks, where they are asked for of that session and that region.
pub fn dump_outs(
    alloc: Global,
    region: u16,
    session: u64,
    view: &RegionView,
    dump: &Dump,
) -> Result<Vec<Out>, NoMemory>
    ensures { (kept : KeptSession) → view.now ≡ record { shape = kept.shape; view = kept.replica.view } → kept.replica.session ≡ session → IfOk result (λ outs. IsTurn (by_dump region dump.now) kept kept (record { outs = outs.items; added = 0; fold = None })) }
{
    let mut outs = Vec::new(alloc);
    if !is_dumped(session, region, dump) {
        return Ok(outs);
    }
    post_dump(alloc, &mut outs, region, session, view)?;
    Ok(outs)
}

/// Whether the leader has claimed nothing yet, as far as is known.
fn is_at_start(front: u64, begun: Option<u64>) -> bool
    ensures { result ≡ is_at_start front begun }
{
    match begun {
        None => false,
        Some(number) => front == number,
    }
}

/// Posts the claim of the front, unless nothing has been claimed yet.
fn post_front(
    alloc: Global,
    outs: &mut Vec<Out>,
    geometry: &Geometry,
    session: u64,
    front: u64,
    begun: Option<u64>,
) -> Result<(), NoMemory>
    ensures { OnOk result (outs.new.items ≡ outs.old.items ++ (if is_at_start front begun then [] else claims_out geometry.now session front)) }
{
    if !is_at_start(front, begun) {
        post_claims(alloc, outs, geometry, session, front)?;
    }
    Ok(())
}

/// The votes for the parts that aren't committed, and the claim of the front.
pub fn tick_outs(
    alloc: Global,
    geometry: &Geometry,
    session: u64,
    leader: &Leader,
    parts: &[Record],
    begun: Option<u64>,
) -> Result<Vec<Out>, NoMemory>
    requires { leader.now.shape ≡ geometry.now }
    ensures { (s : KeptSession) → s.leader ≡ leader.now → s.parts ≡ parts.now → s.begun ≡ begun → s.replica.session ≡ session → IfOk result (λ outs. IsTurn (by_tick geometry.now) s s (record { outs = outs.items; added = 0; fold = None })) }
{
    let mut outs = Vec::new(alloc);
    post_votes_above(alloc, &mut outs, geometry, parts, leader.committed())?;
    post_front(alloc, &mut outs, geometry, session, leader.front(), begun)?;
    Ok(outs)
}
