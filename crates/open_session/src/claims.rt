ghost use Rattle.std.specs.Prelude.{◌≡◌, ◌++◌, flat_map, OnOk};
ghost use Rattle.salus_types.specs.declared.records.Header.{Header as AnyHeader};
ghost use Rattle.replica_rules.specs.Leading.{Leader as AnyLeader, all_certified, front_after};
ghost use Rattle.pipelined_commit.specs.Standing.{Follows, SamePlace, StandsFor};
ghost use Rattle.open_session.specs.Claiming.{claims_out};

use pipelined_commit::Leader;
use posting::{post, post_to_all};
use salus_message::{Committed, Message};
use salus_types::{Geometry, NoMemory, Out, Sender};
use std::alloc::Global;

/// Posts the claim of a front to the client, and to every node in order.
pub fn post_claims(
    alloc: Global,
    outs: &mut Vec<Out>,
    geometry: &Geometry,
    session: u64,
    front: u64,
) -> Result<(), NoMemory>
    ensures { OnOk result (outs.new.items ≡ outs.old.items ++ claims_out geometry.now session front) }
{
    let claim = Message::Committed(Committed { session, front });
    post(alloc, outs, Sender::Client, &claim)?;
    post_to_all(alloc, outs, geometry, &claim)
}

/// Claims all that can be claimed, by rising numbers.
pub fn claim_all(
    alloc: Global,
    outs: &mut Vec<Out>,
    geometry: &Geometry,
    session: u64,
    leader: &mut Leader,
) -> Result<(), NoMemory>
    requires { leader.old.shape ≡ geometry.now }
    ensures place { SamePlace leader.old leader.new }
    ensures front { OnOk result (Follows (λ l. record l { front = front_after l.front (all_certified geometry.now l) }) leader.old leader.new) }
    ensures outs { (l : AnyLeader) → StandsFor leader.old l → OnOk result (outs.new.items ≡ outs.old.items ++ flat_map (λ (h : AnyHeader). claims_out geometry.now session h.seq) (all_certified geometry.now l)) }
{
    'claims: while let Some(front) = leader.advance() {
        post_claims(alloc, outs, geometry, session, front)?;
    }
    Ok(())
}
