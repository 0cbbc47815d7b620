ghost use Rattle.std.specs.Prelude.{◌≡◌, ◌<◌, ℕ, IfOk, Option};
ghost use Rattle.std.specs.Option.{ForSome};
ghost use Rattle.salus_types.specs.Volume.{Shape, regions};
ghost use Rattle.salus_types.specs.declared.records.Held.{Held as AnyHeld};
ghost use Rattle.client_tag.specs.Ranges.{IsRecord};
ghost use Rattle.datanode_store.specs.Meaning.{CanBeKept};
ghost use Rattle.replica_rules.specs.Rules.{by_ask, by_claim, by_dump, by_part, by_tick, by_vote, in_session};
ghost use Rattle.replica_node.specs.Serving.{Serves};
ghost use Rattle.replica_node.specs.Planning.{IsPlanned};

use crate::planned::Planned;
use open_session::Session;
use salus_message::{Ask, Committed, Dump, Prepared};
use salus_types::{Geometry, Items, NoMemory, NodeName, Record};
use std::alloc::Global;

/// A part, by the rule of the open session; without one it is ignored.
pub fn plan_part(
    alloc: Global,
    session: &mut Option<Session>,
    rec: Record,
) -> Result<Planned, NoMemory>
    requires { IsRecord rec }
    ensures { (shape : Shape) (g : ℕ) (held : AnyHeld) → CanBeKept held → Serves shape g held session.old → IfOk result (IsPlanned shape g held session.old session.new (λ node. in_session node (by_part shape g rec))) }
{
    match session {
        None => Ok(Planned::Told(Items::new(alloc))),
        Some(open) => match open.take_part(alloc, rec) {
            Ok(turn) => Ok(Planned::Turned(turn)),
            Err(error) => Err(error),
        },
    }
}

/// An ask, in the same way.
pub fn plan_ask(alloc: Global, session: &mut Option<Session>, ask: Ask) -> Result<Planned, NoMemory>
    ensures { (shape : Shape) (g : ℕ) (held : AnyHeld) → CanBeKept held → Serves shape g held session.old → IfOk result (IsPlanned shape g held session.old session.new (λ node. in_session node (by_ask shape g ask))) }
{
    match session {
        None => Ok(Planned::Told(Items::new(alloc))),
        Some(open) => match open.take_ask(alloc, ask) {
            Ok(turn) => Ok(Planned::Turned(turn)),
            Err(error) => Err(error),
        },
    }
}

/// A client that asks for the blocks of the region, in the same way.
pub fn plan_dump(alloc: Global, session: &Option<Session>, dump: &Dump) -> Result<Planned, NoMemory>
    ensures { (shape : Shape) (g : ℕ) (held : AnyHeld) → CanBeKept held → Serves shape g held session.now → IfOk result (IsPlanned shape g held session.now session.now (λ node. in_session node (by_dump g dump.now))) }
{
    match session {
        None => Ok(Planned::Told(Items::new(alloc))),
        Some(open) => match open.dump(alloc, dump) {
            Ok(turn) => Ok(Planned::Turned(turn)),
            Err(error) => Err(error),
        },
    }
}

/// The vote of a node of the volume, in the same way.
pub fn plan_vote(
    alloc: Global,
    geometry: &Geometry,
    session: &mut Option<Session>,
    from: NodeName,
    vote: &Prepared,
) -> Result<Planned, NoMemory>
    requires shape { ForSome session.old (λ kept. kept.shape ≡ geometry.now) }
    requires region { from.region < regions geometry.now }
    requires replica { from.replica < geometry.now.replicas }
    ensures { (g : ℕ) (held : AnyHeld) → CanBeKept held → Serves geometry.now g held session.old → IfOk result (IsPlanned geometry.now g held session.old session.new (λ node. in_session node (by_vote geometry.now from vote.now))) }
{
    match session {
        None => Ok(Planned::Told(Items::new(alloc))),
        Some(open) => match open.vote(alloc, from, vote) {
            Ok(turn) => Ok(Planned::Turned(turn)),
            Err(error) => Err(error),
        },
    }
}

/// The claim of a node of the volume, in the same way.
pub fn plan_claim(
    alloc: Global,
    geometry: &Geometry,
    session: &mut Option<Session>,
    from: NodeName,
    claim: &Committed,
) -> Result<Planned, NoMemory>
    requires shape { ForSome session.old (λ kept. kept.shape ≡ geometry.now) }
    requires region { from.region < regions geometry.now }
    requires replica { from.replica < geometry.now.replicas }
    ensures { (g : ℕ) (held : AnyHeld) → CanBeKept held → Serves geometry.now g held session.old → IfOk result (IsPlanned geometry.now g held session.old session.new (λ node. in_session node (by_claim geometry.now from claim.now))) }
{
    match session {
        None => Ok(Planned::Told(Items::new(alloc))),
        Some(open) => match open.claim(alloc, from, claim) {
            Ok(turn) => Ok(Planned::Turned(turn)),
            Err(error) => Err(error),
        },
    }
}

/// A tick, in the same way.
pub fn plan_tick(alloc: Global, session: &Option<Session>) -> Result<Planned, NoMemory>
    ensures { (shape : Shape) (g : ℕ) (held : AnyHeld) → CanBeKept held → Serves shape g held session.now → IfOk result (IsPlanned shape g held session.now session.now (λ node. in_session node (by_tick shape))) }
{
    match session {
        None => Ok(Planned::Told(Items::new(alloc))),
        Some(open) => match open.tick(alloc) {
            Ok(turn) => Ok(Planned::Turned(turn)),
            Err(error) => Err(error),
        },
    }
}
