ghost use Rattle.std.specs.Prelude.{◌≡◌, ◌<◌, ℕ, [], IfOk, IsTrue, OnOk, Ok, Err, Result};
ghost use Rattle.salus_types.specs.Outcome.{Gives};
ghost use Rattle.salus_message.specs.declared.wire.Message.{Message as AnyMessage};
ghost use Rattle.salus_message.specs.Reading.{message_fault};
ghost use Rattle.std.specs.Option.{ForSome};
ghost use Rattle.salus_types.specs.declared.records.Held.{Held as AnyHeld};
ghost use Rattle.salus_types.specs.Volume.{regions};
ghost use Rattle.salus_message.specs.Ranges.{IsMessage};
ghost use Rattle.datanode_store.specs.Meaning.{CanBeKept};
ghost use Rattle.replica_rules.specs.Rules.{Receives, from_client, from_node, from_sender, is_node, planned};
ghost use Rattle.replica_node.specs.Serving.{Serves};
ghost use Rattle.replica_node.specs.Planning.{IsPlanned};

use crate::held_rules::{plan_gather, plan_stage};
use crate::opening::plan_switch;
use crate::planned::Planned;
use crate::session_rules::{plan_ask, plan_claim, plan_dump, plan_part, plan_vote};
use crate::telling::ignored;
use open_session::Session;
use salus_message::{Message, MessageError, decode};
use salus_types::{Geometry, Held, NoMemory, NodeName, Sender};
use std::alloc::Global;

// A message of the client. Of nodes' messages, and of its own answers, it hears nothing.
fn plan_from_client(
    alloc: Global,
    geometry: &Geometry,
    name: NodeName,
    held: &Held,
    session: &mut Option<Session>,
    message: Message,
) -> Result<Planned, NoMemory>
    requires message { IsMessage message }
    requires kept { CanBeKept held.now }
    requires serves { Serves geometry.now name.region held.now session.old }
    ensures { IfOk result (IsPlanned geometry.now name.region held.now session.old session.new (λ node. from_client geometry.now name.region node message)) }
{
    match message {
        Message::Part(part) => plan_part(alloc, session, part.rec),
        Message::Ask(ask) => plan_ask(alloc, session, ask),
        Message::Gather(gather) => plan_gather(alloc, held, gather.session),
        Message::Stage(stage) => plan_stage(
            alloc,
            geometry,
            name.region,
            held,
            session,
            stage.base,
        ),
        Message::Switch(switch) => plan_switch(
            alloc,
            geometry,
            name,
            held,
            session,
            switch.session,
        ),
        Message::Dump(dump) => plan_dump(alloc, session, &dump),
        Message::Prepared(_)
        | Message::Committed(_)
        | Message::Answer(_)
        | Message::Gathered(_)
        | Message::Staged(_)
        | Message::Switched(_)
        | Message::Dumped(_) => ignored(alloc),
    }
}

// A message of a node of the volume.
fn plan_from_node(
    alloc: Global,
    geometry: &Geometry,
    session: &mut Option<Session>,
    from: NodeName,
    message: &Message,
) -> Result<Planned, NoMemory>
    requires shape { ForSome session.old (λ kept. kept.shape ≡ geometry.now) }
    requires region { from.region < regions geometry.now }
    requires replica { from.replica < geometry.now.replicas }
    ensures { (g : ℕ) (held : AnyHeld) → CanBeKept held → Serves geometry.now g held session.old → IfOk result (IsPlanned geometry.now g held session.old session.new (λ node. from_node geometry.now node from message.now)) }
{
    match message {
        Message::Prepared(vote) => plan_vote(alloc, geometry, session, from, vote),
        Message::Committed(claim) => plan_claim(alloc, geometry, session, from, claim),
        Message::Part(_)
        | Message::Ask(_)
        | Message::Answer(_)
        | Message::Gather(_)
        | Message::Gathered(_)
        | Message::Stage(_)
        | Message::Staged(_)
        | Message::Switch(_)
        | Message::Switched(_)
        | Message::Dump(_)
        | Message::Dumped(_) => ignored(alloc),
    }
}

// Whether it is a node of the volume.
fn is_node(geometry: &Geometry, name: NodeName) -> bool
    ensures test { result ≡ is_node geometry.now name }
    ensures region { IsTrue result → name.region < regions geometry.now }
    ensures replica { IsTrue result → name.replica < geometry.now.replicas }
{
    u32::from(name.region) < geometry.regions() && u32::from(name.replica) < geometry.replicas()
}

// A message, by its sender.
fn plan_from_sender(
    alloc: Global,
    geometry: &Geometry,
    name: NodeName,
    held: &Held,
    session: &mut Option<Session>,
    from: Sender,
    message: Message,
) -> Result<Planned, NoMemory>
    requires message { IsMessage message }
    requires kept { CanBeKept held.now }
    requires serves { Serves geometry.now name.region held.now session.old }
    ensures { IfOk result (IsPlanned geometry.now name.region held.now session.old session.new (λ node. from_sender geometry.now name.region node from message)) }
{
    match from {
        Sender::Client => plan_from_client(alloc, geometry, name, held, session, message),
        Sender::Node(node) => {
            if is_node(geometry, node) {
                plan_from_node(alloc, geometry, session, node, &message)
            } else {
                ignored(alloc)
            }
        }
    }
}

// Bytes that don't decode are ignored; want of memory is none of theirs.
fn plan_undecoded(alloc: Global, error: MessageError) -> Result<Planned, NoMemory>
    ensures told { IfOk result (λ made. made ≡ Planned.Told []) }
    ensures refused { (meaning : Result AnyMessage MessageError) → Gives Ok message_fault (Err error) meaning → OnOk result (meaning ≡ Err error) }
{
    match error {
        MessageError::NoMemory => Err(NoMemory),
        MessageError::Short | MessageError::Tag | MessageError::Count | MessageError::Trailing =>
            ignored(alloc),
    }
}

/// Bytes, as a message of that sender. They are decoded once; those that don't decode are ignored.
pub fn plan(
    alloc: Global,
    geometry: &Geometry,
    name: NodeName,
    held: &Held,
    session: &mut Option<Session>,
    from: Sender,
    bytes: &[u8],
) -> Result<Planned, NoMemory>
    requires kept { CanBeKept held.now }
    requires serves { Serves geometry.now name.region held.now session.old }
    ensures { IfOk result (IsPlanned geometry.now name.region held.now session.old session.new (λ node. planned geometry.now name.region node (Receives from bytes.now))) }
{
    match decode(alloc, bytes) {
        Ok(message) => plan_from_sender(alloc, geometry, name, held, session, from, message),
        Err(error) => plan_undecoded(alloc, error),
    }
}
