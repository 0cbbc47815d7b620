//! What a client makes of messages, by its phase.
ghost use Rattle.std.specs.Prelude.{◌≡◌, ℕ, Err, Ok, Result, OnOk};
ghost use Rattle.salus_types.specs.Outcome.{Gives};
ghost use Rattle.salus_types.specs.declared.names.Sender.TheVariants as sender;
ghost use Rattle.salus_message.specs.declared.wire.Message.{Message as AnyMessage};
ghost use Rattle.salus_message.specs.Ranges.{IsMessage};
ghost use Rattle.salus_message.specs.Reading.{message_fault};
ghost use Rattle.schedule_text.specs.declared.schedule.Volume.{Volume};
ghost use Rattle.schedule_text.specs.Limits.{IsOfVolume};
ghost use Rattle.salus_model.specs.Hearing.{news_from};
ghost use Rattle.client_rules.specs.State.{Client, Serving};
ghost use Rattle.client_rules.specs.Rules.{received, told, told_serving};
ghost use Rattle.client_premises.specs.Premises.{IsApart, MessageIsApart, ServingIsApart};
ghost use Rattle.serving_client.specs.Kept.{shape_of as serving_shape, GoesOn};
ghost use Rattle.serving_client.specs.Standing.{IsTold, StandsFor};
ghost use Rattle.client_node.specs.Phases.{newest_in, shape_in, Follows, Opens, Plays};

use crate::phase::Phase;
use crate::replies::hear_reply;
use client_asking::Step;
use salus_message::{Message, MessageError, decode};
use salus_types::{NoMemory, NodeName};
use serving_client::ServingClient;
use std::alloc::Global;

/// A message of a node to a client that serves. Those of an opening, and its own, are none of its.
fn hear_serving(
    alloc: Global,
    client: &mut ServingClient,
    from: NodeName,
    message: Message,
    step: &mut Step,
) -> Result<(), NoMemory>
    requires from { IsOfVolume (serving_shape client.old) from }
    ensures rules { OnOk result ((volume : Volume) (c : Serving) → StandsFor volume client.old c → ServingIsApart volume c message → IsTold volume step.old step.new client.new (told_serving volume c from message)) }
    ensures newest { client.new.newest ≡ client.old.newest }
    ensures goes_on { GoesOn client.old client.new }
{
    match message {
        Message::Committed(claim) => {
            client.committed(from, claim.session, claim.front, step)?;
            Ok(())
        }
        Message::Answer(answer) => {
            client.answer(alloc, from, answer, step)?;
            Ok(())
        }
        Message::Part(_)
        | Message::Prepared(_)
        | Message::Ask(_)
        | Message::Gather(_)
        | Message::Gathered(_)
        | Message::Stage(_)
        | Message::Staged(_)
        | Message::Switch(_)
        | Message::Switched(_)
        | Message::Dump(_)
        | Message::Dumped(_) => Ok(()),
    }
}

/// A message of a node. A closed client hears nothing.
fn hear(
    alloc: Global,
    phase: &mut Phase,
    from: NodeName,
    message: Message,
    step: &mut Step,
) -> Result<(), NoMemory>
    requires from { IsOfVolume (shape_in phase.old) from }
    requires in_format { IsMessage message }
    ensures rules { OnOk result ((volume : Volume) (c : Client) → Plays volume phase.old c → MessageIsApart volume c from message → Follows volume step.old step.new phase.new (received volume c from message)) }
    ensures shape { shape_in phase.new ≡ shape_in phase.old }
    ensures newest { newest_in phase.new ≡ newest_in phase.old }
{
    match phase {
        Phase::Serving(client) => {
            hear_serving(alloc, client, from, message, step)?;
            Ok(())
        }
        Phase::Opening(_) => {
            hear_opening(alloc, phase, from, message, step)?;
            Ok(())
        }
        Phase::Closed(_) => Ok(()),
    }
}

/// A message of a node to a client that opens a session.
fn hear_opening(
    alloc: Global,
    phase: &mut Phase,
    from: NodeName,
    message: Message,
    step: &mut Step,
) -> Result<(), NoMemory>
    requires from { IsOfVolume (shape_in phase.old) from }
    requires in_format { IsMessage message }
    ensures rules { OnOk result ((volume : Volume) (c : Client) → Opens volume phase.old c → MessageIsApart volume c from message → Follows volume step.old step.new phase.new (received volume c from message)) }
    ensures shape { shape_in phase.new ≡ shape_in phase.old }
    ensures newest { newest_in phase.new ≡ newest_in phase.old }
{
    *phase = hear_reply(alloc, phase.take(), from, message, step)?;
    Ok(())
}

/// Bytes that don't decode are ignored; want of memory is none of theirs.
fn ignore_undecoded(error: MessageError) -> Result<(), NoMemory>
    ensures { (meaning : Result AnyMessage MessageError) → Gives Ok message_fault (Err error) meaning → OnOk result (meaning ≡ Err error) }
{
    match error {
        MessageError::NoMemory => Err(NoMemory),
        MessageError::Short | MessageError::Tag | MessageError::Count | MessageError::Trailing => {
            Ok(())
        }
    }
}

/// Bytes, as a message of that node. They are decoded once; those that don't decode are ignored.
pub fn hear_bytes(
    alloc: Global,
    phase: &mut Phase,
    from: NodeName,
    bytes: &[u8],
    step: &mut Step,
) -> Result<(), NoMemory>
    requires from { IsOfVolume (shape_in phase.old) from }
    ensures rules { OnOk result ((volume : Volume) (c : Client) (event : ℕ) → Plays volume phase.old c → IsApart volume c (news_from (sender.Node from) bytes.now) → Follows volume step.old step.new phase.new (told volume c event (news_from (sender.Node from) bytes.now))) }
    ensures shape { shape_in phase.new ≡ shape_in phase.old }
    ensures newest { newest_in phase.new ≡ newest_in phase.old }
{
    match decode(alloc, bytes) {
        Ok(message) => {
            hear(alloc, phase, from, message, step)?;
            Ok(())
        }
        Err(error) => {
            ignore_undecoded(error)?;
            Ok(())
        }
    }
}
