//! What nodes reply to a client that opens a session.
ghost use Rattle.std.specs.Prelude.{◌≡◌, ◌<◌, ◌^◌, IfOk};
ghost use Rattle.salus_message.specs.Ranges.{IsMessage};
ghost use Rattle.schedule_text.specs.declared.schedule.Volume.{Volume};
ghost use Rattle.schedule_text.specs.Limits.{IsOfVolume};
ghost use Rattle.client_rules.specs.State.{Client};
ghost use Rattle.client_rules.specs.Rules.{received};
ghost use Rattle.client_premises.specs.Premises.{MessageIsApart};
ghost use Rattle.session_opening.specs.Standing.{shape_of, StandsFor};
ghost use Rattle.session_opening.specs.Telling.{Becomes, IsTold, Follows as GoesOn};
ghost use Rattle.client_node.specs.Opening.{OutcomeFits};
ghost use Rattle.client_node.specs.Phases.{newest_in, shape_in, Follows, Opens, Plays};

use crate::opening::OpeningClient;
use crate::phase::{ClosedClient, Phase};
use client_asking::Step;
use salus_message::Message;
use salus_types::{Geometry, NoMemory, NodeName};
use serving_client::ServingClient;
use session_opening::{Opening, Outcome};
use std::alloc::Global;

/// A message of a node to a client that opens a session: what it becomes. One in another phase stays.
pub fn hear_reply(
    alloc: Global,
    phase: Phase,
    from: NodeName,
    message: Message,
    step: &mut Step,
) -> Result<Phase, NoMemory>
    requires from { IsOfVolume (shape_in phase) from }
    requires in_format { IsMessage message }
    ensures rules { IfOk result (λ after. (volume : Volume) (c : Client) → Opens volume phase c → MessageIsApart volume c from message → Follows volume step.old step.new after (received volume c from message)) }
    ensures shape { IfOk result (λ after. shape_in after ≡ shape_in phase) }
    ensures newest { IfOk result (λ after. newest_in after ≡ newest_in phase) }
{
    match phase {
        Phase::Opening(client) => {
            let after = go_on(alloc, client, from, message, step)?;
            Ok(after)
        }
        Phase::Closed(kept) => Ok(Phase::Closed(kept)),
        Phase::Serving(client) => Ok(Phase::Serving(client)),
    }
}

/// What a client that opens a session becomes.
fn go_on(
    alloc: Global,
    client: OpeningClient,
    from: NodeName,
    message: Message,
    step: &mut Step,
) -> Result<Phase, NoMemory>
    requires from { IsOfVolume (shape_of client.opening) from }
    requires in_format { IsMessage message }
    ensures rules { IfOk result (λ after. (volume : Volume) (c : Client) → StandsFor volume client.opening c → MessageIsApart volume c from message → Follows volume step.old step.new after (received volume c from message)) }
    ensures shape { IfOk result (λ after. shape_in after ≡ shape_of client.opening) }
    ensures newest { IfOk result (λ after. newest_in after ≡ client.newest) }
{
    let geometry = client.geometry();
    let newest = client.newest();
    let outcome = take_reply(alloc, client.into_opening(), from, message, step)?;
    let after = phase_of(alloc, geometry, newest, outcome)?;
    Ok(after)
}

/// A message of a node. Those to a client that serves, and its own, are none of its.
fn take_reply(
    alloc: Global,
    opening: Opening,
    from: NodeName,
    message: Message,
    step: &mut Step,
) -> Result<Outcome, NoMemory>
    requires from { IsOfVolume (shape_of opening) from }
    requires in_format { IsMessage message }
    ensures told { IfOk result (λ made. (volume : Volume) (c : Client) → StandsFor volume opening c → MessageIsApart volume c from message → IsTold volume step.old step.new made (received volume c from message)) }
    ensures follows { IfOk result (GoesOn opening) }
{
    match message {
        Message::Gathered(reply) => {
            let made = opening.gathered(alloc, from, &reply, step)?;
            Ok(made)
        }
        Message::Dumped(reply) => {
            let made = opening.dumped(alloc, from, reply, step)?;
            Ok(made)
        }
        Message::Staged(reply) => {
            let made = opening.staged(alloc, from, reply, step)?;
            Ok(made)
        }
        Message::Switched(reply) => {
            let made = opening.switched(from, reply, step)?;
            Ok(made)
        }
        Message::Part(_)
        | Message::Prepared(_)
        | Message::Committed(_)
        | Message::Ask(_)
        | Message::Answer(_)
        | Message::Gather(_)
        | Message::Stage(_)
        | Message::Switch(_)
        | Message::Dump(_) => Ok(Outcome::Opens(opening)),
    }
}

/// The phase of a client of which this has come.
fn phase_of(
    alloc: Global,
    geometry: Geometry,
    newest: u64,
    outcome: Outcome,
) -> Result<Phase, NoMemory>
    requires event { newest < 2 ^ 32 }
    requires outcome { OutcomeFits geometry newest outcome }
    ensures plays { IfOk result (λ phase. (volume : Volume) (c : Client) → volume.geometry ≡ geometry → Becomes volume outcome c → Plays volume phase c) }
    ensures shape { IfOk result (λ phase. shape_in phase ≡ geometry) }
    ensures newest { IfOk result (λ phase. newest_in phase ≡ newest) }
{
    match outcome {
        Outcome::Opens(opening) => Ok(Phase::Opening(OpeningClient::of(opening, newest))),
        Outcome::Closes(key) => Ok(Phase::Closed(ClosedClient {
            geometry,
            key,
            newest,
        })),
        Outcome::Serves { served, key } => {
            let client = ServingClient::new(
                alloc,
                geometry,
                key,
                served.session,
                served.number,
                &served.roots,
                newest,
            )?;
            Ok(Phase::Serving(client))
        }
    }
}
