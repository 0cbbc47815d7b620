//! What a client makes of requests, by its phase.
ghost use Rattle.std.specs.Prelude.{◌≡◌, ◌∷◌, ◌+◌, ◌<◌, ◌≤◌, ◌^◌, ℕ, [], length, IfOk, OnOk};
ghost use Rattle.salus_types.specs.Volume.{regions};
ghost use Rattle.schedule_text.specs.declared.schedule.Volume.{Volume};
ghost use Rattle.salus_model.specs.declared.trace.Request.TheVariants as request;
ghost use Rattle.client_rules.specs.State.{Client, Serves, Serving, only_lines};
ghost use Rattle.client_rules.specs.Opening.{restarted};
ghost use Rattle.client_rules.specs.Serving.{fetches};
ghost use Rattle.client_rules.specs.Rules.{requested};
ghost use Rattle.open_reads.specs.Telling.{Adds};
ghost use Rattle.serving_client.specs.Kept.{shape_of as serving_shape};
ghost use Rattle.serving_client.specs.Standing.{StandsFor};
ghost use Rattle.session_opening.specs.Fetched.{IsServed};
ghost use Rattle.client_node.specs.Asking.{OpensNone, IsRuling, RulingFits};
ghost use Rattle.client_node.specs.Phases.{newest_in, shape_in, Follows, Plays};
ghost use Rattle.client_node.specs.Standing.{IsAsked};

use crate::opening::OpeningClient;
use crate::phase::Phase;
use client_asking::Step;
use printed_lines::{Line, RequestRefusal};
use salus_model::Request;
use salus_types::NoMemory;
use serving_client::ServingClient;
use session_opening::Served;
use std::alloc::Global;

/// What is decided of a reassignment.
#[derive(Drop)]
enum Ruling {
    /// It is refused, for this cause.
    Refuses(RequestRefusal),
    /// The session is left, in which this is served.
    Leaves(Served),
}

/// A client that serves takes the request or refuses it; any other one takes a restart alone.
pub fn ask(
    alloc: Global,
    phase: &mut Phase,
    event: u64,
    request: Request,
    step: &mut Step,
) -> Result<(), NoMemory>
    requires asked { IsAsked (shape_in phase.old) request }
    requires later { newest_in phase.old < event }
    requires event { event < 2 ^ 32 }
    ensures rules { OnOk result ((volume : Volume) (c : Client) → Plays volume phase.old c → Follows volume step.old step.new phase.new (requested volume c event request)) }
    ensures shape { shape_in phase.new ≡ shape_in phase.old }
    ensures newest { newest_in phase.new ≤ event }
{
    match request {
        Request::Restart { session } => {
            restart(alloc, phase, event, session, step)?;
            Ok(())
        }
        Request::Reassign { session, region } => {
            reassign(alloc, phase, event, session, region, step)?;
            Ok(())
        }
        Request::Write { batch } => {
            ask_served(alloc, phase, event, Request::Write { batch }, step)?;
            Ok(())
        }
        Request::Read { block } => {
            ask_served(alloc, phase, event, Request::Read { block }, step)?;
            Ok(())
        }
        Request::Barrier => {
            ask_served(alloc, phase, event, Request::Barrier, step)?;
            Ok(())
        }
    }
}

/// The request is refused.
fn refuse(event: u64, cause: RequestRefusal, step: &mut Step) -> Result<(), NoMemory>
    ensures { OnOk result ((c : Client) → Adds step.old step.new (only_lines c (Line.Refused event cause ∷ []))) }
{
    step.lines.push(Line::Refused { event, cause })?;
    Ok(())
}

/// A request that opens no session: a client that serves takes it or refuses it; any other one refuses it.
fn ask_served(
    alloc: Global,
    phase: &mut Phase,
    event: u64,
    request: Request,
    step: &mut Step,
) -> Result<(), NoMemory>
    requires served { OpensNone (shape_in phase.old) request }
    requires later { newest_in phase.old < event }
    requires event { event < 2 ^ 32 }
    ensures rules { OnOk result ((volume : Volume) (c : Client) → Plays volume phase.old c → Follows volume step.old step.new phase.new (requested volume c event request)) }
    ensures shape { shape_in phase.new ≡ shape_in phase.old }
    ensures newest { newest_in phase.new ≤ event }
{
    match phase {
        Phase::Serving(client) => {
            client.request(alloc, event, request, step)?;
            Ok(())
        }
        Phase::Closed(_) | Phase::Opening(_) => {
            refuse(event, RequestRefusal::Closed, step)?;
            Ok(())
        }
    }
}

/// A restart: a client that serves refuses it; any other one drops all that it held, and gathers.
fn restart(
    alloc: Global,
    phase: &mut Phase,
    event: u64,
    session: u64,
    step: &mut Step,
) -> Result<(), NoMemory>
    requires later { newest_in phase.old < event }
    requires event { event < 2 ^ 32 }
    ensures rules { OnOk result ((volume : Volume) (c : Client) → Plays volume phase.old c → Follows volume step.old step.new phase.new (requested volume c event (request.Restart session))) }
    ensures shape { shape_in phase.new ≡ shape_in phase.old }
    ensures newest { newest_in phase.new ≤ event }
{
    if phase.is_serving() {
        refuse(event, RequestRefusal::Open, step)?;
        return Ok(());
    }
    gather(alloc, phase, event, session, step)?;
    Ok(())
}

/// All that was held is dropped, and a restart begins.
fn gather(
    alloc: Global,
    phase: &mut Phase,
    event: u64,
    session: u64,
    step: &mut Step,
) -> Result<(), NoMemory>
    requires later { newest_in phase.old < event }
    requires event { event < 2 ^ 32 }
    ensures rules { OnOk result ((volume : Volume) (c : Client) → Plays volume phase.old c → Follows volume step.old step.new phase.new (restarted volume.geometry session)) }
    ensures shape { shape_in phase.new ≡ shape_in phase.old }
    ensures newest { newest_in phase.new ≤ event }
{
    let geometry = phase.geometry();
    let key = phase.take().into_key();
    let opening = OpeningClient::restart(alloc, geometry, key, event, session, step)?;
    *phase = Phase::Opening(opening);
    Ok(())
}

/// A reassignment: a client that serves and is idle leaves its session, and fetches the region's blocks; it is refused else.
fn reassign(
    alloc: Global,
    phase: &mut Phase,
    event: u64,
    session: u64,
    region: u64,
    step: &mut Step,
) -> Result<(), NoMemory>
    requires later { newest_in phase.old < event }
    requires event { event < 2 ^ 32 }
    ensures rules { OnOk result ((volume : Volume) (c : Client) → Plays volume phase.old c → Follows volume step.old step.new phase.new (requested volume c event (request.Reassign session region))) }
    ensures shape { shape_in phase.new ≡ shape_in phase.old }
    ensures newest { newest_in phase.new ≤ event }
{
    match rule(alloc, phase, session, region)? {
        Ruling::Refuses(cause) => {
            refuse(event, cause, step)?;
            Ok(())
        }
        Ruling::Leaves(served) => {
            fetch(alloc, phase, event, session, region, served, step)?;
            Ok(())
        }
    }
}

/// What is decided of a reassignment.
fn rule(alloc: Global, phase: &Phase, session: u64, region: u64) -> Result<Ruling, NoMemory>
    ensures rule { IfOk result (λ ruling. (volume : Volume) (c : Client) (event : ℕ) → Plays volume phase.now c → IsRuling volume c event session region ruling) }
    ensures ruled { IfOk result (RulingFits (shape_in phase.now) (newest_in phase.now) region) }
{
    match phase {
        Phase::Serving(client) => {
            let ruling = rule_serving(alloc, client, session, region)?;
            Ok(ruling)
        }
        Phase::Closed(_) | Phase::Opening(_) => Ok(Ruling::Refuses(RequestRefusal::Closed)),
    }
}

/// What a client that serves decides of it.
fn rule_serving(
    alloc: Global,
    client: &ServingClient,
    session: u64,
    region: u64,
) -> Result<Ruling, NoMemory>
    ensures rule { IfOk result (λ ruling. (volume : Volume) (c : Serving) (event : ℕ) → StandsFor volume client.now c → IsRuling volume (Serves c) event session region ruling) }
    ensures ruled { IfOk result (RulingFits (serving_shape client.now) client.now.newest region) }
{
    match client.refusal(&Request::Reassign { session, region }) {
        Some(cause) => Ok(Ruling::Refuses(cause)),
        None => Ok(Ruling::Leaves(served_by(alloc, client)?)),
    }
}

/// What is served.
fn served_by(alloc: Global, client: &ServingClient) -> Result<Served, NoMemory>
    ensures stands { IfOk result (λ served. (volume : Volume) (c : Serving) → StandsFor volume client.now c → IsServed (serving_shape client.now) served c) }
    ensures roots { IfOk result (λ served. length served.roots ≡ regions (serving_shape client.now)) }
    ensures low { IfOk result (λ served. served.number ≤ 2 ^ 63 + client.now.newest) }
{
    Ok(Served {
        session: client.session(),
        number: client.submitted(),
        roots: client.roots(alloc)?,
    })
}

/// The session is left, and the region's blocks are asked for.
fn fetch(
    alloc: Global,
    phase: &mut Phase,
    event: u64,
    session: u64,
    region: u64,
    served: Served,
    step: &mut Step,
) -> Result<(), NoMemory>
    requires later { newest_in phase.old < event }
    requires event { event < 2 ^ 32 }
    requires region { region < regions (shape_in phase.old) }
    requires roots { length served.roots ≡ regions (shape_in phase.old) }
    requires low { served.number ≤ 2 ^ 63 + newest_in phase.old }
    ensures rules { OnOk result ((volume : Volume) (c : Serving) → Plays volume phase.old (Serves c) → IsServed volume.geometry served c → Follows volume step.old step.new phase.new (fetches volume.geometry c session region)) }
    ensures shape { shape_in phase.new ≡ shape_in phase.old }
    ensures newest { newest_in phase.new ≤ event }
{
    let geometry = phase.geometry();
    let _few = geometry.regions();
    let region = region as u16;
    let key = phase.take().into_key();
    let opening = OpeningClient::reassign(
        alloc, geometry, key, event, session, region, served, step,
    )?;
    *phase = Phase::Opening(opening);
    Ok(())
}
