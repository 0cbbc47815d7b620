//! A request is refused, or joins the waiting line.
ghost use Rattle.std.specs.Prelude.{◌≡◌, ◌<◌, ◌^◌, IfNone, OnOk};
ghost use Rattle.schedule_text.specs.declared.schedule.Volume.{Volume};
ghost use Rattle.client_rules.specs.State.{Serving};
ghost use Rattle.client_rules.specs.Serving.{joined, refusal_here, requested_here};
ghost use Rattle.serving_client.specs.Kept.{IsSized, IsWithin};
ghost use Rattle.serving_client.specs.Keeping.{kept_of, HasPlace, IsKept, Survives};
ghost use Rattle.serving_client.specs.Standing.{IsTold, StandsFor};

use crate::inside::Core;
use crate::leaving::leave;
use client_asking::Step;
use printed_lines::{Line, RequestRefusal};
use salus_model::Request;
use salus_types::NoMemory;
use std::alloc::Global;
use waiting_line::{Standing, Taken};

/// Why the request is refused, by the first cause that applies. Where it isn't, the line has room for it.
pub fn refusal_of(core: &Core, request: &Request) -> Option<RequestRefusal>
    requires { IsKept core.now }
    ensures told { (volume : Volume) (c : Serving) → StandsFor volume (kept_of core.now) c → result ≡ refusal_here volume.geometry c request.now }
    ensures room { IfNone result (IsSized core.now.pipeline.window.shape request.now → HasPlace core.now request.now) }
    ensures region { IfNone result (IsWithin core.now.pipeline.window.shape request.now) }
{
    let geometry = core.pipeline.geometry();
    let standing = Standing {
        last: core.pipeline.submitted(),
        acked: core.pipeline.acked(),
        reads: core.reads.count(),
        barriers: core.pipeline.waiting(),
    };
    waiting_line::refusal(&geometry, &standing, &core.line, request)
}

/// The request joins the waiting line. Where nothing waited, it is looked at.
fn enter(alloc: Global, core: &mut Core, taken: Taken, step: &mut Step) -> Result<(), NoMemory>
    requires kept { IsKept core.old }
    requires later { core.old.newest < taken.event }
    requires low { taken.event < 2 ^ 32 }
    requires place { HasPlace core.old taken.request }
    ensures told { OnOk result ((volume : Volume) (c : Serving) → StandsFor volume (kept_of core.old) c → IsTold volume step.old step.new (kept_of core.new) (joined volume.geometry c taken c.line)) }
    ensures kept { OnOk result (IsKept core.new) }
    ensures survives { Survives core.old core.new }
    ensures newest { core.new.newest ≡ taken.event }
{
    let empty = core.line.is_empty();
    core.newest = taken.event();
    core.line.join(taken)?;
    if !empty {
        return Ok(());
    }
    leave(alloc, core, step)?;
    Ok(())
}

/// Takes a request or refuses it.
pub fn take_request(
    alloc: Global,
    core: &mut Core,
    event: u64,
    request: Request,
    step: &mut Step,
) -> Result<(), NoMemory>
    requires kept { IsKept core.old }
    requires sized { IsSized core.old.pipeline.window.shape request }
    requires later { core.old.newest < event }
    requires low { event < 2 ^ 32 }
    ensures told { OnOk result ((volume : Volume) (c : Serving) → StandsFor volume (kept_of core.old) c → IsTold volume step.old step.new (kept_of core.new) (requested_here volume.geometry c event request)) }
    ensures kept { OnOk result (IsKept core.new) }
    ensures survives { Survives core.old core.new }
    ensures newest { core.new.newest ≡ event }
{
    match refusal_of(core, &request) {
        Some(cause) => {
            core.newest = event;
            step.lines.push(Line::Refused { event, cause })?;
            Ok(())
        }
        None => {
            enter(alloc, core, Taken::new(event, request), step)?;
            Ok(())
        }
    }
}
