ghost use Rattle.std.specs.Prelude.{◌≡◌, ◌<◌, IfOk, Option};
ghost use Rattle.replica_rules.specs.Nodes.{loaded_as};
ghost use Rattle.replica_rules.specs.Rules.{by_switch, switched};
ghost use Rattle.holding_model.specs.Changing.{SwitchesTo, changed};
ghost use Rattle.replica_node.specs.Standing.{StandsIn};
ghost use Rattle.replica_node.specs.Serving.{Serves};
ghost use Rattle.replica_node.specs.Planning.{IsPlanned};

use crate::held_rules::{base_held, say_switched};
use crate::planned::Planned;
use crate::telling::{ignored, tell};
use open_session::Session;
use salus_message::{Message, Switched};
use salus_types::{Geometry, Held, NoMemory, NodeName};
use std::alloc::Global;

/// The memory of the session that is open, from what is held.
pub fn open_loaded(
    alloc: Global,
    geometry: &Geometry,
    name: NodeName,
    held: &Held,
) -> Result<Option<Session>, NoMemory>
    ensures stands { IfOk result (λ opened. StandsIn opened (loaded_as geometry.now name.region held.now).memory) }
    ensures serves { IfOk result (λ opened. Serves geometry.now name.region held.now opened) }
{
    match Session::open(alloc, geometry, name, held, held.session) {
        Ok(opened) => Ok(opened),
        Err(error) => Err(error),
    }
}

// Goes over to a session above the open one.
fn open_later(
    alloc: Global,
    geometry: &Geometry,
    name: NodeName,
    held: &Held,
    session: u64,
) -> Result<Option<Session>, NoMemory>
    requires { held.now.session < session }
    ensures stands { IfOk result (λ opened. StandsIn opened (loaded_as geometry.now name.region (changed geometry.now held.now (SwitchesTo session))).memory) }
    ensures serves { IfOk result (λ opened. Serves geometry.now name.region (changed geometry.now held.now (SwitchesTo session)) opened) }
{
    match Session::open(alloc, geometry, name, held, session) {
        Ok(opened) => Ok(opened),
        Err(error) => Err(error),
    }
}

// The switch itself.
fn switch(
    alloc: Global,
    geometry: &Geometry,
    name: NodeName,
    held: &Held,
    session: &mut Option<Session>,
    number: u64,
) -> Result<Planned, NoMemory>
    requires { held.now.session < number }
    ensures { IfOk result (IsPlanned geometry.now name.region held.now session.old session.new (λ node. switched geometry.now name.region node number)) }
{
    let outs = tell(alloc, &Message::Switched(Switched { session: number }))?;
    let opened = open_later(alloc, geometry, name, held, number)?;
    *session = opened;
    Ok(Planned::Switched {
        session: number,
        outs,
    })
}

/// The switch to a session of which a base is held; view and memory start anew.
pub fn plan_switch(
    alloc: Global,
    geometry: &Geometry,
    name: NodeName,
    held: &Held,
    session: &mut Option<Session>,
    number: u64,
) -> Result<Planned, NoMemory>
    requires { Serves geometry.now name.region held.now session.old }
    ensures { IfOk result (IsPlanned geometry.now name.region held.now session.old session.new (λ node. by_switch geometry.now name.region node number)) }
{
    if number == held.session {
        return say_switched(alloc, number);
    }
    if number < held.session {
        return ignored(alloc);
    }
    match base_held(geometry, name.region, number, held) {
        None => ignored(alloc),
        Some(_) => switch(alloc, geometry, name, held, session, number),
    }
}
