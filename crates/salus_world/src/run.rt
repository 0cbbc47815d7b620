ghost use Rattle.std.specs.Prelude.{◌≤◌, length, IfOk, OnOk};
ghost use Rattle.std.specs.List.{AllByRecursion};
ghost use Rattle.schedule_text.specs.declared.schedule.Volume.{Volume as AnyVolume};
ghost use Rattle.schedule_text.specs.Limits.{IsEventWithin, IsWithinLimits};
ghost use Rattle.run_course.specs.Course.{no_course};
ghost use Rattle.salus_world.specs.Kept.{Origin, IsKept, HasRun};
ghost use Rattle.salus_world.specs.Runs.{Ends};

use crate::ran::Ran;
use crate::world::World;
use disk_model::MemDisk;
use salus_types::{Items, NoMemory};
use schedule_text::{Event, Schedule};
use std::alloc::Global;

/// Makes the steps of all events, of which the first has number 1.
fn run_events(world: &mut World<MemDisk>, events: Vec<Event>) -> Result<(), NoMemory>
    requires kept { (origin : Origin) × (volume : AnyVolume) × IsKept origin volume events.items 1 1 world.old no_course }
    requires within { AllByRecursion (IsEventWithin world.old.geometry) events.items }
    requires few { length events.items ≤ 65536 }
    ensures { OnOk result ((origin : Origin) (volume : AnyVolume) → IsKept origin volume events.items 1 1 world.old no_course → HasRun origin volume events.items events.items world.old world.new) }
{
    let mut number = 1;
    'events: for event in events {
        world.step(number, event)?;
        number += 1;
    }
    Ok(())
}

/// Runs a schedule on a volume that was never written. Its requests are moved into the client: no block is copied.
///
/// It ends early only for want of memory: no load of a node is refused for another reason.
pub fn run_schedule(alloc: Global, schedule: Schedule) -> Result<Ran, NoMemory>
    requires { IsWithinLimits schedule }
    ensures { IfOk result (Ends schedule.volume schedule.events) }
{
    let Schedule { volume, events } = schedule;
    let mut world = World::in_memory(alloc, &volume)?;
    run_events(&mut world, events.into_vec())?;
    let World {
        nodes,
        client,
        sent,
        lines,
        ..
    } = world;
    Ok(Ran {
        lines: Items::from_vec(lines),
        messages: Items::from_vec(sent),
        nodes,
        client,
    })
}
