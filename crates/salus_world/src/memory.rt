//! A world over disks in memory.
ghost use Rattle.std.specs.Prelude.{◌≡◌, ◌≤◌, List, length, IfOk};
ghost use Rattle.salus_types.specs.Volume.{IsVolume};
ghost use Rattle.schedule_text.specs.declared.schedule.Event.{Event as AnyEvent};
ghost use Rattle.run_course.specs.Course.{no_course};
ghost use Rattle.salus_world.specs.Memory.{AreEmpty};

use crate::error::WorldError;
use crate::world::World;
use disk_model::MemDisk;
use salus_types::NoMemory;
use schedule_text::Volume;
use std::alloc::Global;

// So many empty disks.
fn empty_disks(alloc: Global, count: usize) -> Result<Vec<MemDisk>, NoMemory>
    ensures { IfOk result (λ disks. AreEmpty count disks.items) }
{
    let mut disks = Vec::new(alloc);
    'disks: for _ in 0..count {
        disks.push(MemDisk::new(alloc, Vec::new(alloc)))?;
    }
    Ok(disks)
}

// The answer where nothing but memory was wanting.
fn want(error: WorldError<MemDisk>) -> NoMemory
    requires { error ≡ WorldError.NoMemory }
{
    NoMemory
}

impl World<MemDisk> {
    ghost use Rattle.salus_world.specs.Kept.{IsKept};
    ghost use Rattle.salus_world.specs.Runs.{formatted_origin};

    /// A volume that was never written, over new disks, and no message.
    pub fn in_memory(alloc: Global, volume: &Volume) -> Result<World<MemDisk>, NoMemory>
        requires limits { IsVolume volume.now.geometry }
        requires key { length volume.now.key ≤ 64 }
        ensures { IfOk result (λ world. (all : List AnyEvent) → IsKept (formatted_origin volume.now) volume.now all 1 1 world no_course) }
    {
        let disks = empty_disks(alloc, volume.geometry.nodes() as usize)?;
        match World::new(alloc, volume, disks) {
            Ok(world) => Ok(world),
            Err(error) => Err(want(error)),
        }
    }
}
