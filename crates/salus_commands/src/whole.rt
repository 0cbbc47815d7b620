ghost use Rattle.std.specs.Prelude.{IfOk};
ghost use Rattle.schedule_text.specs.Limits.{IsWithinLimits};
ghost use Rattle.salus_commands.specs.Disks.{RanCovered};

use image_coverage::images_mean_what_is_known;
use law_covered::counting_nodes_cover;
use law_gathered::every_run_is_apart;
use salus_types::NoMemory;
use salus_world::{Ran, run_schedule};
use schedule_text::Schedule;
use std::alloc::Global;

/// Runs a schedule whole, and leaves its nodes with their disks, too: where each group keeps a server that counts, the disks of
/// those that count have all that was acknowledged or claimed, in each image that a crash may leave.
pub(crate) fn run_whole(alloc: Global, schedule: Schedule) -> Result<Ran, NoMemory>
    requires { IsWithinLimits schedule }
    ensures { IfOk result (RanCovered schedule.volume schedule.events) }
{
    // The laws of whole runs: calls that do nothing, of which the clauses count.
    every_run_is_apart();
    counting_nodes_cover();
    images_mean_what_is_known();
    let ran = run_schedule(alloc, schedule)?;
    Ok(ran)
}
