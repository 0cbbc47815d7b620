ghost use Rattle.std.specs.Prelude.{IfOk};
ghost use Rattle.schedule_text.specs.Limits.{IsWithinLimits};
ghost use Rattle.salus_commands.specs.Replaying.{Replays};

use crate::report::Report;
use crate::whole::run_whole;
use law_apart::runs_are_apart;
use law_complete::{quiet_runs_are_complete, reads_end_with_room};
use law_covered::counting_nodes_cover;
use law_gathered::every_run_is_apart;
use law_kept::nothing_acknowledged_is_lost;
use law_served::reads_end_beside_every_lie;
use law_whole::runs_by_rules_are_legal;
use salus_types::NoMemory;
use schedule_text::Schedule;
use std::alloc::Global;

/// Runs a schedule whole, and reports its lines and messages. What the laws say of whole runs holds of it, so that a quiet one is
/// complete.
pub(crate) fn replay(alloc: Global, schedule: Schedule) -> Result<Report, NoMemory>
    requires { IsWithinLimits schedule }
    ensures { IfOk result (Replays schedule) }
{
    // The laws of whole runs: calls that do nothing, of which the clauses count.
    every_run_is_apart();
    runs_are_apart();
    runs_by_rules_are_legal();
    nothing_acknowledged_is_lost();
    counting_nodes_cover();
    reads_end_beside_every_lie();
    reads_end_with_room();
    quiet_runs_are_complete();
    let ran = run_whole(alloc, schedule)?;
    Ok(Report {
        lines: ran.lines,
        messages: ran.messages,
    })
}
