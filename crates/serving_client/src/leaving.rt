//! The leaving rule: what stands before the first write leaves the waiting line, and that write asks for its blocks.
ghost use Rattle.std.specs.Prelude.{◌≡◌, OnOk};
ghost use Rattle.schedule_text.specs.declared.schedule.Volume.{Volume};
ghost use Rattle.client_rules.specs.State.{Serving};
ghost use Rattle.client_rules.specs.Serving.{leaves};
ghost use Rattle.serving_client.specs.Keeping.{kept_of, IsBorne, IsHeadless, IsKept, Survives};
ghost use Rattle.serving_client.specs.Standing.{IsTold};

use crate::inside::Core;
use client_asking::{Step, ask_head, leave_all};
use salus_types::NoMemory;
use std::alloc::Global;

/// What may leave the waiting line leaves it, and the write that is then the head asks for its blocks.
pub fn leave(alloc: Global, core: &mut Core, step: &mut Step) -> Result<(), NoMemory>
    requires { IsHeadless core.old }
    ensures told { OnOk result ((volume : Volume) (c : Serving) → IsBorne volume core.old c → IsTold volume step.old step.new (kept_of core.new) (leaves volume.geometry c core.old.line)) }
    ensures kept { OnOk result (IsKept core.new) }
    ensures survives { Survives core.old core.new }
    ensures last { core.new.pipeline.window.last ≡ core.old.pipeline.window.last }
    ensures newest { core.new.newest ≡ core.old.newest }
{
    leave_all(
        alloc,
        &mut core.pipeline,
        &mut core.reads,
        &mut core.line,
        step,
    )?;
    ask_head(
        alloc,
        &core.pipeline,
        &core.line,
        &mut core.asked,
        &mut step.outs,
    )?;
    Ok(())
}
