//! Answers and claims of nodes.
ghost use Rattle.std.specs.Prelude.{◌≡◌, OnOk};
ghost use Rattle.schedule_text.specs.declared.schedule.Volume.{Volume};
ghost use Rattle.client_rules.specs.State.{Serving};
ghost use Rattle.client_rules.specs.Serving.{answered_here, committed_here};
ghost use Rattle.client_premises.specs.Premises.{AnswerIsApart};
ghost use Rattle.open_reads.specs.Telling.{told_of_read};
ghost use Rattle.serving_client.specs.Kept.{IsNodeOf};
ghost use Rattle.serving_client.specs.Keeping.{kept_of, IsKept, Survives};
ghost use Rattle.serving_client.specs.Standing.{IsTold, StandsFor};

use crate::heading::take_head_answer;
use crate::inside::Core;
use client_asking::Step;
use open_reads::answer_read;
use salus_message::Answer;
use salus_types::{NoMemory, NodeName};
use std::alloc::Global;

/// Numbers below this one are those of reads.
const READS: u64 = 4_294_967_296;

/// Takes an answer of the session to an open read.
fn take_read_answer(
    alloc: Global,
    core: &mut Core,
    from: NodeName,
    answer: Answer,
    step: &mut Step,
) -> Result<(), NoMemory>
    requires kept { IsKept core.old }
    requires node { IsNodeOf core.old.pipeline.window.shape from }
    ensures told { OnOk result ((volume : Volume) (c : Serving) → StandsFor volume (kept_of core.old) c → IsTold volume step.old step.new (kept_of core.new) (told_of_read volume.geometry c from answer)) }
    ensures kept { OnOk result (IsKept core.new) }
    ensures survives { Survives core.old core.new }
    ensures newest { core.new.newest ≡ core.old.newest }
{
    answer_read(alloc, &core.pipeline, &mut core.reads, from, answer, step)?;
    Ok(())
}

/// Takes an answer of a node. One of another session is ignored.
pub fn take_answer(
    alloc: Global,
    core: &mut Core,
    from: NodeName,
    answer: Answer,
    step: &mut Step,
) -> Result<(), NoMemory>
    requires kept { IsKept core.old }
    requires node { IsNodeOf core.old.pipeline.window.shape from }
    ensures told { OnOk result ((volume : Volume) (c : Serving) → StandsFor volume (kept_of core.old) c → AnswerIsApart volume.geometry c answer → IsTold volume step.old step.new (kept_of core.new) (answered_here volume c from answer)) }
    ensures kept { OnOk result (IsKept core.new) }
    ensures survives { Survives core.old core.new }
    ensures newest { core.new.newest ≡ core.old.newest }
{
    if answer.session != core.pipeline.session() {
        return Ok(());
    }
    if answer.read < READS {
        take_read_answer(alloc, core, from, answer, step)?;
    } else {
        take_head_answer(alloc, core, from, &answer, step)?;
    }
    Ok(())
}

/// Takes a node's claim. One of another session is ignored.
pub fn take_claim(
    core: &mut Core,
    from: NodeName,
    session: u64,
    front: u64,
    step: &mut Step,
) -> Result<(), NoMemory>
    requires kept { IsKept core.old }
    requires node { IsNodeOf core.old.pipeline.window.shape from }
    ensures told { OnOk result ((volume : Volume) (c : Serving) → StandsFor volume (kept_of core.old) c → IsTold volume step.old step.new (kept_of core.new) (committed_here volume.geometry c from session front)) }
    ensures kept { IsKept core.new }
    ensures survives { Survives core.old core.new }
    ensures newest { core.new.newest ≡ core.old.newest }
{
    if session != core.pipeline.session() {
        return Ok(());
    }
    core.pipeline.claim(from, front, &mut step.lines)?;
    Ok(())
}
