//! The write at the head of the waiting line: once its blocks are known it is submitted, and it ends where one of them can't
//! be had. What stands behind it is then looked at.
ghost use Rattle.std.specs.Prelude.{◌≡◌, ◌∷◌, ◌+◌, ◌<◌, ◌≤◌, All, drop, length, true, OnOk};
ghost use Rattle.schedule_text.specs.declared.schedule.Volume.{Volume};
ghost use Rattle.salus_model.specs.declared.trace.Request.TheVariants as request;
ghost use Rattle.salus_model.specs.Waiting.{is_write};
ghost use Rattle.client_rules.specs.State.{Serving};
ghost use Rattle.client_rules.specs.Submitting.{batch_asked};
ghost use Rattle.client_rules.specs.Tables.{line_of};
ghost use Rattle.client_rules.specs.Serving.{leaves, submits};
ghost use Rattle.client_premises.specs.Premises.{AnswerIsApart};
ghost use Rattle.pruned_volume.specs.Trees.{IsKnownWrite};
ghost use Rattle.head_blocks.specs.Headed.{head_batch};
ghost use Rattle.head_blocks.specs.Advancing.{head_told};
ghost use Rattle.serving_client.specs.Kept.{IsNodeOf};
ghost use Rattle.serving_client.specs.Keeping.{headed_by, kept_of, IsBorne, IsHeadless, IsKept, IsSubmitted, Survives};
ghost use Rattle.serving_client.specs.Standing.{IsTold, StandsFor};

use crate::inside::Core;
use crate::leaving::leave;
use client_asking::Step;
use head_blocks::{Headway, answer_head};
use printed_lines::Line;
use salus_message::Answer;
use salus_model::Request;
use salus_types::{Batch, NoMemory, NodeName};
use std::alloc::Global;
use waiting_line::Taken;

/// The head is taken out of the line, and what stood behind it is looked at.
fn end_head(alloc: Global, core: &mut Core, step: &mut Step) -> Result<(), NoMemory>
    requires headless { IsHeadless core.old }
    requires head { 0 < length core.old.line }
    ensures told { OnOk result ((volume : Volume) (c : Serving) → IsBorne volume core.old c → IsTold volume step.old step.new (kept_of core.new) (leaves volume.geometry c (drop 1 core.old.line))) }
    ensures kept { OnOk result (IsKept core.new) }
    ensures survives { Survives core.old core.new }
    ensures newest { core.new.newest ≡ core.old.newest }
{
    let _ = core.line.take_head();
    core.trees.forget();
    leave(alloc, core, step)?;
    Ok(())
}

/// The batch is written into the trees, and becomes the next of the pipeline, with its line.
fn commit_batch(
    alloc: Global,
    core: &mut Core,
    event: u64,
    batch: &Batch,
    step: &mut Step,
) -> Result<(), NoMemory>
    requires headless { IsHeadless (headed_by core.old event batch.now) }
    requires known { All (IsKnownWrite core.old.trees) batch.now }
    ensures told { OnOk result ((volume : Volume) (c : Serving) → IsBorne volume core.old c → IsSubmitted volume c event batch.now step.old core.new step.new) }
    ensures headless { OnOk result (IsHeadless core.new) }
    ensures line { core.new.line ≡ core.old.line }
    ensures survives { Survives (headed_by core.old event batch.now) core.new }
    ensures last { core.new.pipeline.window.last ≤ core.old.pipeline.window.last + 1 }
    ensures newest { core.new.newest ≡ core.old.newest }
{
    let roots = core.trees.write(alloc, batch)?;
    let seq = core.pipeline.submit(alloc, batch, &roots, &mut step.outs)?;
    step.lines.push(Line::Submit { event, seq })?;
    Ok(())
}

/// The batch of the head, which was taken out, is submitted, and what stood behind it is looked at.
fn submit_batch(
    alloc: Global,
    core: &mut Core,
    event: u64,
    batch: &Batch,
    step: &mut Step,
) -> Result<(), NoMemory>
    requires headless { IsHeadless (headed_by core.old event batch.now) }
    requires known { All (IsKnownWrite core.old.trees) batch.now }
    ensures told { OnOk result ((volume : Volume) (c : Serving) → IsBorne volume core.old c → IsTold volume step.old step.new (kept_of core.new) (submits volume c (record { event = event; request = request.Write batch.now } ∷ core.old.line))) }
    ensures kept { OnOk result (IsKept core.new) }
    ensures survives { Survives (headed_by core.old event batch.now) core.new }
    ensures newest { core.new.newest ≡ core.old.newest }
{
    commit_batch(alloc, core, event, batch, step)?;
    leave(alloc, core, step)?;
    Ok(())
}

/// The head that was taken out is submitted, and what stood behind it is looked at.
fn submit(alloc: Global, core: &mut Core, taken: Taken, step: &mut Step) -> Result<(), NoMemory>
    requires headless { IsHeadless (record core.old { line = taken ∷ core.old.line }) }
    requires write { is_write taken.request ≡ true }
    requires known { All (IsKnownWrite core.old.trees) (batch_asked taken.request) }
    ensures told { OnOk result ((volume : Volume) (c : Serving) → IsBorne volume core.old c → IsTold volume step.old step.new (kept_of core.new) (submits volume c (taken ∷ core.old.line))) }
    ensures kept { OnOk result (IsKept core.new) }
    ensures survives { Survives (record core.old { line = taken ∷ core.old.line }) core.new }
    ensures newest { core.new.newest ≡ core.old.newest }
{
    let event = taken.event();
    match taken.into_request() {
        Request::Write { batch } => {
            submit_batch(alloc, core, event, &batch, step)?;
            Ok(())
        }
        _ => Ok(()),
    }
}

/// The head, whose blocks are all known, is submitted, and what stands behind it is looked at.
fn submit_head(alloc: Global, core: &mut Core, step: &mut Step) -> Result<(), NoMemory>
    requires headless { IsHeadless core.old }
    requires head { 0 < length core.old.line }
    requires heads { line_of core.old.line ≡ core.old.line }
    requires known { All (IsKnownWrite core.old.trees) (head_batch core.old.line) }
    ensures told { OnOk result ((volume : Volume) (c : Serving) → IsBorne volume core.old c → IsTold volume step.old step.new (kept_of core.new) (submits volume c core.old.line)) }
    ensures kept { OnOk result (IsKept core.new) }
    ensures survives { Survives core.old core.new }
    ensures newest { core.new.newest ≡ core.old.newest }
{
    match core.line.take_head() {
        Some(taken) => {
            submit(alloc, core, taken, step)?;
            Ok(())
        }
        None => Ok(()),
    }
}

/// Takes an answer of the session to a question of the head.
pub fn take_head_answer(
    alloc: Global,
    core: &mut Core,
    from: NodeName,
    answer: &Answer,
    step: &mut Step,
) -> Result<(), NoMemory>
    requires kept { IsKept core.old }
    requires node { IsNodeOf core.old.pipeline.window.shape from }
    ensures told { OnOk result ((volume : Volume) (c : Serving) → StandsFor volume (kept_of core.old) c → AnswerIsApart volume.geometry c answer.now → IsTold volume step.old step.new (kept_of core.new) (head_told volume c from answer.now)) }
    ensures kept { OnOk result (IsKept core.new) }
    ensures survives { Survives core.old core.new }
    ensures newest { core.new.newest ≡ core.old.newest }
{
    let headway = answer_head(
        alloc,
        &core.pipeline,
        &mut core.trees,
        &mut core.asked,
        from,
        answer,
        step,
    )?;
    match headway {
        Headway::Waits => Ok(()),
        Headway::Known => {
            submit_head(alloc, core, step)?;
            Ok(())
        }
        Headway::Faulted => {
            end_head(alloc, core, step)?;
            Ok(())
        }
    }
}
