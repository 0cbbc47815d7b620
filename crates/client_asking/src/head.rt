//! What the write at the head of the waiting line asks for: each block that it writes, ascending and once.
ghost use Rattle.std.specs.Prelude.{◌≡◌, ◌++◌, ◌∷◌, [], ◌<◌, ◌≤◌, ◌+◌, ◌*◌, ◌^◌, flat_map, map, length, OnOk};
ghost use Rattle.std.specs.List.{AllByRecursion};
ghost use Rattle.salus_types.specs.Volume.{blocks};
ghost use Rattle.volume_model.specs.Parts.{blocks_of};
ghost use Rattle.salus_model.specs.Waiting.{Taken as AnyTaken, questions_from};
ghost use Rattle.posting.specs.Letters.{out_of_letter};
ghost use Rattle.client_rules.specs.State.{Serving};
ghost use Rattle.client_rules.specs.Tables.{asks, fresh, head_questions, line_of};
ghost use Rattle.client_pipeline.specs.Standing.{StandsFor};
ghost use Rattle.client_asking.specs.Lining.{IsAccepted, IsBatchOf};

use crate::asking::ask_group;
use crate::blocks::distinct_blocks;
use client_pipeline::Pipeline;
use salus_model::Request;
use salus_types::{Batch, NoMemory, Out};
use std::alloc::Global;
use verified_read::{Question, Reads};
use waiting_line::WaitingLine;

/// Asks for each of these blocks: the j-th, from 1, under the number 2^32 * j + `event`.
fn ask_each(
    alloc: Global,
    pipeline: &Pipeline,
    asked: &mut Reads,
    event: u64,
    written: &[u32],
    outs: &mut Vec<Out>,
) -> Result<(), NoMemory>
    requires empty { asked.old.asked ≡ [] }
    requires shape { asked.old.shape ≡ pipeline.now.window.shape }
    requires event { event < 2 ^ 32 }
    requires few { length written.now ≤ 64 }
    requires within { AllByRecursion (λ b. b < blocks pipeline.now.window.shape) written.now }
    ensures asked { OnOk result (asked.new.asked ≡ map (fresh pipeline.now.window.shape) (questions_from event 1 written.now)) }
    ensures outs { OnOk result ((c : Serving) → StandsFor pipeline.now c → outs.new.items ≡ outs.old.items ++ map out_of_letter (flat_map (λ q. asks pipeline.now.window.shape c q) (questions_from event 1 written.now))) }
    ensures shape { asked.new.shape ≡ asked.old.shape }
{
    'questions: for i in 0..written.len() {
        let question = Question {
            event,
            number: 4_294_967_296 * (i as u64 + 1) + event,
            block: written[i],
        };
        asked.ask(alloc, question)?;
        ask_group(alloc, pipeline, &question, outs)?;
    }
    Ok(())
}

/// Asks for the blocks of a batch.
fn ask_batch(
    alloc: Global,
    pipeline: &Pipeline,
    asked: &mut Reads,
    event: u64,
    batch: &Batch,
    outs: &mut Vec<Out>,
) -> Result<(), NoMemory>
    requires empty { asked.old.asked ≡ [] }
    requires shape { asked.old.shape ≡ pipeline.now.window.shape }
    requires event { event < 2 ^ 32 }
    requires batch { IsBatchOf pipeline.now.window.shape batch.now }
    ensures asked { OnOk result (asked.new.asked ≡ map (fresh pipeline.now.window.shape) (questions_from event 1 (blocks_of pipeline.now.window.shape batch.now))) }
    ensures outs { OnOk result ((c : Serving) → StandsFor pipeline.now c → outs.new.items ≡ outs.old.items ++ map out_of_letter (flat_map (λ q. asks pipeline.now.window.shape c q) (questions_from event 1 (blocks_of pipeline.now.window.shape batch.now)))) }
    ensures shape { asked.new.shape ≡ asked.old.shape }
{
    let geometry = pipeline.geometry();
    let blocks = distinct_blocks(alloc, &geometry, batch.as_slice())?;
    ask_each(alloc, pipeline, asked, event, blocks.as_slice(), outs)
}

/// The write at the head of the waiting line, if there is one, asks for its blocks.
pub fn ask_head(
    alloc: Global,
    pipeline: &Pipeline,
    line: &WaitingLine,
    asked: &mut Reads,
    outs: &mut Vec<Out>,
) -> Result<(), NoMemory>
    requires empty { asked.old.asked ≡ [] }
    requires shape { asked.old.shape ≡ pipeline.now.window.shape }
    requires head { line_of line.now ≡ line.now }
    requires accepted { AllByRecursion (λ (t : AnyTaken). (t.event < 2 ^ 32) × IsAccepted pipeline.now.window.shape t.request) line.now }
    ensures asked { OnOk result (asked.new.asked ≡ map (fresh pipeline.now.window.shape) (head_questions pipeline.now.window.shape line.now)) }
    ensures outs { OnOk result ((c : Serving) → StandsFor pipeline.now c → outs.new.items ≡ outs.old.items ++ map out_of_letter (flat_map (λ q. asks pipeline.now.window.shape c q) (head_questions pipeline.now.window.shape line.now))) }
    ensures shape { asked.new.shape ≡ asked.old.shape }
{
    let taken = match line.head() {
        Some(taken) => taken,
        None => return Ok(()),
    };
    match taken.request() {
        Request::Write { batch } => ask_batch(alloc, pipeline, asked, taken.event(), batch, outs),
        Request::Read { .. } => Ok(()),
        Request::Barrier => Ok(()),
        Request::Restart { .. } => Ok(()),
        Request::Reassign { .. } => Ok(()),
    }
}
