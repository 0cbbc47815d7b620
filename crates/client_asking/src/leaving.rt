//! What leaves the waiting line: reads are open and ask for their blocks, barriers wait or are answered.
ghost use Rattle.std.specs.Prelude.{◌≡◌, ◌++◌, ◌∷◌, [], ◌<◌, ◌≤◌, ◌+◌, ℕ, true, map, length, None, OnOk};
ghost use Rattle.salus_types.specs.Volume.{blocks};
ghost use Rattle.salus_model.specs.Waiting.{is_read, is_barrier, barriers_among, left_of};
ghost use Rattle.posting.specs.Letters.{out_of_letter};
ghost use Rattle.client_rules.specs.State.{Serving};
ghost use Rattle.client_rules.specs.Tables.{asks, fresh, line_of, read_question};
ghost use Rattle.client_pipeline.specs.Pipeline.{Stays};
ghost use Rattle.client_pipeline.specs.Standing.{StandsFor};
ghost use Rattle.verified_read.specs.Table.{question_at};
ghost use Rattle.client_asking.specs.Leaving.{Bears, HaveLeft};
ghost use Rattle.client_asking.specs.Lining.{AreUpTo, HasRoom, IsAccepted, numbers_taken};

use crate::asking::ask_group;
use crate::step::Step;
use client_pipeline::Pipeline;
use salus_model::Request;
use salus_types::{NoMemory, Out};
use std::alloc::Global;
use verified_read::{Question, Reads};
use waiting_line::{Taken, WaitingLine};

/// A read is open, and asks for its block.
fn open_read(
    alloc: Global,
    pipeline: &Pipeline,
    reads: &mut Reads,
    event: u64,
    block: u64,
    outs: &mut Vec<Out>,
) -> Result<(), NoMemory>
    requires within { block < blocks pipeline.now.window.shape }
    requires shape { reads.old.shape ≡ pipeline.now.window.shape }
    requires room { length reads.old.asked < 64 }
    requires free { question_at event reads.old.asked ≡ None }
    ensures asked { OnOk result (reads.new.asked ≡ reads.old.asked ++ fresh pipeline.now.window.shape (record { event = event; number = event; block = block }) ∷ []) }
    ensures outs { OnOk result ((c : Serving) → StandsFor pipeline.now c → outs.new.items ≡ outs.old.items ++ map out_of_letter (asks pipeline.now.window.shape c (record { event = event; number = event; block = block }))) }
    ensures shape { reads.new.shape ≡ reads.old.shape }
{
    let geometry = pipeline.geometry();
    prove!(geometry.blocks() <= 16384);
    let question = Question {
        event,
        number: event,
        block: block as u32,
    };
    reads.ask(alloc, question)?;
    ask_group(alloc, pipeline, &question, outs)
}

/// A request has left the waiting line.
fn leave_one(
    alloc: Global,
    pipeline: &mut Pipeline,
    reads: &mut Reads,
    taken: &Taken,
    step: &mut Step,
) -> Result<(), NoMemory>
    requires accepted { IsAccepted pipeline.old.window.shape taken.now.request }
    requires shape { reads.old.shape ≡ pipeline.old.window.shape }
    requires room { is_read taken.now.request ≡ true → length reads.old.asked < 64 }
    requires free { question_at taken.now.event reads.old.asked ≡ None }
    requires barriers { is_barrier taken.now.request ≡ true → length pipeline.old.window.barriers < 64 }
    ensures left { OnOk result ((c : Serving) → Bears pipeline.old reads.old.asked c → HaveLeft pipeline.old.window.shape (taken.now ∷ []) c step.old pipeline.new reads.new.asked step.new) }
    ensures reads { OnOk result (reads.new.asked ≡ reads.old.asked ++ map (fresh pipeline.old.window.shape) (read_question taken.now.event taken.now.request)) }
    ensures barriers { OnOk result (length pipeline.new.window.barriers ≤ length pipeline.old.window.barriers + barriers_among (taken.now ∷ [])) }
    ensures stays { Stays pipeline.old pipeline.new }
    ensures shape { reads.new.shape ≡ reads.old.shape }
{
    let event = taken.event();
    match taken.request() {
        Request::Read { block } => {
            open_read(alloc, pipeline, reads, event, *block, &mut step.outs)
        }
        Request::Barrier => pipeline.barrier(alloc, event, &mut step.lines),
        _ => Ok(()),
    }
}

/// The requests before the first write leave the waiting line, in their order.
pub fn leave_all(
    alloc: Global,
    pipeline: &mut Pipeline,
    reads: &mut Reads,
    line: &mut WaitingLine,
    step: &mut Step,
) -> Result<(), NoMemory>
    requires shape { reads.old.shape ≡ pipeline.old.window.shape }
    requires room { HasRoom pipeline.old reads.old.asked line.old }
    ensures left { OnOk result ((c : Serving) → Bears pipeline.old reads.old.asked c → HaveLeft pipeline.old.window.shape (left_of line.old) c step.old pipeline.new reads.new.asked step.new) }
    ensures line { OnOk result (line.new ≡ line_of line.old) }
    ensures room { OnOk result (HasRoom pipeline.new reads.new.asked line.new) }
    ensures up_to { OnOk result ((high : ℕ) → AreUpTo high (numbers_taken reads.old.asked line.old) → AreUpTo high (numbers_taken reads.new.asked line.new)) }
    ensures stays { Stays pipeline.old pipeline.new }
    ensures shape { reads.new.shape ≡ reads.old.shape }
    ensures rest { line_of line.new ≡ line_of line.old }
{
    'line: while let Some(taken) = line.leave() {
        leave_one(alloc, pipeline, reads, &taken, step)?;
    }
    Ok(())
}
