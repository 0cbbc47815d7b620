//! An answer to a question of the head.
ghost use Rattle.std.specs.Prelude.{◌≡◌, ◌<◌, ◌++◌, ◌∷◌, [], List, map, Some, IfOk, OnOk};
ghost use Rattle.salus_types.specs.Volume.{regions};
ghost use Rattle.schedule_text.specs.declared.schedule.Volume.{Volume};
ghost use Rattle.salus_model.specs.Waiting.{Taken};
ghost use Rattle.posting.specs.Letters.{out_of_letter};
ghost use Rattle.client_rules.specs.State.{Open, Serving, to_all};
ghost use Rattle.client_rules.specs.Tables.{ask_of, open_at};
ghost use Rattle.client_pipeline.specs.Standing.{StandsFor};
ghost use Rattle.client_premises.specs.Premises.{AnswerIsApart};
ghost use Rattle.pruned_volume.specs.Trees.{AgreesAll};
ghost use Rattle.verified_read.specs.Judging.{AnswersOne};
ghost use Rattle.head_blocks.specs.Headed.{IsHeaded, IsLeft};
ghost use Rattle.head_blocks.specs.Advancing.{BearsHead, IsTold, head_told};

use crate::ending::{end_if_faulted, headway_after};
use crate::headway::Headway;
use crate::weighing::{Weighed, weigh};
use client_asking::{Step, ask_node};
use client_pipeline::Pipeline;
use pruned_volume::PrunedVolume;
use salus_message::Answer;
use salus_types::{NoMemory, NodeName, Out};
use std::alloc::Global;
use verified_read::Reads;

/// Asks the replica again for the block of an answer.
fn ask_again(
    alloc: Global,
    pipeline: &Pipeline,
    asked: &Reads,
    from: NodeName,
    answer: &Answer,
    outs: &mut Vec<Out>,
) -> Result<(), NoMemory>
    requires one { AnswersOne asked.now from answer.now }
    requires region { from.region < regions pipeline.now.window.shape }
    requires shape { asked.now.shape ≡ pipeline.now.window.shape }
    ensures { OnOk result ((c : Serving) (o : Open) → StandsFor pipeline.now c → open_at answer.now asked.now.asked ≡ Some o → outs.new.items ≡ outs.old.items ++ map out_of_letter (to_all (from ∷ []) (ask_of pipeline.now.window.shape c o.question))) }
{
    let _count = asked.count(); // each question has a number of its own
    match asked.question(answer.read) {
        Some(question) => ask_node(alloc, pipeline, from, &question, outs),
        None => Ok(()),
    }
}

/// Takes an answer for the head, of the client's session. A stale one is asked again of its replica. The path is climbed once.
///
/// Where the head waits on, all is done. Where its blocks are known, or it ends with a fault, no question is left, and the head
/// has still to be taken out of the line: a known one to be submitted, and then to let leave what stands behind it. After an
/// error the client is used no more.
pub fn answer_head(
    alloc: Global,
    pipeline: &Pipeline,
    trees: &mut PrunedVolume,
    asked: &mut Reads,
    from: NodeName,
    answer: &Answer,
    step: &mut Step,
) -> Result<Headway, NoMemory>
    requires region { from.region < regions pipeline.now.window.shape }
    requires questions { asked.old.shape ≡ pipeline.now.window.shape }
    requires trees { trees.old.shape ≡ pipeline.now.window.shape }
    // For each client of the rules that they stand for, behind the premise on digests.
    ensures told { IfOk result (λ headway. (volume : Volume) (c : Serving) → volume.geometry ≡ pipeline.now.window.shape → BearsHead pipeline.now trees.old asked.old.asked c → AnswerIsApart pipeline.now.window.shape c answer.now → IsTold headway volume c (head_told volume c from answer.now) asked.new.asked step.old step.new) }
    ensures agrees { OnOk result ((c : Serving) → BearsHead pipeline.now trees.old asked.old.asked c → AnswerIsApart pipeline.now.window.shape c answer.now → AgreesAll trees.new c.contents) }
    // And without any premise.
    ensures headed { IfOk result (λ headway. (line : List Taken) → IsHeaded trees.old asked.old.asked line → IsLeft headway trees.new asked.new.asked line) }
    ensures questions { asked.new.shape ≡ asked.old.shape }
    ensures trees { trees.new.shape ≡ trees.old.shape }
{
    let number = pipeline.number_of(from.region);
    let _count = asked.count(); // each question has a number of its own
    match weigh(alloc, trees, asked, from, answer, number)? {
        Weighed::Unknown => Ok(Headway::Waits),
        Weighed::Stale => {
            ask_again(alloc, pipeline, asked, from, answer, &mut step.outs)?;
            Ok(Headway::Waits)
        }
        Weighed::Struck => end_if_faulted(alloc, trees, asked, answer.read, step),
        Weighed::Grafted => Ok(headway_after(asked)),
    }
}
