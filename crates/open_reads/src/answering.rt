ghost use Rattle.std.specs.Prelude.{◌≡◌, ◌<◌, Some, OnOk};
ghost use Rattle.std.specs.Option.{option_map};
ghost use Rattle.salus_types.specs.Volume.{regions};
ghost use Rattle.client_rules.specs.State.{Serving};
ghost use Rattle.client_asking.specs.Leaving.{Bears};
ghost use Rattle.verified_read.specs.Table.{HaveOwnNumbers, question_at};
ghost use Rattle.open_reads.specs.Telling.{IsReadTold, KeepsRoom};

use crate::ending::{end_faulted, end_read};
use client_asking::{Step, ask_node};
use client_pipeline::Pipeline;
use salus_message::Answer;
use salus_types::{NoMemory, NodeName};
use std::alloc::Global;
use verified_read::{Question, Reads, Verdict};

/// An answer comes under the number of an open read.
fn answer_open(
    alloc: Global,
    pipeline: &Pipeline,
    reads: &mut Reads,
    from: NodeName,
    question: &Question,
    answer: Answer,
    step: &mut Step,
) -> Result<(), NoMemory>
    requires shape { reads.old.shape ≡ pipeline.now.window.shape }
    requires region { from.region < regions pipeline.now.window.shape }
    requires own { HaveOwnNumbers reads.old.asked }
    requires named { option_map (λ o. o.question) (question_at answer.read reads.old.asked) ≡ Some question.now }
    ensures told { OnOk result ((c : Serving) → Bears pipeline.now reads.old.asked c → IsReadTold pipeline.now.window.shape c from answer step.old reads.new.asked step.new) }
    ensures keeps { KeepsRoom reads.old.asked reads.new.asked }
    ensures shape { reads.new.shape ≡ reads.old.shape }
{
    let number = pipeline.number_of(from.region);
    let root = pipeline.root_of(from.region);
    match reads.take_answer(from, &answer, number, &root) {
        Verdict::Unknown => Ok(()),
        Verdict::Stale { .. } => ask_node(alloc, pipeline, from, question, &mut step.outs),
        Verdict::Block => end_read(question, answer.bytes, &mut step.lines),
        Verdict::Past { .. } => end_faulted(alloc, reads, question, &mut step.lines),
        Verdict::Bad { .. } => end_faulted(alloc, reads, question, &mut step.lines),
    }
}

/// An answer of the served session, under a number of a read, comes from a node of the volume.
///
/// Its block, where its path leads to the region's root, goes into the line that ends the read. An answer of a number below the
/// region's is asked for again. Any other answer to an open read strikes its replica, and the read ends with a fault where every
/// replica is struck. One that answers no open read is ignored. After an error the client is used no more.
pub fn answer_read(
    alloc: Global,
    pipeline: &Pipeline,
    reads: &mut Reads,
    from: NodeName,
    answer: Answer,
    step: &mut Step,
) -> Result<(), NoMemory>
    requires shape { reads.old.shape ≡ pipeline.now.window.shape }
    requires region { from.region < regions pipeline.now.window.shape }
    ensures told { OnOk result ((c : Serving) → Bears pipeline.now reads.old.asked c → IsReadTold pipeline.now.window.shape c from answer step.old reads.new.asked step.new) }
    // Also after an error.
    ensures keeps { KeepsRoom reads.old.asked reads.new.asked }
    ensures shape { reads.new.shape ≡ reads.old.shape }
{
    prove!(reads.count() <= 64);
    match reads.question(answer.read) {
        Some(question) => answer_open(alloc, pipeline, reads, from, &question, answer, step),
        None => Ok(()),
    }
}
