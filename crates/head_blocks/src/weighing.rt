//! What an answer is worth to the head, and what becomes of its question and its block.
ghost use Rattle.std.specs.Prelude.{◌≡◌, ◌<◌, IfOk};
ghost use Rattle.salus_types.specs.Volume.{regions};
ghost use Rattle.verified_read.specs.Judging.{AnswersOne};
ghost use Rattle.head_blocks.specs.Weighing.{IsWeighed};

use pruned_volume::{GraftError, PrunedVolume};
use salus_message::Answer;
use salus_types::{NoMemory, NodeName};
use std::alloc::Global;
use verified_read::{Reads, Standing};

/// What an answer was worth to the head.
#[derive(Clone, Copy, PartialEq, Eq, Debug, Drop)]
pub enum Weighed {
    /// It answers none of the questions.
    Unknown,
    /// It is of a number below the region's.
    Stale,
    /// Its replica is struck.
    Struck,
    /// Its block is known, and the question closed.
    Grafted,
}

/// Grafts the path of an answer to one of the questions, and closes that question; a path to another root strikes the replica.
fn climb(
    alloc: Global,
    trees: &mut PrunedVolume,
    asked: &mut Reads,
    from: NodeName,
    answer: &Answer,
) -> Result<Weighed, NoMemory>
    requires one { AnswersOne asked.old from answer.now }
    requires region { from.region < regions trees.old.shape }
    requires shape { asked.old.shape ≡ trees.old.shape }
    ensures weighed { IfOk result (λ worth. IsWeighed worth trees.old trees.new asked.old asked.new.asked from answer.now.at answer.now) }
    ensures questions { asked.new.shape ≡ asked.old.shape }
    ensures trees { trees.new.shape ≡ trees.old.shape }
{
    match &trees.graft(alloc, answer) {
        Ok(()) => {
            asked.close(answer.read);
            Ok(Weighed::Grafted)
        }
        Err(GraftError::Differs { held, got }) => {
            asked.take_differing(from, answer, held, got);
            Ok(Weighed::Struck)
        }
        Err(GraftError::NoMemory) => Err(NoMemory),
    }
}

/// Weighs an answer beside its region's number, and climbs its path where it is of that number.
pub fn weigh(
    alloc: Global,
    trees: &mut PrunedVolume,
    asked: &mut Reads,
    from: NodeName,
    answer: &Answer,
    number: u64,
) -> Result<Weighed, NoMemory>
    requires region { from.region < regions trees.old.shape }
    requires shape { asked.old.shape ≡ trees.old.shape }
    ensures weighed { IfOk result (λ worth. IsWeighed worth trees.old trees.new asked.old asked.new.asked from number answer.now) }
    ensures questions { asked.new.shape ≡ asked.old.shape }
    ensures trees { trees.new.shape ≡ trees.old.shape }
{
    match asked.judge(from, answer, number) {
        Standing::Unknown => Ok(Weighed::Unknown),
        Standing::Stale { .. } => Ok(Weighed::Stale),
        Standing::Past { .. } => Ok(Weighed::Struck),
        Standing::Present => climb(alloc, trees, asked, from, answer),
    }
}
