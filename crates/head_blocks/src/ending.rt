//! What is left of the head's questions, and the fault with which it ends.
ghost use Rattle.std.specs.Prelude.{◌≡◌, ℕ, List, IfOk, OnOk};
ghost use Rattle.pruned_volume.specs.Trees.{AgreesAll};
ghost use Rattle.head_blocks.specs.Ending.{IsEnding, fault_in, headway_of};

use crate::headway::Headway;
use client_asking::Step;
use printed_lines::Line;
use pruned_volume::PrunedVolume;
use salus_types::{Items, NoMemory};
use std::alloc::Global;
use verified_read::Reads;

/// How far the head has come where a block is known.
pub fn headway_after(asked: &Reads) -> Headway
    ensures { result ≡ headway_of asked.now.asked }
{
    if asked.count() == 0 {
        Headway::Known
    } else {
        Headway::Waits
    }
}

/// The line of a fault, where every replica is struck at the question of that number.
fn fault_line(alloc: Global, asked: &Reads, read: u64) -> Result<Option<Line>, NoMemory>
    ensures { IfOk result (λ line. line ≡ fault_in read asked.now.asked) }
{
    match (asked.question(read), asked.faulted(read)) {
        (Some(question), Some(strikes)) => Ok(Some(Line::Fault {
            event: question.event,
            block: u64::from(question.block),
            strikes: Items::from_slice(alloc, strikes.as_slice())?,
        })),
        _ => Ok(None),
    }
}

/// Ends the head where every replica is struck at the question of that number: its line is added, nothing is asked for any
/// more, and what was known is forgotten.
pub fn end_if_faulted(
    alloc: Global,
    trees: &mut PrunedVolume,
    asked: &mut Reads,
    read: u64,
    step: &mut Step,
) -> Result<Headway, NoMemory>
    requires shape { asked.old.shape ≡ trees.old.shape }
    ensures ending { IfOk result (λ headway. IsEnding headway trees.old trees.new asked.old.asked asked.new.asked (fault_in read asked.old.asked) step.old step.new) }
    ensures agrees { OnOk result ((contents : List (List ℕ)) → AgreesAll trees.old contents → AgreesAll trees.new contents) }
    ensures questions { asked.new.shape ≡ asked.old.shape }
    ensures trees { trees.new.shape ≡ trees.old.shape }
{
    match fault_line(alloc, asked, read)? {
        None => Ok(Headway::Waits),
        Some(line) => {
            step.lines.push(line)?;
            *asked = Reads::new(alloc, &trees.geometry());
            trees.forget();
            Ok(Headway::Faulted)
        }
    }
}
