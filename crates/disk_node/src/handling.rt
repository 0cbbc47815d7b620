ghost use Rattle.std.specs.Prelude.{◌≡◌, false, IfOk, IsTrue};
ghost use Rattle.salus_types.specs.Volume.{Shape};
ghost use Rattle.salus_types.specs.declared.names.NodeName.{NodeName as AnyName};
ghost use Rattle.disk_model.specs.Disk.{Through};
ghost use Rattle.datanode_log.specs.Causes.{IsCaused};
ghost use Rattle.datanode_store.specs.Live.{MeansOneLive};
ghost use Rattle.replica_rules.specs.Rules.{Receives, Ticks};
ghost use Rattle.run_rules.specs.Knowing.{KnownNode, during};
ghost use Rattle.disk_node.specs.Loadable.{AllLoadable};
ghost use Rattle.disk_node.specs.Knowing.{FitsSeen, IsAnsweredBy, Tells, seen_of};

use crate::outcome::Outcome;
use disk_model::Disk;
use replica_node::{NodeError, ReplicaNode};
use salus_types::{Items, NoMemory, Outs, Sender};
use std::alloc::Global;

// What a handling gave. That a call of the disk failed is told, and nothing is sent then.
fn outcome_of(alloc: Global, given: Result<Outs, NodeError>) -> Result<Outcome, NoMemory>
    ensures { IfOk result (λ outcome. Tells given outcome) }
{
    match given {
        Ok(outs) => Ok(Outcome {
            outs,
            failed: false,
        }),
        Err(NodeError::Device) => Ok(Outcome {
            outs: Items::new(alloc),
            failed: true,
        }),
        Err(NodeError::NoMemory) => Err(NoMemory),
    }
}

/// Hands bytes over to a node as a message of that sender.
pub fn receive<D: Disk>(
    alloc: Global,
    node: &mut ReplicaNode<D>,
    from: Sender,
    bytes: &[u8],
) -> Result<Outcome, NoMemory>
    ensures answered { IfOk result (λ outcome. (shape : Shape) (name : AnyName) (known : KnownNode) → FitsSeen shape name known (seen_of node.old) → IsAnsweredBy shape name known (Receives from bytes.now) outcome (seen_of node.new)) }
    ensures any_moment { (shape : Shape) (name : AnyName) (known : KnownNode) → FitsSeen shape name known (seen_of node.old) → Through (D.history node.old.checkpoint.store.log.disk.disk) (D.history node.new.checkpoint.store.log.disk.disk) (MeansOneLive (during shape name.region known (Receives from bytes.now))) }
    ensures loadable { AllLoadable (D.history node.old.checkpoint.store.log.disk.disk) → AllLoadable (D.history node.new.checkpoint.store.log.disk.disk) }
    ensures cause { IfOk result (λ outcome. IsCaused (D.faults node.old.checkpoint.store.log.disk.disk) (D.faults node.new.checkpoint.store.log.disk.disk) outcome.failed) }
    ensures sure { IsTrue (D.is_sure node.old.checkpoint.store.log.disk.disk) → IsTrue (D.is_sure node.new.checkpoint.store.log.disk.disk) × IfOk result (λ outcome. outcome.failed ≡ false) }
{
    let given = node.handle(from, bytes);
    match outcome_of(alloc, given) {
        Ok(outcome) => Ok(outcome),
        Err(error) => Err(error),
    }
}

/// Hands a tick over to a node, in the same way.
pub fn tick<D: Disk>(alloc: Global, node: &mut ReplicaNode<D>) -> Result<Outcome, NoMemory>
    ensures answered { IfOk result (λ outcome. (shape : Shape) (name : AnyName) (known : KnownNode) → FitsSeen shape name known (seen_of node.old) → IsAnsweredBy shape name known Ticks outcome (seen_of node.new)) }
    ensures any_moment { (shape : Shape) (name : AnyName) (known : KnownNode) → FitsSeen shape name known (seen_of node.old) → Through (D.history node.old.checkpoint.store.log.disk.disk) (D.history node.new.checkpoint.store.log.disk.disk) (MeansOneLive (during shape name.region known Ticks)) }
    ensures loadable { AllLoadable (D.history node.old.checkpoint.store.log.disk.disk) → AllLoadable (D.history node.new.checkpoint.store.log.disk.disk) }
    ensures cause { IfOk result (λ outcome. IsCaused (D.faults node.old.checkpoint.store.log.disk.disk) (D.faults node.new.checkpoint.store.log.disk.disk) outcome.failed) }
    ensures sure { IsTrue (D.is_sure node.old.checkpoint.store.log.disk.disk) → IsTrue (D.is_sure node.new.checkpoint.store.log.disk.disk) × IfOk result (λ outcome. outcome.failed ≡ false) }
{
    let given = node.tick();
    match outcome_of(alloc, given) {
        Ok(outcome) => Ok(outcome),
        Err(error) => Err(error),
    }
}
