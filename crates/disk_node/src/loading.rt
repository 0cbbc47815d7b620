ghost use Rattle.std.specs.Prelude.{◌≡◌, IfOk, IsTrue};
ghost use Rattle.salus_types.specs.Volume.{Shape};
ghost use Rattle.salus_types.specs.declared.names.NodeName.{NodeName as AnyName};
ghost use Rattle.disk_model.specs.Failures.{is_unharmed};
ghost use Rattle.disk_model.specs.Memory.{crash_image};
ghost use Rattle.disk_model.specs.Told.{content_of, now_of, moments_of};
ghost use Rattle.datanode_store.specs.Live.{MeansLive};
ghost use Rattle.run_rules.specs.Knowing.{KnownNode, fresh};
ghost use Rattle.disk_node.specs.Loadable.{CanBeLoaded, AllLoadable};
ghost use Rattle.disk_node.specs.Knowing.{FitsSeen, IsLoaded, seen_of};

use datanode_store::StoreError;
use disk_model::MemDisk;
use replica_node::ReplicaNode;
use salus_types::{Geometry, NoMemory, NodeName};
use std::alloc::Global;

/// The answer where nothing but memory was wanting.
pub fn want(error: StoreError) -> NoMemory
    requires { error ≡ StoreError.NoMemory }
{
    NoMemory
}

/// Loads a node from a disk of which no call is to fail, and whose file no load refuses.
pub fn load(
    alloc: Global,
    name: NodeName,
    geometry: Geometry,
    disk: MemDisk,
) -> Result<ReplicaNode<MemDisk>, NoMemory>
    requires unharmed { IsTrue (is_unharmed disk.failures) }
    requires loadable { CanBeLoaded (content_of disk) }
    ensures holds { IfOk result (λ node. MeansLive node.checkpoint.store.held (content_of disk)) }
    ensures fresh { IfOk result (λ node. FitsSeen geometry name (fresh geometry name.region node.checkpoint.store.held) (seen_of node)) }
    ensures unharmed { IfOk result (λ node. IsTrue (is_unharmed node.checkpoint.store.log.disk.disk.failures)) }
    ensures loadable { IfOk result (λ node. AllLoadable (moments_of node.checkpoint.store.log.disk.disk)) }
{
    match ReplicaNode::load(alloc, name, geometry, disk) {
        Ok(node) => Ok(node),
        Err(refused) => Err(want(refused.error)),
    }
}

/// Lets the disk of a node crash, and loads the node from what is left.
pub fn restart(
    alloc: Global,
    node: ReplicaNode<MemDisk>,
    keep: u64,
    fill: u8,
) -> Result<ReplicaNode<MemDisk>, NoMemory>
    requires { AllLoadable (moments_of node.checkpoint.store.log.disk.disk) }
    ensures loaded { IfOk result (λ new. (shape : Shape) (name : AnyName) (known : KnownNode) → FitsSeen shape name known (seen_of node) → IsLoaded shape name known (seen_of new)) }
    ensures exact { IfOk result (λ new. MeansLive new.checkpoint.store.held (crash_image keep fill (now_of node.checkpoint.store.log.disk.disk))) }
    ensures unharmed { IfOk result (λ new. IsTrue (is_unharmed new.checkpoint.store.log.disk.disk.failures)) }
    ensures loadable { IfOk result (λ new. AllLoadable (moments_of new.checkpoint.store.log.disk.disk)) }
{
    let name = node.name();
    let geometry = node.geometry();
    let mut disk = node.into_disk();
    disk.crash(keep, fill);
    match load(alloc, name, geometry, disk) {
        Ok(new) => Ok(new),
        Err(error) => Err(error),
    }
}
