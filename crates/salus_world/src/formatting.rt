//! The nodes of a volume that was never written.
ghost use Rattle.std.specs.Prelude.{◌≡◌, [], length, slice_get, Some, IfOk, IfErr, IsTrue};
ghost use Rattle.std.specs.List.{AllByRecursion};
ghost use Rattle.salus_types.specs.Volume.{IsVolume, nodes};
ghost use Rattle.disk_model.specs.Disk.{Now};
ghost use Rattle.salus_world.specs.Places.{AllThere, AllUnharmed, AreFormatted};
ghost use Rattle.salus_world.specs.Refusing.{IsRefused, IsRefusedAs};

use crate::error::WorldError;
use crate::places::name_at;
use datanode_log::Refused;
use datanode_store::StoreError;
use disk_model::Disk;
use disk_node::DiskNode;
use salus_hash::HmacKey;
use salus_types::{Geometry, NoMemory, NodeName};
use std::alloc::Global;

// The disks in their order: those of the nodes, then that one, and then those that are left, of which the last comes first.
fn hand_back<D: Disk + Drop>(
    alloc: Global,
    nodes: Vec<DiskNode<D>>,
    disk: D,
    mut left: Vec<D>,
) -> Result<Vec<D>, NoMemory>
    ensures { AllThere nodes.items → IfOk result (λ disks. slice_get disks.items (length nodes.items) ≡ Some disk) }
{
    let mut disks = Vec::new(alloc);
    'nodes: for node in nodes {
        match node.into_disk() {
            Some(disk) => disks.push(disk)?,
            None => {}
        }
    }
    disks.push(disk)?;
    left.reverse();
    disks.append(&mut left)?;
    Ok(disks)
}

// Why there is no node of that name over its disk.
fn refuse<D: Disk + Drop>(
    alloc: Global,
    name: NodeName,
    refused: Refused<D, StoreError>,
    made: Vec<DiskNode<D>>,
    left: Vec<D>,
) -> WorldError<D>
    ensures { AllThere made.items → IsRefusedAs (length made.items) refused.disk refused.error result }
{
    let Refused { disk, error } = refused;
    let disks = match hand_back(alloc, made, disk, left) {
        Ok(disks) => disks,
        Err(NoMemory) => return WorldError::NoMemory,
    };
    match error {
        StoreError::Device => WorldError::Device { disks },
        StoreError::NoMemory => WorldError::NoMemory,
        StoreError::Foreign => WorldError::Node { name, error, disks },
        StoreError::Damaged { .. } => WorldError::Node { name, error, disks },
        StoreError::BadRecord { .. } => WorldError::Node { name, error, disks },
    }
}

/// Formats each of these empty disks, one for each node, and loads its node.
pub fn format_nodes<D: Disk + Drop>(
    alloc: Global,
    geometry: Geometry,
    key: &HmacKey,
    disks: Vec<D>,
) -> Result<Vec<DiskNode<D>>, WorldError<D>>
    requires limits { IsVolume geometry }
    requires count { length disks.items ≡ nodes geometry }
    requires empty { AllByRecursion (λ disk. Now (D.history disk) (λ now. now.seen ≡ [])) disks.items }
    ensures formatted { IfOk result (λ made. AreFormatted geometry key.now (nodes geometry) made.items) }
    ensures sure { AllByRecursion (λ disk. IsTrue (D.is_sure disk)) disks.items → IfOk result (λ made. AllUnharmed made.items) }
    ensures refused { IfErr result (IsRefused D.history D.faults D.is_sure disks.items) }
{
    let mut left = disks;
    left.reverse();
    let mut made = Vec::new(alloc);
    'nodes: while let Some(disk) = left.pop() {
        let name = name_at(&geometry, made.len());
        match DiskNode::format(alloc, geometry, key, name, disk) {
            Ok(node) => match made.push(node) {
                Ok(()) => {}
                Err(_) => return Err(WorldError::NoMemory),
            },
            Err(refused) => return Err(refuse(alloc, name, refused, made, left)),
        }
    }
    Ok(made)
}
