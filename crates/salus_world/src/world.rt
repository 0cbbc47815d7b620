ghost use Rattle.std.specs.Prelude.{◌≡◌, ◌≤◌, List, Some, [], length, slice_get, IfOk, IfErr, IsTrue};
ghost use Rattle.std.specs.List.{AllByRecursion};
ghost use Rattle.salus_types.specs.Volume.{IsVolume, nodes};
ghost use Rattle.schedule_text.specs.Limits.{IsOfVolume};
ghost use Rattle.unanimous_certificate.specs.Kept.{node_place};
ghost use Rattle.schedule_text.specs.declared.schedule.Event.{Event as AnyEvent};
ghost use Rattle.disk_model.specs.Disk.{Now};
ghost use Rattle.run_course.specs.Course.{no_course};
ghost use Rattle.salus_world.specs.Places.{AllUnharmed, AreFormatted};
ghost use Rattle.salus_world.specs.Refusing.{IsRefused};

use crate::error::WorldError;
use crate::formatting::format_nodes;
use crate::places::place_of;
use client_node::ClientNode;
use disk_lane::Lane;
use disk_model::Disk;
use disk_node::DiskNode;
use printed_lines::Line;
use salus_hash::HmacKey;
use salus_model::Sent;
use salus_types::{Geometry, NoMemory, NodeName};
use schedule_text::Volume;
use std::alloc::Global;

/// The parties, every message sent, and the lines so far. After an error it is used no more.
#[derive(Drop)]
pub struct World<D: Disk>
where
    Lane<D>: Disk,
{
    pub(crate) geometry: Geometry,
    pub(crate) client: ClientNode,
    // In order of region and replica.
    pub(crate) nodes: Vec<DiskNode<D>>,
    pub(crate) sent: Vec<Sent>,
    // Of the first so many messages each is delivered or dropped.
    pub(crate) lowest: usize,
    pub(crate) lines: Vec<Line>,
}

impl<D: Disk + Drop> World<D> {
    ghost use Rattle.salus_world.specs.Kept.{Origin, IsKept, BeginsAt};

    /// A volume that was never written, and no message. The disks, one for each node in order of region and replica, are empty;
    /// each is formatted, and its node loaded.
    pub fn new(alloc: Global, volume: &Volume, disks: Vec<D>) -> Result<World<D>, WorldError<D>>
        requires limits { IsVolume volume.now.geometry }
        requires key { length volume.now.key ≤ 64 }
        requires count { length disks.items ≡ nodes volume.now.geometry }
        requires empty { AllByRecursion (λ disk. Now (D.history disk) (λ now. now.seen ≡ [])) disks.items }
        ensures kept { IfOk result (λ world. (origin : Origin) (all : List AnyEvent) → BeginsAt origin volume.now world → IsKept origin volume.now all 1 1 world no_course) }
        // Where its disk tells what it holds, each node holds what it is formatted with.
        ensures formatted { IfOk result (λ world. AreFormatted volume.now.geometry volume.now.key (nodes volume.now.geometry) world.nodes.items) }
        ensures sure { AllByRecursion (λ disk. IsTrue (D.is_sure disk)) disks.items → IfOk result (λ world. AllUnharmed world.nodes.items) }
        ensures refused { IfErr result (IsRefused D.history D.faults D.is_sure disks.items) }
    {
        let geometry = volume.geometry;
        let key = HmacKey::new(volume.key.as_slice());
        let nodes = match format_nodes(alloc, geometry, &key, disks) {
            Ok(nodes) => nodes,
            Err(error) => return Err(error),
        };
        match ClientNode::format(alloc, geometry, key) {
            Ok(client) => Ok(World {
                geometry,
                client,
                nodes,
                sent: Vec::new(alloc),
                lowest: 0,
                lines: Vec::new(alloc),
            }),
            Err(NoMemory) => Err(WorldError::NoMemory),
        }
    }
}

impl<D: Disk> World<D> {
    ghost use Rattle.salus_world.specs.Kept.{IsOngoing};

    /// All messages, in the order sent. They are numbered from 1.
    pub fn sent(&self) -> &[Sent]
        ensures { result.now ≡ self.now.sent.items }
    {
        self.sent.as_slice()
    }

    /// The lines so far, in order.
    pub fn lines(&self) -> &[Line]
        ensures { result.now ≡ self.now.lines.items }
    {
        self.lines.as_slice()
    }

    /// The node of that name.
    pub fn node(&self, name: NodeName) -> &DiskNode<D>
        requires kept { IsOngoing self.now }
        requires of { IsOfVolume self.now.geometry name }
        ensures { slice_get self.now.nodes.items (node_place self.now.geometry name) ≡ Some result.now }
    {
        &self.nodes[place_of(&self.geometry, name)]
    }
}
