ghost use Rattle.std.specs.Prelude.{◌≡◌, ◌<◌, ◌≤◌, ◌/◌, ◌%◌, length, IfOk, OnOk};
ghost use Rattle.salus_types.specs.Volume.{nodes};
ghost use Rattle.schedule_text.specs.Limits.{IsOfVolume};
ghost use Rattle.unanimous_certificate.specs.Kept.{node_place};
ghost use Rattle.replica_rules.specs.Rules.{Receives, Ticks};
ghost use Rattle.salus_world.specs.Places.{name_at, ChangesAt, HasAnswered, HasStopped, HasCrashed, IsRenewed, IsNamed};

use disk_model::{Disk, MemDisk};
use disk_node::{DiskNode, Outcome};
use salus_types::{Geometry, NoMemory, NodeName, Sender};

/// A node's place among all nodes of the volume, region by region.
pub fn place_of(geometry: &Geometry, name: NodeName) -> usize
    requires { IsOfVolume geometry.now name }
    ensures value { result ≡ node_place geometry.now name }
    ensures bound { result < nodes geometry.now }
{
    name.region as usize * geometry.replicas() as usize + name.replica as usize
}

/// The name of the node at that place, where each region has so many.
fn name_in(place: usize, replicas: usize) -> NodeName
    requires place { place < 80 }
    requires replicas { 1 ≤ replicas }
    ensures { result ≡ record { region = place / replicas; replica = place % replicas } }
{
    NodeName {
        region: (place / replicas) as u16,
        replica: (place % replicas) as u8,
    }
}

/// The name of the node at that place.
pub fn name_at(geometry: &Geometry, place: usize) -> NodeName
    requires { place < nodes geometry.now }
    ensures { result ≡ name_at geometry.now place }
{
    let _count = geometry.nodes();
    name_in(place, geometry.replicas() as usize)
}

/// Hands bytes to the node at that place as a message of that sender.
pub fn hand_at<D: Disk>(
    nodes: &mut Vec<DiskNode<D>>,
    place: usize,
    from: Sender,
    bytes: &[u8],
) -> Result<Outcome, NoMemory>
    requires { place < length nodes.old.items }
    ensures { IfOk result (λ outcome. ChangesAt place nodes.old.items nodes.new.items (HasAnswered (Receives from bytes.now) outcome)) }
{
    let outcome = nodes[place].receive(from, bytes)?;
    Ok(outcome)
}

/// Hands a tick to it.
pub fn tick_at<D: Disk>(nodes: &mut Vec<DiskNode<D>>, place: usize) -> Result<Outcome, NoMemory>
    requires { place < length nodes.old.items }
    ensures { IfOk result (λ outcome. ChangesAt place nodes.old.items nodes.new.items (HasAnswered Ticks outcome)) }
{
    let outcome = nodes[place].tick()?;
    Ok(outcome)
}

/// Hands bytes to it while its disk stops after so many calls; then it crashes, and is loaded.
pub fn stop_at(
    nodes: &mut Vec<DiskNode<MemDisk>>,
    place: usize,
    from: Sender,
    bytes: &[u8],
    calls: u64,
    keep: u64,
    fill: u8,
) -> Result<Outcome, NoMemory>
    requires { place < length nodes.old.items }
    ensures { IfOk result (λ outcome. ChangesAt place nodes.old.items nodes.new.items (HasStopped calls keep fill (Receives from bytes.now) outcome)) }
{
    let outcome = nodes[place].stop(from, bytes, calls, keep, fill)?;
    Ok(outcome)
}

/// Lets it crash, and loads it.
pub fn crash_at(
    nodes: &mut Vec<DiskNode<MemDisk>>,
    place: usize,
    keep: u64,
    fill: u8,
) -> Result<(), NoMemory>
    requires { place < length nodes.old.items }
    ensures { OnOk result (ChangesAt place nodes.old.items nodes.new.items (HasCrashed keep fill)) }
{
    nodes[place].crash(keep, fill)?;
    Ok(())
}

/// Starts it anew.
pub fn replace_at(nodes: &mut Vec<DiskNode<MemDisk>>, place: usize) -> Result<(), NoMemory>
    requires { place < length nodes.old.items }
    ensures { OnOk result (ChangesAt place nodes.old.items nodes.new.items IsRenewed) }
{
    nodes[place].replace()?;
    Ok(())
}

/// Lets the given call of its disk fail, counted from now and from 1.
pub fn fail_at(nodes: &mut Vec<DiskNode<MemDisk>>, place: usize, call: u64) -> Result<(), NoMemory>
    requires inside { place < length nodes.old.items }
    requires call { 1 ≤ call }
    ensures { OnOk result (ChangesAt place nodes.old.items nodes.new.items (IsNamed call)) }
{
    nodes[place].fail(call)?;
    Ok(())
}
