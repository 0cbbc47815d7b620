ghost use Rattle.std.specs.Prelude.{◌≡◌, ◌<◌, ◌*◌, ◌+◌, ◌%◌};
ghost use Rattle.unanimous_certificate.specs.Kept.{node_place, vote_place};

use salus_types::{Geometry, NodeName};

/// A node's place among all nodes of the volume, region by region.
pub fn node_place(geometry: &Geometry, node: NodeName) -> usize
    ensures value { result ≡ node_place geometry.now node }
    ensures bound { result < 1048576 }
{
    node.region as usize * geometry.replicas() as usize + node.replica as usize
}

/// Where the vote of a node for a number stands: each node has 16 places.
pub fn vote_place(geometry: &Geometry, node: NodeName, seq: u64) -> usize
    ensures { result ≡ vote_place geometry.now node seq }
{
    node_place(geometry, node) * 16 + (seq % 16) as usize
}
