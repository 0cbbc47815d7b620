//! Messages to the nodes that haven't answered in the phase.
ghost use Rattle.std.specs.Prelude.{◌≡◌, ◌++◌, ◌∷◌, ◌<◌, [], filter, map, OnOk};
ghost use Rattle.salus_types.specs.Volume.{regions};
ghost use Rattle.salus_types.specs.declared.names.Sender.TheVariants.{Node as IsNode};
ghost use Rattle.volume_model.specs.Groups.{all_nodes, group_of};
ghost use Rattle.posting.specs.Posting.{bytes_to};
ghost use Rattle.volume_restart.specs.Restarting.{shape_of};
ghost use Rattle.session_opening.specs.Answered.{is_waited_for};

use posting::post_bytes;
use salus_types::{NoMemory, NodeName, Out, Sender};
use std::alloc::Global;
use volume_restart::Restart;

/// Posts the bytes of a message to a node, unless it has answered.
fn post_to_node(
    alloc: Global,
    outs: &mut Vec<Out>,
    progress: &Restart,
    name: NodeName,
    bytes: &[u8],
) -> Result<(), NoMemory>
    requires region { name.region < regions (shape_of progress.now) }
    requires replica { name.replica < (shape_of progress.now).replicas }
    ensures { OnOk result (outs.new.items ≡ outs.old.items ++ map (λ n. bytes_to bytes.now (IsNode n)) (filter (is_waited_for progress.now) (name ∷ []))) }
{
    if progress.waits_for(name) {
        post_bytes(alloc, outs, Sender::Node(name), bytes)?;
    }
    Ok(())
}

/// Posts the bytes of a message to the replicas of a region that haven't answered, in order.
pub fn post_to_group(
    alloc: Global,
    outs: &mut Vec<Out>,
    progress: &Restart,
    region: u16,
    bytes: &[u8],
) -> Result<(), NoMemory>
    requires { region < regions (shape_of progress.now) }
    ensures { OnOk result (outs.new.items ≡ outs.old.items ++ map (λ n. bytes_to bytes.now (IsNode n)) (filter (is_waited_for progress.now) (group_of (shape_of progress.now) region))) }
{
    let count = progress.geometry().replicas() as u8;
    'replicas: for replica in 0..count {
        let name = NodeName { region, replica };
        post_to_node(alloc, outs, progress, name, bytes)?;
    }
    Ok(())
}

/// Posts the bytes of a message to all nodes that haven't answered, in order of region and replica.
pub fn post_to_all(
    alloc: Global,
    outs: &mut Vec<Out>,
    progress: &Restart,
    bytes: &[u8],
) -> Result<(), NoMemory>
    ensures { OnOk result (outs.new.items ≡ outs.old.items ++ map (λ n. bytes_to bytes.now (IsNode n)) (filter (is_waited_for progress.now) (all_nodes (shape_of progress.now)))) }
{
    let count = progress.geometry().regions() as u16;
    'regions: for region in 0..count {
        post_to_group(alloc, outs, progress, region, bytes)?;
    }
    Ok(())
}
