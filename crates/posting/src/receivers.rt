ghost use Rattle.std.specs.Prelude.{◌≡◌, ◌++◌, ◌∷◌, [], map, OnOk};
ghost use Rattle.salus_types.specs.declared.names.Sender.TheVariants.{Node as IsNode};
ghost use Rattle.salus_message.specs.Ranges.{IsMessage};
ghost use Rattle.volume_model.specs.Groups.{all_nodes, group_of};
ghost use Rattle.posting.specs.Posting.{bytes_to, out_to};

use salus_message::{Message, encode};
use salus_types::{Geometry, Items, NoMemory, NodeName, Out, Sender};
use std::alloc::Global;

/// Posts a copy of the bytes of a message to one receiver.
pub fn post_bytes(
    alloc: Global,
    outs: &mut Vec<Out>,
    to: Sender,
    bytes: &[u8],
) -> Result<(), NoMemory>
    ensures { OnOk result (outs.new.items ≡ outs.old.items ++ bytes_to bytes.now to ∷ []) }
{
    let bytes = Items::from_slice(alloc, bytes)?;
    outs.push(Out { to, bytes })?;
    Ok(())
}

/// Posts the bytes of a message to every replica of a region, in order.
pub fn post_bytes_to_group(
    alloc: Global,
    outs: &mut Vec<Out>,
    geometry: &Geometry,
    region: u16,
    bytes: &[u8],
) -> Result<(), NoMemory>
    ensures { OnOk result (outs.new.items ≡ outs.old.items ++ map (λ name. bytes_to bytes.now (IsNode name)) (group_of geometry.now region)) }
{
    let count = geometry.replicas() as u8;
    'replicas: for replica in 0..count {
        let name = NodeName { region, replica };
        post_bytes(alloc, outs, Sender::Node(name), bytes)?;
    }
    Ok(())
}

/// Posts the bytes of a message to every node, in order of region and replica.
pub fn post_bytes_to_all(
    alloc: Global,
    outs: &mut Vec<Out>,
    geometry: &Geometry,
    bytes: &[u8],
) -> Result<(), NoMemory>
    ensures { OnOk result (outs.new.items ≡ outs.old.items ++ map (λ name. bytes_to bytes.now (IsNode name)) (all_nodes geometry.now)) }
{
    let count = geometry.regions() as u16;
    'regions: for region in 0..count {
        post_bytes_to_group(alloc, outs, geometry, region, bytes)?;
    }
    Ok(())
}

/// Posts a message to one receiver.
pub fn post(
    alloc: Global,
    outs: &mut Vec<Out>,
    to: Sender,
    message: &Message,
) -> Result<(), NoMemory>
    requires { IsMessage message.now }
    ensures { OnOk result (outs.new.items ≡ outs.old.items ++ out_to to message.now ∷ []) }
{
    let bytes = Items::from_vec(encode(alloc, message)?);
    outs.push(Out { to, bytes })?;
    Ok(())
}

/// Posts a message to every replica of a region, in order.
pub fn post_to_group(
    alloc: Global,
    outs: &mut Vec<Out>,
    geometry: &Geometry,
    region: u16,
    message: &Message,
) -> Result<(), NoMemory>
    requires { IsMessage message.now }
    ensures { OnOk result (outs.new.items ≡ outs.old.items ++ map (λ name. out_to (IsNode name) message.now) (group_of geometry.now region)) }
{
    let bytes = encode(alloc, message)?;
    post_bytes_to_group(alloc, outs, geometry, region, bytes.as_slice())
}

/// Posts a message to every node, in order of region and replica.
pub fn post_to_all(
    alloc: Global,
    outs: &mut Vec<Out>,
    geometry: &Geometry,
    message: &Message,
) -> Result<(), NoMemory>
    requires { IsMessage message.now }
    ensures { OnOk result (outs.new.items ≡ outs.old.items ++ map (λ name. out_to (IsNode name) message.now) (all_nodes geometry.now)) }
{
    let bytes = encode(alloc, message)?;
    post_bytes_to_all(alloc, outs, geometry, bytes.as_slice())
}
