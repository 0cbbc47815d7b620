ghost use Rattle.std.specs.Prelude.{◌≡◌, ◌++◌, ◌≤◌, ◌<◌, ℕ, true, false, slice_get, slice_set, Some, length, OnOk};
ghost use Rattle.salus_model.specs.Following.{posts_of};
ghost use Rattle.run_steps.specs.Parties.{is_party};
ghost use Rattle.salus_world.specs.Growing.{mark_of, marks_of, new_messages};

use salus_model::Sent;
use salus_types::{Geometry, NoMemory, Out, Sender};

/// Whether that is the client, or a node of the volume.
fn is_party(geometry: &Geometry, who: Sender) -> bool
    ensures { result ≡ is_party geometry.now who }
{
    match who {
        Sender::Client => true,
        Sender::Node(name) => {
            u32::from(name.region) < geometry.regions()
                && u32::from(name.replica) < geometry.replicas()
        }
    }
}

/// Posts these messages of a sender. One that isn't to a party of the volume isn't posted: the rules send none.
pub fn post(
    geometry: &Geometry,
    sent: &mut Vec<Sent>,
    from: Sender,
    outs: Vec<Out>,
) -> Result<(), NoMemory>
    ensures { OnOk result (sent.new.items ≡ sent.old.items ++ new_messages geometry.now from outs.items) }
{
    'outs: for out in outs {
        if is_party(geometry, out.to) {
            sent.push(Sent {
                from,
                to: out.to,
                bytes: out.bytes,
                delivered: false,
                dropped: false,
            })?;
        }
    }
    Ok(())
}

/// Whether `settle` passes the message over.
fn is_marked(message: &Sent) -> bool
    ensures { result ≡ mark_of message.now }
{
    message.delivered || message.dropped
}

/// The first message from that index on that `settle` doesn't pass over; if there is none, the count of messages.
pub fn pass_marked(sent: &Vec<Sent>, from: usize) -> usize
    ensures passed { (k : ℕ) → from ≤ k → k < result → slice_get (marks_of sent.now.items) k ≡ Some true }
    ensures waits { result < length sent.now.items → slice_get (marks_of sent.now.items) result ≡ Some false }
{
    'messages: for index in from..sent.len() {
        if !is_marked(message_at(sent, index)) {
            return index;
        }
    }
    sent.len()
}

/// The message of that index.
pub fn message_at(sent: &Vec<Sent>, index: usize) -> &Sent
    requires { index < length sent.now.items }
    ensures { slice_get sent.now.items index ≡ Some result.now }
{
    &sent[index]
}

/// Notes that the message was handed over.
pub fn mark_delivered(sent: &mut Vec<Sent>, index: usize)
    requires { index < length sent.old.items }
    ensures posts { posts_of sent.new.items ≡ posts_of sent.old.items }
    ensures marks { marks_of sent.new.items ≡ slice_set (marks_of sent.old.items) index true }
{
    sent[index].delivered = true;
}

/// Notes that the message is dropped.
pub fn mark_dropped(sent: &mut Vec<Sent>, index: usize)
    requires { index < length sent.old.items }
    ensures posts { posts_of sent.new.items ≡ posts_of sent.old.items }
    ensures marks { marks_of sent.new.items ≡ slice_set (marks_of sent.old.items) index true }
{
    sent[index].dropped = true;
}
