ghost use Rattle.std.specs.Prelude.{◌≡◌};
ghost use Rattle.text_words.specs.Reading.{number_of};
ghost use Rattle.schedule_text.specs.Reading.{named, node_of, party_of};

use salus_types::{Geometry, NodeName, Sender};
use text_words::{number_of, split_first};

fn named(geometry: &Geometry, region: Option<u64>, replica: Option<u64>) -> Option<NodeName>
    ensures { result ≡ named geometry.now region replica }
{
    let region = region?;
    let replica = replica?;
    if region < u64::from(geometry.regions()) && replica < u64::from(geometry.replicas()) {
        Some(NodeName {
            region: region as u16,
            replica: replica as u8,
        })
    } else {
        None
    }
}

/// A node of the volume: its region and its replica, with a point between them.
#[tactic(auto, unfolding(crate::specs::Reading::node_of))]
pub fn node_of(geometry: &Geometry, word: &[u8]) -> Option<NodeName>
    ensures { result ≡ node_of geometry.now word.now }
{
    let (region, replica) = split_first(word, b'.');
    named(geometry, number_of(region), number_of(replica))
}

/// The client, or a node of the volume.
#[tactic(auto, unfolding(crate::specs::Reading::party_of))]
pub fn party_of(geometry: &Geometry, word: &[u8]) -> Option<Sender>
    ensures { result ≡ party_of geometry.now word.now }
{
    if word == b"client".as_slice() {
        Some(Sender::Client)
    } else {
        let name = node_of(geometry, word)?;
        Some(Sender::Node(name))
    }
}
