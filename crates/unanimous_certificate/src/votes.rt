ghost use Rattle.std.specs.Prelude.{◌≡◌, ◌<◌, ◌*◌, ℕ, IfOk, None, map, replicate};
ghost use Rattle.std.specs.List.{list_all};
ghost use Rattle.salus_types.specs.Volume.{regions, nodes};
ghost use Rattle.salus_types.specs.declared.names.NodeName.{NodeName as Name};
ghost use Rattle.volume_model.specs.Groups.{group_of};
ghost use Rattle.replica_rules.specs.Voting.{no_votes, with_vote, root_in, is_root, is_unanimous, is_unanimous_in};
ghost use Rattle.unanimous_certificate.specs.Kept.{KeptVotes, votes_in};

use crate::place::vote_place;
use crate::vote::{Vote, is_above_vote, is_root, root_at};
use salus_hash::Digest;
use salus_types::{Geometry, NoMemory, NodeName};
use std::alloc::Global;
use std::marker::Model;

/// The votes of a volume's nodes. Of each node 16 are kept, by their numbers modulo 16: of numbers that share a place
/// the greater, and for one number the first root.
#[derive(Debug, Drop)]
pub struct Votes {
    geometry: Geometry,
    places: Vec<Option<Vote>>,
}

impl Model for Votes {
    ghost use Rattle.std.specs.Prelude.{◌≡◌, ◌*◌, length};
    ghost use Rattle.salus_types.specs.Volume.{nodes};
    ghost use Rattle.unanimous_certificate.specs.Kept.{KeptVotes};

    ghost Value = { KeptVotes };

    ghost view = { λ v. record { shape = v.geometry; places = v.places.items } };

    ghost invariant = { λ v. length v.places.items ≡ nodes v.geometry * 16 };
}

fn no_places(alloc: Global, count: usize) -> Result<Vec<Option<Vote>>, NoMemory>
    ensures { IfOk result (λ places. places.items ≡ replicate count None) }
{
    Ok(vec![in alloc; None; count]?)
}

impl Votes {
    /// No vote of any node.
    pub fn new(alloc: Global, geometry: &Geometry) -> Result<Votes, NoMemory>
        ensures shape { IfOk result (λ made. made.shape ≡ geometry.now) }
        ensures votes { IfOk result (λ made. votes_in made ≡ no_votes) }
    {
        Ok(Votes {
            geometry: *geometry,
            places: no_places(alloc, geometry.nodes() as usize * 16)?,
        })
    }

    /// Takes the vote of a node for a number with a root.
    pub fn take(&mut self, node: NodeName, seq: u64, root: Digest)
        requires region { node.region < regions self.old.shape }
        requires replica { node.replica < self.old.shape.replicas }
        ensures shape { self.new.shape ≡ self.old.shape }
        ensures votes { votes_in self.new ≡ with_vote (votes_in self.old) node seq root }
    {
        let index = vote_place(&self.geometry, node, seq);
        if is_above_vote(self.places.as_slice(), index, seq) {
            self.places[index] = Some(Vote::new(seq, root));
        }
    }

    /// The root that a replica voted for with that number.
    fn root_of(&self, node: NodeName, seq: u64) -> Option<Digest>
        requires { node.replica < self.now.shape.replicas }
        ensures { result ≡ root_in seq (votes_in self.now node seq) }
    {
        root_at(
            self.places.as_slice(),
            vote_place(&self.geometry, node, seq),
            seq,
        )
    }

    /// Whether every replica of the region has voted for the number with that root.
    fn all_with_root(&self, seq: u64, region: u16, root: &Digest) -> bool
        ensures { result ≡ list_all (λ (name : Name). is_root root.now (root_in seq (votes_in self.now name seq))) (group_of self.now.shape region) }
    {
        let replicas = self.geometry.replicas() as u8;
        'replicas: for replica in 0..replicas {
            if !is_root(root, self.root_of(NodeName { region, replica }, seq)) {
                return false;
            }
        }
        true
    }

    fn is_unanimous_in(&self, seq: u64, region: u16) -> bool
        ensures { result ≡ is_unanimous_in self.now.shape (votes_in self.now) seq region }
    {
        let _replicas = self.geometry.replicas();
        match self.root_of(NodeName { region, replica: 0 }, seq) {
            Some(root) => self.all_with_root(seq, region, &root),
            None => false,
        }
    }

    /// True exactly where every replica of each region has a vote for the number, with one root a region. So it is true
    /// of no regions, and false where one of them isn't in the volume.
    pub fn is_unanimous(&self, seq: u64, touched: &[u16]) -> bool
        ensures { result ≡ is_unanimous self.now.shape (votes_in self.now) seq touched.now }
    {
        'regions: for region in touched {
            if !self.is_unanimous_in(seq, *region) {
                return false;
            }
        }
        true
    }
}
