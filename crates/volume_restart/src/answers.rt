//! Which nodes have answered in a phase: a table with an entry for each node of the volume.
ghost use Rattle.std.specs.Prelude.{◌≡◌, ◌<◌, IfOk};
ghost use Rattle.std.specs.List.{list_all};
ghost use Rattle.salus_types.specs.Volume.{nodes, regions};
ghost use Rattle.volume_model.specs.Groups.{group_of};
ghost use Rattle.volume_restart.specs.Answers.{all_said, has_said, nobody, place_of, with_said};

use salus_types::{Geometry, NoMemory, NodeName};
use std::alloc::Global;
use std::marker::Model;

/// For each node of the volume whether it has answered.
#[derive(Drop)]
pub struct Answers {
    geometry: Geometry,
    said: Vec<bool>,
}

impl Model for Answers {
    ghost use Rattle.volume_restart.specs.Answers.{Table, IsTable};

    ghost Value = { Table };

    ghost view = { λ t. record { shape = t.geometry; said = t.said.items } };

    ghost invariant = { λ t. IsTable t.geometry t.said.items };
}

fn place_of(geometry: &Geometry, node: NodeName) -> usize
    requires region { node.region < regions geometry.now }
    requires replica { node.replica < geometry.now.replicas }
    ensures value { result ≡ place_of geometry.now node }
    ensures within { result < nodes geometry.now }
{
    node.region as usize * geometry.replicas() as usize + node.replica as usize
}

impl Answers {
    /// Nobody has answered.
    pub fn new(alloc: Global, geometry: Geometry) -> Result<Answers, NoMemory>
        ensures { IfOk result (λ t. t ≡ nobody geometry) }
    {
        Ok(Answers {
            geometry,
            said: vec![in alloc; false; geometry.nodes() as usize]?,
        })
    }

    /// Nobody has answered any more.
    pub fn clear(&mut self)
        ensures { self.new ≡ nobody self.old.shape }
    {
        self.said.fill(false);
    }

    /// Notes that the node has answered.
    pub fn say(&mut self, node: NodeName)
        requires region { node.region < regions self.old.shape }
        requires replica { node.replica < self.old.shape.replicas }
        ensures { self.new ≡ with_said self.old node }
    {
        let place = place_of(&self.geometry, node);
        self.said[place] = true;
    }

    /// Whether the node has answered.
    pub fn has_said(&self, node: NodeName) -> bool
        requires region { node.region < regions self.now.shape }
        requires replica { node.replica < self.now.shape.replicas }
        ensures { result ≡ has_said self.now node }
    {
        self.said[place_of(&self.geometry, node)]
    }

    /// Whether every replica of the region has answered.
    fn group_said(&self, region: u16) -> bool
        requires { region < regions self.now.shape }
        ensures { result ≡ list_all (λ name. has_said self.now name) (group_of self.now.shape region) }
    {
        'replicas: for replica in 0..self.geometry.replicas() as u8 {
            if !self.has_said(NodeName { region, replica }) {
                return false;
            }
        }
        true
    }

    /// Whether every node of the volume has answered.
    pub fn all_said(&self) -> bool
        ensures { result ≡ all_said self.now }
    {
        'regions: for region in 0..self.geometry.regions() as u16 {
            if !self.group_said(region) {
                return false;
            }
        }
        true
    }
}
