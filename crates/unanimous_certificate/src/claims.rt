ghost use Rattle.std.specs.Prelude.{◌≡◌, ◌<◌, ◌*◌, ℕ, IfOk, map, replicate, slice_index_or};
ghost use Rattle.salus_types.specs.Volume.{regions, nodes};
ghost use Rattle.volume_model.specs.Groups.{group_of};
ghost use Rattle.replica_rules.specs.Voting.{lesser, greater, least_of, with_claim, all_claim, committed};
ghost use Rattle.unanimous_certificate.specs.Kept.{claims_in};

use crate::place::node_place;
use salus_types::{Geometry, NoMemory, NodeName};
use std::alloc::Global;
use std::marker::Model;

/// The greatest number that each node of a volume has claimed. Every node's claim starts at the base.
#[derive(Debug, Drop)]
pub struct Claims {
    geometry: Geometry,
    base: u64,
    fronts: Vec<u64>,
}

impl Model for Claims {
    ghost use Rattle.std.specs.Prelude.{◌≡◌, length};
    ghost use Rattle.salus_types.specs.Volume.{nodes};
    ghost use Rattle.unanimous_certificate.specs.Kept.{KeptClaims};

    ghost Value = { KeptClaims };

    ghost view = { λ c. record { shape = c.geometry; base = c.base; fronts = c.fronts.items } };

    ghost invariant = { λ c. length c.fronts.items ≡ nodes c.geometry };
}

fn lesser(a: u64, b: u64) -> u64
    ensures { result ≡ lesser a b }
{
    if a <= b { a } else { b }
}

fn greater(a: u64, b: u64) -> u64
    ensures { result ≡ greater a b }
{
    if a <= b { b } else { a }
}

fn front_at(fronts: &[u64], index: usize, base: u64) -> u64
    ensures { result ≡ slice_index_or fronts.now index base }
{
    fronts.get(index).copied().unwrap_or(base)
}

impl Claims {
    /// Every node claims the base.
    pub fn new(alloc: Global, geometry: &Geometry, base: u64) -> Result<Claims, NoMemory>
        ensures shape { IfOk result (λ made. made.shape ≡ geometry.now) }
        ensures claims { IfOk result (λ made. claims_in made ≡ (λ name. base)) }
    {
        Ok(Claims {
            geometry: *geometry,
            base,
            fronts: vec![in alloc; base; geometry.nodes() as usize]?,
        })
    }

    /// Takes the claim of a node; one below its greatest is ignored.
    pub fn take(&mut self, node: NodeName, front: u64)
        requires region { node.region < regions self.old.shape }
        requires replica { node.replica < self.old.shape.replicas }
        ensures shape { self.new.shape ≡ self.old.shape }
        ensures claims { claims_in self.new ≡ with_claim (claims_in self.old) node front }
    {
        let index = node_place(&self.geometry, node);
        self.fronts[index] = greater(self.fronts[index], front);
    }

    fn front_of(&self, node: NodeName) -> u64
        requires { node.replica < self.now.shape.replicas }
        ensures { result ≡ claims_in self.now node }
    {
        front_at(
            self.fronts.as_slice(),
            node_place(&self.geometry, node),
            self.base,
        )
    }

    /// Whether every replica of the region claims that number. A region that isn't in the volume claims the base.
    pub fn all_claim(&self, region: u16, seq: u64) -> bool
        ensures { result ≡ all_claim self.now.shape (claims_in self.now) region seq }
    {
        let replicas = self.geometry.replicas() as u8;
        'replicas: for replica in 0..replicas {
            if self.front_of(NodeName { region, replica }) < seq {
                return false;
            }
        }
        true
    }

    /// The greatest number that every replica of the region claims.
    fn least_in(&self, region: u16) -> u64
        ensures { result ≡ least_of (map (claims_in self.now) (group_of self.now.shape region)) }
    {
        let replicas = self.geometry.replicas() as u8;
        let mut least = self.front_of(NodeName { region, replica: 0 });
        'replicas: for replica in 1..replicas {
            least = lesser(least, self.front_of(NodeName { region, replica }));
        }
        least
    }

    /// The greatest number that every replica of some one region claims.
    pub fn committed(&self) -> u64
        ensures { result ≡ committed self.now.shape (claims_in self.now) }
    {
        let regions = self.geometry.regions() as u16;
        let mut greatest = 0;
        'regions: for region in 0..regions {
            greatest = greater(greatest, self.least_in(region));
        }
        greatest
    }
}
