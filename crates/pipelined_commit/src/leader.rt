ghost use Rattle.std.specs.Prelude.{◌≡◌, ◌≤◌, ◌<◌, ◌==◌, [], if◌then◌else◌, length, unwrap_or, IfNone, IfOk, IfSome, IsSomeAnd, MatchOption};
ghost use Rattle.std.specs.Option.{option_map};
ghost use Rattle.salus_types.specs.Volume.{regions};
ghost use Rattle.salus_types.specs.declared.records.Header.{Header as AnyHeader};
ghost use Rattle.replica_rules.specs.Views.{led_by};
ghost use Rattle.replica_rules.specs.Voting.{with_vote, with_claim, committed};
ghost use Rattle.replica_rules.specs.Leading.{Leader as AnyLeader, new_leader, with_header, advance, all_certified};
ghost use Rattle.unanimous_certificate.specs.Kept.{claims_in};
ghost use Rattle.pipelined_commit.specs.Standing.{StandsFor, Follows, SamePlace, MayBeClaimed, IsClaimable, IsFirst};

use crate::certified::first_to_claim;
use crate::note::Note;
use crate::noted::note_header;
use salus_hash::Digest;
use salus_types::{Geometry, Header, NoMemory, NodeName};
use std::alloc::Global;
use std::marker::Model;
use unanimous_certificate::{Claims, Votes};

/// A region's leader. It is told of the parts that the region leads, and of votes and claims, and gives the batches that
/// may be claimed, one after the other.
///
/// Contracts say which leader of the rules it stands for (`StandsFor`): the rules keep whole headers, and votes and
/// claims as functions of a node.
#[derive(Debug, Drop)]
pub struct Leader {
    region: u16,
    base: u64,
    front: u64,
    noted: Vec<Note>,
    votes: Votes,
    claims: Claims,
}

impl Model for Leader {
    ghost use Rattle.std.specs.Prelude.{◌≡◌, ◌≤◌, vec_capacity};
    ghost use Rattle.pipelined_commit.specs.Noting.{IsNoted};
    ghost use Rattle.pipelined_commit.specs.Standing.{KeptLeader};

    ghost Value = { KeptLeader };

    ghost view = { λ l. record { shape = l.votes.shape; region = l.region; base = l.base; front = l.front; noted = l.noted.items; votes = l.votes; claims = l.claims } };

    ghost invariant = { λ l. (l.claims.shape ≡ l.votes.shape) × IsNoted l.noted.items × (16 ≤ vec_capacity l.noted) };
}

/// The region that leads the header's batch: the first that it touches.
fn led_by(header: &Header) -> u16
    ensures { result ≡ led_by header.now }
{
    header.touched.get(0).copied().unwrap_or(0)
}

impl Leader {
    /// A leader of the region, in a session whose base came with that number: nothing is noted, nobody has voted, and
    /// every node's claim and the front are the base.
    pub fn new(
        alloc: Global,
        geometry: &Geometry,
        region: u16,
        base: u64,
    ) -> Result<Leader, NoMemory>
        ensures shape { IfOk result (λ made. made.shape ≡ geometry.now) }
        ensures region { IfOk result (λ made. made.region ≡ region) }
        ensures stands { IfOk result (λ made. StandsFor made (new_leader base [])) }
    {
        Ok(Leader {
            region,
            base,
            front: base,
            noted: Vec::with_capacity(alloc, 16)?,
            votes: Votes::new(alloc, geometry)?,
            claims: Claims::new(alloc, geometry, base)?,
        })
    }

    /// Notes the header of a held part, where the region leads it. Of numbers that are the same modulo 16 the greatest
    /// is noted, and of one number the first header.
    pub fn hold(&mut self, header: &Header)
        requires { length header.now.touched ≤ 16 }
        ensures place { SamePlace self.old self.new }
        ensures noted { Follows (λ leader. record leader { noted = (if led_by header.now == self.old.region then with_header leader.noted header.now else leader.noted) }) self.old self.new }
    {
        if led_by(header) == self.region {
            note_header(&mut self.noted, header);
        }
    }

    /// Takes the vote of a node for a number with a root.
    pub fn vote(&mut self, node: NodeName, seq: u64, root: Digest)
        requires region { node.region < regions self.old.shape }
        requires replica { node.replica < self.old.shape.replicas }
        ensures place { SamePlace self.old self.new }
        ensures votes { Follows (λ leader. record leader { votes = with_vote leader.votes node seq root }) self.old self.new }
    {
        self.votes.take(node, seq, root);
    }

    /// Takes the claim of a node; one below its greatest is ignored.
    pub fn claim(&mut self, node: NodeName, front: u64)
        requires region { node.region < regions self.old.shape }
        requires replica { node.replica < self.old.shape.replicas }
        ensures place { SamePlace self.old self.new }
        ensures claims { Follows (λ leader. record leader { claims = with_claim leader.claims node front }) self.old self.new }
    {
        self.claims.take(node, front);
    }

    /// The number of the next batch that may be claimed; the front becomes that number. It is the least noted number
    /// past the front for which every touched region is unanimous and the batch before is claimed by every replica of
    /// its leader, or is the base. None exactly where there is no such number.
    pub fn advance(&mut self) -> Option<u64>
        ensures place { SamePlace self.old self.new }
        ensures given { (leader : AnyLeader) → StandsFor self.old leader → result ≡ option_map (λ (h : AnyHeader). h.seq) (advance self.old.shape leader) }
        // What is given may be claimed, and of all that may be claimed it is the least; so none comes only where there is none.
        ensures claimable { (leader : AnyLeader) → StandsFor self.old leader → IfSome result (IsClaimable self.old.shape leader) }
        ensures least { (leader : AnyLeader) (h : AnyHeader) → StandsFor self.old leader → MayBeClaimed self.old.shape leader h → IsSomeAnd result (λ s. s ≤ h.seq) }

        ensures front { Follows (λ leader. record leader { front = unwrap_or result leader.front }) self.old self.new }
        ensures raised { IfSome result (λ s. (self.old.front < s) × (self.new.front ≡ s)) }
        ensures none { IfNone result (self.new ≡ self.old) }

        // So a loop that calls it until it gives none is given the numbers of all that may be claimed, in their order.
        ensures first { (leader : AnyLeader) → StandsFor self.old leader → MatchOption result (all_certified self.old.shape leader ≡ []) (IsFirst self.old.shape leader) }
    {
        let given = first_to_claim(
            self.noted.as_slice(),
            self.base,
            self.front,
            &self.votes,
            &self.claims,
        );
        if let Some(seq) = given {
            self.front = seq;
        }
        given
    }

    /// The number up to which all is claimed.
    pub fn front(&self) -> u64
        ensures { result ≡ self.now.front }
    {
        self.front
    }

    /// The greatest number that every replica of some one region claims.
    pub fn committed(&self) -> u64
        ensures { (leader : AnyLeader) → StandsFor self.now leader → result ≡ committed self.now.shape leader.claims }
    {
        self.claims.committed()
    }
}
