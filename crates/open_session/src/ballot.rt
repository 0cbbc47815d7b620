ghost use Rattle.std.specs.Prelude.{◌≡◌, ◌++◌, filter, flat_map, if◌then◌else◌, map, nat_lt, [], OnOk};
ghost use Rattle.replica_rules.specs.Views.{led_by};
ghost use Rattle.replica_rules.specs.Rules.{votes_for};
ghost use Rattle.posting.specs.Sendings.{out_of_sending};
ghost use Rattle.open_session.specs.Voting.{ballot_of, ballots, ballots_of};

use posting::post_to_group;
use salus_message::{Message, Prepared};
use salus_types::{Geometry, Header, NoMemory, Out, Record};
use std::alloc::Global;

/// A node's vote for a part, and the region that leads the part's batch: its replicas are sent the vote.
#[derive(Clone, Copy, Debug, Drop)]
pub struct Ballot {
    pub leader: u16,
    pub vote: Prepared,
}

/// The region that leads the header's batch: the first that it touches.
fn led_by(header: &Header) -> u16
    ensures { result ≡ led_by header.now }
{
    header.touched.get(0).copied().unwrap_or(0)
}

impl Ballot {
    /// The vote for a part.
    pub fn of(rec: &Record) -> Ballot
        ensures { result ≡ ballot_of rec.now }
    {
        let header = &rec.header;
        Ballot {
            leader: led_by(header),
            vote: Prepared {
                session: header.session,
                seq: header.seq,
                region: header.region,
                root: header.root,
            },
        }
    }
}

/// Posts a vote to every replica of the leader.
pub fn post_ballot(
    alloc: Global,
    outs: &mut Vec<Out>,
    geometry: &Geometry,
    ballot: Ballot,
) -> Result<(), NoMemory>
    ensures { OnOk result (outs.new.items ≡ outs.old.items ++ ballots geometry.now ballot) }
{
    post_to_group(
        alloc,
        outs,
        geometry,
        ballot.leader,
        &Message::Prepared(ballot.vote),
    )
}

/// Posts the votes for parts, in order.
pub fn post_votes(
    alloc: Global,
    outs: &mut Vec<Out>,
    geometry: &Geometry,
    parts: &[Record],
) -> Result<(), NoMemory>
    ensures { OnOk result (outs.new.items ≡ outs.old.items ++ map out_of_sending (flat_map (λ rec. votes_for geometry.now rec) parts.now)) }
{
    'parts: for rec in parts {
        post_ballot(alloc, outs, geometry, Ballot::of(rec))?;
    }
    Ok(())
}

/// Posts the vote for a part, where its number is above that one.
fn post_above(
    alloc: Global,
    outs: &mut Vec<Out>,
    geometry: &Geometry,
    rec: &Record,
    number: u64,
) -> Result<(), NoMemory>
    ensures { OnOk result (outs.new.items ≡ outs.old.items ++ (if nat_lt number rec.now.header.seq then ballots_of geometry.now rec.now else [])) }
{
    if number < rec.header.seq {
        post_ballot(alloc, outs, geometry, Ballot::of(rec))?;
    }
    Ok(())
}

/// Posts the votes for the parts that are numbered above that number, in order.
pub fn post_votes_above(
    alloc: Global,
    outs: &mut Vec<Out>,
    geometry: &Geometry,
    parts: &[Record],
    number: u64,
) -> Result<(), NoMemory>
    ensures { OnOk result (outs.new.items ≡ outs.old.items ++ map out_of_sending (flat_map (λ rec. votes_for geometry.now rec) (filter (λ rec. nat_lt number rec.header.seq) parts.now))) }
{
    'parts: for rec in parts {
        post_above(alloc, outs, geometry, rec, number)?;
    }
    Ok(())
}
