ghost use Rattle.std.specs.Prelude.{◌≡◌, ◌≤◌, All, length, IfOk};
ghost use Rattle.replica_rules.specs.Leading.{noted_with};
ghost use Rattle.pipelined_commit.specs.Standing.{Follows, SamePlace};
ghost use Rattle.open_session.specs.Kept.{StaysOwn};
ghost use Rattle.open_session.specs.Applying.{AreTaken};

use pipelined_commit::Leader;
use region_replica::RegionReplica;
use salus_types::{NoMemory, Record};
use std::alloc::Global;

/// A part that was applied, and behind it the kept parts that are applied in their turn after it.
pub fn take_turns(
    alloc: Global,
    replica: &mut RegionReplica,
    first: Record,
) -> Result<Vec<Record>, NoMemory>
    ensures stays { StaysOwn replica.old replica.new }
    ensures taken { IfOk result (λ parts. AreTaken replica.old first replica.new parts.items) }
{
    let mut parts = Vec::new(alloc);
    parts.push(first)?;
    'turns: loop {
        match replica.take_kept(alloc)? {
            None => return Ok(parts),
            Some(rec) => parts.push(rec)?,
        }
    }
}

/// Notes the headers of parts, in order, where the region leads them.
pub fn hold_all(leader: &mut Leader, parts: &[Record])
    requires { All (λ rec. length rec.header.touched ≤ 16) parts.now }
    ensures place { SamePlace leader.old leader.new }
    ensures noted { Follows (λ l. record l { noted = noted_with leader.old.region l.noted parts.now }) leader.old leader.new }
{
    'parts: for rec in parts {
        leader.hold(&rec.header);
    }
}
