ghost use Rattle.std.specs.Prelude.{◌≡◌, ◌-◌, ◌&&◌, filter, if◌then◌else◌, length, map, nat_le, nat_lt, None, Some};
ghost use Rattle.replica_rules.specs.Leading.{Leader as AnyLeader};
ghost use Rattle.replica_rules.specs.Voting.{committed, greater, greatest_of, lesser};
ghost use Rattle.pipelined_commit.specs.Standing.{StandsFor};
ghost use Rattle.open_session.specs.Folding.{fold_at, left_after};

use pipelined_commit::Leader;
use salus_types::Record;

fn greater(left: u64, right: u64) -> u64
    ensures { result ≡ greater left right }
{
    if left <= right { right } else { left }
}

/// The greatest number of the parts; 0 of none.
fn greatest_number(parts: &[Record]) -> u64
    ensures { result ≡ greatest_of (map (λ rec. rec.header.seq) parts.now) }
{
    let mut greatest = 0;
    'parts: for rec in parts {
        greatest = greater(greatest, rec.header.seq);
    }
    greatest
}

/// How many parts are numbered at most that number.
fn count_up_to(parts: &[Record], number: u64) -> usize
    ensures { result ≡ length (filter (λ rec. nat_le rec.header.seq number) parts.now) }
{
    parts.iter().filter(|rec| rec.header.seq <= number).count()
}

fn lesser(left: u64, right: u64) -> u64
    ensures { result ≡ lesser left right }
{
    if left <= right { left } else { right }
}

/// Up to which number parts can be folded: 16 below the greatest number, and not past what is committed.
fn fold_number(leader: &Leader, parts: &[Record]) -> u64
    ensures { (l : AnyLeader) → StandsFor leader.now l → result ≡ lesser (committed leader.now.shape l.claims) (greatest_of (map (λ rec. rec.header.seq) parts.now) - 16) }
{
    lesser(
        leader.committed(),
        greatest_number(parts).saturating_sub(16),
    )
}

fn is_above(rec: &Record, number: u64) -> bool
    ensures { result ≡ nat_lt number rec.now.header.seq }
{
    number < rec.header.seq
}

/// Takes out the parts up to that number.
fn drop_up_to(parts: &mut Vec<Record>, number: u64)
    ensures { parts.new.items ≡ filter (λ rec. nat_lt number rec.header.seq) parts.old.items }
{
    parts.retain(|rec| is_above(rec, number));
}

/// Takes out the parts up to the number to which they can be folded, where all that is held of the session counts and eight
/// parts go. It tells that number.
pub fn fold(whole: bool, leader: &Leader, parts: &mut Vec<Record>) -> Option<u64>
    ensures fold { (l : AnyLeader) → StandsFor leader.now l → result ≡ fold_at leader.now.shape whole l.claims parts.old.items }
    ensures parts { parts.new.items ≡ left_after result parts.old.items }
{
    let number = fold_number(leader, parts.as_slice());
    if whole && count_up_to(parts.as_slice(), number) >= 8 {
        drop_up_to(parts, number);
        return Some(number);
    }
    None
}
