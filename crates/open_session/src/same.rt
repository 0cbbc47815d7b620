ghost use Rattle.std.specs.Prelude.{◌≡◌};
ghost use Rattle.std.specs.List.{list_any};
ghost use Rattle.replica_rules.specs.Rules.{same_header, same_record};

use salus_types::{Header, Record};

fn is_same_header(left: &Header, right: &Header) -> bool
    ensures { result ≡ same_header left.now right.now }
{
    left.version == right.version
        && left.session == right.session
        && left.seq == right.seq
        && left.region == right.region
        && left.previous == right.previous
        && left.leader_before == right.leader_before
        && left.fronts == right.fronts
        && left.touched == right.touched
        && left.root == right.root
        && left.top == right.top
}

/// Whether the records agree in every field, the tag too.
#[tactic(auto, unfolding(replica_rules::specs::Rules::same_record))]
pub fn is_same_record(left: &Record, right: &Record) -> bool
    ensures { result ≡ same_record left.now right.now }
{
    is_same_header(&left.header, &right.header)
        && left.writes == right.writes
        && left.run == right.run
        && left.tag == right.tag
}

/// Whether an equal record is among the parts.
pub fn is_held(parts: &[Record], rec: &Record) -> bool
    ensures { result ≡ list_any (λ held. same_record held rec.now) parts.now }
{
    parts.iter().any(|held| is_same_record(held, rec))
}
