//! Votes, claims and the leader: tables of steps with what must be answered, by another program from the histories of
//! what was taken. Each row has six bytes: a step or a question, with its numbers in decimal digits.

ghost use Rattle.std.specs.Prelude.{◌≡◌, ◌<◌, ◌≤◌, IfOk, IfSome, length};
ghost use Rattle.salus_types.specs.Volume.{regions};

use pipelined_commit::Leader;
use salus_hash::Digest;
use salus_types::{Geometry, Header, Items, NoMemory, NodeName};
use std::alloc::Global;
use std::test::*;
use unanimous_certificate::{Claims, Votes};

fn digit(byte: u8) -> u8 {
    byte.saturating_sub(b'0')
}

fn number(tens: u8, ones: u8) -> u64 {
    digit(tens) as u64 * 10 + digit(ones) as u64
}

fn root(byte: u8) -> Digest {
    Digest::from_bytes([byte; 32])
}

/// No region, the first, the second, both, or one that isn't in the volume.
fn touched_by(byte: u8) -> &'static [u16]
    ensures { length result.now ≤ 2 }
{
    match byte {
        b'0' => &[0],
        b'1' => &[1],
        b'2' => &[0, 1],
        b'9' => &[9],
        _ => &[],
    }
}

fn node(geometry: &Geometry, region: u8, replica: u8) -> Option<NodeName>
    ensures { IfSome result (λ name. (name.region < regions geometry.now) × (name.replica < geometry.now.replicas)) }
{
    let name = NodeName {
        region: digit(region) as u16,
        replica: digit(replica),
    };
    if (name.region as u32) < geometry.regions() && (name.replica as u32) < geometry.replicas() {
        Some(name)
    } else {
        None
    }
}

/// Two regions of two replicas.
fn four_nodes() -> Option<Geometry> {
    Geometry::new(1, 0, 1, 2).ok()
}

// ---- votes: `t` takes one, `u` asks whether these regions are unanimous

fn vote_row(geometry: &Geometry, votes: &mut Votes, row: &[u8]) -> bool
    requires { votes.old.shape ≡ geometry.now }
    ensures { votes.new.shape ≡ geometry.now }
{
    match row {
        [b't', region, replica, tens, ones, mark, _] => match node(geometry, *region, *replica) {
            Some(name) => {
                votes.take(name, number(*tens, *ones), root(*mark));
                true
            }
            None => false,
        },
        [b'u', which, tens, ones, expected, _, _] => {
            votes.is_unanimous(number(*tens, *ones), touched_by(*which)) == (*expected == b'y')
        }
        _ => false,
    }
}

fn votes_hold(geometry: &Geometry, votes: &mut Votes, text: &[u8]) -> bool
    requires { votes.old.shape ≡ geometry.now }
{
    'rows: for row in text.chunks(7) {
        if !vote_row(geometry, votes, row) {
            return false;
        }
    }
    true
}

/// Whether all rows of the text hold of votes of which none is taken yet.
fn are_votes(alloc: Global, geometry: &Geometry, text: &[u8]) -> bool {
    match Votes::new(alloc, geometry) {
        Ok(mut votes) => votes_hold(geometry, &mut votes, text),
        Err(NoMemory) => false,
    }
}

// ---- claims from 4 on: `t` takes one, `a` asks whether all of a region claim a number, `k` what is committed

fn claim_row(geometry: &Geometry, claims: &mut Claims, row: &[u8]) -> bool
    requires { claims.old.shape ≡ geometry.now }
    ensures { claims.new.shape ≡ geometry.now }
{
    match row {
        [b't', region, replica, tens, ones, _, _] => match node(geometry, *region, *replica) {
            Some(name) => {
                claims.take(name, number(*tens, *ones));
                true
            }
            None => false,
        },
        [b'a', region, tens, ones, expected, _, _] => {
            claims.all_claim(digit(*region) as u16, number(*tens, *ones)) == (*expected == b'y')
        }
        [b'k', tens, ones, ..] => claims.committed() == number(*tens, *ones),
        _ => false,
    }
}

fn claims_hold(geometry: &Geometry, claims: &mut Claims, text: &[u8]) -> bool
    requires { claims.old.shape ≡ geometry.now }
{
    'rows: for row in text.chunks(7) {
        if !claim_row(geometry, claims, row) {
            return false;
        }
    }
    true
}

fn are_claims(alloc: Global, geometry: &Geometry, text: &[u8]) -> bool {
    match Claims::new(alloc, geometry, 4) {
        Ok(mut claims) => claims_hold(geometry, &mut claims, text),
        Err(NoMemory) => false,
    }
}

// ---- the leader of the first region: `h` notes a header by its regions, the leader before and its number, `v` and `c`
// take a vote and a claim, `a` advances, `f` asks for the front and `k` for what is committed

fn header(alloc: Global, which: u8, before: u8, seq: u64) -> Result<Header, NoMemory>
    ensures { IfOk result (λ made. length made.touched ≤ 2) }
{
    let touched = Items::from_slice(alloc, touched_by(which))?;
    Ok(Header {
        version: 1,
        session: 1,
        seq,
        region: 0,
        previous: 0,
        leader_before: digit(before) as u16,
        fronts: Items::new(alloc),
        touched,
        root: root(0),
        top: root(0),
    })
}

/// A row that asks.
fn is_answered(leader: &mut Leader, row: &[u8]) -> bool
    ensures { leader.new.shape ≡ leader.old.shape }
{
    match row {
        [b'a', b'-', ..] => leader.advance() == None,
        [b'a', tens, ones, ..] => leader.advance() == Some(number(*tens, *ones)),
        [b'f', tens, ones, ..] => leader.front() == number(*tens, *ones),
        [b'k', tens, ones, ..] => leader.committed() == number(*tens, *ones),
        _ => false,
    }
}

fn told_of_node(geometry: &Geometry, leader: &mut Leader, row: &[u8]) -> bool
    requires { leader.old.shape ≡ geometry.now }
    ensures { leader.new.shape ≡ geometry.now }
{
    match row {
        [step, region, replica, tens, ones, mark, _] => match node(geometry, *region, *replica) {
            Some(name) => {
                if *step == b'v' {
                    leader.vote(name, number(*tens, *ones), root(*mark));
                } else {
                    leader.claim(name, number(*tens, *ones));
                }
                true
            }
            None => false,
        },
        _ => false,
    }
}

/// A row that notes a header.
fn notes(alloc: Global, leader: &mut Leader, which: u8, before: u8, seq: u64) -> bool
    ensures { leader.new.shape ≡ leader.old.shape }
{
    match header(alloc, which, before, seq) {
        Ok(made) => {
            leader.hold(&made);
            true
        }
        Err(NoMemory) => false,
    }
}

fn leader_row(alloc: Global, geometry: &Geometry, leader: &mut Leader, row: &[u8]) -> bool
    requires { leader.old.shape ≡ geometry.now }
    ensures { leader.new.shape ≡ geometry.now }
{
    match row {
        [b'h', which, before, tens, ones, _, _] => {
            notes(alloc, leader, *which, *before, number(*tens, *ones))
        }
        [b'v' | b'c', ..] => told_of_node(geometry, leader, row),
        _ => is_answered(leader, row),
    }
}

fn leader_holds(alloc: Global, geometry: &Geometry, leader: &mut Leader, text: &[u8]) -> bool
    requires { leader.old.shape ≡ geometry.now }
{
    'rows: for row in text.chunks(7) {
        if !leader_row(alloc, geometry, leader, row) {
            return false;
        }
    }
    true
}

fn leads(alloc: Global, geometry: &Geometry, base: u64, text: &[u8]) -> bool {
    match Leader::new(alloc, geometry, 0, base) {
        Ok(mut leader) => leader_holds(alloc, geometry, &mut leader, text),
        Err(NoMemory) => false,
    }
}

/// No vote; all vote, region by region; two roots in two regions; no regions; a region that is not there.
fn votes_of_all() -> &'static [u8] {
    b"un01y.;u001n.;t0001a;u001n.;t0101a;u001y.;u101n.;u201n.;t1001b;u201n.;t1101b;u201y.;\
        u101y.;u901n.;u002n.;u017n.;un02y.;"
}

/// A vote for 17 after one for 1: the place goes over. One for 1 after that is dropped.
fn a_place_goes_over() -> &'static [u8] {
    b"t0001a;t0101a;u001y.;t0017b;u001n.;u017n.;t0001a;u001n.;t0117b;u017y.;u001n.;t0101a;\
        u017y.;t1017c;t1117c;u217y.;t1133c;u217n.;u017y.;"
}

/// A second root for one number is dropped, whichever came first; of two numbers that share no place both are kept.
fn a_second_root() -> &'static [u8] {
    b"t0005a;t0005b;t0105b;u005n.;t0105a;u005n.;t1005b;t1105b;t1105a;u105y.;u205n.;t1006c;\
        t1106c;u106y.;u105y.;t0021a;t0121a;u021y.;u005n.;"
}

/// Sixty rows at random.
fn votes_at_random() -> &'static [u8] {
    b"t1018a;u118n.;t0102a;u002n.;t0117b;t1002a;un02y.;u102n.;t0117b;t0101a;t0118a;t0018a;\
        t1117b;t0033a;u101n.;t0018a;t0133a;t1033a;t1118b;un02y.;t0018b;t0117a;t0018b;t1102b;\
        t1002a;t1133a;t0001a;u233y.;u217n.;t0017b;t0118b;un17y.;t1002a;t1101a;u002n.;u017n.;\
        u001n.;u102n.;t1002a;u018y.;t0017a;t0102a;u102n.;u118n.;t1118a;u033y.;u217n.;t0017a;\
        t0102a;t0017a;t0117b;u233y.;t1118a;t0018a;t1101a;u233y.;t0018a;u133y.;t1018b;t1102a;"
}

/// Claims start at the base; the greatest stays; committed is the least of one whole region.
fn claims_rise() -> &'static [u8] {
    b"k04...;a004y.;a005n.;a104y.;t0006.;a005n.;k04...;t0105.;a005y.;a006n.;k05...;t0003.;\
        a005y.;k05...;t0109.;k06...;a006y.;a007n.;a105n.;t1008.;t1108.;k08...;a108y.;a008n.;\
        t1102.;k08...;t0104.;k08...;a006y.;"
}

/// Fifty rows at random.
fn claims_at_random() -> &'static [u8] {
    b"t1106.;t0110.;k04...;t0004.;t1011.;k06...;t0100.;a010n.;t1004.;t1005.;t0109.;t0008.;\
        t1004.;t1101.;t1007.;a103y.;a104y.;t0110.;t0006.;a003y.;k08...;t1108.;k08...;a006y.;\
        t0003.;t0011.;k10...;a105y.;a106y.;t0008.;t0010.;t1100.;t1104.;t0006.;k10...;a104y.;\
        a009y.;k10...;t1102.;a005y.;a109n.;k10...;t1102.;a009y.;a107y.;k10...;a007y.;k10...;\
        t1009.;t0108.;"
}

/// The batch after the base at once; the next ones only after every claim of the batch before.
fn claims_in_order() -> &'static [u8] {
    b"f04...;a--...;h2005.;a--...;v0005a;v0105a;v1005b;a--...;v1105b;a05...;f05...;a--...;\
        h2106.;v0006c;v0106c;v1006d;v1106d;a--...;c1005.;a--...;c0005.;a--...;c1105.;a06...;\
        f06...;a--...;k05...;c0105.;k05...;c0009.;k05...;"
}

/// Two noted numbers may be claimed: the least first, then the other, however they came; a header noted twice is noted once.
fn the_least_first() -> &'static [u8] {
    b"h0107.;h0005.;h0005.;h0105.;v0007a;v0107a;v0005b;v0105b;c1006.;c1106.;a05...;a07...;\
        a--...;f07...;h0006.;v0006a;v0106a;c0006.;c0106.;a--...;f07...;k06...;"
}

/// A greater number takes the place of the one 16 below; the lesser one is noted no more. Another region leads what is ignored.
fn a_number_goes_over() -> &'static [u8] {
    b"h0005.;v0005a;v0105a;h0021.;a--...;h0005.;a--...;v0021a;v0121a;a--...;c0020.;a--...;\
        c0120.;a21...;f21...;h1022.;v1022b;v1122b;c0021.;c0121.;a--...;h2022.;v0022b;v0122b;\
        a22...;"
}

/// One replica with another root, one without a vote: nothing may be claimed. Claims of another region than the leader before do not serve.
fn roots_must_agree() -> &'static [u8] {
    b"h0001.;v0001a;v0101b;a--...;v0101a;a--...;h0002.;v0002a;a--...;v0102a;a--...;c1001.;\
        c1101.;a--...;c0001.;c0101.;a02...;f02...;k01...;"
}

/// Seventy rows at random.
fn leader_at_random() -> &'static [u8] {
    b"f04...;a--...;v0007a;h0108.;v0105a;h0005.;v0107a;h1105.;k04...;v1007a;v1021a;h2106.;\
        v0006b;c1005.;c0008.;v1106a;v0006a;v0106a;a--...;h0006.;v0005a;v0106a;a05...;h0008.;\
        v0006b;c1006.;v0106a;a--...;v0107a;v1106a;h0106.;c1107.;c1008.;k07...;c0004.;v0106a;\
        a--...;a--...;a--...;a--...;v0106a;h0007.;h1006.;v1121a;v0108a;v1007a;v0006a;c1005.;\
        k07...;v1108a;c1107.;a--...;h0105.;c0107.;a07...;v1121b;a--...;h2008.;v1108a;v0008a;\
        v1005a;v0008b;a08...;a--...;h0005.;v1006a;a--...;k07...;c0008.;v0105a;"
}

#[test]
fn votes_claims_and_leaders(rt: HostRuntime) {
    let geometry = four_nodes().expect(&rt, "a geometry");
    for text in [
        votes_of_all(),
        a_place_goes_over(),
        a_second_root(),
        votes_at_random(),
    ] {
        assert!(rt; are_votes(rt.alloc(), &geometry, text));
    }
    for text in [claims_rise(), claims_at_random()] {
        assert!(rt; are_claims(rt.alloc(), &geometry, text));
    }
    for text in [
        claims_in_order(),
        the_least_first(),
        a_number_goes_over(),
        leader_at_random(),
    ] {
        assert!(rt; leads(rt.alloc(), &geometry, 4, text));
    }
    assert!(rt; leads(rt.alloc(), &geometry, 0, roots_must_agree()));
}
