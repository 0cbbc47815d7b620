ghost use Rattle.std.specs.Prelude.{◌≡◌, ◌≤◌, length, take};
ghost use Rattle.pipelined_commit.specs.Noting.{noted_of};

use salus_types::Header;
use std::marker::Model;

/// What a leader keeps of a header.
#[derive(Debug, Drop)]
pub struct Note {
    seq: u64,
    leader_before: u16,
    touched: [u16; 16],
    count: usize,
}

impl Model for Note {
    ghost use Rattle.std.specs.Prelude.{◌≤◌, take};
    ghost use Rattle.pipelined_commit.specs.Noting.{Noted};

    ghost Value = { Noted };

    ghost view = { λ n. record { seq = n.seq; leader_before = n.leader_before; touched = take n.count n.touched } };

    ghost invariant = { λ n. n.count ≤ 16 };
}

/// The regions, in the front of 16 places.
fn in_places(regions: &[u16]) -> [u16; 16]
    requires { length regions.now ≤ 16 }
    ensures { take (length regions.now) result ≡ regions.now }
{
    let mut places = [0; 16];
    places[..regions.len()].copy_from_slice(regions);
    places
}

impl Note {
    pub fn of(header: &Header) -> Note
        requires { length header.now.touched ≤ 16 }
        ensures { result ≡ noted_of header.now }
    {
        let regions = header.touched.as_slice();
        Note {
            seq: header.seq,
            leader_before: header.leader_before,
            touched: in_places(regions),
            count: regions.len(),
        }
    }

    pub fn seq(&self) -> u64
        ensures { result ≡ self.now.seq }
    {
        self.seq
    }

    pub fn leader_before(&self) -> u16
        ensures { result ≡ self.now.leader_before }
    {
        self.leader_before
    }

    pub fn touched(&self) -> &[u16]
        ensures { result.now ≡ self.now.touched }
    {
        &self.touched[..self.count]
    }
}
