//! Which blocks and records fit a volume: what the calls ask of theirs.
ghost use Rattle.std.specs.Prelude.{◌≡◌, ◌&&◌, ◌==◌, ◌%◌, ◌^◌, ◌≤◌, nat_lt, length, map, IsTrue};
ghost use Rattle.std.specs.List.{list_all};
ghost use Rattle.holding_model.specs.Fitting.{ascends_from, has_shape, record_fits, run_fits};

use salus_types::{Bytes, Geometry, PlaceWrite, Record, Trim};

fn each_sized(blocks: &[Bytes], size: u32) -> bool
    ensures { result ≡ list_all (λ x. length x == size) blocks.now }
{
    blocks.iter().all(|block| block.len() == size as usize)
}

#[tactic(auto, unfolding(holding_model::specs::Fitting::has_shape))]
pub fn has_shape(geometry: &Geometry, blocks: &[Bytes]) -> bool
    ensures value { result ≡ has_shape geometry.now blocks.now }
    ensures count { IsTrue result → length blocks.now ≡ 2 ^ geometry.now.height }
{
    blocks.len() == geometry.region_blocks() as usize && each_sized(blocks, geometry.block_size())
}

fn places_ascend(writes: &[PlaceWrite]) -> bool
    ensures { result ≡ ascends_from 0 (map (λ w. w.place) writes.now) }
{
    let mut low = 0;
    'writes: for write in writes {
        let place = u32::from(write.place);
        if place < low {
            return false;
        }
        low = place + 1;
    }
    true
}

fn each_fits(writes: &[PlaceWrite], places: u32, size: u32) -> bool
    ensures { result ≡ list_all (λ w. nat_lt w.place places && (length w.bytes == size)) writes.now }
{
    writes.iter().all(|w| u32::from(w.place) < places && w.bytes.len() == size as usize)
}

fn is_multiple(place: u16, log: u8) -> bool
    requires { log ≤ 10 }
    ensures { result ≡ (place % 2 ^ log == 0) }
{
    u32::from(place) % 2u32.pow(u32::from(log)) == 0
}

fn run_fits(geometry: &Geometry, run: Option<Trim>) -> bool
    ensures { result ≡ run_fits geometry.now run }
{
    match run {
        None => true,
        Some(t) => {
            u32::from(t.log) <= geometry.height()
                && u32::from(t.place) < geometry.region_blocks()
                && is_multiple(t.place, t.log)
        }
    }
}

#[tactic(auto, unfolding(holding_model::specs::Fitting::record_fits))]
pub fn record_fits(geometry: &Geometry, rec: &Record) -> bool
    ensures { result ≡ record_fits geometry.now rec.now }
{
    let writes = rec.writes.as_slice();
    places_ascend(writes)
        && each_fits(writes, geometry.region_blocks(), geometry.block_size())
        && run_fits(geometry, rec.run)
}
