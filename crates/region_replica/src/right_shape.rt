//! Whether a part has the shape that a region's part must have.
ghost use Rattle.std.specs.Prelude.{◌≡◌, ◌≤◌, ◌==◌, ◌&&◌, ◌%◌, ◌^◌, nat_lt, nat_le, length, map};
ghost use Rattle.std.specs.List.{list_all, list_any};
ghost use Rattle.salus_types.specs.Volume.{region_blocks};
ghost use Rattle.holding_model.specs.Fitting.{ascends_from, has_content, record_fits, run_fits};
ghost use Rattle.replica_rules.specs.Views.{has_right_shape, header_is_right, touches_here};

use salus_types::{Geometry, Header, PlaceWrite, Record, Trim};

/// Whether the regions ascend.
fn regions_ascend(regions: &[u16]) -> bool
    ensures { result ≡ ascends_from 0 regions.now }
{
    let mut low = 0;
    'regions: for region in regions {
        let region = u32::from(*region);
        if region < low {
            return false;
        }
        low = region + 1;
    }
    true
}

fn all_below(regions: &[u16], count: u32) -> bool
    ensures { result ≡ list_all (λ g. nat_lt g count) regions.now }
{
    regions.iter().all(|g| u32::from(*g) < count)
}

fn is_among(region: u16, regions: &[u16]) -> bool
    ensures { result ≡ list_any (λ r. r == region) regions.now }
{
    regions.iter().any(|other| *other == region)
}

/// Whether these are regions of the volume, ascending, with this one among them.
fn touches_here(geometry: &Geometry, region: u16, touched: &[u16]) -> bool
    ensures { result ≡ touches_here geometry.now region touched.now }
{
    regions_ascend(touched) && all_below(touched, geometry.regions()) && is_among(region, touched)
}

fn header_is_right(geometry: &Geometry, region: u16, header: &Header) -> bool
    ensures { result ≡ header_is_right geometry.now region header.now }
{
    let count = geometry.regions();
    header.fronts.len() == count as usize
        && touches_here(geometry, region, header.touched.as_slice())
        && u32::from(header.leader_before) < count
        && header.previous < header.seq
}

/// Whether the record has writes or a run, and not both.
fn has_content(rec: &Record) -> bool
    ensures { result ≡ has_content rec.now.writes rec.now.run }
{
    rec.writes.is_empty() != rec.run.is_none()
}

/// Whether the places ascend.
fn places_ascend(writes: &[PlaceWrite]) -> bool
    ensures { result ≡ ascends_from 0 (map (λ w. w.place) writes.now) }
{
    let mut low = 0;
    'writes: for write in writes {
        let place = u32::from(write.place);
        if place < low {
            return false;
        }
        low = place + 1;
    }
    true
}

fn each_fits(writes: &[PlaceWrite], places: u32, size: u32) -> bool
    ensures { result ≡ list_all (λ w. nat_lt w.place places && (length w.bytes == size)) writes.now }
{
    writes.iter().all(|w| u32::from(w.place) < places && w.bytes.len() == size as usize)
}

/// Whether the place is a multiple of 2^`log`.
fn is_multiple(place: u16, log: u8) -> bool
    requires { log ≤ 10 }
    ensures { result ≡ (place % 2 ^ log == 0) }
{
    u32::from(place) % 2u32.pow(u32::from(log)) == 0
}

/// Whether the run lies in the region, at a multiple of its length.
fn run_fits(geometry: &Geometry, run: Option<Trim>) -> bool
    ensures { result ≡ run_fits geometry.now run }
{
    match run {
        None => true,
        Some(t) => {
            u32::from(t.log) <= geometry.height()
                && u32::from(t.place) < geometry.region_blocks()
                && is_multiple(t.place, t.log)
        }
    }
}

#[tactic(auto, unfolding(holding_model::specs::Fitting::record_fits))]
fn record_fits(geometry: &Geometry, rec: &Record) -> bool
    ensures { result ≡ record_fits geometry.now rec.now }
{
    let writes = rec.writes.as_slice();
    places_ascend(writes)
        && each_fits(writes, geometry.region_blocks(), geometry.block_size())
        && run_fits(geometry, rec.run)
}

/// Whether a part for the region is of the right shape: a front for each region; the regions that it touches ascend, are
/// of the volume, and this one is among them; the leader before is of the volume; its number is above the previous one;
/// and it has content, which fits the region.
#[tactic(auto, unfolding(replica_rules::specs::Views::has_right_shape))]
pub fn has_right_shape(geometry: &Geometry, region: u16, rec: &Record) -> bool
    ensures { result ≡ has_right_shape geometry.now region rec.now }
{
    header_is_right(geometry, region, &rec.header) && has_content(rec) && record_fits(geometry, rec)
}
