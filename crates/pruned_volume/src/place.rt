//! Where a block of the volume stands.
ghost use Rattle.std.specs.Prelude.{◌≡◌, ◌<◌, ◌^◌};
ghost use Rattle.salus_types.specs.Volume.{blocks, regions};
ghost use Rattle.volume_model.specs.Contents.{place_of, region_of};

use salus_types::Geometry;

/// The region in which a block lies.
pub fn region_of(geometry: &Geometry, block: u64) -> u64
    ensures value { result ≡ region_of geometry.now block }
    ensures within { block < blocks geometry.now → result < regions geometry.now }
{
    block / u64::from(geometry.region_blocks())
}

/// Its place there.
pub fn place_of(geometry: &Geometry, block: u64) -> u32
    ensures value { result ≡ place_of geometry.now block }
    ensures within { result < 2 ^ geometry.now.height }
{
    (block % u64::from(geometry.region_blocks())) as u32
}
