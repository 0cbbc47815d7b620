ghost use Rattle.std.specs.Prelude.{◌≡◌, ◌↔◌, ◌≤◌, ◌<◌, ◌*◌, ◌^◌, IfOk, IsErrOf};
ghost use Rattle.salus_types.specs.Volume.{Shape, IsVolume, IsBlock, IsReplicas, regions, region_blocks, blocks, nodes};

use std::marker::Model;

/// Why four numbers are no geometry: the first of them that is out of its range, or the size.
#[derive(Clone, Copy, PartialEq, Eq, Debug, Drop)]
pub enum GeometryError {
    /// More than 2^4 regions.
    RegionsRange,
    /// More than 2^10 blocks in a region.
    HeightRange,
    /// A block hasn't 1 to 4,096 bytes.
    BlockRange,
    /// A group hasn't 1 to 5 replicas.
    ReplicasRange,
    /// The volume has more than 1,048,576 bytes.
    VolumeLarge,
}

/// The shape of a volume, within the limits: 2^k regions of 2^height blocks each, and a group of replicas for each
/// region.
#[derive(Clone, Copy, PartialEq, Eq, Debug, Drop)]
pub struct Geometry {
    regions_log: u32,
    height: u32,
    block: u32,
    replicas: u32,
}

impl Model for Geometry {
    ghost use Rattle.salus_types.specs.Volume.{Shape, IsVolume};

    ghost Value = { Shape };

    ghost view = { λ g. record { regions_log = g.regions_log; height = g.height; block = g.block; replicas = g.replicas } };

    ghost inverse = { λ s. record { regions_log = s.regions_log; height = s.height; block = s.block; replicas = s.replicas } };

    ghost invariant = { λ g. IsVolume (record { regions_log = g.regions_log; height = g.height; block = g.block; replicas = g.replicas }) };
}

fn power(log: u32) -> u32
    requires { log ≤ 10 }
    ensures value { result ≡ 2 ^ log }
    ensures bound { result ≤ 1024 }
    ensures few { log ≤ 4 → result ≤ 16 }
{
    2u32.pow(log)
}

/// The bytes of so many blocks.
fn bytes_of(regions_log: u32, height: u32, block: u32) -> u32
    requires regions { regions_log ≤ 4 }
    requires height { height ≤ 10 }
    requires block { block ≤ 4096 }
    ensures { result ≡ 2 ^ regions_log * 2 ^ height * block }
{
    power(regions_log) * power(height) * block
}

impl Geometry {
    /// A volume of 2^`regions_log` regions, each of 2^`height` blocks of `block` bytes and with a group of
    /// `replicas`.
    pub fn new(
        regions_log: u64,
        height: u64,
        block: u64,
        replicas: u64,
    ) -> Result<Geometry, GeometryError>
        ensures ok { IfOk result (λ g. g ≡ record { regions_log = regions_log; height = height; block = block; replicas = replicas }) }
        ensures volume { IfOk result IsVolume }
        ensures regions_range { IsErrOf result GeometryError.RegionsRange ↔ (4 < regions_log) }
        ensures height_range { IsErrOf result GeometryError.HeightRange ↔ ((regions_log ≤ 4) × (10 < height)) }
        ensures block_range { IsErrOf result GeometryError.BlockRange ↔ ((regions_log ≤ 4) × (height ≤ 10) × (IsBlock block → ⊥)) }
        ensures replicas_range { IsErrOf result GeometryError.ReplicasRange ↔ ((regions_log ≤ 4) × (height ≤ 10) × IsBlock block × (IsReplicas replicas → ⊥)) }
        ensures volume_large { IsErrOf result GeometryError.VolumeLarge ↔ ((regions_log ≤ 4) × (height ≤ 10) × IsBlock block × IsReplicas replicas × (1048576 < 2 ^ regions_log * 2 ^ height * block)) }
    {
        if regions_log > 4 {
            return Err(GeometryError::RegionsRange);
        }
        if height > 10 {
            return Err(GeometryError::HeightRange);
        }
        if block < 1 || block > 4096 {
            return Err(GeometryError::BlockRange);
        }
        if replicas < 1 || replicas > 5 {
            return Err(GeometryError::ReplicasRange);
        }
        if bytes_of(regions_log as u32, height as u32, block as u32) > 1_048_576 {
            return Err(GeometryError::VolumeLarge);
        }
        Ok(Geometry {
            regions_log: regions_log as u32,
            height: height as u32,
            block: block as u32,
            replicas: replicas as u32,
        })
    }

    /// How many regions there are.
    pub fn regions(&self) -> u32
        ensures value { result ≡ regions self.now }
        ensures bound { result ≤ 16 }
    {
        power(self.regions_log)
    }

    /// The height of a region's tree.
    pub fn height(&self) -> u32
        ensures value { result ≡ self.now.height }
        ensures bound { result ≤ 10 }
    {
        self.height
    }

    /// How many blocks a region has.
    pub fn region_blocks(&self) -> u32
        ensures value { result ≡ region_blocks self.now }
        ensures bound { result ≤ 1024 }
    {
        power(self.height)
    }

    /// How many blocks the volume has.
    pub fn blocks(&self) -> u32
        ensures value { result ≡ blocks self.now }
        ensures bound { result ≤ 16384 }
    {
        self.regions() * self.region_blocks()
    }

    /// How many bytes a block has.
    pub fn block_size(&self) -> u32
        ensures value { result ≡ self.now.block }
        ensures bound { IsBlock result }
    {
        self.block
    }

    /// How many replicas a group has.
    pub fn replicas(&self) -> u32
        ensures value { result ≡ self.now.replicas }
        ensures bound { IsReplicas result }
    {
        self.replicas
    }

    /// How many nodes there are.
    pub fn nodes(&self) -> u32
        ensures value { result ≡ nodes self.now }
        ensures bound { result ≤ 80 }
    {
        self.regions() * self.replicas
    }
}
