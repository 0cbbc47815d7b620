ghost use Rattle.std.specs.Prelude.{◌≡◌, ◌<◌, IfOk, IfSome, OnOk, OnErr, option_copied, slice_get};
ghost use Rattle.client_tag.specs.Ranges.{IsRecord};
ghost use Rattle.restart_pool.specs.Following.{IsLane, seen};
ghost use Rattle.restart_pool.specs.Kept.{nothing_kept, with_base, with_part, HasRoot, IsSound};

use crate::chain::Lane;
use crate::counting::{base_counts, record_counts};
use crate::grow::put;
use crate::index::NumberIndex;
use salus_hash::{Digest, HmacKey};
use salus_types::{Base, Geometry, Header, NoMemory, Record, TryClone};
use std::alloc::Global;
use std::marker::Model;

/// The records and bases that count, in the order of arrival. A contract sees the volume's shape, the bases, the parts,
/// and the headers of all of them.
#[derive(Drop)]
pub struct Pool {
    geometry: Geometry,
    bases: Vec<Base>,
    parts: Vec<Record>,
    headers: Vec<Header>,
    /// The numbers of the parts.
    index: NumberIndex,
    /// The first bytes of the bases' roots.
    roots: NumberIndex,
}

/// The number that the first eight bytes of a root spell.
fn root_number(root: &Digest) -> u64 {
    let bytes = root.as_bytes();
    u64::from_be_bytes([
        bytes[0], bytes[1], bytes[2], bytes[3], bytes[4], bytes[5], bytes[6], bytes[7],
    ])
}

/// The base at this place.
fn base_at(bases: &[Base], place: usize) -> Option<&Base>
    ensures { option_copied result ≡ slice_get bases.now place }
{
    bases.get(place)
}

impl Model for Pool {
    ghost use Rattle.restart_pool.specs.Kept.{Kept, IsKept};

    ghost Value = { Kept };

    ghost view = { λ p. record { shape = p.geometry; held = record { bases = p.bases.items; parts = p.parts.items; headers = p.headers.items } } };

    ghost invariant = { λ p. IsKept p.geometry p.bases.items p.parts.items p.index };
}

impl Pool {
    /// An empty pool for a volume of this shape.
    pub fn new(alloc: Global, geometry: Geometry) -> Pool
        ensures { result ≡ nothing_kept geometry }
    {
        Pool {
            geometry,
            bases: Vec::new(alloc),
            parts: Vec::new(alloc),
            headers: Vec::new(alloc),
            index: NumberIndex::new(alloc),
            roots: NumberIndex::new(alloc),
        }
    }

    /// The volume's shape.
    pub fn geometry(&self) -> Geometry
        ensures { result ≡ self.now.shape }
    {
        self.geometry
    }

    /// Keeps the record if it counts. After an error the pool is as it was.
    pub fn add_record(&mut self, alloc: Global, key: &HmacKey, rec: &Record) -> Result<(), NoMemory>
        requires { IsRecord rec.now }
        ensures ok { OnOk result (self.new ≡ with_part key.now self.old rec.now) }
        ensures err { OnErr result (self.new ≡ self.old) }
    {
        if !record_counts(alloc, &self.geometry, key, rec)? {
            return Ok(());
        }
        let header = rec.header.try_clone(alloc)?;
        let part = rec.try_clone(alloc)?;
        self.headers.reserve(1)?;
        self.parts.reserve(1)?;
        self.index.push(rec.header.seq)?;
        put(&mut self.headers, header);
        put(&mut self.parts, part);
        Ok(())
    }

    /// The last kept base whose root begins as this one does, if there is one.
    fn base_like(&self, root: &Digest) -> Option<&Base>
        ensures { IfSome result (λ base. HasRoot self.now.shape base.now) }
    {
        match self.roots.last(root_number(root)) {
            Some(place) => base_at(self.bases.as_slice(), place),
            None => None,
        }
    }

    /// Keeps the base if it counts. Equal blocks of several replicas are hashed once. After an error the pool is as it was.
    pub fn add_base(&mut self, alloc: Global, key: &HmacKey, base: &Base) -> Result<(), NoMemory>
        requires { IsRecord base.now.rec }
        ensures ok { OnOk result (self.new ≡ with_base key.now self.old base.now) }
        ensures err { OnErr result (self.new ≡ self.old) }
    {
        let like = self.base_like(&base.rec.header.root);
        if !base_counts(alloc, &self.geometry, key, base, like)? {
            return Ok(());
        }
        let header = base.rec.header.try_clone(alloc)?;
        let copy = base.try_clone(alloc)?;
        self.headers.reserve(1)?;
        self.bases.reserve(1)?;
        self.roots.push(root_number(&base.rec.header.root))?;
        put(&mut self.headers, header);
        put(&mut self.bases, copy);
        Ok(())
    }

    /// The headers of all kept records and bases, in the order of arrival.
    pub fn headers(&self) -> &[Header]
        ensures { result.now ≡ self.now.held.headers }
    {
        self.headers.as_slice()
    }

    /// Says what every pool keeps to.
    pub(crate) fn is_sound(&self)
        ensures { IsSound self.now }
    {
        let _geometry = &self.geometry;
    }

    /// The session's chains in a region.
    pub(crate) fn lane(&self, session: u64, region: u16) -> Lane
        ensures lane { IsLane result }
        ensures seen { seen result ≡ record { shape = self.now.shape; session = session; region = region; bases = self.now.held.bases; parts = self.now.held.parts } }
    {
        Lane {
            geometry: self.geometry,
            session,
            region,
            bases: self.bases.as_slice(),
            parts: self.parts.as_slice(),
            index: &self.index,
        }
    }
}
