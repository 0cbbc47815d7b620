ghost use Rattle.std.specs.Prelude.{◌≡◌, ◌≤◌, ◌<◌, ◌==◌, ◌&&◌, ◌∷◌, ◌++◌, [], if◌then◌else◌, All, not, nat_le, nat_lt, length, filter, map, slice_set, None, IfOk, OnOk};
ghost use Rattle.std.specs.List.{list_any};
ghost use Rattle.salus_types.specs.Volume.{Shape};
ghost use Rattle.holding_model.specs.Fitting.{blocks_written};
ghost use Rattle.holding_model.specs.Changing.{is_folded, is_open_base, base_after, base_after_all, bases_folded};
ghost use Rattle.datanode_store.specs.Meaning.{IsPart, CanBeKept};

use salus_types::{
    Base, Bases, Blocks, Held, Items, NoMemory, PlaceWrite, Record, Records, TryClone,
};
use std::alloc::Global;

// Whether a part goes into the base.
fn is_folded(held: &Held, seq: u64, rec: &Record) -> bool
    ensures { result ≡ is_folded held.now seq rec.now }
{
    rec.header.session == held.session && rec.header.seq <= seq
}

/// Whether there is a part that goes into the base.
pub fn any_folded(held: &Held, seq: u64) -> bool
    ensures { result ≡ list_any (λ rec. is_folded held.now seq rec) held.now.parts }
{
    for rec in held.parts.as_slice() {
        if is_folded(held, seq, rec) {
            return true;
        }
    }
    false
}

// Puts a write into its place.
fn write_one(alloc: Global, blocks: &mut Blocks, write: &PlaceWrite) -> Result<(), NoMemory>
    ensures { OnOk result (blocks.new ≡ slice_set blocks.old write.now.place write.now.bytes) }
{
    let place = write.place as usize;
    if place >= blocks.len() {
        return Ok(());
    }
    match write.bytes.try_clone(alloc) {
        Ok(bytes) => {
            blocks.set(place, bytes);
            Ok(())
        }
        Err(error) => Err(error),
    }
}

// Puts the writes into their places.
fn write_blocks(alloc: Global, blocks: &mut Blocks, writes: &[PlaceWrite]) -> Result<(), NoMemory>
    ensures { OnOk result (blocks.new ≡ blocks_written blocks.old writes.now) }
{
    'writes: for write in writes {
        match write_one(alloc, blocks, write) {
            Ok(()) => {}
            Err(error) => return Err(error),
        }
    }
    Ok(())
}

// The base after a part: its blocks after the writes, and the part's record.
fn take_part(alloc: Global, base: &mut Base, rec: &Record) -> Result<(), NoMemory>
    requires { rec.now.run ≡ None }
    ensures { OnOk result ((shape : Shape) → base.new ≡ base_after shape base.old rec.now) }
{
    match write_blocks(alloc, &mut base.blocks, rec.writes.as_slice()) {
        Ok(()) => {}
        Err(error) => return Err(error),
    }
    match rec.try_clone(alloc) {
        Ok(copy) => {
            base.rec = copy;
            Ok(())
        }
        Err(error) => Err(error),
    }
}

// The same of a part that goes into the base; another is passed over.
fn take_folded(
    alloc: Global,
    held: &Held,
    seq: u64,
    base: &mut Base,
    rec: &Record,
) -> Result<(), NoMemory>
    requires { rec.now.run ≡ None }
    ensures { OnOk result ((shape : Shape) → base.new ≡ (if is_folded held.now seq rec.now then base_after shape base.old rec.now else base.old)) }
{
    if !is_folded(held, seq, rec) {
        return Ok(());
    }
    take_part(alloc, base, rec)
}

// The base after the parts that go into it, in the order held.
fn fold_base(alloc: Global, held: &Held, seq: u64, base: &Base) -> Result<Base, NoMemory>
    requires { All IsPart held.now.parts }
    ensures { IfOk result (λ folded. (shape : Shape) → folded ≡ base_after_all shape base.now (filter (λ rec. is_folded held.now seq rec) held.now.parts)) }
{
    let mut folded = match base.try_clone(alloc) {
        Ok(folded) => folded,
        Err(error) => return Err(error),
    };
    'parts: for rec in held.parts.as_slice() {
        match take_folded(alloc, held, seq, &mut folded, rec) {
            Ok(()) => {}
            Err(error) => return Err(error),
        }
    }
    Ok(folded)
}

// Adds a base of the open session after the parts that go into it; another is passed over.
fn add_open(
    alloc: Global,
    held: &Held,
    seq: u64,
    bases: &mut Bases,
    base: &Base,
) -> Result<(), NoMemory>
    requires { All IsPart held.now.parts }
    ensures { OnOk result ((shape : Shape) → bases.new ≡ bases.old ++ (if is_open_base held.now base.now then base_after_all shape base.now (filter (λ rec. is_folded held.now seq rec) held.now.parts) ∷ [] else [])) }
{
    if base.rec.header.session != held.session {
        return Ok(());
    }
    match fold_base(alloc, held, seq, base) {
        Ok(folded) => bases.push(folded),
        Err(error) => Err(error),
    }
}

// The bases of the open session, each after the parts that go into it.
fn fold_open(alloc: Global, held: &Held, seq: u64) -> Result<Bases, NoMemory>
    requires { All IsPart held.now.parts }
    ensures { IfOk result (λ bases. (shape : Shape) → bases ≡ map (λ base. base_after_all shape base (filter (λ rec. is_folded held.now seq rec) held.now.parts)) (filter (λ base. is_open_base held.now base) held.now.bases)) }
{
    let mut bases = Items::new(alloc);
    'bases: for base in held.bases.as_slice() {
        match add_open(alloc, held, seq, &mut bases, base) {
            Ok(()) => {}
            Err(error) => return Err(error),
        }
    }
    Ok(bases)
}

// The bases of later sessions, copied.
fn copy_later(alloc: Global, held: &Held) -> Result<Bases, NoMemory>
    ensures { IfOk result (λ bases. bases ≡ filter (λ base. nat_lt held.now.session base.rec.header.session) held.now.bases) }
{
    let mut bases = Items::new(alloc);
    'bases: for base in held.bases.as_slice() {
        if held.session < base.rec.header.session {
            let copy = match base.try_clone(alloc) {
                Ok(copy) => copy,
                Err(error) => return Err(error),
            };
            match bases.push(copy) {
                Ok(()) => {}
                Err(error) => return Err(error),
            }
        }
    }
    Ok(bases)
}

// The parts that don't go into the base, copied.
fn copy_left(alloc: Global, held: &Held, seq: u64) -> Result<Records, NoMemory>
    ensures { IfOk result (λ parts. parts ≡ filter (λ rec. not (is_folded held.now seq rec)) held.now.parts) }
{
    let mut parts = Items::new(alloc);
    'parts: for rec in held.parts.as_slice() {
        if !is_folded(held, seq, rec) {
            let copy = match rec.try_clone(alloc) {
                Ok(copy) => copy,
                Err(error) => return Err(error),
            };
            match parts.push(copy) {
                Ok(()) => {}
                Err(error) => return Err(error),
            }
        }
    }
    Ok(parts)
}

/// What is held after the parts of the open session up to this number are folded into its base.
pub fn fold(alloc: Global, held: &Held, seq: u64) -> Result<Held, NoMemory>
    requires ranges { CanBeKept held.now }
    ensures session { IfOk result (λ new. new.session ≡ held.now.session) }
    ensures bases { IfOk result (λ new. (shape : Shape) → new.bases ≡ bases_folded shape held.now seq) }
    ensures parts { IfOk result (λ new. new.parts ≡ filter (λ rec. not (is_folded held.now seq rec)) held.now.parts) }
{
    let mut bases = match fold_open(alloc, held, seq) {
        Ok(bases) => bases,
        Err(error) => return Err(error),
    };
    let later = match copy_later(alloc, held) {
        Ok(later) => later,
        Err(error) => return Err(error),
    };
    match bases.append(later) {
        Ok(()) => {}
        Err(error) => return Err(error),
    }
    let parts = match copy_left(alloc, held, seq) {
        Ok(parts) => parts,
        Err(error) => return Err(error),
    };
    Ok(Held {
        session: held.session,
        bases,
        parts,
    })
}
