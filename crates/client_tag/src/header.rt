ghost use Rattle.std.specs.Prelude.{◌≡◌, ◌++◌, ◌<◌, ◌≤◌, ◌^◌, length, Ok, OnOk};
ghost use Rattle.std.specs.List.{flat_map, AllByRecursion};
ghost use Rattle.salus_types.specs.Outcome.{Gives};
ghost use Rattle.salus_codec.specs.Reading.{field_fault, bytes_at, u16_at, u64_at};
ghost use Rattle.salus_codec.specs.Formats.{times};
ghost use Rattle.salus_codec.specs.Spelling.{IsBytes, be2, be8};
ghost use Rattle.client_tag.specs.Spelling.{batch_bytes, before_bytes, numbers_bytes, regions_bytes, after_bytes, header_bytes};
ghost use Rattle.client_tag.specs.Ranges.{IsHeader, HasWidths};
ghost use Rattle.client_tag.specs.Reading.{batch_at, before_at, numbers_at, regions_at, after_at, header_at};

use salus_codec::{FieldError, Fields, put_bytes, put_u8, put_u16, put_u64};
use salus_hash::Digest;
use salus_types::{Header, Items, NoMemory, Numbers, Regions};
use std::alloc::Global;

pub fn read_digest(fields: &mut Fields) -> Result<Digest, FieldError>
    ensures { Gives (λ x. Ok (x, fields.new)) field_fault result (bytes_at 32 fields.old) }
{
    let bytes = fields.array32()?;
    Ok(Digest::from_bytes(bytes))
}

#[tactic(auto, unfolding(crate::specs::Reading::batch_at))]
fn read_batch(fields: &mut Fields) -> Result<(u8, u64, u64, u16), FieldError>
    ensures exact { Gives (λ x. Ok ((x.0, (x.1, (x.2, x.3))), fields.new)) field_fault result (batch_at fields.old) }
    ensures fits { IsBytes fields.old }
{
    let version = fields.u8_within(1, 1)?;
    let session = fields.u64()?;
    let seq = fields.u64()?;
    let region = fields.u16()?;
    Ok((version, session, seq, region))
}

#[tactic(auto, unfolding(crate::specs::Reading::before_at))]
fn read_before(fields: &mut Fields) -> Result<(u64, u16), FieldError>
    ensures { Gives (λ x. Ok ((x.0, x.1), fields.new)) field_fault result (before_at fields.old) }
{
    let previous = fields.u64()?;
    let leader_before = fields.u16()?;
    Ok((previous, leader_before))
}

fn read_each_number(alloc: Global, count: u8, fields: &mut Fields) -> Result<Numbers, FieldError>
    ensures { Gives (λ x. Ok (x, fields.new)) field_fault result (times u64_at count fields.old) }
{
    let mut numbers = Items::new(alloc);
    'each: for _ in 0..count {
        let number = fields.u64()?;
        numbers.push(number)?;
    }
    Ok(numbers)
}

#[tactic(auto, unfolding(crate::specs::Reading::numbers_at))]
fn read_numbers(alloc: Global, fields: &mut Fields) -> Result<Numbers, FieldError>
    ensures { Gives (λ x. Ok (x, fields.new)) field_fault result (numbers_at fields.old) }
{
    let count = fields.u8_within(1, 16)?;
    read_each_number(alloc, count, fields)
}

fn read_each_region(alloc: Global, count: u8, fields: &mut Fields) -> Result<Regions, FieldError>
    ensures { Gives (λ x. Ok (x, fields.new)) field_fault result (times u16_at count fields.old) }
{
    let mut regions = Items::new(alloc);
    'each: for _ in 0..count {
        let region = fields.u16()?;
        regions.push(region)?;
    }
    Ok(regions)
}

#[tactic(auto, unfolding(crate::specs::Reading::regions_at))]
fn read_regions(alloc: Global, fields: &mut Fields) -> Result<Regions, FieldError>
    ensures { Gives (λ x. Ok (x, fields.new)) field_fault result (regions_at fields.old) }
{
    let count = fields.u8_within(1, 16)?;
    read_each_region(alloc, count, fields)
}

#[tactic(auto, unfolding(crate::specs::Reading::after_at))]
fn read_after(
    alloc: Global,
    fields: &mut Fields,
) -> Result<(Numbers, Regions, Digest, Digest), FieldError>
    ensures { Gives (λ x. Ok ((x.0, (x.1, (x.2, x.3))), fields.new)) field_fault result (after_at fields.old) }
{
    let fronts = read_numbers(alloc, fields)?;
    let touched = read_regions(alloc, fields)?;
    let root = read_digest(fields)?;
    let top = read_digest(fields)?;
    Ok((fronts, touched, root, top))
}

#[tactic(auto, unfolding(crate::specs::Reading::header_at))]
pub fn read_header(alloc: Global, fields: &mut Fields) -> Result<Header, FieldError>
    ensures exact { Gives (λ x. Ok (x, fields.new)) field_fault result (header_at fields.old) }
    ensures fits { IsBytes fields.old }
{
    let (version, session, seq, region) = read_batch(fields)?;
    let (previous, leader_before) = read_before(fields)?;
    let (fronts, touched, root, top) = read_after(alloc, fields)?;
    Ok(Header {
        version,
        session,
        seq,
        region,
        previous,
        leader_before,
        fronts,
        touched,
        root,
        top,
    })
}

#[tactic(auto, unfolding(crate::specs::Spelling::batch_bytes))]
fn put_batch(out: &mut Vec<u8>, header: &Header) -> Result<(), NoMemory>
    ensures bytes { OnOk result (out.new.items ≡ out.old.items ++ batch_bytes header.now) }
    ensures widths { OnOk result ((header.now.version < 2 ^ 8) × (header.now.session < 2 ^ 64) × (header.now.seq < 2 ^ 64) × (header.now.region < 2 ^ 16)) }
{
    put_u8(out, header.version)?;
    put_u64(out, header.session)?;
    put_u64(out, header.seq)?;
    put_u16(out, header.region)
}

#[tactic(auto, unfolding(crate::specs::Spelling::before_bytes))]
fn put_before(out: &mut Vec<u8>, header: &Header) -> Result<(), NoMemory>
    ensures bytes { OnOk result (out.new.items ≡ out.old.items ++ before_bytes header.now) }
    ensures widths { OnOk result ((header.now.previous < 2 ^ 64) × (header.now.leader_before < 2 ^ 16)) }
{
    put_u64(out, header.previous)?;
    put_u16(out, header.leader_before)
}

fn put_each_number(out: &mut Vec<u8>, numbers: &[u64]) -> Result<(), NoMemory>
    ensures bytes { OnOk result (out.new.items ≡ out.old.items ++ flat_map be8 numbers.now) }
    ensures widths { OnOk result (AllByRecursion (λ n. n < 2 ^ 64) numbers.now) }
{
    for number in numbers {
        put_u64(out, *number)?;
    }
    Ok(())
}

#[tactic(auto, unfolding(crate::specs::Spelling::numbers_bytes))]
fn put_numbers(out: &mut Vec<u8>, numbers: &Numbers) -> Result<(), NoMemory>
    requires { length numbers.now < 2 ^ 8 }
    ensures bytes { OnOk result (out.new.items ≡ out.old.items ++ numbers_bytes numbers.now) }
    ensures widths { OnOk result (AllByRecursion (λ n. n < 2 ^ 64) numbers.now) }
{
    put_u8(out, numbers.len() as u8)?;
    put_each_number(out, numbers.as_slice())
}

fn put_each_region(out: &mut Vec<u8>, regions: &[u16]) -> Result<(), NoMemory>
    ensures bytes { OnOk result (out.new.items ≡ out.old.items ++ flat_map be2 regions.now) }
    ensures widths { OnOk result (AllByRecursion (λ n. n < 2 ^ 16) regions.now) }
{
    for region in regions {
        put_u16(out, *region)?;
    }
    Ok(())
}

#[tactic(auto, unfolding(crate::specs::Spelling::regions_bytes))]
fn put_regions(out: &mut Vec<u8>, regions: &Regions) -> Result<(), NoMemory>
    requires { length regions.now < 2 ^ 8 }
    ensures bytes { OnOk result (out.new.items ≡ out.old.items ++ regions_bytes regions.now) }
    ensures widths { OnOk result (AllByRecursion (λ n. n < 2 ^ 16) regions.now) }
{
    put_u8(out, regions.len() as u8)?;
    put_each_region(out, regions.as_slice())
}

#[tactic(auto, unfolding(crate::specs::Spelling::after_bytes))]
fn put_after(out: &mut Vec<u8>, header: &Header) -> Result<(), NoMemory>
    requires { IsHeader header.now }
    ensures bytes { OnOk result (out.new.items ≡ out.old.items ++ after_bytes header.now) }
    ensures numbers { OnOk result (AllByRecursion (λ n. n < 2 ^ 64) header.now.fronts × AllByRecursion (λ n. n < 2 ^ 16) header.now.touched) }
    ensures digests { OnOk result ((length header.now.root ≡ 32) × (length header.now.top ≡ 32)) }
{
    put_numbers(out, &header.fronts)?;
    put_regions(out, &header.touched)?;
    put_bytes(out, header.root.as_bytes().as_slice())?;
    put_bytes(out, header.top.as_bytes().as_slice())
}

#[tactic(auto, unfolding(crate::specs::Spelling::header_bytes))]
pub fn put_header(out: &mut Vec<u8>, header: &Header) -> Result<(), NoMemory>
    requires { IsHeader header.now }
    ensures bytes { OnOk result (out.new.items ≡ out.old.items ++ header_bytes header.now) }
    ensures widths { OnOk result (HasWidths header.now) }
{
    put_batch(out, header)?;
    put_before(out, header)?;
    put_after(out, header)
}
