//! Parts on their way to the replicas of their regions.
ghost use Rattle.std.specs.Prelude.{◌≡◌, ◌++◌, All, map, OnOk};
ghost use Rattle.client_tag.specs.Ranges.{IsRecord};
ghost use Rattle.client_tag.specs.Tags.{sealed};
ghost use Rattle.client_rules.specs.Submitting.{part_letters};
ghost use Rattle.posting.specs.Letters.{out_of_letter};
ghost use Rattle.client_pipeline.specs.Pipeline.{all_parts, letters_of};

use client_tag::seal;
use posting::{encode_part, post_bytes_to_group};
use salus_hash::HmacKey;
use salus_types::{Geometry, NoMemory, Out, Record, Records};
use std::alloc::Global;

/// Seals each part. After an error some of them may be sealed.
pub fn seal_each(alloc: Global, key: &HmacKey, parts: &mut [Record]) -> Result<(), NoMemory>
    requires { All IsRecord parts.old }
    ensures sealed { OnOk result (parts.new ≡ map (sealed key.now) parts.old) }
    ensures records { OnOk result (All IsRecord parts.new) }
{
    'parts: for part in parts.iter_mut() {
        seal(alloc, key, part)?;
    }
    Ok(())
}

/// Posts a part to every replica of its region.
fn post_part(
    alloc: Global,
    outs: &mut Vec<Out>,
    geometry: &Geometry,
    part: &Record,
) -> Result<(), NoMemory>
    requires { IsRecord part.now }
    ensures { OnOk result (outs.new.items ≡ outs.old.items ++ map out_of_letter (letters_of geometry.now part.now)) }
{
    let bytes = encode_part(alloc, part)?;
    post_bytes_to_group(alloc, outs, geometry, part.header.region, bytes.as_slice())
}

/// Posts each part to every replica of its region.
pub fn post_parts(
    alloc: Global,
    outs: &mut Vec<Out>,
    geometry: &Geometry,
    parts: &[Record],
) -> Result<(), NoMemory>
    requires { All IsRecord parts.now }
    ensures { OnOk result (outs.new.items ≡ outs.old.items ++ map out_of_letter (part_letters geometry.now parts.now)) }
{
    'parts: for part in parts {
        post_part(alloc, outs, geometry, part)?;
    }
    Ok(())
}

/// Posts the parts of each batch, in order.
pub fn post_batches(
    alloc: Global,
    outs: &mut Vec<Out>,
    geometry: &Geometry,
    batches: &[Records],
) -> Result<(), NoMemory>
    requires { All (All IsRecord) batches.now }
    ensures { OnOk result (outs.new.items ≡ outs.old.items ++ map out_of_letter (part_letters geometry.now (all_parts batches.now))) }
{
    'batches: for parts in batches {
        post_parts(alloc, outs, geometry, parts.as_slice())?;
    }
    Ok(())
}
