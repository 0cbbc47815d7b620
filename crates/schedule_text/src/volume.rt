ghost use Rattle.std.specs.Prelude.{◌≡◌, IfOk, map};
ghost use Rattle.text_words.specs.Reading.{number_of, key_of};
ghost use Rattle.schedule_text.specs.Reading.{shape_of, shape_from, keyed, volume_words, volume_of};

use crate::schedule::Volume;
use salus_types::{Geometry, NoMemory};
use std::alloc::Global;
use text_words::{count_words, key_of, number_of, split_words};

fn shape_of(regions_log: u64, height: u64, block: u64, replicas: u64) -> Option<Geometry>
    ensures { result ≡ shape_of regions_log height block replicas }
{
    match Geometry::new(regions_log, height, block, replicas) {
        Ok(geometry) => Some(geometry),
        Err(_) => None,
    }
}

fn shape_from(
    regions_log: Option<u64>,
    height: Option<u64>,
    block: Option<u64>,
    replicas: Option<u64>,
) -> Option<Geometry>
    ensures { result ≡ shape_from regions_log height block replicas }
{
    let regions_log = regions_log?;
    let height = height?;
    let block = block?;
    let replicas = replicas?;
    shape_of(regions_log, height, block, replicas)
}

fn keyed(alloc: Global, geometry: Option<Geometry>, key: &[u8]) -> Result<Option<Volume>, NoMemory>
    ensures { IfOk result (λ volume. volume ≡ keyed geometry (key_of key.now)) }
{
    match geometry {
        Some(geometry) => match key_of(alloc, key)? {
            Some(key) => Ok(Some(Volume { geometry, key })),
            None => Ok(None),
        },
        None => Ok(None),
    }
}

fn volume_words(alloc: Global, words: &[&[u8]]) -> Result<Option<Volume>, NoMemory>
    ensures { IfOk result (λ volume. volume ≡ volume_words (map (λ word. word.now) words.now)) }
{
    match words {
        [name, regions_log, height, block, replicas, key] => {
            if *name == b"volume".as_slice() {
                let geometry = shape_from(
                    number_of(regions_log),
                    number_of(height),
                    number_of(block),
                    number_of(replicas),
                );
                keyed(alloc, geometry, key)
            } else {
                Ok(None)
            }
        }
        _ => Ok(None),
    }
}

/// The volume of a text's first line.
#[tactic(auto, unfolding(crate::specs::Reading::volume_of))]
pub fn volume_of(alloc: Global, line: &[u8]) -> Result<Option<Volume>, NoMemory>
    ensures { IfOk result (λ volume. volume ≡ volume_of line.now) }
{
    if count_words(line) != 6 {
        return Ok(None);
    }
    let words = split_words(alloc, line)?;
    volume_words(alloc, words.as_slice())
}
