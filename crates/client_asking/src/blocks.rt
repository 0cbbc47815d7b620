//! The blocks that a batch writes.
ghost use Rattle.std.specs.Prelude.{◌≡◌, ◌<◌, ◌==◌, ◌≤◌, ℕ, All, length, slice_index_or, false, IfOk};
ghost use Rattle.std.specs.List.{list_any};
ghost use Rattle.salus_types.specs.Volume.{blocks};
ghost use Rattle.salus_types.specs.declared.records.Write.{Write as AnyWrite};
ghost use Rattle.volume_model.specs.Parts.{blocks_of};

use salus_types::{Geometry, NoMemory, Write};
use std::alloc::Global;

/// For each block of the volume whether it is written.
fn marked_blocks(alloc: Global, geometry: &Geometry, batch: &[Write]) -> Result<Vec<bool>, NoMemory>
    requires { All (λ (w : AnyWrite). w.block < blocks geometry.now) batch.now }
    ensures length { IfOk result (λ marks. length marks.items ≡ blocks geometry.now) }
    ensures marks { IfOk result (λ marks. (b : ℕ) → b < blocks geometry.now → slice_index_or marks.items b false ≡ list_any (λ (w : AnyWrite). w.block == b) batch.now) }
{
    let mut marks = vec![in alloc; false; geometry.blocks() as usize]?;
    'writes: for write in batch {
        marks[write.block as usize] = true;
    }
    Ok(marks)
}

/// The blocks that the batch writes, ascending and each once.
pub fn distinct_blocks(
    alloc: Global,
    geometry: &Geometry,
    batch: &[Write],
) -> Result<Vec<u32>, NoMemory>
    requires { All (λ (w : AnyWrite). w.block < blocks geometry.now) batch.now }
    ensures { IfOk result (λ written. written.items ≡ blocks_of geometry.now batch.now) }
{
    let marks = marked_blocks(alloc, geometry, batch)?;
    let mut written = Vec::new(alloc);
    'numbers: for block in 0..geometry.blocks() {
        if marks[block as usize] {
            written.push(block)?;
        }
    }
    Ok(written)
}
