//! What a serving client keeps, while a call changes it: no block but those of parts that aren't acknowledged, of writes that
//! wait, and of what is known for the write at the head.
ghost use Rattle.std.specs.Prelude.{◌≡◌};
ghost use Rattle.serving_client.specs.Keeping.{HasGivenUp};

use client_pipeline::Pipeline;
use pruned_volume::PrunedVolume;
use std::alloc::Global;
use verified_read::Reads;
use waiting_line::WaitingLine;

#[derive(Drop)]
pub struct Core {
    /// The batches that aren't acknowledged.
    pub pipeline: Pipeline,
    /// The pruned trees: what is known for the write at the head.
    pub trees: PrunedVolume,
    pub line: WaitingLine,
    /// The open reads.
    pub reads: Reads,
    /// The questions of the head that wait.
    pub asked: Reads,
    /// The event of the newest request.
    pub newest: u64,
}

impl Core {
    /// The batches that aren't acknowledged, taken out. It names every field: none can join them unseen that holds the volume's
    /// blocks.
    pub fn into_pipeline(self) -> Pipeline
        ensures { result ≡ self.pipeline }
    {
        let Core {
            pipeline,
            trees: _trees,
            line: _line,
            reads: _reads,
            asked: _asked,
            newest: _,
        } = self;
        pipeline
    }
}

/// After an error: no request waits any more.
pub fn give_up(alloc: Global, core: &mut Core)
    ensures { HasGivenUp core.old core.new }
{
    let geometry = core.pipeline.geometry();
    core.line = WaitingLine::new(alloc);
    core.reads = Reads::new(alloc, &geometry);
    core.asked = Reads::new(alloc, &geometry);
}
