//! What is sent again.
ghost use Rattle.std.specs.Prelude.{◌≡◌, ◌++◌, flat_map, map, OnOk};
ghost use Rattle.schedule_text.specs.declared.schedule.Volume.{Volume};
ghost use Rattle.posting.specs.Letters.{out_of_letter};
ghost use Rattle.client_rules.specs.State.{Open, Serving};
ghost use Rattle.client_rules.specs.Serving.{ticked_here};
ghost use Rattle.client_rules.specs.Tables.{asks};
ghost use Rattle.client_pipeline.specs.Standing.{StandsFor as PipelineStandsFor};
ghost use Rattle.client_asking.specs.Lining.{AreWithin};
ghost use Rattle.serving_client.specs.Keeping.{kept_of, IsKept};
ghost use Rattle.serving_client.specs.Standing.{StandsFor};

use crate::inside::Core;
use client_asking::ask_group;
use client_pipeline::Pipeline;
use salus_types::{NoMemory, Out};
use std::alloc::Global;
use verified_read::Reads;

/// Asks each question again, in the order of asking.
fn ask_again(
    alloc: Global,
    pipeline: &Pipeline,
    questions: &Reads,
    outs: &mut Vec<Out>,
) -> Result<(), NoMemory>
    requires { AreWithin pipeline.now.window.shape questions.now.asked }
    ensures { OnOk result ((c : Serving) → PipelineStandsFor pipeline.now c → outs.new.items ≡ outs.old.items ++ map out_of_letter (flat_map (λ (o : Open). asks pipeline.now.window.shape c o.question) questions.now.asked)) }
{
    'each: for i in 0..questions.count() {
        let question = questions.read_at(i);
        ask_group(alloc, pipeline, &question, outs)?;
    }
    Ok(())
}

/// Sends the parts, the head's questions and the open reads' again.
pub fn send_again(alloc: Global, core: &Core, outs: &mut Vec<Out>) -> Result<(), NoMemory>
    requires { IsKept core.now }
    ensures { OnOk result ((volume : Volume) (c : Serving) → StandsFor volume (kept_of core.now) c → outs.new.items ≡ outs.old.items ++ map out_of_letter (ticked_here volume.geometry c)) }
{
    core.pipeline.tick(alloc, outs)?;
    ask_again(alloc, &core.pipeline, &core.asked, outs)?;
    ask_again(alloc, &core.pipeline, &core.reads, outs)?;
    Ok(())
}
