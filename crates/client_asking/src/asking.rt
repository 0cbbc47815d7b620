//! Questions for blocks: to each replica of a block's group, or to one of them.
ghost use Rattle.std.specs.Prelude.{◌≡◌, ◌++◌, ◌∷◌, [], ◌<◌, map, OnOk};
ghost use Rattle.salus_types.specs.Volume.{regions};
ghost use Rattle.salus_message.specs.declared.wire.Message.TheVariants as message;
ghost use Rattle.volume_model.specs.Contents.{region_of};
ghost use Rattle.posting.specs.Letters.{out_of_letter};
ghost use Rattle.client_rules.specs.State.{Serving, to_all};
ghost use Rattle.client_rules.specs.Tables.{ask_of, asks};
ghost use Rattle.client_pipeline.specs.Standing.{StandsFor};

use client_pipeline::Pipeline;
use posting::{post, post_to_group};
use salus_message::{Ask, Message};
use salus_types::{NoMemory, NodeName, Out, Sender};
use std::alloc::Global;
use verified_read::Question;

/// The question, as of the region's present number.
fn ask_of(pipeline: &Pipeline, region: u16, question: &Question) -> Ask
    requires within { region < regions pipeline.now.window.shape }
    requires there { region_of pipeline.now.window.shape question.now.block ≡ region }
    ensures { (c : Serving) → StandsFor pipeline.now c → message.Ask result ≡ ask_of pipeline.now.window.shape c question.now }
{
    Ask {
        session: pipeline.session(),
        read: question.number,
        block: question.block,
        at: pipeline.number_of(region),
    }
}

/// Asks each replica of the block's group.
pub fn ask_group(
    alloc: Global,
    pipeline: &Pipeline,
    question: &Question,
    outs: &mut Vec<Out>,
) -> Result<(), NoMemory>
    requires { region_of pipeline.now.window.shape question.now.block < regions pipeline.now.window.shape }
    ensures { OnOk result ((c : Serving) → StandsFor pipeline.now c → outs.new.items ≡ outs.old.items ++ map out_of_letter (asks pipeline.now.window.shape c question.now)) }
{
    let geometry = pipeline.geometry();
    let region = (question.block / geometry.region_blocks()) as u16;
    let ask = Message::Ask(ask_of(pipeline, region, question));
    post_to_group(alloc, outs, &geometry, region, &ask)?;
    Ok(())
}

/// Asks one replica again.
pub fn ask_node(
    alloc: Global,
    pipeline: &Pipeline,
    node: NodeName,
    question: &Question,
    outs: &mut Vec<Out>,
) -> Result<(), NoMemory>
    requires region { node.region < regions pipeline.now.window.shape }
    requires there { region_of pipeline.now.window.shape question.now.block ≡ node.region }
    ensures { OnOk result ((c : Serving) → StandsFor pipeline.now c → outs.new.items ≡ outs.old.items ++ map out_of_letter (to_all (node ∷ []) (ask_of pipeline.now.window.shape c question.now))) }
{
    let ask = Message::Ask(ask_of(pipeline, node.region, question));
    post(alloc, outs, Sender::Node(node), &ask)
}
