ghost use Rattle.std.specs.Prelude.{◌≡◌, ◌++◌, ◌∷◌, [], map, IfOk, IfSome, MatchOption, OnErr, OnOk};
ghost use Rattle.salus_types.specs.declared.names.Sender.TheVariants.{Client as IsClient};
ghost use Rattle.salus_message.specs.declared.wire.Message.TheVariants.{Answer as AnAnswer};
ghost use Rattle.salus_message.specs.Ranges.{IsAnswer};
ghost use Rattle.region_replica.specs.Asking.{IsAskTaken, IsFirstDue, IsNoneDue};
ghost use Rattle.region_replica.specs.Serving.{now_as};
ghost use Rattle.replica_rules.specs.Replicas.{due_answers, without_due};
ghost use Rattle.posting.specs.Posting.{out_to};
ghost use Rattle.open_session.specs.Kept.{StaysOwn};

use posting::post;
use region_replica::RegionReplica;
use salus_message::{Answer, Ask, Message};
use salus_types::{NoMemory, Out, Sender};
use std::alloc::Global;

/// Posts an answer to the client.
pub fn post_answer(alloc: Global, outs: &mut Vec<Out>, answer: Answer) -> Result<(), NoMemory>
    requires { IsAnswer answer }
    ensures { OnOk result (outs.new.items ≡ outs.old.items ++ out_to IsClient (AnAnswer answer) ∷ []) }
{
    post(alloc, outs, Sender::Client, &Message::Answer(answer))
}

/// Takes an ask: it is answered at once where it can be, and else waits.
pub fn take_ask(
    alloc: Global,
    replica: &mut RegionReplica,
    ask: Ask,
) -> Result<Option<Answer>, NoMemory>
    ensures stays { StaysOwn replica.old replica.new }
    ensures taken { IfOk result (IsAskTaken replica.old ask replica.new) }
    ensures fits { IfOk result (λ answer. IfSome answer IsAnswer) }
{
    let view = replica.view();
    let geometry = view.geometry(); // a block has at most 4,096 bytes, and a path at most 10 digests
    let _size = geometry.block_size();
    let _height = geometry.height();
    let _blocks = view.blocks();
    replica.take_ask(alloc, ask)
}

/// The answer to the ask of the least read number that is due, which is taken out.
pub fn next_due(alloc: Global, replica: &mut RegionReplica) -> Result<Option<Answer>, NoMemory>
    ensures stays { StaysOwn replica.old replica.new }
    ensures due { IfOk result (λ answer. MatchOption answer (IsNoneDue replica.old replica.new) (IsFirstDue replica.old replica.new)) }
    ensures fits { IfOk result (λ answer. IfSome answer IsAnswer) }
{
    let view = replica.view();
    let geometry = view.geometry(); // a block has at most 4,096 bytes, and a path at most 10 digests
    let _size = geometry.block_size();
    let _height = geometry.height();
    let _blocks = view.blocks();
    replica.due(alloc)
}

/// Answers the asks that are due, by rising read numbers.
pub fn answer_due(
    alloc: Global,
    outs: &mut Vec<Out>,
    replica: &mut RegionReplica,
) -> Result<(), NoMemory>
    ensures stays { StaysOwn replica.old replica.new }
    ensures state { OnOk result (replica.new ≡ now_as replica.old (without_due replica.old.replica)) }
    ensures outs { OnOk result (outs.new.items ≡ outs.old.items ++ map (λ answer. out_to IsClient (AnAnswer answer)) (due_answers replica.old.shape replica.old.replica)) }
{
    'asks: loop {
        match next_due(alloc, replica)? {
            None => return Ok(()),
            Some(answer) => post_answer(alloc, outs, answer)?,
        }
    }
}
