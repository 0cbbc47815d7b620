//! What the nodes hold is gathered, until the replies of all are in; then what they give is chosen.
ghost use Rattle.std.specs.Prelude.{◌≡◌, ◌==◌, ◌++◌, map, IfOk, OnOk};
ghost use Rattle.salus_types.specs.Volume.{Shape};
ghost use Rattle.salus_message.specs.Ranges.{IsHeld};
ghost use Rattle.salus_message.specs.declared.wire.Message.TheVariants as message;
ghost use Rattle.schedule_text.specs.Limits.{IsOfVolume};
ghost use Rattle.schedule_text.specs.declared.schedule.Volume.{Volume};
ghost use Rattle.posting.specs.Letters.{out_of_letter};
ghost use Rattle.volume_restart.specs.Restarting.{shape_of};
ghost use Rattle.client_rules.specs.State.{Gathering as AnyGathering, to_all};
ghost use Rattle.client_rules.specs.Opening.{gathered_here, not_answered};
ghost use Rattle.client_premises.specs.Premises.{ReplyIsApart};
ghost use Rattle.session_opening.specs.Gathered.{starts_gathering, GathersAs, IsGathering, IsTurn, IsWhole};

use crate::waiting::post_to_all;
use salus_hash::HmacKey;
use salus_message::{Gather, Gathered, Message, encode};
use salus_types::{Geometry, NoMemory, NodeName, Out};
use std::alloc::Global;
use volume_restart::{Choice, Restart};

/// A restart that gathers what the nodes hold, to open the session.
#[derive(Drop)]
pub struct Gathering {
    pub session: u64,
    pub restart: Restart,
}

/// What comes of a reply.
#[derive(Drop)]
pub enum Turn {
    /// Others are waited for.
    Waits,
    /// All replies are in, and nothing is recoverable from them.
    Lost,
    /// All replies are in, and this is the greatest that they give.
    Chose(Choice),
}

impl Gathering {
    /// No reply is in.
    pub fn new(alloc: Global, geometry: Geometry, session: u64) -> Result<Gathering, NoMemory>
        ensures kept { IfOk result (IsGathering geometry) }
        ensures stands { IfOk result (λ g. GathersAs g (starts_gathering session)) }
    {
        let restart = Restart::new(alloc, geometry, session)?;
        Ok(Gathering { session, restart })
    }

    /// Whether the reply is to this gathering.
    fn is_ours(&self, reply: &Gathered) -> bool
        ensures { result ≡ (reply.now.session == self.now.session) }
    {
        reply.session == self.session
    }

    /// Takes a node's reply: each node's first one of this session counts. After an error it is used no more.
    pub fn take(
        &mut self,
        alloc: Global,
        key: &HmacKey,
        from: NodeName,
        reply: &Gathered,
    ) -> Result<Turn, NoMemory>
        requires kept { IsGathering (shape_of self.old.restart) self.old }
        requires from { IsOfVolume (shape_of self.old.restart) from }
        requires in_format { IsHeld reply.now.held }
        ensures kept { OnOk result (IsGathering (shape_of self.old.restart) self.new) }
        ensures session { self.new.session ≡ self.old.session }
        ensures whole { IfOk result (IsWhole (shape_of self.old.restart)) }
        ensures told { IfOk result (λ turn. (volume : Volume) (g : AnyGathering) → volume.geometry ≡ shape_of self.old.restart → volume.key ≡ key.now → GathersAs self.old g → ReplyIsApart volume g from reply.now → IsTurn volume self.new turn (gathered_here volume g from reply.now)) }
    {
        if !self.is_ours(reply) {
            return Ok(Turn::Waits);
        }
        self.restart.gathered(alloc, from, key, reply)?;
        if !self.restart.all_in() {
            return Ok(Turn::Waits); // until the last one is in
        }
        match self.restart.choose(alloc)? {
            Some(choice) => Ok(Turn::Chose(choice)),
            None => Ok(Turn::Lost),
        }
    }

    /// Asks every node that hasn't replied for what it holds.
    pub fn ask(&self, alloc: Global, outs: &mut Vec<Out>) -> Result<(), NoMemory>
        requires { IsGathering (shape_of self.now.restart) self.now }
        ensures { OnOk result ((g : AnyGathering) → GathersAs self.now g → outs.new.items ≡ outs.old.items ++ map out_of_letter (to_all (not_answered (shape_of self.now.restart) g.answered) (message.Gather (record { session = g.session })))) }
    {
        let gather = Message::Gather(Gather {
            session: self.session,
        });
        let bytes = encode(alloc, &gather)?;
        post_to_all(alloc, outs, &self.restart, bytes.as_slice())?;
        Ok(())
    }
}
