//! A client that opens a session, from the request to the moment in which it serves.
ghost use Rattle.std.specs.Prelude.{◌≡◌, ◌++◌, ◌<◌, ◌^◌, ℕ, List, length, map, IfOk, OnOk};
ghost use Rattle.std.specs.List.{AllByRecursion};
ghost use Rattle.salus_types.specs.Volume.{blocks, regions};
ghost use Rattle.salus_message.specs.Ranges.{IsHeld};
ghost use Rattle.salus_message.specs.declared.wire.Message.TheVariants as message;
ghost use Rattle.client_tag.specs.Ranges.{AreBlocks};
ghost use Rattle.schedule_text.specs.Limits.{IsOfVolume};
ghost use Rattle.schedule_text.specs.declared.schedule.Volume.{Volume};
ghost use Rattle.posting.specs.Letters.{out_of_letter};
ghost use Rattle.volume_model.specs.Contents.{blocks_in, roots_of};
ghost use Rattle.client_rules.specs.State.{Beginning as AnyBeginning, Client, Fetching as AnyFetching, Gathering as AnyGathering, Serving as AnyServing, Stages, ignored};
ghost use Rattle.client_rules.specs.Opening.{dumped_here, fetched_blocks, gathered_here, restarted, staged_from, switched_here};
ghost use Rattle.client_rules.specs.Serving.{fetches};
ghost use Rattle.client_rules.specs.Rules.{received, ticked};
ghost use Rattle.client_premises.specs.Premises.{MessageIsApart, ReplyIsApart};
ghost use Rattle.session_opening.specs.declared.phase.Phase.TheVariants as phase;
ghost use Rattle.session_opening.specs.declared.opening.Outcome.TheVariants as outcome;
ghost use Rattle.session_opening.specs.Gathered.{GathersAs, IsGathering};
ghost use Rattle.session_opening.specs.Fetched.{FetchesAs, IsFetching, IsServed};
ghost use Rattle.session_opening.specs.Begun.{IsBegun, StagesAs, SwitchesAs};
ghost use Rattle.session_opening.specs.Kept.{begins_in, gathers_in, IsKept};
ghost use Rattle.session_opening.specs.Standing.{shape_of, IsUpTo, StandsFor};
ghost use Rattle.session_opening.specs.Telling.{BeginsWith, Follows, IsTold, OpensBy};

use crate::beginning::{Beginning, Plan, stage};
use crate::carried::Carried;
use crate::fetching::{Fetching, Served};
use crate::gathering::{Gathering, Turn};
use crate::phase::Phase;
use client_asking::Step;
use printed_lines::Line;
use salus_hash::HmacKey;
use salus_message::{Dumped, Gathered, Message, Staged, Switched};
use salus_types::{Blocks, Geometry, NoMemory, NodeName, Out};
use std::alloc::Global;
use std::marker::Model;
use volume_restart::Choice;

/// A client that opens a session. After an error it is used no more.
#[derive(Drop)]
pub struct Opening {
    key: HmacKey,
    phase: Phase,
}

impl Model for Opening {
    ghost use Rattle.session_opening.specs.Kept.{IsKept, KeptOpening};

    ghost Value = { KeptOpening };

    ghost view = { λ o. record { key = o.key; phase = o.phase } };

    ghost invariant = { λ o. IsKept o.phase };
}

/// What comes of a message.
#[derive(Drop)]
pub enum Outcome {
    /// The session isn't open yet.
    Opens(Opening),
    /// Nothing is recoverable: the client is closed. The key is handed back.
    Closes(HmacKey),
    /// The client serves the session, from its first moment. The key is handed on.
    Serves { served: Served, key: HmacKey },
}

/// The session isn't open yet.
fn opens(key: HmacKey, phase: Phase) -> Outcome
    requires { IsKept phase }
    ensures { result ≡ outcome.Opens (record { key = key; phase = phase }) }
{
    Outcome::Opens(Opening { key, phase })
}

/// What a restart chose is staged.
fn stage_choice(
    alloc: Global,
    key: HmacKey,
    geometry: Geometry,
    session: u64,
    choice: Choice,
    step: &mut Step,
) -> Result<Outcome, NoMemory>
    requires count { length choice.contents ≡ blocks geometry }
    requires roots { choice.roots ≡ roots_of geometry choice.contents }
    requires sized { AllByRecursion (λ x. length x ≡ geometry.block) choice.contents }
    ensures told { IfOk result (λ made. (volume : Volume) → volume.geometry ≡ geometry → volume.key ≡ key → IsTold volume step.old step.new made (staged_from volume session choice.session choice.number choice.contents (λ r. blocks_in geometry choice.contents r))) }
    ensures begins { IfOk result (BeginsWith geometry key choice.number) }
{
    let plan = Plan {
        session,
        from: choice.session,
        seq: choice.number,
        roots: choice.roots,
        carried: Carried::Volume(choice.contents),
    };
    let beginning = stage(alloc, &key, geometry, plan, step)?;
    Ok(opens(key, Phase::Begins(beginning)))
}

/// A reply of a node to a client that gathers.
fn gather(
    alloc: Global,
    key: HmacKey,
    mut gathering: Gathering,
    from: NodeName,
    reply: &Gathered,
    step: &mut Step,
) -> Result<Outcome, NoMemory>
    requires kept { IsGathering (gathers_in gathering) gathering }
    requires from { IsOfVolume (gathers_in gathering) from }
    requires in_format { IsHeld reply.now.held }
    ensures told { IfOk result (λ made. (volume : Volume) (g : AnyGathering) → volume.geometry ≡ gathers_in gathering → volume.key ≡ key → GathersAs gathering g → ReplyIsApart volume g from reply.now → IsTold volume step.old step.new made (gathered_here volume g from reply.now)) }
    ensures follows { IfOk result (Follows (record { key = key; phase = phase.Gathers gathering })) }
{
    let geometry = gathering.restart.geometry();
    let session = gathering.session;
    let turn = gathering.take(alloc, &key, from, reply)?;
    match turn {
        Turn::Waits => Ok(opens(key, Phase::Gathers(gathering))),
        Turn::Lost => {
            step.lines.push(Line::Lost { session })?;
            Ok(Outcome::Closes(key))
        }
        Turn::Chose(choice) => {
            let made = stage_choice(alloc, key, geometry, session, choice, step)?;
            Ok(made)
        }
    }
}

/// The blocks of the region, which were fetched, are staged in its base.
fn stage_fetched(
    alloc: Global,
    key: HmacKey,
    fetching: Fetching,
    fetched: Blocks,
    step: &mut Step,
) -> Result<Outcome, NoMemory>
    requires kept { IsFetching fetching.geometry fetching }
    requires in_format { AreBlocks fetched }
    ensures told { IfOk result (λ made. (volume : Volume) (f : AnyFetching) → volume.geometry ≡ fetching.geometry → volume.key ≡ key → FetchesAs fetching f → IsTold volume step.old step.new made (staged_from volume f.session f.served f.last f.contents (fetched_blocks f.region fetched))) }
    ensures begins { IfOk result (BeginsWith fetching.geometry key fetching.served.number) }
{
    let Fetching {
        geometry,
        session,
        region,
        served,
    } = fetching;
    let Served {
        session: from,
        number,
        roots,
    } = served;
    let carried = Carried::Region {
        region,
        blocks: fetched,
    };
    let plan = Plan {
        session,
        from,
        seq: number,
        roots,
        carried,
    };
    let beginning = stage(alloc, &key, geometry, plan, step)?;
    Ok(opens(key, Phase::Begins(beginning)))
}

/// A region's blocks, or what is no such reply, to a client that fetches them.
fn fetch(
    alloc: Global,
    key: HmacKey,
    fetching: Fetching,
    from: NodeName,
    reply: Dumped,
    step: &mut Step,
) -> Result<Outcome, NoMemory>
    requires kept { IsFetching fetching.geometry fetching }
    requires in_format { AreBlocks reply.blocks }
    ensures told { IfOk result (λ made. (volume : Volume) (f : AnyFetching) → volume.geometry ≡ fetching.geometry → volume.key ≡ key → FetchesAs fetching f → IsTold volume step.old step.new made (dumped_here volume f from reply)) }
    ensures follows { IfOk result (Follows (record { key = key; phase = phase.Fetches fetching })) }
{
    if !fetching.takes(from, &reply) {
        return Ok(opens(key, Phase::Fetches(fetching)));
    }
    let made = stage_fetched(alloc, key, fetching, reply.blocks, step)?;
    Ok(made)
}

/// A node has switched, if this is the session that begins; after the last one it is served.
fn switch(
    key: HmacKey,
    mut beginning: Beginning,
    from: NodeName,
    session: u64,
    step: &mut Step,
) -> Result<Outcome, NoMemory>
    requires kept { IsBegun (begins_in beginning) beginning }
    requires from { IsOfVolume (begins_in beginning) from }
    ensures switching { IfOk result (λ made. (volume : Volume) (s : AnyBeginning) → volume.geometry ≡ begins_in beginning → volume.key ≡ key → SwitchesAs beginning s → IsTold volume step.old step.new made (switched_here volume.geometry s from session)) }
    ensures staging { IfOk result (λ made. (volume : Volume) (s : AnyBeginning) → volume.geometry ≡ begins_in beginning → volume.key ≡ key → StagesAs beginning s → IsTold volume step.old step.new made (ignored (Stages s))) }
    ensures follows { IfOk result (Follows (record { key = key; phase = phase.Begins beginning })) }
{
    if !beginning.switched(from, session) {
        return Ok(opens(key, Phase::Begins(beginning)));
    }
    step.lines.push(Line::Open {
        session: beginning.session,
    })?;
    let served = Served {
        session: beginning.session,
        number: beginning.seq,
        roots: beginning.roots,
    };
    Ok(Outcome::Serves { served, key })
}

impl Opening {
    /// A restart: all that was held is dropped, and every node is asked for what it holds, to open the session.
    pub fn restart(
        alloc: Global,
        geometry: Geometry,
        key: HmacKey,
        session: u64,
        step: &mut Step,
    ) -> Result<Opening, NoMemory>
        ensures told { IfOk result (λ o. (volume : Volume) → volume.geometry ≡ geometry → volume.key ≡ key → OpensBy volume step.old step.new o (restarted geometry session)) }
        ensures shape { IfOk result (λ o. shape_of o ≡ geometry) }
        ensures key { IfOk result (λ o. o.key ≡ key) }
        ensures up_to { IfOk result (IsUpTo (2 ^ 63)) }
    {
        let gathering = Gathering::new(alloc, geometry, session)?;
        gathering.ask(alloc, &mut step.outs)?;
        Ok(Opening {
            key,
            phase: Phase::Gathers(gathering),
        })
    }

    /// A reassignment of a client that served: the region's replicas are asked for its blocks, to open the session.
    pub fn reassign(
        alloc: Global,
        geometry: Geometry,
        key: HmacKey,
        session: u64,
        region: u16,
        served: Served,
        step: &mut Step,
    ) -> Result<Opening, NoMemory>
        requires region { region < regions geometry }
        requires roots { length served.roots ≡ regions geometry }
        ensures told { IfOk result (λ o. (volume : Volume) (c : AnyServing) → volume.geometry ≡ geometry → volume.key ≡ key → IsServed geometry served c → OpensBy volume step.old step.new o (fetches geometry c session region)) }
        ensures shape { IfOk result (λ o. shape_of o ≡ geometry) }
        ensures key { IfOk result (λ o. o.key ≡ key) }
        ensures up_to { IfOk result (IsUpTo served.number) }
    {
        let fetching = Fetching {
            geometry,
            session,
            region,
            served,
        };
        fetching.ask(alloc, &mut step.outs)?;
        Ok(Opening {
            key,
            phase: Phase::Fetches(fetching),
        })
    }

    /// The volume's shape.
    pub fn geometry(&self) -> Geometry
        ensures { result ≡ shape_of self.now }
    {
        match &self.phase {
            Phase::Gathers(gathering) => gathering.restart.geometry(),
            Phase::Fetches(fetching) => fetching.geometry,
            Phase::Begins(beginning) => beginning.progress.geometry(),
        }
    }

    /// The volume's key, where the session is opened no more.
    pub fn into_key(self) -> HmacKey
        ensures { result ≡ self.key }
    {
        self.key
    }

    /// The key, and what is waited for.
    fn into_parts(self) -> (HmacKey, Phase)
        ensures whole { self ≡ record { key = result.0; phase = result.1 } }
        ensures kept { IsKept result.1 }
    {
        let Opening { key, phase } = self;
        (key, phase)
    }

    /// What is waited for.
    fn phase(&self) -> &Phase
        ensures value { result.now ≡ self.now.phase }
        ensures kept { IsKept result.now }
    {
        &self.phase
    }

    /// Takes what a node holds: each node's first reply counts. Once all are in, the greatest record that they give is
    /// chosen, and the session is staged with its contents; where there is none, the client is closed.
    pub fn gathered(
        self,
        alloc: Global,
        from: NodeName,
        reply: &Gathered,
        step: &mut Step,
    ) -> Result<Outcome, NoMemory>
        requires from { IsOfVolume (shape_of self) from }
        requires in_format { IsHeld reply.now.held }
        ensures told { IfOk result (λ made. (volume : Volume) (c : Client) → StandsFor volume self c → MessageIsApart volume c from (message.Gathered reply.now) → IsTold volume step.old step.new made (received volume c from (message.Gathered reply.now))) }
        ensures follows { IfOk result (Follows self) }
    {
        let (key, phase) = self.into_parts();
        match phase {
            Phase::Gathers(gathering) => {
                let made = gather(alloc, key, gathering, from, reply, step)?;
                Ok(made)
            }
            Phase::Fetches(fetching) => Ok(opens(key, Phase::Fetches(fetching))),
            Phase::Begins(beginning) => Ok(opens(key, Phase::Begins(beginning))),
        }
    }

    /// Takes a region's blocks: the first ones that have its root are staged. They are moved into its base.
    pub fn dumped(
        self,
        alloc: Global,
        from: NodeName,
        reply: Dumped,
        step: &mut Step,
    ) -> Result<Outcome, NoMemory>
        requires in_format { AreBlocks reply.blocks }
        ensures told { IfOk result (λ made. (volume : Volume) (c : Client) → StandsFor volume self c → IsTold volume step.old step.new made (received volume c from (message.Dumped reply))) }
        ensures follows { IfOk result (Follows self) }
    {
        let (key, phase) = self.into_parts();
        match phase {
            Phase::Gathers(gathering) => Ok(opens(key, Phase::Gathers(gathering))),
            Phase::Fetches(fetching) => {
                let made = fetch(alloc, key, fetching, from, reply, step)?;
                Ok(made)
            }
            Phase::Begins(beginning) => Ok(opens(key, Phase::Begins(beginning))),
        }
    }

    /// A node has staged the session. Once all have, every node is to switch to it.
    pub fn staged(
        self,
        alloc: Global,
        from: NodeName,
        reply: Staged,
        step: &mut Step,
    ) -> Result<Outcome, NoMemory>
        requires from { IsOfVolume (shape_of self) from }
        ensures told { IfOk result (λ made. (volume : Volume) (c : Client) → StandsFor volume self c → IsTold volume step.old step.new made (received volume c from (message.Staged reply))) }
        ensures follows { IfOk result (Follows self) }
    {
        let (key, phase) = self.into_parts();
        match phase {
            Phase::Gathers(gathering) => Ok(opens(key, Phase::Gathers(gathering))),
            Phase::Fetches(fetching) => Ok(opens(key, Phase::Fetches(fetching))),
            Phase::Begins(mut beginning) => {
                beginning.staged(alloc, from, reply.session, &mut step.outs)?;
                Ok(opens(key, Phase::Begins(beginning)))
            }
        }
    }

    /// A node has switched to the session. Once all have, it is served.
    pub fn switched(
        self,
        from: NodeName,
        reply: Switched,
        step: &mut Step,
    ) -> Result<Outcome, NoMemory>
        requires from { IsOfVolume (shape_of self) from }
        ensures told { IfOk result (λ made. (volume : Volume) (c : Client) → StandsFor volume self c → IsTold volume step.old step.new made (received volume c from (message.Switched reply))) }
        ensures follows { IfOk result (Follows self) }
    {
        let (key, phase) = self.into_parts();
        match phase {
            Phase::Gathers(gathering) => Ok(opens(key, Phase::Gathers(gathering))),
            Phase::Fetches(fetching) => Ok(opens(key, Phase::Fetches(fetching))),
            Phase::Begins(beginning) => {
                let made = switch(key, beginning, from, reply.session, step)?;
                Ok(made)
            }
        }
    }

    /// Sends again to each node that hasn't answered what it is waited for.
    pub fn tick(&self, alloc: Global, outs: &mut Vec<Out>) -> Result<(), NoMemory>
        ensures { OnOk result ((volume : Volume) (c : Client) → StandsFor volume self.now c → outs.new.items ≡ outs.old.items ++ map out_of_letter (ticked volume.geometry c)) }
    {
        match self.phase() {
            Phase::Gathers(gathering) => {
                gathering.ask(alloc, outs)?;
                Ok(())
            }
            Phase::Fetches(fetching) => {
                fetching.ask(alloc, outs)?;
                Ok(())
            }
            Phase::Begins(beginning) => {
                beginning.tell(alloc, outs)?;
                Ok(())
            }
        }
    }
}
