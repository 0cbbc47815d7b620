//! A session that begins: every node is to stage its base, and then to switch to it.
ghost use Rattle.std.specs.Prelude.{◌≡◌, ◌==◌, ◌++◌, ◌<◌, ℕ, List, filter, length, map, IfOk, IsTrue, OnOk};
ghost use Rattle.salus_types.specs.Volume.{blocks, regions};
ghost use Rattle.client_tag.specs.Ranges.{AreBlocks, IsRecord};
ghost use Rattle.schedule_text.specs.Limits.{IsOfVolume};
ghost use Rattle.schedule_text.specs.declared.schedule.Volume.{Volume};
ghost use Rattle.volume_model.specs.Contents.{roots_of};
ghost use Rattle.volume_restart.specs.Restarting.{shape_of};
ghost use Rattle.posting.specs.Letters.{out_of_letter};
ghost use Rattle.volume_model.specs.Groups.{all_nodes};
ghost use Rattle.salus_message.specs.declared.wire.Message.TheVariants as message;
ghost use Rattle.client_rules.specs.State.{Beginning as AnyBeginning, Client, to_all};
ghost use Rattle.client_rules.specs.Opening.{staged_from, staged_here, switched_here};
ghost use Rattle.client_rules.specs.Rules.{ticked};
ghost use Rattle.session_opening.specs.Answered.{is_waited_for};
ghost use Rattle.session_opening.specs.Basing.{all_letters, base_letters, carried_by, AreBases, IsLoaded};
ghost use Rattle.session_opening.specs.Begun.{BeginsAt, IsBegun, IsStaged, IsStagedOn, IsSwitched, StagesAs, Stays, SwitchesAs};

use crate::carried::Carried;
use crate::lent::encode_base;
use crate::records::base_records;
use crate::waiting::{post_to_all, post_to_group};
use client_asking::Step;
use printed_lines::Line;
use salus_hash::HmacKey;
use salus_message::{Message, Switch, encode};
use salus_types::{Bytes, Digests, Geometry, NoMemory, NodeName, Out, Record, Records};
use std::alloc::Global;
use volume_restart::{Phase, Restart};

/// What is to be staged: session `session`, from the first `seq` batches of session `from`.
#[derive(Drop)]
pub struct Plan {
    pub session: u64,
    pub from: u64,
    pub seq: u64,
    /// The root of each region.
    pub roots: Digests,
    pub carried: Carried,
}

/// A session that every node is to stage, and then to switch to.
#[derive(Drop)]
pub struct Beginning {
    pub session: u64,
    /// The session starts with so many batches.
    pub seq: u64,
    /// The root of each region.
    pub roots: Digests,
    /// The record with which it starts in each region.
    pub records: Records,
    pub carried: Carried,
    /// Whether it is to be staged or to be switched to, and who has done so.
    pub progress: Restart,
}

/// Posts a region's base to those of its replicas that haven't answered.
fn post_base(
    alloc: Global,
    outs: &mut Vec<Out>,
    progress: &Restart,
    rec: &Record,
    blocks: &[Bytes],
) -> Result<(), NoMemory>
    requires rec { IsRecord rec.now }
    requires blocks { AreBlocks blocks.now }
    requires region { rec.now.header.region < regions (shape_of progress.now) }
    ensures { OnOk result (outs.new.items ≡ outs.old.items ++ map out_of_letter (filter (λ l. is_waited_for progress.now l.to) (base_letters (shape_of progress.now) rec.now blocks.now))) }
{
    let bytes = encode_base(alloc, rec, blocks)?;
    post_to_group(alloc, outs, progress, rec.header.region, bytes.as_slice())?;
    Ok(())
}

/// Posts each region's base to those of its replicas that haven't answered.
fn post_bases(
    alloc: Global,
    outs: &mut Vec<Out>,
    progress: &Restart,
    records: &[Record],
    carried: &Carried,
) -> Result<(), NoMemory>
    requires records { AreBases (shape_of progress.now) records.now }
    requires loaded { IsLoaded (shape_of progress.now) carried.now }
    ensures { OnOk result (outs.new.items ≡ outs.old.items ++ map out_of_letter (filter (λ l. is_waited_for progress.now l.to) (all_letters (shape_of progress.now) carried.now records.now))) }
{
    let geometry = progress.geometry();
    'records: for rec in records {
        let blocks = carried.of_region(&geometry, rec.header.region);
        post_base(alloc, outs, progress, rec, blocks)?;
    }
    Ok(())
}

/// The session is staged: its bases are on their way to every node.
pub fn stage(
    alloc: Global,
    key: &HmacKey,
    geometry: Geometry,
    plan: Plan,
    step: &mut Step,
) -> Result<Beginning, NoMemory>
    requires roots { length plan.roots ≡ regions geometry }
    requires loaded { IsLoaded geometry plan.carried }
    ensures kept { IfOk result (λ b. IsBegun geometry b) }
    ensures seq { IfOk result (λ b. b.seq ≡ plan.seq) }
    ensures told { IfOk result (λ b. (volume : Volume) (contents : List (List ℕ)) → volume.geometry ≡ geometry → volume.key ≡ key.now → plan.roots ≡ roots_of geometry contents → length contents ≡ blocks geometry → IsStaged step.old step.new b (staged_from volume plan.session plan.from plan.seq contents (carried_by geometry plan.carried))) }
{
    let Plan {
        session,
        from,
        seq,
        roots,
        carried,
    } = plan;
    let records = base_records(alloc, key, &geometry, session, seq, roots.as_slice())?;
    let mut progress = Restart::new(alloc, geometry, session)?;
    progress.begin_staging();
    post_bases(
        alloc,
        &mut step.outs,
        &progress,
        records.as_slice(),
        &carried,
    )?;
    step.lines.push(Line::Stage { session, from, seq })?;
    Ok(Beginning {
        session,
        seq,
        roots,
        records,
        carried,
        progress,
    })
}

impl Beginning {
    /// Whether this session begins.
    fn is_of(&self, session: u64) -> bool
        ensures { result ≡ (session == self.now.session) }
    {
        session == self.session
    }

    /// A node has staged the session. After the last one every node is to switch, and is told so.
    pub fn staged(
        &mut self,
        alloc: Global,
        from: NodeName,
        session: u64,
        outs: &mut Vec<Out>,
    ) -> Result<(), NoMemory>
        requires from { IsOfVolume (shape_of self.old.progress) from }
        ensures staging { OnOk result ((s : AnyBeginning) → StagesAs self.old s → IsStagedOn outs.old.items outs.new.items self.new (staged_here (shape_of self.old.progress) s from session)) }
        ensures switching { OnOk result ((s : AnyBeginning) → SwitchesAs self.old s → SwitchesAs self.new s × (outs.new.items ≡ outs.old.items)) }
        ensures stays { Stays self.old self.new }
    {
        if !self.is_of(session) {
            return Ok(());
        }
        match self.progress.phase() {
            Phase::Staging => {
                self.note_staged(alloc, from, outs)?;
                Ok(())
            }
            Phase::Gathering => Ok(()),
            Phase::Switching => Ok(()),
            Phase::Done => Ok(()),
        }
    }

    /// Notes that a node has staged the session.
    fn note_staged(
        &mut self,
        alloc: Global,
        from: NodeName,
        outs: &mut Vec<Out>,
    ) -> Result<(), NoMemory>
        requires from { IsOfVolume (shape_of self.old.progress) from }
        ensures staging { OnOk result ((s : AnyBeginning) → StagesAs self.old s → IsStagedOn outs.old.items outs.new.items self.new (staged_here (shape_of self.old.progress) s from self.old.session)) }
        ensures stays { Stays self.old self.new }
    {
        self.progress.staged(from);
        match self.progress.phase() {
            Phase::Switching => {
                self.tell_to_switch(alloc, outs)?;
                Ok(())
            }
            Phase::Staging => Ok(()),
            Phase::Gathering => Ok(()),
            Phase::Done => Ok(()),
        }
    }

    /// A node has switched to the session: whether it was the last one.
    pub fn switched(&mut self, from: NodeName, session: u64) -> bool
        requires from { IsOfVolume (shape_of self.old.progress) from }
        ensures switching { (s : AnyBeginning) → SwitchesAs self.old s → IsSwitched result self.new (switched_here (shape_of self.old.progress) s from session) }
        ensures staging { (s : AnyBeginning) → StagesAs self.old s → StagesAs self.new s × (IsTrue result → ⊥) }
        ensures stays { Stays self.old self.new }
    {
        if !self.is_of(session) {
            return false;
        }
        match self.progress.phase() {
            Phase::Switching => self.note_switched(from),
            Phase::Gathering => false,
            Phase::Staging => false,
            Phase::Done => false,
        }
    }

    /// Notes that a node has switched to the session.
    fn note_switched(&mut self, from: NodeName) -> bool
        requires from { IsOfVolume (shape_of self.old.progress) from }
        ensures switching { (s : AnyBeginning) → SwitchesAs self.old s → IsSwitched result self.new (switched_here (shape_of self.old.progress) s from self.old.session) }
        ensures stays { Stays self.old self.new }
    {
        self.progress.switched(from);
        match self.progress.phase() {
            Phase::Done => true,
            Phase::Gathering => false,
            Phase::Staging => false,
            Phase::Switching => false,
        }
    }

    /// Tells every node that hasn't answered to switch.
    fn tell_to_switch(&self, alloc: Global, outs: &mut Vec<Out>) -> Result<(), NoMemory>
        ensures { OnOk result (outs.new.items ≡ outs.old.items ++ map out_of_letter (to_all (filter (is_waited_for self.now.progress) (all_nodes (shape_of self.now.progress))) (message.Switch (record { session = self.now.session })))) }
    {
        let switch = Message::Switch(Switch {
            session: self.session,
        });
        let bytes = encode(alloc, &switch)?;
        post_to_all(alloc, outs, &self.progress, bytes.as_slice())?;
        Ok(())
    }

    /// Sends again what the nodes that haven't answered are waited for.
    pub fn tell(&self, alloc: Global, outs: &mut Vec<Out>) -> Result<(), NoMemory>
        requires { IsBegun (shape_of self.now.progress) self.now }
        ensures { OnOk result ((c : Client) → BeginsAt self.now c → outs.new.items ≡ outs.old.items ++ map out_of_letter (ticked (shape_of self.now.progress) c)) }
    {
        match self.progress.phase() {
            Phase::Staging => {
                let records = self.records.as_slice();
                post_bases(alloc, outs, &self.progress, records, &self.carried)?;
                Ok(())
            }
            Phase::Switching => {
                self.tell_to_switch(alloc, outs)?;
                Ok(())
            }
            Phase::Gathering => Ok(()),
            Phase::Done => Ok(()),
        }
    }
}
