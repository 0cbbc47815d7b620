//! Steps of the nodes.
ghost use Rattle.std.specs.Prelude.{◌≡◌, ◌+◌, ◌<◌, ◌≤◌, ℕ, Some, slice_get, length, OnOk};
ghost use Rattle.salus_types.specs.declared.names.Sender.TheVariants.{Node as IsNode};
ghost use Rattle.schedule_text.specs.declared.schedule.Event.TheVariants as event;
ghost use Rattle.schedule_text.specs.Limits.{IsOfVolume};
ghost use Rattle.salus_model.specs.declared.trace.Handed.TheVariants as handed;
ghost use Rattle.salus_model.specs.Following.{Posted, posts_of};
ghost use Rattle.replica_rules.specs.Rules.{Receives, Ticks};
ghost use Rattle.run_rules.specs.Knowing.{input_of_post};
ghost use Rattle.disk_node.specs.Fitting.{PassesOn};

use crate::mail::{mark_delivered, message_at, post};
use crate::places::{crash_at, fail_at, hand_at, place_of, replace_at, stop_at, tick_at};
use crate::world::World;
use disk_model::{Disk, MemDisk};
use salus_types::{NoMemory, NodeName, Outs, Sender};

impl<D: Disk> World<D> {
    ghost use Rattle.salus_world.specs.Kept.{IsOngoing, Steps, AtNode};

    /// Hands bytes to a node as a message of that sender.
    pub fn lie_to_node(
        &mut self,
        name: NodeName,
        from: Sender,
        bytes: &[u8],
    ) -> Result<(), NoMemory>
        requires kept { IsOngoing self.old }
        requires of { IsOfVolume self.old.geometry name }
        ensures steps { OnOk result (Steps (IsNode name) (handed.Lie from bytes.now) self.old self.new) }
        ensures moments { OnOk result (AtNode name (PassesOn (Receives from bytes.now)) self.old self.new) }
    {
        let place = place_of(&self.geometry, name);
        let outcome = hand_at(&mut self.nodes, place, from, bytes)?;
        post(
            &self.geometry,
            &mut self.sent,
            Sender::Node(name),
            outcome.outs.into_vec(),
        )?;
        Ok(())
    }

    /// Hands the message of that index to a node.
    pub fn deliver_to_node(&mut self, index: usize, name: NodeName) -> Result<(), NoMemory>
        requires kept { IsOngoing self.old }
        requires inside { index < length self.old.sent.items }
        requires of { IsOfVolume self.old.geometry name }
        ensures steps { OnOk result (Steps (IsNode name) (handed.Deliver (index + 1)) self.old self.new) }
        ensures moments { OnOk result ((m : Posted) → slice_get (posts_of self.old.sent.items) index ≡ Some m → AtNode name (PassesOn (input_of_post m)) self.old self.new) }
    {
        let place = place_of(&self.geometry, name);
        let message = message_at(&self.sent, index);
        let outcome = hand_at(
            &mut self.nodes,
            place,
            message.from,
            message.bytes.as_slice(),
        )?;
        mark_delivered(&mut self.sent, index);
        post(
            &self.geometry,
            &mut self.sent,
            Sender::Node(name),
            outcome.outs.into_vec(),
        )?;
        Ok(())
    }

    /// Lets a node send again what it waits for.
    pub fn tick_node(&mut self, name: NodeName) -> Result<(), NoMemory>
        requires kept { IsOngoing self.old }
        requires of { IsOfVolume self.old.geometry name }
        ensures steps { OnOk result (Steps (IsNode name) handed.Tick self.old self.new) }
        ensures moments { OnOk result (AtNode name (PassesOn Ticks) self.old self.new) }
    {
        let place = place_of(&self.geometry, name);
        let outcome = tick_at(&mut self.nodes, place)?;
        post(
            &self.geometry,
            &mut self.sent,
            Sender::Node(name),
            outcome.outs.into_vec(),
        )?;
        Ok(())
    }
}

impl World<MemDisk> {
    ghost use Rattle.salus_world.specs.Kept.{IsOngoing, Steps, Does, AtNode, StopsOn, IsExact};

    /// Hands the message of that index to a node whose disk stops after so many calls; then the node crashes.
    pub fn stop_node(
        &mut self,
        index: usize,
        name: NodeName,
        calls: u64,
        keep: u64,
        fill: u8,
    ) -> Result<(), NoMemory>
        requires kept { IsOngoing self.old }
        requires inside { index < length self.old.sent.items }
        requires of { IsOfVolume self.old.geometry name }
        ensures steps { OnOk result (Steps (IsNode name) (handed.Stop (index + 1)) self.old self.new) }
        ensures exact { OnOk result ((m : Posted) → slice_get (posts_of self.old.sent.items) index ≡ Some m → AtNode name (StopsOn calls keep fill m) self.old self.new) }
    {
        let place = place_of(&self.geometry, name);
        let message = message_at(&self.sent, index);
        let outcome = stop_at(
            &mut self.nodes,
            place,
            message.from,
            message.bytes.as_slice(),
            calls,
            keep,
            fill,
        )?;
        mark_delivered(&mut self.sent, index);
        post(
            &self.geometry,
            &mut self.sent,
            Sender::Node(name),
            outcome.outs.into_vec(),
        )?;
        Ok(())
    }

    /// Lets a node crash.
    pub fn crash(&mut self, name: NodeName, keep: u64, fill: u8) -> Result<(), NoMemory>
        requires kept { IsOngoing self.old }
        requires of { IsOfVolume self.old.geometry name }
        ensures does { OnOk result ((number : ℕ) → Does number (event.Crash name keep fill) self.old self.new) }
        ensures exact { OnOk result (IsExact (event.Crash name keep fill) self.old self.new) }
    {
        let place = place_of(&self.geometry, name);
        crash_at(&mut self.nodes, place, keep, fill)?;
        Ok(())
    }

    /// Starts a node anew.
    pub fn replace(&mut self, name: NodeName) -> Result<(), NoMemory>
        requires kept { IsOngoing self.old }
        requires of { IsOfVolume self.old.geometry name }
        ensures { OnOk result ((number : ℕ) → Does number (event.Replace name) self.old self.new) }
    {
        let place = place_of(&self.geometry, name);
        replace_at(&mut self.nodes, place)?;
        Ok(())
    }

    /// Lets a later call of a node's disk fail.
    pub fn fail(&mut self, name: NodeName, call: u64) -> Result<(), NoMemory>
        requires kept { IsOngoing self.old }
        requires of { IsOfVolume self.old.geometry name }
        requires call { 1 ≤ call }
        ensures does { OnOk result ((number : ℕ) → Does number (event.Fail name call) self.old self.new) }
        ensures exact { OnOk result (IsExact (event.Fail name call) self.old self.new) }
    {
        let place = place_of(&self.geometry, name);
        fail_at(&mut self.nodes, place, call)?;
        Ok(())
    }
}
