//! Steps of the client.
ghost use Rattle.std.specs.Prelude.{◌≡◌, ◌++◌, ◌+◌, ◌<◌, ◌^◌, ℕ, Some, slice_get, length, OnOk};
ghost use Rattle.salus_types.specs.declared.names.Sender.TheVariants.{Client as IsClient};
ghost use Rattle.schedule_text.specs.declared.schedule.Event.TheVariants as event;
ghost use Rattle.schedule_text.specs.Limits.{IsPartyOfVolume, IsEventWithin};
ghost use Rattle.salus_model.specs.declared.trace.Handed.TheVariants as handed;
ghost use Rattle.client_node.specs.Standing.{newest_of};
ghost use Rattle.salus_world.specs.Growing.{new_messages};

use crate::mail::{mark_delivered, message_at, post};
use crate::world::World;
use client_asking::Step;
use disk_model::Disk;
use salus_model::Request;
use salus_types::{NoMemory, Sender};

impl<D: Disk> World<D> {
    ghost use Rattle.salus_world.specs.Kept.{IsOngoing, Steps, Does, event_of};

    /// Posts the client's messages, and adds its lines.
    fn tell(&mut self, step: Step) -> Result<(), NoMemory>
        ensures sent { OnOk result (self.new.sent.items ≡ self.old.sent.items ++ new_messages self.old.geometry IsClient step.outs.items) }
        ensures lines { OnOk result (self.new.lines.items ≡ self.old.lines.items ++ step.lines.items) }
        ensures client { self.new.client ≡ self.old.client }
        ensures nodes { self.new.nodes ≡ self.old.nodes }
        ensures same { (self.new.geometry ≡ self.old.geometry) × (self.new.lowest ≡ self.old.lowest) }
    {
        let Step { outs, mut lines } = step;
        post(&self.geometry, &mut self.sent, Sender::Client, outs)?;
        self.lines.append(&mut lines)?;
        Ok(())
    }

    /// A request of the event of that number, which is above those of all requests before. It is moved into the client.
    pub fn request(&mut self, event: u64, request: Request) -> Result<(), NoMemory>
        requires kept { IsOngoing self.old }
        requires newest { newest_of self.old.client < event }
        requires low { event < 2 ^ 32 }
        requires within { IsEventWithin self.old.geometry (event_of request) }
        ensures does { OnOk result (Does event (event_of request) self.old self.new) }
        ensures nodes { self.new.nodes ≡ self.old.nodes }
    {
        let step = self.client.request(event, request)?;
        self.tell(step)?;
        Ok(())
    }

    /// Hands bytes to the client as a message of that sender.
    pub fn lie_to_client(&mut self, from: Sender, bytes: &[u8]) -> Result<(), NoMemory>
        requires kept { IsOngoing self.old }
        requires from { IsPartyOfVolume self.old.geometry from }
        ensures steps { OnOk result (Steps IsClient (handed.Lie from bytes.now) self.old self.new) }
        ensures nodes { self.new.nodes ≡ self.old.nodes }
    {
        let step = self.client.receive(from, bytes)?;
        self.tell(step)?;
        Ok(())
    }

    /// Hands it the message of that index, which is to it.
    pub fn deliver_to_client(&mut self, index: usize) -> Result<(), NoMemory>
        requires kept { IsOngoing self.old }
        requires inside { index < length self.old.sent.items }
        ensures steps { OnOk result (Steps IsClient (handed.Deliver (index + 1)) self.old self.new) }
        ensures nodes { self.new.nodes ≡ self.old.nodes }
    {
        let message = message_at(&self.sent, index);
        let step = self.client.receive(message.from, message.bytes.as_slice())?;
        mark_delivered(&mut self.sent, index);
        self.tell(step)?;
        Ok(())
    }

    /// Lets it send again what it waits for.
    pub fn tick_client(&mut self) -> Result<(), NoMemory>
        requires kept { IsOngoing self.old }
        ensures steps { OnOk result (Steps IsClient handed.Tick self.old self.new) }
        ensures nodes { self.new.nodes ≡ self.old.nodes }
    {
        let outs = self.client.tick()?;
        post(
            &self.geometry,
            &mut self.sent,
            Sender::Client,
            outs.into_vec(),
        )?;
        Ok(())
    }

    /// Lets it crash.
    pub fn crash_client(&mut self)
        requires kept { IsOngoing self.old }
        ensures does { (number : ℕ) → Does number event.ClientCrash self.old self.new }
        ensures nodes { self.new.nodes ≡ self.old.nodes }
    {
        self.client.crash();
    }
}
