//! The events of a schedule.
ghost use Rattle.std.specs.Prelude.{◌≡◌, ◌+◌, ◌<◌, ◌^◌, ◌++◌, ◌∷◌, [], ℕ, false, None, Some, slice_get, length, IfOk, IfSome, OnOk};
ghost use Rattle.schedule_text.specs.declared.schedule.Event.TheVariants as event;
ghost use Rattle.schedule_text.specs.Limits.{IsPartyOfVolume, IsEventWithin};
ghost use Rattle.salus_model.specs.Following.{Posted, posts_of, is_sent};
ghost use Rattle.replica_rules.specs.Rules.{Receives, Ticks};
ghost use Rattle.run_rules.specs.Knowing.{input_of_post};
ghost use Rattle.client_node.specs.Standing.{newest_of};

use crate::mail::{mark_dropped, message_at, pass_marked};
use crate::world::World;
use disk_model::{Disk, MemDisk};
use printed_lines::Line;
use salus_model::{Request, Sent};
use salus_types::{NoMemory, Sender};
use schedule_text::Event;

/// The index of the message of that number, if it is sent.
fn index_of(sent: &Vec<Sent>, message: u64) -> Option<usize>
    ensures some { IfSome result (λ index. (message ≡ index + 1) × (index < length sent.now.items)) }
    ensures none { result ≡ None → is_sent (length sent.now.items) message ≡ false }
{
    if message > 0 && message <= sent.len() as u64 {
        Some((message - 1) as usize)
    } else {
        None
    }
}

impl<D: Disk> World<D> {
    ghost use Rattle.salus_world.specs.Kept.{IsOngoing, StepsAt, DeliversNext, Does, PassesAt, PassesBy};

    /// The event is skipped.
    fn skip(&mut self, event: u64, message: u64) -> Result<(), NoMemory>
        ensures lines { OnOk result (self.new.lines.items ≡ self.old.lines.items ++ Line.Skip event message ∷ []) }
        ensures messages { (self.new.sent ≡ self.old.sent) × (self.new.lowest ≡ self.old.lowest) }
        ensures parties { (self.new.geometry ≡ self.old.geometry) × (self.new.nodes ≡ self.old.nodes) × (self.new.client ≡ self.old.client) }
    {
        self.lines.push(Line::Skip { event, message })?;
        Ok(())
    }

    /// Hands the message of that index to its receiver.
    fn deliver_at(&mut self, index: usize) -> Result<(), NoMemory>
        requires kept { IsOngoing self.old }
        requires inside { index < length self.old.sent.items }
        ensures steps { OnOk result (StepsAt index self.old self.new) }
        ensures moments { OnOk result ((m : Posted) → slice_get (posts_of self.old.sent.items) index ≡ Some m → PassesAt m.to (input_of_post m) self.old self.new) }
    {
        let to = message_at(&self.sent, index).to;
        match to {
            Sender::Client => {
                self.deliver_to_client(index)?;
                Ok(())
            }
            Sender::Node(name) => {
                self.deliver_to_node(index, name)?;
                Ok(())
            }
        }
    }

    /// Hands over message number `message`; the event is skipped where it isn't sent.
    pub fn deliver(&mut self, number: u64, message: u64) -> Result<(), NoMemory>
        requires kept { IsOngoing self.old }
        ensures does { OnOk result (Does number (event.Deliver message) self.old self.new) }
        ensures moments { OnOk result (PassesBy message self.old self.new) }
    {
        match index_of(&self.sent, message) {
            Some(index) => {
                self.deliver_at(index)?;
                Ok(())
            }
            None => {
                self.skip(number, message)?;
                Ok(())
            }
        }
    }

    /// Marks message number `message` as dropped; the event is skipped where it isn't sent.
    pub fn drop_message(&mut self, number: u64, message: u64) -> Result<(), NoMemory>
        requires kept { IsOngoing self.old }
        ensures { OnOk result (Does number (event.Drop message) self.old self.new) }
    {
        match index_of(&self.sent, message) {
            Some(index) => {
                mark_dropped(&mut self.sent, index);
                Ok(())
            }
            None => {
                self.skip(number, message)?;
                Ok(())
            }
        }
    }

    /// Hands bytes to a party as a message of that sender.
    pub fn lie(&mut self, from: Sender, to: Sender, bytes: &[u8]) -> Result<(), NoMemory>
        requires kept { IsOngoing self.old }
        requires from { IsPartyOfVolume self.old.geometry from }
        requires to { IsPartyOfVolume self.old.geometry to }
        ensures does { OnOk result ((number : ℕ) → Does number (event.Lie from to bytes.now) self.old self.new) }
        ensures moments { OnOk result (PassesAt to (Receives from bytes.now) self.old self.new) }
    {
        match to {
            Sender::Client => {
                self.lie_to_client(from, bytes)?;
                Ok(())
            }
            Sender::Node(name) => {
                self.lie_to_node(name, from, bytes)?;
                Ok(())
            }
        }
    }

    /// Lets a party send again what it waits for.
    pub fn tick(&mut self, party: Sender) -> Result<(), NoMemory>
        requires kept { IsOngoing self.old }
        requires of { IsPartyOfVolume self.old.geometry party }
        ensures does { OnOk result ((number : ℕ) → Does number (event.Tick party) self.old self.new) }
        ensures moments { OnOk result (PassesAt party Ticks self.old self.new) }
    {
        match party {
            Sender::Client => {
                self.tick_client()?;
                Ok(())
            }
            Sender::Node(name) => {
                self.tick_node(name)?;
                Ok(())
            }
        }
    }

    /// Hands over the lowest message that is neither delivered nor dropped, and gives its number; nothing where there is none.
    pub fn deliver_next(&mut self) -> Result<Option<u64>, NoMemory>
        requires kept { IsOngoing self.old }
        ensures delivers { IfOk result (λ next. DeliversNext next self.old self.new) }
        ensures moments { IfOk result (λ next. IfSome next (λ k. PassesBy k self.old self.new)) }
    {
        let index = pass_marked(&self.sent, self.lowest);
        self.lowest = index;
        if index >= self.sent.len() {
            return Ok(None);
        }
        self.deliver_at(index)?;
        Ok(Some(index as u64 + 1))
    }

    /// At most so many times hands over the lowest message that is neither delivered nor dropped.
    pub fn settle(&mut self, count: u64) -> Result<(), NoMemory>
        requires kept { IsOngoing self.old }
        ensures { OnOk result ((number : ℕ) → Does number (event.Settle count) self.old self.new) }
    {
        'deliveries: for done in 0..count {
            prove!(done < count);
            match self.deliver_next()? {
                Some(_) => {}
                None => return Ok(()),
            }
        }
        Ok(())
    }
}

impl World<MemDisk> {
    ghost use Rattle.salus_world.specs.Kept.{IsOngoing, Does, IsExact};

    /// Hands over message number `message` while its receiver's disk stops; the event is skipped where it isn't sent, or goes to
    /// the client.
    pub fn stop(
        &mut self,
        number: u64,
        message: u64,
        calls: u64,
        keep: u64,
        fill: u8,
    ) -> Result<(), NoMemory>
        requires kept { IsOngoing self.old }
        ensures does { OnOk result (Does number (event.Stop message calls keep fill) self.old self.new) }
        ensures exact { OnOk result (IsExact (event.Stop message calls keep fill) self.old self.new) }
    {
        match index_of(&self.sent, message) {
            Some(index) => {
                self.stop_at(number, message, index, calls, keep, fill)?;
                Ok(())
            }
            None => {
                self.skip(number, message)?;
                Ok(())
            }
        }
    }

    // The same of a message that is sent.
    fn stop_at(
        &mut self,
        number: u64,
        message: u64,
        index: usize,
        calls: u64,
        keep: u64,
        fill: u8,
    ) -> Result<(), NoMemory>
        requires kept { IsOngoing self.old }
        requires is { message ≡ index + 1 }
        requires inside { index < length self.old.sent.items }
        ensures does { OnOk result (Does number (event.Stop message calls keep fill) self.old self.new) }
        ensures exact { OnOk result (IsExact (event.Stop message calls keep fill) self.old self.new) }
    {
        let to = message_at(&self.sent, index).to;
        match to {
            Sender::Client => {
                self.skip(number, message)?;
                Ok(())
            }
            Sender::Node(name) => {
                self.stop_node(index, name, calls, keep, fill)?;
                Ok(())
            }
        }
    }

    /// The event of that number, which is above those of all requests before.
    pub fn step(&mut self, number: u64, event: Event) -> Result<(), NoMemory>
        requires kept { IsOngoing self.old }
        requires newest { newest_of self.old.client < number }
        requires low { number < 2 ^ 32 }
        requires within { IsEventWithin self.old.geometry event }
        ensures does { OnOk result (Does number event self.old self.new) }
        ensures exact { OnOk result (IsExact event self.old self.new) }
    {
        match event {
            Event::Write { batch } => {
                self.request(number, Request::Write { batch })?;
                Ok(())
            }
            Event::Read { block } => {
                self.request(number, Request::Read { block })?;
                Ok(())
            }
            Event::Barrier => {
                self.request(number, Request::Barrier)?;
                Ok(())
            }
            Event::Deliver { message } => {
                self.deliver(number, message)?;
                Ok(())
            }
            Event::Settle { count } => {
                self.settle(count)?;
                Ok(())
            }
            Event::Drop { message } => {
                self.drop_message(number, message)?;
                Ok(())
            }
            Event::Lie { from, to, bytes } => {
                self.lie(from, to, bytes.as_slice())?;
                Ok(())
            }
            Event::Stop {
                message,
                calls,
                keep,
                fill,
            } => {
                self.stop(number, message, calls, keep, fill)?;
                Ok(())
            }
            Event::Crash { node, keep, fill } => {
                self.crash(node, keep, fill)?;
                Ok(())
            }
            Event::Fail { node, call } => {
                self.fail(node, call)?;
                Ok(())
            }
            Event::Replace { node } => {
                self.replace(node)?;
                Ok(())
            }
            Event::ClientCrash => {
                self.crash_client();
                Ok(())
            }
            Event::Tick { party } => {
                self.tick(party)?;
                Ok(())
            }
            Event::Restart { session } => {
                self.request(number, Request::Restart { session })?;
                Ok(())
            }
            Event::Reassign { session, region } => {
                self.request(number, Request::Reassign { session, region })?;
                Ok(())
            }
        }
    }
}
