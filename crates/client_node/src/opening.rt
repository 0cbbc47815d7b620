//! A client that opens a session.
ghost use Rattle.std.specs.Prelude.{◌≡◌, ◌++◌, ◌+◌, ◌<◌, ◌≤◌, ◌^◌, length, map, IfOk, OnOk};
ghost use Rattle.salus_types.specs.Volume.{regions};
ghost use Rattle.schedule_text.specs.declared.schedule.Volume.{Volume};
ghost use Rattle.posting.specs.Letters.{out_of_letter};
ghost use Rattle.client_rules.specs.State.{Client, Serving};
ghost use Rattle.client_rules.specs.Opening.{restarted};
ghost use Rattle.client_rules.specs.Serving.{fetches};
ghost use Rattle.client_rules.specs.Rules.{ticked};
ghost use Rattle.session_opening.specs.Fetched.{IsServed};
ghost use Rattle.session_opening.specs.Standing.{shape_of, StandsFor};
ghost use Rattle.session_opening.specs.Telling.{OpensBy};

use client_asking::Step;
use salus_hash::HmacKey;
use salus_types::{Geometry, NoMemory, Out};
use session_opening::{Opening, Served};
use std::alloc::Global;
use std::marker::Model;

/// What opens the session, and the event of the newest request.
#[derive(Drop)]
pub struct OpeningClient {
    opening: Opening,
    newest: u64,
}

impl Model for OpeningClient {
    ghost use Rattle.client_node.specs.Opening.{IsLow, KeptClient};

    ghost Value = { KeptClient };

    ghost view = { λ o. record { opening = o.opening; newest = o.newest } };

    ghost invariant = { λ o. IsLow (record { opening = o.opening; newest = o.newest }) };
}

impl OpeningClient {
    ghost use Rattle.client_node.specs.Opening.{IsLow};

    /// A restart, asked for at that event: every node is asked for what it holds.
    pub fn restart(
        alloc: Global,
        geometry: Geometry,
        key: HmacKey,
        event: u64,
        session: u64,
        step: &mut Step,
    ) -> Result<OpeningClient, NoMemory>
        requires { event < 2 ^ 32 }
        ensures told { IfOk result (λ o. (volume : Volume) → volume.geometry ≡ geometry → volume.key ≡ key → OpensBy volume step.old step.new o.opening (restarted geometry session)) }
        ensures shape { IfOk result (λ o. shape_of o.opening ≡ geometry) }
        ensures newest { IfOk result (λ o. o.newest ≡ event) }
    {
        let opening = Opening::restart(alloc, geometry, key, session, step)?;
        Ok(OpeningClient {
            opening,
            newest: event,
        })
    }

    /// A reassignment of a client that served, asked for at that event: the region's replicas are asked for its blocks.
    pub fn reassign(
        alloc: Global,
        geometry: Geometry,
        key: HmacKey,
        event: u64,
        session: u64,
        region: u16,
        served: Served,
        step: &mut Step,
    ) -> Result<OpeningClient, NoMemory>
        requires event { event < 2 ^ 32 }
        requires region { region < regions geometry }
        requires roots { length served.roots ≡ regions geometry }
        requires low { served.number ≤ 2 ^ 63 + event }
        ensures told { IfOk result (λ o. (volume : Volume) (c : Serving) → volume.geometry ≡ geometry → volume.key ≡ key → IsServed geometry served c → OpensBy volume step.old step.new o.opening (fetches geometry c session region)) }
        ensures shape { IfOk result (λ o. shape_of o.opening ≡ geometry) }
        ensures newest { IfOk result (λ o. o.newest ≡ event) }
    {
        let opening = Opening::reassign(alloc, geometry, key, session, region, served, step)?;
        Ok(OpeningClient {
            opening,
            newest: event,
        })
    }

    /// The client that opens it, with that newest request.
    pub fn of(opening: Opening, newest: u64) -> OpeningClient
        requires { IsLow (record { opening = opening; newest = newest }) }
        ensures { result ≡ record { opening = opening; newest = newest } }
    {
        OpeningClient { opening, newest }
    }

    /// The volume's shape.
    pub fn geometry(&self) -> Geometry
        ensures { result ≡ shape_of self.now.opening }
    {
        self.opening.geometry()
    }

    /// The event of the newest request.
    pub fn newest(&self) -> u64
        ensures { result ≡ self.now.newest }
    {
        self.newest
    }

    /// The volume's key, where the session is opened no more.
    pub fn into_key(self) -> HmacKey
        ensures { result ≡ self.opening.key }
    {
        self.opening.into_key()
    }

    /// What opens the session.
    pub fn into_opening(self) -> Opening
        ensures opening { result ≡ self.opening }
        ensures low { IsLow self }
    {
        self.opening
    }

    /// What it waits for is sent again.
    pub fn tick(&self, alloc: Global, outs: &mut Vec<Out>) -> Result<(), NoMemory>
        ensures { OnOk result ((volume : Volume) (c : Client) → StandsFor volume self.now.opening c → outs.new.items ≡ outs.old.items ++ map out_of_letter (ticked volume.geometry c)) }
    {
        self.opening.tick(alloc, outs)?;
        Ok(())
    }
}
