//! What a client keeps in each of its phases.
ghost use Rattle.std.specs.Prelude.{◌≡◌};
ghost use Rattle.schedule_text.specs.declared.schedule.Volume.{Volume};
ghost use Rattle.client_rules.specs.State.{Client, Closed as IsClosed};

use crate::opening::OpeningClient;
use salus_hash::HmacKey;
use salus_types::Geometry;
use serving_client::ServingClient;
use std::mem;

/// What a client keeps through a crash.
#[derive(Drop)]
pub struct ClosedClient {
    pub geometry: Geometry,
    pub key: HmacKey,
    /// No request of a greater event was taken.
    pub newest: u64,
}

/// It is closed, serves a session, or opens one.
#[derive(Drop)]
pub enum Phase {
    Closed(ClosedClient),
    Serving(ServingClient),
    Opening(OpeningClient),
}

impl Phase {
    ghost use Rattle.client_node.specs.Phases.{key_in, newest_in, serves_in, shape_in, Plays};

    /// The volume's shape.
    pub fn geometry(&self) -> Geometry
        ensures { result ≡ shape_in self.now }
    {
        match self {
            Phase::Closed(kept) => kept.geometry,
            Phase::Serving(client) => client.geometry(),
            Phase::Opening(client) => client.geometry(),
        }
    }

    /// The event of the newest request, or 0 before the first.
    pub fn newest(&self) -> u64
        ensures { result ≡ newest_in self.now }
    {
        match self {
            Phase::Closed(kept) => kept.newest,
            Phase::Serving(client) => client.newest(),
            Phase::Opening(client) => client.newest(),
        }
    }

    /// Whether it serves a session.
    pub fn is_serving(&self) -> bool
        ensures { result ≡ serves_in self.now }
    {
        match self {
            Phase::Closed(_) => false,
            Phase::Serving(_) => true,
            Phase::Opening(_) => false,
        }
    }

    /// The volume's key.
    pub fn into_key(self) -> HmacKey
        ensures { result ≡ key_in self }
    {
        match self {
            Phase::Closed(kept) => kept.key,
            Phase::Serving(client) => client.into_key(),
            Phase::Opening(client) => client.into_key(),
        }
    }

    /// Takes it out, and leaves a closed client that has no key.
    pub fn take(&mut self) -> Phase
        ensures taken { result ≡ self.old }
        ensures shape { shape_in self.new ≡ shape_in self.old }
        ensures newest { newest_in self.new ≡ newest_in self.old }
    {
        let hollow = Phase::Closed(ClosedClient {
            geometry: self.geometry(),
            key: HmacKey::new(b"".as_slice()),
            newest: self.newest(),
        });
        mem::replace(self, hollow)
    }

    /// It loses all but the volume's geometry and key.
    pub fn closed(self) -> Phase
        ensures plays { (volume : Volume) (c : Client) → Plays volume self c → Plays volume result IsClosed }
        ensures shape { shape_in result ≡ shape_in self }
        ensures newest { newest_in result ≡ newest_in self }
    {
        Phase::Closed(ClosedClient {
            geometry: self.geometry(),
            newest: self.newest(),
            key: self.into_key(),
        })
    }
}
