//! A region's blocks are fetched from its replicas, when the region is given to other servers.
ghost use Rattle.std.specs.Prelude.{◌≡◌, ◌==◌, ◌&&◌, ◌++◌, map, OnOk};
ghost use Rattle.salus_message.specs.declared.wire.Message.TheVariants as message;
ghost use Rattle.posting.specs.Letters.{out_of_letter};
ghost use Rattle.volume_model.specs.Contents.{region_root};
ghost use Rattle.volume_model.specs.Groups.{group_of};
ghost use Rattle.salus_model.specs.Opening.{is_fetched};
ghost use Rattle.client_rules.specs.State.{Fetching as AnyFetching, to_all};
ghost use Rattle.session_opening.specs.Fetched.{FetchesAs, IsFetching};

use posting::post_to_group;
use region_reassign::Fetch;
use salus_message::{Dump, Dumped, Message};
use salus_types::{Digests, Geometry, NoMemory, NodeName, Out};
use std::alloc::Global;

/// What is served: the session, the number of its last batch, and the root of each region after it.
#[derive(Debug, Drop)]
pub struct Served {
    pub session: u64,
    pub number: u64,
    pub roots: Digests,
}

/// A reassignment that fetches a region's blocks, to open the session.
#[derive(Drop)]
pub struct Fetching {
    pub geometry: Geometry,
    pub session: u64,
    pub region: u16,
    pub served: Served,
}

impl Fetching {
    /// Whether the reply is of the session that is served, and of the region.
    fn is_asked(&self, reply: &Dumped) -> bool
        ensures { result ≡ (reply.now.session == self.now.served.session) && (reply.now.region == self.now.region) }
    {
        reply.session == self.served.session && reply.region == self.region
    }

    /// Whether the reply brings the region's blocks.
    pub fn takes(&self, from: NodeName, reply: &Dumped) -> bool
        requires { IsFetching self.now.geometry self.now }
        ensures { (f : AnyFetching) → FetchesAs self.now f → result ≡ is_fetched self.now.geometry f.served f.region (region_root self.now.geometry f.contents f.region) from reply.now }
    {
        let root = self.served.roots.as_slice()[self.region as usize];
        self.is_asked(reply)
            && Fetch::new(self.geometry, self.region, root).take(from, &reply.blocks)
    }

    /// Asks the region's replicas for its blocks.
    pub fn ask(&self, alloc: Global, outs: &mut Vec<Out>) -> Result<(), NoMemory>
        ensures { OnOk result (outs.new.items ≡ outs.old.items ++ map out_of_letter (to_all (group_of self.now.geometry self.now.region) (message.Dump (record { session = self.now.served.session; region = self.now.region })))) }
    {
        let dump = Message::Dump(Dump {
            session: self.served.session,
            region: self.region,
        });
        post_to_group(alloc, outs, &self.geometry, self.region, &dump)?;
        Ok(())
    }
}
