//! The law of one node: each step of a node that goes by its rules is a run of the abstract world of the prefix theorem. Its
//! one call does nothing; its clauses are the law.
#![tactic(auto)]

ghost use Rattle.std.specs.Prelude.{◌≡◌, ◌<◌, ℕ, zero, Bool, List, map, Option};
ghost use Rattle.salus_types.specs.Volume.{Shape, regions, IsVolume};
ghost use Rattle.salus_types.specs.declared.names.NodeName.{NodeName};
ghost use Rattle.salus_types.specs.declared.records.Held.{Held};
ghost use Rattle.schedule_text.specs.declared.schedule.Volume.{Volume};
ghost use Rattle.holding_model.specs.Holding.{nothing_held};
ghost use Rattle.salus_model.specs.declared.trace.Handed.{Handed};
ghost use Rattle.salus_model.specs.Following.{Posted};
ghost use Rattle.run_rules.specs.Knowing.{KnownNode, fresh, input_of, outs_to, known_to, LoadsRight};
ghost use Rattle.run_rules.specs.Running.{formatted};
ghost use Rattle.law_prefix.specs.Numbers.{Mem};
ghost use Rattle.law_prefix.specs.World as abstract;
ghost use Rattle.law_prefix.specs.Steps.{IsBlank};
ghost use Rattle.kept_model.specs.Nodes.{node_number};
ghost use Rattle.kept_model.specs.Images.{image_of};
ghost use Rattle.law_refined.specs.Bringing.{Onward, HandedFits};
ghost use Rattle.law_refined.specs.Standing.{NodeStands};
ghost use Rattle.law_refined.specs.Stepping.{IsNumbered, Refines, StaysIn};

/// Does nothing: its clauses are the law. A node that holds what a formatted volume gives it stands to the client as a node
/// must (`formatted`), and so does one that was replaced, whose image is blank (`replaced`, `blank`). Where a node stands so
/// and what it is handed fits the client, the votes and the claims sent so far, each of its steps is a run of the abstract
/// world (`steps`), be it that calls of its disk fail, that it is stopped or that it crashes; after it the node stands so
/// again (`stands`). It still does where more votes and claims are sent (`wider`), and where the client goes on (`onward`).
pub fn nodes_refine()
    ensures formatted { (volume : Volume) (name : NodeName) (v : abstract.Volume) (c : abstract.Client) (votes : List abstract.Vote) (claims : List abstract.Claim)
        → IsVolume volume.geometry
        → name.region < regions volume.geometry
        → Mem 1 c.known
        → c.starts 1 ≡ 0
        → NodeStands volume.geometry v name.region c votes claims (fresh volume.geometry name.region (formatted volume name)) }
    ensures replaced { (shape : Shape) (v : abstract.Volume) (g : ℕ) (c : abstract.Client) (votes : List abstract.Vote) (claims : List abstract.Claim)
        → NodeStands shape v g c votes claims (fresh shape g nothing_held) }
    ensures blank { IsBlank (image_of nothing_held) }
    ensures steps { (shape : Shape) (v : abstract.Volume) (name : NodeName) (w : abstract.World) (posts : List Posted) (known : KnownNode) (what : Handed) (failed : Bool) (loaded : Option Held)
        → IsVolume shape
        → IsNumbered shape v
        → v.region (node_number shape name) ≡ name.region
        → abstract.Guarded v w.counts
        → Mem zero w.client.known
        → NodeStands shape v name.region w.client w.votes w.claims known
        → w.images (node_number shape name) ≡ map image_of known.contents
        → StaysIn what
        → HandedFits shape v w.client w.votes w.claims (input_of posts what)
        → LoadsRight shape name.region posts known what failed loaded
        → Refines shape v name (node_number shape name) (map image_of (known_to shape name.region posts known what failed loaded).contents)
        (outs_to shape name.region posts known what failed) w }
    ensures stands { (shape : Shape) (v : abstract.Volume) (name : NodeName) (w : abstract.World) (posts : List Posted) (known : KnownNode) (what : Handed) (failed : Bool) (loaded : Option Held)
        → IsVolume shape
        → IsNumbered shape v
        → v.region (node_number shape name) ≡ name.region
        → abstract.Guarded v w.counts
        → Mem zero w.client.known
        → NodeStands shape v name.region w.client w.votes w.claims known
        → w.images (node_number shape name) ≡ map image_of known.contents
        → StaysIn what
        → HandedFits shape v w.client w.votes w.claims (input_of posts what)
        → LoadsRight shape name.region posts known what failed loaded
        → NodeStands shape v name.region w.client w.votes w.claims (known_to shape name.region posts known what failed loaded) }
    ensures wider { (shape : Shape) (v : abstract.Volume) (g : ℕ) (c : abstract.Client) (votes more_votes : List abstract.Vote) (claims more_claims : List abstract.Claim) (known : KnownNode)
        → ((t : abstract.Vote) → Mem t votes → Mem t more_votes)
        → ((t : abstract.Claim) → Mem t claims → Mem t more_claims)
        → NodeStands shape v g c votes claims known
        → NodeStands shape v g c more_votes more_claims known }
    ensures onward { (shape : Shape) (v : abstract.Volume) (g : ℕ) (c d : abstract.Client) (votes : List abstract.Vote) (claims : List abstract.Claim) (known : KnownNode)
        → Onward c d
        → Mem zero c.known
        → NodeStands shape v g c votes claims known
        → NodeStands shape v g d votes claims known }
{}
