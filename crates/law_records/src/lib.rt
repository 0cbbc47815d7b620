//! Laws of records in the abstract model of the prefix theorem: a session's own parts are parts of its list there, each
//! region's number and each batch's leader are the same, and what is recoverable there from the replies of sound nodes is
//! recoverable from all that the nodes replied. So a restart's choice is the abstract greatest, and there is one.
#![tactic(auto)]

ghost use Rattle.std.specs.Prelude.{◌≡◌, ◌-◌, ◌<◌, ◌≤◌, ◌⊎◌, ℕ, suc, true, List, [], length, get_or, is_some, Some};
ghost use Rattle.salus_types.specs.Volume.{Shape, regions};
ghost use Rattle.salus_types.specs.declared.records.Header.{Header};
ghost use Rattle.salus_types.specs.declared.records.Record.{Record};
ghost use Rattle.schedule_text.specs.declared.schedule.Event.{Event};
ghost use Rattle.schedule_text.specs.declared.schedule.Volume.{Volume};
ghost use Rattle.volume_model.specs.Parts.{Session, leader_of, number_of};
ghost use Rattle.volume_model.specs.Recovering.{choice_of};
ghost use Rattle.salus_model.specs.Forgery.{IsBaseOf, IsPartOf};
ghost use Rattle.salus_model.specs.Hearing.{News};
ghost use Rattle.salus_model.specs.Judge.{Judge};
ghost use Rattle.salus_model.specs.Opening.{pool_of, replies_to};
ghost use Rattle.law_prefix.specs.Images.{IsPart};
ghost use Rattle.law_prefix.specs.Numbers.{Mem, number};
ghost use Rattle.law_prefix.specs.Steps.{IsChoice, IsRecoverable};
ghost use Rattle.law_prefix.specs.World.{Reply, World, leader};
ghost use Rattle.kept_model.specs.Batches.{touching};
ghost use Rattle.kept_model.specs.Images.{part_as};
ghost use Rattle.kept_model.specs.Nodes.{volume_as};
ghost use Rattle.law_records.specs.Replying.{IsOfSound, IsTold, KnowsSame};
ghost use Rattle.law_records.specs.Sessions.{IsCountable};

/// Does nothing: its clauses are the laws.
pub fn records_are_as_abstract()
    ensures parts { (shape : Shape) (key : List ℕ) (known : Session) (g : ℕ) (rec : Record) → IsCountable shape known → IsPartOf shape key known g rec
        → IsPart (touching shape known.list) known.base g (part_as rec) × (rec.header.seq ≡ suc (rec.header.seq - 1)) }
    ensures numbers { (shape : Shape) (known : Session) (s g : ℕ) → IsCountable shape known → g < regions shape → known.base ≤ s → s ≤ length known.list
        → number (touching shape known.list) known.base s g ≡ number_of shape known s g }
    ensures leaders { (shape : Shape) (known : Session) (i : ℕ) → i < length known.list
        → leader (touching shape known.list) i ≡ leader_of shape (get_or known.list i []) }
    ensures choice { (volume : Volume) (events : List Event) (judge : Judge) (news : List News) (e : ℕ) (w : World) (all : List Reply)
        → IsTold volume judge news → KnowsSame volume.geometry judge w.client
        → ((t : Reply) → Mem t all → IsOfSound volume.geometry volume.key judge (replies_to e news) e t)
        → (h : Header) → choice_of volume.geometry (pool_of volume.geometry volume.key (replies_to e news)) ≡ Some h
        → IsChoice (volume_as volume.geometry events) w all h.session h.seq }
    ensures found { (volume : Volume) (events : List Event) (judge : Judge) (news : List News) (e : ℕ) (w : World) (all : List Reply)
        → IsTold volume judge news → KnowsSame volume.geometry judge w.client
        → ((t : Reply) → Mem t all → IsOfSound volume.geometry volume.key judge (replies_to e news) e t)
        → (f s : ℕ) → 0 < f → IsRecoverable (volume_as volume.geometry events) w all f s
        → is_some (choice_of volume.geometry (pool_of volume.geometry volume.key (replies_to e news))) ≡ true }
{}
