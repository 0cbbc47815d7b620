//! Laws of the sessions of nodes along a run: where a client serves, each sound node has begun its session and goes through
//! what it was handed since. In a quiet run the votes that it keeps are right, what nodes send one another is brought to them in
//! the session, a batch that is 16 or more behind the last is claimed, and the client hears each claim. Its calls do nothing; their
//! clauses are the laws.
ghost use Rattle.std.specs.Prelude.{◌≡◌, false, List, [], ◌++◌, ℕ, ◌≤◌, true, ◌+◌, length};
ghost use Rattle.salus_types.specs.declared.names.NodeName.{NodeName};
ghost use Rattle.salus_types.specs.declared.names.Sender.TheVariants as sender;
ghost use Rattle.schedule_text.specs.Limits.{IsWithinLimits, IsOfVolume};
ghost use Rattle.schedule_text.specs.declared.schedule.Event.{Event};
ghost use Rattle.schedule_text.specs.declared.schedule.Volume.{Volume};
ghost use Rattle.volume_model.specs.Parts.{Session};
ghost use Rattle.salus_model.specs.declared.trace.TraceStep.{TraceStep};
ghost use Rattle.salus_model.specs.Following.{Follows, Posted};
ghost use Rattle.salus_model.specs.Forgery.{NoForgery};
ghost use Rattle.salus_model.specs.Guarding.{is_lied_for};
ghost use Rattle.salus_model.specs.Hearing.{judge_of, is_serving, phase_of};
ghost use Rattle.salus_model.specs.Due.{history_from};
ghost use Rattle.salus_model.specs.Seen.{NoCollision};
ghost use Rattle.salus_model.specs.Complete.{IsSound, AllTaken};
ghost use Rattle.client_rules.specs.State.{Serving, Serves};
ghost use Rattle.client_rules.specs.Rules.{new_client};
ghost use Rattle.run_rules.specs.Calm.{Calm};
ghost use Rattle.run_rules.specs.Rooms.{rooms_of};
ghost use Rattle.run_rules.specs.Running.{formatted};
ghost use Rattle.run_rules.specs.Run.{IsByRules, formatted_first};
ghost use Rattle.run_rules.specs.Serving.{client_of};
ghost use Rattle.law_claimed.specs.Session as session;
ghost use Rattle.law_complete.specs.Beginning.{front_at, HasBegun, HasReachedAll, AreRooted, inputs_in, node_after};
ghost use Rattle.salus_model.specs.Quiet.{Quiet};
ghost use Rattle.law_claimed.specs.Accounting.{history_of};
ghost use Rattle.law_claimed.specs.Acknowledging.{EachClaimed};
ghost use Rattle.law_claimed.specs.Knowing.{IsOwnBatch, Leads};
ghost use Rattle.salus_message.specs.declared.wire.Message.{Message};
ghost use Rattle.merkle_region.specs.Tree.{IsAmong};
ghost use Rattle.law_claimed.specs.Handling.{outs_of_all};
ghost use Rattle.law_claimed.specs.Session.{Brings};

/// Does nothing: its clause is the law. In a run that follows a schedule in its limits, by the rules of nodes and client from a
/// formatted volume on, in which calls fail only where they may, no two different strings seen share a digest, no tag is
/// forged, and nobody lies in the client's name: where the client serves after some of the steps, each sound node of the volume
/// has begun the session that is served. It had a lower session before, and began at the number with which the session starts:
/// with a new leader and its replica in its turn, with no part, and as one that has claimed nothing. It has stayed in the session
/// through all that it was handed since, and is what its rules make of that; and the parts of the session that it was handed are
/// the client's.
pub fn nodes_begin_their_session()
    ensures { (volume : Volume) (events : List Event) (posts : List Posted) (trace : List TraceStep)
        → IsWithinLimits (record { volume = volume; events = events })
        → Follows events posts trace
        → NoCollision volume events posts trace
        → NoForgery volume events posts trace
        → Calm events trace
        → IsByRules volume (formatted_first volume) posts trace
        → is_lied_for events sender.Client ≡ false
        → (name : NodeName) → IsOfVolume volume.geometry name → IsSound events trace name
        → (done rest : List TraceStep) → trace ≡ done ++ rest
        → (s : Serving) → client_of volume posts (new_client volume.geometry) done ≡ Serves s
        → HasBegun volume posts (judge_of volume.geometry events (history_from volume events posts [] done)).now name done }
{}

/// Does nothing: its clause is the law. In such a run, where all that the client and the node sent each other was taken in these
/// steps, the node's view has reached each part of the session and its region.
pub fn nodes_reach_every_part()
    ensures { (volume : Volume) (events : List Event) (posts : List Posted) (trace : List TraceStep)
        → IsWithinLimits (record { volume = volume; events = events })
        → Follows events posts trace
        → NoCollision volume events posts trace
        → NoForgery volume events posts trace
        → Calm events trace
        → IsByRules volume (formatted_first volume) posts trace
        → is_lied_for events sender.Client ≡ false
        → (name : NodeName) → IsOfVolume volume.geometry name → IsSound events trace name
        → (done rest : List TraceStep) → trace ≡ done ++ rest
        → (s : Serving) → client_of volume posts (new_client volume.geometry) done ≡ Serves s
        → AllTaken posts (rooms_of volume.geometry posts (formatted volume)) done name
        → HasReachedAll volume posts (judge_of volume.geometry events (history_from volume events posts [] done)).now name done }
{}

/// Does nothing: its clause is the law. A node that has begun the session, whose view has reached each part of it and whose kept
/// votes are right, serves the session, with its leader's front.
pub fn nodes_serve_their_session()
    ensures { (volume : Volume) (posts : List Posted) (known : Session) (name : NodeName) (done : List TraceStep)
        → HasBegun volume posts known name done → HasReachedAll volume posts known name done → AreRooted volume posts known name done
        → session.Serves volume.geometry volume.key known (front_at volume posts done) name }
{}

/// Does nothing: its clause is the law. In a quiet run that follows a schedule in its limits, by the rules of nodes and client
/// from a formatted volume on, in which calls fail only where they may, no two different strings seen share a digest and no tag
/// is forged: where the client serves after some of the steps, each vote that a node of the volume keeps then is of a batch of
/// the session that is served, with the root of the sender's region after that batch.
pub fn votes_are_rooted()
    ensures { (volume : Volume) (events : List Event) (posts : List Posted) (trace : List TraceStep)
        → IsWithinLimits (record { volume = volume; events = events })
        → Follows events posts trace
        → NoCollision volume events posts trace
        → NoForgery volume events posts trace
        → Calm events trace
        → IsByRules volume (formatted_first volume) posts trace
        → Quiet events posts trace
        → (name : NodeName) → IsOfVolume volume.geometry name
        → (done rest : List TraceStep) → trace ≡ done ++ rest
        → (s : Serving) → client_of volume posts (new_client volume.geometry) done ≡ Serves s
        → AreRooted volume posts (judge_of volume.geometry events (history_from volume events posts [] done)).now name done }
{}

/// Does nothing: its clause is the law. In a quiet run that follows a schedule in its limits, by the rules of nodes and client from
/// a formatted volume on, in which calls fail only where they may, no two different strings seen share a digest and no tag is
/// forged: if the front of every replica of a batch's leader has reached the batch at the end, for each batch of the session that
/// the client serves, then since it opened that session the client has heard of each that isn't acknowledged that every replica of
/// its leader claims it.
pub fn heard_claims_are_news()
    ensures { (volume : Volume) (events : List Event) (posts : List Posted) (trace : List TraceStep)
        → IsWithinLimits (record { volume = volume; events = events })
        → Follows events posts trace
        → NoCollision volume events posts trace
        → NoForgery volume events posts trace
        → Calm events trace
        → IsByRules volume (formatted_first volume) posts trace
        → Quiet events posts trace
        → (is_serving (phase_of (history_of volume events posts trace)) ≡ true
        → (s : ℕ) → IsOwnBatch (judge_of volume.geometry events (history_of volume events posts trace)).now s
        → (name : NodeName) → Leads volume.geometry (judge_of volume.geometry events (history_of volume events posts trace)).now s name
        → s ≤ front_at volume posts trace name)
        → EachClaimed volume.geometry events (history_of volume events posts trace) }
{}

/// Does nothing: its clause is the law. In a run that follows a schedule in its limits, by the rules of nodes and client from a
/// formatted volume on, in which calls fail only where they may, no two different strings seen share a digest and no tag is
/// forged: where the run is quiet and the client serves at its end, each batch of the session that is 16 or more behind the last
/// one is at most the front of every replica of its leader.
pub fn batches_behind_the_window_are_claimed()
    ensures { (volume : Volume) (events : List Event) (posts : List Posted) (trace : List TraceStep)
        → IsWithinLimits (record { volume = volume; events = events })
        → Follows events posts trace
        → NoCollision volume events posts trace
        → NoForgery volume events posts trace
        → Calm events trace
        → IsByRules volume (formatted_first volume) posts trace
        → Quiet events posts trace
        → (s : Serving) → client_of volume posts (new_client volume.geometry) trace ≡ Serves s
        → (b : ℕ) → IsOwnBatch (judge_of volume.geometry events (history_of volume events posts trace)).now b
        → (name : NodeName) → Leads volume.geometry (judge_of volume.geometry events (history_of volume events posts trace)).now b name
        → b + 16 ≤ length (judge_of volume.geometry events (history_of volume events posts trace)).now.list
        → b ≤ front_at volume posts trace name }
{}

/// Does nothing: its clause is the law. In a quiet run that follows a schedule in its limits, by the rules of nodes and client
/// from a formatted volume on, in which calls fail only where they may, no two different strings seen share a digest and no tag
/// is forged: where the client serves at the end, each message that a node of the volume sends to another by what it was handed
/// since it began the session that is served is among what the other was handed since it began it too.
pub fn messages_are_brought()
    ensures { (volume : Volume) (events : List Event) (posts : List Posted) (trace : List TraceStep)
        → IsWithinLimits (record { volume = volume; events = events })
        → Follows events posts trace
        → NoCollision volume events posts trace
        → NoForgery volume events posts trace
        → Calm events trace
        → IsByRules volume (formatted_first volume) posts trace
        → Quiet events posts trace
        → (s : Serving) → client_of volume posts (new_client volume.geometry) trace ≡ Serves s
        → (p q : NodeName) → IsOfVolume volume.geometry p → IsOfVolume volume.geometry q
        → (bp : HasBegun volume posts (judge_of volume.geometry events (history_of volume events posts trace)).now p trace)
        → (bq : HasBegun volume posts (judge_of volume.geometry events (history_of volume events posts trace)).now q trace)
        → (m : Message)
        → IsAmong (record { to = sender.Node q; message = m }) (outs_of_all volume.geometry p.region (node_after volume posts p bp.first) (inputs_in posts p bp.since))
        → Brings p m (inputs_in posts q bq.since) }
{}
