//! The law of room: where each group always has a node that counts, a sound server has room for every part that comes. Its one
//! call does nothing; its clauses are the law.
ghost use Rattle.std.specs.Prelude.{List};
ghost use Rattle.salus_types.specs.declared.names.NodeName.{NodeName};
ghost use Rattle.schedule_text.specs.Limits.{IsWithinLimits};
ghost use Rattle.schedule_text.specs.declared.schedule.Event.{Event};
ghost use Rattle.schedule_text.specs.declared.schedule.Volume.{Volume};
ghost use Rattle.salus_model.specs.declared.trace.TraceStep.{TraceStep};
ghost use Rattle.salus_model.specs.Complete.{AllTaken, IsSound};
ghost use Rattle.salus_model.specs.Following.{Follows, Posted};
ghost use Rattle.salus_model.specs.Forgery.{NoForgery};
ghost use Rattle.salus_model.specs.Guarding.{Guarded};
ghost use Rattle.salus_model.specs.Quiet.{Quiet};
ghost use Rattle.salus_model.specs.Seen.{NoCollision};
ghost use Rattle.run_rules.specs.Calm.{Calm};
ghost use Rattle.run_rules.specs.Rooms.{rooms_of};
ghost use Rattle.run_rules.specs.Run.{IsByRules, formatted_first};
ghost use Rattle.run_rules.specs.Running.{formatted};
ghost use Rattle.law_complete.specs.Room.{AlwaysHasRoom};

/// Does nothing. In a run that follows a schedule in its limits, by the rules of nodes and client from a formatted volume on, in
/// which calls fail only where they may, no two different strings seen share a digest and no tag is forged: where each group
/// always has a node that counts and no lie carries the client's name, no step at a sound server finds no room for a part
/// (`guarded`); so in a quiet run every message between the client and a server is taken by the end (`quiet`).
pub fn sound_servers_have_room()
    ensures guarded { (volume : Volume) (events : List Event) (posts : List Posted) (trace : List TraceStep)
        → IsWithinLimits (record { volume = volume; events = events })
        → Follows events posts trace
        → NoCollision volume events posts trace
        → NoForgery volume events posts trace
        → Calm events trace
        → IsByRules volume (formatted_first volume) posts trace
        → Guarded volume events posts trace
        → (name : NodeName) → IsSound events trace name
        → AlwaysHasRoom volume posts trace name }
    ensures quiet { (volume : Volume) (events : List Event) (posts : List Posted) (trace : List TraceStep)
        → IsWithinLimits (record { volume = volume; events = events })
        → Follows events posts trace
        → NoCollision volume events posts trace
        → NoForgery volume events posts trace
        → Calm events trace
        → IsByRules volume (formatted_first volume) posts trace
        → Quiet events posts trace
        → (name : NodeName)
        → AllTaken posts (rooms_of volume.geometry posts (formatted volume)) trace name }
{}
