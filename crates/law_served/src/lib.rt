//! The law of reads beside lies: in every run by the rules an open read ends with its block once everything between the client
//! and one sound server of its group was handed over.
#![tactic(auto)]

ghost use Rattle.std.specs.Prelude.{List};
ghost use Rattle.schedule_text.specs.Limits.{IsWithinLimits};
ghost use Rattle.schedule_text.specs.declared.schedule.Event.{Event};
ghost use Rattle.schedule_text.specs.declared.schedule.Volume.{Volume};
ghost use Rattle.salus_model.specs.declared.trace.TraceStep.{TraceStep};
ghost use Rattle.salus_model.specs.Following.{Follows, Posted};
ghost use Rattle.salus_model.specs.Forgery.{NoForgery};
ghost use Rattle.salus_model.specs.Seen.{NoCollision};
ghost use Rattle.salus_model.specs.Complete.{ReadsBesideLies};
ghost use Rattle.run_rules.specs.Calm.{Calm};
ghost use Rattle.run_rules.specs.Rooms.{rooms_of};
ghost use Rattle.run_rules.specs.Run.{IsByRules, formatted_first};
ghost use Rattle.run_rules.specs.Running.{formatted};

/// Does nothing: its clause is the law. In a run that follows a schedule in its limits, by the rules of nodes and client from a
/// formatted volume on, in which calls fail only where they may, where no two different strings seen share a digest and no tag
/// is forged, reads end beside lies.
pub fn reads_end_beside_every_lie()
    ensures { (volume : Volume) (events : List Event) (posts : List Posted) (trace : List TraceStep)
        → IsWithinLimits (record { volume = volume; events = events })
        → Follows events posts trace
        → NoCollision volume events posts trace
        → NoForgery volume events posts trace
        → Calm events trace
        → IsByRules volume (formatted_first volume) posts trace
        → ReadsBesideLies volume events posts (rooms_of volume.geometry posts (formatted volume)) trace }
{}
