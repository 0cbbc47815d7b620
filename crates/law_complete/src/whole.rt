//! Quiet runs are complete: the laws of the sessions that open, of the requests that are done and of the batches that are claimed,
//! put together. And reads end beside lies, without a premise on room, where each group always has a node that counts. Its calls do
//! nothing; their clauses are the laws.
ghost use Rattle.std.specs.Prelude.{false, List};
ghost use Rattle.schedule_text.specs.Limits.{IsWithinLimits};
ghost use Rattle.schedule_text.specs.declared.schedule.Event.{Event};
ghost use Rattle.schedule_text.specs.declared.schedule.Volume.{Volume};
ghost use Rattle.salus_model.specs.declared.trace.TraceStep.{TraceStep};
ghost use Rattle.salus_model.specs.Complete.{CompleteWhenQuiet, ReadsBesideLies};
ghost use Rattle.salus_model.specs.Following.{Follows, Posted};
ghost use Rattle.salus_model.specs.Forgery.{NoForgery};
ghost use Rattle.salus_model.specs.Guarding.{Guarded};
ghost use Rattle.salus_model.specs.Seen.{NoCollision};
ghost use Rattle.run_rules.specs.Calm.{Calm};
ghost use Rattle.run_rules.specs.Run.{IsByRules, formatted_first};

/// Does nothing: its clause is the law. A run that follows a schedule in its limits, by the rules of nodes and client from a formatted
/// volume on, in which calls fail only where they may, no two different strings seen share a digest and no tag is forged, is complete
/// when it is quiet: of the requests that the client took since its last crash each is done, and the last session that it took a
/// request to open since then was opened.
pub fn quiet_runs_are_complete()
    ensures { (volume : Volume) (events : List Event) (posts : List Posted) (trace : List TraceStep)
        → IsWithinLimits (record { volume = volume; events = events })
        → Follows events posts trace
        → NoCollision volume events posts trace
        → NoForgery volume events posts trace
        → Calm events trace
        → IsByRules volume (formatted_first volume) posts trace
        → CompleteWhenQuiet volume events posts trace }
{}

/// Does nothing: its clause is the law. In such a run, where no lie carries the client's name and each group has a node that counts at
/// every step, a sound server has room for every part. So a read ends with its block once every message between the client and that
/// server was handed over.
pub fn reads_end_with_room()
    ensures { (volume : Volume) (events : List Event) (posts : List Posted) (trace : List TraceStep)
        → IsWithinLimits (record { volume = volume; events = events })
        → Follows events posts trace
        → NoCollision volume events posts trace
        → NoForgery volume events posts trace
        → Calm events trace
        → IsByRules volume (formatted_first volume) posts trace
        → Guarded volume events posts trace
        → ReadsBesideLies volume events posts (λ earlier step. false) trace }
{}
