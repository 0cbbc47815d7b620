//! The law that nothing acknowledged is lost: in every run by the rules in which each group always has a node that counts, every
//! session starts from a front part of the last list that has every acknowledged batch, and no session is lost.
#![tactic(auto)]

ghost use Rattle.std.specs.Prelude.{List, []};
ghost use Rattle.schedule_text.specs.Limits.{IsWithinLimits};
ghost use Rattle.schedule_text.specs.declared.schedule.Event.{Event};
ghost use Rattle.schedule_text.specs.declared.schedule.Volume.{Volume};
ghost use Rattle.salus_model.specs.declared.trace.TraceStep.{TraceStep};
ghost use Rattle.salus_model.specs.Due.{lines_due};
ghost use Rattle.salus_model.specs.Following.{Follows, Posted};
ghost use Rattle.salus_model.specs.Forgery.{NoForgery};
ghost use Rattle.salus_model.specs.Guarding.{Guarded};
ghost use Rattle.salus_model.specs.Judge.{KeepsAcknowledged};
ghost use Rattle.salus_model.specs.Seen.{NoCollision};
ghost use Rattle.run_rules.specs.Run.{IsByRules, formatted_first};
ghost use Rattle.law_kept.specs.Losing.{NoneIsLost};

/// Does nothing: its clauses are the law. Its premises are those of the law of whole runs, and that no lie carries the
/// client's name and each group has a node that counts at every step. Then every session starts from a front part of the last
/// list that has every acknowledged batch (`kept`), and no line tells of a session that is lost (`found`).
pub fn nothing_acknowledged_is_lost()
    ensures kept { (volume : Volume) (events : List Event) (posts : List Posted) (trace : List TraceStep)
        → IsWithinLimits (record { volume = volume; events = events })
        → Follows events posts trace
        → NoCollision volume events posts trace
        → NoForgery volume events posts trace
        → IsByRules volume (formatted_first volume) posts trace
        → Guarded volume events posts trace
        → KeepsAcknowledged volume.geometry events (lines_due volume events posts trace) }
    ensures found { (volume : Volume) (events : List Event) (posts : List Posted) (trace : List TraceStep)
        → IsWithinLimits (record { volume = volume; events = events })
        → Follows events posts trace
        → NoCollision volume events posts trace
        → NoForgery volume events posts trace
        → IsByRules volume (formatted_first volume) posts trace
        → Guarded volume events posts trace
        → NoneIsLost (lines_due volume events posts trace) }
{}
