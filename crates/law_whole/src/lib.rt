//! The law of whole runs: in every run in which nodes and client go by their rules, from a formatted volume on, the printed
//! lines are those due, and they are a legal history of one array.
#![tactic(auto)]

ghost use Rattle.std.specs.Prelude.{◌≡◌, List, []};
ghost use Rattle.schedule_text.specs.Limits.{IsWithinLimits};
ghost use Rattle.schedule_text.specs.declared.schedule.Event.{Event};
ghost use Rattle.schedule_text.specs.declared.schedule.Volume.{Volume};
ghost use Rattle.salus_model.specs.declared.trace.TraceStep.{TraceStep};
ghost use Rattle.salus_model.specs.Due.{lines_due};
ghost use Rattle.salus_model.specs.Following.{Follows, Posted};
ghost use Rattle.salus_model.specs.Forgery.{NoForgery};
ghost use Rattle.salus_model.specs.Judge.{LegalHistory};
ghost use Rattle.salus_model.specs.Seen.{NoCollision};
ghost use Rattle.run_rules.specs.Run.{IsByRules, formatted_first};
ghost use Rattle.law_lines.specs.Running.{run_lines};

/// Does nothing: its clause is the law. Besides the two premises, on digests and on tags, it asks only that the schedule is
/// within its limits, as every parsed one is, and that the trace follows it.
pub fn runs_by_rules_are_legal()
    ensures { (volume : Volume) (events : List Event) (posts : List Posted) (trace : List TraceStep)
        → IsWithinLimits (record { volume = volume; events = events })
        → Follows events posts trace
        → NoCollision volume events posts trace
        → NoForgery volume events posts trace
        → IsByRules volume (formatted_first volume) posts trace
        → (run_lines volume events posts trace ≡ lines_due volume events posts trace)
        × LegalHistory volume.geometry events (run_lines volume events posts trace) }
{}
