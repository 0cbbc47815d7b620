//! The law of what the client's premises ask, in every run: where no two different strings seen share a digest and no tag is
//! forged, the premise of each step of the client holds, that of a client which gathers what the nodes hold among them. So
//! what holds of a client behind its premises, holds.
#![tactic(auto)]

ghost use Rattle.std.specs.Prelude.{◌≡◌, List, []};
ghost use Rattle.schedule_text.specs.Limits.{IsWithinLimits};
ghost use Rattle.schedule_text.specs.declared.schedule.Event.{Event};
ghost use Rattle.schedule_text.specs.declared.schedule.Volume.{Volume};
ghost use Rattle.salus_model.specs.declared.trace.TraceStep.{TraceStep};
ghost use Rattle.salus_model.specs.Due.{lines_due};
ghost use Rattle.salus_model.specs.Following.{Follows, Posted};
ghost use Rattle.salus_model.specs.Forgery.{NoForgery};
ghost use Rattle.salus_model.specs.Seen.{NoCollision};
ghost use Rattle.printed_lines.specs.declared.line.Line.{Line};
ghost use Rattle.client_rules.specs.Rules.{client_lines, new_client};
ghost use Rattle.run_rules.specs.Running.{NodesByRules, formatted};
ghost use Rattle.run_rules.specs.Serving.{ClientByRules};
ghost use Rattle.client_premises.specs.Behind.{AreApart, ClientStepsBehind, LinesBehind};
ghost use Rattle.law_lines.specs.Running.{run_lines};

/// Does nothing: its clauses are the law. In a run that follows a schedule within its limits, where no two different strings
/// seen share a digest and no tag is forged, whose nodes go by their rules from a formatted volume on, and whose client goes
/// by its rules behind its premises: the premises of all steps hold (`apart`), so the client goes by its rules (`steps`), the
/// lines of its steps are those of its rules, where they are behind the premises (`lines`), and these are those due (`due`).
pub fn every_run_is_apart()
    ensures apart { (volume : Volume) (events : List Event) (posts : List Posted) (trace : List TraceStep)
        → IsWithinLimits (record { volume = volume; events = events })
        → Follows events posts trace
        → NoCollision volume events posts trace
        → NoForgery volume events posts trace
        → NodesByRules volume.geometry (formatted volume) posts trace
        → ClientStepsBehind volume posts (new_client volume.geometry) 0 trace
        → AreApart volume posts (new_client volume.geometry) trace }
    ensures steps { (volume : Volume) (events : List Event) (posts : List Posted) (trace : List TraceStep)
        → IsWithinLimits (record { volume = volume; events = events })
        → Follows events posts trace
        → NoCollision volume events posts trace
        → NoForgery volume events posts trace
        → NodesByRules volume.geometry (formatted volume) posts trace
        → ClientStepsBehind volume posts (new_client volume.geometry) 0 trace
        → ClientByRules volume (new_client volume.geometry) posts trace }
    ensures lines { (volume : Volume) (events : List Event) (posts : List Posted) (trace : List TraceStep) (lines : List (List Line))
        → IsWithinLimits (record { volume = volume; events = events })
        → Follows events posts trace
        → NoCollision volume events posts trace
        → NoForgery volume events posts trace
        → NodesByRules volume.geometry (formatted volume) posts trace
        → ClientStepsBehind volume posts (new_client volume.geometry) 0 trace
        → LinesBehind volume posts (new_client volume.geometry) trace lines
        → lines ≡ client_lines volume posts (new_client volume.geometry) trace }
    ensures due { (volume : Volume) (events : List Event) (posts : List Posted) (trace : List TraceStep)
        → IsWithinLimits (record { volume = volume; events = events })
        → Follows events posts trace
        → NoCollision volume events posts trace
        → NoForgery volume events posts trace
        → NodesByRules volume.geometry (formatted volume) posts trace
        → ClientStepsBehind volume posts (new_client volume.geometry) 0 trace
        → run_lines volume events posts trace ≡ lines_due volume events posts trace }
{}
