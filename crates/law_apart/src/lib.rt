//! The law of what the client's premises ask: in a run in which no session is opened, where no two different strings seen
//! share a digest, the premise of each step of the client holds. So what holds of a client behind its premises, holds.
#![tactic(auto)]

ghost use Rattle.std.specs.Prelude.{◌≡◌, List, []};
ghost use Rattle.schedule_text.specs.Grammar.{sessions_of};
ghost use Rattle.schedule_text.specs.Limits.{IsWithinLimits};
ghost use Rattle.schedule_text.specs.declared.schedule.Event.{Event};
ghost use Rattle.schedule_text.specs.declared.schedule.Volume.{Volume};
ghost use Rattle.salus_model.specs.declared.trace.TraceStep.{TraceStep};
ghost use Rattle.salus_model.specs.Due.{lines_due};
ghost use Rattle.salus_model.specs.Following.{Follows, Posted};
ghost use Rattle.salus_model.specs.Seen.{NoCollision};
ghost use Rattle.printed_lines.specs.declared.line.Line.{Line};
ghost use Rattle.client_rules.specs.Rules.{client_lines, new_client};
ghost use Rattle.run_rules.specs.Serving.{ClientByRules};
ghost use Rattle.client_premises.specs.Behind.{AreApart, ClientStepsBehind, LinesBehind};
ghost use Rattle.law_lines.specs.Running.{run_lines};

/// Does nothing: its clauses are the law. In a run that follows a schedule within its limits, which asks for no restart and
/// no reassignment, the lines of the client's rules are those due (`due`). Where no two different strings seen share a
/// digest, the premises of all steps hold (`apart`): so the client goes by its rules, where it does behind its premises
/// (`steps`), and the lines of its steps are those of its rules, where they are behind them (`lines`).
pub fn runs_are_apart()
    ensures apart { (volume : Volume) (events : List Event) (posts : List Posted) (trace : List TraceStep)
        → IsWithinLimits (record { volume = volume; events = events })
        → sessions_of events ≡ []
        → Follows events posts trace
        → NoCollision volume events posts trace
        → AreApart volume posts (new_client volume.geometry) trace }
    ensures due { (volume : Volume) (events : List Event) (posts : List Posted) (trace : List TraceStep)
        → IsWithinLimits (record { volume = volume; events = events })
        → sessions_of events ≡ []
        → Follows events posts trace
        → run_lines volume events posts trace ≡ lines_due volume events posts trace }
    ensures steps { (volume : Volume) (events : List Event) (posts : List Posted) (trace : List TraceStep)
        → IsWithinLimits (record { volume = volume; events = events })
        → sessions_of events ≡ []
        → Follows events posts trace
        → NoCollision volume events posts trace
        → ClientStepsBehind volume posts (new_client volume.geometry) 0 trace
        → ClientByRules volume (new_client volume.geometry) posts trace }
    ensures lines { (volume : Volume) (events : List Event) (posts : List Posted) (trace : List TraceStep) (lines : List (List Line))
        → IsWithinLimits (record { volume = volume; events = events })
        → sessions_of events ≡ []
        → Follows events posts trace
        → NoCollision volume events posts trace
        → LinesBehind volume posts (new_client volume.geometry) trace lines
        → lines ≡ client_lines volume posts (new_client volume.geometry) trace }
{}
