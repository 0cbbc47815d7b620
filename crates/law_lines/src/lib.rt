//! The law of the lines: what the client's rules give over a trace is what is due.
#![tactic(auto)]

ghost use Rattle.std.specs.Prelude.{◌≡◌, ◌≤◌, ◌<◌, ◌^◌, List, [], length};
ghost use Rattle.schedule_text.specs.declared.schedule.Event.{Event};
ghost use Rattle.schedule_text.specs.declared.schedule.Volume.{Volume};
ghost use Rattle.salus_model.specs.declared.trace.TraceStep.{TraceStep};
ghost use Rattle.salus_model.specs.Following.{Posted, Follows};
ghost use Rattle.salus_model.specs.Due.{lines_due};
ghost use Rattle.law_lines.specs.Running.{run_lines};
ghost use Rattle.law_lines.specs.Scheduled.{SessionsRise, ChoicesHold};

/// The client's lines over a run that follows its schedule are the lines due.
pub fn lines_are_as_due()
    ensures { (volume : Volume) (events : List Event) (posts : List Posted) (trace : List TraceStep) → 1 ≤ volume.geometry.replicas
        → length events < 2 ^ 32 → SessionsRise 2 events → Follows events posts trace → ChoicesHold volume events posts [] trace
        → run_lines volume events posts trace ≡ lines_due volume events posts trace }
{}
