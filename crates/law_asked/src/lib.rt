//! The law of asks and answers: while a read is open, what a server is asked under its number is of its session and block, and no
//! answer of a sound server to it is struck. Its calls do nothing; their clauses are the law.
#![tactic(auto)]

ghost use Rattle.std.specs.Prelude.{◌≡◌, false, List};
ghost use Rattle.salus_types.specs.declared.names.NodeName.{NodeName};
ghost use Rattle.salus_types.specs.declared.names.Sender.TheVariants as sender;
ghost use Rattle.schedule_text.specs.Limits.{IsWithinLimits};
ghost use Rattle.schedule_text.specs.declared.schedule.Event.{Event};
ghost use Rattle.schedule_text.specs.declared.schedule.Volume.{Volume};
ghost use Rattle.salus_model.specs.declared.trace.TraceStep.{TraceStep};
ghost use Rattle.salus_model.specs.Following.{Follows, Posted};
ghost use Rattle.salus_model.specs.Forgery.{NoForgery};
ghost use Rattle.salus_model.specs.Guarding.{is_lied_for};
ghost use Rattle.salus_model.specs.Seen.{NoCollision};
ghost use Rattle.salus_model.specs.Complete.{IsSound};
ghost use Rattle.run_rules.specs.Run.{IsByRules, formatted_first};
ghost use Rattle.run_rules.specs.Running.{formatted};
ghost use Rattle.law_asked.specs.Asking.{IsAskedRight};

/// Does nothing: its clause is the law. In a run that follows a schedule in its limits, by the rules of nodes and client from a
/// formatted volume on, in which no two different strings seen share a digest, no tag is forged and no lie carries the client's
/// name: while a read of a sound server's region is open, each ask with its number that is handed over is of the session served
/// and of its block, and no answer of the server to it is struck (`along`). And after each step the asks of the session served
/// that the server keeps are of numbers that the region has reached (`kept`).
pub fn open_reads_are_asked_right()
    ensures { (volume : Volume) (events : List Event) (posts : List Posted) (trace : List TraceStep)
        → IsWithinLimits (record { volume = volume; events = events })
        → Follows events posts trace
        → NoCollision volume events posts trace
        → NoForgery volume events posts trace
        → IsByRules volume (formatted_first volume) posts trace
        → is_lied_for events sender.Client ≡ false
        → (name : NodeName) → IsSound events trace name
        → IsAskedRight volume posts trace (formatted volume) name }
{}
