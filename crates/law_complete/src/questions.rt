//! The law of questions in quiet runs: at the end no read and no write waits for a block. Its call does nothing; its clause is
//! the law.
ghost use Rattle.std.specs.Prelude.{◌≡◌, false, List};
ghost use Rattle.salus_types.specs.declared.names.NodeName.{NodeName};
ghost use Rattle.schedule_text.specs.Limits.{IsOfVolume, IsWithinLimits};
ghost use Rattle.schedule_text.specs.declared.schedule.Event.{Event};
ghost use Rattle.schedule_text.specs.declared.schedule.Volume.{Volume};
ghost use Rattle.salus_model.specs.declared.trace.TraceStep.{TraceStep};
ghost use Rattle.salus_model.specs.Following.{Follows, Posted};
ghost use Rattle.salus_model.specs.Forgery.{NoForgery};
ghost use Rattle.salus_model.specs.Seen.{NoCollision};
ghost use Rattle.salus_model.specs.Hearing.{judge_of};
ghost use Rattle.salus_model.specs.Waiting.{Question, is_asked};
ghost use Rattle.salus_model.specs.Complete.{AllTaken};
ghost use Rattle.salus_model.specs.Quiet.{Quiet};
ghost use Rattle.run_rules.specs.Calm.{Calm};
ghost use Rattle.run_rules.specs.Rooms.{rooms_of};
ghost use Rattle.run_rules.specs.Run.{IsByRules, formatted_first};
ghost use Rattle.run_rules.specs.Running.{formatted};
ghost use Rattle.law_claimed.specs.Accounting.{history_of};

/// Does nothing: its clause is the law. In a quiet run that follows a schedule in its limits, by the rules of nodes and client
/// from a formatted volume on, in which calls fail only where they may, where no two different strings seen share a digest and
/// no tag is forged: where all messages between the client and each server of the volume were taken, no question is asked at
/// the end. Neither a read nor the write at the head of the waiting line waits for a block.
pub fn no_question_is_left()
    ensures { (volume : Volume) (events : List Event) (posts : List Posted) (trace : List TraceStep)
        → IsWithinLimits (record { volume = volume; events = events })
        → Follows events posts trace
        → NoCollision volume events posts trace
        → NoForgery volume events posts trace
        → Calm events trace
        → IsByRules volume (formatted_first volume) posts trace
        → Quiet events posts trace
        → ((name : NodeName) → IsOfVolume volume.geometry name → AllTaken posts (rooms_of volume.geometry posts (formatted volume)) trace name)
        → (q : Question)
        → is_asked volume.geometry (history_of volume events posts trace) (judge_of volume.geometry events (history_of volume events posts trace)) q ≡ false }
{}
