//! The law of the questions that the write at the head of the waiting line asks. Its call does nothing; its clause is the law.
#![tactic(auto)]

ghost use Rattle.std.specs.Prelude.{ℕ};
ghost use Rattle.schedule_text.specs.declared.schedule.Volume.{Volume};
ghost use Rattle.salus_model.specs.Hearing.{News};
ghost use Rattle.client_rules.specs.State.{Serving, Serves};
ghost use Rattle.client_rules.specs.Rules.{told};
ghost use Rattle.law_heads.specs.Heads.{AreOfHead, AsksHead};

/// Does nothing. Each question of the write at the head that is asked after a step was asked before it, or it is new and goes to
/// every replica of its block's group in that step. Where the step brings an answer to a question that was asked before, one that
/// counts and isn't struck, the question is known, or goes to the answer's sender again.
pub fn head_questions_stay_asked()
    ensures { (volume : Volume) (c : Serving) (v : ℕ) (x : News)
        → AreOfHead c
        → AsksHead volume.geometry c x (told volume (Serves c) v x).outs (told volume (Serves c) v x).client }
{}
