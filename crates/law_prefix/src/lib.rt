//! The prefix theorem over an abstract model of nodes, batches and restarts. Its one call does nothing; its clauses are
//! the laws.
#![tactic(auto)]

ghost use Rattle.std.specs.Prelude.{◌≡◌, ℕ, List};
ghost use Rattle.law_prefix.specs.World.{Volume, World, Reply, Gathering};
ghost use Rattle.law_prefix.specs.Steps.{AllReplied, IsChoice, Kept, SomeRecoverable};
ghost use Rattle.law_prefix.specs.Run.{IsStart, Run, AllCovered};

/// Does nothing: its clauses are the laws of every run in which each region keeps a node that counts.
pub fn restarts_keep_a_prefix()
    ensures kept { (v : Volume) (w x : World) → IsStart v w → Run v w x → x.client.phase ≡ Gathering
        → (pool : List Reply) → AllReplied v x pool → (f s : ℕ) → IsChoice v x pool f s → Kept x.client f s }
    ensures found { (v : Volume) (w x : World) → IsStart v w → Run v w x → x.client.phase ≡ Gathering
        → (pool : List Reply) → AllReplied v x pool → SomeRecoverable v x pool }
    ensures covered { (v : Volume) (w x : World) → IsStart v w → Run v w x → AllCovered v x }
{}
