ghost use Rattle.std.specs.Prelude.{◌≡◌, ◌≢◌, ◌↔◌, ◌<◌, ◌≤◌, ◌++◌, ℕ, List, [], ◌∷◌, None, IfNone, IfSome, IsSome, IsTrue, OnErr, OnOk, Some, is_some, length, slice_get};
ghost use Rattle.std.specs.Option.{option_copied, option_map};
ghost use Rattle.salus_types.specs.declared.strike.Strike.TheVariants as strike;
ghost use Rattle.merkle_region.specs.Tree.{Verifies};
ghost use Rattle.volume_model.specs.Contents.{place_of};
ghost use Rattle.salus_model.specs.Answering.{is_fitting};
ghost use Rattle.client_rules.specs.Tables.{fresh, open_at, closed_at, struck_at};
ghost use Rattle.verified_read.specs.Table.{HaveOwnNumbers, fault_at, question_at, questions_in};
ghost use Rattle.verified_read.specs.Judging.{AnswersOne, IsClimbed, IsPresent, IsSaid, Stands, left_before, left_by, reached, said_of, standing_of, worth_in};

use crate::asked::{Asked, no_strikes};
use crate::question::Question;
use crate::verdict::{Standing, Verdict};
use indexmap::IndexMap;
use merkle_region::fold_path;
use salus_hash::{Digest, leaf_digest};
use salus_message::Answer;
use salus_types::{Geometry, NoMemory, NodeName, Strike, Strikes};
use std::alloc::Global;
use std::marker::Model;

/// The most questions that are open at once.
const OPEN: usize = 64;

/// Open questions, at most 64, in the order of asking, each under a number of its own.
#[derive(Drop)]
pub struct Reads {
    geometry: Geometry,
    asked: IndexMap<u64, Asked>,
}

impl Model for Reads {
    ghost use Rattle.std.specs.Prelude.{◌≤◌, length, nat_eq};
    ghost use Rattle.indexmap.specs.IndexMap.{IsUnique};
    ghost use Rattle.verified_read.specs.Table.{Table, HavePlaces};

    ghost Value = { Table };

    ghost use Rattle.verified_read.specs.Entries.{open_in};

    ghost view = { λ r. record { shape = r.geometry; asked = open_in r.asked.entries } };

    ghost invariant = { λ r. (length r.asked.entries ≤ 64) × IsUnique nat_eq r.asked × HavePlaces r.geometry (open_in r.asked.entries) };
}

impl Reads {
    /// No question is open. It takes no memory.
    pub fn new(alloc: Global, geometry: &Geometry) -> Reads
        ensures shape { result.shape ≡ geometry.now }
        ensures asked { result.asked ≡ [] }
    {
        Reads {
            geometry: *geometry,
            asked: IndexMap::new(alloc),
        }
    }

    /// How many questions are open.
    pub fn count(&self) -> u64
        ensures count { result ≡ length self.now.asked }
        ensures few { result ≤ 64 }
        ensures numbers { HaveOwnNumbers self.now.asked }
    {
        self.asked.len() as u64
    }

    /// Whether 64 are open.
    pub fn is_full(&self) -> bool
        ensures full { IsTrue result ↔ (64 ≤ length self.now.asked) }
        ensures few { length self.now.asked ≤ 64 }
    {
        self.asked.len() >= OPEN
    }

    /// The i-th open question in the order of asking, from 0.
    pub fn read_at(&self, i: u64) -> Question
        requires { i < length self.now.asked }
        ensures { slice_get (questions_in self.now.asked) i ≡ Some result }
    {
        let (number, entry) = self.asked.get_index(i as usize).unwrap();
        Question {
            event: entry.event,
            number: *number,
            block: entry.block,
        }
    }

    /// The open question of that number.
    pub fn question(&self, number: u64) -> Option<Question>
        ensures question { result ≡ option_map (λ o. o.question) (question_at number self.now.asked) }
        ensures free { IfNone result (question_at number self.now.asked ≡ None) }
    {
        match self.asked.get(&number) {
            Some(entry) => Some(Question {
                event: entry.event,
                number,
                block: entry.block,
            }),
            None => None,
        }
    }

    /// Opens a question behind the others; no replica is struck. It takes the room for their strikes too. After an error
    /// the questions are as they were.
    pub fn ask(&mut self, alloc: Global, question: Question) -> Result<(), NoMemory>
        requires room { length self.old.asked < 64 }
        requires new_number { question_at question.number self.old.asked ≡ None }
        ensures shape { self.new.shape ≡ self.old.shape }
        ensures ok { OnOk result (self.new.asked ≡ self.old.asked ++ fresh self.old.shape question ∷ []) }
        ensures err { OnErr result (self.new.asked ≡ self.old.asked) }
    {
        let Question {
            event,
            number,
            block,
        } = question;
        let strikes = no_strikes(alloc, self.geometry.replicas())?;
        self.asked.insert(
            number,
            Asked {
                event,
                block,
                strikes,
            },
        )?;
        Ok(())
    }

    /// Whether the sender is of the block's group, and block and path are as long as the volume's.
    fn is_fitting(&self, from: NodeName, answer: &Answer) -> bool
        ensures { result ≡ is_fitting self.now.shape from answer.now }
    {
        from.region as u32 == answer.block / self.geometry.region_blocks()
            && answer.bytes.len() == self.geometry.block_size() as usize
            && answer.path.len() == self.geometry.height() as usize
    }

    /// Whether the question of that number is open, and for that block.
    fn is_asked(&self, answer: &Answer) -> bool
        ensures { result ≡ is_some (open_at answer.now self.now.asked) }
    {
        match self.asked.get(&answer.read) {
            Some(entry) => answer.block == entry.block,
            None => false,
        }
    }

    /// Strikes the replica at the question that is answered; its first strike stays.
    fn strike(&mut self, from: NodeName, answer: &Answer, strike: Strike)
        ensures shape { self.new.shape ≡ self.old.shape }
        ensures asked { self.new.asked ≡ struck_at answer.now from.replica strike self.old.asked }
    {
        match self.asked.get_mut(&answer.read) {
            Some(entry) => entry.strike(answer.block, from.replica, strike),
            None => {}
        }
    }

    fn stand(&self, from: NodeName, answer: &Answer, number: u64) -> Standing
        ensures { Stands self.now from answer.now number result }
    {
        let at = answer.at;
        if !(self.is_fitting(from, answer) && self.is_asked(answer)) {
            Standing::Unknown
        } else if at < number {
            Standing::Stale { at }
        } else if number < at {
            Standing::Past { at }
        } else {
            Standing::Present
        }
    }

    /// Strikes the replica of an answer that is from past the region's number.
    fn strike_past(&mut self, from: NodeName, answer: &Answer, number: u64, standing: &Standing)
        ensures shape { self.new.shape ≡ self.old.shape }
        ensures asked { self.new.asked ≡ left_before answer.now from.replica number standing.now self.old.asked }
    {
        match standing {
            Standing::Past { at } => self.strike(from, answer, Strike::Past { at: *at, number }),
            Standing::Unknown | Standing::Stale { .. } | Standing::Present => {}
        }
    }

    /// What an answer is worth, beside the region's number, before its path is climbed. One from past that number strikes
    /// its replica; nothing else is changed. It takes no memory, and hashes nothing.
    ///
    /// Where the answer stands as `Present`, its path has to be climbed by the caller, to the region's root: a question
    /// whose block is verified is closed by `close`, and the digest that a wrong path leads to goes to `take_differing`.
    pub fn judge(&mut self, from: NodeName, answer: &Answer, number: u64) -> Standing
        ensures shape { self.new.shape ≡ self.old.shape }
        ensures asked { self.new.asked ≡ left_before answer.now from.replica number result self.old.asked }
        // By the rules, whatever the root is.
        ensures standing { (root : List ℕ) → result ≡ standing_of answer.now (worth_in self.old from answer.now number root) }
        // In plain words.
        ensures unknown { (result ≡ Standing.Unknown) ↔ (AnswersOne self.old from answer.now → ⊥) }
        ensures past { (at : ℕ) → (result ≡ Standing.Past at) ↔ (AnswersOne self.old from answer.now × (number < answer.now.at) × (at ≡ answer.now.at)) }
        ensures stale { (at : ℕ) → (result ≡ Standing.Stale at) ↔ (AnswersOne self.old from answer.now × (answer.now.at < number) × (at ≡ answer.now.at)) }
        ensures present { (result ≡ Standing.Present) ↔ IsPresent self.old from answer.now number }
    {
        let standing = self.stand(from, answer, number);
        self.strike_past(from, answer, number, &standing);
        standing
    }

    /// The answer's path leads to `got`, and the region's root is `held`: strikes the replica at the question that is
    /// answered. It takes no memory.
    pub fn take_differing(&mut self, from: NodeName, answer: &Answer, held: &Digest, got: &Digest)
        ensures shape { self.new.shape ≡ self.old.shape }
        ensures asked { self.new.asked ≡ struck_at answer.now from.replica (strike.Bad held.now got.now) self.old.asked }
    {
        let (held, got) = (*held, *got);
        self.strike(from, answer, Strike::Bad { held, got });
    }

    /// Climbs the answer's path, and takes the block or strikes the replica.
    fn climb(&mut self, from: NodeName, answer: &Answer, root: &Digest) -> Verdict
        requires { length answer.now.path ≡ self.old.shape.height }
        ensures shape { self.new.shape ≡ self.old.shape }
        ensures climbed { IsClimbed self.old answer.now root.now result }
        ensures asked { (number : ℕ) → self.new.asked ≡ left_by answer.now from.replica number result self.old.asked }
    {
        let place = answer.block % self.geometry.region_blocks();
        let got = fold_path(place, &leaf_digest(answer.bytes.as_slice()), &answer.path);
        if got == *root {
            self.close(answer.read);
            Verdict::Block
        } else {
            self.take_differing(from, answer, root, &got);
            Verdict::Bad { held: *root, got }
        }
    }

    fn decide(&mut self, from: NodeName, answer: &Answer, number: u64, root: &Digest) -> Verdict
        ensures shape { self.new.shape ≡ self.old.shape }
        ensures asked { self.new.asked ≡ left_by answer.now from.replica number result self.old.asked }
        ensures said { IsSaid self.old from answer.now number root.now result }
    {
        match self.judge(from, answer, number) {
            Standing::Unknown => Verdict::Unknown,
            Standing::Past { at } => Verdict::Past { at },
            Standing::Stale { at } => Verdict::Stale { at },
            Standing::Present => self.climb(from, answer, root),
        }
    }

    /// What an answer is worth, beside the region's number and root: the block, which closes its question, or a strike
    /// of its replica, or neither. It takes no memory, and climbs the path once.
    pub fn take_answer(
        &mut self,
        from: NodeName,
        answer: &Answer,
        number: u64,
        root: &Digest,
    ) -> Verdict
        ensures shape { self.new.shape ≡ self.old.shape }
        ensures asked { self.new.asked ≡ left_by answer.now from.replica number result self.old.asked }
        // By the rules.
        ensures verdict { result ≡ said_of answer.now (worth_in self.old from answer.now number root.now) }
        // In plain words.
        ensures unknown { (result ≡ Verdict.Unknown) ↔ (AnswersOne self.old from answer.now → ⊥) }
        ensures past { (at : ℕ) → (result ≡ Verdict.Past at) ↔ (AnswersOne self.old from answer.now × (number < answer.now.at) × (at ≡ answer.now.at)) }
        ensures stale { (at : ℕ) → (result ≡ Verdict.Stale at) ↔ (AnswersOne self.old from answer.now × (answer.now.at < number) × (at ≡ answer.now.at)) }
        ensures block { (result ≡ Verdict.Block) ↔ (IsPresent self.old from answer.now number × Verifies root.now self.old.shape.height (place_of self.old.shape answer.now.block) answer.now.bytes answer.now.path) }
        ensures bad { (held got : List ℕ) → (result ≡ Verdict.Bad held got) ↔ (IsPresent self.old from answer.now number × (reached self.old answer.now ≢ root.now) × (held ≡ root.now) × (got ≡ reached self.old answer.now)) }
    {
        self.decide(from, answer, number, root)
    }

    /// The first strikes of all replicas of the group, where each of them is struck at that question.
    pub fn faulted(&self, read: u64) -> Option<&Strikes>
        ensures strikes { option_copied result ≡ fault_at read self.now.asked }
        ensures each { IfSome result (λ strikes. length strikes.now ≡ self.now.shape.replicas) }
    {
        match self.asked.get(&read) {
            Some(entry) => entry.fault(),
            None => None,
        }
    }

    /// Closes the question of that number, if it is open; the others keep their order.
    pub fn close(&mut self, read: u64)
        ensures shape { self.new.shape ≡ self.old.shape }
        ensures asked { self.new.asked ≡ closed_at read self.old.asked }
    {
        self.asked.shift_remove(&read);
    }
}
