//! The laws of replies, each the clause of a function that does nothing.
ghost use Rattle.std.specs.Prelude.{◌≡◌, ℕ, List};
ghost use Rattle.pks_terms.specs.Jobs.{Job};
ghost use Rattle.pks_terms.specs.Valid.{IsValid};
ghost use Rattle.pks_terms.specs.Answers.{File};
ghost use Rattle.pks_run_answer.specs.Goodness.{HasGoodPlan, TellsTruth};
ghost use Rattle.pks_run_answer.specs.Replies.{IsReply, AreAlike};
ghost use Rattle.pks_run_answer.specs.declared.reply.Verdict.{Verdict};

/// A job about a file has one reply, but that an explanation may have other proofs of the same literals.
pub fn there_is_one_reply()
    ensures { (j : Job) (f : File) (v u : Verdict) (text other : List ℕ) → IsReply j f v text → IsReply j f u other → (v ≡ u) × AreAlike j f v text other }
{}

/// Where a job is done about a file of a valid problem, the best plan to its depth is good in every compatible world.
pub fn done_plans_are_good()
    ensures { (j : Job) (f : File) (text : List ℕ) → IsValid f.problem → IsReply j f Verdict.Done text → HasGoodPlan j f }
{}

/// Where what leaves recall is told about a file of a valid problem, it was so in every compatible world whose run comes to that leaf;
/// and where a plan is explained, what is shown is so at the end of its path, in every compatible world that takes it.
pub fn what_is_told_was_so()
    ensures { (j : Job) (f : File) (text : List ℕ) → IsValid f.problem → IsReply j f Verdict.Done text → TellsTruth j f text }
{}
