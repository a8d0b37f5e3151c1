//! The laws, each the clause of a function that does nothing. Words, texts and answers are in `docs/FORMAT.md`, plans in `docs/RULES.md`.

ghost use Rattle.std.specs.Prelude.{◌⊎◌, ℕ, List, Option};
ghost use Rattle.pks_terms.specs.Printed.{Text};
ghost use Rattle.pks_terms.specs.Problems.{Problem};
ghost use Rattle.pks_terms.specs.Valid.{IsValid};
ghost use Rattle.pks_terms.specs.Settling.{State};
ghost use Rattle.pks_terms.specs.Trees.{Tree, IsPlan, IsBest};
ghost use Rattle.pks_terms.specs.Recalled.{IsRecalled};
ghost use Rattle.pks_terms.specs.Jobs.{all_modes, Job, Asks, AskForNone};
ghost use Rattle.pks_terms.specs.Answers.{Reading, Status, AnswersJob, IsAnswer};
ghost use Rattle.pks_reader.specs.Inputs.{Reads};

/// Words ask for a job, or for none.
pub fn words_ask_for_a_job_or_for_none()
    ensures { (words : List Text) → ((job : Job) × Asks all_modes words job) ⊎ AskForNone all_modes words }
{}

/// Each text reads as a file, or has a first fault.
pub fn each_text_reads_as_a_file_or_has_a_first_fault()
    ensures { (text : Text) → (reading : Reading) × Reads text reading }
{}

/// A valid problem has a best plan of at most a depth, or none.
pub fn each_valid_problem_has_a_best_plan_or_none()
    ensures { (p : Problem) (n : ℕ) → IsValid p → (best : Option Tree) × IsBest p n best }
{}

/// Each plan comes to a state at each of its leaves.
pub fn each_plan_has_states_at_its_leaves()
    ensures { (p : Problem) (t : Tree) → IsPlan p t → (states : List State) × IsRecalled p t states }
{}

/// Each job has an answer about each input: that it is refused, that there is no plan, or what the job prints.
pub fn each_job_has_an_answer()
    ensures { (job : Job) (input : Text) → (status : Status) × (text : Text) × AnswersJob Reads job input status text }
{}

/// So no words and no input are without an answer, in a program that has all modes.
pub fn all_words_and_inputs_have_an_answer()
    ensures { (words : List Text) (input : Text) → (status : Status) × (text : Text) × IsAnswer Reads all_modes words input status text }
{}
