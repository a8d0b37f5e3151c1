//! Whether a file is accepted for a job, in the order of refusals. `docs/FORMAT.md` has the order.
ghost use Rattle.std.specs.Prelude.{◌≡◌, ◌++◌, [], codes, decimal, OnOk, IfOk, IfErr};
ghost use Rattle.pks_terms.specs.declared.codes.TheConstants.{INITIAL_CLASH, UNJUSTIFIED_ADD, WORLD_INCOMPATIBLE, WORLD_MISSING};
ghost use Rattle.pks_terms.specs.Printed.{name_in};
ghost use Rattle.pks_terms.specs.Views.{problem_of};
ghost use Rattle.pks_terms.specs.Answers.{GivenWorld, refusal, RefusesWorld, RefusesFor, RefusesFile};
ghost use Rattle.pks_world.specs.Contents.{world_of};
ghost use Rattle.pks_query_lookup.specs.Fives.{five_of};
ghost use Rattle.pks_run_words.specs.JobViews.{job_of};
ghost use Rattle.pks_reader.specs.Views.{file_of, IsWhole};
ghost use Rattle.pks_run_answer.specs.Accepting.{printed_of, IfRefused, RefusesFirst, RefusesAnyRun, Begins, IsFaultless, IsUnbroken, IsFit, IsRunIn, Accepts};

use pks_exec::compatible;
use pks_justify::{Unjustified, justify};
use pks_query::databases::Db;
use pks_reader::{
    Extra, InputFile, Refusal, Turned, add_at, init_at, problem_at, stated_world, world_at,
};
use pks_run_words::Job;
use pks_terms::codes::{INITIAL_CLASH, UNJUSTIFIED_ADD, WORLD_INCOMPATIBLE, WORLD_MISSING};
use pks_terms::ids::ItemNo;
use pks_world::World;
use std::alloc::Global;

/// What a job about an accepted file is done with.
#[derive(Drop)]
pub struct Accepted {
    /// The first databases.
    pub first: Db,
    /// The world of the file, where the job asks for it and it is there: a run always has it.
    pub world: Option<World>,
}

/// An add that has no case (260).
fn unjustified_refusal(f: &InputFile<'_>, add: Unjustified) -> Refusal
    ensures { printed_of f.now result ≡ refusal ((file_of f.now).add_at add.action.0 add.effect) UNJUSTIFIED_ADD (codes " action " ++ (name_in (file_of f.now).names.actions add.action.0 ++ (codes " effect " ++ decimal add.effect))) }
{
    Refusal {
        code: UNJUSTIFIED_ADD,
        at: add_at(f, add.action, add.effect),
        extra: Extra::Effect {
            action: add.action,
            number: add.effect,
        },
    }
}

/// First databases that clash (270).
fn clash(f: &InputFile<'_>) -> Refusal
    ensures { printed_of f.now result ≡ refusal (file_of f.now).init_at INITIAL_CLASH [] }
{
    Refusal::plain(init_at(f), INITIAL_CLASH)
}

/// A run without a world (310).
fn no_world(f: &InputFile<'_>) -> Refusal
    ensures { printed_of f.now result ≡ refusal (file_of f.now).problem_at WORLD_MISSING [] }
{
    Refusal::plain(problem_at(f), WORLD_MISSING)
}

/// A run in a world that breaks an initial item (311).
fn broken_item(f: &InputFile<'_>, item: ItemNo) -> Refusal
    ensures { printed_of f.now result ≡ refusal (file_of f.now).world_at WORLD_INCOMPATIBLE (codes " item " ++ decimal item.0) }
{
    Refusal {
        code: WORLD_INCOMPATIBLE,
        at: world_at(f),
        extra: Extra::Item(item),
    }
}

/// The first databases of a problem whose adds all have a case.
fn begin(alloc: Global, f: &InputFile<'_>) -> Result<Db, Turned>
    requires { IsWhole f.now }
    ensures begins { IfOk result (λ db. Begins (problem_of f.now.problem) (five_of db)) }
    ensures refused { IfErr result (IfRefused f.now (RefusesFirst (file_of f.now))) }
{
    match justify(&f.problem) {
        Err(first) => Err(Turned::Refused(unjustified_refusal(f, first))),
        Ok(()) => match Db::first_unless_clash(alloc, &f.problem) {
            Ok(Some(db)) => Ok(db),
            Ok(None) => Err(Turned::Refused(clash(f))),
            Err(_error) => Err(Turned::Memory),
        },
    }
}

/// The world that a run is in.
fn run_world(alloc: Global, f: &InputFile<'_>) -> Result<World, Turned>
    requires { IsWhole f.now }
    ensures given { IfOk result (λ w. (file_of f.now).world ≡ GivenWorld (world_of w)) }
    ensures unbroken { OnOk result (IsUnbroken (problem_of f.now.problem) (file_of f.now).world) }
    ensures refused { IfErr result (IfRefused f.now (RefusesAnyRun (file_of f.now))) }
{
    match stated_world(alloc, f) {
        Ok(None) => Err(Turned::Refused(no_world(f))),
        Ok(Some(w)) => match compatible(&f.problem, &w) {
            Some(item) => Err(Turned::Refused(broken_item(f, item))),
            None => Ok(w),
        },
        Err(turned) => Err(turned),
    }
}

/// The world that the file states, where it has no fault.
fn sound_world(alloc: Global, f: &InputFile<'_>) -> Result<Option<World>, Turned>
    requires { IsWhole f.now }
    ensures fits { OnOk result (IsFaultless (file_of f.now).world) }
    ensures refused { IfErr result (IfRefused f.now (RefusesWorld (file_of f.now) (file_of f.now).world)) }
{
    stated_world(alloc, f)
}

/// The world that a job asks for.
fn world_for(alloc: Global, job: Job, f: &InputFile<'_>) -> Result<Option<World>, Turned>
    requires { IsWhole f.now }
    ensures fits { OnOk result (IsFit (job_of job) (problem_of f.now.problem) (file_of f.now).world) }
    ensures run { IfOk result (λ w. IsRunIn (job_of job) (file_of f.now).world w) }
    ensures refused { IfErr result (IfRefused f.now (RefusesFor (job_of job) (file_of f.now))) }
{
    match job {
        Job::Check
        | Job::Plan(_)
        | Job::Recall(_)
        | Job::Agent(_)
        | Job::Explain(_)
        | Job::Derive
        | Job::Shared(_) => sound_world(alloc, f),
        Job::Exec(_) => match run_world(alloc, f) {
            Ok(w) => Ok(Some(w)),
            Err(turned) => Err(turned),
        },
        Job::Bench(_) => Ok(None),
    }
}

/// The first databases of a file as `read_file` gives it, and the world that the job asks for. The file is refused exactly where
/// one of the codes 260 to 311 applies for the job, by the first of them in the order of `docs/FORMAT.md`, or memory ran out.
pub fn accept(alloc: Global, job: Job, f: &InputFile<'_>) -> Result<Accepted, Turned>
    requires { IsWhole f.now }
    ensures accepts { IfOk result (λ a. Accepts (job_of job) (file_of f.now) (five_of a.first) a.world) }
    ensures refused { IfErr result (IfRefused f.now (RefusesFile (job_of job) (file_of f.now))) }
{
    match begin(alloc, f) {
        Ok(first) => match world_for(alloc, job, f) {
            Ok(world) => Ok(Accepted { first, world }),
            Err(turned) => Err(turned),
        },
        Err(turned) => Err(turned),
    }
}
