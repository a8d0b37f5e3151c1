//! Jobs.

/// What the words of the command line ask for (docs/FORMAT.md, "Words and statuses").
#[derive(Clone, Copy, Debug, PartialEq, Eq)]
pub enum Job {
    /// Read a file, and accept or refuse it.
    Check,
    /// Plan to this depth, from 0 to 16.
    Plan(u8),
    /// Plan to this depth, from 0 to 16, and run the plan.
    Exec(u8),
    /// Plan over the generated file with this many objects, from 1 to 64.
    Bench(u8),
    /// Plan to this depth, from 0 to 16, and tell what each leaf of the plan knows of every moment.
    Recall(u8),
    /// Plan to this depth, from 0 to 16, and lead a caller through the plan by its answers.
    Agent(u8),
    /// Plan to this depth, from 0 to 16, and prove what the plan rests on.
    Explain(u8),
    /// Read a file, and tell the knowledge effects that follow from the text of its actions.
    Derive,
    /// Plan to this depth, from 0 to 16, and list the plan with its equal parts once.
    Shared(u8),
}
