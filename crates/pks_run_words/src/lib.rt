//! The words of the command line, read by `clap`.
#![tactic(auto)]

mod command;
mod end;
mod job;
mod modes;
mod number;
mod read;

pub use end::WordsEnd;
pub use job::Job;
pub use read::read_words;
