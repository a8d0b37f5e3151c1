//! A run of the program over a source and a sink in memory.
use crate::rows::Check;
use pks_io::{MemSink, MemSource};
use pks_run::{Status, run};
use std::alloc::{AllocError, Global};
use std::test::Fail;

/// What ails the streams of a run.
#[derive(Clone, Copy)]
pub(crate) struct Ails {
    /// The call at which the source fails, or 0 where it doesn't.
    pub(crate) read: u32,
    /// The call at which the sink fails, or 0 where it doesn't.
    pub(crate) write: u32,
    /// How many bytes the sink has room for.
    pub(crate) room: u32,
}

/// Streams that never fail, and room for each answer of these tests.
pub(crate) const NOTHING: Ails = Ails {
    read: 0,
    write: 0,
    room: 600,
};

/// The program's name and the words behind it.
pub(crate) fn words_of(alloc: Global, text: &str) -> Result<Vec<String>, AllocError> {
    let mut words = Vec::new(alloc);
    words.push(String::from_str(alloc, "pks")?)?;
    for word in text.split(' ') {
        words.push(String::from_str(alloc, word)?)?;
    }
    Ok(words)
}

/// The input in pieces of 8 bytes.
pub(crate) fn source_of(alloc: Global, input: &[u8], ails: Ails) -> Result<MemSource, AllocError> {
    let bytes = input.to_vec(alloc)?;
    Ok(MemSource::new(bytes, 8, [ails.read].to_vec(alloc)?))
}

/// A sink that takes pieces of 5 bytes.
pub(crate) fn sink_of(alloc: Global, ails: Ails) -> Result<MemSink, AllocError> {
    MemSink::with_room(alloc, ails.room, 5, [ails.write].to_vec(alloc)?)
}

/// The status of a run, and what it wrote.
pub(crate) fn run_over(
    alloc: Global,
    words: &str,
    input: &[u8],
    ails: Ails,
) -> Result<(Status, Vec<u8>), AllocError> {
    let words = words_of(alloc, words)?;
    let mut source = source_of(alloc, input, ails)?;
    let mut sink = sink_of(alloc, ails)?;
    let status = run(alloc, words.as_slice(), &mut source, &mut sink);
    let written = sink.bytes().to_vec(alloc)?;
    Ok((status, written))
}

/// Whether `check` says this of the input.
pub(crate) fn is_said(alloc: Global, input: &str, text: &str) -> Result<bool, AllocError> {
    let (_, written) = run_over(alloc, "check", input.as_bytes(), NOTHING)?;
    Ok(written.as_slice() == text.as_bytes())
}

/// Words, a file, the status and the whole answer.
pub(crate) struct Answered(
    pub &'static str,
    pub &'static str,
    pub Status,
    pub &'static str,
);

impl Answered {
    /// What a run over such streams gives.
    pub(crate) fn over(&self, alloc: Global, ails: Ails) -> Result<(Status, Vec<u8>), AllocError> {
        run_over(alloc, self.0, self.1.as_bytes(), ails)
    }

    /// Whether this is the whole answer.
    pub(crate) fn is_whole(&self, status: Status, written: &[u8]) -> bool {
        status == self.2 && written == self.3.as_bytes()
    }
}

impl Check for Answered {
    fn is_so(&self, alloc: Global) -> Result<bool, Fail> {
        let (status, written) = self.over(alloc, NOTHING)?;
        Ok(self.is_whole(status, written.as_slice()))
    }
}

/// One text behind another.
pub(crate) fn concat(alloc: Global, front: &str, back: &str) -> Result<String, AllocError> {
    let mut text = String::from_str(alloc, front)?;
    text.push_str(back)?;
    Ok(text)
}

/// Words, a file, what stands behind it, the status and the whole answer.
pub(crate) struct Followed(
    pub &'static str,
    pub &'static str,
    pub &'static str,
    pub Status,
    pub &'static str,
);

impl Check for Followed {
    fn is_so(&self, alloc: Global) -> Result<bool, Fail> {
        let input = concat(alloc, self.1, self.2)?;
        let (status, written) = run_over(alloc, self.0, input.as_bytes(), NOTHING)?;
        Ok(status == self.3 && written.as_slice() == self.4.as_bytes())
    }
}
