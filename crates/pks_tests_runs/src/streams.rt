//! Sources and sinks that fail at one call, in each mode.
use crate::files::{DOOR, DOOR_WITHOUT_INIT, DOOR_WORLD, EMPTY_PLAN, USAGE};
use crate::rows::{Check, all_so};
use crate::runs::{Ails, Answered, NOTHING, run_over, sink_of, source_of, words_of};
use pks_run::Status::{Done, NoPlan, ReadFault, Refused, Words, WriteFault};
use pks_run::{Status, run};
use std::alloc::{AllocError, Global};
use std::test::Fail;

const TURN: &str = "(pks 1)
(domain (predicates (open)) (action turn (effects (set (open)))))
(problem (goal (k (open))))
";

/// Whether this is a front of the answer, and the sink's fault is told.
fn is_broken(answer: &Answered, status: Status, written: &[u8]) -> bool {
    status == WriteFault && answer.3.as_bytes().starts_with(written)
}

/// The first call of the source that may fail without harm, where each before it gives a fault and writes nothing.
fn reads(alloc: Global, answer: &Answered) -> Result<Option<u32>, AllocError> {
    for read in 1..100u32 {
        let (status, written) = answer.over(alloc, Ails { read, ..NOTHING })?;
        if answer.is_whole(status, written.as_slice()) {
            return Ok(Some(read));
        }
        if status != ReadFault || !written.is_empty() {
            return Ok(None);
        }
    }
    Ok(None)
}

/// The first call of the sink that may fail without harm, where each before it gives a fault and a front of the text.
fn writes(alloc: Global, answer: &Answered) -> Result<Option<u32>, AllocError> {
    for write in 1..100u32 {
        let (status, written) = answer.over(alloc, Ails { write, ..NOTHING })?;
        if answer.is_whole(status, written.as_slice()) {
            return Ok(Some(write));
        }
        if !is_broken(answer, status, written.as_slice()) {
            return Ok(None);
        }
    }
    Ok(None)
}

/// The least room that is enough, where each less is filled by a front of the text and gives a fault.
fn room(alloc: Global, answer: &Answered) -> Result<Option<u32>, AllocError> {
    for room in 0..100u32 {
        let (status, written) = answer.over(alloc, Ails { room, ..NOTHING })?;
        if answer.is_whole(status, written.as_slice()) {
            return Ok(Some(room));
        }
        if !is_broken(answer, status, written.as_slice()) || written.len() != room as usize {
            return Ok(None);
        }
    }
    Ok(None)
}

/// Whether a source that failed at its first call gives the whole answer to a second run.
fn is_read_again(alloc: Global, answer: &Answered) -> Result<bool, AllocError> {
    let ails = Ails { read: 1, ..NOTHING };
    let words = words_of(alloc, answer.0)?;
    let mut source = source_of(alloc, answer.1.as_bytes(), ails)?;
    let mut sink = sink_of(alloc, ails)?;
    let first = run(alloc, words.as_slice(), &mut source, &mut sink);
    let second = run(alloc, words.as_slice(), &mut source, &mut sink);
    Ok(first == ReadFault && answer.is_whole(second, sink.bytes()))
}

/// An answer, the first calls of the source and of the sink that may fail without harm, and the least room that is enough.
struct Failing(Answered, u32, u32, u32);

impl Check for Failing {
    fn is_so(&self, alloc: Global) -> Result<bool, Fail> {
        Ok(
            reads(alloc, &self.0)? == Some(self.1)
                && writes(alloc, &self.0)? == Some(self.2)
                && room(alloc, &self.0)? == Some(self.3)
                && is_read_again(alloc, &self.0)?,
        )
    }
}

const DOOR_STREAMS: &[Failing] = &[Failing(Answered("plan 0", DOOR, Done, EMPTY_PLAN), 13, 5, 18)];

#[test]
fn failing_reads_write_nothing(rt: HostRuntime) -> Result<(), Fail> {
    all_so(rt.alloc(), DOOR_STREAMS)
}

const STREAMS: &[Failing] = &[
    Failing(Answered("check", DOOR, Done, "accepted\n"), 13, 3, 9),
    Failing(
        Answered("check", "(pks 1))", Refused, "refused 1:8 112\n"),
        3,
        5,
        16,
    ),
    Failing(
        Answered("plan 3", DOOR_WITHOUT_INIT, NoPlan, "none to depth 3\n"),
        11,
        5,
        16,
    ),
    Failing(
        Answered("exec 0", DOOR_WORLD, Done, "run\ngoal\n"),
        16,
        3,
        9,
    ),
    Failing(
        Answered(
            "recall 0",
            DOOR,
            Done,
            "plan depth 0\ngoal\nleaf 1\nmoment 0\n(open)\n",
        ),
        13,
        10,
        41,
    ),
    Failing(
        Answered(
            "explain 0",
            DOOR,
            Done,
            "plan depth 0\ngoal\nknown (open)\n1 moment 0 (open) given 1\n",
        ),
        13,
        13,
        57,
    ),
    Failing(
        Answered("shared 0", DOOR, Done, "plan depth 0 nodes 1\n1 goal\n"),
        13,
        7,
        28,
    ),
    Failing(
        Answered("derive", TURN, Done, "action turn\n(kf (open))\n"),
        15,
        6,
        24,
    ),
];

#[test]
fn streams_that_fail_at_each_call(rt: HostRuntime) -> Result<(), Fail> {
    all_so(rt.alloc(), STREAMS)
}

/// An answer for which the source isn't read.
struct Unread(Answered);

impl Check for Unread {
    fn is_so(&self, alloc: Global) -> Result<bool, Fail> {
        Ok(reads(alloc, &self.0)? == Some(1))
    }
}

const NOT_READ: &[Unread] = &[
    Unread(Answered("plan 17", DOOR, Words, USAGE)),
    Unread(Answered("bench 1", DOOR, Done, "bench 1 bytes 352 depth 2 nodes 3\n")),
];

#[test]
fn sources_that_are_not_read(rt: HostRuntime) -> Result<(), Fail> {
    all_so(rt.alloc(), NOT_READ)
}

/// The call at which the sink fails, its room, the status of the empty plan and what is written of it.
struct Front(u32, u32, Status, &'static str);

impl Check for Front {
    fn is_so(&self, alloc: Global) -> Result<bool, Fail> {
        let ails = Ails {
            write: self.0,
            room: self.1,
            ..NOTHING
        };
        let (status, written) = run_over(alloc, "plan 0", DOOR.as_bytes(), ails)?;
        Ok(status == self.2 && written.as_slice() == self.3.as_bytes())
    }
}

const FRONTS: &[Front] = &[
    Front(1, 99, WriteFault, ""),
    Front(2, 99, WriteFault, "plan "),
    Front(3, 99, WriteFault, "plan depth"),
    Front(4, 99, WriteFault, "plan depth 0\ngo"),
    Front(5, 99, Done, EMPTY_PLAN),
    Front(9, 7, WriteFault, "plan de"),
];

#[test]
fn failing_writes_leave_a_front(rt: HostRuntime) -> Result<(), Fail> {
    all_so(rt.alloc(), FRONTS)
}
