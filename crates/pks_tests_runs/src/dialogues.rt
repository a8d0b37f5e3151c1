//! Dialogues over files that are read, and sources that fail where they are read too early.
use crate::files::{BOXES, LAWN, SAFE};
use crate::rows::all_so;
use crate::runs::{Ails, Followed, NOTHING, concat, run_over, sink_of, words_of};
use pks_io::MemSource;
use pks_run::Status::{Done, NoPlan, ReadFault, Refused, WriteFault};
use pks_run::{Status, run};
use std::alloc::{AllocError, Global};
use std::test::Fail;

const LED: &[Followed] = &[
    Followed(
        "agent 2",
        SAFE,
        ".\nc3\n",
        Done,
        "do (read)\nvalue (combo)\ndo (dial c3)\ngoal\n",
    ),
    Followed(
        "agent 2",
        SAFE,
        ".\nc3",
        Done,
        "do (read)\nvalue (combo)\ndo (dial c3)\ngoal\n",
    ),
    Followed(
        "agent 2",
        SAFE,
        ".\nc3\nand more\n",
        Done,
        "do (read)\nvalue (combo)\ndo (dial c3)\ngoal\n",
    ),
    Followed(
        "agent 2",
        SAFE,
        ".\n\nc3\n",
        Refused,
        "do (read)\nvalue (combo)\nrefused 13:1 320\n",
    ),
    Followed(
        "agent 2",
        SAFE,
        "",
        Refused,
        "do (read)\nvalue (combo)\nrefused 13:1 321\n",
    ),
    Followed("agent 1", SAFE, ".\nc3\n", NoPlan, "none to depth 1\n"),
    Followed(
        "agent 3",
        LAWN,
        ".\nfalse\n",
        Done,
        "do (pour)\ndo (look)\ntest (alive)\ngoal\n",
    ),
    Followed(
        "agent 3",
        LAWN,
        ".\nmaybe\n",
        Refused,
        "do (pour)\ndo (look)\ntest (alive)\nrefused 8:1 320\n",
    ),
    Followed(
        "agent 3",
        LAWN,
        ".\n",
        Refused,
        "do (pour)\ndo (look)\ntest (alive)\nrefused 8:1 321\n",
    ),
    Followed(
        "agent 4",
        BOXES,
        ".\nfalse\nfalse\n",
        Done,
        "do (peek b1)\ndo (peek b2)\ntest (in b1)\ntest (in b2)\ngoal\n",
    ),
    Followed(
        "agent 4",
        BOXES,
        ".\nfalse\nmaybe\n",
        Refused,
        "do (peek b1)\ndo (peek b2)\ntest (in b1)\ntest (in b2)\nrefused 13:1 320\n",
    ),
    Followed(
        "agent 4",
        BOXES,
        ".\nfalse\n",
        Refused,
        "do (peek b1)\ndo (peek b2)\ntest (in b1)\ntest (in b2)\nrefused 13:1 321\n",
    ),
    Followed(
        "agent 3",
        LAWN,
        "..\n.\ntrue\n",
        Refused,
        "refused 7:1 110\n",
    ),
];

#[test]
fn callers_are_led_by_their_answers(rt: HostRuntime) -> Result<(), Fail> {
    all_so(rt.alloc(), LED)
}

/// The status and the text where the source gives `piece` bytes at a time and fails at one call.
fn led_until(
    alloc: Global,
    input: &str,
    piece: u32,
    failing: u32,
) -> Result<(Status, Vec<u8>), AllocError> {
    if piece == 0 {
        return Err(AllocError);
    }
    let words = words_of(alloc, "agent 2")?;
    let bytes = input.as_bytes().to_vec(alloc)?;
    let mut source = MemSource::new(bytes, piece, [failing].to_vec(alloc)?);
    let mut sink = sink_of(alloc, NOTHING)?;
    let status = run(alloc, words.as_slice(), &mut source, &mut sink);
    let written = sink.bytes().to_vec(alloc)?;
    Ok((status, written))
}

/// A file of this many bytes, the full stop included, which are given in one piece; the call behind it is for the first answer.
fn is_asked_first(alloc: Global, file: &str) -> Result<bool, AllocError> {
    let mut input = concat(alloc, file, ".\n")?;
    let Ok(piece) = u32::try_from(input.len()) else {
        return Ok(false);
    };
    input.push_str("c3\n")?;
    let (status, written) = led_until(alloc, input.as_str(), piece, 2)?;
    Ok(status == ReadFault && written.as_slice() == b"do (read)\nvalue (combo)\n".as_slice())
}

#[test]
fn questions_go_out_before_answers_are_read(rt: HostRuntime) -> Result<(), Fail> {
    assert!(rt; is_asked_first(rt.alloc(), SAFE)?);
    Ok(())
}

/// An answer of 65 bytes, which is given in one piece with the file; the call behind it is for what follows.
fn is_refused_at_once(alloc: Global, file: &str) -> Result<bool, AllocError> {
    let mut input = concat(alloc, file, ".\n")?;
    for _ in 0..65 {
        input.push_str("c")?;
    }
    let Ok(piece) = u32::try_from(input.len()) else {
        return Ok(false);
    };
    let (status, written) = led_until(alloc, input.as_str(), piece, 2)?;
    Ok(
        status == Refused
            && written.as_slice() == b"do (read)\nvalue (combo)\nrefused 13:1 320\n".as_slice(),
    )
}

#[test]
fn nothing_is_read_behind_a_long_answer(rt: HostRuntime) -> Result<(), Fail> {
    assert!(rt; is_refused_at_once(rt.alloc(), SAFE)?);
    Ok(())
}

/// The first call of the sink that may fail without harm, where each before it leaves a front of the dialogue.
fn first_without_harm(alloc: Global, text: &[u8]) -> Result<Option<u32>, AllocError> {
    let input = concat(alloc, SAFE, ".\nc3\n")?;
    for write in 1..100u32 {
        let ails = Ails { write, ..NOTHING };
        let (status, written) = run_over(alloc, "agent 2", input.as_bytes(), ails)?;
        if status == Done && written.as_slice() == text {
            return Ok(Some(write));
        }
        if status != WriteFault || !text.starts_with(written.as_slice()) {
            return Ok(None);
        }
    }
    Ok(None)
}

/// What is written where the sink fails at this call.
fn written_until(alloc: Global, write: u32) -> Result<(Status, Vec<u8>), AllocError> {
    let input = concat(alloc, SAFE, ".\nc3\n")?;
    let ails = Ails { write, ..NOTHING };
    run_over(alloc, "agent 2", input.as_bytes(), ails)
}

#[test]
fn a_sink_that_fails_at_call_9_has_what_was_told_before(rt: HostRuntime) -> Result<(), Fail> {
    let (status, written) = written_until(rt.alloc(), 9)?;
    assert!(rt; status == WriteFault);
    assert!(rt; written.as_slice() == b"do (read)\nvalue (combo)\ndo (d".as_slice());
    Ok(())
}

#[test]
fn failing_sinks_end_a_dialogue(rt: HostRuntime) -> Result<(), Fail> {
    let text = b"do (read)\nvalue (combo)\ndo (dial c3)\ngoal\n";
    let first = first_without_harm(rt.alloc(), text.as_slice())?;
    assert!(rt; first.is_some_and(|call| call > 9));
    Ok(())
}
