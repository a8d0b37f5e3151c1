//! The file that stands before the answers.
ghost use Rattle.std.specs.Prelude.{◌≡◌, ◌≤◌, ◌<◌, ◌∷◌, ◌++◌, [], IfSome, IfOk, OnOk, IsErrOf, length, vec_len};
ghost use Rattle.pks_terms.specs.declared.limits.TheConstants.{MOST_BYTES};
ghost use Rattle.pks_io.specs.Causes.{Rose, HasCause};
ghost use Rattle.pks_agent.specs.Streams.{ahead_of, coming, Finds, FindsStop, Appended, ReadsFile, ReadsFront};

use crate::ahead::ReadAhead;
use pks_io::{Failed, ReadEnd, Source};
use pks_terms::limits::MOST_BYTES;
use std::alloc::Global;

/// What stands next in an input.
#[derive(Clone, Copy)]
pub(crate) enum Scanned {
    /// A byte of the file.
    Byte(u8),
    /// A full stop that begins a line, and a byte of that line behind it.
    Dot(u8),
    /// The line that is a full stop alone.
    Stop,
    /// Nothing.
    End,
}

/// What stands behind a full stop that begins a line.
fn find_stop<S: Source>(ahead: &mut ReadAhead, source: &mut S) -> Result<Scanned, Failed>
    ensures finds { IfOk result (FindsStop (coming ahead.old (S.left source.old)) (coming ahead.new (S.left source.new))) }
    ensures cause { HasCause (S.faults source.old) (S.faults source.new) result }
    ensures quiet { OnOk result (S.faults source.new ≡ S.faults source.old) }
{
    match ahead.next(source) {
        Ok(None) => Ok(Scanned::Stop),
        Ok(Some(byte)) => {
            if byte == b'\n' {
                Ok(Scanned::Stop)
            } else {
                Ok(Scanned::Dot(byte))
            }
        }
        Err(failed) => Err(failed),
    }
}

/// What stands next, at the beginning of a line or within it.
fn find<S: Source>(begins: bool, ahead: &mut ReadAhead, source: &mut S) -> Result<Scanned, Failed>
    ensures finds { IfOk result (Finds begins (coming ahead.old (S.left source.old)) (coming ahead.new (S.left source.new))) }
    ensures cause { HasCause (S.faults source.old) (S.faults source.new) result }
    ensures quiet { OnOk result (S.faults source.new ≡ S.faults source.old) }
{
    match ahead.next(source) {
        Ok(None) => Ok(Scanned::End),
        Ok(Some(byte)) => {
            if begins && byte == b'.' {
                find_stop(ahead, source)
            } else {
                Ok(Scanned::Byte(byte))
            }
        }
        Err(failed) => Err(failed),
    }
}

/// Appends a byte of the file, which has at most 262,144.
fn push_byte(text: &mut Vec<u8>, byte: u8) -> Result<(), ReadEnd>
    ensures ok { OnOk result (text.new.items ≡ text.old.items ++ byte ∷ []) }
    ensures bound { OnOk result (vec_len text.new ≤ MOST_BYTES) }
    ensures long { IsErrOf result ReadEnd.TooLong → MOST_BYTES ≤ vec_len text.old }
    ensures other { IsErrOf result ReadEnd.Fault → ⊥ }
{
    if text.len() >= MOST_BYTES {
        return Err(ReadEnd::TooLong);
    }
    if text.push(byte).is_err() {
        return Err(ReadEnd::Memory);
    }
    Ok(())
}

/// Appends what was found, and says whether a line begins behind it, or that the file ends.
fn append(text: &mut Vec<u8>, found: Scanned) -> Result<Option<bool>, ReadEnd>
    requires { vec_len text.old ≤ MOST_BYTES }
    ensures appended { Appended text.old.items text.new.items found result }
    ensures bound { OnOk result (vec_len text.new ≤ MOST_BYTES) }
    ensures more { IfOk result (λ next. IfSome next (λ begins. vec_len text.old < vec_len text.new)) }
{
    match found {
        Scanned::Byte(byte) => {
            push_byte(text, byte)?;
            Ok(Some(byte == b'\n'))
        }
        Scanned::Dot(byte) => {
            push_byte(text, b'.')?;
            push_byte(text, byte)?;
            Ok(Some(false))
        }
        Scanned::Stop | Scanned::End => Ok(None),
    }
}

/// Reads the file to its end, which is the line that is a full stop alone, or the end of the source. What was read behind it is ahead.
/// Each turn reads a byte of the file or ends.
#[tactic(auto, using(crate::proofs::Streams::read_first, crate::proofs::Streams::read_more, crate::proofs::Streams::read_whole, crate::proofs::Streams::read_long))]
fn read_on<S: Source>(
    alloc: Global,
    ahead: &mut ReadAhead,
    source: &mut S,
) -> Result<Vec<u8>, ReadEnd>
    ensures told { IfSome (coming ahead.old (S.left source.old)) (ReadsFile MOST_BYTES (coming ahead.new (S.left source.new)) result) }
    ensures bound { IfOk result (λ text. vec_len text ≤ MOST_BYTES) }
    ensures later { S.faults source.old ≤ S.faults source.new }
    ensures quiet { OnOk result (S.faults source.new ≡ S.faults source.old) }
    ensures quiet_long { IsErrOf result ReadEnd.TooLong → S.faults source.new ≡ S.faults source.old }
    ensures quiet_memory { IsErrOf result ReadEnd.Memory → S.faults source.new ≡ S.faults source.old }
    ensures fault { IsErrOf result ReadEnd.Fault → Rose (S.faults source.old) (S.faults source.new) }
{
    let mut text: Vec<u8> = Vec::new(alloc);
    let mut begins = true;
    for _ in 0..262146u32 {
        let Ok(found) = find(begins, ahead, source) else {
            return Err(ReadEnd::Fault);
        };
        match append(&mut text, found) {
            Ok(Some(next)) => begins = next,
            Ok(None) => return Ok(text),
            Err(end) => return Err(end),
        }
    }
    unreachable!()
}

/// Reads the file of a dialogue: what stands before the first line that is a full stop alone, or all that is left where there is
/// none. The bytes that were read behind it, at most 512, come first in the dialogue. A source that waits for a caller isn't asked for more once
/// that line was read.
///
/// It answers `TooLong` exactly where the file has more than 262,144 bytes, `Fault` only where the source's count of faults rose, which
/// else stands still, and `Memory` where memory ran out. Either of these two may come before the others.
#[tactic(auto, using(crate::proofs::Streams::read_front))]
pub fn read_file_text<S: Source>(
    alloc: Global,
    source: &mut S,
) -> Result<(Vec<u8>, ReadAhead), ReadEnd>
    ensures told { IfSome (S.left source.old) (ReadsFront MOST_BYTES (S.left source.new) result) }
    ensures bound { IfOk result (λ r. vec_len r.0 ≤ MOST_BYTES) }
    ensures few { IfOk result (λ r. length (ahead_of r.1) ≤ 512) }
    ensures later { S.faults source.old ≤ S.faults source.new }
    ensures quiet { OnOk result (S.faults source.new ≡ S.faults source.old) }
    ensures quiet_long { IsErrOf result ReadEnd.TooLong → S.faults source.new ≡ S.faults source.old }
    ensures quiet_memory { IsErrOf result ReadEnd.Memory → S.faults source.new ≡ S.faults source.old }
    ensures fault { IsErrOf result ReadEnd.Fault → Rose (S.faults source.old) (S.faults source.new) }
{
    let mut ahead = ReadAhead::none();
    match read_on(alloc, &mut ahead, source) {
        Ok(text) => {
            ahead.stays_small();
            Ok((text, ahead))
        }
        Err(end) => Err(end),
    }
}
