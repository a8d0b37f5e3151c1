// Dialogues: a caller is led through the best plan by its answers.
ghost use Rattle.std.specs.Prelude.{◌≡◌, ◌⊎◌, ◌≤◌, Some, IfSome, OnOk, OnErr, length};
ghost use Rattle.std.specs.List.{flat_map};
ghost use Rattle.std.specs.Io.KnownBytes.{Appends};
ghost use Rattle.pks_terms.specs.declared.limits.TheConstants.{MOST_BYTES};
ghost use Rattle.pks_io.specs.Causes.{HasCause};
ghost use Rattle.pks_io.specs.Writing.{AppendsFront};
ghost use Rattle.pks_terms.specs.Answers.{Reading, ReadAs, RefusesFile, NoneApplies};
ghost use Rattle.pks_terms.specs.Jobs as jobs;
ghost use Rattle.pks_terms.specs.Printed.{Text};
ghost use Rattle.pks_terms.specs.Trees.{IsBest};
ghost use Rattle.pks_plan.specs.TreeViews.{tree_of};
ghost use Rattle.pks_agent.specs.Streams.{coming, HasFile};
ghost use Rattle.pks_reader.specs.Inputs.{Reads, IsRead};
ghost use Rattle.pks_reader.specs.Views.{file_of, IsWhole};
ghost use Rattle.pks_run.specs.Answer.{LeadsFront};
ghost use Rattle.pks_run.specs.Leads.{HasCauses, line_refused, WritesRefusal, Concludes, Converses, Leads};
ghost use Rattle.pks_run.specs.Opening.{OpensAs};
ghost use Rattle.pks_run.specs.declared.status.Status.{Status};

use crate::answer::{Opened, open, too_long};
use crate::send::send;
use crate::status::Status;
use itoa::Buffer;
use pks_agent::{PeerFault, ReadAhead, Room, TalkEnd, converse_over, read_file_text};
use pks_exec::End;
use pks_io::{ReadEnd, Sink, SinkFailed, Source, write_all};
use pks_plan::Tree;
use pks_reader::InputFile;
use pks_run_answer::leads::{Lead, lead_about};
use pks_run_answer::line::refusal_parts;
use pks_terms::codes::{ANSWER_MISSING, ANSWER_UNFIT};
use pks_text::line_column_behind;
use std::alloc::Global;

// Writes the parts of a line.
fn write_parts<K: Sink>(sink: &mut K, parts: &[&[u8]]) -> Result<(), SinkFailed>
    ensures ok { OnOk result (Appends (K.written sink.old) (K.written sink.new) (flat_map (λ part. part.now) parts.now)) }
    ensures err { OnErr result (AppendsFront (K.written sink.old) (K.written sink.new) (flat_map (λ part. part.now) parts.now)) }
    ensures cause { HasCause (K.faults sink.old) (K.faults sink.new) result }
    ensures quiet { OnOk result (K.faults sink.new ≡ K.faults sink.old) }
{
    match parts {
        [] => Ok(()),
        [part, rest @ ..] => match write_all(sink, part) {
            Ok(()) => write_parts(sink, rest),
            Err(failed) => Err(failed),
        },
    }
}

// Refuses the answer at this line, and takes no memory.
fn refuse<K: Sink>(sink: &mut K, line: u64, code: u16) -> Status
    ensures { WritesRefusal (line_refused line code) (K.written sink.old) (K.written sink.new) (K.faults sink.old) (K.faults sink.new) result }
{
    let mut place = Buffer::new();
    let mut number = Buffer::new();
    let parts = refusal_parts(place.format(line), "1", number.format(code), "");
    match write_parts(sink, &parts) {
        Ok(()) => Status::Refused,
        Err(_) => Status::WriteFault,
    }
}

// How the call ends where its dialogue ended so, the full stop being on line `stop`.
fn conclude<K: Sink>(ended: Result<End, TalkEnd>, stop: u32, sink: &mut K) -> Status
    ensures { Concludes ended stop (K.written sink.old) (K.written sink.new) (K.faults sink.old) (K.faults sink.new) result }
{
    match ended {
        Ok(_) => Status::Done,
        Err(TalkEnd::Misfit(k)) => refuse(sink, u64::from(stop) + u64::from(k), ANSWER_UNFIT),
        Err(TalkEnd::Silent(k)) => refuse(sink, u64::from(stop) + u64::from(k), ANSWER_MISSING),
        Err(TalkEnd::Failed(PeerFault::Send)) => Status::WriteFault,
        Err(TalkEnd::Failed(PeerFault::Receive)) => Status::ReadFault,
    }
}

// What a dialogue begins with: how deep its plan may be, the text of its file, and what was read behind that.
#[derive(Drop)]
struct Opening<'t> {
    depth: u8,
    text: &'t [u8],
    ahead: ReadAhead,
}

// Leads the caller through the plan.
fn lead_through<S: Source, K: Sink>(
    alloc: Global,
    opening: Opening<'_>,
    f: &InputFile<'_>,
    t: &Tree,
    source: &mut S,
    sink: &mut K,
) -> Status
    requires short { length opening.text.now ≤ MOST_BYTES }
    requires whole { IsWhole f.now }
    requires depth { opening.depth ≤ 16 }
    requires read { IsRead opening.text.now (file_of f.now) }
    requires one { (x : Reading) → Reads opening.text.now x → x ≡ ReadAs (file_of f.now) }
    requires fine { NoneApplies (RefusesFile (jobs.Agent opening.depth) (file_of f.now)) }
    requires best { IsBest (file_of f.now).problem opening.depth (Some (tree_of t.now)) }
    ensures told { (input : Text) → HasFile input (coming opening.entry.ahead (S.left source.old)) opening.entry.text.now → Converses opening.entry.depth input (K.written sink.old) (K.written sink.new) (S.left source.new) result }
    ensures causes { HasCauses (S.faults source.old) (S.faults source.new) (K.faults sink.old) (K.faults sink.new) result }
    ensures kind { result ≡ Status.Words → ⊥ }
    ensures memory { result ≡ Status.Memory → sink.new ≡ sink.old }
{
    let Opening { text, ahead, .. } = opening;
    let (stop, _column) = line_column_behind(text);
    match Room::new(alloc, &f.problem, t) {
        Ok(mut room) => {
            let ended = converse_over(&f.problem, t, ahead, source, sink, &mut room);
            conclude(ended, stop, sink)
        }
        Err(_) => Status::Memory,
    }
}

// Leads the caller through the best plan of the file, where it is accepted and has one.
fn lead_file<S: Source, K: Sink>(
    alloc: Global,
    opening: Opening<'_>,
    f: &InputFile<'_>,
    source: &mut S,
    sink: &mut K,
) -> Status
    requires short { length opening.text.now ≤ MOST_BYTES }
    requires whole { IsWhole f.now }
    requires depth { opening.depth ≤ 16 }
    requires read { IsRead opening.text.now (file_of f.now) }
    requires one { (x : Reading) → Reads opening.text.now x → x ≡ ReadAs (file_of f.now) }
    ensures told { (input : Text) → HasFile input (coming opening.entry.ahead (S.left source.old)) opening.entry.text.now → Converses opening.entry.depth input (K.written sink.old) (K.written sink.new) (S.left source.new) result }
    ensures causes { HasCauses (S.faults source.old) (S.faults source.new) (K.faults sink.old) (K.faults sink.new) result }
    ensures kind { result ≡ Status.Words → ⊥ }
    ensures memory { result ≡ Status.Memory → sink.new ≡ sink.old }
{
    match lead_about(alloc, opening.depth, f) {
        Ok(Lead::Plan(t)) => lead_through(alloc, opening, f, &t, source, sink),
        Ok(Lead::NoPlan(line)) => send(sink, &line, Status::NoPlan),
        Ok(Lead::Refused(line)) => send(sink, &line, Status::Refused),
        Err(_) => Status::Memory,
    }
}

// Leads the caller through the best plan of a text of which it is known what it is as an input.
fn lead_input<S: Source, K: Sink>(
    alloc: Global,
    opening: Opening<'_>,
    opened: &Opened<'_>,
    source: &mut S,
    sink: &mut K,
) -> Status
    requires short { length opening.text.now ≤ MOST_BYTES }
    requires depth { opening.depth ≤ 16 }
    requires opens { OpensAs opening.text.now opened.now }
    ensures told { (input : Text) → HasFile input (coming opening.entry.ahead (S.left source.old)) opening.entry.text.now → Converses opening.entry.depth input (K.written sink.old) (K.written sink.new) (S.left source.new) result }
    ensures causes { HasCauses (S.faults source.old) (S.faults source.new) (K.faults sink.old) (K.faults sink.new) result }
    ensures kind { result ≡ Status.Words → ⊥ }
    ensures memory { result ≡ Status.Memory → sink.new ≡ sink.old }
{
    match opened {
        Opened::File(f) => lead_file(alloc, opening, f, source, sink),
        Opened::Refused(line) => send(sink, line.as_slice(), Status::Refused),
    }
}

// Leads the caller through the best plan of the text.
fn lead_text<S: Source, K: Sink>(
    alloc: Global,
    depth: u8,
    text: &[u8],
    ahead: ReadAhead,
    source: &mut S,
    sink: &mut K,
) -> Status
    requires short { length text.now ≤ MOST_BYTES }
    requires depth { depth ≤ 16 }
    ensures told { (input : Text) → HasFile input (coming ahead (S.left source.old)) text.now → Converses depth input (K.written sink.old) (K.written sink.new) (S.left source.new) result }
    ensures causes { HasCauses (S.faults source.old) (S.faults source.new) (K.faults sink.old) (K.faults sink.new) result }
    ensures kind { result ≡ Status.Words → ⊥ }
    ensures memory { result ≡ Status.Memory → sink.new ≡ sink.old }
{
    match open(alloc, text) {
        Ok(opened) => {
            let opening = Opening { depth, text, ahead };
            lead_input(alloc, opening, &opened, source, sink)
        }
        Err(_) => Status::Memory,
    }
}

// Reads the file up to its full stop, and leads the caller through its best plan to this depth.
#[tactic(auto, using(crate::proofs::Sending::memory_led_any, crate::proofs::Sending::unread_led_any))]
pub fn lead<S: Source, K: Sink>(alloc: Global, depth: u8, source: &mut S, sink: &mut K) -> Status
    requires { depth ≤ 16 }
    ensures told { IfSome (S.left source.old) (λ input. Leads depth input (K.written sink.old) (K.written sink.new) (S.left source.new) result) }
    ensures read_fault { result ≡ Status.ReadFault → (sink.new ≡ sink.old) ⊎ IfSome (S.left source.old) (λ input. LeadsFront depth input (K.written sink.old) (K.written sink.new)) }
    ensures causes { HasCauses (S.faults source.old) (S.faults source.new) (K.faults sink.old) (K.faults sink.new) result }
    ensures kind { result ≡ Status.Words → ⊥ }
    ensures memory { result ≡ Status.Memory → sink.new ≡ sink.old }
{
    match read_file_text(alloc, source) {
        Ok((text, ahead)) => lead_text(alloc, depth, &text, ahead, source, sink),
        Err(ReadEnd::TooLong) => match too_long(alloc) {
            Ok(line) => send(sink, &line, Status::Refused),
            Err(_) => Status::Memory,
        },
        Err(ReadEnd::Fault) => Status::ReadFault,
        Err(ReadEnd::Memory) => Status::Memory,
    }
}
