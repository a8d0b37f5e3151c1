//! The laws of accepted files, each the clause of a function that does nothing.
ghost use Rattle.std.specs.Prelude.{◌≡◌, ◌≤◌, [], List, Result, Err};
ghost use Rattle.pks_terms.specs.Answers.{File, IsAccepted};
ghost use Rattle.pks_terms.specs.Jobs.{Job};
ghost use Rattle.pks_terms.specs.Printed.{Text};
ghost use Rattle.pks_terms.specs.Talk.{talk};
ghost use Rattle.pks_terms.specs.Trees.{Tree, IsPlan, depth};
ghost use Rattle.pks_exec.specs.declared.runs.End.{End};
ghost use Rattle.pks_agent.specs.Bounds.{IsShortTalk, HasShortNames, HasSmallFormulas};
ghost use Rattle.pks_agent.specs.Leading.{IsSafe};
ghost use Rattle.pks_agent.specs.Memory.{peer_failing, peer_calls, peer_sure, peer_answers};
ghost use Rattle.pks_agent.specs.declared.memory.MemPeer.{MemPeer};
ghost use Rattle.pks_agent.specs.declared.peers.PeerFault.{PeerFault};
ghost use Rattle.pks_agent.specs.declared.ends.TalkEnd.{TalkEnd};
ghost use Rattle.pks_reader.specs.Inputs.{Reads, IsRead};

/// No name of a text that is read has more than 64 bytes.
pub fn names_of_read_texts_are_short()
    ensures { (text : Text) (f : File) → IsRead text f → HasShortNames f.names }
{}

/// No formula whose truth such a text says is known, at the start or by an add, has more than four literals.
pub fn formulas_of_read_texts_are_small()
    ensures { (text : Text) (f : File) → IsRead text f → HasSmallFormulas f.problem }
{}

/// Whatever is answered, a dialogue of a plan of depth at most 16 of an accepted file asks at most 64 questions and has at most 81 lines,
/// each of at most 8,192 bytes.
pub fn dialogues_of_accepted_files_are_short()
    ensures { (j : Job) (input : Text) (f : File) (t : Tree) (answers : List Text) → IsAccepted Reads j input f → IsPlan f.problem t → depth t ≤ 16 →
        IsShortTalk (talk f.problem.signature f.names t answers) }
{}

/// So over a peer in memory that lists no failing call, and of which at most 15 calls were made, such a dialogue never ends by `Failed`, by
/// what `converse` says of it.
pub fn dialogues_of_accepted_files_do_not_fail()
    ensures { (j : Job) (input : Text) (f : File) (t : Tree) (x : MemPeer) (result : Result End TalkEnd) → IsAccepted Reads j input f → IsPlan f.problem t → depth t ≤ 16 →
        peer_failing x ≡ [] → peer_calls x ≤ 15 → IsSafe (peer_sure x) result (talk f.problem.signature f.names t (peer_answers x)) → (fault : PeerFault) → result ≡ Err (TalkEnd.Failed fault) → ⊥ }
{}
