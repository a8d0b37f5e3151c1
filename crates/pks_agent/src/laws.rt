//! The laws of dialogues, each the clause of a function that does nothing.
ghost use Rattle.std.specs.Prelude.{◌≡◌, ◌≤◌, [], List, ◌++◌, Option, Result, Err};
ghost use Rattle.pks_terms.specs.Answers.{unjustified};
ghost use Rattle.pks_terms.specs.Handed.{IsTreeOf};
ghost use Rattle.pks_terms.specs.Knowledge.{AtGoal, Good, run_of};
ghost use Rattle.pks_terms.specs.Meaning.{IsWorld};
ghost use Rattle.pks_terms.specs.Printed.{Text, Names};
ghost use Rattle.pks_terms.specs.Problems.{Problem, IsCompatible};
ghost use Rattle.pks_terms.specs.Signatures.{Signature};
ghost use Rattle.pks_terms.specs.Talk.{Talked, talk, talked_text, Over, world_answers, statements, run_statements};
ghost use Rattle.pks_terms.specs.Trees.{Tree, IsPlan, depth};
ghost use Rattle.pks_terms.specs.Valid.{IsValid};
ghost use Rattle.pks_terms.specs.Worlds.{World};
ghost use Rattle.pks_plan.specs.Naming.{AreNamesOf};
ghost use Rattle.pks_exec.specs.declared.runs.End.{End};
ghost use Rattle.pks_agent.specs.Leading.{Led, IsSafe};
ghost use Rattle.pks_agent.specs.Memory.{peer_failing, peer_calls, peer_sure};
ghost use Rattle.pks_agent.specs.declared.memory.MemPeer.{MemPeer};
ghost use Rattle.pks_agent.specs.declared.peers.PeerFault.{PeerFault};
ghost use Rattle.pks_agent.specs.declared.ends.TalkEnd.{TalkEnd};
ghost use Rattle.pks_agent.specs.Along.{AreShort, LeadsAlong};
ghost use Rattle.pks_agent.specs.Bounds.{IsWithin, IsShortTalk, HasShortNames, HasSmallTests, HasSmallFormulas, Begins, StandFirst};
ghost use Rattle.pks_agent.specs.Fitting.{IsFront, ComesOfFit, TakesFit};

/// Where the answers are what is so in a world, the actions that are told and the end are those of the run in it.
pub fn answers_of_a_world_lead_along_its_run()
    ensures { (p : Problem) (names : Names) (t : Tree) (w : World) → IsValid p → AreNamesOf p names → AreShort names → IsTreeOf p t → IsWorld p.signature w → LeadsAlong p names t w }
{}

/// A plan is so led to its goal in each compatible world, and the agent knows what it is asked for: at each action the value of each
/// argument, at each branch the truth, at cases the value.
pub fn plans_are_led_to_the_goal_by_what_is_known()
    ensures { (p : Problem) (names : Names) (t : Tree) (w : World) → IsValid p → AreNamesOf p names → AreShort names → unjustified p ≡ [] → IsPlan p t → IsCompatible p w →
        LeadsAlong p names t w × Good p t w × ((rest : List Text) → (talk p.signature names t (world_answers p names t w ++ rest)).end ≡ Over AtGoal) }
{}

/// Whatever is answered, a dialogue of a plan of depth at most 16 asks at most 64 questions and has at most 81 lines.
pub fn dialogues_of_plans_have_few_lines()
    ensures { (p : Problem) (names : Names) (t : Tree) (answers : List Text) → IsValid p → IsPlan p t → depth t ≤ 16 → IsWithin (λ _. Unit {0}) 64 81 (talk p.signature names t answers) }
{}

/// And each of its lines has at most 8,192 bytes, where no name has more than 64 and no formula that is asked for more than four literals.
pub fn dialogues_of_plans_have_short_lines()
    ensures { (p : Problem) (names : Names) (t : Tree) (answers : List Text) → IsValid p → HasShortNames names → IsPlan p t → HasSmallTests t → depth t ≤ 16 → IsShortTalk (talk p.signature names t answers) }
{}

/// No formula that a plan asks for has more than four literals, where none has of those whose truth the problem says is known.
pub fn plans_of_small_formulas_have_small_tests()
    ensures { (p : Problem) (t : Tree) → HasSmallFormulas p → IsPlan p t → HasSmallTests t }
{}

/// A dialogue that is given more answers tells the same lines first.
pub fn more_answers_keep_what_was_told()
    ensures { (p : Problem) (names : Names) (t : Tree) (given more : List Text) → Begins (talk p.signature names t given) (talk p.signature names t (given ++ more)) }
{}

/// Where the first answers of a compatible world were given, and no others, what was told is a beginning of the actions and the end of the
/// run of the plan in it, which is good.
pub fn what_was_told_begins_a_good_run()
    ensures { (p : Problem) (names : Names) (t : Tree) (w : World) → IsValid p → AreNamesOf p names → AreShort names → unjustified p ≡ [] → IsPlan p t → IsCompatible p w → (given more : List Text) →
        given ++ more ≡ world_answers p names t w → Good p t w × StandFirst (statements (talk p.signature names t given)) (run_statements names (run_of p t w)) }
{}

/// What was told of a dialogue, or a front of it, comes of the first answers, each of which was fit and asked for in it by a whole line: it is
/// the lines of the dialogue with these answers alone, or a front of them. The others change nothing of it.
pub fn lines_come_of_fit_answers()
    ensures { (s : Signature) (names : Names) (t : Tree) (answers : List Text) (text : Text) → IsFront text (talked_text (talk s names t answers)) → (fit : List Text) × ComesOfFit s names t answers fit text }
{}

/// However a dialogue was led, what was said comes of the first answers, each of which was fit, and behind them these are left: all others, but for
/// one that is refused, of which the end may be left where it has more than 64 bytes; where receiving failed it isn't known which.
pub fn answers_behind_the_fit_ones_are_left()
    ensures { (s : Signature) (names : Names) (t : Tree) (answers : List Text) (old new : Option Text) (left : Option (List Text)) (result : Result End TalkEnd) → Led old new answers left result (talk s names t answers) →
        TakesFit s names t answers old new left result }
{}

/// Where a compatible world begins with these answers, the actions and the end that are told by them begin those of the run of the plan in
/// it, which is good.
pub fn fit_answers_begin_a_run()
    ensures { (p : Problem) (names : Names) (t : Tree) (w : World) → IsValid p → AreNamesOf p names → AreShort names → unjustified p ≡ [] → IsPlan p t → IsCompatible p w → (answers fit : List Text) (text : Text) →
        ComesOfFit p.signature names t answers fit text → StandFirst fit (world_answers p names t w) → Good p t w × StandFirst (statements (talk p.signature names t fit)) (run_statements names (run_of p t w)) }
{}

/// A peer in memory that lists no failing call, and of which at most 15 calls were made, fails in no such dialogue, by what `converse`
/// says of it.
pub fn dialogues_in_memory_do_not_fail()
    ensures { (x : MemPeer) (result : Result End TalkEnd) (talked : Talked) → peer_failing x ≡ [] → peer_calls x ≤ 15 → IsShortTalk talked → IsSafe (peer_sure x) result talked → (fault : PeerFault) → result ≡ Err (TalkEnd.Failed fault) → ⊥ }
{}
