//! Dialogues over a peer in memory, through plans of files that are read and planned: what is told, which answers are taken and
//! which are left, and how a dialogue ends.
ghost use Rattle.std.specs.Prelude.{◌≤◌, IfOk};
ghost use Rattle.pks_terms.specs.Trees.{depth};
ghost use Rattle.pks_plan.specs.TreeViews.{tree_of};
ghost use Rattle.pks_reader.specs.Views.{IsWhole};

use crate::files::{DOOR, GROUPS, LAWN, SAFE};
use crate::rows::{Check, all_so};
use pks_agent::{Answer, Heard, MemPeer, Peer, PeerFault, Room, TalkEnd, converse};
use pks_exec::End;
use pks_plan::Tree;
use pks_reader::{InputFile, read_file};
use pks_run_answer::leads::{Lead, lead_about};
use pks_terms::limits::{LONGEST_LINE, MOST_BYTES};
use pks_terms::sequence::Sequence;
use std::alloc::{AllocError, Global};
use std::test::Fail;

/// There are cases for two of the three objects.
const VAULT: &str = "(pks 1)
(domain (types num) (objects (num c1 c2 c3)) (predicates (key num) (open)) (functions (combo num))
  (action press (params (?x num)) (pre (k (= (combo) ?x)) (k (key ?x))) (effects (set (open))) (knows (kf (open)))))
(problem (init (kv (combo)) (kf (key c1)) (kf (key c3)) (kf (not (= (combo) c2)))) (goal (k (open))))
";

/// An action with two arguments whose values are asked.
const PAIR: &str = "(pks 1)
(domain (types num) (objects (num c1 c2)) (predicates (turned num num)) (functions (left num) (right num))
  (action turn (params (?x num) (?y num)) (effects (set (turned ?x ?y))) (knows (kf (turned ?x ?y)))))
(problem (init (kv (left)) (kv (right))) (goal (k (turned (left) (right)))))
";

const BYTES_65: &str = "ccccccccccccccccccccccccccccccccccccccccccccccccccccccccccccccccc";

/// How a dialogue ends.
#[derive(Clone, Copy, PartialEq, Eq)]
enum Ending {
    Goal,
    Impossible,
    NoCase,
    Misfit(u32),
    Silent(u32),
    Send,
    Receive,
}

fn ended_by(ended: Result<End, TalkEnd>) -> Ending {
    match ended {
        Ok(End::Goal) => Ending::Goal,
        Ok(End::Impossible) => Ending::Impossible,
        Ok(End::NoCase) => Ending::NoCase,
        Err(TalkEnd::Misfit(k)) => Ending::Misfit(k),
        Err(TalkEnd::Silent(k)) => Ending::Silent(k),
        Err(TalkEnd::Failed(PeerFault::Send)) => Ending::Send,
        Err(TalkEnd::Failed(PeerFault::Receive)) => Ending::Receive,
    }
}

/// A file, a depth and the answers.
#[derive(Clone, Copy)]
struct Caller(&'static str, u8, &'static [&'static str]);

impl Caller {
    /// A peer that gives the answers, and fails at this call.
    fn peer(&self, alloc: Global, failing: u32) -> Result<MemPeer, AllocError> {
        let mut answers = Vec::new(alloc);
        for answer in self.2 {
            answers.push(answer.as_bytes().to_vec(alloc)?)?;
        }
        MemPeer::new(alloc, Sequence::of(answers), [failing].to_vec(alloc)?)
    }

    /// Leads the peer through the best plan of the file.
    fn lead(&self, alloc: Global, peer: &mut MemPeer) -> Result<Ending, Fail> {
        let f = read(alloc, self.0)?;
        let tree = best_plan(alloc, &f, self.1)?;
        let mut room = Room::new(alloc, &f.problem, &tree)?;
        Ok(ended_by(converse(&f.problem, &tree, peer, &mut room)))
    }
}

/// The file of this text.
fn read(alloc: Global, text: &str) -> Result<InputFile<'_>, Fail>
    ensures { IfOk result (λ f. IsWhole f) }
{
    if text.len() > MOST_BYTES {
        return Err(Fail::new("the file is too long"));
    }
    let Ok(f) = read_file(alloc, text.as_bytes()) else {
        return Err(Fail::new("the file is refused"));
    };
    Ok(f)
}

/// The best plan of a file.
fn best_plan(alloc: Global, f: &InputFile<'_>, limit: u8) -> Result<Tree, Fail>
    requires { IsWhole f.now }
    ensures { IfOk result (λ t. depth (tree_of t) ≤ 16) }
{
    if limit > 16 {
        return Err(Fail::new("the plan may be too deep"));
    }
    match lead_about(alloc, limit, f)? {
        Lead::Plan(tree) => Ok(tree),
        Lead::NoPlan(_) => Err(Fail::new("there is no plan")),
        Lead::Refused(_) => Err(Fail::new("the file isn't accepted")),
    }
}

/// Whether exactly these answers are left; behind one of more than 64 bytes nothing is heard.
fn leaves(peer: &mut MemPeer, answers: &[&str]) -> bool {
    let mut answer = Answer::empty();
    let heard = peer.ask(b"", &mut answer);
    match answers {
        [] => heard == Ok(Heard::End),
        [first, rest @ ..] => match heard {
            Ok(Heard::Long) => first.len() > 64 && rest.is_empty(),
            Ok(Heard::Line) => answer.text() == first.as_bytes() && leaves(peer, rest),
            _ => false,
        },
    }
}

/// A dialogue: what is told, how that ends, and which answers are left.
struct Dialogue {
    caller: Caller,
    text: &'static str,
    end: Ending,
    left: &'static [&'static str],
}

impl Check for Dialogue {
    fn is_so(&self, alloc: Global) -> Result<bool, Fail> {
        let mut peer = self.caller.peer(alloc, 0)?;
        let end = self.caller.lead(alloc, &mut peer)?;
        let told = peer.text() == self.text.as_bytes();
        Ok(told && end == self.end && leaves(&mut peer, self.left))
    }
}

const SAFE_TEXT: &str = "do (read)\nvalue (combo)\ndo (dial c3)\ngoal\n";

const SAFE_FRONT: &str = "do (read)\nvalue (combo)\n";

const LAWN_TEXT: &str = "do (pour)\ndo (look)\ntest (alive)\ngoal\n";

const LAWN_FRONT: &str = "do (pour)\ndo (look)\ntest (alive)\n";

const LED: &[Dialogue] = &[
    Dialogue {
        caller: Caller(SAFE, 2, &["c3"]),
        text: SAFE_TEXT,
        end: Ending::Goal,
        left: &[],
    },
    Dialogue {
        caller: Caller(SAFE, 2, &["c3", "c4", BYTES_65]),
        text: SAFE_TEXT,
        end: Ending::Goal,
        left: &["c4", BYTES_65],
    },
    Dialogue {
        caller: Caller(SAFE, 2, &[]),
        text: SAFE_FRONT,
        end: Ending::Silent(1),
        left: &[],
    },
    Dialogue {
        caller: Caller(SAFE, 2, &["", "c3"]),
        text: SAFE_FRONT,
        end: Ending::Misfit(1),
        left: &["c3"],
    },
    Dialogue {
        caller: Caller(SAFE, 2, &["true"]),
        text: SAFE_FRONT,
        end: Ending::Misfit(1),
        left: &[],
    },
    Dialogue {
        caller: Caller(SAFE, 2, &[BYTES_65]),
        text: SAFE_FRONT,
        end: Ending::Misfit(1),
        left: &[BYTES_65],
    },
    Dialogue {
        caller: Caller(LAWN, 3, &["false"]),
        text: LAWN_TEXT,
        end: Ending::Goal,
        left: &[],
    },
    Dialogue {
        caller: Caller(LAWN, 3, &["true", "false"]),
        text: LAWN_TEXT,
        end: Ending::Goal,
        left: &["false"],
    },
    Dialogue {
        caller: Caller(LAWN, 3, &["maybe"]),
        text: LAWN_FRONT,
        end: Ending::Misfit(1),
        left: &[],
    },
    Dialogue {
        caller: Caller(LAWN, 3, &[]),
        text: LAWN_FRONT,
        end: Ending::Silent(1),
        left: &[],
    },
];

#[test]
fn answers_lead_through_plans(rt: HostRuntime) -> Result<(), Fail> {
    all_so(rt.alloc(), LED)
}

const ENDED: &[Dialogue] = &[
    Dialogue {
        caller: Caller(DOOR, 0, &["c1"]),
        text: "goal\n",
        end: Ending::Goal,
        left: &["c1"],
    },
    Dialogue {
        caller: Caller(GROUPS, 1, &["true", "false"]),
        text: "test (r)\nimpossible\n",
        end: Ending::Impossible,
        left: &["false"],
    },
    Dialogue {
        caller: Caller(VAULT, 2, &["c3"]),
        text: "value (combo)\ndo (press c3)\ngoal\n",
        end: Ending::Goal,
        left: &[],
    },
    Dialogue {
        caller: Caller(VAULT, 2, &["c2", "c3"]),
        text: "value (combo)\nno case\n",
        end: Ending::NoCase,
        left: &["c3"],
    },
    Dialogue {
        caller: Caller(PAIR, 1, &["c2", "c1"]),
        text: "value (left)\nvalue (right)\ndo (turn c2 c1)\ngoal\n",
        end: Ending::Goal,
        left: &[],
    },
    Dialogue {
        caller: Caller(PAIR, 1, &["c2", "c3", "c1"]),
        text: "value (left)\nvalue (right)\n",
        end: Ending::Misfit(2),
        left: &["c1"],
    },
    Dialogue {
        caller: Caller(PAIR, 1, &["c2"]),
        text: "value (left)\nvalue (right)\n",
        end: Ending::Silent(2),
        left: &[],
    },
];

#[test]
fn dialogues_end_at_each_leaf(rt: HostRuntime) -> Result<(), Fail> {
    all_so(rt.alloc(), ENDED)
}

const SAFE_CALLER: Caller = Caller(SAFE, 2, &["c3"]);

/// The call that fails in a dialogue with the safe, how many calls were made before, and how it ends with which text.
struct Broken(u32, usize, Ending, &'static str);

impl Check for Broken {
    fn is_so(&self, alloc: Global) -> Result<bool, Fail> {
        let mut peer = SAFE_CALLER.peer(alloc, self.0)?;
        let mut wanted = Vec::new(alloc);
        for _ in 0..self.1 {
            let _ = peer.tell(b"");
            wanted.push(b'\n')?;
        }
        wanted.extend_from_slice(self.3.as_bytes())?;
        let end = SAFE_CALLER.lead(alloc, &mut peer)?;
        Ok(end == self.2 && peer.text() == wanted.as_slice())
    }
}

const AT_EACH_CALL: &[Broken] = &[
    Broken(1, 0, Ending::Send, ""),
    Broken(2, 0, Ending::Receive, "do (read)\n"),
    Broken(3, 0, Ending::Send, SAFE_FRONT),
    Broken(
        4,
        0,
        Ending::Send,
        "do (read)\nvalue (combo)\ndo (dial c3)\n",
    ),
    Broken(5, 0, Ending::Goal, SAFE_TEXT),
    Broken(0, 92, Ending::Goal, SAFE_TEXT),
    Broken(
        0,
        93,
        Ending::Send,
        "do (read)\nvalue (combo)\ndo (dial c3)\n",
    ),
    Broken(0, 94, Ending::Send, SAFE_FRONT),
    Broken(0, 95, Ending::Receive, "do (read)\n"),
    Broken(0, 96, Ending::Send, ""),
];

#[test]
fn peers_fail_at_the_listed_call_and_behind_the_last(rt: HostRuntime) -> Result<(), Fail> {
    all_so(rt.alloc(), AT_EACH_CALL)
}

/// Whether a line of so many bytes is said, and one more is too much to tell and to ask, and leaves the text and the answer.
fn says_at_most(alloc: Global, bytes: usize) -> Result<bool, AllocError> {
    let mut peer = SAFE_CALLER.peer(alloc, 0)?;
    let mut text = Vec::new(alloc);
    for _ in 0..bytes {
        text.push(b'a')?;
    }
    let told = peer.tell(&text);
    text.push(b'a')?;
    let mut answer = Answer::empty();
    let untold = peer.tell(&text);
    let unasked = peer.ask(&text, &mut answer);
    Ok(
        told == Ok(())
            && untold == Err(PeerFault::Send)
            && unasked == Err(PeerFault::Receive)
            && peer.text().len() == text.len()
            && leaves(&mut peer, &["c3"]),
    )
}

#[test]
fn peers_say_lines_of_at_most_8192_bytes(rt: HostRuntime) -> Result<(), Fail> {
    assert!(rt; says_at_most(rt.alloc(), LONGEST_LINE)?);
    Ok(())
}
