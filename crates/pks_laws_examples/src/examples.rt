//! Worked problems: what the definitions say of them, each computed and the clause of a function that does nothing.

ghost use Rattle.std.specs.Prelude.{◌≡◌, true, false, [], ◌∷◌, ◌++◌, codes};
ghost use Rattle.std.specs.declared.cmp.Ordering.TheVariants.{Less};
ghost use Rattle.pks_terms.specs.declared.codes.TheConstants.{ANSWER_MISSING, ANSWER_UNFIT};
ghost use Rattle.pks_terms.specs.Sets.{IsIn};
ghost use Rattle.pks_terms.specs.Syntax.{Object, Apply, negated};
ghost use Rattle.pks_terms.specs.Databases.{holds};
ghost use Rattle.pks_terms.specs.Closure.{round, Next, Clash, Closes};
ghost use Rattle.pks_terms.specs.Problems.{StartKf, initial};
ghost use Rattle.pks_terms.specs.Branching.{candidates, left, BranchOn, AsTrue, AsFalse};
ghost use Rattle.pks_terms.specs.Settling.{At, Stopped};
ghost use Rattle.pks_terms.specs.Aims.{met};
ghost use Rattle.pks_terms.specs.Trees.{Goal, Impossible, Do, Branch, cost, tree_cmp, Acts, Takes, IsPlan};
ghost use Rattle.pks_terms.specs.Valid.{is_literal, AreOf};
ghost use Rattle.pks_terms.specs.Knowledge.{AtGoal};
ghost use Rattle.pks_terms.specs.Printed.{body_text, refusal_text};
ghost use Rattle.pks_terms.specs.Jobs.{Checking, Planning, Running, Benching, all_modes, usage_text};
ghost use Rattle.pks_terms.specs.Recalled.{IsRecalled, recall_text};
ghost use Rattle.pks_terms.specs.Talk.{Over, Unfit, Missing, file_text, answers_in, stop_line, talk, talked_text, answer_refusal};
ghost use Rattle.pks_terms.specs.Shapes.{derived_text, derive_text};
ghost use Rattle.pks_terms.specs.Nodes.{IsShared, shared_text};
ghost use Rattle.pks_laws_examples.specs.Worked.{fact_of, equal, unequal, knowing, action, alive, pour, look, lawn, lawn_at_first, lawn_poured, lawn_looked, lawn_dead, lawn_living, lawn_plan, lawn_names, lawn_leaves, lawn_nodes, six_lines, safe_signature, safe_names, safe_plan, dial, key_in_hall, done, sweep, alias_open, alias_elsewhere, places_known, r, groups, groups_start, groups_denied, p, q, pair, one_moment, first_tub, second_tub, empty_all, splash, tubs, tubs_start, tubs_emptied, tubs_splashed, tubs_emptied_again, boxes, wrong_value, spot, crate_signature, crate_known, tolls};

/// After pouring from a can that may be poisoned it isn't known any more that the lawn is alive.
pub fn pouring_may_kill_the_lawn()
    ensures { Acts lawn lawn_at_first pour (At lawn_poured) }
{}

/// After looking it is known whether the lawn is alive.
pub fn looking_tells_whether_it_is_alive()
    ensures { Acts lawn lawn_poured look (At lawn_looked) }
{}

/// Where the lawn is seen dead, there was poison at every moment, the first included, and the lawn died of the pouring.
pub fn dead_lawn_was_poisoned()
    ensures { Takes lawn lawn_looked (BranchOn (alive ∷ [])) AsFalse (At lawn_dead) }
{}

/// Where it is seen alive, there was no poison at any moment.
pub fn living_lawn_was_not_poisoned()
    ensures { Takes lawn lawn_looked (BranchOn (alive ∷ [])) AsTrue (At lawn_living) }
{}

/// To pour and to look is a plan: on both sides it is known then whether there was poison.
pub fn lawn_has_a_plan()
    ensures { IsPlan lawn lawn_plan }
{}

/// The text of this plan.
pub fn lawn_plan_as_printed()
    ensures { body_text lawn_names [] lawn_plan ≡ codes "(pour)\n(look)\nbranch (alive)\ntrue\n  goal\nfalse\n  goal\n" }
{}

/// After sweeping a place that may be the hall it isn't known any more that the key is there, so the goal isn't met.
pub fn sweeping_may_take_the_key()
    ensures { Acts alias_open (one_moment (key_in_hall ∷ []) []) sweep (At (record { start = knowing (key_in_hall ∷ []) []; steps = (sweep, knowing (done ∷ []) []) ∷ [] })) × (met alias_open (record { start = knowing (key_in_hall ∷ []) []; steps = (sweep, knowing (done ∷ []) []) ∷ [] }) ≡ false) }
{}

/// Of two places the one that is swept isn't the hall, so it is the den.
pub fn place_that_is_not_the_hall_is_the_den()
    ensures { Closes alias_elsewhere.signature (initial alias_elsewhere) (Next (knowing (key_in_hall ∷ places_known) [])) }
{}

/// After sweeping a place that isn't the hall the key is known to be in the hall still.
pub fn sweeping_elsewhere_leaves_the_key()
    ensures { Acts alias_elsewhere (one_moment (key_in_hall ∷ places_known) []) sweep (At (record { start = knowing (key_in_hall ∷ places_known) []; steps = (sweep, knowing (key_in_hall ∷ done ∷ places_known) []) ∷ [] })) }
{}

/// So to sweep is a plan where the place is known not to be the hall.
pub fn alias_has_a_plan()
    ensures { IsPlan alias_elsewhere (Do sweep Goal) }
{}

/// With r true, x and y are the only members left of one group, which denies them both: a clash, named by r.
pub fn groups_clash()
    ensures { Takes groups (record { start = groups_start; steps = [] }) (BranchOn (r ∷ [])) AsTrue Stopped }
{}

/// With r false nothing more is known, and nothing clashes.
pub fn groups_without_r_do_not_clash()
    ensures { Takes groups (record { start = groups_start; steps = [] }) (BranchOn (r ∷ [])) AsFalse (At (record { start = groups_denied; steps = [] })) }
{}

/// To branch on r is a plan whose one side is impossible.
pub fn groups_have_a_plan()
    ensures { IsPlan groups (Branch (r ∷ []) Impossible Goal) }
{}

/// Where p is known, the pair of p and q denied denies q.
pub fn denied_pair_denies_the_one_unknown()
    ensures { Takes (pair (StartKf p ∷ [])) (one_moment (p ∷ []) ((p ∷ q ∷ []) ∷ [])) (BranchOn (p ∷ q ∷ [])) AsFalse (At (one_moment (p ∷ negated q ∷ []) [])) }
{}

/// Where neither is known, the pair denied denies neither.
pub fn denied_pair_of_unknowns_denies_neither()
    ensures { Takes (pair []) (one_moment [] ((p ∷ q ∷ []) ∷ [])) (BranchOn (p ∷ q ∷ [])) AsFalse (At (one_moment [] [])) }
{}

/// To empty all tubs and to splash is a plan for the second tub: the splash can fill the first tub alone.
pub fn tubs_have_a_plan()
    ensures { IsPlan (tubs second_tub) (Do empty_all (Do splash Goal)) }
{}

/// After the splash no tub is full but perhaps the first, of which nothing is known, so the goal for the first tub isn't met.
pub fn splashing_widens_the_list()
    ensures { Acts (tubs first_tub) (record { start = tubs_start; steps = (empty_all, tubs_emptied) ∷ [] }) splash (At (record { start = tubs_start; steps = (empty_all, tubs_emptied) ∷ (splash, tubs_splashed) ∷ [] })) × (met (tubs first_tub) (record { start = tubs_start; steps = (empty_all, tubs_emptied) ∷ (splash, tubs_splashed) ∷ [] }) ≡ false) }
{}

/// To empty all tubs once more is a plan for the first tub.
pub fn first_tub_has_a_plan()
    ensures { IsPlan (tubs first_tub) (Do empty_all (Do splash (Do empty_all Goal))) }
{}

/// Databases of a signature may say of a box that it is a thing which isn't one. A round then makes of what is true of the box a literal that isn't of the signature, and closing clashes.
pub fn wrong_values_leave_the_signature()
    ensures { AreOf boxes wrong_value × IsIn (fact_of 0 (Object 0)) (round boxes wrong_value).kf × (is_literal boxes [] (fact_of 0 (Object 0)) ≡ false) × Closes boxes wrong_value (Clash (equal (Object 1) (Object 0))) }
{}

/// What may stand for a thing is each object and the spot, which is a box; for a bag, the bag alone.
pub fn things_and_bags()
    ensures { (candidates crate_signature crate_known 0 ≡ Object 0 ∷ Object 1 ∷ Object 2 ∷ Apply 0 [] ∷ []) × (candidates crate_signature crate_known 2 ≡ Object 2 ∷ []) }
{}

/// The spot is known not to be the bag, and not known not to be a box.
pub fn boxes_are_left_as_the_spot()
    ensures { (holds crate_signature crate_known (unequal spot (Object 2)) ≡ true) × (holds crate_signature crate_known (unequal spot (Object 1)) ≡ false) × (left crate_signature crate_known spot ≡ 0 ∷ 1 ∷ []) }
{}

/// Of two boxes the spot isn't the first, so it is the second.
pub fn spot_that_is_not_one_box_is_the_other()
    ensures { Closes crate_signature (knowing (unequal spot (Object 0) ∷ []) []) (Next (knowing (unequal (Object 1) (Object 0) ∷ equal (Object 1) (Object 1) ∷ unequal spot (Object 0) ∷ equal spot (Object 1) ∷ []) [])) }
{}

/// Two steps that cost 2 and 1 are better than one that costs 9.
pub fn two_cheap_steps_beat_a_dear_one()
    ensures { (cost tolls (Do (action 1) (Do (action 2) Goal)) ≡ 3) × (tree_cmp (cost tolls) (Do (action 1) (Do (action 2) Goal)) (Do (action 0) Goal) ≡ Less) }
{}

/// At the ends of the plan for the lawn it is known of every moment whether it was alive and whether there was poison.
pub fn lawn_is_recalled()
    ensures { IsRecalled lawn lawn_plan lawn_leaves }
{}

/// This as text.
pub fn lawn_recall_as_printed()
    ensures { recall_text lawn_names lawn_leaves ≡ codes "leaf 1\nmoment 0\n(alive)\n(not (poison))\nmoment 1\n(alive)\n(not (poison))\nmoment 2\n(alive)\n(not (poison))\nleaf 2\nmoment 0\n(alive)\n(poison)\nmoment 1\n(not (alive))\n(poison)\nmoment 2\n(not (alive))\n(poison)\n" }
{}

/// A file stands before the line that is a full stop alone, and the answers behind it, an empty one too.
pub fn answers_stand_behind_the_stop()
    ensures { (file_text (codes "a\n..\n.\nb\n\nc") ≡ codes "a\n..\n") × (answers_in (codes "a\n..\n.\nb\n\nc") ≡ codes "b" ∷ [] ∷ codes "c" ∷ []) × (stop_line (codes "a\n..\n.\nb\n\nc") ≡ 3) }
{}

/// Without such a line all of the input is the file, its last line as it is, and there are no answers.
pub fn without_a_stop_there_are_no_answers()
    ensures { (file_text (codes "a\n.\r\nb") ≡ codes "a\n.\r\nb") × (answers_in (codes "a\n.\r\nb") ≡ []) × (stop_line (codes "a\n.\r\nb") ≡ 3) }
{}

/// The dialogue about the lawn, where it is answered that it isn't alive.
pub fn lawn_is_talked_about()
    ensures { (talked_text (talk lawn.signature lawn_names lawn_plan (codes "false" ∷ [])) ≡ codes "do (pour)\ndo (look)\ntest (alive)\ngoal\n") × ((talk lawn.signature lawn_names lawn_plan (codes "false" ∷ [])).end ≡ Over AtGoal) }
{}

/// An answer that is neither of the two isn't fit, and where the file has six lines it stands on line 8.
pub fn unfit_answer_ends_the_dialogue()
    ensures { (talked_text (talk lawn.signature lawn_names lawn_plan (codes "maybe" ∷ [])) ≡ codes "do (pour)\ndo (look)\ntest (alive)\n") × ((talk lawn.signature lawn_names lawn_plan (codes "maybe" ∷ [])).end ≡ Unfit 1)
        × (refusal_text (answer_refusal (six_lines ++ codes ".\nmaybe\n") 1 ANSWER_UNFIT) ≡ codes "refused 8:1 320\n") }
{}

/// So does a missing one, which would stand there.
pub fn missing_answer_ends_the_dialogue()
    ensures { (talked_text (talk lawn.signature lawn_names lawn_plan []) ≡ codes "do (pour)\ndo (look)\ntest (alive)\n") × ((talk lawn.signature lawn_names lawn_plan []).end ≡ Missing 1)
        × (refusal_text (answer_refusal (six_lines ++ codes ".\n") 1 ANSWER_MISSING) ≡ codes "refused 8:1 321\n") }
{}

/// The dialogue about the safe, whose combination is asked for before it is dialled.
pub fn safe_is_talked_about()
    ensures { (talked_text (talk safe_signature safe_names safe_plan (codes "c3" ∷ [])) ≡ codes "do (read)\nvalue (combo)\ndo (dial c3)\ngoal\n") × ((talk safe_signature safe_names safe_plan (codes "c6" ∷ [])).end ≡ Unfit 1) }
{}

/// What follows from the text of the lawn's actions.
pub fn lawn_is_derived()
    ensures { derive_text lawn_names ([] ∷ [] ∷ []) lawn ≡ codes "action pour\n(if ((k (poison))) (kf (not (alive))))\n(if ((kw (poison)) (kw (alive))) (kw (alive)))\naction look\n(kw (alive))\n" }
{}

/// What follows from dialling, with the name of its parameter.
pub fn dialling_is_derived()
    ensures { derived_text safe_names ([] ∷ (codes "x" ∷ []) ∷ []) (1, dial) ≡ codes "action dial\n(if ((k (= (combo) ?x))) (kf (open)))\n(if ((kw (= (combo) ?x)) (kw (open))) (kw (open)))\n" }
{}

/// The plan for the lawn has the goal on both sides, which is one node.
pub fn lawn_is_shared()
    ensures { IsShared lawn_plan lawn_nodes }
{}

/// This as text.
pub fn lawn_nodes_as_printed()
    ensures { shared_text lawn_names lawn_nodes ≡ codes "plan depth 3 nodes 4\n1 goal\n2 branch (alive) true 1 false 1\n3 (look) then 2\n4 (pour) then 3\n" }
{}

/// The usage line has the modes that a program has, in one order.
pub fn usage_has_the_modes()
    ensures { (usage_text (Benching ∷ Checking ∷ Planning ∷ Running ∷ []) ≡ codes "usage: pks check | plan DEPTH | exec DEPTH | bench N\n")
        × (usage_text all_modes ≡ codes "usage: pks check | plan DEPTH | exec DEPTH | bench N | recall DEPTH | agent DEPTH | explain DEPTH | derive | shared DEPTH\n") }
{}
