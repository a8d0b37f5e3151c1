//! The laws, each the clause of a function that does nothing. `docs/RULES.md` has the rules on closing and progression.

ghost use Rattle.std.specs.Prelude.{◌≡◌, ℕ, true, false, not, List, None};
ghost use Rattle.std.specs.List.{filter, filter_map, list_any};
ghost use Rattle.pks_terms.specs.Sets.{Each, IsIn, IsOrdered, added, insert_in, set_of};
ghost use Rattle.pks_terms.specs.Syntax.{Literal, negated};
ghost use Rattle.pks_terms.specs.Orders.{literal_cmp};
ghost use Rattle.pks_terms.specs.Signatures.{Signature, HasValues};
ghost use Rattle.pks_terms.specs.Databases.{Five, entry_cmp, holds};
ghost use Rattle.pks_terms.specs.Closure.{additions, round, rounds, tidied, first_clash, Outcome, Closes, IsClosed, Next};
ghost use Rattle.pks_terms.specs.Actions.{Effect};
ghost use Rattle.pks_terms.specs.Spoiling.{spoils};
ghost use Rattle.pks_terms.specs.Progress.{is_untouched, kept_entry};
ghost use Rattle.pks_terms.specs.Saturated.{IsSaturated};
ghost use Rattle.pks_terms.specs.Moments.{IsInOrder};
ghost use Rattle.pks_laws_progress.specs.Following.{Follows, IsImplied};
ghost use Rattle.pks_laws_progress.specs.Loose.{bring_nothing};

/// The rules add nothing to what effects leave of closed databases with equations in order, and nothing clashes there: of
/// the literals those that aren't spoiled, of the groups the untouched ones, of the regions those that last.
pub fn what_actions_keep_is_closed()
    ensures { (s : Signature) (d k : Five) (es : List Effect) → HasValues s → IsClosed s d → Each IsInOrder d.kf → k.kf ≡ filter (λ l. not (spoils s d es l)) d.kf → k.kx ≡ filter (is_untouched s d es) d.kx → k.lcw ≡ set_of entry_cmp (filter_map (kept_entry s d es) d.lcw) → IsSaturated s k × (first_clash s k ≡ None) }
{}

/// What the rules add to what follows from databases is implied by them.
pub fn additions_are_implied()
    ensures { (s : Signature) (d a : Five) (l : Literal) → HasValues s → Follows s d a → IsIn l (additions s a) → IsImplied s d l }
{}

/// With one more literal that is implied all follows still.
pub fn implied_literals_follow()
    ensures { (s : Signature) (d a : Five) (l : Literal) → Follows s d a → IsImplied s d l → Follows s d (record a { kf = insert_in literal_cmp l a.kf }) }
{}

/// Databases close to what rounds make of all that follows from them, where these end without a clash.
pub fn what_follows_closes_alike()
    ensures { (s : Signature) (d a e : Five) (n : ℕ) → HasValues s → IsOrdered literal_cmp d.kf → IsOrdered literal_cmp a.kf → Follows s d a → e ≡ rounds s n a → round s e ≡ e → first_clash s e ≡ None → Closes s d (Next (tidied e)) }
{}

/// The rules add nothing, and nothing clashes, where literals are put into databases of which both are so, if each was known
/// or says or denies at objects a predicate that is in no group, and none is then derived false.
pub fn loose_literals_bring_nothing()
    ensures { (s : Signature) (k e : Five) (ls : List Literal) → HasValues s → IsSaturated s k → first_clash s k ≡ None → IsOrdered literal_cmp k.kf → e.kf ≡ added literal_cmp k.kf ls → e.kx ≡ k.kx → e.lcw ≡ k.lcw → bring_nothing k.kf k.kx ls ≡ true → list_any (λ l. holds s e (negated l)) ls ≡ false → IsSaturated s e × (first_clash s e ≡ None) }
{}

/// Closing comes to an end, by whatever signature, where the known literals are in order: there is an outcome.
pub fn closing_comes_to_an_end()
    ensures { (s : Signature) (d : Five) → IsOrdered literal_cmp d.kf → (o : Outcome) × Closes s d o }
{}
