//! The laws, each the clause of a function that does nothing. The rules of meaning are in `docs/FORMAT.md`, valid problems in `docs/RULES.md`.

ghost use Rattle.std.specs.Prelude.{◌≡◌, ℕ, true, [], None};
ghost use Rattle.pks_terms.specs.Valid.{is_term, is_pattern, IsLiteralText, IsConjText, IsPlainText, AreQueries, IsTargetText, IsSenseText, IsItemText, IsSchemaText, IsStartText, IsValidSignature, IsValid};
ghost use Rattle.pks_terms.specs.Versions as versions;
ghost use Rattle.pks_text.specs.Forms.{Form, Forms};
ghost use Rattle.pks_reader_shape.specs.declared.grammar.Version.{Version};
ghost use Rattle.pks_reader_shape.specs.declared.grammar.Version.TheVariants as file;
ghost use Rattle.pks_reader_shape.specs.declared.grammar.Sort.TheVariants as sort;
ghost use Rattle.pks_reader_shape.specs.Files.{number_of};
ghost use Rattle.pks_reader_shape.specs.Language.{IsOf};
ghost use Rattle.pks_reader_names.specs.Tables.{entries_of};
ghost use Rattle.pks_reader_names.specs.Scopes.{Scope, signature_in};
ghost use Rattle.pks_reader_names.specs.Parts.{behind_head};
ghost use Rattle.pks_reader_names.specs.Terms.{term_faults, literal_faults, pattern_faults};
ghost use Rattle.pks_reader_names.specs.Sentences.{literals_faults, query_faults, effect_faults, sense_faults, add_faults, start_faults, aim_faults};
ghost use Rattle.pks_reader_names.specs.Declarations.{within, action_faults};
ghost use Rattle.pks_reader_names.specs.Meaning.{scope_of};
ghost use Rattle.pks_reader_declared.specs.FirstFault.{meaning_fault, declarations_fault};
ghost use Rattle.pks_reader_problem.specs.Stated.{term_in, literal_in, conj_in, pattern_in, query_in, effect_in, sense_in, add_in, schema_in, start_in, aim_in, problem_in, named_in};
ghost use Rattle.pks_reader_problem.specs.Sizes.{IsSmall};
ghost use Rattle.pks_laws_reader.specs.Facts.{EachForm, HasShapes, AreNamed};

// ---- the whole file

/// A domain and a problem of the grammar that have no fault of meaning state a valid problem.
#[tactic(auto, using(crate::proofs::Whole::valid_problem))]
pub fn faultless_files_state_valid_problems()
    ensures { (v : Version) (d p : Form) → IsOf v sort.Domain d → IsOf v sort.Problem p → meaning_fault (number_of v) (behind_head d) (behind_head p) ≡ None → IsValid (problem_in (number_of v) (behind_head d) (behind_head p)) }
{}

/// No version 1 file uses parents, costs or goals over earlier states.
#[tactic(auto, using(crate::proofs::Whole::first_version))]
pub fn first_version_files_state_first_version_problems()
    ensures { (d p : Form) → IsOf file.First sort.Domain d → IsOf file.First sort.Problem p → versions.IsFirstVersion (problem_in 1 (behind_head d) (behind_head p)) }
{}

/// What a domain declares has no more names than the program has numbers for.
pub fn declared_names_are_few()
    ensures { (version : ℕ) (domain : Forms) → IsSmall (scope_of version domain) }
{}

/// Each declared predicate has at most three arguments, and each function at most two.
pub fn declared_shapes_are_small()
    ensures { (version : ℕ) (domain : Forms) → HasShapes (scope_of version domain) }
{}

/// Each thing of such a problem has a name of its own, spelled as names are, and no predicate is `not`.
pub fn faultless_files_name_each_thing()
    ensures { (v : Version) (d p : Form) → IsOf v sort.Domain d → meaning_fault (number_of v) (behind_head d) (behind_head p) ≡ None → AreNamed (problem_in (number_of v) (behind_head d) (behind_head p)) (named_in (number_of v) (behind_head d) p) }
{}

/// Within an action there are at most four parameters more.
pub fn declared_parameters_are_few()
    ensures { (s : Scope) (fs : Forms) → IsSmall s → IsSmall (within s fs) }
{}

/// Within an action the shapes stay as they are.
pub fn shapes_stay_small_within_actions()
    ensures { (s : Scope) (fs : Forms) → HasShapes s → HasShapes (within s fs) }
{}

// ---- the declarations

/// A domain of the grammar whose declarations have no fault declares a valid signature.
pub fn faultless_declarations_give_valid_signatures()
    ensures { (v : Version) (version : ℕ) (d : Form) → IsOf v sort.Domain d → declarations_fault version (behind_head d) ≡ None → IsValidSignature (signature_in (scope_of version (behind_head d))) }
{}

// ---- terms, literals and patterns, within what is declared

/// A term without a fault is a term of the signature.
#[tactic(auto, using(crate::proofs::Sentences::only_is_term))]
pub fn faultless_terms_are_of_the_signature()
    ensures { (s : Scope) (v : Version) (f : Form) → HasShapes s → IsOf v sort.Term f → term_faults s f ≡ [] → is_term (signature_in s) (entries_of s.parameters) (term_in s f) ≡ true }
{}

/// A literal without a fault is of the signature; the sides of an equation fit and are in order.
pub fn faultless_literals_are_as_files_have_them()
    ensures { (s : Scope) (v : Version) (f : Form) → HasShapes s → IsOf v sort.Literal f → literal_faults s f ≡ [] → IsLiteralText (signature_in s) (entries_of s.parameters) (literal_in s f) }
{}

/// Literals without a fault are a set in order.
#[tactic(auto, using(crate::proofs::Sentences::conj_text))]
pub fn faultless_conjunctions_are_as_files_have_them()
    ensures { (s : Scope) (v : Version) (fs : Forms) → HasShapes s → EachForm (IsOf v sort.Literal) fs → literals_faults s 4 fs ≡ [] → IsConjText (signature_in s) (entries_of s.parameters) (conj_in s fs) }
{}

/// A pattern without a fault is of the signature.
#[tactic(auto, using(crate::proofs::Sentences::pattern_text))]
pub fn faultless_patterns_are_of_the_signature()
    ensures { (s : Scope) (v : Version) (f : Form) → HasShapes s → IsOf v sort.Pattern f → pattern_faults s f ≡ [] → is_pattern (signature_in s) (entries_of s.parameters) (pattern_in s f) ≡ true }
{}

// ---- the parts of actions and of the problem

/// A query without a fault.
#[tactic(auto, using(crate::proofs::Sentences::query_text))]
pub fn faultless_queries_are_as_files_have_them()
    ensures { (s : Scope) (v : Version) (f : Form) → HasShapes s → IsOf v sort.Query f → query_faults s f ≡ [] → IsPlainText (signature_in s) (entries_of s.parameters) (query_in s f).asks }
{}

/// An effect without a fault.
#[tactic(auto, using(crate::proofs::Sentences::effect_text))]
pub fn faultless_effects_are_as_files_have_them()
    ensures { (s : Scope) (v : Version) (f : Form) → HasShapes s → IsOf v sort.Effect f → effect_faults s f ≡ [] → IsConjText (signature_in s) (entries_of s.parameters) (effect_in s f).condition × IsTargetText (signature_in s) (entries_of s.parameters) (effect_in s f).target }
{}

/// A sense without a fault.
#[tactic(auto, using(crate::proofs::Sentences::sense_text))]
pub fn faultless_senses_are_as_files_have_them()
    ensures { (s : Scope) (v : Version) (f : Form) → HasShapes s → IsOf v sort.Sense f → sense_faults s f ≡ [] → IsSenseText (signature_in s) (entries_of s.parameters) (sense_in s f) }
{}

/// An add without a fault.
#[tactic(auto, using(crate::proofs::Sentences::add_text))]
pub fn faultless_adds_are_as_files_have_them()
    ensures { (s : Scope) (v : Version) (f : Form) → HasShapes s → IsOf v sort.Add f → add_faults s f ≡ [] → AreQueries (signature_in s) (entries_of s.parameters) (add_in s f).given × IsItemText (signature_in s) (entries_of s.parameters) (add_in s f).item }
{}

/// An action without a fault: its cost is from 1 to 9,999, it has at most four parameters of declared types, and its parts are as a file may have them.
#[tactic(auto, using(crate::proofs::Whole::schema_text))]
pub fn faultless_actions_are_as_files_have_them()
    ensures { (s : Scope) (v : Version) (f : Form) → HasShapes s → IsOf v sort.Action f → action_faults s (behind_head f) ≡ [] → IsSchemaText (signature_in s) (schema_in s (behind_head f)) }
{}

/// An initial item without a fault is ground; the literals of a group stand in sequence.
#[tactic(auto, using(crate::proofs::Sentences::start_text))]
pub fn faultless_initial_items_are_as_files_have_them()
    ensures { (s : Scope) (v : Version) (f : Form) → HasShapes s → entries_of s.parameters ≡ [] → IsOf v sort.Start f → start_faults s f ≡ [] → IsStartText (signature_in s) (start_in s f) }
{}

/// An aim without a fault.
#[tactic(auto, using(crate::proofs::Sentences::aim_text))]
pub fn faultless_aims_are_as_files_have_them()
    ensures { (s : Scope) (v : Version) (f : Form) → HasShapes s → IsOf v sort.Aim f → aim_faults s f ≡ [] → IsPlainText (signature_in s) (entries_of s.parameters) (versions.query_in (aim_in s f)).asks }
{}
