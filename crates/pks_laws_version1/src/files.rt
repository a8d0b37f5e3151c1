//! The laws, each the clause of a function that does nothing. Files are in `docs/FORMAT.md`.

ghost use Rattle.std.specs.Prelude.{◌≡◌, ◌↔◌, ◌==◌, ◌≤◌, ℕ, true, List, [], ◌∷◌, length, Option, codes};
ghost use Rattle.pks_terms.specs.declared.codes.TheConstants.{NOT_IN_GRAMMAR};
ghost use Rattle.pks_terms.specs.Problems.{Problem};
ghost use Rattle.pks_terms.specs.Valid.{IsValid};
ghost use Rattle.pks_terms.specs.Versions.{IsFirstVersion};
ghost use Rattle.pks_text.specs.Forms.{Form, Forms};
ghost use Rattle.pks_reader_shape.specs.declared.grammar.Version.TheVariants as file;
ghost use Rattle.pks_reader_shape.specs.declared.grammar.Sort.{Sort};
ghost use Rattle.pks_reader_shape.specs.declared.grammar.Sort.TheVariants as sort;
ghost use Rattle.pks_reader_shape.specs.Files.{Fault, is_list_of, version_of};
ghost use Rattle.pks_reader_shape.specs.Language.{IsOf, IsFile, MayBeWorld};
ghost use Rattle.pks_reader_names.specs.Scopes.{Scope, fits};
ghost use Rattle.pks_reader_names.specs.Parts.{behind_head};
ghost use Rattle.pks_reader_names.specs.Terms as terms;
ghost use Rattle.pks_reader_names.specs.Declarations as declarations;
ghost use Rattle.pks_reader_names.specs.Declarations.{Types};
ghost use Rattle.pks_reader_names.specs.Meaning.{scope_of};
ghost use Rattle.pks_reader_problem.specs.Stated.{Named};
ghost use Rattle.pks_reader_world.specs.Facts as facts;
ghost use Rattle.pks_reader.specs.Files.{IsFileOf, AreRefused, FormsState};
ghost use Rattle.pks_terms.specs.Printed.{Text};
ghost use Rattle.pks_terms.specs.Jobs.{Job};
ghost use Rattle.pks_terms.specs.Answers.{Reading, Status, text_for, AnswersJob};
ghost use Rattle.pks_reader.specs.Inputs.{Reads};
ghost use Rattle.pks_laws_version1.specs.Answering as answering;
ghost use Rattle.pks_laws_version1.specs.Files as files_then;
ghost use Rattle.pks_laws_version1.specs.Texts.{IsOfFirstVersion};
ghost use Rattle.pks_laws_version1.specs.Grammar as grammar;
ghost use Rattle.pks_laws_version1.specs.Codes as codes_then;

// ---- the grammar

/// In a file of the first version the forms of each sort are those of its own grammar.
pub fn forms_are_of_the_first_grammar()
    ensures { (s : Sort) (f : Form) → IsOf file.First s f ↔ grammar.IsOf s f }
{}

/// Forms are a file by that grammar exactly where they are a file that states the first version.
pub fn files_are_of_the_first_grammar()
    ensures { (fs : List Form) → grammar.IsFile fs ↔ (IsFile fs × (version_of fs ≡ file.First)) }
{}

/// Forms that state no later version and aren't a file by that grammar are refused.
pub fn what_is_not_of_the_first_grammar_is_refused()
    ensures { (end : ℕ) (fs : List Form) → version_of fs ≡ file.First → (grammar.IsFile fs → ⊥) → (fault : Fault) × AreRefused end fs fault }
{}

/// So a file of the first version that the grammar of the second alone has is refused with 124.
pub fn what_the_second_grammar_alone_has_is_refused()
    ensures { (end : ℕ) (f d p : Form) (rest : List Form) → is_list_of (codes "pks" ∷ codes "1" ∷ []) f ≡ true → IsOf file.Second sort.Domain d → IsOf file.Second sort.Problem p → MayBeWorld rest → (grammar.IsFile (f ∷ d ∷ p ∷ rest) → ⊥) → (at : ℕ) × AreRefused end (f ∷ d ∷ p ∷ rest) (at, NOT_IN_GRAMMAR) }
{}

// ---- limits and codes

/// The limit on objects is that of the first version.
pub fn objects_are_counted_as_in_the_first_version()
    ensures { (types : Types) (fs : Forms) → declarations.objects_section 1 types fs ≡ codes_then.objects_section types fs }
{}

/// No file of the first version states more than 64 objects.
pub fn first_files_have_few_objects()
    ensures { (fs : List Form) (p : Problem) (n : Named) → FormsState fs p n → version_of fs ≡ file.First → length p.signature.objects ≤ 64 }
{}

/// No type that a file of the first version declares has a parent.
pub fn types_of_first_files_have_no_parents()
    ensures { (fs : List Form) (d p : Form) → IsFileOf fs file.First d p → codes_then.HasNoParents (scope_of 1 (behind_head d)) }
{}

/// There a type fits itself alone.
pub fn types_without_parents_fit_themselves_alone()
    ensures { (s : Scope) (own wanted : ℕ) → codes_then.HasNoParents s → fits s own wanted ≡ (own == wanted) }
{}

/// There 206 comes by the text of the first version, for an argument or an assigned value, and for an equation.
pub fn mistyped_terms_are_as_in_the_first_version()
    ensures terms { (s : Scope) (wanted : Option ℕ) (t : Form) → codes_then.HasNoParents s → terms.mistyped s wanted t ≡ codes_then.mistyped s wanted t }
    ensures equations { (s : Scope) (left right : Option ℕ) (at : ℕ) → codes_then.HasNoParents s → terms.apart s left right at ≡ codes_then.apart left right at }
{}

/// There 209 comes by that text.
pub fn empty_types_are_as_in_the_first_version()
    ensures { (s : Scope) (result : Option Form) → codes_then.HasNoParents s → declarations.empty_faults s result ≡ codes_then.empty_faults s result }
{}

/// There 302 comes by that text.
pub fn mistyped_facts_are_as_in_the_first_version()
    ensures { (s : Scope) (wanted : Option ℕ) (own at : ℕ) → codes_then.HasNoParents s → facts.misfit s wanted own at ≡ codes_then.misfit wanted own at }
{}

// ---- what is stated

/// A file of the first version states a valid problem of that version.
pub fn first_files_state_problems_of_the_first_version()
    ensures { (fs : List Form) (p : Problem) (n : Named) → FormsState fs p n → version_of fs ≡ file.First → IsValid p × IsFirstVersion p }
{}

/// A text of the first version reads as by that version's own rules: it has that first fault, or states that problem, with those names, places and world.
pub fn first_texts_read_as_in_the_first_version()
    ensures { (text : Text) (reading : Reading) → IsOfFirstVersion text → Reads text reading ↔ files_then.Reads text reading }
{}

/// So what is answered about a text of the first version is what that version's own rules answer, by which it is read, too.
pub fn answers_to_first_files_are_of_the_first_version()
    ensures { (j : Job) (input : Text) (status : Status) (text : Text) → IsOfFirstVersion (text_for j input) → AnswersJob Reads j input status text ↔ answering.AnswersJob files_then.Reads j input status text }
{}
