//! Laws of the definitions: each is the contract of a function that does nothing.

ghost use Rattle.std.specs.Prelude.{◌≡◌, ◌≢◌, ◌∷◌, [], ℕ, List, Bool, true, false, Some, None, codes, is_some};
ghost use Rattle.json_tree.specs.declared.tree.Tree.TheVariants as v;
ghost use Rattle.json_tree.specs.declared.tree.Tree.TheOpen.{Tree-F};
ghost use Rattle.json_tree.specs.Places.{or_else};
ghost use Rattle.json_tree.specs.Trees.{element, new_member};
ghost use Rattle.ld_words.specs.declared.keyword_table.LdKeyword.{LdKeyword};
ghost use Rattle.ld_words.specs.declared.keyword_table.LdKeyword.TheVariants as word;
ghost use Rattle.ld_words.specs.declared.code_table.Code.TheVariants as error;
ghost use Rattle.ld_termdef.specs.declared.definition.Mapped.TheVariants as maps;
ghost use Rattle.ld_termdef.specs.declared.definition.TermDef.{TermDef};
ghost use Rattle.ld_termdef.specs.declared.definition.TermEntry.{TermEntry};
ghost use Rattle.ld_termdef.specs.declared.reading.ReadIri.TheVariants as read;
ghost use Rattle.ld_termdef.specs.declared.reading.Mode.{Mode};
ghost use Rattle.ld_termdef.specs.declared.reading.Mode.TheVariants as mode;
ghost use Rattle.ld_termdef.specs.Words.{keyword_text, looks_like_keyword, has_inner_colon, ends_with_delimiter};
ghost use Rattle.ld_termdef.specs.Checked.{wrong, Fault, fault};
ghost use Rattle.ld_termdef.specs.Contexts.{Context, Active, initial, previous_of, remember, definition_in};
ghost use Rattle.ld_termdef.specs.Overlay.{overlay_of, terms_rise};
ghost use Rattle.ld_termdef.specs.Iris.{reads};
ghost use Rattle.ld_termdef.specs.Entries.{ContextEntry, Given, entry, find_entry, is_ignored};
ghost use Rattle.ld_termdef.specs.DefinitionMembers.{containers_in, containers_named, go_together};
ghost use Rattle.ld_termdef.specs.Definitions.{scoped_at, without_flag, without_place};
ghost use Rattle.ld_termdef.specs.Needs.{Reaches, looks};
ghost use Rattle.ld_termdef.specs.Equation.{IsContext};
ghost use Rattle.ld_termdef.specs.DefinitionFaults.{DefinitionFault};
ghost use Rattle.ld_termdef.specs.Examples.{some_context, bare_context, plain, own_prefix, chain, given_members, text_member, context_place, faults_with, two_faults};

/// A context object has at most one result.
pub fn a_context_object_has_one_result()
    ensures { (g : Given) (c d : Context) → IsContext g c → IsContext g d → c ≡ d }
{}

/// A result excludes every fault.
pub fn a_result_excludes_every_fault()
    ensures { (g : Given) (c : Context) (x : Fault) → IsContext g c → DefinitionFault g x → ⊥ }
{}

/// Where no fault holds there is a result. With the two laws above a context object has a result
/// exactly where it has no fault.
pub fn without_a_fault_there_is_a_result()
    ensures { (g : Given) → ((x : Fault) → DefinitionFault g x → ⊥)
        → (c : Context) × IsContext g c }
{}

/// In a result no term needs itself.
pub fn in_a_result_no_term_needs_itself()
    ensures { (g : Given) (c : Context) (t : List ℕ) → IsContext g c → Reaches g t t → ⊥ }
{}

/// A term without an entry that defines it keeps its definition, and each term with one has one in
/// the result.
pub fn terms_are_those_before_and_those_with_entries()
    ensures stays { (g : Given) (c : Context) (t : List ℕ) → IsContext g c → entry g t ≡ None
        → c.terms t ≡ g.before.terms t }
    ensures ignored { (g : Given) (c : Context) (t : List ℕ) (e : ContextEntry) → IsContext g c
        → find_entry t g.entries ≡ Some e → is_ignored e ≡ true
        → c.terms t ≡ g.before.terms t }
    ensures defined { (g : Given) (c : Context) (t : List ℕ) → IsContext g c
        → is_some (entry g t) ≡ true → is_some (c.terms t) ≡ true }
{}

/// Without entries the context stays as it is.
pub fn no_entries_change_nothing()
    ensures { (g : Given) → g.entries ≡ [] → IsContext g g.before }
{}

/// What defines a term is the entry that counts, and nothing else of the entries: in any order, and
/// without those that are ignored, they have the same result and the same faults.
pub fn only_the_entry_that_counts_matters()
    ensures result { (g h : Given) (c : Context) → g.before ≡ h.before → g.protect ≡ h.protect
        → g.change ≡ h.change → ((t : List ℕ) → entry g t ≡ entry h t)
        → IsContext g c → IsContext h c }
    ensures faults { (g h : Given) (x : Fault) → g.before ≡ h.before → g.protect ≡ h.protect
        → g.change ≡ h.change → ((t : List ℕ) → entry g t ≡ entry h t)
        → DefinitionFault g x → DefinitionFault h x }
{}

/// Where protected terms may not be changed, a protected term keeps its definition, but for the
/// place of its own context, and stays protected. JSON-LD 1.1, section 4.1.11
pub fn protected_terms_stay()
    ensures { (g : Given) (c : Context) (t : List ℕ) (old : TermDef) → IsContext g c
        → g.change ≡ false → g.before.terms t ≡ Some old → old.protected ≡ true
        → (new : TermDef) × (c.terms t ≡ Some new) × (new.protected ≡ true)
        × (without_flag new ≡ without_flag old) }
{}

/// Whatever the context and the mode, a keyword reads as itself, and what looks like one reads as
/// nothing.
pub fn keywords_read_as_themselves()
    ensures keyword { (c : Context) (m : Mode) (k : LdKeyword)
        → reads c m (keyword_text k) ≡ read.Word k }
    ensures form { (c : Context) (m : Mode) (text : List ℕ) → looks_like_keyword text ≡ true
        → reads c m text ≡ read.Nothing }
{}

/// The vocabulary does not matter in mode `Document`, and the base does not matter in mode `Vocab`.
/// Defaults never do.
pub fn modes_look_at_their_parts()
    ensures document { (c d : Context) (text : List ℕ) → c.base ≡ d.base
        → ((t : List ℕ) → c.terms t ≡ d.terms t)
        → reads c mode.Document text ≡ reads d mode.Document text }
    ensures vocab { (c d : Context) (text : List ℕ) → c.vocab ≡ d.vocab
        → ((t : List ℕ) → c.terms t ≡ d.terms t)
        → reads c mode.Vocab text ≡ reads d mode.Vocab text }
{}

/// A context that does not propagate leaves the way back to the one before it; to remember that a
/// second time, or where there is a way back already, changes nothing.
pub fn the_way_back()
    ensures back { (before result : Active) → result.previous ≡ []
        → previous_of (remember false before result) ≡ before }
    ensures once { (propagate : Bool) (before result : Active)
        → remember propagate before (remember propagate before result)
        ≡ remember propagate before result }
    ensures kept { (propagate : Bool) (before result : Active) → result.previous ≢ []
        → remember propagate before result ≡ result }
    ensures holds { (propagate : Bool) (before result : Active)
        → (remember propagate before result).current ≡ result.current }
    ensures initial { previous_of initial ≡ initial }
{}

/// Of entries laid over others, the first that define a term count; and what is laid over what
/// rises rises.
pub fn what_is_laid_over_counts()
    ensures found { (over under : List TermEntry) (t : List ℕ)
        → definition_in (overlay_of over under) t
        ≡ or_else (definition_in over t) (definition_in under t) }
    ensures rises { (over under : List TermEntry) → terms_rise under ≡ true
        → terms_rise (overlay_of over under) ≡ true }
{}

/// Worked rows: how texts are read. The rows are those of the table, from the first to the last.
pub fn worked_readings()
    ensures keyword { reads some_context mode.Document (codes "@type") ≡ read.Word word.Kind }
    ensures form { reads some_context mode.Vocab (codes "@ignoreMe") ≡ read.Nothing }
    ensures no_form { reads some_context mode.Vocab (codes "@")
        ≡ read.Iri (codes "https://ex.org/v#@") }
    ensures alias { reads some_context mode.Document (codes "type") ≡ read.Word word.Kind }
    ensures term { reads some_context mode.Vocab (codes "name")
        ≡ read.Iri (codes "https://schema.org/name") }
    ensures not_a_term { reads some_context mode.Document (codes "name")
        ≡ read.Iri (codes "http://a/b/c/name") }
    ensures nothing { reads some_context mode.Both (codes "none") ≡ read.Nothing }
    ensures blank { reads some_context mode.Vocab (codes "_:b0") ≡ read.Blank (codes "b0") }
    ensures slashes { reads some_context mode.Vocab (codes "ex://x") ≡ read.Iri (codes "ex://x") }
    ensures compact { reads some_context mode.Document (codes "ex:x")
        ≡ read.Iri (codes "https://ex.org/x") }
    ensures no_prefix { reads some_context mode.Vocab (codes "site:x")
        ≡ read.Iri (codes "site:x") }
    ensures first_colon { reads some_context mode.Vocab (codes "ex:x:y")
        ≡ read.Iri (codes "https://ex.org/x:y") }
    ensures absolute { reads bare_context mode.Vocab (codes "urn:x") ≡ read.Iri (codes "urn:x") }
    ensures no_scheme { reads some_context mode.Vocab (codes "1a:b")
        ≡ read.Iri (codes "https://ex.org/v#1a:b") }
    ensures vocabulary { reads some_context mode.Both (codes "x")
        ≡ read.Iri (codes "https://ex.org/v#x") }
    ensures base { reads some_context mode.Document (codes "../g")
        ≡ read.Iri (codes "http://a/b/g") }
    ensures empty { reads some_context mode.Document []
        ≡ read.Iri (codes "http://a/b/c/d;p?q") }
    ensures forbidden { reads some_context mode.Document (codes "a b")
        ≡ read.Relative (codes "a b") }
    ensures relative { reads bare_context mode.Both (codes "x") ≡ read.Relative (codes "x") }
{}

/// Worked rows: which containers may stand together. JSON-LD 1.1 API, 4.2.2, step 19.1
pub fn worked_containers()
    ensures twice { containers_in (Tree-F.List (element 0 (v.Text (codes "@set"))
        ∷ element 1 (v.Text (codes "@set")) ∷ [])) ≡ wrong error.InvalidContainerMapping }
    ensures unknown { containers_in (Tree-F.Text (codes "@vocab"))
        ≡ wrong error.InvalidContainerMapping }
    ensures number { containers_in (Tree-F.Bool true) ≡ wrong error.InvalidContainerMapping }
    ensures none { go_together (containers_named []) ≡ true }
    ensures list { go_together (containers_named (codes "@list" ∷ [])) ≡ true }
    ensures set { go_together (containers_named (codes "@set" ∷ [])) ≡ true }
    ensures index { go_together (containers_named (codes "@set" ∷ codes "@index" ∷ [])) ≡ true }
    ensures graph_id { go_together (containers_named
        (codes "@graph" ∷ codes "@id" ∷ codes "@set" ∷ [])) ≡ true }
    ensures graph_index { go_together (containers_named (codes "@graph" ∷ codes "@index" ∷ []))
        ≡ true }
    ensures list_set { go_together (containers_named (codes "@list" ∷ codes "@set" ∷ []))
        ≡ false }
    ensures list_index { go_together (containers_named (codes "@list" ∷ codes "@index" ∷ []))
        ≡ false }
    ensures two_maps { go_together (containers_named (codes "@index" ∷ codes "@language" ∷ []))
        ≡ false }
    ensures id_type { go_together (containers_named (codes "@id" ∷ codes "@type" ∷ [])) ≡ false }
    ensures graph_type { go_together (containers_named (codes "@graph" ∷ codes "@type" ∷ []))
        ≡ false }
    ensures graph_both { go_together (containers_named
        (codes "@graph" ∷ codes "@id" ∷ codes "@index" ∷ [])) ≡ false }
{}

/// Worked rows: small tests on terms and IRIs.
pub fn worked_texts()
    ensures inner { has_inner_colon (codes "a:b") ≡ true }
    ensures first { has_inner_colon (codes ":ab") ≡ false }
    ensures last { has_inner_colon (codes "ab:") ≡ false }
    ensures one { has_inner_colon (codes ":") ≡ false }
    ensures hash { ends_with_delimiter (codes "https://ex.org/v#") ≡ true }
    ensures at { ends_with_delimiter (codes "https://ex.org/v@") ≡ true }
    ensures letter { ends_with_delimiter (codes "https://ex.org/v") ≡ false }
    ensures none { ends_with_delimiter [] ≡ false }
    ensures keyword { looks_like_keyword (codes "@type") ≡ false }
    ensures form { looks_like_keyword (codes "@types") ≡ true }
    ensures at_alone { looks_like_keyword (codes "@") ≡ false }
    ensures digit { looks_like_keyword (codes "@type1") ≡ false }
{}

/// Worked rows: what an entry looks up. A text that is a term is looked up alone; of another one,
/// its prefix too.
pub fn worked_needs()
    ensures own_prefix { looks own_prefix (codes "a") ≡ codes "a:x" ∷ codes "a" ∷ [] }
    ensures chain { looks chain (codes "a") ≡ codes "b:x" ∷ codes "b" ∷ [] }
    ensures itself { looks (given_members (text_member (codes "a") (codes "a") ∷ [])) (codes "a")
        ≡ [] }
    ensures term { looks (given_members (text_member (codes "a") (codes "b")
        ∷ text_member (codes "b") (codes "https://ex.org/") ∷ [])) (codes "a")
        ≡ codes "b" ∷ [] }
    ensures colon_term { looks (given_members (text_member (codes "a") (codes "b:x")
        ∷ text_member (codes "b") (codes "https://ex.org/")
        ∷ text_member (codes "b:x") (codes "https://ex.org/x") ∷ [])) (codes "a")
        ≡ codes "b:x" ∷ [] }
    ensures by_itself { looks (given_members (text_member (codes "b:x") (codes "urn:x") ∷ []))
        (codes "b:x") ≡ codes "urn:x" ∷ codes "urn" ∷ codes "b" ∷ [] }
    ensures same { looks (given_members (text_member (codes "b:x") (codes "b:x") ∷ []))
        (codes "b:x") ≡ codes "b" ∷ [] }
    ensures slashes { looks (given_members (text_member (codes "a") (codes "a://x") ∷ []))
        (codes "a") ≡ codes "a://x" ∷ [] }
    ensures blank { looks (given_members (text_member (codes "_") (codes "_:x") ∷ []))
        (codes "_") ≡ codes "_:x" ∷ [] }
    ensures keyword { looks (given_members (text_member (codes "a") (codes "@id") ∷ []))
        (codes "a") ≡ [] }
    ensures no_entry { looks own_prefix (codes "b") ≡ [] }
{}

/// Worked rows: where two members break a rule only together, each of them is at fault. JSON-LD 1.1
/// API, 4.2.2, steps 13.1, 13.5, 19.4 and 25.3
pub fn worked_pairs()
    ensures reverse_id { faults_with (text_member (codes "@reverse") (codes "urn:r")
        ∷ text_member (codes "@id") (codes "urn:i") ∷ [])
        ≡ two_faults error.InvalidReverseProperty (codes "@reverse") (codes "@id") }
    ensures reverse_same { faults_with (text_member (codes "@reverse") (codes "urn:r")
        ∷ text_member (codes "@id") (codes "a") ∷ []) ≡ [] }
    ensures reverse_nest { faults_with (text_member (codes "@reverse") (codes "urn:r")
        ∷ text_member (codes "@nest") (codes "@nest") ∷ [])
        ≡ two_faults error.InvalidReverseProperty (codes "@reverse") (codes "@nest") }
    ensures reverse_list { faults_with (text_member (codes "@reverse") (codes "urn:r")
        ∷ text_member (codes "@container") (codes "@list") ∷ [])
        ≡ two_faults error.InvalidReverseProperty (codes "@reverse") (codes "@container") }
    ensures reverse_set { faults_with (text_member (codes "@reverse") (codes "urn:r")
        ∷ text_member (codes "@container") (codes "@set") ∷ []) ≡ [] }
    ensures container_type { faults_with (text_member (codes "@id") (codes "urn:i")
        ∷ text_member (codes "@container") (codes "@type")
        ∷ text_member (codes "@type") (codes "@json") ∷ [])
        ≡ two_faults error.InvalidTypeMapping (codes "@container") (codes "@type") }
    ensures container_alone { faults_with (text_member (codes "@id") (codes "urn:i")
        ∷ text_member (codes "@container") (codes "@type") ∷ []) ≡ [] }
    ensures prefix_alias { faults_with (text_member (codes "@id") (codes "@type")
        ∷ new_member (codes "@prefix") (v.Bool true) ∷ [])
        ≡ two_faults error.InvalidTermDefinition (codes "@prefix") (codes "@id") }
    ensures no_prefix { faults_with (text_member (codes "@id") (codes "@type")
        ∷ new_member (codes "@prefix") (v.Bool false) ∷ []) ≡ [] }
{}

/// Worked row: where definitions are compared, the place of a local context does not count, nor do
/// the places in it.
pub fn worked_places()
    ensures { without_place (scoped_at (context_place (codes "a")) (v.List (element 5 v.Null ∷ [])))
        ≡ scoped_at [] (v.List (element 0 v.Null ∷ [])) }
{}

/// Worked rows: of `{"a": "b:x", "b": "c:y/", "c": "https://ex.org/"}` the last two are prefixes,
/// and the first is none, whatever the order in which they are defined.
pub fn worked_chain()
    ensures first { (c : Context) → IsContext chain c
        → c.terms (codes "a") ≡ Some (plain (maps.Iri (codes "https://ex.org/y/x")) false) }
    ensures second { (c : Context) → IsContext chain c
        → c.terms (codes "b") ≡ Some (plain (maps.Iri (codes "https://ex.org/y/")) true) }
    ensures other { (c : Context) → IsContext chain c → c.terms (codes "d") ≡ None }
{}

/// Worked rows: `{"a": "a:x"}` has a fault at its entry, since `a` needs itself.
/// JSON-LD 1.1 API, 4.2.2, step 1
pub fn worked_cycle()
    ensures { DefinitionFault own_prefix
        (fault error.CyclicIriMapping (context_place (codes "a"))) }
{}
