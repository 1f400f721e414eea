//! Laws of the definitions: each is the contract of a function that does nothing.

ghost use Rattle.base_types.specs.Sets.{AllDiffer, SameElements};
ghost use Rattle.nquads.specs.FirstDegree.{first_degree_hash};
ghost use Rattle.nquads.specs.Lines.{
  HasLabels,
  IsLine,
  LabelsDiffer,
  canonical_lines,
  canonical_text,
  with_labels,
  line,
};
ghost use Rattle.nquads.specs.Reading.{IsReadable, Says, SaysDataset};
ghost use Rattle.nquads.specs.Renaming.{IsOneToOne, Same, image, rename};
ghost use Rattle.nquads.specs.Spelling.{blank_text, escape, text_quad, spelling};
ghost use Rattle.nquads.specs.Stored.{
  Adds,
  AreLabelsKnown,
  find_number,
  IsKnown,
  labels_by_text,
  quad_texts,
};
ghost use Rattle.nquads.specs.Terms.{
  Blank,
  BlankKind,
  by_cell,
  by_graph,
  by_label,
  by_node,
  IsDataset,
  IsLabel,
  IsResource,
  IsStatement,
  IsTerm,
  Statement,
  Term,
  iri,
  literal,
  blank,
  rdf_lang_string,
  xsd_string,
};
ghost use Rattle.nquads.specs.Texts.{find_label};
ghost use Rattle.nquads.specs.declared.numbers.Label.{Label};
ghost use Rattle.std.specs.List.{concat, flat_map};
ghost use Rattle.std.specs.Str.{IsUtf8};
ghost use Rattle.std.specs.Prelude.{All, Contains, List, length, map, [], ◌∷◌, ◌++◌, ◌≡◌, ◌<◌, ℕ, codes, Option, Some, None};
ghost use Rattle.term_store.specs.Store.{Grows, text_at};
ghost use Rattle.term_store.specs.declared.statements.Quad.{Quad};
ghost use Rattle.term_store.specs.declared.store.TermId.{TermId};

/// A text is the spelling of one term at most, so texts are compared in place of terms.
pub fn spelling_has_one_reading()
    ensures { (s t : Term) → IsTerm s → IsTerm t → spelling s ≡ spelling t → s ≡ t }
{}

/// Four texts are the spellings of one statement at most.
pub fn spelled_statement_has_one_reading()
    ensures { (s t : Statement) → IsStatement s → IsStatement t
        → text_quad s ≡ text_quad t → s ≡ t }
{}

/// Two statements with one line are one but for the names of their blank nodes, and these have the
/// same labels at the same places.
pub fn line_has_one_reading()
    ensures { (f g : Blank → List ℕ) (s t : Statement) → IsStatement s → IsStatement t
        → HasLabels f s → HasLabels g t → line f s ≡ line g t
        → with_labels f s ≡ with_labels g t }
{}

/// In a dataset whose labels differ, no two statements have one line.
pub fn line_names_its_statement()
    ensures { (f : Blank → List ℕ) (q : List Statement) → All IsStatement q → All (HasLabels f) q
        → LabelsDiffer f q → (s t : Statement) → Contains q s → Contains q t
        → line f s ≡ line f t → s ≡ t }
{}

/// A line ends with LF and holds no other.
pub fn line_is_one_line()
    ensures { (f : Blank → List ℕ) (s : Statement) → IsStatement s → HasLabels f s
        → IsLine (line f s) }
{}

/// A text of whole lines is split into lines in one way only.
pub fn joined_lines_split_once()
    ensures { (ls ms : List (List ℕ)) → All IsLine ls → All IsLine ms
        → concat ls ≡ concat ms → ls ≡ ms }
{}

/// A canonical text determines its lines, and with them the labelled statements; and these
/// determine it.
pub fn text_has_one_reading()
    ensures lines { (f g : Blank → List ℕ) (q r : List Statement)
        → All IsStatement q → All IsStatement r → All (HasLabels f) q → All (HasLabels g) r
        → canonical_text f q ≡ canonical_text g r → canonical_lines f q ≡ canonical_lines g r }
    ensures statements { (f g : Blank → List ℕ) (q r : List Statement)
        → All IsStatement q → All IsStatement r → All (HasLabels f) q → All (HasLabels g) r
        → canonical_text f q ≡ canonical_text g r
        → SameElements (map (with_labels f) q) (map (with_labels g) r) }
    ensures text { (f g : Blank → List ℕ) (q r : List Statement)
        → SameElements (map (with_labels f) q) (map (with_labels g) r)
        → canonical_text f q ≡ canonical_text g r }
{}

/// Datasets with one canonical text are the same up to the names of blank nodes, where no two blank
/// nodes of a dataset have one label.
pub fn text_names_its_dataset()
    ensures { (f g : Blank → List ℕ) (q r : List Statement)
        → All IsStatement q → All IsStatement r → All (HasLabels f) q → All (HasLabels g) r
        → LabelsDiffer f q → LabelsDiffer g r
        → canonical_text f q ≡ canonical_text g r → Same q r }
{}

/// A renaming that takes the labels along leaves a line as it is, and the canonical text.
pub fn renaming_carries_labels()
    ensures line { (f : Blank → List ℕ) (h : Blank → Blank) (s : Statement)
        → line f (rename h s) ≡ line (λ b. f (h b)) s }
    ensures text { (f : Blank → List ℕ) (q r : List Statement) (s : Same q r)
        → canonical_text f r ≡ canonical_text (λ b. f (image s.pairs b)) q }
{}

/// A renaming keeps statements well formed, and a dataset without repeats.
pub fn renaming_keeps_datasets()
    ensures statement { (h : Blank → Blank) (s : Statement)
        → IsStatement s → IsStatement (rename h s) }
    ensures dataset { (h : Blank → Blank) (q : List Statement) → IsOneToOne h q → IsDataset q
        → IsDataset (map (rename h) q) }
    ensures same { (q r : List Statement) → Same q r
        → All IsStatement q → All IsStatement r }
{}

/// To be the same up to the names of blank nodes is an equivalence, and datasets with the same
/// statements are the same.
pub fn same_is_an_equivalence()
    ensures of_equal_sets { (q r : List Statement) → SameElements q r → Same q r }
    ensures reflexive { (q : List Statement) → Same q q }
    ensures symmetric { (q r : List Statement) → Same q r → Same r q }
    ensures transitive { (q r s : List Statement) → Same q r → Same r s → Same q s }
{}

/// Two datasets are the same up to the names of blank nodes exactly where a map of blank nodes that
/// sends no two of the first dataset to one takes the first dataset to the second.
pub fn same_is_a_map_one_to_one()
    ensures from_map { (f : Blank → Blank) (q r : List Statement) → IsOneToOne f q
        → SameElements (map (rename f) q) r → Same q r }
    ensures to_map { (q r : List Statement) (s : Same q r) → IsOneToOne (image s.pairs) q }
{}

/// As the store grows, a statement of its numbers keeps its four texts and stays one of its numbers.
pub fn a_number_stands_for_its_text()
    ensures { (old new : List (List ℕ)) (quad : Quad) → Grows old new → IsKnown old quad
        → (quad_texts new quad ≡ quad_texts old quad) × IsKnown new quad }
{}

/// Two statements of the numbers of one store with the same four texts are one, so repeats are
/// found by comparing numbers.
pub fn four_texts_have_one_statement_of_numbers()
    ensures { (texts : List (List ℕ)) → AllDiffer texts → (a b : Quad)
        → IsKnown texts a → IsKnown texts b → quad_texts texts a ≡ quad_texts texts b → a ≡ b }
{}

/// The label of a number is the label of its text.
pub fn a_number_has_the_label_of_its_text()
    ensures { (texts : List (List ℕ)) → AllDiffer texts → (labels : List Label) (id : TermId)
        → AreLabelsKnown texts labels → id.index < length texts
        → find_label (labels_by_text texts labels) (text_at texts id)
        ≡ find_number labels id.index }
{}

/// A statement that is put last, where the store only grew, adds its four texts.
pub fn a_statement_that_is_added()
    ensures { (before after : List (List ℕ)) (old : List Quad) (quad : Quad)
        → Grows before after → All (IsKnown before) old → IsKnown after quad
        → Adds before after old (old ++ quad ∷ []) (quad_texts after quad ∷ []) }
{}

/// A line says one statement at most, and none where it says nothing.
pub fn a_line_says_one_statement()
    ensures { (line : List ℕ) (x y : Option Statement) → Says line x → Says line y → x ≡ y }
{}

/// A text says one dataset at most.
pub fn a_text_says_one_dataset()
    ensures { (bytes : List ℕ) (p q : List Statement) → SaysDataset bytes p → SaysDataset bytes q
        → SameElements p q }
{}

/// A canonical text of readable statements, in UTF-8, says the dataset whose text it is, with each
/// blank node named by its label.
pub fn what_is_written_reads_back()
    ensures { (f : Blank → List ℕ) (q : List Statement) → All IsReadable (map (with_labels f) q)
        → IsUtf8 (canonical_text f q)
        → SaysDataset (canonical_text f q) (map (with_labels f) q) }
{}

/// Worked rows: lines that say a statement or nothing, and texts that are no line. RDF 1.1 N-Quads, 3
/// and 4.
pub fn worked_readings()
    ensures literal { Says (codes "_:a <e:p> \"\\u00E9\"@fr.") (Some (record {
      subject = blank (record { kind = by_label; name = codes "a" });
      predicate = codes "e:p";
      object = literal (195 ∷ 169 ∷ []) rdf_lang_string (Some (codes "fr"));
      graph = None;
    })) }
    ensures graph { Says (codes "\t<e:s> <e:p>\t_:a.b <e:g>. # c") (Some (record {
      subject = iri (codes "e:s");
      predicate = codes "e:p";
      object = blank (record { kind = by_label; name = codes "a.b" });
      graph = Some (iri (codes "e:g"));
    })) }
    ensures comment { Says (codes " # <e:s> <e:p> <e:o> .") None }
    ensures no_dot { (x : Option Statement) → Says (codes "<e:s> <e:p> <e:o>") x → ⊥ }
    ensures no_gap { (x : Option Statement) → Says (codes "<e:s><e:p> <e:o> .") x → ⊥ }
    ensures relative { (x : Option Statement) → Says (codes "<s> <e:p> <e:o> .") x → ⊥ }
    ensures subject { (x : Option Statement) → Says (codes "\"s\" <e:p> <e:o> .") x → ⊥ }
    ensures surrogate { (x : Option Statement) → Says (codes "_:a <e:p> \"\\uD800\" .") x → ⊥ }
    ensures two_dots { (x : Option Statement) → Says (codes "_:a <e:p> _:b..") x → ⊥ }
{}

/// Worked rows: the escapes, with the first and the last byte of each range of them, and literals.
/// RDF Canonicalization, the canonical form of N-Quads.
pub fn worked_spellings()
    ensures escapes { flat_map escape (8 ∷ 9 ∷ 10 ∷ 12 ∷ 13 ∷ 34 ∷ 92 ∷ [])
        ≡ codes "\\b\\t\\n\\f\\r\\\"\\\\" }
    ensures controls { flat_map escape (0 ∷ 7 ∷ 11 ∷ 14 ∷ 31 ∷ 32 ∷ 126 ∷ 127 ∷ 128 ∷ [])
        ≡ codes "\\u0000\\u0007\\u000B\\u000E\\u001F ~\\u007F" ++ 128 ∷ [] }
    ensures language { spelling (literal (codes "chat") rdf_lang_string (Some (codes "fr-BE")))
        ≡ codes "\"chat\"@fr-BE" }
    ensures datatype { spelling (literal (codes "42") (codes "http://example.org/n") None)
        ≡ codes "\"42\"^^<http://example.org/n>" }
    ensures string { spelling (literal (codes "42") xsd_string None) ≡ codes "\"42\"" }
{}

/// Worked rows: the texts of blank nodes, one of each kind.
pub fn worked_blank_texts()
    ensures label { blank_text (record { kind = by_label; name = codes "b0" }) ≡ codes "_:nb0" }
    ensures node { blank_text (record { kind = by_node; name = codes "/0" }) ≡ codes "_:o/0" }
    ensures graph { blank_text (record { kind = by_graph; name = codes "/0" }) ≡ codes "_:g/0" }
    ensures cell { blank_text (record { kind = by_cell; name = codes "/0" }) ≡ codes "_:c/0" }
{}

/// Worked rows: a literal has the datatype rdf:langString exactly where it has a language, and no
/// literal is a subject or a graph. RDF 1.1 Concepts, 3.1, 3.3 and 4.
pub fn worked_terms()
    ensures language { IsTerm (literal (codes "chat") rdf_lang_string (Some (codes "fr"))) }
    ensures no_language { IsTerm (literal (codes "chat") rdf_lang_string None) → ⊥ }
    ensures string { IsTerm (literal (codes "chat") xsd_string None) }
    ensures string_language { IsTerm (literal (codes "chat") xsd_string (Some (codes "fr"))) → ⊥ }
    ensures spaced_iri { IsTerm (iri (codes "a b")) → ⊥ }
    ensures literal_resource { IsResource (literal (codes "chat") xsd_string None) → ⊥ }
{}

/// Worked rows: what is a label, and what is none. RDF 1.1 N-Quads, 4, BLANK_NODE_LABEL.
pub fn worked_labels()
    ensures dot_within { IsLabel (codes "a.b") }
    ensures dot_first { IsLabel (codes ".a") → ⊥ }
    ensures dot_last { IsLabel (codes "a.") → ⊥ }
    ensures hyphen_last { IsLabel (codes "a-") }
    ensures hyphen_first { IsLabel (codes "-a") → ⊥ }
    ensures digit_first { IsLabel (codes "0") }
    ensures space_within { IsLabel (codes "a b") → ⊥ }
    ensures nothing { IsLabel [] → ⊥ }
{}

/// Worked rows: whole lines, and a text of lines that stood out of order and twice. RDF
/// Canonicalization, the canonical form of N-Quads.
pub fn worked_lines()
    ensures named_graph { line (λ b. codes "c14n0") (record {
      subject = blank (record { kind = by_node; name = [] });
      predicate = codes "http://example.org/p";
      object = literal (codes "chat") rdf_lang_string (Some (codes "fr"));
      graph = Some (iri (codes "http://example.org/g"));
    })
        ≡ codes "_:c14n0 <http://example.org/p> \"chat\"@fr <http://example.org/g> .\n" }
    ensures default_graph { line (λ b. []) (record {
      subject = iri (codes "http://example.org/s");
      predicate = codes "http://example.org/p";
      object = literal (codes "chat") xsd_string None;
      graph = None;
    })
        ≡ codes "<http://example.org/s> <http://example.org/p> \"chat\" .\n" }
    ensures text { let first : Statement = record {
      subject = blank (record { kind = by_node; name = [] });
      predicate = codes "p";
      object = iri (codes "b");
      graph = Some (iri (codes "g"));
    } in
        let second : Statement = record {
          subject = iri (codes "a");
          predicate = codes "p";
          object = literal (codes "1") xsd_string None;
          graph = None;
        } in
        canonical_text (λ b. codes "c14n0") (first ∷ second ∷ first ∷ [])
        ≡ codes "<a> <p> \"1\" .\n_:c14n0 <p> <b> <g> .\n" }
{}

/// Worked rows: what a first-degree hash is the digest of. The statements mention the blank node n
/// as subject and object at once; as subject of two with equal lines, as object, and as subject and
/// graph; and as graph. RDF Dataset Canonicalization, 4.6.3.
pub fn worked_first_degree()
    ensures twice { let n : Blank = record { kind = by_label; name = codes "n" } in
        let s : Statement = record {
          subject = blank n;
          predicate = codes "p";
          object = blank n;
          graph = None;
        } in
        first_degree_hash (λ text. text) (s ∷ []) n ≡ codes "_:a <p> _:a .\n" }
    ensures several { let n : Blank = record { kind = by_label; name = codes "n" } in
        let m : Blank = record { kind = by_label; name = codes "m" } in
        let k : Blank = record { kind = by_node; name = codes "n" } in
        let s : Statement = record {
          subject = blank m;
          predicate = codes "p";
          object = blank n;
          graph = None;
        } in
        let t : Statement = record {
          subject = blank n;
          predicate = codes "p";
          object = blank m;
          graph = None;
        } in
        let u : Statement = record {
          subject = blank n;
          predicate = codes "p";
          object = blank k;
          graph = None;
        } in
        let v : Statement = record {
          subject = blank n;
          predicate = codes "o";
          object = blank m;
          graph = Some (blank n);
        } in
        first_degree_hash (λ text. text) (s ∷ t ∷ u ∷ v ∷ []) n
        ≡ codes "_:a <o> _:z _:a .\n_:a <p> _:z .\n_:a <p> _:z .\n_:z <p> _:a .\n" }
    ensures graph { let n : Blank = record { kind = by_label; name = codes "n" } in
        let m : Blank = record { kind = by_label; name = codes "m" } in
        let s : Statement = record {
          subject = blank m;
          predicate = codes "p";
          object = blank m;
          graph = None;
        } in
        let t : Statement = record {
          subject = iri (codes "a");
          predicate = codes "p";
          object = blank m;
          graph = Some (blank n);
        } in
        first_degree_hash (λ text. text) (s ∷ t ∷ []) n ≡ codes "<a> <p> _:z _:a .\n" }
{}
