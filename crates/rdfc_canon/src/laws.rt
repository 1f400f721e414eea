//! Laws of canonical labelling: each is the contract of a function that does nothing.

ghost use Rattle.std.specs.Prelude.{◌≡◌, ◌↔◌, ◌≤◌, ◌^◌, ℕ, List, [], ◌∷◌, codes, length, map, true, false, All, Contains, IsPermutation};
ghost use Rattle.base_types.specs.Sets.{AllDiffer};
ghost use Rattle.nquads.specs.Terms.{Blank, IsDataset, IsStatement, Statement};
ghost use Rattle.nquads.specs.Renaming.{Same, StandsIn, image};
ghost use Rattle.nquads.specs.Lines.{canonical_text};
ghost use Rattle.rdfc_ndegree.specs.Issuers.{canonical_id};
ghost use Rattle.rdfc_ndegree.specs.Datasets.{nodes_of};
ghost use Rattle.rdfc_canon.specs.Worked.{HasRun, edge, leaf};
ghost use Rattle.rdfc_canon.specs.Canon.{IsCanonicalIssuer, IsRun, MeetsTie, RunOutcome, WorkOver};

/// Every dataset has a run, whatever the digest is.
pub fn every_dataset_has_a_run()
    ensures { (digest : List ℕ → List ℕ) (q : List Statement)
        → (r : RunOutcome Blank) × IsRun (nodes_of digest q) r }
{}

/// The runs of a dataset agree on whether a tie is met, and without one on the canonical issuer.
pub fn runs_agree()
    ensures tie { (digest : List ℕ → List ℕ) (q : List Statement) (r s : RunOutcome Blank)
        → IsRun (nodes_of digest q) r → IsRun (nodes_of digest q) s → r.tie ≡ s.tie }
    ensures labels { (digest : List ℕ → List ℕ) (q : List Statement) (r s : RunOutcome Blank)
        → IsRun (nodes_of digest q) r → IsRun (nodes_of digest q) s → r.tie ≡ false
        → r.issuer ≡ s.issuer }
{}

/// The canonical issuer of a run names each blank node of the dataset once, and nothing else.
pub fn a_run_names_each_blank_node_once()
    ensures each { (digest : List ℕ → List ℕ) (q : List Statement) (r : RunOutcome Blank)
        (b : Blank)
        → IsRun (nodes_of digest q) r → StandsIn q b ↔ Contains r.issuer b }
    ensures once { (digest : List ℕ → List ℕ) (q : List Statement) (r : RunOutcome Blank)
        → IsRun (nodes_of digest q) r → AllDiffer r.issuer }
{}

/// Labelling does not depend on the names of blank nodes: two datasets that are the same up to
/// these meet ties alike, have the same work over their runs, and without a tie the same labels and
/// the same canonical text.
pub fn names_do_not_matter()
    ensures ties { (digest : List ℕ → List ℕ) (q p : List Statement)
        → Same q p → IsDataset q → IsDataset p
        → MeetsTie (nodes_of digest q) ↔ MeetsTie (nodes_of digest p) }
    ensures work { (digest : List ℕ → List ℕ) (q p : List Statement) (n : ℕ)
        → Same q p → IsDataset q → IsDataset p
        → WorkOver (nodes_of digest q) n ↔ WorkOver (nodes_of digest p) n }
    ensures labels { (digest : List ℕ → List ℕ) (q p : List Statement) (s : Same q p)
        (c : List Blank)
        → IsDataset q → IsDataset p
        → IsCanonicalIssuer (nodes_of digest q) c
        → IsCanonicalIssuer (nodes_of digest p) (map (image s.pairs) c) }
    ensures text { (digest : List ℕ → List ℕ) (q p : List Statement) (c d : List Blank)
        → Same q p → IsDataset q → IsDataset p
        → IsCanonicalIssuer (nodes_of digest q) c → IsCanonicalIssuer (nodes_of digest p) d
        → canonical_text (canonical_id (nodes_of digest q) c) q
        ≡ canonical_text (canonical_id (nodes_of digest p) d) p }
{}

/// Nor does it depend on the order of the statements.
pub fn order_does_not_matter()
    ensures ties { (digest : List ℕ → List ℕ) (q p : List Statement)
        → IsPermutation q p
        → MeetsTie (nodes_of digest q) ↔ MeetsTie (nodes_of digest p) }
    ensures work { (digest : List ℕ → List ℕ) (q p : List Statement) (n : ℕ)
        → IsPermutation q p
        → WorkOver (nodes_of digest q) n ↔ WorkOver (nodes_of digest p) n }
    ensures labels { (digest : List ℕ → List ℕ) (q p : List Statement) (c : List Blank)
        → IsPermutation q p
        → IsCanonicalIssuer (nodes_of digest q) c → IsCanonicalIssuer (nodes_of digest p) c }
    ensures text { (digest : List ℕ → List ℕ) (q p : List Statement) (c d : List Blank)
        → IsPermutation q p
        → IsCanonicalIssuer (nodes_of digest q) c → IsCanonicalIssuer (nodes_of digest p) d
        → canonical_text (canonical_id (nodes_of digest q) c) q
        ≡ canonical_text (canonical_id (nodes_of digest p) d) p }
{}

/// Datasets with one canonical text are the same up to the names of blank nodes, whatever was taken
/// first where a run meets a tie. Without a tie it is exactly these that have one text. (A label's
/// number has 64 bits.)
pub fn one_text_is_of_one_dataset()
    ensures same { (digest : List ℕ → List ℕ) (q p : List Statement) (r s : RunOutcome Blank)
        → All IsStatement q → All IsStatement p
        → length r.issuer ≤ 2 ^ 64 → length s.issuer ≤ 2 ^ 64
        → IsRun (nodes_of digest q) r → IsRun (nodes_of digest p) s
        → canonical_text (canonical_id (nodes_of digest q) r.issuer) q
        ≡ canonical_text (canonical_id (nodes_of digest p) s.issuer) p
        → Same q p }
    ensures exactly { (digest : List ℕ → List ℕ) (q p : List Statement) (r s : RunOutcome Blank)
        → All IsStatement q → All IsStatement p
        → length r.issuer ≤ 2 ^ 64 → length s.issuer ≤ 2 ^ 64
        → IsDataset q → IsDataset p → IsRun (nodes_of digest q) r → IsRun (nodes_of digest p) s
        → r.tie ≡ false
        → (canonical_text (canonical_id (nodes_of digest q) r.issuer) q
        ≡ canonical_text (canonical_id (nodes_of digest p) s.issuer) p) ↔ Same q p }
{}

/// Worked runs, with a digest that leaves a text as it is: no blank node; two with first-degree hashes
/// of their own; two that nothing tells apart; two that point to each other; four in a row; three that
/// all point to each other.
pub fn worked_runs()
    ensures nothing { HasRun ([]) ([]) false 0 }
    ensures chain { HasRun (edge (codes "a") (codes "b") ∷ [])
        (codes "a" ∷ codes "b" ∷ []) false 0 }
    ensures twins { HasRun (leaf (codes "a") ∷ leaf (codes "b") ∷ [])
        (codes "a" ∷ codes "b" ∷ []) true 0 }
    ensures pair { HasRun (edge (codes "a") (codes "b") ∷ edge (codes "b") (codes "a") ∷ [])
        (codes "a" ∷ codes "b" ∷ []) true 8 }
    ensures row { HasRun (edge (codes "a") (codes "b") ∷ edge (codes "b") (codes "c") ∷
        edge (codes "c") (codes "d") ∷ [])
        (codes "a" ∷ codes "d" ∷ codes "b" ∷ codes "c" ∷ []) false 8 }
    ensures triangle { HasRun (edge (codes "a") (codes "b") ∷ edge (codes "b") (codes "a") ∷
        edge (codes "b") (codes "c") ∷ edge (codes "c") (codes "b") ∷
        edge (codes "a") (codes "c") ∷ edge (codes "c") (codes "a") ∷ [])
        (codes "a" ∷ codes "b" ∷ codes "c" ∷ []) true 60 }
{}
