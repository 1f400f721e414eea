//! Laws of the definitions, each proved of a function that does nothing.

ghost use Rattle.std.specs.Prelude.{◌≡◌, ◌%◌, ◌/◌, ℕ, List, [], ◌∷◌};
ghost use Rattle.digest_mac.specs.Labels.{hmac_label};
ghost use Rattle.digest_mac.specs.declared.hash.Hash.{Hash};
ghost use Rattle.nquads.specs.Terms.{IsLabel, Statement};
ghost use Rattle.term_store.specs.declared.statements.Quad.{Quad};
ghost use Rattle.nquads.specs.Stored.{AreLabelsKnown, IsLabelled, labels_by_text};
ghost use Rattle.nquads.specs.declared.numbers.Label.{Label};
ghost use Rattle.rdfc_ndegree.specs.declared.limits.Limits.{Limits};
ghost use Rattle.rdfc_canon.specs.Canon.{AnswersRun};
ghost use Rattle.rdfc_canon.specs.declared.canon.Canon.{Canon};
ghost use Rattle.hmac_labels.specs.Clashes.{IsClash, IsLeastClash};
ghost use Rattle.hmac_labels.specs.Labels.{AreHmacLabels, run_labels};
ghost use Rattle.hmac_labels.specs.declared.labelling.HmacLabels.{HmacLabels};

/// Where two numbers have one label there is a least such pair, and it is the only one.
pub fn a_clash_has_one_least_pair()
    ensures some { (label : ℕ → List ℕ) (count a b : ℕ) → IsClash label count a b
        → (first second : ℕ) × IsLeastClash label count first second }
    ensures one { (label : ℕ → List ℕ) (count first second a b : ℕ)
        → IsLeastClash label count first second → IsLeastClash label count a b
        → (first ≡ a) × (second ≡ b) }
{}

/// Worked pairs: of labels that come again after three, the first and the fourth clash; of labels
/// that come in twos, the first and the second; and of the first three of the former no two do.
pub fn worked_clashes()
    ensures thirds { IsLeastClash (λ n. n % 3 ∷ []) 9 0 3 }
    ensures twos { IsLeastClash (λ n. n / 2 ∷ []) 9 0 1 }
    ensures none { (a b : ℕ) → IsClash (λ n. n % 3 ∷ []) 3 a b → ⊥ }
{}

/// Each label is one of N-Quads (RDF 1.1 N-Quads, 4, BLANK_NODE_LABEL).
pub fn each_label_is_in_the_grammar()
    ensures { (hash : Hash) (key : List ℕ) (number : ℕ) → IsLabel (hmac_label hash key number) }
{}

/// Where a run gives the canonical labels, each blank node has the label of its number in the run.
pub fn labels_follow_the_run()
    ensures { (hash : Hash) (key : List ℕ) (texts : List (List ℕ)) (q : List Statement)
        (limits : Limits) (c : Canon) (given : HmacLabels) (a : AnswersRun hash texts q limits c)
        → AreHmacLabels hash key c.labels given
        → labels_by_text texts given.labels ≡ run_labels hash key q a.run.issuer }
{}

/// The same blank nodes have labels: where the canonical labels are of numbers of the store, and
/// label a statement, so do these.
pub fn the_same_blank_nodes_have_labels()
    ensures known { (hash : Hash) (key : List ℕ) (texts : List (List ℕ)) (canonical : List Label)
        (given : HmacLabels) → AreHmacLabels hash key canonical given
        → AreLabelsKnown texts canonical → AreLabelsKnown texts given.labels }
    ensures labelled { (hash : Hash) (key : List ℕ) (texts : List (List ℕ))
        (canonical : List Label) (given : HmacLabels) (quad : Quad)
        → AreHmacLabels hash key canonical given
        → IsLabelled texts canonical quad → IsLabelled texts given.labels quad }
{}
