//! Laws of a store, each the contract of a function that does nothing.

ghost use Rattle.std.specs.Prelude.{◌≡◌, ◌<◌, ◌∷◌, [], ℕ, List, codes, length};
ghost use Rattle.base_types.specs.Sets.{AllDiffer};
ghost use Rattle.term_store.specs.Store.{text_at, Grows, Interns};
ghost use Rattle.term_store.specs.declared.store.TermId.{TermId};

/// To keep a text only makes the store grow, and in a store that only grew each number has the text
/// that it had. So a number's text never changes.
pub fn a_number_keeps_its_text()
    ensures grows { (old new : List (List ℕ)) (text : List ℕ) (n : ℕ)
        → Interns old text n new → Grows old new }
    ensures keeps { (old new : List (List ℕ)) (id : TermId)
        → Grows old new → id.index < length old → text_at new id ≡ text_at old id }
{}

/// No two numbers of a store have one text.
pub fn no_two_numbers_have_one_text()
    ensures { (texts : List (List ℕ)) → AllDiffer texts → (a b : TermId)
        → a.index < length texts → b.index < length texts
        → text_at texts a ≡ text_at texts b → a ≡ b }
{}

/// A text that is kept again has the number that it has, and the store stays as it is.
pub fn a_text_has_one_number()
    ensures { (old mid new : List (List ℕ)) (text : List ℕ) (m n : ℕ)
        → Interns old text m mid → Interns mid text n new → (n ≡ m) × (new ≡ mid) }
{}

/// A worked store: the texts a, b and a again have the numbers 0, 1 and 0, and two texts are kept.
pub fn worked_store()
    ensures first { Interns [] (codes "a") 0 (codes "a" ∷ []) }
    ensures second { Interns (codes "a" ∷ []) (codes "b") 1 (codes "a" ∷ codes "b" ∷ []) }
    ensures again { Interns (codes "a" ∷ codes "b" ∷ []) (codes "a") 0
        (codes "a" ∷ codes "b" ∷ []) }
{}
