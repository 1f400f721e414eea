//! Laws of the definitions: each is the contract of a function that does nothing.
ghost use Rattle.std.specs.Prelude.{◌≡◌, ◌++◌, ◌∷◌, [], ℕ, List, codes, true, Some, None, Option, Result, Err, Contains};
ghost use Rattle.json_tree.specs.declared.place.Step.{Step};
ghost use Rattle.json_tree.specs.declared.place.Step.TheVariants.{Key, At};
ghost use Rattle.json_tree.specs.declared.tree.Tree.{Tree};
ghost use Rattle.json_tree.specs.declared.tree.Tree.TheVariants as v;
ghost use Rattle.json_tree.specs.Examples.{rfc_document};
ghost use Rattle.json_tree.specs.Places.{has_word_indexes, look, pointer_of};
ghost use Rattle.json_tree.specs.Trees.{is_lawful, renumbered};
ghost use Rattle.pointer_select.specs.declared.fault.PointerFault.{PointerFault};
ghost use Rattle.pointer_select.specs.declared.fault.PointerFault.TheVariants as pointer;
ghost use Rattle.pointer_select.specs.declared.fault.SelectFault.{SelectFault};
ghost use Rattle.pointer_select.specs.declared.fault.SelectFault.TheVariants as selection;
ghost use Rattle.pointer_select.specs.Examples.{left_elements, pointed_place};
ghost use Rattle.pointer_select.specs.Kept.{IsKept};
ghost use Rattle.pointer_select.specs.Naming.{place_of};
ghost use Rattle.pointer_select.specs.Pointers.{pointer_with, ReadsPointer};
ghost use Rattle.pointer_select.specs.Selection.{IsRestrictedTo, IsSelection, Selects};

/// Of a text there is one outcome of reading, out of memory aside: it spells one list of tokens, or it
/// leaves the grammar at one first byte.
pub fn a_text_has_one_outcome()
    ensures { (text : List ℕ) (r s : Result (List (List ℕ)) PointerFault)
        → ReadsPointer text r → ReadsPointer text s
        → (r ≡ Err pointer.Memory → ⊥) → (s ≡ Err pointer.Memory → ⊥) → r ≡ s }
{}

/// Of pointers and a tree there is one outcome of selecting, out of memory aside: so there is one part
/// that they select.
pub fn a_selection_has_one_outcome()
    ensures { (pointers : List (List (List ℕ))) (t : Tree) (r s : Result (Option Tree) SelectFault)
        → Selects pointers t r → Selects pointers t s
        → (r ≡ Err selection.Memory → ⊥) → (s ≡ Err selection.Memory → ⊥) → r ≡ s }
{}

/// To select again by the same places changes nothing.
pub fn selecting_again_changes_nothing()
    ensures { (places : List (List Step)) (t part again : Tree)
        → IsRestrictedTo (IsKept places) t part → IsRestrictedTo (IsKept places) part again
        → again ≡ part }
{}

/// What is pointed at is kept whole, and more places keep more.
pub fn what_is_pointed_at_is_whole()
    ensures whole { (places : List (List Step)) (t part : Tree) (place : List Step)
        → is_lawful t ≡ true → IsRestrictedTo (IsKept places) t part → Contains places place
        → look place part ≡ look place t }
    ensures more { (places others : List (List Step)) (place : List Step)
        → IsKept places place → IsKept (places ++ others) place }
{}

/// A pointer names a place that leads somewhere; and in a tree whose elements are numbered from 0, by
/// numbers of 64 bits as those of one that was read, it is the pointer of this place.
pub fn a_pointer_names_what_it_spells()
    ensures stands { (tokens : List (List ℕ)) (t : Tree) (place : List Step)
        → place_of tokens t ≡ Some place → look place t ≡ None → ⊥ }
    ensures spelled { (tokens : List (List ℕ)) (t : Tree) (place : List Step)
        → renumbered t ≡ t → has_word_indexes place ≡ true → place_of tokens t ≡ Some place
        → pointer_of place ≡ pointer_with tokens }
{}

/// Worked rows: pointers of RFC 6901, section 5, and a name that looks escaped (section 4).
pub fn worked_pointers()
    ensures whole { pointer_with [] ≡ [] }
    ensures element { pointer_with (codes "foo" ∷ codes "0" ∷ []) ≡ codes "/foo/0" }
    ensures empty { pointer_with ([] ∷ []) ≡ codes "/" }
    ensures slash { pointer_with (codes "a/b" ∷ []) ≡ codes "/a~1b" }
    ensures tilde { pointer_with (codes "m~n" ∷ []) ≡ codes "/m~0n" }
    ensures escaped_name { pointer_with (codes "~1" ∷ []) ≡ codes "/~01" }
{}

/// Worked rows: which places pointers name. In a list that lost elements an index is that of the
/// present order, while the place has the index that the element had. A number in an object is a
/// name. RFC 6901, section 4: no leading zero, no index past the end, and `-` names nothing.
pub fn worked_places()
    ensures element { place_of (codes "foo" ∷ codes "1" ∷ []) rfc_document
        ≡ Some (Key (codes "foo") ∷ At 1 ∷ []) }
    ensures slash { place_of (codes "a/b" ∷ []) rfc_document ≡ Some (Key (codes "a/b") ∷ []) }
    ensures present { place_of (codes "a" ∷ codes "1" ∷ []) left_elements
        ≡ Some (Key (codes "a") ∷ At 4 ∷ []) }
    ensures first { place_of (codes "a" ∷ codes "0" ∷ []) left_elements
        ≡ Some (Key (codes "a") ∷ At 1 ∷ []) }
    ensures not_original { place_of (codes "a" ∷ codes "4" ∷ []) left_elements ≡ None }
    ensures leading_zero { place_of (codes "a" ∷ codes "01" ∷ []) left_elements ≡ None }
    ensures past_the_end { place_of (codes "a" ∷ codes "-" ∷ []) left_elements ≡ None }
    ensures number_as_name { place_of (codes "0" ∷ []) left_elements
        ≡ Some (Key (codes "0") ∷ []) }
{}

/// Worked rows: what is kept for the place `/a/b`. The objects on the way keep their own ids, types and
/// contexts, whole; a sibling is not kept, nor is a kept name of an object beside the way.
pub fn worked_kept()
    ensures above { IsKept (pointed_place ∷ []) (Key (codes "a") ∷ []) }
    ensures below { IsKept (pointed_place ∷ [])
        (Key (codes "a") ∷ Key (codes "b") ∷ At 3 ∷ Key (codes "c") ∷ []) }
    ensures on_the_way { IsKept (pointed_place ∷ []) (Key (codes "a") ∷ Key (codes "id") ∷ []) }
    ensures under_a_name { IsKept (pointed_place ∷ [])
        (Key (codes "@context") ∷ At 0 ∷ Key (codes "t") ∷ []) }
    ensures sibling { IsKept (pointed_place ∷ []) (Key (codes "a") ∷ Key (codes "c") ∷ []) → ⊥ }
    ensures name_of_sibling { IsKept (pointed_place ∷ [])
        (Key (codes "a") ∷ Key (codes "c") ∷ Key (codes "id") ∷ []) → ⊥ }
    ensures name_beside { IsKept (pointed_place ∷ [])
        (Key (codes "c") ∷ Key (codes "@context") ∷ []) → ⊥ }
{}
