//! Laws of the definitions: each is the contract of a function that does nothing.

ghost use Rattle.std.specs.Prelude.{◌≡◌, ◌↔◌, ◌++◌, ◌⊎◌, ◌∷◌, [], ◌^◌, ◌-◌, ℕ, ℤ, pos, negsuc, List, codes, true, false, Some, None, Result, Err, option_and_then};
ghost use Rattle.std.specs.declared.cmp.Ordering.TheVariants.{Less, Equal};
ghost use Rattle.std.specs.Cmp.{IsTotalOrder};
ghost use Rattle.json_tree.specs.declared.tree.Item.{Item};
ghost use Rattle.json_tree.specs.declared.tree.Member.{Member};
ghost use Rattle.json_tree.specs.declared.place.Step.{Step};
ghost use Rattle.json_tree.specs.declared.place.Step.TheVariants.{Key, At};
ghost use Rattle.json_tree.specs.declared.tree.Tree.{Tree};
ghost use Rattle.json_tree.specs.declared.tree.Tree.TheOpen.{Tree-F};
ghost use Rattle.json_tree.specs.declared.tree.Tree.TheVariants as v;
ghost use Rattle.json_tree.specs.declared.tree.TreeFault.{TreeFault};
ghost use Rattle.json_tree.specs.declared.tree.TreeFault.TheVariants.{Memory};
ghost use Rattle.json_tree.specs.Examples.{rfc_document, part_of_list, part_of_document};
ghost use Rattle.json_tree.specs.Levels.{level_at};
ghost use Rattle.json_tree.specs.Members.{with_member, without};
ghost use Rattle.json_tree.specs.Misplaced.{IsMisplaced, place_cmp};
ghost use Rattle.json_tree.specs.Places.{look, first_misplaced, has_word_indexes, members_of, pointer_of};
ghost use Rattle.json_tree.specs.Reads.{Reads};
ghost use Rattle.json_tree.specs.Trees.{is_lawful, is_in_range, is_64_bits, holds_version, renumbered, nesting_of, element, new_member};
ghost use Rattle.json_tree.specs.WellFormed.{IsWellFormed};

/// To look along two places joined is to look along the second from where the first leads.
pub fn look_goes_part_by_part()
    ensures { (p q : List Step) (t : Tree)
        → look (p ++ q) t ≡ option_and_then (look q) (look p t) }
{}

/// What stands at a place of a lawful tree is lawful, and of a well-formed tree well formed.
pub fn what_stands_keeps_the_conditions()
    ensures lawful { (place : List Step) (t u : Tree)
        → look place t ≡ Some u → is_lawful t ≡ true → is_lawful u ≡ true }
    ensures well_formed { (place : List Step) (t u : Tree)
        → look place t ≡ Some u → IsWellFormed t → IsWellFormed u }
{}

/// Of a text there is one outcome of reading, out of memory aside.
pub fn a_text_has_one_outcome()
    ensures { (bytes : List ℕ) (r s : Result Tree TreeFault) → Reads bytes r → Reads bytes s
        → (r ≡ Err Memory → ⊥) → (s ≡ Err Memory → ⊥) → r ≡ s }
{}

/// The order of places is total, and of two places neither comes first only where they are one.
pub fn places_have_one_order()
    ensures total { IsTotalOrder place_cmp }
    ensures equal { (p q : List Step) → place_cmp p q ≡ Equal → p ≡ q }
{}

/// Where no first version number is misplaced, none is; and in a lawful tree the first one that is
/// misplaced stands at the least of the places where one is.
pub fn first_misplaced_is_the_least()
    ensures none { (t : Tree) (place : List Step)
        → first_misplaced t ≡ None → IsMisplaced t place → ⊥ }
    ensures least { (t : Tree) (place : List Step)
        → is_lawful t ≡ true → first_misplaced t ≡ Some place
        → IsMisplaced t place × ((other : List Step) → IsMisplaced t other
        → (other ≡ place) ⊎ (place_cmp place other ≡ Less)) }
{}

/// Lawful trees with the same level at every place are one tree: a tree is a finite map from its
/// places.
pub fn levels_make_the_tree()
    ensures { (t u : Tree) → is_lawful t ≡ true → is_lawful u ≡ true
        → ((place : List Step) → level_at place t ≡ level_at place u) → t ≡ u }
{}

/// What stands at a name is the value of the first member of that name, and what stands at an index
/// the first element with it.
pub fn the_first_stands_at_a_step()
    ensures member { (key : List ℕ) (value : Tree) (others : List (Member Tree))
        → look (Key key ∷ []) (v.Object (new_member key value ∷ others)) ≡ Some value }
    ensures element { (at : ℕ) (value : Tree) (others : List (Item Tree))
        → look (At at ∷ []) (v.List (element at value ∷ others)) ≡ Some value }
{}

/// A lawful tree holds no version number exactly where none stands at a place, and it is in range
/// exactly where each whole number at a place is from -2^63 to 2^64 - 1.
pub fn what_a_tree_holds_stands_at_places()
    ensures version { (t : Tree) → is_lawful t ≡ true
        → (holds_version t ≡ false ↔ ((place : List Step) → look place t ≡ Some v.Version → ⊥)) }
    ensures in_range { (t : Tree) → is_lawful t ≡ true
        → (is_in_range t ≡ true ↔ ((place : List Step) (z : ℤ)
        → look place t ≡ Some (v.Whole z) → is_64_bits z ≡ true)) }
{}

/// Of the places that lead somewhere in a tree, a JSON Pointer names one. RFC 6901, section 4.
pub fn a_pointer_names_one_place()
    ensures { (t : Tree) (p q : List Step) (a b : Tree)
        → look p t ≡ Some a → look q t ≡ Some b
        → has_word_indexes p ≡ true → has_word_indexes q ≡ true
        → pointer_of p ≡ pointer_of q → p ≡ q }
{}

/// Worked rows: pointers of RFC 6901, section 5, of the places in its example document, and what
/// they lead to there; and a name that looks escaped. RFC 6901, section 4.
pub fn worked_pointers()
    ensures root { (pointer_of [] ≡ []) × (look [] rfc_document ≡ Some rfc_document) }
    ensures element { (pointer_of (Key (codes "foo") ∷ At 0 ∷ []) ≡ codes "/foo/0")
        × (look (Key (codes "foo") ∷ At 0 ∷ []) rfc_document ≡ Some (v.Text (codes "bar"))) }
    ensures empty { (pointer_of (Key [] ∷ []) ≡ codes "/")
        × (look (Key [] ∷ []) rfc_document ≡ Some (v.Whole (pos 0))) }
    ensures slash { (pointer_of (Key (codes "a/b") ∷ []) ≡ codes "/a~1b")
        × (look (Key (codes "a/b") ∷ []) rfc_document ≡ Some (v.Whole (pos 1))) }
    ensures percent { (pointer_of (Key (codes "c%d") ∷ []) ≡ codes "/c%d")
        × (look (Key (codes "c%d") ∷ []) rfc_document ≡ Some (v.Whole (pos 2))) }
    ensures backslash { (pointer_of (Key (codes "i\\j") ∷ []) ≡ codes "/i\\j")
        × (look (Key (codes "i\\j") ∷ []) rfc_document ≡ Some (v.Whole (pos 5))) }
    ensures quote { (pointer_of (Key (codes "k\"l") ∷ []) ≡ codes "/k\"l")
        × (look (Key (codes "k\"l") ∷ []) rfc_document ≡ Some (v.Whole (pos 6))) }
    ensures space { (pointer_of (Key (codes " ") ∷ []) ≡ codes "/ ")
        × (look (Key (codes " ") ∷ []) rfc_document ≡ Some (v.Whole (pos 7))) }
    ensures tilde { (pointer_of (Key (codes "m~n") ∷ []) ≡ codes "/m~0n")
        × (look (Key (codes "m~n") ∷ []) rfc_document ≡ Some (v.Whole (pos 8))) }
    ensures escaped_name { pointer_of (Key (codes "~1") ∷ []) ≡ codes "/~01" }
{}

/// Worked rows: a document of which elements were left out. An index is that of the list as it was
/// read, an index leads nowhere in an object and a name nowhere in a list, and a version number is
/// misplaced unless its own name is `@version`.
pub fn worked_tree()
    ensures by_index { look (Key (codes "a/b") ∷ At 7 ∷ At 4 ∷ []) part_of_document
        ≡ Some (v.Text (codes "x")) }
    ensures not_by_position { look (Key (codes "a/b") ∷ At 1 ∷ []) part_of_document ≡ None }
    ensures no_member { look (Key (codes "a") ∷ []) part_of_document ≡ None }
    ensures name_in_list { look (Key (codes "a/b") ∷ Key (codes "7") ∷ []) part_of_document
        ≡ None }
    ensures index_in_object { look (At 0 ∷ []) part_of_document ≡ None }
    ensures level { level_at (Key (codes "a/b") ∷ []) part_of_document
        ≡ Some (Tree-F.List (record { at = 3; value = tt } ∷ record { at = 7; value = tt } ∷ [])) }
    ensures misplaced { first_misplaced part_of_document
        ≡ Some (Key (codes "a/b") ∷ At 7 ∷ At 9 ∷ []) }
    ensures numbered { renumbered part_of_list
        ≡ v.List (element 0 (v.Text (codes "x")) ∷ element 1 v.Version ∷ []) }
{}

/// Worked rows: how deep trees nest. A value alone has nesting 1, and so has an empty list; lists
/// beside one another do not add up.
pub fn worked_nesting()
    ensures alone { nesting_of v.Null ≡ 1 }
    ensures empty { nesting_of (v.List []) ≡ 1 }
    ensures inside { nesting_of part_of_document ≡ 3 }
    ensures beside { nesting_of (v.List (element 0 (v.List []) ∷ element 1 (v.List []) ∷ [])) ≡ 2 }
{}

/// Worked rows: the order of places, and which indexes have 64 bits. Indexes are compared as
/// numbers, names by their bytes, and a value comes before what is inside it.
pub fn worked_places()
    ensures numbers { place_cmp (At 9 ∷ Key (codes "b") ∷ []) (At 10 ∷ Key (codes "a") ∷ [])
        ≡ Less }
    ensures bytes { place_cmp (Key (codes "Z") ∷ []) (Key (codes "a") ∷ []) ≡ Less }
    ensures index_first { place_cmp (At 1 ∷ []) (Key (codes "0") ∷ []) ≡ Less }
    ensures inside { place_cmp (At 1 ∷ []) (At 1 ∷ At 0 ∷ []) ≡ Less }
    ensures greatest_word { has_word_indexes (Key (codes "a") ∷ At (2 ^ 64 - 1) ∷ []) ≡ true }
    ensures above_words { has_word_indexes (At (2 ^ 64) ∷ Key (codes "a") ∷ []) ≡ false }
{}

/// Worked rows: the least and the greatest whole number that is in range, and those beside them.
pub fn worked_range()
    ensures least { is_64_bits (negsuc (2 ^ 63 - 1)) ≡ true }
    ensures below { is_64_bits (negsuc (2 ^ 63)) ≡ false }
    ensures greatest { is_64_bits (pos (2 ^ 64 - 1)) ≡ true }
    ensures above { is_64_bits (pos (2 ^ 64)) ≡ false }
{}

/// A member that is put in stands at its name, and whatever is not under that name stays.
pub fn a_member_put_in()
    ensures stands { (key : List ℕ) (value t : Tree) (ms : List (Member Tree))
        → members_of t ≡ Some ms → look (Key key ∷ []) (with_member key value t) ≡ Some value }
    ensures others { (key other : List ℕ) (value t : Tree) (steps : List Step)
        → (key ≡ other → ⊥)
        → look (Key other ∷ steps) (with_member key value t)
        ≡ look (Key other ∷ steps) t }
{}

/// A member that is taken out is gone, and whatever is not under its name stays. What was put in
/// where none stood is undone.
pub fn a_member_taken_out()
    ensures gone { (key : List ℕ) (t : Tree) (steps : List Step)
        → look (Key key ∷ steps) (without key t) ≡ None }
    ensures others { (key other : List ℕ) (t : Tree) (steps : List Step) → (key ≡ other → ⊥)
        → look (Key other ∷ steps) (without key t) ≡ look (Key other ∷ steps) t }
    ensures undone { (key : List ℕ) (value t : Tree) (ms : List (Member Tree))
        → members_of t ≡ Some ms → look (Key key ∷ []) t ≡ None
        → without key (with_member key value t) ≡ t }
{}
