//! Laws of the words in `specs/`, each a function that does nothing and whose contract is the law.

ghost use Rattle.std.specs.Prelude.{◌≡◌, ◌↔◌, ◌⊎◌, ◌||◌, ℕ, List, Bool, true, not};
ghost use Rattle.std.specs.Cmp.Lexicographic.{slice_cmp};
ghost use Rattle.std.specs.List.Sorted.{IsPermutation, IsSorted, IsStrictlySortedBy};
ghost use Rattle.std.specs.Ordering.{nat_cmp, is_le};
ghost use Rattle.std.specs.Str.{bytes_eq};
ghost use Rattle.base_types.specs.Order.{is_upto, is_before, each_next, rise, in_order, sorted_set};
ghost use Rattle.base_types.specs.Sets.{SameElements};

/// `is_upto` is the order by which std compares texts, and it is a total order.
pub fn is_upto_is_the_order()
    ensures agrees { (x y : List ℕ) → is_upto x y ≡ is_le (slice_cmp nat_cmp x y) }
    ensures reflexive { (x : List ℕ) → is_upto x x ≡ true }
    ensures total { (x y : List ℕ) → (is_upto x y ≡ true) ⊎ (is_upto y x ≡ true) }
    ensures antisymmetric { (x y : List ℕ) → is_upto x y ≡ true → is_upto y x ≡ true → x ≡ y }
    ensures transitive { (x y z : List ℕ) → is_upto x y ≡ true → is_upto y z ≡ true
        → is_upto x z ≡ true }
{}

/// A text comes before another exactly where the other is not upto it; it is upto another where it
/// comes before it or equals it. Of two texts one comes before the other, or they are equal.
pub fn is_before_is_the_strict_order()
    ensures strict { (x y : List ℕ) → is_before x y ≡ not (is_upto y x) }
    ensures upto { (x y : List ℕ) → is_upto x y ≡ (is_before x y || bytes_eq x y) }
    ensures one_of_three { (x y : List ℕ)
        → (is_before x y ≡ true) ⊎ ((x ≡ y) ⊎ (is_before y x ≡ true)) }
{}

/// Where each text comes before the next, the texts are in strict order: each is less than all after
/// it. So are numbers that `rise`.
pub fn each_next_is_the_strict_order()
    ensures texts { (ts : List (List ℕ)) → each_next is_before ts ≡ true
        ↔ IsStrictlySortedBy (slice_cmp nat_cmp) ts }
    ensures numbers { (ks : List ℕ) → rise ks ≡ true ↔ IsStrictlySortedBy nat_cmp ks }
{}

/// `in_order` is the one list in code-point order with the same texts, each as often. So it is what
/// a sort leaves, and the order of the list that it is taken of does not matter.
pub fn in_order_is_the_sorted_list()
    ensures moves { (ts : List (List ℕ)) → IsPermutation ts (in_order ts) }
    ensures sorted { (ts : List (List ℕ)) → IsSorted (slice_cmp nat_cmp) (in_order ts) }
    ensures only { (ts us : List (List ℕ)) → IsPermutation ts us
        → IsSorted (slice_cmp nat_cmp) us → us ≡ in_order ts }
    ensures any_order { (ts us : List (List ℕ)) → IsPermutation ts us → in_order us ≡ in_order ts }
{}

/// `sorted_set` is the one list in strict code-point order with the same texts. So it depends on the
/// set of the texts alone.
pub fn sorted_set_is_the_ordered_set()
    ensures rises { (ts : List (List ℕ)) → IsStrictlySortedBy (slice_cmp nat_cmp) (sorted_set ts) }
    ensures same { (ts : List (List ℕ)) → SameElements (sorted_set ts) ts }
    ensures only { (ts us : List (List ℕ)) → IsStrictlySortedBy (slice_cmp nat_cmp) us
        → SameElements us ts → us ≡ sorted_set ts }
    ensures any_list { (ts us : List (List ℕ)) → SameElements ts us
        → sorted_set ts ≡ sorted_set us }
{}
